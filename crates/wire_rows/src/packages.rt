//! Packages put together by hand, decoded, refused and planned.

mod drafts;
mod outlining;
mod planning;
mod reading;
mod refusing;
mod writing;
