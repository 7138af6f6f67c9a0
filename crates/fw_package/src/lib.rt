//! Firmware update packages (DSP0267 1.0): reads and writes them, and finds the components of a
//! device.
#![tactic(auto)]

mod asked;
mod bitmaps;
mod components;
mod contents;
mod crc;
mod crc_table;
mod descriptors;
mod fault;
mod laws;
mod layout;
mod measures;
mod numbers;
mod outlines;
mod packages;
mod places;
mod plans;
mod reading;
mod records;
mod texts;
mod used;
mod uses;
mod writing;

pub use asked::{AskedComponent, AskedFault, AskedPackage, AskedRecord};
pub use components::{Component, Components};
pub use crc::crc32;
pub use descriptors::Descriptors;
pub use fault::{PackageFault, PlanFault};
pub use laws::{chooses_first, one_package, plans_named_images};
pub use outlines::{BEGINNING_SIZE, Outline};
pub use packages::Package;
pub use places::{ComponentPlaces, Place};
pub use plans::{PLAN_LIMIT, Plan};
pub use records::{Record, Records};
pub use texts::{Descriptor, Text};
pub use uses::Uses;
pub use writing::Header;
