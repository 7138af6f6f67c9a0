//! A firmware device under update (DSP0267 1.0): the banks with its images, and its state machine.
#![tactic(auto)]

mod bank;
mod device;
mod failing;
mod labels;
mod laws;
mod memory;
mod parts;
mod states;

pub use bank::{Bank, BankFault};
pub use device::{Device, stamp_restriction};
pub use failing::FailBank;
pub use fwup_wire::Key;
pub use labels::{Label, MAX_TEXT};
pub use laws::{
    bank_calls_decide, components_stay, devices_keep_components, refusals_change_nothing,
};
pub use memory::MemBank;
pub use parts::{BankComponent, MAX_COMPONENTS, MAX_IMAGE};
pub use states::{NotNow, Progress, Reason, State, Verdict};
