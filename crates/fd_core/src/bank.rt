//! The place where a device keeps its images.

ghost use Rattle.std.specs.Prelude.{◌≡◌, ◌+◌, ◌≤◌, [], List, None, ℕ, length, Option, Some, IsSome, IsSomeAnd, OnOk, OnErr, is_some, option_map};
ghost use Rattle.fd_core.specs.Banks.{CountsFailure};
ghost use Rattle.fd_core.specs.Codes.{longest_image};
ghost use Rattle.fd_core.specs.Images.{RowOf, StageOf, active_of, applied_of, rows_after_drop, row_of, sealed_by, staged_with, rows_after_switch};

use crate::labels::Label;
use fwup_wire::Key;
use thiserror::Error;

/// Why a call of a bank failed.
#[derive(Clone, Copy, Debug, PartialEq, Eq, Error)]
pub enum BankFault {
    /// The memory device failed.
    #[error("Device")]
    Device,
    /// Memory could not be allocated.
    #[error("Memory")]
    Memory,
}

/// A bank of images. For each component, in configured order, it has the active image and at most
/// one applied image, which becomes active next. It also has at most one stage, an image that is
/// being written. Its components never change.
///
/// A call that fails changes neither images nor stage, and adds one to `failures`, which stops at
/// its last value, 2^64 - 1. No other call changes `failures`.
pub trait Bank {
    ghost rows: { Self → List RowOf };

    ghost stage: { Self → Option StageOf };

    ghost faults: { Self → ℕ };

    /// Returns the active image, if the bank has the component.
    fn active(&self, key: Key) -> Option<(&Label, &[u8])>
        ensures found { is_some result ≡ is_some (active_of (row_of (rows self.now) key)) }
        ensures image { option_map (λ r. record { label = r.0.now; bytes = r.1.now }) result
            ≡ active_of (row_of (rows self.now) key) };

    /// Returns the applied image, if there is one.
    fn applied(&self, key: Key) -> Option<(&Label, &[u8])>
        ensures found { is_some result ≡ is_some (applied_of (row_of (rows self.now) key)) }
        ensures image { option_map (λ r. record { label = r.0.now; bytes = r.1.now }) result
            ≡ applied_of (row_of (rows self.now) key) };

    /// Begins a new, empty stage for an image of `size` bytes, at most `MAX_IMAGE`.
    fn begin(&mut self, key: Key, size: u32, label: &Label) -> Result<(), BankFault>
        requires known { IsSome (row_of (rows self.old) key) }
        requires size { size ≤ longest_image }
        ensures rows { rows self.new ≡ rows self.old }
        ensures ok { OnOk result (stage self.new ≡ Some (record { key = key; size = size; label = label.now; bytes = [] })) }
        ensures kept { OnErr result (stage self.new ≡ stage self.old) }
        ensures worked { OnOk result (faults self.new ≡ faults self.old) }
        ensures failed { OnErr result (CountsFailure (faults self.old) (faults self.new)) };

    /// Appends to the stage.
    fn put(&mut self, piece: &[u8]) -> Result<(), BankFault>
        requires { IsSomeAnd (stage self.old) (λ s. length s.bytes + length piece.now ≤ s.size) }
        ensures rows { rows self.new ≡ rows self.old }
        ensures ok { OnOk result (stage self.new ≡ staged_with (stage self.old) piece.now) }
        ensures kept { OnErr result (stage self.new ≡ stage self.old) }
        ensures worked { OnOk result (faults self.new ≡ faults self.old) }
        ensures failed { OnErr result (CountsFailure (faults self.old) (faults self.new)) };

    /// Makes the full stage the applied image of its component.
    fn seal(&mut self) -> Result<(), BankFault>
        requires { IsSomeAnd (stage self.old) (λ s. length s.bytes ≡ s.size) }
        ensures ok { OnOk result ((rows self.new ≡ sealed_by (rows self.old) (stage self.old)) × (stage self.new ≡ None)) }
        ensures kept { OnErr result ((rows self.new ≡ rows self.old) × (stage self.new ≡ stage self.old)) }
        ensures worked { OnOk result (faults self.new ≡ faults self.old) }
        ensures failed { OnErr result (CountsFailure (faults self.old) (faults self.new)) };

    /// Makes all applied images active, and drops the stage: entirely or not at all.
    fn switch(&mut self) -> Result<(), BankFault>
        ensures ok { OnOk result ((rows self.new ≡ rows_after_switch (rows self.old)) × (stage self.new ≡ None)) }
        ensures kept { OnErr result ((rows self.new ≡ rows self.old) × (stage self.new ≡ stage self.old)) }
        ensures worked { OnOk result (faults self.new ≡ faults self.old) }
        ensures failed { OnErr result (CountsFailure (faults self.old) (faults self.new)) };

    /// Drops all applied images and the stage.
    fn drop_pending(&mut self)
        ensures rows { rows self.new ≡ rows_after_drop (rows self.old) }
        ensures stage { stage self.new ≡ None }
        ensures faults { faults self.new ≡ faults self.old };

    /// Returns the number of calls that failed. The count stops at its last value.
    fn failures(&self) -> u64
        ensures { result ≡ faults self.now };
}
