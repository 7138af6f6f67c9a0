//! Writers whose bytes can be synced to the disk.

ghost use Rattle.std.specs.Prelude.{◌≡◌, List, None, OnOk, Option, ℕ};
ghost use Rattle.std.specs.Io.KnownBytes.{Keeps};

use std::fs::File;
use std::io::{self, Write};

/// A writer whose bytes can be synced to the disk, where they survive a loss of power. In
/// contracts, `on_disk` are the synced bytes, if they are known.
pub trait Durable: Write {
    ghost on_disk: { Self → Option (List ℕ) } = { λ _. None };

    /// Syncs all written bytes to the disk.
    ///
    /// # Errors
    /// The system's error.
    fn persist(&mut self) -> io::Result<()>
        ensures all { OnOk result (on_disk self.new ≡ Self.contents self.new) }
        ensures kept { Keeps (Self.contents self.old) (Self.contents self.new) };
}

impl Durable for File {
    fn persist(&mut self) -> io::Result<()> {
        self.sync_data()
    }
}
