//! The nodes that count a tick.

ghost use Rattle.std.specs.Prelude.{◌≡◌};
ghost use Rattle.fw_steps.specs.Worlds.{counts};

/// Whether the node with this identifier counts a tick that `missed` miss.
pub(crate) fn counts(missed: &[u8], eid: u8) -> bool
    ensures { result ≡ counts missed.now eid }
{
    missed.is_empty() || !missed.contains(&eid)
}
