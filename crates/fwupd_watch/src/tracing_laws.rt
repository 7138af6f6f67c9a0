//! Laws of traces.

ghost use Rattle.fwupd_watch.specs.Traces.{TextsAreLines};

/// A text trace of one device is the lines of all packets sent so far, whatever the turns in which
/// they were written.
pub fn texts_are_lines()
    ensures { TextsAreLines }
{}
