//! The laws of frames and their reader.

ghost use Rattle.mctp_serial.specs.Laws.{GivesFramed, HasCheckValue, HasOneFrame, LosesOneFrame, LosesTwoFrames, ReadsFrame, WritesFrames};

/// The check sequence of "123456789" alone is 6F91, the published check value of a CRC-16/MCRF4XX.
pub fn check_sequence_is_published()
    ensures value { HasCheckValue }
{}

/// The bytes that `write` writes are a frame of the packet (`written`). A packet has no other frame
/// (`only`).
pub fn frames_are_unique()
    ensures written { WritesFrames }
    ensures only { HasOneFrame }
{}

/// A reader between frames, or in any other state in which a flag begins a frame, returns the
/// packet of a frame once and no other packet. Then it is between frames again.
pub fn frames_are_read_back()
    ensures read { ReadsFrame }
{}

/// Each packet that a new reader returns, over any bytes, is the packet of a frame that the bytes
/// so far end with.
pub fn what_is_given_was_framed()
    ensures framed { GivesFramed }
{}

/// A reader in any state returns the packet of the second of two frames in a row (`one`). The
/// exception is at a unit of 128, after a flag and a revision: the reader may take the flag that
/// begins the first frame for a byte count. Then it returns the packet of the third frame at the
/// latest (`two`).
pub fn recovers_after_noise()
    ensures one { LosesOneFrame }
    ensures two { LosesTwoFrames }
{}
