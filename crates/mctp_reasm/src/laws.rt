//! Laws for the layers above: how a message is cut, and how an assembly takes its pieces.

ghost use Rattle.mctp_reasm.specs.Laws.{FeedsNext, FeedsOther, PiecesOfAMessage};

/// A message has one to four pieces, which together are its bytes. Piece i has sequence number i,
/// SOM set if it is the first, and EOM set if it is the last. Each piece but the last is a whole
/// transmission unit.
pub fn pieces_of_a_message()
    ensures { PiecesOfAMessage }
{}

/// If a proper beginning of a message's pieces is held, its first piece and the next one are taken.
/// The last piece completes the message; any other is appended to the held pieces.
pub fn feeds_next()
    ensures { FeedsNext }
{}

/// If a proper beginning of a message's pieces is held, any other piece of the message is dropped,
/// and then nothing is held.
pub fn feeds_other()
    ensures { FeedsOther }
{}
