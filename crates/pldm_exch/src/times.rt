//! The times of an exchange, in ticks of the node that counts them, and the life of a packet, in
//! units of time.
//!
//! A node may miss one tick in nine, so `c` ticks take `c` to `c + c / 8 + 1` units: 9 ticks at
//! most 11 units, 12 at most 14, and 25 at most 29. A packet may arrive until 8 units after its
//! sending. An assembly ends with the ninth tick after its last packet.

/// The ticks after which an open request is sent again, twice. Its last sending is 12 ticks after
/// its first, at most 14 units, so its last copy arrives at most 22 units after the first sending.
pub const RETRY: u8 = 6;

/// The ticks after which an open request is given up: one `RETRY` after its last sending.
pub const GIVEN_UP: u8 = 3 * RETRY;

/// The ticks for which an answer is kept. The last copy of its request arrives at most 22 units
/// after the request began, so every copy finds the kept answer.
pub const HOLD: u8 = 24;

/// The ticks for which a tag rests after the last sending of a request under it: 40 units or more.
/// By then nothing of that request is left. Its last copy arrives within 8 units, and the answer to
/// that copy within 16. An assembly of copies ends within 19, and an assembly of answers within 27.
/// The kept answer is dropped within 37.
pub const RETIRE: u8 = 40;

/// The units of time after its sending within which a packet may arrive.
pub const LIFE: u32 = 8;

/// The ticks for which a node is deaf and silent after a restart. A tag rests for as long, so
/// nothing of the node's earlier requests is left when it receives again.
pub const DEAF: u8 = RETIRE;
