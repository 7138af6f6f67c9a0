//! Messages of MCTP (DSP0236, section 8): cut into packets, and assembled from packets.
#![tactic(auto)]

mod assembly;
mod cutting;
mod inbox;
mod laws;
mod messages;
mod outcomes;

pub use assembly::Assembly;
pub use cutting::{piece_at, split};
pub use inbox::{Inbox, TAGS};
pub use laws::{feeds_next, feeds_other, pieces_of_a_message};
pub use messages::{Message, MessageFault};
pub use outcomes::{DropCause, Fed, Taken};
