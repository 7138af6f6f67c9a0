//! The update agent's session with one device (DSP0267 1.0): one update, from the query to the
//! activation, as a table of states. A session borrows the package whose components it sends.
#![tactic(auto)]

mod fault;
mod happening;
mod laws;
mod lent;
mod mark;
mod piece;
mod planned;
mod plans;
mod position;
mod session;
mod state;

pub use fault::{NotReady, StartFault};
pub use happening::{Happening, happened};
pub use laws::{
    applies_all, pieces_continue, records_what_is_applied, refusals_change_nothing, stays_in_plan,
    wish_stands,
};
pub use lent::Lent;
pub use mark::Mark;
pub use planned::Recorded;
pub use position::IDLE_LIMIT;
pub use session::Session;
pub use state::{Cause, SessionState};
