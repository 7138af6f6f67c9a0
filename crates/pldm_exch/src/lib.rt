//! Exchanges of PLDM messages (DSP0240) between two nodes: the requests of one direction, which are
//! repeated until they are answered, and the answers of the other, which are kept for repeated
//! requests.
#![tactic(auto)]

mod answerer;
mod asker;
mod caller;
mod laws;
mod request;
mod rests;
mod taker;
mod times;

pub use answerer::{Answerer, Asked};
pub use asker::Asker;
pub use caller::{CallTick, Caller, ReplyIn};
pub use laws::{
    answers_are_kept, answers_stay_lawful, callers_stay_lawful, eight_requests_rest, kept_change,
    open_requests_repeat, repeats_answer_the_request, rests_change, rests_outlast_sendings,
};
pub use mctp_reasm::TAGS;
pub use request::{Received, Request, body_of};
pub use taker::Taker;
pub use times::{DEAF, LIFE};
