//! The answers that an answerer keeps for repeated requests, and how long.

use super::answer_to;
use mctp_reasm::Message;
use mctp_wire::Unit;
use pldm_exch::{Answerer, Asked};

/// A step of a case.
#[derive(Clone, Copy)]
enum Step {
    /// The answer to the request of this tag and identifier is kept, with this field.
    Keep(u8, u8, u8),
    /// The request of this tag and identifier is received: the field of the kept answer, if any.
    Ask(u8, u8, Option<u8>),
    /// This number of ticks passes.
    Ticks(u32),
}

use Step::{Ask, Keep, Ticks};

/// The request of a tag and an identifier.
fn request(tag: u8, identifier: u8) -> Option<Message> {
    let bytes = [0x01, 0x80 | (identifier % 32), 0x05, 0x1B];
    Message::new(Unit::U64, 9, 8, true, tag % 8, &bytes).ok()
}

/// Whether the request of a tag and an identifier gets the kept answer with this field, or is new.
fn asks(answerer: &Answerer, tag: u8, identifier: u8, wanted: Option<u8>) -> bool {
    let Some(request) = request(tag, identifier) else {
        return false;
    };
    match answerer.on_request(&request) {
        Asked::New => wanted.is_none(),
        Asked::Again(answer) => wanted.is_some() && answer.bytes().last().copied() == wanted,
    }
}

/// Keeps the answer to the request of a tag and an identifier.
fn keep(answerer: &mut Answerer, tag: u8, identifier: u8, field: u8) {
    let Some(request) = request(tag, identifier) else {
        return;
    };
    if let Some(answer) = answer_to(&request, field) {
        answerer.keep(&answer);
    }
}

/// Whether the steps hold for an answerer without kept answers.
fn hold(steps: &[Step]) -> bool {
    let mut answerer = Answerer::new();
    for step in steps {
        match *step {
            Keep(tag, identifier, field) => keep(&mut answerer, tag, identifier, field),
            Ask(tag, identifier, wanted) => {
                if !asks(&answerer, tag, identifier, wanted) {
                    return false;
                }
            }
            Ticks(count) => {
                for _ in 0..count {
                    answerer.tick();
                }
            }
        }
    }
    true
}

static ROWS: [(&str, &[Step]); 3] = [
    (
        "one answer",
        &[
            Ask(3, 11, None),
            Keep(3, 11, 0x77),
            Ask(3, 11, Some(0x77)),
            Ticks(24),
            Ask(3, 11, Some(0x77)),
            Ticks(1),
            Ask(3, 11, None),
        ],
    ),
    (
        "a tag's last answer alone, whose 24 ticks begin anew",
        &[
            Keep(0, 0, 1),
            Ask(0, 8, None),
            Ticks(1),
            Keep(0, 8, 2),
            Ask(0, 8, Some(2)),
            Ask(0, 0, None),
            Ticks(24),
            Ask(0, 8, Some(2)),
            Ticks(1),
            Ask(0, 8, None),
        ],
    ),
    (
        "two tags",
        &[
            Keep(6, 6, 1),
            Ticks(1),
            Keep(7, 7, 2),
            Ask(6, 7, None),
            Ask(7, 6, None),
            Ticks(24),
            Ask(6, 6, None),
            Ask(7, 7, Some(2)),
        ],
    ),
];

#[test]
fn gives_an_answer_again_for_24_ticks(rt: HostRuntime) {
    for (situation, steps) in &ROWS {
        assert!(rt; hold(steps), "{situation}");
    }
}
