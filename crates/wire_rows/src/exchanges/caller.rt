//! The requests of a caller, call by call.

use super::answer_to;
use mctp_reasm::Message;
use mctp_wire::Unit;
use pldm_exch::{CallTick, Caller};

/// A caller and its last request.
#[derive(Drop)]
struct Run {
    caller: Caller,
    request: Option<Message>,
}

impl Run {
    /// Creates a caller before the first request.
    fn new() -> Run {
        Run {
            caller: Caller::new(8, 9),
            request: None,
        }
    }

    /// Makes a call: `b` begins a request, `a` gives it the answer to the last one, `x` does both,
    /// `c` abandons it and `t` is a tick. The result is `S` for a tick that sends the last request,
    /// `?` for one that sends another message, `G` if the caller gives up, `-` for an answer that
    /// isn't accepted, `!` for a call that isn't possible, and otherwise the state afterwards.
    fn call(&mut self, call: u8) -> u8 {
        match call {
            b'b' => self.begin(),
            b'a' => self.hear(),
            b'x' => {
                let _ = self.begin();
                self.hear()
            }
            b'c' => {
                self.caller.abandon();
                self.state()
            }
            _ => self.tick(),
        }
    }

    /// Begins a request, if one may begin.
    fn begin(&mut self) -> u8 {
        if !self.caller.can_begin() {
            return b'!';
        }
        self.request = Some(self.caller.begin(Unit::U64, 5, 0x1B, &[]));
        self.state()
    }

    /// Gives the caller the answer to the last request.
    fn hear(&mut self) -> u8 {
        let Some(request) = &self.request else {
            return b'!';
        };
        let Some(answer) = answer_to(request, 0) else {
            return b'!';
        };
        if self.caller.on_answer(&answer).is_none() {
            return b'-';
        }
        self.state()
    }

    /// Passes a tick.
    fn tick(&mut self) -> u8 {
        match self.caller.tick() {
            CallTick::Nothing => self.state(),
            CallTick::Send if self.repeats() => b'S',
            CallTick::Send => b'?',
            CallTick::GaveUp => b'G',
        }
    }

    /// Whether the message to send again is that of the last request.
    fn repeats(&self) -> bool {
        match (self.caller.open_message(), &self.request) {
            (Some(again), Some(request)) => again.bytes() == request.bytes(),
            _ => false,
        }
    }

    /// The state: `o` for an open request, `m` if one may begin, `q` if it is quiet and `w` if it
    /// waits.
    fn state(&self) -> u8 {
        if self.caller.is_open() {
            b'o'
        } else if self.caller.can_begin() {
            b'm'
        } else if self.caller.quiet() {
            b'q'
        } else {
            b'w'
        }
    }
}

/// Calls, the number of repetitions, and the expected result of each.
type Turns<'a> = (&'a [u8], u32, &'a [u8]);

/// Whether calls on a caller have their expected results.
fn give(run: &mut Run, turns: &[Turns<'_>]) -> bool {
    for &(calls, times, wanted) in turns {
        for _ in 0..times {
            for (call, letter) in calls.iter().zip(wanted) {
                if run.call(*call) != *letter {
                    return false;
                }
            }
        }
    }
    true
}

static ROWS: [(&str, &[Turns<'static>]); 5] = [
    (
        "no answer",
        &[
            (b"b", 1, b"o"),
            (b"tttttt", 2, b"oooooS"),
            (b"tttttta", 1, b"oooooG-"),
            (b"t", 33, b"w"),
            (b"t", 8, b"m"),
        ],
    ),
    (
        "one answer in each of eight ticks",
        &[
            (b"xt", 7, b"mm"),
            (b"xb", 1, b"q!"),
            (b"t", 32, b"q"),
            (b"t", 8, b"m"),
        ],
    ),
    (
        "answered after its last sending",
        &[
            (b"b", 1, b"o"),
            (b"tttttt", 2, b"oooooS"),
            (b"tttaa", 1, b"ooom-"),
        ],
    ),
    (
        "abandoned after three ticks",
        &[
            (b"bttt", 1, b"oooo"),
            (b"ca", 1, b"w-"),
            (b"t", 36, b"w"),
            (b"t", 8, b"m"),
        ],
    ),
    ("abandoned with nothing open", &[(b"xc", 1, b"mm")]),
];

#[test]
fn says_when_it_sends_and_when_it_may_begin(rt: HostRuntime) {
    for (situation, turns) in &ROWS {
        assert!(rt; give(&mut Run::new(), turns), "{situation}");
    }
}

/// Whether eight requests, one in each tick, leave the eight rests from 33 to 40.
fn eight_requests_rest() -> bool {
    let mut run = Run::new();
    give(&mut run, &[(b"xt", 7, b"mm"), (b"x", 1, b"q")])
        && *run.caller.rests() == [33, 34, 35, 36, 37, 38, 39, 40]
}

#[test]
fn eight_requests_leave_the_rests_33_to_40(rt: HostRuntime) {
    assert!(rt; eight_requests_rest());
}

/// The answer that the third request, of tag 2 and identifier 2, accepts from a message under a
/// tag: its last byte.
fn heard(to: bool, tag: u8, bytes: &[u8]) -> Option<u8> {
    let mut run = Run::new();
    for call in b"xxb" {
        let _ = run.call(*call);
    }
    let Ok(message) = Message::new(Unit::U64, 8, 9, to, tag % 8, bytes) else {
        return None;
    };
    match run.caller.on_answer(&message) {
        Some(heard) => heard.reply.last().copied(),
        None => None,
    }
}

/// A case: TO and the tag of a message, its bytes, and the accepted answer.
type Row<'a> = (&'a str, bool, u8, [u8; 5], Option<u8>);

static MESSAGES: [Row<'static>; 9] = [
    ("its answer", false, 2, [1, 0x02, 5, 0x1B, 7], Some(7)),
    ("another identifier", false, 2, [1, 0x0A, 5, 0x1B, 7], None),
    ("another type", false, 2, [1, 0x02, 0, 0x1B, 7], None),
    ("another command", false, 2, [1, 0x02, 5, 0x1C, 7], None),
    ("Rq set", false, 2, [1, 0x82, 5, 0x1B, 7], None),
    ("another tag", false, 3, [1, 0x02, 5, 0x1B, 7], None),
    ("TO set", true, 2, [1, 0x02, 5, 0x1B, 7], None),
    ("D set", false, 2, [1, 0x42, 5, 0x1B, 7], None),
    ("no PLDM message", false, 2, [0, 0x02, 5, 0x1B, 7], None),
];

#[test]
fn hears_its_answer_alone(rt: HostRuntime) {
    for (situation, to, tag, bytes, wanted) in &MESSAGES {
        assert!(rt; heard(*to, *tag, bytes) == *wanted, "{situation}");
    }
}
