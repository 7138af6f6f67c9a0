//! Pseudo-random texts, and good ones with one byte changed: the line of a fault is never before
//! the change.

use fw_script::{ScriptCause, ScriptFault, read_config, read_schedule};
use std::test::Fail;

/// The number of texts of each kind.
const TEXTS: usize = 10_000;

/// A good configuration.
const CONFIG: &[u8] = b"\
# A board.
agent 8 00112233-4455-6677-8899-aabbccddeeff
unit 128
device 9 00000000-0000-0000-0000-000000000009
descriptor 0000 3412
component 10 1 0 1 1.0 AA
device 10 00000000-0000-0000-0000-00000000000a
component 10 2 1 1 1.0 AABBCC
package a.fwpkg
";

/// A good schedule.
const SCHEDULE: &[u8] = b"\
start 9 1
tick
deliver 9 1 9
# A comment.
tick 20
verdict 9 verify-ok
activate 9
restart 8
sel 40
";

/// The bytes of random texts.
const BYTES: &[u8] = b"\n #0123456789abcdefgimnoprstuvy-\xFF";

/// Pseudo-random numbers, the same in each run (xorshift, 64 bits).
#[derive(Drop)]
struct Dice {
    state: u64,
}

impl Dice {
    /// The next number.
    fn roll(&mut self) -> u64 {
        self.state ^= self.state << 13;
        self.state ^= self.state >> 7;
        self.state ^= self.state << 17;
        self.state
    }

    /// A number below a limit.
    fn below(&mut self, limit: usize) -> usize {
        (self.roll() >> 16) as usize % limit.max(1)
    }
}

/// The reader of a text.
#[derive(Clone, Copy)]
enum Reader {
    Config,
    Schedule,
}

impl Reader {
    /// The line of the fault of a text, and whether memory was refused; none for a good text.
    fn fault(self, rt: &HostRuntime, text: &[u8]) -> Option<(usize, bool)> {
        let fault = match self {
            Reader::Config => read_config(rt.alloc(), text).err(),
            Reader::Schedule => read_schedule(rt.alloc(), text).err(),
        };
        let ScriptFault { line, cause } = fault?;
        Some((line, cause == ScriptCause::Memory))
    }
}

/// The number of the line that contains a byte, from 1.
fn line_at(text: &[u8], place: usize) -> usize {
    let mut line: usize = 1;
    for (at, byte) in text.iter().enumerate() {
        if at < place && *byte == b'\n' {
            line = line.saturating_add(1);
        }
    }
    line
}

/// Whether each text with one byte changed is read, or refused at the changed line or after it.
/// Returns the number of texts that are read.
fn changed(
    rt: &HostRuntime,
    reader: Reader,
    good: &[u8],
    dice: &mut Dice,
) -> Result<Option<usize>, Fail> {
    let mut read: usize = 0;
    for _ in 0..TEXTS {
        let mut text = Vec::from_slice(rt.alloc(), good)?;
        let place = dice.below(good.len());
        let [_, _, _, byte, ..] = dice.roll().to_le_bytes();
        if let Some(old) = text.get_mut(place) {
            *old = byte;
        }
        match reader.fault(rt, &text) {
            None => read = read.saturating_add(1),
            Some((line, wants_memory)) => {
                if wants_memory || line < line_at(good, place) {
                    return Ok(None);
                }
            }
        }
    }
    Ok(Some(read))
}

/// Whether each text of random bytes is read, or refused at one of its lines or at the one after
/// the last.
fn random(rt: &HostRuntime, reader: Reader, dice: &mut Dice) -> Result<bool, Fail> {
    for _ in 0..TEXTS {
        let mut text = Vec::new(rt.alloc());
        for _ in 0..dice.below(64) {
            if let Some(byte) = BYTES.get(dice.below(BYTES.len())) {
                text.push(*byte)?;
            }
        }
        if let Some((line, wants_memory)) = reader.fault(rt, &text) {
            if wants_memory || line == 0 || line_at(&text, text.len()).saturating_add(1) < line {
                return Ok(false);
            }
        }
    }
    Ok(true)
}

/// Whether all texts of a reader are read or refused that way, the good one is read, and so are
/// more than 100 of the changed ones.
fn are_read_or_refused(
    rt: &HostRuntime,
    reader: Reader,
    good: &[u8],
    dice: &mut Dice,
) -> Result<bool, Fail> {
    let is_good = reader.fault(rt, good).is_none();
    let read = changed(rt, reader, good, dice)?;
    Ok(is_good && read > Some(100) && random(rt, reader, dice)?)
}

#[test]
fn a_fault_never_stands_before_what_is_wrong(rt: HostRuntime) -> Result<(), Fail> {
    let mut dice = Dice {
        state: 0x9E3779B97F4A7C15,
    };
    for (reader, good) in [(Reader::Config, CONFIG), (Reader::Schedule, SCHEDULE)] {
        assert!(rt; are_read_or_refused(&rt, reader, good, &mut dice)?);
    }
    Ok(())
}
