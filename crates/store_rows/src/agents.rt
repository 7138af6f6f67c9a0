//! The text of what an agent keeps.

use fw_store::{KeptLine, agent_text, read_agent};
use sel_core::{LogRecord, LogSettings};
use std::alloc::Global;
use std::test::Fail;
use ua_core::Recorded;

/// A text, written by hand, with the CRC-32 of another program.
const WORKED: &[u8] =
    b"session 9 1\nrecord 9 1 0\nrecord 255 1 2\nsession 255 18446744073709551615\nlog 65534 65535 4294967295 10 0 1\nentry 0500C1010203040506070809FF0B0C0D\n1681AE51\n";

/// Its lines.
const LINES: [KeptLine; 6] = [
    KeptLine::Session {
        device: 9,
        package: 1,
    },
    KeptLine::Record {
        device: 9,
        recorded: Recorded {
            package: 1,
            component: 0,
        },
    },
    KeptLine::Record {
        device: 255,
        recorded: Recorded {
            package: 1,
            component: 2,
        },
    },
    KeptLine::Session {
        device: 255,
        package: 18_446_744_073_709_551_615,
    },
    KeptLine::Log(LogSettings {
        next_id: 0xFFFE,
        next_reservation: 0xFFFF,
        offset: 0xFFFF_FFFF,
        last_addition: Some(9),
        last_erase: None,
        overflow: true,
    }),
    KeptLine::Entry(LogRecord {
        id: 5,
        record_type: 0xC1,
        rest: [1, 2, 3, 4, 5, 6, 7, 8, 9, 0xFF, 11, 12, 13],
    }),
];

#[test]
fn the_worked_text_is_written_and_read(rt: HostRuntime) -> Result<(), Fail> {
    let text = agent_text(rt.alloc(), &LINES)?;
    assert!(rt; text.as_slice() == WORKED);
    match read_agent(rt.alloc(), WORKED)? {
        Some(lines) => assert!(rt; lines.as_slice() == LINES.as_slice()),
        None => assert!(rt; false),
    }
    Ok(())
}

/// Whether a text is read as no lines of an agent.
fn is_refused(alloc: Global, text: &[u8]) -> bool {
    match read_agent(alloc, text) {
        Ok(read) => read.is_none(),
        Err(_) => false,
    }
}

#[test]
fn other_texts_are_refused(rt: HostRuntime) -> Result<(), Fail> {
    let alloc = rt.alloc();
    assert!(rt; is_refused(alloc, b""));
    assert!(rt; is_refused(alloc, &WORKED[..WORKED.len() - 1]));
    for place in 0..WORKED.len() {
        let mut text = Vec::new(alloc);
        text.extend_from_slice(WORKED)?;
        text[place] = text[place].wrapping_add(1);
        assert!(rt; is_refused(alloc, &text), "{place}");
    }
    Ok(())
}
