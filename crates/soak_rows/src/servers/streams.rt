//! Lines read from a reader, and what they print written to a writer.

use crate::servers::setup::device_filter;
use fwupd_base::{AnswerFault, LineServer, serve_stream};
use std::alloc::Global;
use std::test::Fail;

/// Serves a text with a limit of bytes. Returns the outcome, and what is written.
fn streamed<S: LineServer>(
    alloc: Global,
    server: &mut S,
    text: &[u8],
    limit: usize,
) -> (Result<(), AnswerFault>, Vec<u8>) {
    let mut written = Vec::new(alloc);
    let mut reader = text;
    let outcome = serve_stream(alloc, &mut reader, &mut written, server, limit.min(1 << 40));
    (outcome, written)
}

#[test]
fn each_line_is_served_and_the_last_needs_no_line_feed(rt: HostRuntime) -> Result<(), Fail> {
    let mut device = device_filter(rt.alloc(), false)?;
    let text = b"tick\n\n# a remark\n010908C8008002\nverdict verify-ok\nbad";
    let (outcome, written) = streamed(rt.alloc(), &mut device, text, 1000);
    assert!(rt; outcome.is_ok());
    assert!(rt;
        written.as_slice() == b"-\n010809C000000200090100\nrefused NotNow\nfault Hex\n".as_slice()
    );
    Ok(())
}

#[test]
fn the_first_byte_past_the_limit_ends_the_run(rt: HostRuntime) -> Result<(), Fail> {
    let mut device = device_filter(rt.alloc(), false)?;
    let (outcome, written) = streamed(rt.alloc(), &mut device, b"tick\ntick\n", 9);
    assert!(rt; matches!(outcome, Err(AnswerFault::Read)));
    assert!(rt; written.as_slice() == b"-\n".as_slice());
    let (outcome, written) = streamed(rt.alloc(), &mut device, b"tick\ntick\n", 10);
    assert!(rt; outcome.is_ok());
    assert!(rt; written.as_slice() == b"-\n-\n".as_slice());
    Ok(())
}
