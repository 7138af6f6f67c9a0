//! The report of a world, and whether two worlds are equal.

use crate::tests::setup::{DEVICE, Small};
use fw_script::report;
use fw_world::{Entry, HistoryEvent, Image, SentPackets};
use std::alloc::{AllocError, Global};

/// `report`; its contract isn't needed in the proofs of the tests.
fn report_of(alloc: Global, world: &Small<'_>) -> Result<Vec<u8>, AllocError> {
    report(alloc, world)
}

/// Returns whether the report of a world is this text.
pub fn is_reported(alloc: Global, world: &Small<'_>, text: &[u8]) -> bool {
    match report_of(alloc, world) {
        Ok(report) => report.as_slice() == text,
        Err(_) => false,
    }
}

/// Returns whether two worlds are equal in their reports, the packets of device 9, the event logs'
/// records, and the images of the histories, byte for byte.
pub fn are_alike(alloc: Global, one: &Small<'_>, other: &Small<'_>) -> Result<bool, AllocError> {
    let report = report_of(alloc, one)?;
    let other_report = report_of(alloc, other)?;
    Ok(report.as_slice() == other_report.as_slice() && parts_alike(one, other))
}

/// Whether two worlds are equal in the other parts.
fn parts_alike(one: &Small<'_>, other: &Small<'_>) -> bool {
    sent_alike(one, other, DEVICE) && logs_alike(one, other) && histories_alike(one, other)
}

/// Returns whether the same packets were sent between the agent and a device in two worlds, each at
/// the same tick.
pub fn sent_alike(one: &Small<'_>, other: &Small<'_>, device: u8) -> bool {
    match (one.packets(device), other.packets(device)) {
        (Some(packets), Some(others)) => packets_alike(&packets, &others),
        _ => false,
    }
}

/// Whether the packets are equal to the others.
fn packets_alike(packets: &SentPackets<'_>, others: &SentPackets<'_>) -> bool {
    for place in 0..packets.len() {
        if packets.get(place) != others.get(place) {
            return false;
        }
    }
    packets.len() == others.len()
}

/// Whether the event logs of two worlds have the same records.
fn logs_alike(one: &Small<'_>, other: &Small<'_>) -> bool {
    let (log, other_log) = (one.agent().log(), other.agent().log());
    for place in 0..log.len() {
        if log.record_at(place) != other_log.record_at(place) {
            return false;
        }
    }
    log.len() == other_log.len()
}

/// Whether the histories of two worlds have the same entries.
fn histories_alike(one: &Small<'_>, other: &Small<'_>) -> bool {
    let (history, others) = (one.history(), other.history());
    for (entry, another) in history.iter().zip(others) {
        if !entries_alike(entry, another) {
            return false;
        }
    }
    history.len() == others.len()
}

/// Whether two entries of a history are equal.
fn entries_alike(one: &Entry<'_>, other: &Entry<'_>) -> bool {
    one.device == other.device
        && match (&one.event, &other.event) {
            (HistoryEvent::Applied(one), HistoryEvent::Applied(other)) => images_alike(one, other),
            (HistoryEvent::Activated(one), HistoryEvent::Activated(other)) => images_alike(
                one, other,
            ),
            (HistoryEvent::Recorded(one), HistoryEvent::Recorded(other)) => {
                (one.package, one.component) == (other.package, other.component)
            }
            _ => false,
        }
}

/// Whether two images are equal.
fn images_alike(one: &Image<'_>, other: &Image<'_>) -> bool {
    one.key == other.key && one.bytes.as_slice() == other.bytes.as_slice()
}
