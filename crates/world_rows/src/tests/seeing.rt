//! Observations of a world.

use crate::tests::packages::is_image;
use crate::tests::setup::{DEVICE, KEY, Small};
use fd_core::{Bank, State};
use fw_world::{Entry, HistoryEvent, Image};
use ua_core::SessionState;

/// Returns whether the same packets were sent between the agent and a device in two worlds, each at
/// the same tick.
pub fn sent_alike(one: &Small<'_>, other: &Small<'_>, device: u8) -> bool {
    let (Some(packets), Some(others)) = (one.packets(device), other.packets(device)) else {
        return false;
    };
    for place in 0..packets.len() {
        if packets.get(place) != others.get(place) {
            return false;
        }
    }
    packets.len() == others.len()
}

/// Returns whether a device and its session are in these states, and this number of packets was
/// sent between it and the agent.
pub fn stands(
    world: &Small<'_>,
    device: u8,
    session: SessionState,
    state: State,
    sent: usize,
) -> bool {
    match (
        world.agent().session(device),
        world.device(device),
        world.packets(device),
    ) {
        (Some(s), Some(d), Some(packets)) => {
            s.state() == session && d.device().state() == state && packets.len() == sent
        }
        _ => false,
    }
}

/// The active image of a device.
fn image_of<'w>(world: &'w Small<'_>, device: u8) -> &'w [u8] {
    let Some(node) = world.device(device) else {
        return &[];
    };
    match node.device().bank().active(KEY) {
        Some((_, image)) => image,
        None => &[],
    }
}

/// Returns whether a device's active image is the worked one.
pub fn is_updated(world: &Small<'_>, device: u8) -> bool {
    is_image(image_of(world, device))
}

/// Returns whether a device's active image is AA, the first one.
pub fn runs_first(world: &Small<'_>, device: u8) -> bool {
    image_of(world, device) == [0xAA].as_slice()
}

/// Whether the worked device and its session are in the same states in two worlds, with the same
/// active image.
fn nodes_alike(one: &Small<'_>, other: &Small<'_>) -> bool {
    let (Some(node), Some(session)) = (one.device(DEVICE), one.agent().session(DEVICE)) else {
        return false;
    };
    let Some(packets) = one.packets(DEVICE) else {
        return false;
    };
    stands(
        other,
        DEVICE,
        session.state(),
        node.device().state(),
        packets.len(),
    ) && image_of(one, DEVICE) == image_of(other, DEVICE)
}

/// Whether the event logs of two worlds have the same records.
fn logs_alike(one: &Small<'_>, other: &Small<'_>) -> bool {
    let (log, others) = (one.agent().log(), other.agent().log());
    for place in 0..log.len() {
        if log.record_at(place) != others.record_at(place) {
            return false;
        }
    }
    log.len() == others.len()
}

/// Whether two images are equal.
fn images_alike(one: &Image<'_>, other: &Image<'_>) -> bool {
    one.key == other.key && one.bytes.as_slice() == other.bytes.as_slice()
}

/// Whether two entries of a history are equal.
fn entries_alike(one: &Entry<'_>, other: &Entry<'_>) -> bool {
    one.device == other.device
        && match (&one.event, &other.event) {
            (HistoryEvent::Applied(one), HistoryEvent::Applied(other)) => images_alike(one, other),
            (HistoryEvent::Activated(one), HistoryEvent::Activated(other)) => images_alike(
                one, other,
            ),
            (HistoryEvent::Recorded(one), HistoryEvent::Recorded(other)) => {
                (one.package, one.component) == (other.package, other.component)
            }
            _ => false,
        }
}

/// Whether the histories of two worlds have the same entries.
fn histories_alike(one: &Small<'_>, other: &Small<'_>) -> bool {
    let (history, others) = (one.history(), other.history());
    for (entry, another) in history.iter().zip(others) {
        if !entries_alike(entry, another) {
            return false;
        }
    }
    history.len() == others.len()
}

/// Returns whether two worlds of the worked device are equal in time, nodes, packets, event log,
/// its last answer, and history.
pub fn are_alike(one: &Small<'_>, other: &Small<'_>) -> bool {
    one.now() == other.now()
        && nodes_alike(one, other)
        && sent_alike(one, other, DEVICE)
        && logs_alike(one, other)
        && one.answer() == other.answer()
        && histories_alike(one, other)
}
