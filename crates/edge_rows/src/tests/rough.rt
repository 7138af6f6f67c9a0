//! Links with random faults.

use crate::tests::runs::is_silent;
use crate::tests::setup::{DEVICE, Small, driven_over, is_updated, runs_first, start};
use crate::tests::trials::{Trial, holds};
use fw_edge::{Link, MemLink, Rough};
use fw_world::Side;
use fwupd_base::Roughness;
use mctp_wire::RawPacket;
use std::alloc::{AllocError, Global};
use std::test::Fail;

/// The roughness with these percentages of lost and duplicated packets, this largest delay in
/// turns, and this seed.
fn roughness(loss: u8, duplicate: u8, delay: u8, seed: u64) -> Roughness {
    Roughness {
        loss,
        duplicate,
        delay,
        seed,
    }
}

/// A rough link in memory.
fn rough(alloc: Global, roughness: Roughness) -> Rough<MemLink> {
    Rough::new(alloc, MemLink::new(alloc), roughness, 9)
}

/// Sends the packets 1 to `last`, of a byte each, at the agent's end. Returns whether all were
/// taken.
fn sends(link: &mut Rough<MemLink>, last: u8) -> bool {
    for before in 0..last {
        let mut packet = RawPacket::new();
        packet.push(before + 1);
        if link.send(Side::Agent, &packet).is_err() {
            return false;
        }
    }
    link.sent() == u64::from(last)
}

/// Asks both ends in a turn, the device's first, until neither gives a packet, and lists the
/// packets of the device's end.
fn turn(link: &mut Rough<MemLink>, came: &mut Vec<u8>) -> Result<(), AllocError> {
    for _ in 0..1000 {
        let packet = link.receive(Side::Device);
        let other = link.receive(Side::Agent);
        match (packet, other) {
            (Ok(Some(packet)), _) => match packet.as_slice() {
                [number] => came.push(*number)?,
                _ => came.push(0)?,
            },
            _ => return Ok(()),
        }
    }
    Ok(())
}

/// The packets that arrive of 1 to `last`, in `turns` turns over such a link.
fn comes(alloc: Global, asked: Roughness, last: u8, turns: usize) -> Result<Vec<u8>, AllocError> {
    let mut link = rough(alloc, asked);
    let mut came = Vec::new(alloc);
    if !sends(&mut link, last) {
        return Ok(came);
    }
    for _ in 0..turns {
        turn(&mut link, &mut came)?;
    }
    Ok(came)
}

/// A case: the percentages of lost and duplicated packets, and the packets that arrive of three.
static CERTAIN: [(&str, u8, u8, &[u8]); 4] = [
    ("none is lost, none comes twice", 0, 0, &[1, 2, 3]),
    ("each is lost", 100, 0, &[]),
    ("each comes twice", 0, 100, &[1, 1, 2, 2, 3, 3]),
    ("each is lost, and none comes twice", 100, 100, &[]),
];

/// Whether these arrive of three packets, with each of three seeds.
fn comes_so(alloc: Global, loss: u8, duplicate: u8, want: &[u8]) -> bool {
    for seed in 0..3 {
        match comes(alloc, roughness(loss, duplicate, 0, seed), 3, 1) {
            Ok(came) if came.as_slice() == want => {}
            _ => return false,
        }
    }
    true
}

#[test]
fn at_none_and_at_all_nothing_is_left_to_chance(rt: HostRuntime) {
    for (situation, loss, duplicate, want) in &CERTAIN {
        assert!(rt;
            comes_so(rt.alloc(), *loss, *duplicate, want),
            "{situation}"
        );
    }
}

/// Whether these are the numbers 1 to 40.
fn are_forty(came: &[u8]) -> bool {
    for (place, number) in came.iter().enumerate() {
        if usize::from(*number) != place + 1 {
            return false;
        }
    }
    came.len() == 40
}

/// Whether each of forty packets arrives once with a seed, and at most eight turns late.
fn each_comes_once(alloc: Global, seed: u64) -> bool {
    match comes(alloc, roughness(0, 0, 8, seed), 40, 9) {
        Ok(mut came) => came.sort().is_ok() && are_forty(&came),
        Err(_) => false,
    }
}

#[test]
fn each_packet_comes_once_and_late_by_no_more_turns(rt: HostRuntime) {
    for seed in 0..10 {
        assert!(rt; each_comes_once(rt.alloc(), seed));
    }
}

/// Whether a seed gives the same result twice, and another seed a different one.
fn is_repeated(alloc: Global) -> Result<bool, AllocError> {
    let first = comes(alloc, roughness(30, 30, 5, 1), 100, 6)?;
    let again = comes(alloc, roughness(30, 30, 5, 1), 100, 6)?;
    let other = comes(alloc, roughness(30, 30, 5, 2), 100, 6)?;
    Ok(first.as_slice() == again.as_slice() && first.as_slice() != other.as_slice())
}

#[test]
fn a_seed_gives_the_same_again(rt: HostRuntime) -> Result<(), Fail> {
    assert!(rt; is_repeated(rt.alloc())?);
    Ok(())
}

/// Whether a device's active image is the worked one or the first one.
fn has_either(world: &Small<'_>) -> bool {
    is_updated(world, DEVICE) || runs_first(world, DEVICE)
}

/// Returns whether the worked update ends over such a link, and the device's active image is the
/// worked one or the first one.
pub fn ends(alloc: Global, world: &mut Small<'_>, asked: Roughness) -> bool {
    let mut links = [rough(alloc, asked)];
    if !start(world, DEVICE) {
        return false;
    }
    match driven_over(alloc, world, &mut links, 5000) {
        Some(run) => run.turns < 5000 && has_either(world),
        None => false,
    }
}

#[test]
fn an_update_over_rough_links_ends_with_one_image_or_the_other(rt: HostRuntime) {
    for seed in 0..10 {
        assert!(rt; holds(rt.alloc(), Trial::EndsRoughly(roughness(20, 10, 3, seed))));
    }
}

/// Returns whether the device is silent in the worked update over a link that loses all packets.
pub fn loses_all(alloc: Global, world: &mut Small<'_>) -> bool {
    is_silent(alloc, world, &mut [rough(alloc, roughness(100, 0, 0, 1))])
}

#[test]
fn refused_memory_is_asked_for_before_packets_are_late(rt: HostRuntime) -> Result<(), Fail> {
    let alloc = rt.alloc();
    // a packet that isn't delayed is passed on and lost below, which needs no memory
    let below = Rough::new(alloc, MemLink::new(alloc), roughness(100, 0, 0, 1), 9);
    let Ok(mut link) = Rough::with_room(alloc, below, roughness(0, 100, 8, 1), 9) else {
        return Ok(());
    };
    let mut packet = RawPacket::new();
    packet.push(1);
    for _ in 0..512 {
        assert!(rt; link.send(Side::Agent, &packet).is_ok());
    }
    Ok(())
}
