//! Pseudo-random packets, at both nodes: whatever arrives, only replies are sent back, and an
//! update still works afterwards.

use crate::nodes::bench::Bench;
use crate::packages::{ONE, file, package};
use crate::worked::{AGENT, DEVICE};
use mctp_wire::{RawPacket, Unit};
use std::alloc::AllocError;
use std::test::Fail;

/// The number of packets for each node.
const PACKETS: usize = 200_000;

/// Pseudo-random numbers, the same in each run (xorshift, 64 bits).
#[derive(Drop)]
struct Dice {
    state: u64,
}

impl Dice {
    /// The next number.
    fn byte(&mut self) -> u8 {
        self.state ^= self.state << 13;
        self.state ^= self.state >> 7;
        self.state ^= self.state << 17;
        let [_, _, byte, ..] = self.state.to_le_bytes();
        byte
    }
}

/// A packet to a node from its peer. One in four consists of random bytes only. The others have a
/// header, and three in four of them are whole messages, most of them requests of a known type with
/// a known command.
fn noise(dice: &mut Dice, node: u8, peer: u8) -> RawPacket {
    let mut packet = RawPacket::new();
    let kind = dice.byte();
    if kind >= 64 {
        let flags = if kind >= 112 { 0xC8 } else { dice.byte() };
        let message_type = [0, 1, 1, 1, 1, 1, 5, kind][usize::from(kind % 8)];
        let pldm_type = [0, 5, 5, 5, 5, 5, 5, kind][usize::from(kind / 8 % 8)];
        let identifier = 0x80 | dice.byte() % 32;
        let command = dice.byte() % 32;
        let _ = packet.try_extend_from_slice(&[1, node, peer, flags | kind % 8, message_type]);
        let _ = packet.try_extend_from_slice(&[identifier, pldm_type, command]);
    }
    for _ in 0..dice.byte() % 61 {
        let _ = packet.try_push(dice.byte());
    }
    packet
}

/// Whether a packet is a node's answer to its peer: it is not a request, and if a PLDM answer
/// begins in it, its code is one of DSP0240 or DSP0267.
fn is_answer(packet: &[u8], node: u8, peer: u8) -> bool {
    let [1, dest, source, flags, message_type, rest @ ..] = packet else {
        return false;
    };
    let is_coded = match rest {
        [head, _, _, code, ..] if *message_type == 1 && flags & 0x80 != 0 => {
            head & 0x80 == 0 && (*code <= 5 || *code == 0x20 || (0x80 <= *code && *code <= 0x91))
        }
        _ => true,
    };
    *dest == peer && *source == node && flags & 0x08 == 0 && is_coded
}

/// Delivers `PACKETS` packets to a node, with a tick after each eighth. Returns the number of
/// answers, or none if anything else was sent back.
fn answers(
    bench: &mut Bench<'_>,
    dice: &mut Dice,
    node: u8,
    peer: u8,
) -> Result<Option<usize>, AllocError> {
    let mut count: usize = 0;
    for number in 0..PACKETS {
        let packet = noise(dice, node, peer);
        bench.packets.clear();
        bench.hand_over(packet.as_slice())?;
        for answer in &bench.packets {
            if !is_answer(answer.as_slice(), node, peer) {
                return Ok(None);
            }
            count = count.saturating_add(1);
        }
        if number % 8 == 7 {
            bench.tick()?;
        }
    }
    Ok(Some(count))
}

/// Whether an update over perfect links succeeds after the nodes have become quiet.
fn still_updates(bench: &mut Bench<'_>) -> Result<bool, AllocError> {
    bench.ticks(300)?;
    bench.packets.clear();
    bench.delivered = 0;
    let started = bench.start();
    bench.turns(12)?;
    Ok(started && bench.is_updated(241))
}

/// Whether more than 10,000 answers, and nothing else, are sent back from each node.
fn answer_noise(bench: &mut Bench<'_>) -> Result<bool, AllocError> {
    let mut dice = Dice {
        state: 0x2545F4914F6CDD1D,
    };
    let device = answers(bench, &mut dice, DEVICE, AGENT)?;
    let agent = answers(bench, &mut dice, AGENT, DEVICE)?;
    Ok(device > Some(10_000) && agent > Some(10_000))
}

#[test]
fn noise_is_answered_or_dropped(rt: HostRuntime) -> Result<(), Fail> {
    let bytes = file(rt.alloc(), ONE)?;
    let packages = [package(&bytes)?];
    let mut bench = Bench::new(rt.alloc(), Unit::U64, &packages)?;
    assert!(rt; answer_noise(&mut bench)? && still_updates(&mut bench)?);
    Ok(())
}
