//! A link that loses, duplicates and delays packets on purpose.

ghost use Rattle.std.specs.Prelude.{[], ◌∷◌, ◌≡◌, ◌≤◌, ◌+◌, ◌-◌, ◌^◌, ◌<◌, ◌⊎◌, false, true, IfOk, OnErr, OnOk, is_some, length, min, option_map, option_to_list, vec_capacity};
ghost use Rattle.std.specs.List.{filter};
ghost use Rattle.rand_pcg.specs.Lcg.{increment_of, started};
ghost use Rattle.rand_pcg.specs.Pcg.{multiplier_64};
ghost use Rattle.fw_edge.specs.Fates.{fate_of, generator_after};
ghost use Rattle.fw_edge.specs.Frames.{frames_of};
ghost use Rattle.fw_edge.specs.Ledgers.{TakesPackets};
ghost use Rattle.fw_edge.specs.Links.{AsksForFrame, FailsCall, GrowsAt, CountsOne, CountsOneIf, SendsPacket, packet_if};
ghost use Rattle.fw_edge.specs.Roughening.{GoOut, PassesOn, PassesSome, Releases, at_once, ends_turn, helds_of, idle_after, is_due, is_late, waits_of};

use crate::fates::{Fate, next_fate};
use crate::frame::FrameFault;
use crate::link::Link;
use crate::tally::Tally;
use fw_world::Side;
use fwupd_base::Roughness;
use mctp_wire::{RawPacket, copy_of};
use rand_pcg::Pcg32;
use std::alloc::{AllocError, Global};

/// The number of delayed packets that `with_room` reserves room for.
const MOST_HELD: usize = 1_024;

/// A delayed packet.
#[derive(Drop)]
pub struct DelayedPacket {
    /// The end at which it was sent.
    side: Side,
    /// The turn after which it is sent.
    due: u64,
    packet: RawPacket,
}

/// A link over another link that loses, duplicates and delays packets on purpose. A random
/// generator decides, so a seed repeats the run.
///
/// It does so to packets that are sent. A lost packet is taken, but not passed on to the lower
/// link; a duplicated packet is passed on twice; and a delayed packet is held back for some turns.
/// Frames of the lower link are returned unchanged.
///
/// For a link, a turn ends when the device's end and then the agent's end were asked for a frame
/// and neither gave one. `drive` does so in the last round of each turn, unless it stops there at
/// its limit of frames; for a single device it does so in no other round.
///
/// If the lower link fails to take a due packet, all delayed packets stay held back, also those
/// that were passed on; a caller that continues sends them again.
#[derive(Drop)]
pub struct Rough<L: Link + Drop> {
    link: L,
    roughness: Roughness,
    generator: Pcg32,
    held: Vec<DelayedPacket>,
    /// The number of turns that have ended.
    turn: u64,
    /// Whether the device's end gave no frame when it was last asked, and since then no call has
    /// failed and the agent's end gave no answer.
    is_idle: bool,
    tally: Tally,
}

/// Passes a copy of a packet on to the lower link, or holds it back if it is delayed.
fn pass_copy<L: Link>(
    link: &mut L,
    held: &mut Vec<DelayedPacket>,
    turn: u64,
    side: Side,
    packet: &RawPacket,
    wait: u32,
) -> Result<(), FrameFault>
    ensures passes { OnOk result (PassesOn turn (wait ∷ []) side packet.now.items (L.taken link.old)
        (L.taken link.new) (helds_of held.old.items) (helds_of held.new.items)) }
    ensures counts { OnOk result (TakesPackets (length (at_once (wait ∷ []) packet.now.items))
        (L.tally link.old) (L.tally link.new)) }
    ensures gave { OnOk result (L.gave link.new ≡ L.gave link.old) }
    ensures stops { OnErr result (PassesSome turn (wait ∷ []) side packet.now.items
        (L.tally link.old).failures (L.tally link.new).failures (vec_capacity held.old)
        (helds_of held.old.items) (helds_of held.new.items)) }
    ensures room { vec_capacity held.old ≤ vec_capacity held.new }
{
    if wait == 0 {
        return link.send(side, packet);
    }
    let copy = DelayedPacket {
        side,
        due: turn.saturating_add(u64::from(wait)),
        packet: copy_of(packet),
    };
    match held.push(copy) {
        Ok(()) => Ok(()),
        Err(_) => Err(FrameFault::Io),
    }
}

/// Passes a packet on to the lower link, according to its fate.
fn pass<L: Link>(
    link: &mut L,
    held: &mut Vec<DelayedPacket>,
    turn: u64,
    side: Side,
    packet: &RawPacket,
    fate: Fate,
) -> Result<(), FrameFault>
    ensures passes { OnOk result (PassesOn turn (waits_of fate) side packet.now.items
        (L.taken link.old) (L.taken link.new) (helds_of held.old.items) (helds_of held.new.items)) }
    ensures counts { OnOk result (TakesPackets (length (at_once (waits_of fate) packet.now.items))
        (L.tally link.old) (L.tally link.new)) }
    ensures gave { OnOk result (L.gave link.new ≡ L.gave link.old) }
    ensures stops { OnErr result (PassesSome turn (waits_of fate) side packet.now.items
        (L.tally link.old).failures (L.tally link.new).failures (vec_capacity held.old)
        (helds_of held.old.items) (helds_of held.new.items)) }
{
    match fate {
        Fate::Lost => Ok(()),
        Fate::Once(wait) => pass_copy(link, held, turn, side, packet, wait),
        Fate::Twice(first, second) => {
            pass_copy(link, held, turn, side, packet, first)?;
            pass_copy(link, held, turn, side, packet, second)
        }
    }
}

/// Passes on the packets that are due after `turn`.
fn send_due<L: Link>(link: &mut L, held: &[DelayedPacket], turn: u64) -> Result<(), FrameFault>
    ensures out { OnOk result (GoOut (filter (is_due turn) (helds_of held.now)) (L.taken link.old) (L.taken link.new)) }
    ensures counts { OnOk result (TakesPackets (length (filter (is_due turn) (helds_of held.now)))
        (L.tally link.old) (L.tally link.new)) }
    ensures gave { OnOk result (L.gave link.new ≡ L.gave link.old) }
    ensures refused { OnErr result (CountsOne (L.tally link.old).failures (L.tally link.new).failures) }
{
    for packet in held {
        if packet.due <= turn {
            match link.send(packet.side, &packet.packet) {
                Ok(()) => {}
                Err(fault) => return Err(fault),
            }
        }
    }
    Ok(())
}

/// Removes the packets that are due after `turn`.
fn let_go(held: &mut Vec<DelayedPacket>, turn: u64)
    ensures { helds_of held.new.items ≡ filter (is_late turn) (helds_of held.old.items) }
{
    held.retain(|packet| packet.due > turn);
}

/// Passes on the delayed packets that are due after `turn`, and removes them.
fn release<L: Link>(
    link: &mut L,
    held: &mut Vec<DelayedPacket>,
    turn: u64,
) -> Result<(), FrameFault>
    ensures released { OnOk result (Releases turn (L.taken link.old) (L.taken link.new)
        (helds_of held.old.items) (helds_of held.new.items)) }
    ensures counts { OnOk result (TakesPackets (length (filter (is_due turn)
        (helds_of held.old.items))) (L.tally link.old) (L.tally link.new)) }
    ensures gave { OnOk result (L.gave link.new ≡ L.gave link.old) }
    ensures refused { OnErr result (CountsOne (L.tally link.old).failures (L.tally link.new).failures) }
    ensures kept { OnErr result (held.new ≡ held.old) }
{
    send_due(link, held.as_slice(), turn)?;
    let_go(held, turn);
    Ok(())
}

impl<L: Link + Drop> Rough<L> {
    /// Creates a rough link over `link`. Its random numbers are the stream `stream` of the seed.
    pub fn new(alloc: Global, link: L, roughness: Roughness, stream: u64) -> Rough<L>
        ensures link { result.link ≡ link }
        ensures roughness { result.roughness ≡ roughness }
        ensures generator { result.generator ≡ started 64 multiplier_64 roughness.seed (increment_of 64 stream) }
        ensures held { result.held.items ≡ [] }
        ensures turn { result.turn ≡ 0 }
        ensures idle { result.is_idle ≡ false }
        ensures failures { result.tally.failures ≡ 0 }
        ensures sent { result.tally.sent ≡ 0 }
        ensures asked { result.tally.asked ≡ 0 }
        ensures given { result.tally.given ≡ 0 }
    {
        Rough {
            link,
            roughness,
            generator: Pcg32::new(roughness.seed, stream),
            held: Vec::new(alloc),
            turn: 0,
            is_idle: false,
            tally: Tally::new(),
        }
    }

    /// Creates a rough link over `link`, as `new` does. If it delays packets, it has room for 1,024
    /// of them; it allocates only when more are held back.
    ///
    /// # Errors
    /// `AllocError` if memory is refused.
    pub fn with_room(
        alloc: Global,
        link: L,
        roughness: Roughness,
        stream: u64,
    ) -> Result<Rough<L>, AllocError>
        ensures link { IfOk result (λ r. r.link ≡ link) }
        ensures roughness { IfOk result (λ r. r.roughness ≡ roughness) }
        ensures generator { IfOk result (λ r. r.generator ≡ started 64 multiplier_64 roughness.seed (increment_of 64 stream)) }
        ensures held { IfOk result (λ r. r.held.items ≡ []) }
        ensures room { IfOk result (λ r. 0 < roughness.delay → MOST_HELD ≤ vec_capacity r.held) }
        ensures turn { IfOk result (λ r. r.turn ≡ 0) }
        ensures idle { IfOk result (λ r. r.is_idle ≡ false) }
        ensures failures { IfOk result (λ r. r.tally.failures ≡ 0) }
        ensures sent { IfOk result (λ r. r.tally.sent ≡ 0) }
        ensures asked { IfOk result (λ r. r.tally.asked ≡ 0) }
        ensures given { IfOk result (λ r. r.tally.given ≡ 0) }
    {
        let mut rough = Rough::new(alloc, link, roughness, stream);
        if roughness.delay > 0 {
            match rough.held.reserve(MOST_HELD) {
                Ok(()) => {}
                Err(_) => return Err(AllocError),
            }
        }
        Ok(rough)
    }

    /// Records that an end was asked, and whether it gave a frame; after a turn, passes on what is
    /// due.
    fn pass_turn(&mut self, side: Side, gave: bool) -> Result<(), FrameFault>
        ensures same { (self.new.tally ≡ self.old.tally)
            × (self.new.generator ≡ self.old.generator)
            × (self.new.roughness ≡ self.old.roughness) }
        ensures idle { self.new.is_idle ≡ idle_after side gave }
        ensures on { ends_turn side gave self.old.is_idle ≡ false
            → OnOk result ((self.new.link ≡ self.old.link)
            × (self.new.held ≡ self.old.held)
            × (self.new.turn ≡ self.old.turn)) }
        ensures turn { ends_turn side gave self.old.is_idle ≡ true → self.new.turn ≡ min (self.old.turn + 1) (2 ^ 64 - 1) }
        ensures released { ends_turn side gave self.old.is_idle ≡ true
            → OnOk result (Releases self.new.turn (L.taken self.old.link) (L.taken self.new.link)
            (helds_of self.old.held.items) (helds_of self.new.held.items)) }
        ensures counts { ends_turn side gave self.old.is_idle ≡ true
            → OnOk result (TakesPackets (length (filter (is_due self.new.turn)
            (helds_of self.old.held.items))) (L.tally self.old.link) (L.tally self.new.link)) }
        ensures gave { OnOk result (L.gave self.new.link ≡ L.gave self.old.link) }
        ensures only { OnErr result (ends_turn side gave self.old.is_idle ≡ true) }
        ensures refused { OnErr result (CountsOne (L.tally self.old.link).failures (L.tally self.new.link).failures) }
        ensures kept { OnErr result (self.new.held ≡ self.old.held) }
    {
        let was_idle = self.is_idle;
        self.is_idle = side == Side::Device && !gave;
        if side == Side::Device || gave || !was_idle {
            return Ok(());
        }
        self.turn = self.turn.saturating_add(1);
        release(&mut self.link, &mut self.held, self.turn)
    }
}

impl<L: Link + Drop> Link for Rough<L> {
    ghost tally = { λ r. r.tally };

    ghost gave = { λ r. L.gave r.link };

    fn send(&mut self, side: Side, packet: &RawPacket) -> Result<(), FrameFault>
        ensures ok { OnOk result (SendsPacket self.old.tally self.new.tally) }
        ensures err { OnErr result (FailsCall self.old.tally self.new.tally) }
        ensures gave { OnOk result (L.gave self.new.link ≡ L.gave self.old.link) }
        ensures passes { OnOk result (PassesOn self.old.turn
            (waits_of (fate_of self.old.roughness self.old.generator)) side packet.now.items
            (L.taken self.old.link) (L.taken self.new.link) (helds_of self.old.held.items)
            (helds_of self.new.held.items)) }
        ensures counts { OnOk result (TakesPackets (length (at_once
            (waits_of (fate_of self.old.roughness self.old.generator)) packet.now.items))
            (L.tally self.old.link) (L.tally self.new.link)) }
        ensures stops { OnErr result (PassesSome self.old.turn
            (waits_of (fate_of self.old.roughness self.old.generator)) side packet.now.items
            (L.tally self.old.link).failures (L.tally self.new.link).failures
            (vec_capacity self.old.held) (helds_of self.old.held.items)
            (helds_of self.new.held.items)) }
        ensures generator { self.new.generator ≡ generator_after self.old.generator }
        ensures same { (self.new.roughness ≡ self.old.roughness)
            × (self.new.turn ≡ self.old.turn)
            × (self.new.is_idle ≡ self.old.is_idle) }
    {
        let fate = next_fate(self.roughness, &mut self.generator);
        match pass(
            &mut self.link,
            &mut self.held,
            self.turn,
            side,
            packet,
            fate,
        ) {
            Ok(()) => {
                self.tally.send();
                Ok(())
            }
            Err(fault) => {
                self.tally.fail();
                Err(fault)
            }
        }
    }

    fn receive(&mut self, side: Side) -> Result<Option<RawPacket>, FrameFault>
        ensures ok { IfOk result (λ p. AsksForFrame (is_some p) self.old.tally self.new.tally) }
        ensures err { OnErr result (FailsCall self.old.tally self.new.tally) }
        ensures gave { IfOk result (λ p. GrowsAt side (frames_of
            (option_to_list (option_map (λ q. q.items) p))) (L.gave self.old.link)
            (L.gave self.new.link)) }
        ensures on { IfOk result (λ p. ends_turn side (is_some p) self.old.is_idle ≡ false
            → (L.taken self.new.link ≡ L.taken self.old.link) × (self.new.held ≡ self.old.held) × (self.new.turn ≡ self.old.turn)) }
        ensures turn { IfOk result (λ p. ends_turn side (is_some p) self.old.is_idle ≡ true
            → self.new.turn ≡ min (self.old.turn + 1) (2 ^ 64 - 1)) }
        ensures released { IfOk result (λ p. ends_turn side (is_some p) self.old.is_idle ≡ true
            → Releases self.new.turn (L.taken self.old.link) (L.taken self.new.link)
            (helds_of self.old.held.items) (helds_of self.new.held.items)) }
        ensures asked { IfOk result (λ p. CountsOne (L.tally self.old.link).asked (L.tally self.new.link).asked) }
        ensures given { IfOk result (λ p. CountsOneIf (is_some p) (L.tally self.old.link).given (L.tally self.new.link).given) }
        ensures refused { OnErr result (CountsOne (L.tally self.old.link).failures (L.tally self.new.link).failures) }
        ensures kept { OnErr result (self.new.held ≡ self.old.held) }
        ensures turn_still { OnErr result ((self.new.turn ≡ self.old.turn)
            ⊎ ((ends_turn side false self.old.is_idle ≡ true)
            × (self.new.turn ≡ min (self.old.turn + 1) (2 ^ 64 - 1)))) }
        ensures idle { IfOk result (λ p. self.new.is_idle ≡ idle_after side (is_some p)) }
        ensures idle_no_more { OnErr result (self.new.is_idle ≡ false) }
        ensures same { (self.new.generator ≡ self.old.generator) × (self.new.roughness ≡ self.old.roughness) }
    {
        let mut packet = RawPacket::new();
        match self.receive_into(side, &mut packet) {
            Ok(true) => Ok(Some(packet)),
            Ok(false) => Ok(None),
            Err(fault) => Err(fault),
        }
    }

    fn receive_into(&mut self, side: Side, packet: &mut RawPacket) -> Result<bool, FrameFault>
        ensures ok { IfOk result (λ came. AsksForFrame came self.old.tally self.new.tally) }
        ensures none { IfOk result (λ came. came ≡ false → packet.new.items ≡ packet.old.items) }
        ensures err { OnErr result (FailsCall self.old.tally self.new.tally) }
        ensures gave { IfOk result (λ came. GrowsAt side (frames_of
            (packet_if came packet.new.items)) (L.gave self.old.link) (L.gave self.new.link)) }
        ensures on { IfOk result (λ came. ends_turn side came self.old.is_idle ≡ false
            → (L.taken self.new.link ≡ L.taken self.old.link) × (self.new.held ≡ self.old.held) × (self.new.turn ≡ self.old.turn)) }
        ensures turn { IfOk result (λ came. ends_turn side came self.old.is_idle ≡ true
            → self.new.turn ≡ min (self.old.turn + 1) (2 ^ 64 - 1)) }
        ensures released { IfOk result (λ came. ends_turn side came self.old.is_idle ≡ true
            → Releases self.new.turn (L.taken self.old.link) (L.taken self.new.link)
            (helds_of self.old.held.items) (helds_of self.new.held.items)) }
        ensures asked { IfOk result (λ came. CountsOne (L.tally self.old.link).asked (L.tally self.new.link).asked) }
        ensures given { IfOk result (λ came. CountsOneIf came (L.tally self.old.link).given (L.tally self.new.link).given) }
        ensures refused { OnErr result (CountsOne (L.tally self.old.link).failures (L.tally self.new.link).failures) }
        ensures kept { OnErr result (self.new.held ≡ self.old.held) }
        ensures turn_still { OnErr result ((self.new.turn ≡ self.old.turn)
            ⊎ ((ends_turn side false self.old.is_idle ≡ true)
            × (self.new.turn ≡ min (self.old.turn + 1) (2 ^ 64 - 1)))) }
        ensures idle { IfOk result (λ came. self.new.is_idle ≡ idle_after side came) }
        ensures idle_no_more { OnErr result (self.new.is_idle ≡ false) }
        ensures same { (self.new.generator ≡ self.old.generator) × (self.new.roughness ≡ self.old.roughness) }
    {
        let came = match self.link.receive_into(side, packet) {
            Ok(came) => came,
            Err(fault) => {
                self.is_idle = false;
                self.tally.fail();
                return Err(fault);
            }
        };
        match self.pass_turn(side, came) {
            Ok(()) => {}
            Err(fault) => {
                self.tally.fail();
                return Err(fault);
            }
        }
        self.tally.ask(came);
        Ok(came)
    }

    fn failures(&self) -> u64 {
        self.tally.failures
    }

    fn sent(&self) -> u64 {
        self.tally.sent
    }

    fn asked(&self) -> u64 {
        self.tally.asked
    }

    fn given(&self) -> u64 {
        self.tally.given
    }
}
