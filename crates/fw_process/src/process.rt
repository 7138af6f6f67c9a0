//! A node as a process of its own.

ghost use Rattle.std.specs.Prelude.{[], ◌≡◌, ◌≤◌, ◌<◌, ◌+◌, ◌-◌, ◌^◌, ◌∷◌, ◌⊎◌, Bool, List, OnErr, OnOk, map, true, ℕ};
ghost use Rattle.exch_lane.specs.Lanes.{Sent};
ghost use Rattle.exch_lane.specs.Steps.{sent_at};
ghost use Rattle.fw_process.specs.Processes.{Deed, FailsAt, LineCall, Serves, ServesCome, ServesRounds, ServesUntil, deed_with, deeds_for, deeds_for_all, deeds_to, round_calls, round_deeds, taking, turns, unit_after_deeds};

use crate::wire::{Clock, Line};
use mctp_wire::RawPacket;
use std::alloc::AllocError;

/// The number of units after its own in which a packet may still be received.
const LIFE: u32 = 8;

/// The number of units that a process makes up for by turns. If it is behind by more, it restarts.
const MOST_BEHIND: u32 = 40;

/// How far ahead, in units, a stamp may be. Stamps that are further ahead aren't followed.
const MOST_AHEAD: u32 = 1 << 20;

/// The number of packets that are received in a round.
const MOST_PACKETS: u32 = 1024;

/// A node that may be a process: its calls, and the unit that it is in. It sends the packets of a
/// call over its line, each stamped with the unit after the call. In contracts, `does s d t sent`
/// says that a process `s` does a deed, is `t` afterwards, and sends packets; `fails s d t` says
/// that the deed fails, and leaves `t`.
pub trait ProcessNode {
    ghost does: { Self → Deed → Self → (sent : List Sent) → Type 0 };

    ghost fails: { Self → Deed → Self → Type 0 } = { λ s d t. Prim.Unit {0} };

    ghost unit: { Self → ℕ };

    ghost is_over: { Self → Bool };

    /// The unit that it is in.
    fn unit(&self) -> u32
        ensures { result ≡ unit self.now };

    /// Whether nothing is left for it to do.
    fn is_over(&self) -> bool
        ensures { result ≡ is_over self.now };

    /// Receives a packet with this stamp.
    ///
    /// # Errors
    /// `AllocError` if memory is refused, or if it can't go on for another reason. Nothing is sent
    /// then.
    fn receive<L: Line>(
        &mut self,
        line: &mut L,
        stamp: u32,
        packet: &[u8],
    ) -> Result<(), AllocError>
        ensures served { OnOk result (Serves does unit [] (Deed.Receives (sent_at stamp packet.now) ∷ [])
            self.old (L.known line.old) self.new (L.known line.new)) }
        ensures failed { OnErr result (FailsAt fails (Deed.Receives (sent_at stamp packet.now))
            self.old (L.known line.old) self.new (L.known line.new)) };

    /// Does what is due at the end of its unit, and begins the next one with a tick.
    ///
    /// # Errors
    /// `AllocError` if memory is refused, or if it can't go on for another reason. Nothing is sent
    /// then.
    fn turn<L: Line>(&mut self, line: &mut L) -> Result<(), AllocError>
        requires { unit self.old < 2 ^ 32 - 1 }
        ensures served { OnOk result (Serves does unit [] (Deed.Turns ∷ [])
            self.old (L.known line.old) self.new (L.known line.new)) }
        ensures failed { OnErr result (FailsAt fails Deed.Turns
            self.old (L.known line.old) self.new (L.known line.new)) };

    /// Restarts, and goes on after this number of units.
    fn miss(&mut self, units: u32)
        requires { unit self.old + units < 2 ^ 32 }
        ensures does { does self.old (Deed.Misses units) self.new [] }
        ensures unit { unit self.new ≡ unit self.old + units };
}

/// Goes on by a number of turns.
#[tactic(auto, using(crate::proofs::Rounds::serves_none, crate::proofs::Rounds::serves_turn, crate::proofs::Rounds::stops_at, crate::proofs::Rounds::until_on))]
fn make_up<P: ProcessNode, L: Line>(
    process: &mut P,
    line: &mut L,
    units: u32,
) -> Result<(), AllocError>
    requires clock { P.unit process.old + units < 2 ^ 32 }
    ensures served { OnOk result (Serves P.does P.unit [] (turns units) process.old (L.known line.old)
        process.new (L.known line.new)) }
    ensures stopped { OnErr result (ServesUntil P.does P.fails process.old (L.known line.old)
        process.new (L.known line.new)) }
    ensures unit { OnOk result (P.unit process.new ≡ P.unit process.old + units) }
{
    for _made in 0..units {
        match process.turn(line) {
            Ok(()) => {}
            Err(error) => return Err(error),
        }
    }
    Ok(())
}

/// Goes on to a unit, if the process isn't there.
#[tactic(auto, using(crate::proofs::Rounds::serves_one))]
fn advance<P: ProcessNode, L: Line>(
    process: &mut P,
    line: &mut L,
    to: u32,
) -> Result<(), AllocError>
    ensures served { OnOk result (Serves P.does P.unit [] (deeds_to (P.unit process.old) to) process.old
        (L.known line.old) process.new (L.known line.new)) }
    ensures stopped { OnErr result (ServesUntil P.does P.fails process.old (L.known line.old)
        process.new (L.known line.new)) }
    ensures there { OnOk result (to ≤ P.unit process.new) }
    ensures later { OnOk result (P.unit process.old ≤ P.unit process.new) }
{
    let units = to.saturating_sub(process.unit());
    if units > MOST_BEHIND {
        process.miss(units);
        return Ok(());
    }
    make_up(process, line, units)
}

/// Receives a packet that is timely, and drops another.
#[tactic(auto, using(crate::proofs::Rounds::serves_one, crate::proofs::Rounds::line_none))]
fn receive_timely<P: ProcessNode, L: Line>(
    process: &mut P,
    line: &mut L,
    stamp: u32,
    packet: &RawPacket,
) -> Result<(), AllocError>
    ensures served { OnOk result (Serves P.does P.unit [] (deed_with (P.unit process.old)
        (sent_at stamp packet.now.items) ∷ []) process.old (L.known line.old) process.new (L.known line.new)) }
    ensures stopped { OnErr result (ServesUntil P.does P.fails process.old (L.known line.old)
        process.new (L.known line.new)) }
    ensures unit { OnOk result (P.unit process.new ≡ P.unit process.old) }
{
    if process.unit().saturating_sub(stamp) > LIFE {
        return Ok(());
    }
    process.receive(line, stamp, packet.as_slice())
}

/// A packet came, with this stamp.
#[tactic(auto, using(crate::proofs::Rounds::serves_one, crate::proofs::Rounds::line_none, crate::proofs::Rounds::serves_on))]
fn accept<P: ProcessNode, L: Line>(
    process: &mut P,
    line: &mut L,
    stamp: u32,
    packet: &RawPacket,
) -> Result<(), AllocError>
    ensures served { OnOk result (Serves P.does P.unit [] (deeds_for (P.unit process.old)
        (sent_at stamp packet.now.items)) process.old (L.known line.old) process.new (L.known line.new)) }
    ensures stopped { OnErr result (ServesUntil P.does P.fails process.old (L.known line.old)
        process.new (L.known line.new)) }
    ensures later { OnOk result (P.unit process.old ≤ P.unit process.new) }
{
    if stamp > process.unit().saturating_add(MOST_AHEAD) {
        return Ok(());
    }
    match advance(process, line, stamp) {
        Ok(()) => {}
        Err(error) => return Err(error),
    }
    receive_timely(process, line, stamp, packet)
}

/// Takes the packets that came, at most 1,024.
#[tactic(auto, using(crate::proofs::Rounds::takes_none, crate::proofs::Rounds::takes_packet, crate::proofs::Rounds::takes_fewer, crate::proofs::Rounds::takes_most))]
fn accept_all<P: ProcessNode, L: Line>(
    process: &mut P,
    line: &mut L,
    packet: &mut RawPacket,
) -> Result<(), AllocError>
    ensures served { OnOk result (ServesCome P.does P.unit taking (deeds_for_all (P.unit process.old))
        process.old (L.known line.old) process.new (L.known line.new)) }
    ensures stopped { OnErr result (ServesUntil P.does P.fails process.old (L.known line.old)
        process.new (L.known line.new)) }
    ensures later { OnOk result (P.unit process.old ≤ P.unit process.new) }
{
    for _taken in 0..MOST_PACKETS {
        let Some(stamp) = line.receive(packet) else {
            return Ok(());
        };
        match accept(process, line, stamp, packet) {
            Ok(()) => {}
            Err(error) => return Err(error),
        }
    }
    Ok(())
}

/// The clock shows a unit: the process goes on to it, and a round begins.
#[tactic(auto, using(crate::proofs::Rounds::serves_begun))]
fn begin_round<P: ProcessNode, L: Line>(
    process: &mut P,
    line: &mut L,
    shown: u32,
) -> Result<(), AllocError>
    ensures served { OnOk result (Serves P.does P.unit
        (LineCall.Begins (unit_after_deeds (P.unit process.old) (deeds_to (P.unit process.old) shown)) ∷ [])
        (deeds_to (P.unit process.old) shown) process.old (L.known line.old) process.new (L.known line.new)) }
    ensures stopped { OnErr result (ServesUntil P.does P.fails process.old (L.known line.old)
        process.new (L.known line.new)) }
    ensures there { OnOk result (shown ≤ P.unit process.new) }
{
    match advance(process, line, shown) {
        Ok(()) => {}
        Err(error) => return Err(error),
    }
    line.begin_round(process.unit());
    Ok(())
}

/// A round: the clock shows a unit, and then packets come.
#[tactic(auto, using(crate::proofs::Rounds::serves_round))]
fn round<P: ProcessNode, L: Line>(
    process: &mut P,
    line: &mut L,
    shown: u32,
    packet: &mut RawPacket,
) -> Result<(), AllocError>
    ensures served { OnOk result (ServesCome P.does P.unit
        (λ came. round_calls (P.unit process.old) (record { shown = shown; came = came }))
        (λ came. round_deeds (P.unit process.old) (record { shown = shown; came = came }))
        process.old (L.known line.old) process.new (L.known line.new)) }
    ensures stopped { OnErr result (ServesUntil P.does P.fails process.old (L.known line.old)
        process.new (L.known line.new)) }
    ensures there { OnOk result (shown ≤ P.unit process.new) }
{
    match begin_round(process, line, shown) {
        Ok(()) => {}
        Err(error) => return Err(error),
    }
    accept_all(process, line, packet)
}

/// Serves a process over a line until it is over, or is at the unit `end` or past it. It waits for
/// each unit of the clock.
///
/// # Errors
/// `AllocError` if a deed fails. Nothing of that deed is sent, and nothing after it.
#[tactic(auto, using(crate::proofs::Rounds::rounds_on, crate::proofs::Rounds::rounds_none))]
pub fn serve_process<P: ProcessNode, L: Line, C: Clock>(
    process: &mut P,
    line: &mut L,
    clock: &mut C,
    end: u32,
) -> Result<(), AllocError>
    ensures served { OnOk result (ServesRounds P.does P.unit
        process.old (record { line = L.known line.old; shown = C.shown clock.old })
        process.new (record { line = L.known line.new; shown = C.shown clock.new })) }
    ensures stopped { OnErr result (ServesUntil P.does P.fails process.old (L.known line.old)
        process.new (L.known line.new)) }
    ensures ends { OnOk result ((P.is_over process.new ≡ true) ⊎ (end ≤ P.unit process.new)) }
    ensures rests { (P.is_over process.old ≡ true) ⊎ (end ≤ P.unit process.old) → process.new ≡ process.old }
{
    let mut packet = RawPacket::new();
    while !process.is_over() && process.unit() < end {
        let shown = clock.wait_past(process.unit());
        match round(process, line, shown, &mut packet) {
            Ok(()) => {}
            Err(error) => return Err(error),
        }
    }
    Ok(())
}
