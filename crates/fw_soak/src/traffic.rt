//! The packets of a run, and their fates.

ghost use Rattle.std.specs.Prelude.{[], ◌∷◌, ◌++◌, ◌+◌, ◌-◌, ◌^◌, ◌≡◌, ◌≢◌, ◌<◌, IfOk, IfSome, OnOk, filter, length, min, replicate, slice_get};
ghost use Rattle.fw_soak.specs.Courses.{ContinuesRun, TriesStep};
ghost use Rattle.fw_soak.specs.Looks.{next_arrival};
ghost use Rattle.fw_soak.specs.declared.chances.Chances.{Chances};
ghost use Rattle.fw_soak.specs.Turns.{EachIn, Exchanges, MeetsNext, MeetsPacket, MeetsRound, MeetsRounds, Sends, TriesIf, TriesLate, generator_after_repeat, is_due, is_held, repeat_at, soaking};

use crate::chances::Chances;
use crate::course::SoakCourse;
use crate::decisions::delays;
use fd_core::FailBank;
use fw_world::{Step, World};
use fwupd_base::Roughness;
use std::alloc::{AllocError, Global};

/// The most rounds of a turn; two nodes need far fewer to finish an exchange.
const ROUNDS: u16 = 1024;

/// A packet, by its pair, its number, and the node that receives it.
#[derive(Clone, Copy)]
struct Arrival {
    pair: u8,
    number: usize,
    node: u8,
}

/// A packet that is held back.
#[derive(Clone, Copy)]
struct Late {
    arrival: Arrival,
    /// The tick at which it is delivered.
    due: u32,
}

/// The links of a run: how many packets have a fate, and the packets held back.
#[derive(Drop)]
pub(crate) struct Traffic {
    roughness: Roughness,
    /// The number of packets of each pair that have a fate, in configured order.
    met: Vec<usize>,
    late: Vec<Late>,
}

/// The packet of the pair at `place` after the first `met`.
fn next_of(world: &World<'_, FailBank>, place: usize, met: usize) -> Option<Arrival>
    ensures { result ≡ next_arrival world.now place met }
{
    let Some(node) = world.device_at(place) else {
        return None;
    };
    let device = node.eid();
    let Some(packets) = world.packets_at(place) else {
        return None;
    };
    let Some(packet) = packets.get(met) else {
        return None;
    };
    let agent = world.agent().eid();
    let node = match packet.bytes.get(1) {
        Some(dest) if *dest == agent => agent,
        _ => device,
    };
    Some(Arrival {
        pair: device,
        number: met.saturating_add(1),
        node,
    })
}

/// The count at a place.
fn count_at(counts: &[usize], place: usize) -> Option<usize>
    ensures value { result ≡ slice_get counts.now place }
    ensures within { IfSome result (λ count. place < length counts.now) }
{
    counts.get(place).copied()
}

/// Delivers a packet, if it is allowed.
#[tactic(auto, using(crate::proofs::Coursing::going))]
fn arrive(course: &mut SoakCourse<'_>, arrival: Arrival) -> Result<(), AllocError>
    ensures goes { ContinuesRun course.old course.new }
    ensures tried { OnOk result (TriesStep (Step.Deliver arrival.pair arrival.number arrival.node) course.old course.new) }
{
    course.take(Step::Deliver(arrival.pair, arrival.number, arrival.node))?;
    Ok(())
}

/// Delivers the packets that are due at `now`.
#[tactic(auto, using(crate::proofs::Coursing::going))]
fn deliver_due(course: &mut SoakCourse<'_>, late: &[Late], now: u32) -> Result<(), AllocError>
    ensures goes { ContinuesRun course.old course.new }
    ensures due { OnOk result (EachIn TriesLate (filter (is_due now) late.now) course.old course.new) }
{
    for held in late {
        if held.due <= now {
            match arrive(course, held.arrival) {
                Ok(()) => {}
                Err(fault) => return Err(fault),
            }
        }
    }
    Ok(())
}

/// Removes the packets that are due at `now`.
fn keep_held(late: &mut Vec<Late>, now: u32)
    ensures { late.new.items ≡ filter (is_held now) late.old.items }
{
    late.retain(|held| held.due > now);
}

impl Traffic {
    /// Creates the links of `devices` devices, without packets.
    ///
    /// # Errors
    /// `AllocError` if memory is refused.
    pub(crate) fn new(
        alloc: Global,
        roughness: Roughness,
        devices: usize,
    ) -> Result<Traffic, AllocError>
        ensures met { IfOk result (λ t. t.met.items ≡ replicate devices 0) }
        ensures late { IfOk result (λ t. t.late.items ≡ []) }
        ensures roughness { IfOk result (λ t. t.roughness ≡ roughness) }
    {
        let mut met = Vec::new(alloc);
        met.resize(devices, 0)?;
        Ok(Traffic {
            roughness,
            met,
            late: Vec::new(alloc),
        })
    }

    /// Delivers a copy of a packet at once, or holds it back for some turns.
    #[tactic(auto, using(crate::proofs::Coursing::going))]
    fn send(
        &mut self,
        course: &mut SoakCourse<'_>,
        arrival: Arrival,
        wait: u32,
    ) -> Result<(), AllocError>
        ensures goes { ContinuesRun course.old course.new }
        ensures at_once { OnOk result (wait ≡ 0
            → TriesStep (Step.Deliver arrival.pair arrival.number arrival.node) course.old
            course.new × (self.new.late.items ≡ self.old.late.items)) }
        ensures later { OnOk result (wait ≢ 0
            → (course.new ≡ course.old)
            × (self.new.late.items ≡ self.old.late.items
            ++ record { arrival = arrival; due = min (course.old.world.now + wait) (2 ^ 32 - 1) } ∷ [])) }
        ensures met { self.new.met ≡ self.old.met }
        ensures roughness { self.new.roughness ≡ self.old.roughness }
    {
        if wait == 0 {
            return arrive(course, arrival);
        }
        let due = course.world().now().saturating_add(wait);
        let Ok(()) = self.late.push(Late { arrival, due }) else {
            return Err(AllocError);
        };
        Ok(())
    }

    /// Delivers the copies of a packet with these delays.
    #[tactic(auto, using(crate::proofs::Coursing::going))]
    fn send_each(
        &mut self,
        course: &mut SoakCourse<'_>,
        arrival: Arrival,
        delays: &[u32],
    ) -> Result<(), AllocError>
        ensures goes { ContinuesRun course.old course.new }
        ensures sends { OnOk result ((g : Chances) → EachIn (Sends arrival) delays.now
            (soaking course.old self.old g) (soaking course.new self.new g)) }
    {
        for wait in delays {
            match self.send(course, arrival, *wait) {
                Ok(()) => {}
                Err(fault) => return Err(fault),
            }
        }
        Ok(())
    }

    /// Gives a sent packet its fate.
    #[tactic(auto, using(crate::proofs::Coursing::going))]
    fn meet(
        &mut self,
        course: &mut SoakCourse<'_>,
        arrival: Arrival,
        chances: &mut Chances,
    ) -> Result<(), AllocError>
        ensures goes { ContinuesRun course.old course.new }
        ensures meets { OnOk result (MeetsPacket arrival (soaking course.old self.old chances.old)
            (soaking course.new self.new chances.new)) }
    {
        let delays = delays(chances.fate(self.roughness));
        match self.send_each(course, arrival, delays.as_slice()) {
            Ok(()) => {}
            Err(fault) => return Err(fault),
        }
        Ok(())
    }

    /// Gives the next packet of the pair at `place` its fate, if there is one.
    #[tactic(auto, using(crate::proofs::Coursing::going))]
    fn meet_next(
        &mut self,
        course: &mut SoakCourse<'_>,
        place: usize,
        chances: &mut Chances,
    ) -> Result<bool, AllocError>
        ensures goes { ContinuesRun course.old course.new }
        ensures next { IfOk result (λ any. MeetsNext place (soaking course.old self.old chances.old)
            (soaking course.new self.new chances.new) any) }
    {
        let Some(met) = count_at(self.met.as_slice(), place) else {
            return Ok(false);
        };
        let Some(arrival) = next_of(course.world(), place, met) else {
            return Ok(false);
        };
        self.met[place] = arrival.number;
        match self.meet(course, arrival, chances) {
            Ok(()) => {}
            Err(fault) => return Err(fault),
        }
        Ok(true)
    }

    /// Gives the next packet of each pair its fate. Returns whether there was one.
    #[tactic(auto, using(crate::proofs::Coursing::going))]
    fn meet_round(
        &mut self,
        course: &mut SoakCourse<'_>,
        chances: &mut Chances,
    ) -> Result<bool, AllocError>
        ensures goes { ContinuesRun course.old course.new }
        ensures round { IfOk result (λ any. MeetsRound (soaking course.old self.old chances.old)
            (soaking course.new self.new chances.new) any) }
    {
        let mut any = false;
        for place in 0..self.met.len() {
            match self.meet_next(course, place, chances) {
                Ok(here) => any = any || here,
                Err(fault) => return Err(fault),
            }
        }
        Ok(any)
    }

    /// Delivers the held-back packets that are due.
    #[tactic(auto, using(crate::proofs::Coursing::going))]
    fn release(&mut self, course: &mut SoakCourse<'_>) -> Result<(), AllocError>
        ensures goes { ContinuesRun course.old course.new }
        ensures due { OnOk result (EachIn TriesLate
            (filter (is_due course.old.world.now) self.old.late.items) course.old course.new) }
        ensures held { OnOk result (self.new.late.items ≡ filter (is_held course.old.world.now) self.old.late.items) }
        ensures met { self.new.met ≡ self.old.met }
        ensures roughness { self.new.roughness ≡ self.old.roughness }
    {
        let now = course.world().now();
        match deliver_due(course, self.late.as_slice(), now) {
            Ok(()) => {}
            Err(fault) => return Err(fault),
        }
        keep_held(&mut self.late, now);
        Ok(())
    }

    /// Gives sent packets their fate, until nothing more is sent.
    #[tactic(auto, using(crate::proofs::Coursing::going))]
    fn meet_rounds(
        &mut self,
        course: &mut SoakCourse<'_>,
        chances: &mut Chances,
    ) -> Result<(), AllocError>
        ensures goes { ContinuesRun course.old course.new }
        ensures rounds { OnOk result (MeetsRounds (soaking course.old self.old chances.old)
            (soaking course.new self.new chances.new)) }
    {
        for count in 0..ROUNDS {
            match self.meet_round(course, chances) {
                Ok(true) => {}
                Ok(false) => return Ok(()),
                Err(fault) => return Err(fault),
            }
        }
        Ok(())
    }

    /// Delivers the packets that are due, and gives sent packets their fate, until nothing more is
    /// sent.
    ///
    /// # Errors
    /// `AllocError` if memory is refused.
    #[tactic(auto, using(crate::proofs::Coursing::going))]
    pub(crate) fn exchange(
        &mut self,
        course: &mut SoakCourse<'_>,
        chances: &mut Chances,
    ) -> Result<(), AllocError>
        ensures goes { ContinuesRun course.old course.new }
        ensures packets { OnOk result (Exchanges (soaking course.old self.old chances.old)
            (soaking course.new self.new chances.new)) }
    {
        match self.release(course) {
            Ok(()) => {}
            Err(fault) => return Err(fault),
        }
        match self.meet_rounds(course, chances) {
            Ok(()) => {}
            Err(fault) => return Err(fault),
        }
        Ok(())
    }

    /// Delivers a random recent packet of a pair once more, unless it is too old.
    ///
    /// # Errors
    /// `AllocError` if memory is refused.
    #[tactic(auto, using(crate::proofs::Coursing::going))]
    pub(crate) fn repeat(
        &self,
        course: &mut SoakCourse<'_>,
        place: usize,
        chances: &mut Chances,
    ) -> Result<(), AllocError>
        ensures goes { ContinuesRun course.old course.new }
        ensures tried { OnOk result (TriesIf (repeat_at course.old.world place
            (slice_get self.now.met.items place) chances.old.generator) course.old course.new) }
        ensures after { OnOk result (chances.new.generator
            ≡ generator_after_repeat (slice_get self.now.met.items place) chances.old.generator) }
    {
        let Some(met) = self.met.get(place).copied() else {
            return Ok(());
        };
        let back = chances.below(16) as usize;
        let Some(arrival) = next_of(course.world(), place, met.saturating_sub(back)) else {
            return Ok(());
        };
        arrive(course, arrival)
    }
}
