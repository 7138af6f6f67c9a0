//! The run of a world over links.

ghost use Rattle.std.specs.Prelude.{◌≡◌, ◌≤◌, ◌<◌, ◌+◌, ◌-◌, IfErr, IfOk, OnOk, length, true};
ghost use Rattle.fw_edge.specs.Drives.{Drives, DrivesCounted, DrivesLiving, all_over, delivers_in, ticks_in};
ghost use Rattle.fw_edge.specs.Links.{links_at};
ghost use Rattle.fw_edge.specs.Turns.{DrivesTurns, StopsDrive, StopsTurn, TakesTurn};
ghost use Rattle.fw_edge.specs.Ledgers.{packet_counts};
ghost use Rattle.fw_edge.specs.Outcomes.{PartOk, DriveOk, DriveErr, TurnErr, drive_at, link_view, read_at};

use crate::link::Link;
use crate::outgoing::sent_at;
use crate::rounds::{Frames, exchange};
use crate::steps::{activate_all, all_over, judge_all, tick};
use arrayvec::ArrayVec;
use fd_core::Bank;
use fw_world::{Step, World};
use thiserror::Error;

/// The result of a run.
#[derive(Clone, Copy, PartialEq, Eq)]
pub struct Driven {
    /// The number of turns.
    pub turns: u32,
    /// The number of received frames that were not living packets of their pair.
    pub foreign: u64,
}

/// Why a run ended early.
#[derive(Clone, Copy, Debug, PartialEq, Eq, Error)]
pub enum EdgeFault {
    /// A link failed.
    #[error("Frame")]
    Frame,
    /// A step was refused: the clock is at its last tick.
    #[error("Step")]
    Step,
    /// Memory was refused.
    #[error("Memory")]
    Memory,
}

/// The number of packets sent in each pair.
fn all_sent<B: Bank + Drop>(world: &World<'_, B>) -> ArrayVec<usize, 16>
    ensures all { result.items ≡ packet_counts world.now.sites }
    ensures few { length world.now.sites ≤ 16 }
{
    let mut sent = ArrayVec::new();
    for place in 0..world.device_count() {
        sent.push(sent_at(world, place));
    }
    sent
}

/// Takes a turn: a tick, the rounds that send packets and receive frames, the verdicts that devices
/// wait for, and the activations that sessions wait for. Returns the counts of the received frames.
fn turn<B: Bank + Drop, L: Link>(
    world: &mut World<'_, B>,
    links: &mut [L],
    written: &mut [usize],
    steps: &mut Vec<Step>,
) -> Result<Frames, EdgeFault>
    requires few { length links.old ≤ 16 }
    requires written { length written.old ≡ length links.old }
    requires all { written.old ≡ packet_counts world.old.sites }
    ensures done { IfOk result (λ f. PartOk (link_view L.tally L.taken L.gave) TakesTurn 1 1055
        (drive_at world.old steps.old.items written.old links.old)
        (drive_at world.new steps.new.items written.new links.new) f.known f.foreign) }
    ensures all { OnOk result (written.new ≡ packet_counts world.new.sites) }
    ensures stopped { IfErr result (λ e. TurnErr (link_view L.tally L.taken L.gave) e
        (drive_at world.old steps.old.items written.old links.old)
        (read_at world.new steps.new.items links.new)) }
    ensures links { length links.new ≡ length links.old }
    ensures written { length written.new ≡ length written.old }
{
    match tick(world, steps) {
        Ok(()) => {}
        Err(fault) => return Err(fault),
    }
    let frames = match exchange(world, links, written, steps) {
        Ok(frames) => frames,
        Err(fault) => return Err(fault),
    };
    match judge_all(world, steps) {
        Ok(()) => {}
        Err(fault) => return Err(fault),
    }
    match activate_all(world, steps) {
        Ok(()) => {}
        Err(fault) => return Err(fault),
    }
    Ok(frames)
}

/// Takes `turns` turns, or fewer if each session is Done or Failed earlier.
fn take_turns<B: Bank + Drop, L: Link>(
    world: &mut World<'_, B>,
    links: &mut [L],
    written: &mut [usize],
    turns: u32,
    steps: &mut Vec<Step>,
) -> Result<Driven, EdgeFault>
    requires few { length links.old ≤ 16 }
    requires written { length written.old ≡ length links.old }
    requires all { written.old ≡ packet_counts world.old.sites }
    ensures drives { Drives world.old steps.old.items world.new steps.new.items }
    ensures done { IfOk result (λ d. DriveOk (link_view L.tally L.taken L.gave) turns
        (drive_at world.old steps.old.items written.old links.old)
        (drive_at world.new steps.new.items written.new links.new) d.turns d.foreign) }
    ensures over { all_over world.old ≡ true → steps.new.items ≡ steps.old.items }
    ensures all { OnOk result (written.new ≡ packet_counts world.new.sites) }
    ensures stopped { IfErr result (λ e. DriveErr (link_view L.tally L.taken L.gave) turns e
        (drive_at world.old steps.old.items written.old links.old)
        (read_at world.new steps.new.items links.new)) }
    ensures links { length links.new ≡ length links.old }
{
    let mut foreign = 0;
    for count in 0..turns {
        if all_over(world) {
            return Ok(Driven {
                turns: count,
                foreign,
            });
        }
        match turn(world, links, written, steps) {
            Ok(frames) => foreign += frames.foreign as u64,
            Err(fault) => return Err(fault),
        }
    }
    Ok(Driven { turns, foreign })
}

/// Runs a world over links, one for each device in configured order, for `turns` turns, or until
/// each session is Done or Failed, which is tested before each turn. The steps taken are appended
/// to `steps`, whatever the outcome; room for each is reserved before it is taken.
///
/// A turn is a tick, then rounds, then the verdicts that devices wait for, then the activations
/// that sessions wait for. A round writes the packets that were sent since the run began and aren't
/// written yet, and reads one frame at each end of each link, the device's end first. The last
/// round reads no frame, or brings the turn to 1,024 frames or more; packets still unwritten then
/// are written. A frame that is a living packet of its pair is delivered to the node at that end.
/// Any other frame is dropped.
///
/// # Errors
/// `Frame` if a link failed, `Step` if the clock is at its last tick, and `Memory` if memory is
/// refused. The world is then the one after the steps listed.
pub fn drive<B: Bank + Drop, L: Link>(
    world: &mut World<'_, B>,
    links: &mut [L],
    turns: u32,
    steps: &mut Vec<Step>,
) -> Result<Driven, EdgeFault>
    requires { length links.old ≡ length world.old.sites }
    ensures drives { DrivesLiving world.old steps.old.items world.new steps.new.items }
    ensures done { IfOk result (λ d. DriveOk (link_view L.tally L.taken L.gave) turns
        (drive_at world.old steps.old.items (packet_counts world.old.sites) links.old)
        (drive_at world.new steps.new.items (packet_counts world.new.sites) links.new)
        d.turns d.foreign) }
    ensures over { all_over world.old ≡ true → steps.new.items ≡ steps.old.items }
    ensures stopped { IfErr result (λ e. DriveErr (link_view L.tally L.taken L.gave) turns e
        (drive_at world.old steps.old.items (packet_counts world.old.sites) links.old)
        (read_at world.new steps.new.items links.new)) }
    ensures devices { length links.new ≡ length world.new.sites }
{
    let mut written = all_sent(world);
    take_turns(world, links, written.as_mut_slice(), turns, steps)
}
