//! Rounds of a turn: packets are written, and a frame is read at each end.

ghost use Rattle.std.specs.Prelude.{[], ◌∷◌, ◌≡◌, ◌≤◌, ◌<◌, ◌+◌, ◌⊎◌, IfErr, IfOk, None, OnErr, OnOk, length, slice_get};
ghost use Rattle.fw_edge.specs.Links.{links_at};
ghost use Rattle.fw_edge.specs.Turns.{ReadsAllEnds, ReadsEnds, ExchangeStops, TakesExchange, HandsOver, RoundOf, RoundStops, TakesRounds, RoundsStop, both_ends, eid_in, node_at, round_ends};
ghost use Rattle.fw_edge.specs.Drives.{Drives, DrivesCounted};
ghost use Rattle.fw_edge.specs.Hearing.{IsHeard, IsKnown};
ghost use Rattle.fw_edge.specs.Ledgers.{NoCountFalls, packet_counts};
ghost use Rattle.fw_edge.specs.Outcomes.{LinkReadOk, LinkReadErr, PartOk, PartErr, RoundOk, RoundErr, StepErr, drive_at, link_view, read_at};
ghost use Rattle.fw_steps.specs.Steps.{may_step};
ghost use Rattle.fw_steps.specs.Worlds.{eids_of};
ghost use Rattle.fw_steps.specs.declared.step.Step.{Step};

use crate::driving::EdgeFault;
use crate::hearing::heard;
use crate::link::Link;
use crate::outgoing::write_out;
use crate::steps::take;
use fd_core::Bank;
use fw_world::{Side, Step, World};
use mctp_wire::RawPacket;

/// A turn stops reading after this number of frames; the round that reaches it is finished.
const MAX_FRAMES: usize = 1_024;

/// Counts of received frames.
#[derive(Clone, Copy)]
pub(crate) struct Frames {
    /// Living packets of their pairs.
    pub(crate) known: usize,
    /// Other frames.
    pub(crate) foreign: usize,
}

impl Frames {
    /// No frames.
    fn none() -> Frames
        ensures known { result.known ≡ 0 }
        ensures foreign { result.foreign ≡ 0 }
    {
        Frames {
            known: 0,
            foreign: 0,
        }
    }

    /// The sum of both counts.
    fn count(self) -> usize
        requires { self.known + self.foreign ≤ 4096 }
        ensures { result ≡ self.known + self.foreign }
    {
        self.known + self.foreign
    }

    /// The sums of both counts.
    fn and(self, others: Frames) -> Frames
        requires { (self.known + self.foreign) + (others.known + others.foreign) ≤ 4096 }
        ensures known { result.known ≡ self.known + others.known }
        ensures foreign { result.foreign ≡ self.foreign + others.foreign }
    {
        Frames {
            known: self.known + others.known,
            foreign: self.foreign + others.foreign,
        }
    }
}

/// The node at an end of a device's link.
fn node_at<B: Bank + Drop>(world: &World<'_, B>, device: u8, end: Side) -> u8
    ensures node { (result ≡ world.now.agent.endpoint.eid) ⊎ (result ≡ device) }
    ensures agent { end ≡ Side.Agent → result ≡ world.now.agent.endpoint.eid }
    ensures device { end ≡ Side.Device → result ≡ device }
    ensures at { result ≡ node_at world.now device end }
{
    match end {
        Side::Agent => world.agent().eid(),
        Side::Device => device,
    }
}

/// Delivers the packet of a frame to the node at an end of a device's link. A frame that isn't a
/// living packet of the pair is dropped.
#[tactic(auto, using(crate::proofs::Arriving::may_deliver))]
fn hand_over<B: Bank + Drop>(
    world: &mut World<'_, B>,
    device: u8,
    end: Side,
    packet: &RawPacket,
    steps: &mut Vec<Step>,
) -> Result<Frames, EdgeFault>
    ensures goes { IfOk result (λ f. DrivesCounted world.old steps.old.items world.new steps.new.items 0 f.known) }
    ensures one { IfOk result (λ f. f.known + f.foreign ≡ 1) }
    ensures over { OnOk result (HandsOver world.old steps.old.items device end packet.now.items world.new steps.new.items) }
    ensures refused { IfErr result (λ e. StepErr e world.old steps.old.items world.new steps.new.items) }
    ensures known { OnErr result (IsKnown world.old device packet.now.items) }
{
    let Some(number) = heard(world, device, packet) else {
        return Ok(Frames {
            known: 0,
            foreign: 1,
        });
    };
    let node = node_at(world, device, end);
    take(world, steps, Step::Deliver(device, number, node))?;
    Ok(Frames {
        known: 1,
        foreign: 0,
    })
}

/// Reads a frame at an end of a device's link, if there is one, and delivers it. `packet` is its
/// buffer.
fn read_end<B: Bank + Drop, L: Link>(
    world: &mut World<'_, B>,
    device: u8,
    end: Side,
    link: &mut L,
    packet: &mut RawPacket,
    steps: &mut Vec<Step>,
) -> Result<Frames, EdgeFault>
    ensures read { IfOk result (λ f. LinkReadOk (link_view L.tally L.taken L.gave) ((device, end) ∷ []) 1
        (read_at world.old steps.old.items link.old) (read_at world.new steps.new.items link.new)
        f.known f.foreign) }
    ensures stopped { IfErr result (λ e. LinkReadErr L.tally e ((device, end) ∷ [])
        (read_at world.old steps.old.items link.old)
        (read_at world.new steps.new.items link.new)) }
{
    let came = match link.receive_into(end, packet) {
        Ok(came) => came,
        Err(_) => return Err(EdgeFault::Frame),
    };
    if !came {
        return Ok(Frames::none());
    }
    match hand_over(world, device, end, packet, steps) {
        Ok(frames) => Ok(frames),
        Err(fault) => Err(fault),
    }
}

/// Reads a frame at each end of a device's link, the device's first. `packet` is the buffer.
fn read_both<B: Bank + Drop, L: Link>(
    world: &mut World<'_, B>,
    device: u8,
    link: &mut L,
    packet: &mut RawPacket,
    steps: &mut Vec<Step>,
) -> Result<Frames, EdgeFault>
    ensures read { IfOk result (λ f. LinkReadOk (link_view L.tally L.taken L.gave) (both_ends device) 2
        (read_at world.old steps.old.items link.old) (read_at world.new steps.new.items link.new)
        f.known f.foreign) }
    ensures stopped { IfErr result (λ e. LinkReadErr L.tally e (both_ends device)
        (read_at world.old steps.old.items link.old)
        (read_at world.new steps.new.items link.new)) }
{
    let first = match read_end(world, device, Side::Device, link, packet, steps) {
        Ok(frames) => frames,
        Err(fault) => return Err(fault),
    };
    let second = match read_end(world, device, Side::Agent, link, packet, steps) {
        Ok(frames) => frames,
        Err(fault) => return Err(fault),
    };
    Ok(first.and(second))
}

/// The endpoint identifier of the device at `place`.
fn eid_at<B: Bank + Drop>(world: &World<'_, B>, place: usize) -> u8
    ensures { result ≡ eid_in (slice_get world.now.sites place) }
{
    match world.device_at(place) {
        Some(node) => node.eid(),
        None => 0,
    }
}

/// Reads a frame at each end of each link, in configured order.
fn read_round<B: Bank + Drop, L: Link>(
    world: &mut World<'_, B>,
    links: &mut [L],
    steps: &mut Vec<Step>,
) -> Result<Frames, EdgeFault>
    requires few { length links.old ≤ 16 }
    requires devices { length links.old ≡ length world.old.sites }
    ensures read { IfOk result (λ f. RoundOk (link_view L.tally L.taken L.gave)
        (read_at world.old steps.old.items links.old) (read_at world.new steps.new.items links.new)
        f.known f.foreign) }
    ensures stopped { IfErr result (λ e. RoundErr L.tally e (read_at world.old steps.old.items links.old)
        (read_at world.new steps.new.items links.new)) }
    ensures links { length links.new ≡ length links.old }
{
    let mut frames = Frames::none();
    let mut packet = RawPacket::new();
    for place in 0..links.len() {
        let device = eid_at(world, place);
        let more = match read_both(world, device, &mut links[place], &mut packet, steps) {
            Ok(more) => more,
            Err(fault) => return Err(fault),
        };
        frames = frames.and(more);
    }
    Ok(frames)
}

/// A round: writes the unwritten packets, and reads a frame at each end.
fn round<B: Bank + Drop, L: Link>(
    world: &mut World<'_, B>,
    links: &mut [L],
    written: &mut [usize],
    steps: &mut Vec<Step>,
) -> Result<Frames, EdgeFault>
    requires few { length links.old ≤ 16 }
    requires written { length written.old ≡ length links.old }
    requires within { NoCountFalls written.old (packet_counts world.old.sites) }
    ensures done { IfOk result (λ f. PartOk (link_view L.tally L.taken L.gave)
        (RoundOf (eids_of world.old.sites)) 0 32
        (drive_at world.old steps.old.items written.old links.old)
        (drive_at world.new steps.new.items written.new links.new) f.known f.foreign) }
    ensures within { OnOk result (NoCountFalls written.new (packet_counts world.new.sites)) }
    ensures stopped { IfErr result (λ e. PartErr (link_view L.tally L.taken L.gave)
        (RoundStops e (eids_of world.old.sites)) e
        (drive_at world.old steps.old.items written.old links.old)
        (read_at world.new steps.new.items links.new)) }
    ensures links { length links.new ≡ length links.old }
    ensures written { length written.new ≡ length written.old }
{
    match write_out(world, links, written) {
        Ok(()) => {}
        Err(fault) => return Err(fault),
    }
    let frames = match read_round(world, links, steps) {
        Ok(frames) => frames,
        Err(fault) => return Err(fault),
    };
    Ok(frames)
}

/// The rounds of a turn. The last round reads no frame, or brings the turn to its limit. At most
/// 1,055 frames are received: 1,023 before the last round and 32 in it.
fn rounds<B: Bank + Drop, L: Link>(
    world: &mut World<'_, B>,
    links: &mut [L],
    written: &mut [usize],
    steps: &mut Vec<Step>,
) -> Result<Frames, EdgeFault>
    requires few { length links.old ≤ 16 }
    requires written { length written.old ≡ length links.old }
    requires within { NoCountFalls written.old (packet_counts world.old.sites) }
    ensures done { IfOk result (λ f. PartOk (link_view L.tally L.taken L.gave)
        (TakesRounds (eids_of world.old.sites)) 0 1055
        (drive_at world.old steps.old.items written.old links.old)
        (drive_at world.new steps.new.items written.new links.new) f.known f.foreign) }
    ensures within { OnOk result (NoCountFalls written.new (packet_counts world.new.sites)) }
    ensures stopped { IfErr result (λ e. PartErr (link_view L.tally L.taken L.gave)
        (RoundsStop e (eids_of world.old.sites)) e
        (drive_at world.old steps.old.items written.old links.old)
        (read_at world.new steps.new.items links.new)) }
    ensures links { length links.new ≡ length links.old }
    ensures written { length written.new ≡ length written.old }
{
    let mut frames = Frames::none();
    for _ in 0..MAX_FRAMES {
        let more = match round(world, links, written, steps) {
            Ok(more) => more,
            Err(fault) => return Err(fault),
        };
        frames = frames.and(more);
        if more.count() == 0 || MAX_FRAMES <= frames.count() {
            return Ok(frames);
        }
    }
    Ok(frames)
}

/// The rounds of a turn; then the unwritten packets are written.
pub(crate) fn exchange<B: Bank + Drop, L: Link>(
    world: &mut World<'_, B>,
    links: &mut [L],
    written: &mut [usize],
    steps: &mut Vec<Step>,
) -> Result<Frames, EdgeFault>
    requires few { length links.old ≤ 16 }
    requires written { length written.old ≡ length links.old }
    requires within { NoCountFalls written.old (packet_counts world.old.sites) }
    ensures done { IfOk result (λ f. PartOk (link_view L.tally L.taken L.gave)
        (TakesExchange (eids_of world.old.sites)) 0 1055
        (drive_at world.old steps.old.items written.old links.old)
        (drive_at world.new steps.new.items written.new links.new) f.known f.foreign) }
    ensures all { OnOk result (written.new ≡ packet_counts world.new.sites) }
    ensures stopped { IfErr result (λ e. PartErr (link_view L.tally L.taken L.gave)
        (ExchangeStops e (eids_of world.old.sites)) e
        (drive_at world.old steps.old.items written.old links.old)
        (read_at world.new steps.new.items links.new)) }
    ensures links { length links.new ≡ length links.old }
    ensures written { length written.new ≡ length written.old }
{
    let frames = match rounds(world, links, written, steps) {
        Ok(frames) => frames,
        Err(fault) => return Err(fault),
    };
    match write_out(world, links, written) {
        Ok(()) => {}
        Err(fault) => return Err(fault),
    }
    Ok(frames)
}
