//! A device's node in the world, and the packets between it and the agent.

ghost use Rattle.std.specs.Prelude.{[], ◌≡◌, ◌≤◌, ◌<◌, ◌+◌, ◌++◌, ◌∷◌, ◌⊎◌, Bool, IfErr, IfOk, IfSome, None, OnErr, OnOk, Some, is_some, map, option_map, option_to_list, true};
ghost use Rattle.std.specs.Vec.{vec_capacity, vec_len};
ghost use Rattle.exch_lane.specs.Lanes.{item_numbered};
ghost use Rattle.exch_lane.specs.Steps.{sent_at};
ghost use Rattle.fd_core.specs.Components.{HasComponents};
ghost use Rattle.fw_node.specs.Nodes.{device_restarts};
ghost use Rattle.fw_steps.specs.Dead.{AreDead, dead_count};
ghost use Rattle.fw_steps.specs.Steps.{may_site_beat, packet_fault, verdict_fault};
ghost use Rattle.fw_steps.specs.Replays.{adds_entry};
ghost use Rattle.fw_steps.specs.Sites.{HandlesPacketAtSite, NotesPacketAtSite, IsCopyOf, HandlesVerdictAtSite, NotesVerdictAtSite, is_activated, is_ready};
ghost use Rattle.fw_steps.specs.Worlds.{site_after_tick, site_ticks};
ghost use Rattle.fd_core.specs.Images.{applied_keyed_images};
ghost use Rattle.fd_core.specs.States.{staged_of};
ghost use Rattle.fd_core.specs.Steps.{device_verdict};
ghost use Rattle.fd_core.specs.Wishes.{has_failed};
ghost use Rattle.fw_message.specs.Entries.{entry_of, keyed_image_of};
ghost use Rattle.fw_message.specs.Headline.{EntryOf};
ghost use Rattle.fw_message.specs.Worlds.{noted_of};

use crate::dead::{FirstDead, first_dead};
use crate::packets::{Packets, SentPackets};
use crate::step::{Refusal, StepFault};
use crate::ticks::counts;
use exch_lane::{UNMISSED, may_beat, since_after};
use fd_core::{Bank, Device, Key, State, Verdict};
use fw_message::{
    Entry, HistoryEvent, Image, applied_images, awaits, copied, has_failed, room_for,
};
use fw_node::{DeviceNode, Outbox};
use fw_package::Package;
use mctp_wire::RawPacket;
use std::alloc::{AllocError, Global};
use std::marker::Model;

/// The most packets that a node sends in a call.
const MAX_SENT: u16 = 64;

/// A device's node, and every packet that was sent between it and the agent. While the device is
/// ready, its applied images may be kept for the history, so that they are looked up once.
#[derive(Drop)]
pub(crate) struct Site<'a, B: Bank> {
    /// The device's node.
    node: DeviceNode<B>,
    /// The ticks that it counted since it last missed one, at most 8.
    since_miss: u8,
    /// Every packet that was sent between it and the agent, in the order of sending. None is ever
    /// removed.
    packets: Packets,
    /// The number of first packets that are known to be dead, and the time when that was found.
    dead: FirstDead,
    /// The applied images of the device; kept only while it is in READY XFER.
    ready: Option<Vec<Image<'a>>>,
}

impl<'a, B: Bank> Model for Site<'a, B> {
    ghost use Rattle.std.specs.Prelude.{map, option_map};
    ghost use Rattle.fd_core.specs.Components.{HasComponents};
    ghost use Rattle.fw_message.specs.Entries.{keyed_image_of};
    ghost use Rattle.fw_steps.specs.Dead.{AreDead};
    ghost use Rattle.fw_steps.specs.Sites.{AreReadyImages, SiteWithRoom};

    ghost Value = { SiteWithRoom };

    ghost view = { λ s. record {
      site = record { node = s.node; since_miss = s.since_miss; packets = s.packets.packets };
      room = s.packets.room;
    } };

    ghost invariant = { λ s. HasComponents s.node.half.core.device
        × AreReadyImages s.node.half.core.device (option_map
        (λ images. map keyed_image_of images.items) s.ready)
        × AreDead s.dead.since s.dead.count s.packets.packets };
}

impl<'a, B: Bank> Site<'a, B> {
    /// Creates a site of a device's node without packets.
    pub(crate) fn new(alloc: Global, node: DeviceNode<B>) -> Site<'a, B>
        requires { HasComponents node.half.core.device }
        ensures { result.site ≡ record { node = node; since_miss = 8; packets = [] } }
    {
        Site {
            node,
            since_miss: UNMISSED,
            packets: Packets::new(alloc),
            dead: FirstDead::new(),
            ready: None,
        }
    }

    /// The device's endpoint identifier.
    pub(crate) fn eid(&self) -> u8
        ensures { result ≡ self.now.site.node.endpoint.eid }
    {
        self.node.eid()
    }

    /// The device's node.
    pub(crate) fn node(&self) -> &DeviceNode<B>
        ensures { result.now ≡ self.now.site.node }
    {
        &self.node
    }

    /// Every packet that was sent between the device and the agent, in order.
    pub(crate) fn packets(&self) -> SentPackets<'_>
        ensures { result ≡ self.now.site.packets }
    {
        self.packets.lent()
    }

    /// Returns the number of first packets that are dead at `now`.
    pub(crate) fn dead_packets(&self, now: u32) -> usize
        ensures dead { AreDead now result self.now.site.packets }
        ensures exact { result ≡ dead_count now self.now.site.packets }
    {
        first_dead(&self.packets.lent(), now, self.dead.count_at(now))
    }

    /// Returns the bytes of the packet with this number, if it may still be received.
    pub(crate) fn living(&self, number: usize, now: u32) -> Result<RawPacket, StepFault>
        ensures found { IfOk result (λ p. option_map (λ s. s.bytes) (item_numbered self.now.site.packets number) ≡ Some p.items) }
        ensures ok { OnOk result (packet_fault now (item_numbered self.now.site.packets number) ≡ None) }
        ensures fault { IfErr result (λ e. packet_fault now (item_numbered self.now.site.packets number) ≡ Some e) }
    {
        let packets = self.packets.lent();
        let Some(place) = number.checked_sub(1) else {
            return Err(StepFault::NoSuchPacket);
        };
        let Some(packet) = packets.copied(place) else {
            return Err(StepFault::NoSuchPacket);
        };
        if packets.is_dead(place, now) {
            return Err(StepFault::Dead);
        }
        Ok(packet)
    }

    /// Makes room for the packets that a node sends in a call.
    pub(crate) fn make_room(&mut self, count: u16) -> Result<(), AllocError>
        ensures room { OnOk result (count ≤ self.new.room) }
        ensures lacked { OnErr result (self.old.room < count) }
        ensures same { self.new.site ≡ self.old.site }
    {
        self.packets.make_room(count)
    }

    /// Appends a packet, dated `now`. There must be room for it.
    #[tactic(auto, using(crate::proofs::Aging::dead_still))]
    pub(crate) fn post(&mut self, now: u32, bytes: RawPacket)
        requires { 1 ≤ self.old.room }
        ensures site { self.new.site ≡ record self.old.site { packets = self.old.site.packets ++ sent_at now bytes.items ∷ [] } }
        ensures room { self.old.room ≤ self.new.room + 1 }
    {
        self.packets.push(now, bytes.as_slice());
    }

    /// Handles the bytes of a packet. The packets that the device sends are dated `now`, and the
    /// images that it activates are noted.
    ///
    /// # Errors
    /// `AllocError` if memory for the packets and entries that it may add is refused. The site is
    /// unchanged on an error.
    #[tactic(auto, using(crate::proofs::Noting::nothing_ready))]
    pub(crate) fn deliver(
        &mut self,
        alloc: Global,
        packages: &'a [Package<'a>],
        now: u32,
        bytes: &[u8],
        outbox: &mut Outbox,
        history: &mut Vec<Entry<'a>>,
    ) -> Result<(), AllocError>
        requires { outbox.old ≡ [] }
        ensures heard { OnOk result (NotesPacketAtSite now self.old.site bytes.now self.new.site
            (map entry_of history.old.items) (map entry_of history.new.items)) }
        ensures same { OnErr result (self.new.site ≡ self.old.site) }
        ensures unnoted { OnErr result (map entry_of history.new.items ≡ map entry_of history.old.items) }
        ensures outbox { outbox.new ≡ [] }
    {
        let images = match self.ready_images(alloc, packages) {
            Ok(images) => images,
            Err(error) => return Err(error),
        };
        match history.reserve(images.len()) {
            Ok(()) => {}
            Err(error) => return Err(error),
        }
        match self.make_room(MAX_SENT) {
            Ok(()) => {}
            Err(error) => return Err(error),
        }
        if !self.is_ready() {
            self.go_on(now, bytes, outbox);
            return Ok(());
        }
        self.deliver_ready(now, bytes, images, outbox, history);
        Ok(())
    }

    /// A ready device handles the bytes of a packet. The packets that it sends are dated `now`, and
    /// the images that it activates, which are these, are noted. There must be room for all of
    /// them.
    #[tactic(auto, using(crate::proofs::Noting::activation_noted, crate::proofs::Noting::nothing_active, crate::proofs::Noting::still_ready))]
    fn deliver_ready(
        &mut self,
        now: u32,
        bytes: &[u8],
        images: Vec<Image<'a>>,
        outbox: &mut Outbox,
        history: &mut Vec<Entry<'a>>,
    )
        requires room { 64 ≤ self.old.room }
        requires outbox { outbox.old ≡ [] }
        requires ready { is_ready self.old.site.node.half.core.device.phase ≡ true }
        requires images { map keyed_image_of images.items ≡ applied_keyed_images self.old.site.node.half.core.device.rows }
        requires history { vec_len history.old + vec_len images ≤ vec_capacity history.old }
        ensures heard { NotesPacketAtSite now self.old.site bytes.now self.new.site
            (map entry_of history.old.items) (map entry_of history.new.items) }
        ensures outbox { outbox.new ≡ [] }
    {
        self.go_on(now, bytes, outbox);
        if self.is_activated() {
            note_activated(history, self.eid(), images);
            return;
        }
        if self.is_ready() {
            self.keep(images);
        }
    }

    /// The node handles the bytes of a packet. The packets that it sends are dated `now`.
    #[tactic(auto, using(crate::proofs::Components::heard_components, crate::proofs::Aging::dead_still))]
    fn go_on(&mut self, now: u32, bytes: &[u8], outbox: &mut Outbox)
        requires room { 64 ≤ self.old.room }
        requires outbox { outbox.old ≡ [] }
        ensures heard { HandlesPacketAtSite now self.old.site bytes.now self.new.site }
        ensures outbox { outbox.new ≡ [] }
        ensures endpoint { self.new.site.node.endpoint ≡ self.old.site.node.endpoint }
    {
        self.ready = None;
        self.node.on_packet(bytes, outbox);
        // Reading the length gives the bound on an outbox's packets.
        let _sent = outbox.len();
        self.packets.drain(now, outbox);
    }

    /// Whether the device waits for the next component, or for its activation.
    fn is_ready(&self) -> bool
        ensures { result ≡ is_ready self.now.site.node.half.core.device.phase }
    {
        is_ready(self.node.device())
    }

    /// Whether the device has activated.
    fn is_activated(&self) -> bool
        ensures { result ≡ is_activated self.now.site.node.half.core.device.phase }
    {
        self.node.device().state() == State::Activate
    }

    /// Keeps the applied images of a ready device.
    fn keep(&mut self, images: Vec<Image<'a>>)
        requires ready { is_ready self.old.site.node.half.core.device.phase ≡ true }
        requires images { map keyed_image_of images.items ≡ applied_keyed_images self.old.site.node.half.core.device.rows }
        ensures { self.new ≡ self.old }
    {
        self.ready = Some(images);
    }

    /// Returns the applied images of a ready device, by rising key.
    #[tactic(auto, using(fw_message::proofs::Applied::all_applied))]
    fn ready_images(
        &mut self,
        alloc: Global,
        packages: &'a [Package<'a>],
    ) -> Result<Vec<Image<'a>>, AllocError>
        ensures images { IfOk result (λ images. is_ready self.old.site.node.half.core.device.phase
            ≡ true
            → map keyed_image_of images.items
            ≡ applied_keyed_images self.old.site.node.half.core.device.rows) }
        ensures site { self.new ≡ self.old }
    {
        if let Some(images) = self.ready.take() {
            return Ok(images);
        }
        if !self.is_ready() {
            return Ok(Vec::new(alloc));
        }
        let device = self.node.device();
        applied_images(alloc, packages, device.bank(), device.keys())
    }

    /// A verdict on the image that the device has written. The image that it applies is noted.
    ///
    /// # Errors
    /// `Refused` if the device doesn't wait for this verdict, else `Memory` if memory for the entry
    /// of ApplyOk is refused. The site is unchanged on an error.
    pub(crate) fn judge(
        &mut self,
        alloc: Global,
        packages: &'a [Package<'a>],
        verdict: Verdict,
        history: &mut Vec<Entry<'a>>,
    ) -> Result<(), StepFault>
        ensures judged { OnOk result (NotesVerdictAtSite self.old.site verdict self.new.site
            (map entry_of history.old.items) (map entry_of history.new.items)) }
        ensures may { OnOk result (verdict_fault verdict (Some self.old.site) ≡ None) }
        ensures refused { IfErr result (λ e. (verdict_fault verdict (Some self.old.site) ≡ Some e)
            ⊎ ((e ≡ StepFault.Memory)
            × (adds_entry verdict ≡ true)
            × (verdict_fault verdict (Some self.old.site) ≡ None))) }
        ensures same { OnErr result (self.new.site ≡ self.old.site) }
        ensures unnoted { OnErr result (map entry_of history.new.items ≡ map entry_of history.old.items) }
    {
        if !self.awaits(verdict) {
            return Err(StepFault::Refused(Refusal::NotNow));
        }
        let Ok(room) = self.room_to_note(alloc, verdict, history) else {
            return Err(StepFault::Memory);
        };
        self.judge_noting(packages, verdict, room, history);
        Ok(())
    }

    /// Makes room for the entry of a verdict in the history, and returns room for the image in it.
    /// Only ApplyOk has an entry.
    fn room_to_note(
        &self,
        alloc: Global,
        verdict: Verdict,
        history: &mut Vec<Entry<'a>>,
    ) -> Result<Vec<u8>, AllocError>
        ensures empty { IfOk result (λ room. room.items ≡ []) }
        ensures image { IfOk result (λ room. verdict ≡ Verdict.ApplyOk
            → IfSome (staged_of self.now.site.node.half.core.device.phase)
            (λ s. s.1 ≤ vec_capacity room)) }
        ensures entry { OnOk result (verdict ≡ Verdict.ApplyOk → vec_len history.new + 1 ≤ vec_capacity history.new) }
        ensures unneeded { OnErr result (adds_entry verdict ≡ true) }
        ensures unnoted { history.new.items ≡ history.old.items }
    {
        match verdict {
            Verdict::ApplyOk => {}
            _ => return Ok(Vec::new(alloc)),
        }
        history.reserve(1)?;
        Vec::with_capacity(alloc, room_for(self.node.device(), verdict))
    }

    /// Whether the device waits for this verdict.
    fn awaits(&self, verdict: Verdict) -> bool
        ensures { (works : Bool) → is_some (device_verdict self.now.site.node.half.core.device verdict works) ≡ result }
    {
        awaits(self.node.device(), verdict)
    }

    /// A verdict that the device waits for. The image that it applies is noted. For ApplyOk there
    /// must be room for the entry, and `room` must be empty, with the capacity of the image.
    #[tactic(auto, using(crate::proofs::Judging::other_noted))]
    fn judge_noting(
        &mut self,
        packages: &'a [Package<'a>],
        verdict: Verdict,
        room: Vec<u8>,
        history: &mut Vec<Entry<'a>>,
    )
        requires awaited { (works : Bool) → is_some (device_verdict self.old.site.node.half.core.device verdict works) ≡ true }
        requires empty { room.items ≡ [] }
        requires room { verdict ≡ Verdict.ApplyOk
            → IfSome (staged_of self.old.site.node.half.core.device.phase)
            (λ s. s.1 ≤ vec_capacity room) }
        requires history { verdict ≡ Verdict.ApplyOk → vec_len history.old + 1 ≤ vec_capacity history.old }
        ensures { NotesVerdictAtSite self.old.site verdict self.new.site
            (map entry_of history.old.items) (map entry_of history.new.items) }
    {
        let staged = self.node.device().staged();
        self.judge_now(verdict);
        match verdict {
            Verdict::ApplyOk => {}
            _ => return,
        }
        if self.has_failed() {
            return;
        }
        let image = self.applied(packages, staged, room);
        note_applied(history, self.eid(), image);
    }

    /// The node handles a verdict that it waits for.
    #[tactic(auto, using(crate::proofs::Components::judged_components))]
    fn judge_now(&mut self, verdict: Verdict)
        requires { (works : Bool) → is_some (device_verdict self.old.site.node.half.core.device verdict works) ≡ true }
        ensures judged { HandlesVerdictAtSite self.old.site verdict self.new.site }
        ensures endpoint { self.new.site.node.endpoint ≡ self.old.site.node.endpoint }
    {
        self.ready = None;
        let Ok(()) = self.node.verdict(verdict) else {
            return;
        };
    }

    /// Whether the work of the device's state failed.
    fn has_failed(&self) -> bool
        ensures { result ≡ has_failed self.now.site.node.half.core.device.phase }
    {
        has_failed(self.node.device())
    }

    /// Returns the image that is applied for a component, copied into `room` unless a package has
    /// its bytes. `None` if there is no image, or the room is too small. The room must be empty.
    fn applied(
        &self,
        packages: &'a [Package<'a>],
        staged: Option<(Key, u32)>,
        room: Vec<u8>,
    ) -> Option<Image<'a>>
        requires { room.items ≡ [] }
        ensures { IsCopyOf self.now.site.node.half.core.device.rows (vec_capacity room)
            (map keyed_image_of (option_to_list result)) staged }
    {
        let (key, _) = staged?;
        copied(packages, self.node.device().bank(), key, room)
    }

    /// The node counts a tick. The packets that it sends are dated `now`.
    #[tactic(auto, using(crate::proofs::Components::ticked_components, crate::proofs::Ticking::ticks_keep, crate::proofs::Aging::dead_still))]
    fn tick(&mut self, now: u32, outbox: &mut Outbox)
        requires room { 64 ≤ self.old.room }
        requires outbox { outbox.old ≡ [] }
        ensures site { self.new.site ≡ site_ticks now self.old.site }
        ensures outbox { outbox.new ≡ [] }
    {
        self.node.on_tick(outbox);
        self.since_miss = since_after(true, self.since_miss);
        // Reading the length gives the bound on an outbox's packets.
        let _sent = outbox.len();
        self.packets.drain(now, outbox);
        self.dead.advance(&self.packets.lent(), now);
        if !is_ready(self.node.device()) {
            self.ready = None;
        }
    }

    /// A unit of time passes. The node counts a tick unless it is one of `missed`. The packets that
    /// it sends are dated `now`.
    pub(crate) fn pass(&mut self, missed: &[u8], now: u32, outbox: &mut Outbox)
        requires room { 64 ≤ self.old.room }
        requires outbox { outbox.old ≡ [] }
        ensures site { self.new.site ≡ site_after_tick missed.now now self.old.site }
        ensures outbox { outbox.new ≡ [] }
    {
        if !counts(missed, self.eid()) {
            self.miss();
            return;
        }
        self.tick(now, outbox);
    }

    /// The node misses a tick.
    fn miss(&mut self)
        ensures { self.new.site ≡ record self.old.site { since_miss = 0 } }
    {
        self.since_miss = since_after(false, self.since_miss);
    }

    /// Whether the node may take this tick: it isn't one of `missed`, or it has counted 8 since the
    /// last one it missed.
    pub(crate) fn may_beat(&self, missed: &[u8]) -> bool
        ensures { result ≡ may_site_beat missed.now self.now.site }
    {
        may_beat(counts(missed, self.eid()), self.since_miss)
    }

    /// Restarts the node.
    #[tactic(auto, using(fd_core::proofs::Components::restart_components))]
    pub(crate) fn restart(&mut self)
        ensures { self.new.site ≡ record self.old.site { node = device_restarts self.old.site.node } }
    {
        self.node.restart();
        self.ready = None;
    }
}

/// Whether a device waits for the next component, or for its activation.
fn is_ready<B: Bank>(device: &Device<B>) -> bool
    ensures { result ≡ is_ready device.now.device.phase }
{
    device.state() == State::Ready
}

/// Notes that a device activates these images. There must be room for them.
fn note_activated<'a>(history: &mut Vec<Entry<'a>>, device: u8, images: Vec<Image<'a>>)
    requires { vec_len history.old + vec_len images ≤ vec_capacity history.old }
    ensures { map entry_of history.new.items
        ≡ map entry_of history.old.items
        ++ map (λ p. noted_of device (EntryOf.Activated p)) (map keyed_image_of
        images.entry.items) }
{
    for image in images {
        let _ = history.push(Entry {
            device,
            event: HistoryEvent::Activated(image),
        });
    }
}

/// Notes that a device applied an image, if it did. There must be room for the entry.
fn note_applied<'a>(history: &mut Vec<Entry<'a>>, device: u8, image: Option<Image<'a>>)
    requires { vec_len history.old + 1 ≤ vec_capacity history.old }
    ensures { map entry_of history.new.items
        ≡ map entry_of history.old.items
        ++ map (λ p. noted_of device (EntryOf.Applied p)) (map keyed_image_of
        (option_to_list image.entry)) }
{
    let Some(image) = image else {
        return;
    };
    let _ = history.push(Entry {
        device,
        event: HistoryEvent::Applied(image),
    });
}
