//! A device's node that notes the images that it applies and activates.

ghost use Rattle.std.specs.Prelude.{[], ◌≡◌, ◌≤◌, ◌+◌, ◌++◌, Bool, IfOk, IfSome, None, OnErr, OnOk, is_some, map, option_map, option_to_list, true};
ghost use Rattle.std.specs.Vec.{vec_capacity, vec_len};
ghost use Rattle.fd_core.specs.Components.{HasComponents};
ghost use Rattle.fd_core.specs.Images.{applied_keyed_images};
ghost use Rattle.fd_core.specs.States.{staged_of};
ghost use Rattle.fd_core.specs.Steps.{device_verdict};
ghost use Rattle.fd_core.specs.Wishes.{has_failed};
ghost use Rattle.fw_message.specs.Entries.{entry_of, keyed_image_of};
ghost use Rattle.fw_message.specs.Headline.{EntryOf};
ghost use Rattle.fw_message.specs.Worlds.{noted_of};
ghost use Rattle.fw_node.specs.Cores.{device_core};
ghost use Rattle.fw_node.specs.Halves.{half_ticks};
ghost use Rattle.fw_node.specs.Nodes.{HandlesPacket, HandlesVerdict, device_restarts};
ghost use Rattle.fw_node.specs.Packets.{all_packets};
ghost use Rattle.fw_steps.specs.Sites.{IsCopyOf, is_activated, is_ready};
ghost use Rattle.fw_serve.specs.Noting.{NotesPacket, NotesVerdict};

use fd_core::{Bank, Device, Key, State, Verdict};
use fw_message::{
    Entry, HistoryEvent, Image, applied_images, awaits, copied, has_failed, room_for,
};
use fw_node::{DeviceNode, Outbox};
use std::alloc::{AllocError, Global};
use std::marker::Model;

/// A device's node. While the device is ready, its applied images may be kept for the history, so
/// that they are copied once.
#[derive(Drop)]
pub(crate) struct NotingDevice<B: Bank + Drop> {
    /// The device's node.
    node: DeviceNode<B>,
    /// The applied images of the device; kept only while it is in READY XFER.
    ready: Option<Vec<Image<'static>>>,
}

impl<B: Bank + Drop> Model for NotingDevice<B> {
    ghost use Rattle.std.specs.Prelude.{map, option_map};
    ghost use Rattle.fd_core.specs.Components.{HasComponents};
    ghost use Rattle.fw_message.specs.Entries.{keyed_image_of};
    ghost use Rattle.fw_node.specs.Nodes.{DeviceNodeOf};
    ghost use Rattle.fw_steps.specs.Sites.{AreReadyImages};

    ghost Value = { DeviceNodeOf };

    ghost view = { λ s. s.node };

    ghost invariant = { λ s. HasComponents s.node.half.core.device
        × AreReadyImages s.node.half.core.device (option_map
        (λ images. map keyed_image_of images.items) s.ready) };
}

impl<B: Bank + Drop> NotingDevice<B> {
    /// Creates it of a device's node.
    pub(crate) fn new(node: DeviceNode<B>) -> NotingDevice<B>
        requires { HasComponents node.half.core.device }
        ensures { result ≡ node }
    {
        NotingDevice { node, ready: None }
    }

    /// The device's endpoint identifier.
    fn eid(&self) -> u8
        ensures { result ≡ self.now.endpoint.eid }
    {
        self.node.eid()
    }

    /// The device's node.
    pub(crate) fn node(&self) -> &DeviceNode<B>
        ensures { result.now ≡ self.now }
    {
        &self.node
    }

    /// Handles the bytes of a packet. The images that the device activates are noted.
    ///
    /// # Errors
    /// `AllocError` if memory for the entries is refused. The device is unchanged then.
    #[tactic(auto, using(crate::proofs::Notes::nothing_ready))]
    pub(crate) fn deliver(
        &mut self,
        alloc: Global,
        bytes: &[u8],
        outbox: &mut Outbox,
        history: &mut Vec<Entry<'static>>,
    ) -> Result<(), AllocError>
        requires { outbox.old ≡ [] }
        ensures heard { OnOk result (NotesPacket self.old bytes.now self.new outbox.new
            (map entry_of history.old.items) (map entry_of history.new.items)) }
        ensures same { OnErr result (self.new ≡ self.old) }
        ensures unnoted { OnErr result (map entry_of history.new.items ≡ map entry_of history.old.items) }
    {
        let images = match self.ready_images(alloc) {
            Ok(images) => images,
            Err(error) => return Err(error),
        };
        match history.reserve(images.len()) {
            Ok(()) => {}
            Err(error) => return Err(error),
        }
        if !self.is_ready() {
            self.go_on(bytes, outbox);
            return Ok(());
        }
        self.deliver_ready(bytes, images, outbox, history);
        Ok(())
    }

    /// A ready device handles the bytes of a packet. The images that it activates, which are these,
    /// are noted. There must be room for all of them.
    #[tactic(auto, using(crate::proofs::Notes::activation_noted, crate::proofs::Notes::nothing_active, crate::proofs::Notes::still_ready))]
    fn deliver_ready(
        &mut self,
        bytes: &[u8],
        images: Vec<Image<'static>>,
        outbox: &mut Outbox,
        history: &mut Vec<Entry<'static>>,
    )
        requires outbox { outbox.old ≡ [] }
        requires ready { is_ready self.old.half.core.device.phase ≡ true }
        requires images { map keyed_image_of images.items ≡ applied_keyed_images self.old.half.core.device.rows }
        requires history { vec_len history.old + vec_len images ≤ vec_capacity history.old }
        ensures heard { NotesPacket self.old bytes.now self.new outbox.new
            (map entry_of history.old.items) (map entry_of history.new.items) }
    {
        self.go_on(bytes, outbox);
        if self.is_activated() {
            note_activated(history, self.eid(), images);
            return;
        }
        if self.is_ready() {
            self.keep(images);
        }
    }

    /// The node handles the bytes of a packet.
    #[tactic(auto, using(fw_steps::proofs::Components::heard_components))]
    fn go_on(&mut self, bytes: &[u8], outbox: &mut Outbox)
        requires { outbox.old ≡ [] }
        ensures heard { HandlesPacket self.old bytes.now self.new outbox.new }
        ensures endpoint { self.new.endpoint ≡ self.old.endpoint }
    {
        self.ready = None;
        self.node.on_packet(bytes, outbox);
    }

    /// Whether the device waits for the next component, or for its activation.
    fn is_ready(&self) -> bool
        ensures { result ≡ is_ready self.now.half.core.device.phase }
    {
        is_ready(self.node.device())
    }

    /// Whether the device has activated.
    fn is_activated(&self) -> bool
        ensures { result ≡ is_activated self.now.half.core.device.phase }
    {
        self.node.device().state() == State::Activate
    }

    /// Keeps the applied images of a ready device.
    fn keep(&mut self, images: Vec<Image<'static>>)
        requires ready { is_ready self.old.half.core.device.phase ≡ true }
        requires images { map keyed_image_of images.items ≡ applied_keyed_images self.old.half.core.device.rows }
        ensures { self.new ≡ self.old }
    {
        self.ready = Some(images);
    }

    /// Returns the applied images of a ready device, by rising key.
    #[tactic(auto, using(fw_message::proofs::Applied::all_applied))]
    fn ready_images(&mut self, alloc: Global) -> Result<Vec<Image<'static>>, AllocError>
        ensures images { IfOk result (λ images. is_ready self.old.half.core.device.phase ≡ true
            → map keyed_image_of images.items ≡ applied_keyed_images self.old.half.core.device.rows) }
        ensures same { self.new ≡ self.old }
    {
        if let Some(images) = self.ready.take() {
            return Ok(images);
        }
        if !self.is_ready() {
            return Ok(Vec::new(alloc));
        }
        let device = self.node.device();
        applied_images(alloc, &[], device.bank(), device.keys())
    }

    /// Handles a tick.
    #[tactic(auto, using(fw_steps::proofs::Components::ticked_components, fw_steps::proofs::Ticking::ticks_keep))]
    pub(crate) fn tick(&mut self, outbox: &mut Outbox)
        requires { outbox.old ≡ [] }
        ensures after { self.new ≡ record self.old { half = (half_ticks device_core true self.old.half).half } }
        ensures sent { outbox.new ≡ all_packets self.old.half.unit (half_ticks device_core true self.old.half).sent }
    {
        self.node.on_tick(outbox);
        if !is_ready(self.node.device()) {
            self.ready = None;
        }
    }

    /// Whether the device waits for this verdict.
    pub(crate) fn awaits(&self, verdict: Verdict) -> bool
        ensures { (works : Bool) → is_some (device_verdict self.now.half.core.device verdict works) ≡ result }
    {
        awaits(self.node.device(), verdict)
    }

    /// A verdict that the device waits for. The image that it applies is noted.
    ///
    /// # Errors
    /// `AllocError` if memory for the entry of ApplyOk is refused. The device is unchanged then.
    pub(crate) fn judge(
        &mut self,
        alloc: Global,
        verdict: Verdict,
        history: &mut Vec<Entry<'static>>,
    ) -> Result<(), AllocError>
        requires { (works : Bool) → is_some (device_verdict self.old.half.core.device verdict works) ≡ true }
        ensures judged { OnOk result (NotesVerdict self.old verdict self.new
            (map entry_of history.old.items) (map entry_of history.new.items)) }
        ensures same { OnErr result (self.new ≡ self.old) }
        ensures unnoted { OnErr result (map entry_of history.new.items ≡ map entry_of history.old.items) }
    {
        let Ok(room) = self.room_to_note(alloc, verdict, history) else {
            return Err(AllocError);
        };
        self.judge_noting(verdict, room, history);
        Ok(())
    }

    /// Makes room for the entry of a verdict in the history, and returns room for the image in it.
    /// Only ApplyOk has an entry.
    fn room_to_note(
        &self,
        alloc: Global,
        verdict: Verdict,
        history: &mut Vec<Entry<'static>>,
    ) -> Result<Vec<u8>, AllocError>
        ensures empty { IfOk result (λ room. room.items ≡ []) }
        ensures image { IfOk result (λ room. verdict ≡ Verdict.ApplyOk
            → IfSome (staged_of self.now.half.core.device.phase) (λ s. s.1 ≤ vec_capacity room)) }
        ensures entry { OnOk result (verdict ≡ Verdict.ApplyOk → vec_len history.new + 1 ≤ vec_capacity history.new) }
        ensures unnoted { history.new.items ≡ history.old.items }
    {
        match verdict {
            Verdict::ApplyOk => {}
            _ => return Ok(Vec::new(alloc)),
        }
        history.reserve(1)?;
        Vec::with_capacity(alloc, room_for(self.node.device(), verdict))
    }

    /// A verdict that the device waits for. The image that it applies is noted. For ApplyOk there
    /// must be room for the entry, and `room` must be empty, with the capacity of the image.
    #[tactic(auto, using(crate::proofs::Notes::other_noted))]
    fn judge_noting(&mut self, verdict: Verdict, room: Vec<u8>, history: &mut Vec<Entry<'static>>)
        requires awaited { (works : Bool) → is_some (device_verdict self.old.half.core.device verdict works) ≡ true }
        requires empty { room.items ≡ [] }
        requires room { verdict ≡ Verdict.ApplyOk
            → IfSome (staged_of self.old.half.core.device.phase) (λ s. s.1 ≤ vec_capacity room) }
        requires history { verdict ≡ Verdict.ApplyOk → vec_len history.old + 1 ≤ vec_capacity history.old }
        ensures { NotesVerdict self.old verdict self.new (map entry_of history.old.items)
            (map entry_of history.new.items) }
    {
        let staged = self.node.device().staged();
        self.judge_now(verdict);
        match verdict {
            Verdict::ApplyOk => {}
            _ => return,
        }
        if self.has_failed() {
            return;
        }
        let image = self.applied(staged, room);
        note_applied(history, self.eid(), image);
    }

    /// The node handles a verdict that it waits for.
    #[tactic(auto, using(fw_steps::proofs::Components::judged_components, fw_steps::proofs::Judging::never_refused))]
    fn judge_now(&mut self, verdict: Verdict)
        requires { (works : Bool) → is_some (device_verdict self.old.half.core.device verdict works) ≡ true }
        ensures judged { HandlesVerdict self.old verdict self.new }
        ensures tid { self.new.tid ≡ self.old.tid }
        ensures endpoint { self.new.endpoint ≡ self.old.endpoint }
    {
        self.ready = None;
        let Ok(()) = self.node.verdict(verdict) else {
            return;
        };
    }

    /// Whether the work of the device's state failed.
    fn has_failed(&self) -> bool
        ensures { result ≡ has_failed self.now.half.core.device.phase }
    {
        has_failed(self.node.device())
    }

    /// Returns the image that is applied for a component, copied into `room`. `None` if there is no
    /// image, or the room is too small. The room must be empty.
    fn applied(&self, staged: Option<(Key, u32)>, room: Vec<u8>) -> Option<Image<'static>>
        requires { room.items ≡ [] }
        ensures { IsCopyOf self.now.half.core.device.rows (vec_capacity room)
            (map keyed_image_of (option_to_list result)) staged }
    {
        let (key, _) = staged?;
        copied(&[], self.node.device().bank(), key, room)
    }

    /// Restarts the node.
    #[tactic(auto, using(fd_core::proofs::Components::restart_components))]
    pub(crate) fn restart(&mut self)
        ensures { self.new ≡ device_restarts self.old }
    {
        self.node.restart();
        self.ready = None;
    }
}

/// Whether a device waits for the next component, or for its activation.
fn is_ready<B: Bank>(device: &Device<B>) -> bool
    ensures { result ≡ is_ready device.now.device.phase }
{
    device.state() == State::Ready
}

/// Notes that a device activates these images. There must be room for them.
fn note_activated(history: &mut Vec<Entry<'static>>, device: u8, images: Vec<Image<'static>>)
    requires { vec_len history.old + vec_len images ≤ vec_capacity history.old }
    ensures { map entry_of history.new.items
        ≡ map entry_of history.old.items
        ++ map (λ p. noted_of device (EntryOf.Activated p)) (map keyed_image_of
        images.entry.items) }
{
    for image in images {
        let _ = history.push(Entry {
            device,
            event: HistoryEvent::Activated(image),
        });
    }
}

/// Notes that a device applied an image, if it did. There must be room for the entry.
fn note_applied(history: &mut Vec<Entry<'static>>, device: u8, image: Option<Image<'static>>)
    requires { vec_len history.old + 1 ≤ vec_capacity history.old }
    ensures { map entry_of history.new.items
        ≡ map entry_of history.old.items
        ++ map (λ p. noted_of device (EntryOf.Applied p)) (map keyed_image_of
        (option_to_list image.entry)) }
{
    let Some(image) = image else {
        return;
    };
    let _ = history.push(Entry {
        device,
        event: HistoryEvent::Applied(image),
    });
}
