//! A device by itself: its node, and the history of its images.

ghost use Rattle.std.specs.Prelude.{[], ◌≡◌, Bool, IfOk, OnErr, OnOk, is_some, map, true};
ghost use Rattle.fd_core.specs.Components.{HasComponents};
ghost use Rattle.fd_core.specs.Steps.{device_verdict};
ghost use Rattle.fw_message.specs.Entries.{entry_of};
ghost use Rattle.fw_serve.specs.Serving.{AreDue, IsReceipt, IsRestart, IsTick, IsVerdict, TakesSuch, TakesTurn, awaited_verdict, device_report, due_verdict};

use crate::noting::NotingDevice;
use fd_core::{Bank, Verdict};
use fw_message::Entry;
use fw_node::{DeviceNode, Outbox};
use fw_script::{push_device_alone, push_history};
use std::alloc::{AllocError, Global};
use std::marker::Model;

/// A device's node, and the history of the images that it applied and activated.
#[derive(Drop)]
pub struct ServedDevice<B: Bank + Drop> {
    /// The allocator of its calls.
    alloc: Global,
    /// The device's node.
    device: NotingDevice<B>,
    /// The history, in order.
    history: Vec<Entry<'static>>,
}

impl<B: Bank + Drop> Model for ServedDevice<B> {
    ghost use Rattle.std.specs.Prelude.{map};
    ghost use Rattle.fw_message.specs.Entries.{entry_of};
    ghost use Rattle.fw_serve.specs.Serving.{ServedDeviceOf};

    ghost Value = { ServedDeviceOf };

    ghost view = { λ s. record { node = s.device; history = map entry_of s.history.items } };
}

impl<B: Bank + Drop> ServedDevice<B> {
    /// Creates a device with an empty history. Its calls allocate from `alloc`.
    pub fn new(alloc: Global, node: DeviceNode<B>) -> ServedDevice<B>
        requires { HasComponents node.half.core.device }
        ensures { result ≡ record { node = node; history = [] } }
    {
        ServedDevice {
            alloc,
            device: NotingDevice::new(node),
            history: Vec::new(alloc),
        }
    }

    /// The device's node.
    pub fn node(&self) -> &DeviceNode<B>
        ensures { result.now ≡ self.now.node }
    {
        self.device.node()
    }

    /// The history of the images that the device applied and activated, in order.
    pub fn history(&self) -> &[Entry<'static>]
        ensures { map entry_of result.now ≡ self.now.history }
    {
        self.history.as_slice()
    }

    /// Handles the bytes of a packet, and puts the packets to send into `outbox`, which must be
    /// empty. The images that the device activates are noted.
    ///
    /// # Errors
    /// `AllocError` if memory for the entries is refused. The device is unchanged then.
    #[tactic(auto, using(crate::proofs::Calls::receives))]
    pub fn on_packet(&mut self, bytes: &[u8], outbox: &mut Outbox) -> Result<(), AllocError>
        requires { outbox.old ≡ [] }
        ensures taken { OnOk result (TakesSuch self.old (IsReceipt bytes.now) self.new outbox.new) }
        ensures same { OnErr result (self.new ≡ self.old) }
    {
        match self
            .device
            .deliver(self.alloc, bytes, outbox, &mut self.history)
        {
            Ok(()) => {}
            Err(error) => return Err(error),
        }
        Ok(())
    }

    /// Handles a tick, and puts the packets to send into `outbox`, which must be empty.
    #[tactic(auto, using(crate::proofs::Calls::ticks))]
    pub fn on_tick(&mut self, outbox: &mut Outbox)
        requires { outbox.old ≡ [] }
        ensures { TakesSuch self.old IsTick self.new outbox.new }
    {
        self.device.tick(outbox);
    }

    /// Whether the device waits for this verdict.
    pub fn awaits(&self, verdict: Verdict) -> bool
        ensures { (works : Bool) → is_some (device_verdict self.now.node.half.core.device verdict works) ≡ result }
    {
        self.device.awaits(verdict)
    }

    /// A verdict on the image that the device has written, which it must wait for. The image that
    /// it applies is noted.
    ///
    /// # Errors
    /// `AllocError` if memory for the entry of ApplyOk is refused. The device is unchanged then.
    #[tactic(auto, using(crate::proofs::Calls::judges))]
    pub fn judge(&mut self, verdict: Verdict) -> Result<(), AllocError>
        requires { (works : Bool) → is_some (device_verdict self.old.node.half.core.device verdict works) ≡ true }
        ensures taken { OnOk result (TakesSuch self.old (IsVerdict verdict) self.new []) }
        ensures same { OnErr result (self.new ≡ self.old) }
    {
        match self.device.judge(self.alloc, verdict, &mut self.history) {
            Ok(()) => {}
            Err(error) => return Err(error),
        }
        Ok(())
    }

    /// The verdict that the device waits for; it is always a success.
    pub fn awaited(&self) -> Option<Verdict>
        ensures { result ≡ awaited_verdict self.now.node.half.core.device }
    {
        if self.awaits(Verdict::VerifyOk) {
            return Some(Verdict::VerifyOk);
        }
        if self.awaits(Verdict::ApplyOk) {
            return Some(Verdict::ApplyOk);
        }
        None
    }

    /// Gives the verdict that the device waits for at the end of a turn, if `auto`.
    ///
    /// # Errors
    /// `AllocError` if memory for an entry of the history is refused. The device is unchanged then.
    #[tactic(auto, using(crate::proofs::Calls::due_none))]
    pub fn end_turn(&mut self, auto: bool) -> Result<(), AllocError>
        ensures due { OnOk result (TakesSuch self.old (AreDue (due_verdict auto self.old)) self.new []) }
        ensures same { OnErr result (self.new ≡ self.old) }
    {
        if !auto {
            return Ok(());
        }
        if self.awaits(Verdict::VerifyOk) {
            return self.judge(Verdict::VerifyOk);
        }
        if self.awaits(Verdict::ApplyOk) {
            return self.judge(Verdict::ApplyOk);
        }
        Ok(())
    }

    /// Gives the verdict that the device waits for at the end of a turn, if `auto`, and begins the
    /// next turn: the device handles a tick.
    ///
    /// # Errors
    /// `AllocError` if memory for an entry of the history is refused. The device is unchanged then.
    pub fn turn(&mut self, auto: bool, outbox: &mut Outbox) -> Result<(), AllocError>
        requires { outbox.old ≡ [] }
        ensures taken { OnOk result (TakesTurn auto self.old self.new outbox.new) }
        ensures same { OnErr result (self.new ≡ self.old) }
        ensures unsent { OnErr result (outbox.new ≡ []) }
    {
        match self.end_turn(auto) {
            Ok(()) => {}
            Err(error) => return Err(error),
        }
        self.on_tick(outbox);
        Ok(())
    }

    /// Restarts the node.
    #[tactic(auto, using(crate::proofs::Calls::restarts))]
    pub fn restart(&mut self)
        ensures { TakesSuch self.old IsRestart self.new [] }
    {
        self.device.restart();
    }

    /// Returns the report of the device as text: its node, and the history.
    ///
    /// # Errors
    /// `AllocError` if memory is refused.
    pub fn report(&self) -> Result<Vec<u8>, AllocError>
        ensures { IfOk result (λ text. text.items ≡ device_report self.now) }
    {
        let mut text = Vec::new(self.alloc);
        push_device_alone(self.alloc, &mut text, self.node())?;
        push_history(self.alloc, &mut text, self.history())?;
        Ok(text)
    }
}
