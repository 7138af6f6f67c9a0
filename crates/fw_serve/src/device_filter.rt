//! A device as a server of lines.

ghost use Rattle.std.specs.Prelude.{[], ◌≡◌, IfOk, OnOk, Ok, Some};
ghost use Rattle.fd_core.specs.Components.{HasComponents};
ghost use Rattle.fw_serve.specs.Fronts.{answer_in_front};
ghost use Rattle.fw_serve.specs.Lines.{DeviceLineOf, device_line_seen};
ghost use Rattle.fw_serve.specs.Serving.{AreDue, ServesBehind, ServesRead, TakesSuch, device_line_front, device_report, due_verdict};

use crate::device::ServedDevice;
use crate::fronts::{FilterOptions, front_answer};
use crate::lines::{DeviceLine, read_device_line};
use crate::texts::{
    LineRefusal, clear, end_packets, push_answer, push_fault, push_nothing, push_refused, push_sent,
};
use fd_core::{Bank, Verdict};
use fw_json::device_json;
use fw_node::{DeviceNode, Outbox};
use fw_script::ScriptCause;
use fwupd_base::LineServer;
use std::alloc::{AllocError, Global};
use std::marker::Model;

/// A device as a server of lines. Each line is a call of its node, and prints the packets that the
/// node sends.
#[derive(Drop)]
pub struct DeviceFilter<B: Bank + Drop> {
    /// The allocator of its calls.
    alloc: Global,
    /// What it does beside its lines.
    options: FilterOptions,
    /// The device.
    device: ServedDevice<B>,
    /// The packets that the node sends in a call.
    outbox: Outbox,
}

impl<B: Bank + Drop> Model for DeviceFilter<B> {
    ghost use Rattle.fw_serve.specs.Serving.{DeviceFilterOf};

    ghost Value = { DeviceFilterOf };

    ghost view = { λ f. record { options = f.options; device = f.device } };
}

impl<B: Bank + Drop> DeviceFilter<B> {
    /// Creates the server of a device's node, with an empty history. With `options.auto`, the
    /// verdict that the device waits for is given at the end of each turn.
    ///
    /// # Errors
    /// `AllocError` if memory for it is refused.
    pub fn new(
        alloc: Global,
        node: DeviceNode<B>,
        options: FilterOptions,
    ) -> Result<DeviceFilter<B>, AllocError>
        requires { HasComponents node.half.core.device }
        ensures { IfOk result (λ f. f ≡ record { options = options; device = record { node = node; history = [] } }) }
    {
        let outbox = Outbox::new(alloc)?;
        Ok(DeviceFilter {
            alloc,
            options,
            device: ServedDevice::new(alloc, node),
            outbox,
        })
    }

    /// The device.
    pub fn device(&self) -> &ServedDevice<B>
        ensures { result.now ≡ self.now.device }
    {
        &self.device
    }

    /// Gives what is due at the end of the last turn. To be called at the end of the input, before
    /// the report.
    ///
    /// # Errors
    /// `AllocError` if memory for an entry of the history is refused. The device is unchanged then.
    pub fn end_turn(&mut self) -> Result<(), AllocError>
        ensures options { OnOk result (self.new.options ≡ self.old.options) }
        ensures due { OnOk result (TakesSuch self.old.device (AreDue
            (due_verdict self.old.options.auto self.old.device)) self.new.device []) }
    {
        self.device.end_turn(self.options.auto)
    }

    /// Serves a line that was read.
    fn serve_read(&mut self, line: DeviceLine, text: &mut Vec<u8>) -> Result<(), AllocError>
        requires { text.old.items ≡ [] }
        ensures options { OnOk result (self.new.options ≡ self.old.options) }
        ensures serves { OnOk result (ServesBehind (device_line_front self.old.options.front
            (Ok (Some (device_line_seen line)))) self.old.options.auto self.old.device
            (Ok (Some (device_line_seen line))) self.new.device text.new.items) }
    {
        match line {
            DeviceLine::Packet(bytes) => self.take_packet(&bytes, text),
            DeviceLine::Ticks(count) => self.tick(count, text),
            DeviceLine::Verdict(verdict) => self.judge(verdict, text),
            DeviceLine::Restart => self.restart(text),
            DeviceLine::Report => self.push_json(text),
        }
    }

    /// A packet arrives at the front, or at the node if the front has no answer.
    #[tactic(auto, using(crate::proofs::Prints::front_served, crate::proofs::Prints::front_passed))]
    fn take_packet(&mut self, bytes: &[u8], text: &mut Vec<u8>) -> Result<(), AllocError>
        requires { text.old.items ≡ [] }
        ensures options { OnOk result (self.new.options ≡ self.old.options) }
        ensures serves { OnOk result (ServesBehind (answer_in_front self.old.options.front bytes.now)
            self.old.options.auto self.old.device (Ok (Some (DeviceLineOf.Packet bytes.now)))
            self.new.device text.new.items) }
    {
        match front_answer(self.options.front, bytes) {
            Some(answer) => push_answer(self.alloc, text, answer.as_slice()),
            None => self.receive(bytes, text),
        }
    }

    /// A packet arrives at the node.
    fn receive(&mut self, bytes: &[u8], text: &mut Vec<u8>) -> Result<(), AllocError>
        requires { text.old.items ≡ [] }
        ensures options { OnOk result (self.new.options ≡ self.old.options) }
        ensures serves { OnOk result (ServesRead self.old.options.auto self.old.device
            (DeviceLineOf.Packet bytes.now) self.new.device text.new.items) }
    {
        clear(&mut self.outbox);
        match self.device.on_packet(bytes, &mut self.outbox) {
            Ok(()) => {}
            Err(error) => return Err(error),
        }
        match push_sent(self.alloc, text, &mut self.outbox) {
            Ok(()) => {}
            Err(error) => return Err(error),
        }
        end_packets(text)
    }

    /// A number of ticks.
    #[tactic(auto, using(crate::proofs::Turns::no_turns, crate::proofs::Turns::one_more))]
    fn tick(&mut self, count: u64, text: &mut Vec<u8>) -> Result<(), AllocError>
        requires { text.old.items ≡ [] }
        ensures options { OnOk result (self.new.options ≡ self.old.options) }
        ensures serves { OnOk result (ServesRead self.old.options.auto self.old.device
            (DeviceLineOf.Ticks count) self.new.device text.new.items) }
    {
        clear(&mut self.outbox);
        for _taken in 0..count {
            match self.device.turn(self.options.auto, &mut self.outbox) {
                Ok(()) => {}
                Err(error) => return Err(error),
            }
            match push_sent(self.alloc, text, &mut self.outbox) {
                Ok(()) => {}
                Err(error) => return Err(error),
            }
        }
        end_packets(text)
    }

    /// A verdict.
    #[tactic(auto, using(crate::proofs::Prints::verdict_taken, crate::proofs::Prints::verdict_refused))]
    fn judge(&mut self, verdict: Verdict, text: &mut Vec<u8>) -> Result<(), AllocError>
        requires { text.old.items ≡ [] }
        ensures options { OnOk result (self.new.options ≡ self.old.options) }
        ensures serves { OnOk result (ServesRead self.old.options.auto self.old.device
            (DeviceLineOf.Judges verdict) self.new.device text.new.items) }
    {
        if !self.device.awaits(verdict) {
            return push_refused(text, LineRefusal::NotNow);
        }
        match self.device.judge(verdict) {
            Ok(()) => {}
            Err(error) => return Err(error),
        }
        push_nothing(text)
    }

    /// The node restarts.
    #[tactic(auto, using(crate::proofs::Prints::prints_nothing))]
    fn restart(&mut self, text: &mut Vec<u8>) -> Result<(), AllocError>
        requires { text.old.items ≡ [] }
        ensures options { OnOk result (self.new.options ≡ self.old.options) }
        ensures serves { OnOk result (ServesRead self.old.options.auto self.old.device DeviceLineOf.Restarts
            self.new.device text.new.items) }
    {
        self.device.restart();
        push_nothing(text)
    }

    /// Prints the report as JSON.
    fn push_json(&self, text: &mut Vec<u8>) -> Result<(), AllocError>
        requires { text.old.items ≡ [] }
        ensures { OnOk result (ServesRead self.now.options.auto self.now.device DeviceLineOf.Reports
            self.now.device text.new.items) }
    {
        let line = device_json(self.alloc, self.device.node(), self.device.history())?;
        text.extend_from_slice(&line)?;
        Ok(())
    }

    /// Returns the report of the device as text: its state, its active images, and the history.
    ///
    /// # Errors
    /// `AllocError` if memory is refused.
    pub fn report(&self) -> Result<Vec<u8>, AllocError>
        ensures { IfOk result (λ text. text.items ≡ device_report self.now.device) }
    {
        self.device.report()
    }
}

impl<B: Bank + Drop> LineServer for DeviceFilter<B> {
    ghost use Rattle.std.specs.Prelude.{true};
    ghost use Rattle.fw_serve.specs.Serving.{ServesDeviceLine};

    ghost serves = { λ s line t text. ServesDeviceLine s line t text };

    ghost may_lack = { true };

    #[tactic(auto, using(crate::proofs::Prints::line_served))]
    fn serve(
        &mut self,
        line: &[u8],
        _bytes: &mut Vec<u8>,
        text: &mut Vec<u8>,
    ) -> Result<(), AllocError> {
        match read_device_line(self.alloc, line) {
            Ok(None) => Ok(()),
            Ok(Some(line)) => self.serve_read(line, text),
            Err(ScriptCause::Memory) => Err(AllocError),
            Err(cause) => push_fault(text, cause),
        }
    }
}
