//! Writes the packets of a process when they are sent or received.

ghost use Rattle.std.specs.Prelude.{[], ◌≡◌, ◌⊎◌, IfErr, IfOk, None, OnOk};
ghost use Rattle.std.specs.Io.KnownBytes.{Appends};
ghost use Rattle.exch_lane.specs.Steps.{sent_at};
ghost use Rattle.fw_text.specs.Printing.{AppendsText};
ghost use Rattle.fw_trace.specs.Decoding.{decoder_after_seen, facts_line, facts_of_seen, new_decoder, text_of_seen};
ghost use Rattle.fw_trace.specs.Seen.{seen_of};
ghost use Rattle.fwupd_traces.specs.PacketLines.{device_in};
ghost use Rattle.fwupd_traces.specs.Traces.{IsTraceFault, KeepsTrace, TracesPacket, decoder_next, head_of, packet_piece};

use crate::observed_line::PacketObserver;
use crate::packet_lines::{TracedNode, device_of_packet, is_to_agent, push_packet_line};
use crate::process_watch::WatchFault;
use fw_trace::{Decoder, LineForm, SeenPacket, TraceLines, capture_header, push_capture};
use fwupd_base::TraceForm;
use mctp_wire::{RawPacket, Unit};
use std::alloc::{AllocError, Global};
use std::io::{BufWriter, Write};
use std::marker::Model;

/// Writes each packet of a node's process when it is sent or received, in one of the formats of a
/// trace. After its first fault it writes nothing.
#[derive(Drop)]
pub struct PacketTrace<W: Write + Drop> {
    alloc: Global,
    form: TraceForm,
    node: TracedNode,
    /// Reads the packets, if the trace is what they say.
    decoder: Decoder,
    writer: BufWriter<W>,
    /// The first fault, if any.
    fault: Option<WatchFault>,
}

impl<W: Write + Drop> Model for PacketTrace<W> {
    ghost use Rattle.std.specs.Io.Buffered.{writer_buffer, writer_contents};
    ghost use Rattle.fwupd_traces.specs.Traces.{PacketTraceOf};

    ghost Value = { PacketTraceOf };

    ghost view = { λ t. record {
      form = t.form;
      node = t.node;
      decoder = t.decoder;
      text = writer_contents W.contents t.writer;
      behind = writer_buffer t.writer;
      fault = t.fault;
    } };
}

/// Returns the beginning of a trace.
pub fn trace_head(form: TraceForm) -> &'static [u8]
    ensures { result.now ≡ head_of form }
{
    match form {
        TraceForm::Hex | TraceForm::Text => &[],
        TraceForm::Capture => capture_header(),
    }
}

/// Appends what a packet says, as a line. `decoder` has read the packets before it, and then reads
/// this one.
fn push_said(
    alloc: Global,
    decoder: &mut Decoder,
    text: &mut Vec<u8>,
    packet: &SeenPacket<'_>,
) -> Result<(), AllocError>
    ensures text { OnOk result (AppendsText text.old.items text.new.items
        (facts_line (facts_of_seen decoder.old (seen_of packet.now)) (text_of_seen decoder.old (seen_of packet.now)))) }
    ensures after { OnOk result (decoder.new ≡ decoder_after_seen decoder.old (seen_of packet.now)) }
{
    let mut said = Vec::new(alloc);
    let facts = decoder.read(alloc, &mut said, packet)?;
    TraceLines.push(alloc, text, &facts, &said)
}

/// Appends a packet that was sent in a unit, in a format. `decoder` has read the packets before it,
/// and then reads this one.
fn push_packet(
    alloc: Global,
    form: TraceForm,
    device: u8,
    decoder: &mut Decoder,
    text: &mut Vec<u8>,
    unit: u32,
    bytes: &[u8],
) -> Result<(), AllocError>
    ensures text { OnOk result (AppendsText text.old.items text.new.items
        (packet_piece form device decoder.old (sent_at unit bytes.now))) }
    ensures after { OnOk result (decoder.new ≡ decoder_next form device decoder.old (sent_at unit bytes.now)) }
{
    match form {
        TraceForm::Hex => push_packet_line(alloc, text, device, unit, bytes),
        TraceForm::Text => {
            let packet = SeenPacket {
                turn: Some(unit),
                device: Some(device),
                bytes,
            };
            push_said(alloc, decoder, text, &packet)
        }
        TraceForm::Capture => push_capture(text, unit, !is_to_agent(device, bytes), bytes),
    }
}

impl<W: Write + Drop> PacketTrace<W> {
    /// Creates the trace of a node in a network with this transmission unit. It consists of its
    /// header.
    ///
    /// # Errors
    /// `Trace` if the header can't be written, and `Memory`.
    pub fn new(
        alloc: Global,
        form: TraceForm,
        node: TracedNode,
        unit: Unit,
        writer: W,
    ) -> Result<PacketTrace<W>, WatchFault>
        ensures form { IfOk result (λ t. t.form ≡ form) }
        ensures node { IfOk result (λ t. t.node ≡ node) }
        ensures unread { IfOk result (λ t. t.decoder ≡ new_decoder unit) }
        ensures whole { IfOk result (λ t. t.fault ≡ None) }
        ensures head { IfOk result (λ t. Appends (W.contents writer) t.text (head_of form)) }
        ensures fault { IfErr result (λ e. (e ≡ WatchFault.Memory) ⊎ (e ≡ WatchFault.Trace)) }
    {
        let Ok(mut writer) = BufWriter::new(alloc, writer) else {
            return Err(WatchFault::Memory);
        };
        match writer.write_all(trace_head(form)) {
            Ok(()) => {}
            Err(_) => return Err(WatchFault::Trace),
        }
        Ok(PacketTrace {
            alloc,
            form,
            node,
            decoder: Decoder::new(alloc, unit),
            writer,
            fault: None,
        })
    }

    /// Writes a packet that was sent in a unit.
    fn write(&mut self, unit: u32, bytes: &[u8]) -> Result<(), WatchFault>
        ensures text { OnOk result (Appends self.old.text self.new.text
            (packet_piece self.old.form (device_in self.old.node bytes.now) self.old.decoder (sent_at unit bytes.now))) }
        ensures after { OnOk result (self.new.decoder
            ≡ decoder_next self.old.form (device_in self.old.node bytes.now) self.old.decoder (sent_at unit bytes.now)) }
        ensures kind { IfErr result (λ e. IsTraceFault self.old e self.new) }
        ensures form { self.new.form ≡ self.old.form }
        ensures node { self.new.node ≡ self.old.node }
        ensures fault { self.new.fault ≡ self.old.fault }
    {
        let (alloc, form) = (self.alloc, self.form);
        let mut text = Vec::new(alloc);
        let device = device_of_packet(self.node, bytes);
        let Ok(()) = push_packet(
            alloc,
            form,
            device,
            &mut self.decoder,
            &mut text,
            unit,
            bytes,
        ) else {
            return Err(WatchFault::Memory);
        };
        match self.writer.write_all(&text) {
            Ok(()) => Ok(()),
            Err(_) => Err(WatchFault::Trace),
        }
    }

    /// Writes a packet that was sent in a unit, unless there was a fault.
    fn see(&mut self, unit: u32, bytes: &[u8])
        ensures { TracesPacket self.old (sent_at unit bytes.now) self.new }
    {
        if self.fault.is_some() {
            return;
        }
        match self.write(unit, bytes) {
            Ok(()) => {}
            Err(fault) => self.fault = Some(fault),
        }
    }

    /// Puts what is written so far into the file, unless there was a fault.
    fn flush(&mut self)
        ensures { KeepsTrace self.old self.new }
    {
        if self.fault.is_some() {
            return;
        }
        match self.writer.flush() {
            Ok(()) => {}
            Err(_) => self.fault = Some(WatchFault::Trace),
        }
    }
}

impl<W: Write + Drop> PacketObserver for PacketTrace<W> {
    ghost use Rattle.fwupd_traces.specs.Traces.{EndsTrace, KeepsTrace, TracesPacket};

    ghost receives = { λ s p t. TracesPacket s p t };

    ghost sends = { λ s p t. TracesPacket s p t };

    ghost begins = { λ s unit t. t ≡ s };

    ghost begins_round = { λ s unit t. KeepsTrace s t };

    ghost ends = { λ s r t. EndsTrace s r t };

    fn begin(&mut self, _unit: u32) {}

    fn begin_round(&mut self, _unit: u32) {
        self.flush();
    }

    fn receive(&mut self, stamp: u32, packet: &RawPacket) {
        self.see(stamp, packet.as_slice());
    }

    fn send(&mut self, unit: u32, packet: &RawPacket) {
        self.see(unit, packet.as_slice());
    }

    fn end(&mut self) -> Result<(), WatchFault> {
        self.flush();
        match self.fault {
            Some(fault) => Err(fault),
            None => Ok(()),
        }
    }
}
