//! Writes the packets of a run when they are sent.

ghost use Rattle.std.specs.Prelude.{◌≡◌, ◌<◌, ◌≤◌, ◌⊎◌, ◌+◌, ◌^◌, ◌∷◌, [], List, Option, Some, IfErr, IfOk, IfSome, OnOk, length, slice_get, ℕ};
ghost use Rattle.std.specs.Io.Buffered.{writer_buffer, writer_contents};
ghost use Rattle.std.specs.Io.KnownBytes.{Appends, Keeps};
ghost use Rattle.fw_edge.specs.Ledgers.{packet_counts};
ghost use Rattle.fw_text.specs.Printing.{AppendsText};
ghost use Rattle.fw_steps.specs.Packets.{sent_of};
ghost use Rattle.fw_steps.specs.Worlds.{WorldOf};
ghost use Rattle.fwupd_traces.specs.Traces.{head_of};
ghost use Rattle.fwupd_watch.specs.Traces.{ContinuesPairsIfAny, HasReadWorlds, HasTracedWorlds, ReadOn, packet_text, pair_text, pairs_text, reader_next, reader_of_pair, reader_past, readers_for, trace_text, written_at as written_of};

use crate::running::ObserverFault;
use arrayvec::ArrayVec;
use fd_core::Bank;
use fw_trace::{PacketReader, push_capture};
use fw_world::{DatedPacket, SentPackets, World};
use fwupd_base::TraceForm;
use fwupd_traces::{is_to_agent, push_packet_line, trace_head};
use std::alloc::{AllocError, Global};
use std::io::{BufWriter, Write};

/// Writes each packet of a run or a replay when it is sent, in one of the formats of a trace.
#[derive(Drop)]
pub struct Trace<W: Write + Drop> {
    alloc: Global,
    form: TraceForm,
    writer: BufWriter<W>,
    /// The number of written packets of each pair, in configured order.
    written: ArrayVec<usize, 16>,
    /// The reader of each pair's packets.
    readers: Vec<PacketReader>,
}

/// Appends a packet in a format, with its number, from 1. `reader` has read the packets before it,
/// and then reads this one.
fn push_packet(
    alloc: Global,
    form: TraceForm,
    reader: &mut PacketReader,
    text: &mut Vec<u8>,
    device: u8,
    number: usize,
    packet: &DatedPacket<'_>,
) -> Result<(), AllocError>
    ensures text { OnOk result (AppendsText text.old.items text.new.items
        (packet_text form reader.old device number (sent_of packet.now))) }
    ensures after { OnOk result (reader.new ≡ reader_next form reader.old (sent_of packet.now)) }
{
    match form {
        TraceForm::Hex => push_packet_line(alloc, text, device, packet.date, packet.bytes),
        TraceForm::Text => reader.push_line(alloc, text, packet.date, number, packet.bytes),
        TraceForm::Capture => {
            let is_sent = !is_to_agent(device, packet.bytes);
            push_capture(text, packet.date, is_sent, packet.bytes)
        }
    }
}

/// The text of the packets of a pair after the first `written`.
fn lines(
    alloc: Global,
    form: TraceForm,
    reader: &mut PacketReader,
    device: u8,
    written: usize,
    packets: &SentPackets<'_>,
) -> Result<Vec<u8>, AllocError>
    requires { written + length packets.now < 2 ^ 64 }
    ensures text { IfOk result (λ text. text.items ≡ trace_text form reader.old device (written + 1) packets.now) }
    ensures after { OnOk result (reader.new ≡ reader_past form reader.old packets.now) }
{
    let mut text = Vec::new(alloc);
    for place in 0..packets.len() {
        let Some(packet) = packets.get(place) else {
            unreachable!()
        };
        push_packet(
            alloc,
            form,
            reader,
            &mut text,
            device,
            written + place + 1,
            &packet,
        )?;
    }
    Ok(text)
}

/// Writes the packets of the pair at `place` after the first `written`, and returns the number of
/// its packets.
fn write_pair<B: Bank + Drop, W: Write>(
    alloc: Global,
    form: TraceForm,
    world: &World<'_, B>,
    place: usize,
    written: usize,
    reader: &mut PacketReader,
    writer: &mut W,
) -> Result<usize, ObserverFault>
    ensures lines { OnOk result (Appends (W.contents writer.old) (W.contents writer.new)
        (pair_text form (Some reader.old) (slice_get world.now.sites place) written)) }
    ensures read { OnOk result (reader.new ≡ reader_of_pair form reader.old (slice_get world.now.sites place) written) }
    ensures count { IfOk result (λ n. IfSome (slice_get world.now.sites place) (λ x. n ≡ length x.packets)) }
    ensures fault { IfErr result (λ e. (e ≡ ObserverFault.Memory) ⊎ (e ≡ ObserverFault.Unwritten)) }
    ensures unwritten { IfErr result (λ e. e ≡ ObserverFault.Unwritten
        → reader.new ≡ reader_of_pair form reader.old (slice_get world.now.sites place) written) }
{
    let (Some(node), Some(packets)) = (world.device_at(place), world.packets_at(place)) else {
        return Ok(0);
    };
    if packets.len() <= written {
        return Ok(packets.len());
    }
    let Ok(text) = lines(
        alloc,
        form,
        reader,
        node.eid(),
        written,
        &packets.behind(written),
    ) else {
        return Err(ObserverFault::Memory);
    };
    match writer.write_all(&text) {
        Ok(()) => Ok(packets.len()),
        Err(_) => Err(ObserverFault::Unwritten),
    }
}

/// The number of written packets of the pair at `place`.
fn written_at(written: &[usize], place: usize) -> usize
    ensures { result ≡ written_of written.now place }
{
    match written.get(place) {
        Some(count) => *count,
        None => 0,
    }
}

/// Writes the unwritten packets of each pair, and returns the numbers of packets. Each reader reads
/// the packets of its pair.
#[tactic(auto, using(crate::proofs::Turns::reading))]
fn write_pairs<B: Bank + Drop, W: Write>(
    alloc: Global,
    form: TraceForm,
    world: &World<'_, B>,
    written: &[usize],
    readers: &mut [PacketReader],
    writer: &mut W,
) -> Result<ArrayVec<usize, 16>, ObserverFault>
    requires { length world.now.sites ≤ length readers.old }
    ensures lines { OnOk result (Appends (W.contents writer.old) (W.contents writer.new)
        (pairs_text form readers.old written.now world.now.sites (length world.now.sites))) }
    ensures counts { IfOk result (λ counts. counts.items ≡ packet_counts world.now.sites) }
    ensures read { OnOk result (ReadOn form written.now world.now.sites (length world.now.sites) readers.old readers.new) }
    ensures fault { IfErr result (λ e. (e ≡ ObserverFault.Memory) ⊎ (e ≡ ObserverFault.Unwritten)) }
{
    let mut counts = ArrayVec::new();
    for place in 0..world.device_count() {
        let reader = &mut readers[place];
        match write_pair(
            alloc,
            form,
            world,
            place,
            written_at(written, place),
            reader,
            writer,
        ) {
            Ok(count) => counts.push(count),
            Err(fault) => return Err(fault),
        }
    }
    Ok(counts)
}

/// Adds a reader for each pair that has none.
fn add_readers<B: Bank + Drop>(
    world: &World<'_, B>,
    readers: &mut Vec<PacketReader>,
) -> Result<(), AllocError>
    ensures { OnOk result (readers.new.items ≡ readers_for readers.old.items world.now) }
{
    for place in readers.len()..world.device_count() {
        let Some(node) = world.device_at(place) else {
            unreachable!()
        };
        readers.push(PacketReader::new(node.unit(), world.agent().eid(), node.eid()))?;
    }
    Ok(())
}

impl<W: Write + Drop> Trace<W> {
    /// Creates a trace that consists of its header.
    ///
    /// # Errors
    /// `Unwritten` if the header can't be written, or `Memory`.
    pub fn new(alloc: Global, form: TraceForm, writer: W) -> Result<Trace<W>, ObserverFault>
        ensures written { IfOk result (λ t. t.written.items ≡ []) }
        ensures unread { IfOk result (λ t. t.readers.items ≡ []) }
        ensures form { IfOk result (λ t. t.form ≡ form) }
        ensures head { IfOk result (λ t. Appends (W.contents writer) (writer_contents W.contents t.writer) (head_of form)) }
        ensures traced { IfOk result (λ t. HasTracedWorlds form [] t.written.items t.readers.items
            (W.contents writer) (writer_contents W.contents t.writer)) }
        ensures fault { IfErr result (λ e. (e ≡ ObserverFault.Memory) ⊎ (e ≡ ObserverFault.Unwritten)) }
    {
        let Ok(mut writer) = BufWriter::new(alloc, writer) else {
            return Err(ObserverFault::Memory);
        };
        match writer.write_all(trace_head(form)) {
            Ok(()) => {}
            Err(_) => return Err(ObserverFault::Unwritten),
        }
        Ok(Trace {
            alloc,
            form,
            writer,
            written: ArrayVec::new(),
            readers: Vec::new(alloc),
        })
    }

    /// Writes the packets that a turn sent: the unwritten ones of each pair. If each observed world
    /// continues the one before it, the trace is the lines of all packets sent so far.
    ///
    /// # Errors
    /// `Unwritten` if they can't be written, or `Memory` if memory is refused.
    pub fn see<B: Bank + Drop>(&mut self, world: &World<'_, B>) -> Result<(), ObserverFault>
        ensures lines { OnOk result (Appends (writer_contents W.contents self.old.writer)
            (writer_contents W.contents self.new.writer) (pairs_text self.old.form
            (readers_for self.old.readers.items world.now) self.old.written.items world.now.sites
            (length world.now.sites))) }
        ensures counts { OnOk result (self.new.written.items ≡ packet_counts world.now.sites) }
        ensures read { OnOk result ((seen : List WorldOf)
            → HasReadWorlds self.old.form seen self.old.written.items self.old.readers.items
            → ContinuesPairsIfAny seen world.now
            → HasReadWorlds self.old.form (world.now ∷ seen) self.new.written.items
            self.new.readers.items) }
        ensures traced { OnOk result ((seen : List WorldOf) (before : Option (List ℕ))
            → HasTracedWorlds self.old.form seen self.old.written.items self.old.readers.items
            before (writer_contents W.contents self.old.writer)
            → ContinuesPairsIfAny seen world.now
            → HasTracedWorlds self.old.form (world.now ∷ seen) self.new.written.items
            self.new.readers.items before (writer_contents W.contents self.new.writer)) }
        ensures form { self.new.form ≡ self.old.form }
        ensures fault { IfErr result (λ e. (e ≡ ObserverFault.Memory) ⊎ (e ≡ ObserverFault.Unwritten)) }
    {
        if add_readers(world, &mut self.readers).is_err() {
            return Err(ObserverFault::Memory);
        }
        let counts = match write_pairs(
            self.alloc,
            self.form,
            world,
            self.written.as_slice(),
            self.readers.as_mut_slice(),
            &mut self.writer,
        ) {
            Ok(counts) => counts,
            Err(fault) => return Err(fault),
        };
        self.written = counts;
        Ok(())
    }

    /// Flushes the trace.
    ///
    /// # Errors
    /// `Unwritten` if that fails.
    pub fn end(&mut self) -> Result<(), ObserverFault>
        ensures fault { IfErr result (λ e. e ≡ ObserverFault.Unwritten) }
        ensures all { OnOk result (writer_buffer self.new.writer ≡ []) }
        ensures form { self.new.form ≡ self.old.form }
        ensures kept { Keeps (writer_contents W.contents self.old.writer) (writer_contents W.contents self.new.writer) }
    {
        match self.writer.flush() {
            Ok(()) => Ok(()),
            Err(_) => Err(ObserverFault::Unwritten),
        }
    }
}
