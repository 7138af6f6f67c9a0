//! All that observes a process: its trace, its record, and its progress, each if it is requested.

ghost use Rattle.std.specs.Prelude.{◌≡◌};
ghost use Rattle.fwupd_traces.specs.Watches.{first_fault};

use crate::node_record::NodeRecord;
use crate::observed_line::PacketObserver;
use crate::packet_trace::PacketTrace;
use mctp_wire::RawPacket;
use std::io::Write;

/// Why what observes a process fails. It disturbs no traffic.
#[derive(Clone, Copy, PartialEq, Eq)]
pub enum WatchFault {
    /// The trace can't be written.
    Trace,
    /// The record can't be written.
    Record,
    /// Memory was refused.
    Memory,
}

/// The trace, the record and the progress of a process, each if it is requested.
#[derive(Drop)]
pub struct ProcessWatch<W: Write + Drop, P: PacketObserver + Drop> {
    /// The trace.
    pub trace: Option<PacketTrace<W>>,
    /// The record.
    pub record: Option<NodeRecord<W>>,
    /// The progress.
    pub progress: Option<P>,
}

/// The first of two faults, if there is one.
fn first_of(one: Result<(), WatchFault>, other: Result<(), WatchFault>) -> Result<(), WatchFault>
    ensures { result ≡ first_fault one other }
{
    match one {
        Ok(()) => other,
        Err(fault) => Err(fault),
    }
}

impl<W: Write + Drop, P: PacketObserver + Drop> PacketObserver for ProcessWatch<W, P> {
    ghost use Rattle.std.specs.Prelude.{◌≡◌};
    ghost use Rattle.fwupd_traces.specs.Records.{RecordsPacket, RecordsUnits};
    ghost use Rattle.fwupd_traces.specs.Traces.{KeepsTrace, TracesPacket};
    ghost use Rattle.fwupd_traces.specs.Watches.{EndsAll, Optional};

    ghost receives = { λ s p t. Optional TracesPacket s.trace p t.trace
        × (Optional RecordsPacket s.record p t.record × Optional P.receives s.progress p t.progress) };

    ghost sends = { λ s p t. Optional TracesPacket s.trace p t.trace
        × ((t.record ≡ s.record) × Optional P.sends s.progress p t.progress) };

    ghost begins = { λ s unit t. (t.trace ≡ s.trace)
        × (Optional (λ r u q. q ≡ record r { unit = u }) s.record unit t.record
        × Optional P.begins s.progress unit t.progress) };

    ghost begins_round = { λ s unit t. Optional (λ q u r. KeepsTrace q r) s.trace unit t.trace
        × (Optional RecordsUnits s.record unit t.record × Optional P.begins_round s.progress unit t.progress) };

    ghost ends = { λ s r t. EndsAll P.ends
        (record { trace = s.trace; recorded = s.record; progress = s.progress })
        r (record { trace = t.trace; recorded = t.record; progress = t.progress }) };

    fn begin(&mut self, unit: u32) {
        self.record.begin(unit);
        self.progress.begin(unit);
    }

    fn begin_round(&mut self, unit: u32) {
        self.trace.begin_round(unit);
        self.record.begin_round(unit);
        self.progress.begin_round(unit);
    }

    fn receive(&mut self, stamp: u32, packet: &RawPacket) {
        self.trace.receive(stamp, packet);
        self.record.receive(stamp, packet);
        self.progress.receive(stamp, packet);
    }

    fn send(&mut self, unit: u32, packet: &RawPacket) {
        self.trace.send(unit, packet);
        self.progress.send(unit, packet);
    }

    fn end(&mut self) -> Result<(), WatchFault> {
        let traced = self.trace.end();
        let recorded = self.record.end();
        let shown = self.progress.end();
        first_of(traced, first_of(recorded, shown))
    }
}
