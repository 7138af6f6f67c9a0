//! The files that are written of a process while it runs, and its progress on a terminal.

use fwupd_base::Watching;
use fwupd_nodes::Observed;
use fwupd_traces::{NodeRecord, PacketObserver, PacketTrace, ProcessWatch, TracedNode, WatchFault};
use fwupd_watch::{JobFault, PacketProgress, Terminal, process_fault};
use mctp_wire::RawPacket;
use std::alloc::Global;
use std::fs::File;

/// Makes the trace of a process, if it is requested.
fn open_trace(
    rt: &HostRuntime,
    alloc: Global,
    observed: Observed<'_>,
    watching: Watching<'_>,
) -> Result<Option<PacketTrace<File>>, JobFault> {
    let Some(path) = watching.trace else {
        return Ok(None);
    };
    let Ok(file) = File::create(rt, path) else {
        return Err(JobFault::Trace);
    };
    let form = watching.trace_form;
    match PacketTrace::new(alloc, form, observed.node, observed.unit, file) {
        Ok(trace) => Ok(Some(trace)),
        Err(fault) => Err(process_fault(fault)),
    }
}

/// Makes the record of a process, if it is requested.
fn open_record(
    rt: &HostRuntime,
    alloc: Global,
    observed: Observed<'_>,
    watching: Watching<'_>,
) -> Result<Option<NodeRecord<File>>, JobFault> {
    let Some(path) = watching.record else {
        return Ok(None);
    };
    let Ok(file) = File::create(rt, path) else {
        return Err(JobFault::Record);
    };
    match NodeRecord::new(alloc, observed.starts, file) {
        Ok(record) => Ok(Some(record)),
        Err(fault) => Err(process_fault(fault)),
    }
}

/// The progress of a process, where standard error is a terminal.
fn open_progress<'a>(
    rt: &'a HostRuntime,
    observed: Observed<'_>,
) -> Result<Option<PacketProgress<'a>>, JobFault> {
    let Some(terminal) = Terminal::find(rt, false) else {
        return Ok(None);
    };
    let all = match observed.node {
        TracedNode::Agent(_) => Some(observed.starts.eids.len()),
        TracedNode::Device(_) => None,
    };
    match PacketProgress::new(terminal, all) {
        Ok(progress) => Ok(Some(progress)),
        Err(_) => Err(JobFault::Memory),
    }
}

/// What observes a process of the system. Nothing is known of what its files hold, nor of what it
/// shows on a terminal.
#[derive(Drop)]
pub(crate) struct SystemWatch<'a> {
    watch: ProcessWatch<File, PacketProgress<'a>>,
}

/// Makes the files that are written of a process while it runs, and its progress.
pub(crate) fn open_watch<'a>(
    rt: &'a HostRuntime,
    alloc: Global,
    observed: Observed<'_>,
    watching: Watching<'_>,
) -> Result<SystemWatch<'a>, JobFault> {
    let trace = open_trace(rt, alloc, observed, watching)?;
    let record = open_record(rt, alloc, observed, watching)?;
    let progress = open_progress(rt, observed)?;
    Ok(SystemWatch {
        watch: ProcessWatch {
            trace,
            record,
            progress,
        },
    })
}

impl<'a> PacketObserver for SystemWatch<'a> {
    ghost use Rattle.std.specs.Prelude.{◌≡◌};
    ghost use Rattle.fwupd_traces.specs.Records.{RecordsPacket, RecordsUnits};
    ghost use Rattle.fwupd_traces.specs.Traces.{KeepsTrace, TracesPacket};
    ghost use Rattle.fwupd_traces.specs.Watches.{EndsAll, Optional};
    ghost use Rattle.fwupd_watch.specs.Processes.{EndsProgress};

    ghost receives = { λ s p t. Optional TracesPacket s.watch.trace p t.watch.trace
        × Optional RecordsPacket s.watch.record p t.watch.record };

    ghost sends = { λ s p t. Optional TracesPacket s.watch.trace p t.watch.trace
        × (t.watch.record ≡ s.watch.record) };

    ghost begins = { λ s unit t. (t.watch.trace ≡ s.watch.trace)
        × Optional (λ r u q. q ≡ record r { unit = u }) s.watch.record unit t.watch.record };

    ghost begins_round = { λ s unit t. Optional (λ q u r. KeepsTrace q r) s.watch.trace unit t.watch.trace
        × Optional RecordsUnits s.watch.record unit t.watch.record };

    ghost ends = { λ s r t. EndsAll EndsProgress
        (record { trace = s.watch.trace; recorded = s.watch.record; progress = s.watch.progress })
        r (record { trace = t.watch.trace; recorded = t.watch.record; progress = t.watch.progress }) };

    fn begin(&mut self, unit: u32) {
        self.watch.begin(unit);
    }

    fn begin_round(&mut self, unit: u32) {
        self.watch.begin_round(unit);
    }

    fn receive(&mut self, stamp: u32, packet: &RawPacket) {
        self.watch.receive(stamp, packet);
    }

    fn send(&mut self, unit: u32, packet: &RawPacket) {
        self.watch.send(unit, packet);
    }

    fn end(&mut self) -> Result<(), WatchFault> {
        self.watch.end()
    }
}
