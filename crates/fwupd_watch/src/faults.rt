//! The faults that end the program with status 1, or with 3 if nothing was to be updated.

ghost use Rattle.std.specs.Prelude.{◌≡◌};
ghost use Rattle.fwupd_watch.specs.Running.{MayEnd, job_fault_of};

use fw_edge::EdgeFault;
use fw_package::PackageFault;
use fw_script::ScriptFault;
use fw_store::OpenFault;
use fw_world::StepFault;
use fwupd_base::AnswerFault;
use thiserror::Error;

/// The faults that end the program with status 1; with 3 if it is `Skipped`. The text is printed
/// after `fwupd: `.
#[derive(Debug, Drop, Error)]
pub enum JobFault {
    /// Answering packets failed.
    #[error("{0}")]
    Answer(AnswerFault),
    /// The file of this path can't be read.
    #[error("{0}: unreadable")]
    Unreadable(String),
    /// The file isn't a package.
    #[error("package: {0}")]
    Package(PackageFault),
    /// The text in the file of this path isn't of its format.
    #[error("{0}: {1}")]
    Text(String, ScriptFault),
    /// A step of a schedule, numbered from 1, was refused.
    #[error("step {0}: {1}")]
    Step(usize, StepFault),
    /// There is no such package in the configuration.
    #[error("package: none")]
    NoPackage,
    /// The store of the device with this endpoint identifier can't be opened.
    #[error("store: {0}: {1}")]
    Store(u8, OpenFault),
    /// What the agent with this endpoint identifier keeps can't be written to its store.
    #[error("store: {0}: unwritable")]
    Unkept(u8),
    /// The socket of the device with this endpoint identifier can't be made.
    #[error("socket: {0}")]
    Socket(u8),
    /// The serial line can't be opened.
    #[error("tty")]
    Tty,
    /// The trace of a run or a replay can't be written.
    #[error("trace")]
    Trace,
    /// The event log's records can't be written.
    #[error("sel")]
    Log,
    /// The file isn't an event log: its size is not a multiple of 16, or exceeds 2,048.
    #[error("sel: Size")]
    LogSize,
    /// The steps of a run can't be recorded.
    #[error("record")]
    Record,
    /// The history of the stores can't be written.
    #[error("history")]
    History,
    /// The configuration has no device with this endpoint identifier.
    #[error("device {0}: none")]
    NoDevice(u8),
    /// The device with this endpoint identifier has no component of this classification and
    /// identifier, or the configuration has no such device.
    #[error("component {0}/{1}-{2}: none")]
    NoComponent(u8, u16, u16),
    /// The file of this path has more than the 1,048,576 bytes of an image.
    #[error("{0}: Size")]
    LongImage(String),
    /// The report of a node by itself can't be written.
    #[error("report")]
    Report,
    /// The checker found a violation in a run of a soak.
    #[error("soak: Violation")]
    Violation,
    /// A run over links stopped early.
    #[error("edge: {0}")]
    Edge(EdgeFault),
    /// The sessions that didn't end Done: the endpoint identifier of each device, and the cause of
    /// its failure, or its state.
    #[error("session {0}")]
    Undone(String),
    /// The same, if nothing was to be updated on any of these devices: the package has no record
    /// for it, or no component that it accepts.
    #[error("session {0}")]
    Skipped(String),
    /// Standard output or a file that a job makes can't be written.
    #[error("output")]
    Output,
    /// Memory was refused.
    #[error("memory")]
    Memory,
}

/// Returns the fault of a run over links that stopped early.
pub fn edge_fault(fault: EdgeFault) -> JobFault
    ensures told { result ≡ job_fault_of fault }
    ensures ends { MayEnd result }
{
    match fault {
        EdgeFault::Memory => JobFault::Memory,
        _ => JobFault::Edge(fault),
    }
}
