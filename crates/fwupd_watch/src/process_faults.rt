//! The faults of what observes a process.

ghost use Rattle.std.specs.Prelude.{◌≡◌};
ghost use Rattle.fwupd_watch.specs.Processes.{fault_of_watch};

use crate::faults::JobFault;
use fwupd_traces::WatchFault;

/// Returns the fault of a process whose trace or record can't be written.
pub fn process_fault(fault: WatchFault) -> JobFault
    ensures { result ≡ fault_of_watch fault }
{
    match fault {
        WatchFault::Trace => JobFault::Trace,
        WatchFault::Record => JobFault::Record,
        WatchFault::Memory => JobFault::Memory,
    }
}
