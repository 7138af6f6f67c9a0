//! Inspects the package in a file.

ghost use Rattle.std.specs.Prelude.{◌≡◌, IfErr, OnOk};
ghost use Rattle.fwupd_jobs.specs.Inspected.{InspectEnds, Inspects, job_fault_of_inspection};
ghost use Rattle.fw_json.specs.Digests.{digested_in};
ghost use Rattle.fw_json.specs.Forms.{inspection_in};

use fw_json::{inspect_beginning_in, inspect_digested_in};
use fwupd_base::{Form, InspectFault};
use fwupd_nodes::read_fault;
use fwupd_watch::{Beginning, Files, JobFault, Output};
use std::alloc::Global;
use std::io::Write;

/// Returns the fault of a package that can't be inspected.
pub fn inspection_fault(fault: InspectFault) -> JobFault
    ensures { result ≡ job_fault_of_inspection fault }
{
    match fault {
        InspectFault::Memory => JobFault::Memory,
        InspectFault::Package(fault) => JobFault::Package(fault),
    }
}

/// Inspects the package in a file, of which only the header is read, and writes its text in a
/// format.
///
/// # Errors
/// `Unreadable` if the file can't be read, `Package` if it isn't a package, and `Memory` if memory
/// is refused; nothing is written then. `Output` if the text can't be written; a beginning of it
/// may be written.
pub fn inspect_file<F: Files, W: Write + Drop>(
    alloc: Global,
    files: &F,
    path: &str,
    form: Form,
    output: &mut Output<W>,
) -> Result<(), JobFault>
    ensures ok { OnOk result (Inspects (F.holds files.now path.now) (inspection_in form) output.old output.new) }
    ensures fault { IfErr result (λ e. InspectEnds (F.holds files.now) path.now (inspection_in form) e output.old output.new) }
{
    let Beginning { bytes, file_length } = match files.beginning(alloc, path) {
        Ok(beginning) => beginning,
        Err(fault) => return Err(read_fault(alloc, path, fault)),
    };
    let text = match inspect_beginning_in(alloc, &bytes, file_length, form) {
        Ok(text) => text,
        Err(fault) => return Err(inspection_fault(fault)),
    };
    match output.write(&text) {
        Ok(()) => Ok(()),
        Err(fault) => Err(fault),
    }
}

/// Inspects the package in a file, and writes its text in a format, with the SHA-256 of each image.
///
/// # Errors
/// Those of `inspect_file`.
pub fn digest_file<F: Files, W: Write + Drop>(
    alloc: Global,
    files: &F,
    path: &str,
    form: Form,
    output: &mut Output<W>,
) -> Result<(), JobFault>
    ensures ok { OnOk result (Inspects (F.holds files.now path.now) (digested_in form) output.old output.new) }
    ensures fault { IfErr result (λ e. InspectEnds (F.holds files.now) path.now (digested_in form) e output.old output.new) }
{
    let bytes = match files.contents(alloc, path) {
        Ok(bytes) => bytes,
        Err(fault) => return Err(read_fault(alloc, path, fault)),
    };
    let text = match inspect_digested_in(alloc, &bytes, form) {
        Ok(text) => text,
        Err(fault) => return Err(inspection_fault(fault)),
    };
    match output.write(&text) {
        Ok(()) => Ok(()),
        Err(fault) => Err(fault),
    }
}
