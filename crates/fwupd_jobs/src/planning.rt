//! The plan of an update of a configuration's devices.

ghost use Rattle.std.specs.Prelude.{IfErr, OnOk, option_map};
ghost use Rattle.fw_setup.specs.Stocks.{stores_in};
ghost use Rattle.fwupd_base.specs.ImageFiles.{config_source};
ghost use Rattle.fwupd_jobs.specs.Planned.{PlanEnds, Plans};
ghost use Rattle.fwupd_nodes.specs.Setups.{source_of};

use crate::numbering::{is_numbered, numbered};
use fw_json::plan_in;
use fw_script::Config;
use fw_setup::{ReadStores, forecast};
use fw_store::Folder;
use fwupd_nodes::{configured, package_files, packages_in, read_kept};
use fwupd_watch::{Files, JobFault, Output};
use fwupd_words::Plan;
use std::alloc::Global;
use std::io::Write;

/// Writes in a format the plan of an update of the devices of the configuration in a file with one
/// of its packages. If a folder of stores is given, each device has the images in its store, which
/// is only read. No update is started.
///
/// # Errors
/// The first fault, in this order: of the configuration and its images; `NoPackage` if it has no
/// package of this number; of each of its packages; `Store` of the first device whose store can't
/// be read. `Output` if the text can't be written; a beginning of it may be written. `Memory` if
/// memory is refused; nothing is written then.
pub fn plan_file<F: Files, D: Folder + Drop, T: ReadStores<D>, W: Write + Drop>(
    alloc: Global,
    files: &F,
    stores: &T,
    job: Plan<'_>,
    output: &mut Output<W>,
) -> Result<(), JobFault>
    ensures ok { OnOk result (Plans (F.holds files.now)
        (source_of (stores_in (T.is_known stores.now) (T.files stores.now))
        (option_map (λ p. p.now) job.entry.store) (config_source job.entry.config)) job.entry.number
        job.entry.form output.old output.new) }
    ensures fault { IfErr result (λ e. PlanEnds (F.holds files.now)
        (source_of (stores_in (T.is_known stores.now) (T.files stores.now))
        (option_map (λ p. p.now) job.entry.store) (config_source job.entry.config)) job.entry.number
        job.entry.form e output.old output.new) }
{
    let Config {
        agent: _,
        unit: _,
        devices,
        packages: paths,
    } = match configured(alloc, files, &job.config) {
        Ok(config) => config,
        Err(fault) => return Err(fault),
    };
    if !is_numbered(paths.len(), job.number) {
        return Err(JobFault::NoPackage);
    }
    let contents = match package_files(alloc, files, paths.as_slice()) {
        Ok(contents) => contents,
        Err(fault) => return Err(fault),
    };
    let packages = match packages_in(alloc, contents.as_slice()) {
        Ok(packages) => packages,
        Err(fault) => return Err(fault),
    };
    let Some(contents) = numbered(packages.as_slice(), job.number) else {
        unreachable!()
    };
    let mut devices = devices;
    match read_kept(alloc, stores, job.store, &mut devices) {
        Ok(()) => {}
        Err(fault) => return Err(fault),
    }
    let Ok(text) = plan_in(alloc, job.number, contents, devices.as_slice(), job.form) else {
        return Err(JobFault::Memory);
    };
    match output.write(&text) {
        Ok(()) => Ok(()),
        Err(fault) => Err(fault),
    }
}
