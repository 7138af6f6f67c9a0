//! What runs on the devices of a configuration.

ghost use Rattle.std.specs.Prelude.{IfErr, OnOk, option_map};
ghost use Rattle.fw_setup.specs.Stocks.{stores_in};
ghost use Rattle.fwupd_base.specs.ImageFiles.{config_source};
ghost use Rattle.fwupd_jobs.specs.Statuses.{PrintsStatus, StatusEnds};
ghost use Rattle.fwupd_nodes.specs.Setups.{source_of};

use fw_json::status_in;
use fw_script::Config;
use fw_setup::ReadStores;
use fw_store::Folder;
use fwupd_nodes::{configured, read_kept};
use fwupd_watch::{Files, JobFault, Output};
use fwupd_words::Status;
use std::alloc::Global;
use std::io::Write;

/// Writes in a format what runs on each device of the configuration in a file. If a folder of
/// stores is given, each device has the images in its store, which is only read.
///
/// # Errors
/// The first fault of the configuration and its images; `Store` of the first device whose store
/// can't be read. `Output` if the text can't be written; a beginning of it may be written. `Memory`
/// if memory is refused; nothing is written then.
pub fn status_file<F: Files, D: Folder + Drop, T: ReadStores<D>, W: Write + Drop>(
    alloc: Global,
    files: &F,
    stores: &T,
    job: Status<'_>,
    output: &mut Output<W>,
) -> Result<(), JobFault>
    ensures ok { OnOk result (PrintsStatus (F.holds files.now)
        (source_of (stores_in (T.is_known stores.now) (T.files stores.now))
        (option_map (λ p. p.now) job.entry.store) (config_source job.entry.config))
        job.entry.form output.old output.new) }
    ensures fault { IfErr result (λ e. StatusEnds (F.holds files.now)
        (source_of (stores_in (T.is_known stores.now) (T.files stores.now))
        (option_map (λ p. p.now) job.entry.store) (config_source job.entry.config))
        job.entry.form e output.old output.new) }
{
    let Config {
        agent: _,
        unit: _,
        devices,
        packages: _,
    } = match configured(alloc, files, &job.config) {
        Ok(config) => config,
        Err(fault) => return Err(fault),
    };
    let mut devices = devices;
    match read_kept(alloc, stores, job.store, &mut devices) {
        Ok(()) => {}
        Err(fault) => return Err(fault),
    }
    let Ok(text) = status_in(alloc, devices.as_slice(), job.form) else {
        return Err(JobFault::Memory);
    };
    match output.write(&text) {
        Ok(()) => Ok(()),
        Err(fault) => Err(fault),
    }
}
