//! Many runs over rough links with the devices of a configuration.

ghost use Rattle.std.specs.Prelude.{◌≡◌, ◌≢◌, ◌⊎◌, IfErr, None, OnErr, OnOk, Some, false, option_map, true};
ghost use Rattle.fw_script.specs.ScheduleTexts.{schedule_text};
ghost use Rattle.fwupd_base.specs.ImageFiles.{config_source};
ghost use Rattle.fwupd_jobs.specs.Soaked.{ReportsViolation, SoakEnds, SoaksClean};

use crate::numbering::is_numbered;
use fw_script::{Config, write_schedule};
use fw_soak::{Setup, soak, summary_in};
use fw_world::Step;
use fwupd_nodes::{Host, Parts, configured, package_files, packages_in};
use fwupd_watch::{Inputs, JobFault, OutputPlaces, is_over_read, write_file};
use fwupd_words::Soak;
use std::alloc::Global;
use std::io::Write;

/// The fault of a record of steps if its file can't be made.
fn unrecorded(fault: JobFault) -> JobFault
    ensures memory { fault ≡ JobFault.Memory → result ≡ JobFault.Memory }
    ensures other { fault ≢ JobFault.Memory → result ≡ JobFault.Record }
{
    match fault {
        JobFault::Memory => JobFault::Memory,
        _ => JobFault::Record,
    }
}

/// Writes the schedule of the steps into the file of a path, as a whole.
///
/// # Errors
/// `Record` if it can't be written, and `Memory`; the file is unchanged then.
fn keep<W: Write + Drop, P: OutputPlaces<W>>(
    alloc: Global,
    steps: &[Step],
    path: &str,
    places: &mut P,
) -> Result<(), JobFault>
    ensures ok { OnOk result (P.is_known places.old ≡ true → P.held places.new path.now ≡ Some (schedule_text steps.now)) }
    ensures lasting { OnOk result (P.is_known places.old ≡ true
        → P.lasting places.new path.now ≡ Some (schedule_text steps.now)) }
    ensures kept { OnErr result (P.held places.new ≡ P.held places.old) }
    ensures stays { OnErr result (P.lasting places.new ≡ P.lasting places.old) }
    ensures left { P.is_begun places.old ≡ false → P.is_begun places.new ≡ false }
    ensures fault { IfErr result (λ e. (e ≡ JobFault.Memory) ⊎ (e ≡ JobFault.Record)) }
{
    let Ok(text) = write_schedule(alloc, steps) else {
        return Err(JobFault::Memory);
    };
    match write_file(places, path, &text) {
        Ok(()) => Ok(()),
        Err(fault) => Err(unrecorded(fault)),
    }
}

/// Writes the steps of the first violation, if any, into the file that is given for them.
///
/// # Errors
/// `Violation` if there was one; `Record` or `Memory` if its steps can't be written.
fn judge<W: Write + Drop, P: OutputPlaces<W>>(
    alloc: Global,
    kept: Option<Vec<Step>>,
    file: Option<&str>,
    places: &mut P,
) -> Result<(), JobFault>
    ensures ok { OnOk result (option_map (λ k. k.items) kept ≡ None) }
    ensures fault { IfErr result (λ e. ReportsViolation (option_map (λ k. k.items) kept)
        (option_map (λ p. p.now) file.entry) e (P.is_known places.old) (P.held places.new)) }
    ensures clean { OnOk result (P.held places.new ≡ P.held places.old) }
    ensures kept { IfErr result (λ e. e ≢ JobFault.Violation → P.held places.new ≡ P.held places.old) }
    ensures left { P.is_begun places.old ≡ false → P.is_begun places.new ≡ false }
{
    let Some(steps) = kept else {
        return Ok(());
    };
    if let Some(path) = file {
        keep(alloc, steps.as_slice(), path, places)?;
    }
    Err(JobFault::Violation)
}

/// Makes many runs over rough links of the configuration in a file with its packages, and writes
/// the totals. The steps of the first violation are written to a file, as a schedule, if one is
/// given.
///
/// # Errors
/// The first fault, in this order: of the configuration and its images; `NoPackage` if it has none;
/// of each of its packages; `Record` if the steps would overwrite one of these files; `Memory`;
/// nothing is written then.
/// `Output` if the totals can't be written.
/// `Record` or `Memory` if the steps can't be written, else `Violation` if there was one.
pub fn soak_file<H: Parts>(alloc: Global, job: Soak<'_>, host: &mut Host<H>) -> Result<(), JobFault>
    ensures ok { OnOk result (SoaksClean (H.Files.holds host.old.files) (config_source job.entry.config)
        job.entry.order job.entry.form (option_map (λ p. p.now) job.entry.record) host.old.output
        host.new.output) }
    ensures fault { IfErr result (λ e. SoakEnds (H.Files.holds host.old.files)
        (config_source job.entry.config) job.entry.order job.entry.form (option_map (λ p. p.now) job.entry.record) e
        (H.Places.is_known host.old.places) (H.Places.held host.new.places) host.old.output
        host.new.output) }
    ensures clean { OnOk result (H.Places.held host.new.places ≡ H.Places.held host.old.places) }
    ensures kept { IfErr result (λ e. e ≢ JobFault.Violation
        → H.Places.held host.new.places ≡ H.Places.held host.old.places) }
    ensures left { H.Places.is_begun host.old.places ≡ false → H.Places.is_begun host.new.places ≡ false }
    ensures untouched { host.new.watch ≡ host.old.watch }
{
    let Config {
        agent,
        unit,
        devices,
        packages: paths,
    } = match configured(alloc, &host.files, &job.config) {
        Ok(config) => config,
        Err(fault) => return Err(fault),
    };
    if !is_numbered(paths.len(), 1) {
        return Err(JobFault::NoPackage);
    }
    let contents = match package_files(alloc, &host.files, paths.as_slice()) {
        Ok(contents) => contents,
        Err(fault) => return Err(fault),
    };
    let packages = match packages_in(alloc, contents.as_slice()) {
        Ok(packages) => packages,
        Err(fault) => return Err(fault),
    };
    if is_over_read(
        &host.files,
        job.record,
        Inputs::new(&job.config, paths.as_slice()),
    ) {
        return Err(JobFault::Record);
    }
    let setup = Setup {
        agent,
        unit,
        devices: devices.as_slice(),
        packages: packages.as_slice(),
    };
    let Ok(soaked) = soak(
        alloc,
        &setup,
        job.order.roughness,
        job.order.runs,
        &mut host.soak_watch,
    ) else {
        return Err(JobFault::Memory);
    };
    let Ok(text) = summary_in(alloc, &soaked.summary, job.form) else {
        return Err(JobFault::Memory);
    };
    match host.output.write(&text) {
        Ok(()) => {}
        Err(fault) => return Err(fault),
    }
    match judge(alloc, soaked.kept, job.record, &mut host.places) {
        Ok(()) => Ok(()),
        Err(fault) => Err(fault),
    }
}
