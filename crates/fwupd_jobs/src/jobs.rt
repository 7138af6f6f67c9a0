//! A job on any host.

ghost use Rattle.std.specs.Prelude.{◌≡◌, ◌⊎◌, IfErr, OnOk};
ghost use Rattle.fwupd_jobs.specs.Jobs.{IsDone, JobEnds};
ghost use Rattle.fwupd_watch.specs.Running.{HasObserverFault};

use crate::building::{build_file, build_printed, build_told};
use crate::checking::update_checked;
use crate::inspecting::{digest_file, inspect_file};
use crate::planning::plan_file;
use crate::replaying::replay_files;
use crate::soaking::soak_file;
use crate::statuses::status_file;
use crate::telling::sel_file;
use fwupd_nodes::{
    Host, HostView, Parts, agent_file, answer_serial, decode_file, device_file, run_agent,
    run_device,
};
use fwupd_watch::JobFault;
use fwupd_words::{BuildOutput, Job};
use std::alloc::Global;

/// Performs a job on a host.
///
/// # Errors
/// Those of the job: of `Output::answer`, `answer_serial`, `inspect_file`, `replay_files`,
/// `update_checked`, `build_file`, `plan_file`, `soak_file`, `sel_file`, `device_file`,
/// `agent_file`, `run_device`, `run_agent` or `decode_file`.
pub fn perform_job<H: Parts>(
    alloc: Global,
    job: &Job<'_>,
    host: &mut Host<H>,
) -> Result<(), JobFault>
    ensures ok { OnOk result (IsDone job.now
        (⟦<Host<H> as HostView>⟧.found host.old) (⟦<Host<H> as HostView>⟧.left host.new)) }
    ensures fault { IfErr result (λ e. JobEnds job.now e
        (⟦<Host<H> as HostView>⟧.found host.old) (⟦<Host<H> as HostView>⟧.left host.new)) }
    ensures untouched { IfErr result (λ e. (host.new.watch ≡ host.old.watch)
        ⊎ HasObserverFault e (H.Watch.watched host.new.watch).fault) }
{
    match job {
        Job::Answer(endpoint) => host.output.answer(alloc, &mut host.input, endpoint),
        Job::AnswerSerial(endpoint) => {
            answer_serial(alloc, &mut host.input, *endpoint, &mut host.output)
        }
        Job::Inspect {
            package,
            form,
            is_digested: true,
        } => digest_file(alloc, &host.files, package, *form, &mut host.output),
        Job::Inspect {
            package,
            form,
            is_digested: false,
        } => inspect_file(alloc, &host.files, package, *form, &mut host.output),
        Job::Replay(job) => replay_files(alloc, *job, host),
        Job::Run(job) => update_checked(alloc, *job, host),
        Job::Build {
            spec,
            output: BuildOutput::File(package),
        } => build_file(alloc, &host.files, spec, package, &mut host.places),
        Job::Build {
            spec,
            output: BuildOutput::ToldFile(package),
        } => build_told(alloc, spec, package, host),
        Job::Build {
            spec,
            output: BuildOutput::Standard,
        } => build_printed(alloc, &host.files, spec, &mut host.output),
        Job::Sel { log, form } => sel_file(alloc, &host.files, log, *form, &mut host.output),
        Job::Soak(job) => soak_file(alloc, *job, host),
        Job::Device(job) => device_file(alloc, *job, host),
        Job::Agent(job) => agent_file(alloc, *job, host),
        Job::DeviceProcess(job) => run_device(alloc, job, host),
        Job::AgentProcess(job) => run_agent(alloc, job, host),
        Job::Decode { file, unit, form } => decode_file(alloc, *file, *unit, *form, host),
        Job::Plan(job) => plan_file(alloc, &host.files, &host.stores, *job, &mut host.output),
        Job::Status(job) => status_file(alloc, &host.files, &host.stores, *job, &mut host.output),
    }
}
