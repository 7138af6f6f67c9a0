//! The clues to why a job failed.

ghost use Rattle.std.specs.Prelude.{◌≡◌, option_map};
ghost use Rattle.fwupd_clues.specs.Clues.{clue_of, clue_seen, clue_to_package_file, clue_to_shown, clue_to_store};

use fw_script::ScriptFault;
use fw_store::OpenFault;
use fwupd_base::Show;
use fwupd_watch::JobFault;
use fwupd_words::{BuildOutput, Job, Plan, Replay, Soak, Update};

/// A clue to why a job failed.
#[derive(Clone, Copy)]
pub enum Clue<'a> {
    /// Why the file of this path can't be read.
    Unread(&'a str),
    /// What the file of this path may be, which isn't a package.
    Other(&'a str),
    /// The package that is malformed, of the configuration in the file of this path.
    Package(&'a str),
    /// The line of a fault in the text in the file of this path.
    Line(&'a str, ScriptFault),
    /// The line of a step, numbered from 1, in the schedule in the file of this path.
    Step(&'a str, usize),
    /// Why the file of this path can't be written.
    Unwritten(&'a str),
    /// Why the history of the stores in this folder can't be written.
    History(&'a str),
    /// Why the store of a device in this folder can't be opened.
    Store(&'a str, u8, OpenFault),
    /// Why what the agent keeps in this folder can't be opened.
    AgentStore(&'a str, OpenFault),
}

/// The output of a run or a replay that can't be written.
fn clue_to_shown<'a>(show: &Show<'a>, fault: &JobFault) -> Option<Clue<'a>>
    ensures { option_map clue_seen result ≡ clue_to_shown show.now fault.now }
{
    match fault {
        JobFault::Trace => Some(Clue::Unwritten(show.trace?)),
        JobFault::Log => Some(Clue::Unwritten(show.log?)),
        JobFault::Record => Some(Clue::Unwritten(show.record?)),
        JobFault::History => Some(Clue::History(show.history?)),
        _ => None,
    }
}

/// The store that can't be opened: that of a device, or that of the agent's process.
fn clue_to_store<'a>(job: &Job<'a>, device: u8, why: OpenFault) -> Option<Clue<'a>>
    ensures { option_map clue_seen result ≡ clue_to_store job.now device why }
{
    match job {
        Job::Replay(replay) => Some(Clue::Store(replay.show.store?, device, why)),
        Job::Run(update) => Some(Clue::Store(update.show.store?, device, why)),
        Job::Plan(plan) => Some(Clue::Store(plan.store?, device, why)),
        Job::Status(status) => Some(Clue::Store(status.store?, device, why)),
        Job::Device(alone) => Some(Clue::Store(alone.store?, device, why)),
        Job::DeviceProcess(process) => Some(Clue::Store(process.store?, device, why)),
        Job::AgentProcess(process) => Some(Clue::AgentStore(process.store?, why)),
        _ => None,
    }
}

/// The clue to why a package can't be written, if it is written to a file.
fn clue_to_package_file(output: BuildOutput<'_>) -> Option<Clue<'_>>
    ensures { option_map clue_seen result ≡ clue_to_package_file output.entry }
{
    match output {
        BuildOutput::File(path) | BuildOutput::ToldFile(path) => Some(Clue::Unwritten(path)),
        BuildOutput::Standard => None,
    }
}

/// Returns the clue to why a job ended with a fault, if there is one.
pub fn clue_to<'a>(job: &Job<'a>, fault: &'a JobFault) -> Option<Clue<'a>>
    ensures { option_map clue_seen result ≡ clue_of job.now fault.now }
{
    match (fault, job) {
        (JobFault::Unreadable(path), _) => Some(Clue::Unread(path.as_str())),
        (JobFault::Text(path, fault), _) => Some(Clue::Line(path.as_str(), *fault)),
        (JobFault::Store(device, why), _) => clue_to_store(job, *device, *why),
        (JobFault::Package(_), Job::Inspect { package, .. }) => Some(Clue::Other(package)),
        (JobFault::Package(_), Job::Replay(Replay { config, .. }))
        | (JobFault::Package(_), Job::Run(Update { config, .. }))
        | (JobFault::Package(_), Job::Soak(Soak { config, .. }))
        | (JobFault::Package(_), Job::Plan(Plan { config, .. })) => Some(Clue::Package(
            config.path,
        )),
        (JobFault::Step(number, _), Job::Replay(replay)) => {
            Some(Clue::Step(replay.schedule, *number))
        }
        (JobFault::Record, Job::Soak(soak)) => Some(Clue::Unwritten(soak.record?)),
        (JobFault::Output, Job::Build { output, .. }) => clue_to_package_file(*output),
        (fault, Job::Replay(replay)) => clue_to_shown(&replay.show, fault),
        (fault, Job::Run(update)) => clue_to_shown(&update.show, fault),
        _ => None,
    }
}
