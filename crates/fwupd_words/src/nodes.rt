//! Reads the arguments of the nodes: a device or the agent, as a filter of lines or as a process.

ghost use Rattle.std.specs.Prelude.{◌≡◌, ◌⊎◌, ◌||◌, IfErr, IfOk, None, Option, Some, codes};
ghost use Rattle.clap.specs.Words.{kind_of};
ghost use Rattle.clap.specs.declared.error.kind.ErrorKind.TheVariants.{OutOfMemory};
ghost use Rattle.fwupd_words.specs.Words.{AsksAgent, AsksDevice, given_in};
ghost use Rattle.fwupd_words.specs.Jobs.{AsksForJob};
ghost use Rattle.fwupd_words.specs.Processes.{AsksNumberOr, AsksServing, AsksWatching, AsksWire, agent_clash, device_clash, has_agent_process, has_device_process, has_process, node_clash, usual_tick};

use crate::asked::Job;
use crate::commands::refusal;
use crate::images::config_in;
use crate::values::{
    form_in, has_value, is_set, number_under, small_under, text_under, trace_form_in,
};
use clap::ArgMatches;
use clap::error::ErrorKind;
use fwupd_base::{AgentAlone, AgentProcess, DeviceAlone, DeviceProcess, Serving, Watching, Wire};
use std::alloc::{AllocError, Global};

/// The milliseconds of a unit with sockets.
const SOCKET_TICK: u32 = 10;

/// The milliseconds of a unit on a serial line.
const SERIAL_TICK: u32 = 50;

/// What joins a node to its peers: the sockets of the option `sockets`, the serial line, or nothing
/// for a filter of lines. `is_process` says whether an option is there that only a process has.
///
/// # Errors
/// The options don't go together.
fn wire_in<'a>(
    matches: &ArgMatches<'a>,
    sockets: &str,
    is_process: bool,
) -> Result<Option<Wire<'a>>, ErrorKind>
    ensures fits { IfOk result (λ wire. node_clash (given_in matches.now) sockets.now is_process ≡ None) }
    ensures wire { IfOk result (AsksWire (given_in matches.now) sockets.now) }
    ensures clash { IfErr result (λ kind. node_clash (given_in matches.now) sockets.now is_process ≡ Some kind) }
{
    let wire = match (matches.get_str(sockets), matches.get_str("tty")) {
        (Some(_), Some(_)) => return Err(ErrorKind::ArgumentConflict),
        (Some(folder), None) => Some(Wire::Sockets(folder)),
        (None, Some(path)) => Some(Wire::Tty(path)),
        (None, None) => None,
    };
    if wire.is_some() && (is_set(matches, "auto") || has_value(matches, "report")) {
        return Err(ErrorKind::ArgumentConflict);
    }
    if wire.is_none() && is_process {
        return Err(ErrorKind::MissingRequiredArgument);
    }
    Ok(wire)
}

/// The error for options of the subcommand `name` of a node that don't go together, with the option
/// of its sockets.
fn clash(
    alloc: Global,
    name: &str,
    kind: ErrorKind,
    sockets: &str,
) -> Result<clap::Error, AllocError>
    ensures { IfOk result (λ error. kind_of error ≡ kind) }
{
    let message = match kind {
        ErrorKind::MissingRequiredArgument => {
            format!(in alloc; "the options of a process need '--{sockets}' or '--tty'")?
        }
        _ => format!(in alloc;
            "'--{sockets}' and '--tty' can't be used together, nor with '--auto' or '--report'"
        )?,
    };
    refusal(alloc, name, kind, &message)
}

/// The milliseconds of a unit.
fn tick_in(matches: &ArgMatches<'_>, wire: Wire<'_>) -> u32
    ensures { AsksNumberOr (given_in matches.now) (codes "tick") (usual_tick wire.entry) result }
{
    let usual = match wire {
        Wire::Sockets(_) => SOCKET_TICK,
        Wire::Tty(_) => SERIAL_TICK,
    };
    match number_under(matches, "tick") {
        Some(tick) => tick,
        None => usual,
    }
}

/// How the process of a node is served.
fn serving_in<'a>(matches: &ArgMatches<'a>, wire: Wire<'a>) -> Serving<'a>
    ensures wire { result.wire ≡ wire.entry }
    ensures serving { AsksServing (given_in matches.now) result }
{
    let is_open = matches.get_flag("open");
    Serving {
        wire,
        is_open,
        tick: tick_in(matches, wire),
        ticks: number_under(matches, "ticks"),
    }
}

/// What is written of the process of a node.
fn watching_in<'a>(matches: &ArgMatches<'a>) -> Watching<'a>
    ensures { AsksWatching (given_in matches.now) result }
{
    Watching {
        trace: matches.get_str("trace"),
        trace_form: trace_form_in(matches),
        record: matches.get_str("record"),
    }
}

/// Whether an option is there that only a process has, of a device or of the agent.
fn is_process(matches: &ArgMatches<'_>) -> bool
    ensures { result ≡ has_process (given_in matches.now) }
{
    has_value(matches, "tick")
        || has_value(matches, "ticks")
        || has_value(matches, "trace")
        || has_value(matches, "trace-format")
        || has_value(matches, "record")
}

/// The device by itself, which serves lines.
fn device_alone<'a>(matches: &ArgMatches<'a>) -> DeviceAlone<'a>
    ensures { AsksDevice (given_in matches.now) result }
{
    let (store, report) = (matches.get_str("store"), matches.get_str("report"));
    DeviceAlone {
        config: config_in(matches),
        eid: small_under(matches, "EID"),
        is_automatic: matches.get_flag("auto"),
        is_open: matches.get_flag("open"),
        store,
        report,
    }
}

/// Whether an option of `device` is there that only a process has.
fn is_device_process(matches: &ArgMatches<'_>) -> bool
    ensures { result ≡ has_device_process (given_in matches.now) }
{
    is_process(matches) || is_set(matches, "take-over")
}

/// The job that the arguments of `device` request.
pub(crate) fn device_in<'a>(alloc: Global, matches: &ArgMatches<'a>) -> Result<Job<'a>, clap::Error>
    ensures job { IfOk result (AsksForJob (codes "device") (given_in matches.now)) }
    ensures refused { IfErr result (λ error. (kind_of error ≡ OutOfMemory)
        ⊎ (device_clash (given_in matches.now) ≡ Some (kind_of error))) }
{
    let wire = match wire_in(matches, "listen", is_device_process(matches)) {
        Ok(wire) => wire,
        Err(kind) => return Err(clash(alloc, "device", kind, "listen")?),
    };
    let Some(wire) = wire else {
        return Ok(Job::Device(device_alone(matches)));
    };
    let eid = small_under(matches, "EID");
    Ok(Job::DeviceProcess(DeviceProcess {
        config: config_in(matches),
        eid,
        store: matches.get_str("store"),
        serving: serving_in(matches, wire),
        takes_over: matches.get_flag("take-over"),
        watching: watching_in(matches),
    }))
}

/// The agent by itself, which serves lines.
fn agent_alone<'a>(matches: &ArgMatches<'a>) -> AgentAlone<'a>
    ensures { AsksAgent (given_in matches.now) result }
{
    let (log, report) = (matches.get_str("sel"), matches.get_str("report"));
    AgentAlone {
        config: text_under(matches, "CONFIG"),
        is_automatic: matches.get_flag("auto"),
        is_open: matches.get_flag("open"),
        log,
        report,
    }
}

/// Whether an option of `agent` is there that only a process has.
fn is_agent_process(matches: &ArgMatches<'_>) -> bool
    ensures { result ≡ has_agent_process (given_in matches.now) }
{
    is_process(matches)
        || has_value(matches, "package")
        || has_value(matches, "store")
        || is_set(matches, "check")
        || is_set(matches, "json")
}

/// The number of the agent's package, 1 if it is missing.
fn package_in(matches: &ArgMatches<'_>) -> usize
    ensures { AsksNumberOr (given_in matches.now) (codes "package") 1 result }
{
    match number_under(matches, "package") {
        Some(number) => number as usize,
        None => 1,
    }
}

/// The job that the arguments of `agent` request.
pub(crate) fn agent_in<'a>(alloc: Global, matches: &ArgMatches<'a>) -> Result<Job<'a>, clap::Error>
    ensures job { IfOk result (AsksForJob (codes "agent") (given_in matches.now)) }
    ensures refused { IfErr result (λ error. (kind_of error ≡ OutOfMemory)
        ⊎ (agent_clash (given_in matches.now) ≡ Some (kind_of error))) }
{
    let wire = match wire_in(matches, "connect", is_agent_process(matches)) {
        Ok(wire) => wire,
        Err(kind) => return Err(clash(alloc, "agent", kind, "connect")?),
    };
    let Some(wire) = wire else {
        return Ok(Job::Agent(agent_alone(matches)));
    };
    Ok(Job::AgentProcess(AgentProcess {
        config: text_under(matches, "CONFIG"),
        number: package_in(matches),
        log: matches.get_str("sel"),
        store: matches.get_str("store"),
        form: form_in(matches),
        is_checked: matches.get_flag("check"),
        serving: serving_in(matches, wire),
        watching: watching_in(matches),
    }))
}
