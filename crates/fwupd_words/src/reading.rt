//! Reads the arguments of the command line.

ghost use Rattle.std.specs.Prelude.{◌≡◌, ◌⊎◌, IfErr, IfOk, OnOk, None, Some, codes, map};
ghost use Rattle.std.specs.String.{string_bytes};
ghost use Rattle.clap.specs.Words.{App, kind_of};
ghost use Rattle.fwupd_words.specs.CommandLine.{IsCommandLine};
ghost use Rattle.fwupd_words.specs.Reading.{FindsSubcommand, ReadsWords, RefusesCommon, RefusesEndpoint, RefusesJob, RefusesWords};
ghost use Rattle.clap.specs.declared.error.kind.ErrorKind.TheVariants.{OutOfMemory};
ghost use Rattle.fwupd_words.specs.Clashes.{build_clash, common_clash, has_dashed_output, has_form_alone, has_seed_alone, package_clash, replay_clash, run_clash};
ghost use Rattle.fwupd_words.specs.Jobs.{AsksForJob};
ghost use Rattle.fwupd_words.specs.Words.{AsksBuild, AsksEndpoint, AsksKept, AsksNumber, AsksOrder, AsksRoughness, AsksRuns, AsksSeed, AsksSoak, AsksUnit, given_in, texts_under};

use crate::asked::{BuildOutput, Job, Order, Plan, Replay, Soak, SoakOrder, Status, Update};
use crate::choosing::{devices_in, packages_in};
use crate::commands::{command, refusal};
use crate::images::{config_in, test_images};
use crate::nodes::{agent_in, device_in};
use crate::packages::{has_twice, malformed_among};
use crate::values::{chance_under, form_in, has_value, is_dash, is_set, text_under, trace_form_in};
use clap::ArgMatches;
use clap::error::ErrorKind;
use fwupd_base::{Roughness, Show};
use mctp_ctl::Endpoint;
use mctp_wire::Unit;
use std::alloc::{AllocError, Global};
use uuid::Uuid;

/// The endpoint that the arguments of `answer` specify.
fn endpoint_in<'a>(alloc: Global, matches: &ArgMatches<'a>) -> Result<Endpoint, clap::Error>
    ensures endpoint { IfOk result (AsksEndpoint (given_in matches.now)) }
    ensures refused { IfErr result (RefusesEndpoint (given_in matches.now)) }
{
    let Some(eid) = matches.get_one::<u8>("EID") else {
        return Err(refusal(
            alloc,
            "answer",
            ErrorKind::MissingRequiredArgument,
            "EID is required",
        )?);
    };
    let text = text_under(matches, "uuid");
    match Uuid::parse_str(text) {
        Ok(uuid) => Ok(Endpoint { eid, uuid }),
        Err(error) => {
            let message = format!(in alloc; "invalid value '{text}' for '--uuid <UUID>': {error}")?;
            Err(refusal(alloc, "answer", ErrorKind::ValueValidation, &message)?)
        }
    }
}

/// The job that the arguments of `answer` request.
fn answer_in<'a>(alloc: Global, matches: &ArgMatches<'a>) -> Result<Job<'a>, clap::Error>
    ensures job { IfOk result (AsksForJob (codes "answer") (given_in matches.now)) }
    ensures refused { IfErr result (RefusesEndpoint (given_in matches.now)) }
{
    let is_serial = matches.get_flag("serial");
    match endpoint_in(alloc, matches) {
        Ok(endpoint) => {
            if is_serial {
                Ok(Job::AnswerSerial(endpoint))
            } else {
                Ok(Job::Answer(endpoint))
            }
        }
        Err(error) => Err(error),
    }
}

/// The value of the package option of `plan`.
fn package_number(matches: &ArgMatches<'_>) -> usize
    ensures { AsksNumber (given_in matches.now) result }
{
    match matches.get_one::<u32>("package") {
        Some(number) => number as usize,
        None => 1,
    }
}

/// The outputs that the arguments of `run` or `replay` request, with or without progress, with the
/// file `record` for the steps, and with the history file in the folder `history`.
fn show_in<'a>(
    matches: &ArgMatches<'a>,
    is_quiet: bool,
    record: Option<&'a str>,
    history: Option<&'a str>,
) -> Show<'a>
    ensures quiet { result.is_quiet ≡ is_quiet }
    ensures record { result.record ≡ record.entry }
    ensures history { result.history ≡ history.entry }
    ensures kept { AsksKept (given_in matches.now) result }
{
    Show {
        is_quiet,
        trace: matches.get_str("trace"),
        trace_form: trace_form_in(matches),
        log: matches.get_str("sel"),
        record,
        store: matches.get_str("store"),
        history,
        form: form_in(matches),
    }
}

/// The transmission unit that the arguments request.
fn unit_in(matches: &ArgMatches<'_>) -> Unit
    ensures { AsksUnit (given_in matches.now) result }
{
    match matches.get_str("unit") {
        Some("128") => Unit::U128,
        _ => Unit::U64,
    }
}

/// The value of the seed option.
fn seed_in(matches: &ArgMatches<'_>) -> u64
    ensures { AsksSeed (given_in matches.now) result }
{
    match matches.get_one::<u64>("seed") {
        Some(seed) => seed,
        None => 0,
    }
}

/// The roughness that the arguments request.
fn roughness_in(matches: &ArgMatches<'_>) -> Roughness
    ensures { AsksRoughness (given_in matches.now) result }
{
    Roughness {
        loss: chance_under(matches, "loss"),
        duplicate: chance_under(matches, "duplicate"),
        delay: chance_under(matches, "delay"),
        seed: seed_in(matches),
    }
}

/// The options of a run in the arguments.
fn order_in(matches: &ArgMatches<'_>) -> Order
    ensures { AsksOrder (given_in matches.now) result }
{
    Order {
        packages: packages_in(matches),
        devices: devices_in(matches),
        is_checked: matches.get_flag("check"),
        roughness: roughness_in(matches),
    }
}

/// The number of runs in the arguments, or 1 if it is missing.
fn runs_in(matches: &ArgMatches<'_>) -> u32
    ensures { AsksRuns (given_in matches.now) result }
{
    match matches.get_one::<u32>("runs") {
        Some(runs) => runs,
        None => 1,
    }
}

/// The options of a soak in the arguments.
fn soak_order_in(matches: &ArgMatches<'_>) -> SoakOrder
    ensures { AsksSoak (given_in matches.now) result }
{
    SoakOrder {
        runs: runs_in(matches),
        roughness: roughness_in(matches),
    }
}

/// Whether the format of a trace is given without a trace.
fn has_form_alone(matches: &ArgMatches<'_>) -> bool
    ensures { result ≡ has_form_alone (given_in matches.now) }
{
    has_value(matches, "trace-format") && !has_value(matches, "trace")
}

/// Whether a seed is given without a chance.
fn has_seed_alone(matches: &ArgMatches<'_>) -> bool
    ensures { result ≡ has_seed_alone (given_in matches.now) }
{
    has_value(matches, "seed")
        && !has_value(matches, "loss")
        && !has_value(matches, "duplicate")
        && !has_value(matches, "delay")
}

/// The error for options of the subcommand `name` that do nothing without others.
fn lack(alloc: Global, name: &str, message: &str) -> Result<clap::Error, AllocError>
    ensures { IfOk result (λ error. kind_of error ≡ ErrorKind.MissingRequiredArgument) }
{
    refusal(alloc, name, ErrorKind::MissingRequiredArgument, message)
}

/// What a trace's format needs.
const FORM_ALONE: &str = "'--trace-format' needs '--trace'";

/// What a seed needs.
const SEED_ALONE: &str = "'--seed' needs '--loss', '--duplicate' or '--delay'";

/// Why no output is called `-`.
const DASHED: &str =
    "'--trace', '--sel', '--record' and '--report' need the path of a file, and '-' is none";

/// Why a package on standard output isn't told of.
const TOLD_ALONE: &str = "'--json' needs a FILE other than '-'";

/// The job that the arguments of `replay` request.
fn replay_in<'a>(alloc: Global, matches: &ArgMatches<'a>) -> Result<Job<'a>, clap::Error>
    ensures job { IfOk result (AsksForJob (codes "replay") (given_in matches.now)) }
    ensures refused { IfErr result (λ error. (kind_of error ≡ OutOfMemory)
        ⊎ (replay_clash (given_in matches.now) ≡ Some (kind_of error))) }
{
    if has_form_alone(matches) {
        return Err(lack(alloc, "replay", FORM_ALONE)?);
    }
    Ok(Job::Replay(Replay {
        config: config_in(matches),
        schedule: text_under(matches, "SCHEDULE"),
        show: show_in(matches, true, None, None),
    }))
}

/// How often values of `--package` may be given.
const PACKAGE_TWICE: &str =
    "'--package N' can be used once, and '--package EID=N' once for each EID";

/// Tests the values of `--package` of `run`.
///
/// # Errors
/// A value is malformed, or two of them are `N` or name the same device.
fn test_packages(alloc: Global, matches: &ArgMatches<'_>) -> Result<(), clap::Error>
    ensures fits { IfOk result (λ _. package_clash (texts_under (given_in matches.now) (codes "package")) ≡ None) }
    ensures refused { IfErr result (λ error. (kind_of error ≡ OutOfMemory)
        ⊎ (package_clash (texts_under (given_in matches.now) (codes "package")) ≡ Some (kind_of error))) }
{
    let Some(texts) = matches.get_raw("package") else {
        return Ok(());
    };
    if let Some(text) = malformed_among(texts) {
        let problem = format!(in alloc;
            "invalid value '{text}' for '--package <N|EID=N>': N is 1 to 4294967295, EID 8 to 254"
        )?;
        return Err(refusal(alloc, "run", ErrorKind::ValueValidation, &problem)?);
    }
    if has_twice(texts) {
        return Err(refusal(alloc, "run", ErrorKind::ArgumentConflict, PACKAGE_TWICE)?);
    }
    Ok(())
}

/// The job that the arguments of `run` request.
fn run_in<'a>(alloc: Global, matches: &ArgMatches<'a>) -> Result<Job<'a>, clap::Error>
    ensures job { IfOk result (AsksForJob (codes "run") (given_in matches.now)) }
    ensures refused { IfErr result (λ error. (kind_of error ≡ OutOfMemory)
        ⊎ (run_clash (given_in matches.now) ≡ Some (kind_of error))) }
{
    if has_form_alone(matches) {
        return Err(lack(alloc, "run", FORM_ALONE)?);
    }
    if has_seed_alone(matches) {
        return Err(lack(alloc, "run", SEED_ALONE)?);
    }
    if let Err(error) = test_packages(alloc, matches) {
        return Err(error);
    }
    let (record, store) = (matches.get_str("record"), matches.get_str("store"));
    Ok(Job::Run(Update {
        config: config_in(matches),
        folder: text_under(matches, "FOLDER"),
        order: order_in(matches),
        show: show_in(matches, matches.get_flag("quiet"), record, store),
    }))
}

/// Where the arguments of `build` have the package go.
fn build_output<'a>(matches: &ArgMatches<'a>) -> BuildOutput<'a>
    ensures { AsksBuild (given_in matches.now) result }
{
    let path = text_under(matches, "FILE");
    if is_dash(path) {
        BuildOutput::Standard
    } else if matches.get_flag("json") {
        BuildOutput::ToldFile(path)
    } else {
        BuildOutput::File(path)
    }
}

/// The job that the arguments of `build` request.
fn build_in<'a>(alloc: Global, matches: &ArgMatches<'a>) -> Result<Job<'a>, clap::Error>
    ensures job { IfOk result (AsksForJob (codes "build") (given_in matches.now)) }
    ensures refused { IfErr result (λ error. (kind_of error ≡ OutOfMemory)
        ⊎ (build_clash (given_in matches.now) ≡ Some (kind_of error))) }
{
    if is_dash(text_under(matches, "FILE")) && is_set(matches, "json") {
        return Err(refusal(alloc, "build", ErrorKind::ArgumentConflict, TOLD_ALONE)?);
    }
    Ok(Job::Build {
        spec: text_under(matches, "SPEC"),
        output: build_output(matches),
    })
}

/// The job that the subcommand `name` with these arguments requests.
fn job_of<'a>(alloc: Global, name: &str, matches: &ArgMatches<'a>) -> Result<Job<'a>, clap::Error>
    ensures job { IfOk result (AsksForJob name.now (given_in matches.now)) }
    ensures refused { IfErr result (RefusesJob name.now (given_in matches.now)) }
{
    match name {
        "answer" => answer_in(alloc, matches),
        "inspect" => Ok(Job::Inspect {
            package: text_under(matches, "FILE"),
            form: form_in(matches),
            is_digested: matches.get_flag("digest"),
        }),
        "replay" => replay_in(alloc, matches),
        "plan" => Ok(Job::Plan(Plan {
            config: config_in(matches),
            store: matches.get_str("store"),
            number: package_number(matches),
            form: form_in(matches),
        })),
        "run" => run_in(alloc, matches),
        "soak" => Ok(Job::Soak(Soak {
            config: config_in(matches),
            order: soak_order_in(matches),
            record: matches.get_str("record"),
            form: form_in(matches),
        })),
        "sel" => Ok(Job::Sel {
            log: text_under(matches, "FILE"),
            form: form_in(matches),
        }),
        "build" => build_in(alloc, matches),
        "device" => device_in(alloc, matches),
        "agent" => agent_in(alloc, matches),
        "decode" => Ok(Job::Decode {
            file: matches.get_str("FILE"),
            unit: unit_in(matches),
            form: form_in(matches),
        }),
        "status" => Ok(Job::Status(Status {
            config: config_in(matches),
            store: matches.get_str("store"),
            form: form_in(matches),
        })),
        _ => Err(refusal(
            alloc,
            "fwupd",
            ErrorKind::MissingSubcommand,
            "a subcommand is required",
        )?),
    }
}

/// Whether a file that is to be written is called `-`.
fn has_dashed_output(matches: &ArgMatches<'_>) -> bool
    ensures { result ≡ has_dashed_output (given_in matches.now) }
{
    is_dash(text_under(matches, "trace"))
        || is_dash(text_under(matches, "sel"))
        || is_dash(text_under(matches, "record"))
        || is_dash(text_under(matches, "report"))
}

/// Tests the options that subcommands share.
///
/// # Errors
/// A file that is to be written is called `-`, or the values of `--image` don't fit.
fn test_common(alloc: Global, name: &str, matches: &ArgMatches<'_>) -> Result<(), clap::Error>
    ensures fits { OnOk result (common_clash (given_in matches.now) ≡ None) }
    ensures refused { IfErr result (RefusesCommon (given_in matches.now)) }
{
    if has_dashed_output(matches) {
        return Err(refusal(alloc, name, ErrorKind::ValueValidation, DASHED)?);
    }
    test_images(alloc, name, matches)
}

/// The job that the subcommand `name` with these arguments requests.
///
/// # Errors
/// Options that subcommands share don't fit, or else those of the subcommand.
fn asked_job<'a>(
    alloc: Global,
    name: &str,
    matches: &ArgMatches<'a>,
) -> Result<Job<'a>, clap::Error>
    ensures job { IfOk result (AsksForJob name.now (given_in matches.now)) }
    ensures fits { OnOk result (common_clash (given_in matches.now) ≡ None) }
    ensures refused { IfErr result (RefusesWords name.now (given_in matches.now)) }
{
    if let Err(error) = test_common(alloc, name, matches) {
        return Err(error);
    }
    job_of(alloc, name, matches)
}

/// The matches of the arguments.
fn found_in<'a>(alloc: Global, words: &'a [String]) -> Result<ArgMatches<'a>, clap::Error>
    ensures { (line : App) × IsCommandLine line × FindsSubcommand line (map string_bytes words.now) result }
{
    command(alloc)?.try_get_matches_from(words)
}

/// Parses the arguments of the command line. `words` are all arguments, with the program's name
/// first.
///
/// # Errors
/// The text to print in place of a job, and where: help, version, or a usage error.
pub fn parse<'a>(alloc: Global, words: &'a [String]) -> Result<Job<'a>, clap::Error>
    ensures { (line : App) × IsCommandLine line × ReadsWords line (map string_bytes words.now) result }
{
    let matches = match found_in(alloc, words) {
        Ok(matches) => matches,
        Err(error) => return Err(error),
    };
    let Some((name, matches)) = matches.subcommand() else {
        return Err(refusal(
            alloc,
            "fwupd",
            ErrorKind::MissingSubcommand,
            "a subcommand is required",
        )?);
    };
    asked_job(alloc, name, matches)
}
