//! The subcommands, with their arguments and their help.

ghost use Rattle.std.specs.Prelude.{◌≡◌, IfOk, codes, map, true};
ghost use Rattle.clap.specs.Words.{app_of, kind_of, rule_of};
ghost use Rattle.fwupd_words.specs.CommandLine.{IsCommandLine, agent, agent_options, answer, are_simple, build, command_line, decode, device, device_options, flag_rule, inspect, is_plain, plan, program, replay, run, run_options, sel, soak, soak_options, status, text_option, with_one, with_rules};

use crate::helps::{
    AGENT_HELP, ANSWER_HELP, BUILD_HELP, DECODE_HELP, DEVICE_HELP, INSPECT_HELP, PLAN_HELP,
    REPLAY_HELP, RUN_HELP, SEL_HELP, SOAK_HELP, STATUS_HELP,
};
use crate::options::{
    OptionNames, config_word, devices_option, flag, folder_word, images_option, json_option,
    log_option, own_package_option, package_option, packages_option, packets_word, process_options,
    record_option, roughness_options, sockets_option, store_option, text_option, trace_form_option,
    trace_option, unit_option, word,
};
use clap::error::ErrorKind;
use clap::{Arg, Command, value_parser};
use std::alloc::{AllocError, Global};

/// Adds options and arguments to a command.
fn with_args<'a>(command: Command<'a>, args: Vec<Arg<'a>>) -> Result<Command<'a>, AllocError>
    ensures { are_simple (map rule_of args.entry.items) ≡ true
        → IfOk result (λ c. app_of c ≡ with_rules (app_of command.entry)
        (map rule_of args.entry.items)) }
{
    command.args(args)
}

/// The subcommand `answer`.
fn answer_command<'a>(alloc: Global) -> Result<Command<'a>, AllocError>
    ensures { IfOk result (λ c. app_of c ≡ answer) }
{
    let eid = word(
        alloc,
        "EID",
        "The endpoint identifier to answer as, 8 to 254",
    );
    let uuid = text_option(alloc, "uuid", "UUID", "The answer to Get Endpoint UUID");
    let args = vec![in alloc;
        eid.value_parser(value_parser!(u8).range(8..255)),
        uuid.default_value("00000000-0000-0000-0000-000000000000"),
        flag(
            alloc,
            "serial",
            "Reads and writes frames of a serial line in place of packets"
        ),
    ]?;
    let command = Command::new(alloc, "answer")
        .about("Answers MCTP packets as an endpoint without a device")
        .long_about(
            "Answers MCTP packets as an endpoint without a device.\n\n\
            Each line of standard input is one packet in hexadecimal digits. For each line,\n\
            standard output gets one: the packet that answers it, in upper-case digits, or\n\
            'drop' and the cause. The answers to all whole lines are written before more\n\
            input is awaited.",
        )
        .after_long_help(ANSWER_HELP);
    with_args(command, args)
}

/// The subcommand `inspect`.
fn inspect_command<'a>(alloc: Global) -> Result<Command<'a>, AllocError>
    ensures { IfOk result (λ c. app_of c ≡ inspect) }
{
    let args = vec![in alloc;
        flag(alloc, "digest", "Prints the SHA-256 of each image"),
        json_option(alloc),
        word(alloc, "FILE", "The package's file"),
    ]?;
    let command = Command::new(alloc, "inspect")
        .about("Prints what a firmware update package holds")
        .long_about(
            "Prints what a firmware update package holds.\n\n\
            It prints a line for the package, one for each record and each of its\n\
            descriptors, and one for each component. Records and components are counted from\n\
            1. A byte of a text that isn't plain ASCII is printed as \\x and two digits. A\n\
            file that isn't a package is refused with the first fault that holds.",
        )
        .after_long_help(INSPECT_HELP);
    with_args(command, args)
}

/// The subcommand `replay`.
fn replay_command<'a>(alloc: Global, names: OptionNames<'a>) -> Result<Command<'a>, AllocError>
    ensures { IfOk result (λ c. app_of c ≡ replay names.entry) }
{
    let store = store_option(
        alloc,
        "Reads what runs from a folder, in which nothing is written",
    );
    let schedule = word(
        alloc,
        "SCHEDULE",
        "The schedule: the steps, one after the other",
    );
    let args = vec![in alloc;
        trace_option(alloc),
        trace_form_option(alloc, names),
        log_option(alloc),
        store,
        images_option(alloc),
        json_option(alloc),
        config_word(alloc),
        schedule,
    ]?;
    let command = Command::new(alloc, "replay")
        .about("Replays a schedule of packets, ticks and commands")
        .long_about(
            "Replays a schedule of packets, ticks and commands on an update agent and its\n\
            devices, and prints a report.\n\n\
            A packet may be delivered at once, later, more than once or never, for 8 units\n\
            after it was sent. The schedule says which packet is delivered when.",
        )
        .after_long_help(REPLAY_HELP);
    with_args(command, args)
}

/// The options and arguments of `run`, without those of rough links.
fn run_options<'a>(alloc: Global, names: OptionNames<'a>) -> Result<Vec<Arg<'a>>, AllocError>
    ensures { IfOk result (λ options. map rule_of options.items ≡ run_options names.entry) }
{
    Ok(vec![in alloc;
        packages_option(alloc),
        devices_option(alloc),
        flag(alloc, "check", "Fails where a session doesn't end Done"),
        flag(alloc, "quiet", "Shows no progress"),
        trace_option(alloc),
        trace_form_option(alloc, names),
        log_option(alloc),
        record_option(
            alloc,
            "Writes each step to a file as it is taken, as a schedule to replay",
        ),
        store_option(alloc, "Keeps what runs in a folder, and begins with it"),
        images_option(alloc),
        json_option(alloc),
        config_word(alloc),
        folder_word(alloc),
    ]?)
}

/// The subcommand `run`.
fn run_command<'a>(alloc: Global, names: OptionNames<'a>) -> Result<Command<'a>, AllocError>
    ensures { IfOk result (λ c. app_of c ≡ run names.entry) }
{
    let command = Command::new(alloc, "run")
        .about("Updates each device with a package, over Unix sockets")
        .long_about(
            "Updates each device of a configuration, or only those that --device and\n\
            --package EID=N name, with its first package, or with package N, each over a\n\
            Unix socket FOLDER/EID.sock to itself, and prints a report. A socket's file is\n\
            removed as soon as both of its ends are connected.",
        )
        .after_long_help(RUN_HELP);
    let command = with_args(command, run_options(alloc, names)?)?;
    with_args(command, roughness_options(alloc)?)
}

/// The options and arguments of `soak`, without those of rough links.
fn soak_options<'a>(alloc: Global) -> Result<Vec<Arg<'a>>, AllocError>
    ensures { IfOk result (λ options. map rule_of options.items ≡ soak_options) }
{
    let runs = text_option(alloc, "runs", "N", "How many runs, 1 to 1000000")
        .required(true)
        .value_parser(value_parser!(u32).range(1..1_000_001));
    let record = record_option(
        alloc,
        "Writes the steps of the first run that goes wrong, as a schedule",
    );
    Ok(vec![in alloc;
        runs,
        record,
        images_option(alloc),
        json_option(alloc),
        config_word(alloc),
    ]?)
}

/// The subcommand `soak`.
fn soak_command<'a>(alloc: Global) -> Result<Command<'a>, AllocError>
    ensures { IfOk result (λ c. app_of c ≡ soak) }
{
    let command = Command::new(alloc, "soak")
        .about("Makes many rough runs of updates, and checks each")
        .long_about(
            "Makes many runs of updates of the devices of a configuration, with restarts of\n\
            each node, cancels, bad verdicts and failing banks at random moments, and checks\n\
            after each what devices activated and what runs.",
        )
        .after_long_help(SOAK_HELP);
    let command = with_args(command, soak_options(alloc)?)?;
    with_args(command, roughness_options(alloc)?)
}

/// The subcommand `sel`.
fn sel_command<'a>(alloc: Global) -> Result<Command<'a>, AllocError>
    ensures { IfOk result (λ c. app_of c ≡ sel) }
{
    let args = vec![in alloc;
        json_option(alloc),
        word(alloc, "FILE", "The file of records, as --sel writes it"),
    ]?;
    let command = Command::new(alloc, "sel")
        .about("Prints the records of an event log, a line each")
        .long_about(
            "Prints the records of an event log, a line each, oldest first.\n\n\
            The file holds at most 128 records of 16 bytes, as 'run --sel' and\n\
            'replay --sel' write them.",
        )
        .after_long_help(SEL_HELP);
    with_args(command, args)
}

/// The subcommand `build`.
fn build_command<'a>(alloc: Global) -> Result<Command<'a>, AllocError>
    ensures { IfOk result (λ c. app_of c ≡ build) }
{
    let spec = word(alloc, "SPEC", "The text that says what the package holds");
    let file = word(
        alloc,
        "FILE",
        "The package's file, which is made or replaced",
    );
    let json = flag(alloc, "json", "Writes one line of JSON of the package");
    let args = vec![in alloc; json, spec, file]?;
    let command = Command::new(alloc, "build")
        .about("Builds a firmware update package from a text and images")
        .long_about(
            "Builds a firmware update package from a text and images.\n\n\
            The text says what the package holds, and names the files of the images. Without\n\
            --json nothing is printed.",
        )
        .after_long_help(BUILD_HELP);
    with_args(command, args)
}

/// The subcommand `plan`.
fn plan_command<'a>(alloc: Global) -> Result<Command<'a>, AllocError>
    ensures { IfOk result (λ c. app_of c ≡ plan) }
{
    let args = vec![in alloc;
        package_option(alloc),
        store_option(
            alloc,
            "Reads what runs from a folder, in which nothing is written"
        ),
        images_option(alloc),
        json_option(alloc),
        config_word(alloc),
    ]?;
    let command = Command::new(alloc, "plan")
        .about("Prints what an update of each device would result in")
        .long_about(
            "Prints what an update of each device of a configuration would result in, with\n\
            its first package or another, and why. Nothing is updated, and nothing is made.",
        )
        .after_long_help(PLAN_HELP);
    with_args(command, args)
}

/// The option for the path of a node's report.
fn report_option<'a>(alloc: Global) -> Arg<'a>
    ensures { rule_of result ≡ text_option (codes "report") }
{
    text_option(
        alloc,
        "report",
        "FILE",
        "Writes the node's report to a file at the end of the input",
    )
}

/// The option for answers in front of a node.
fn open_option<'a>(alloc: Global) -> Arg<'a>
    ensures { rule_of result ≡ flag_rule (codes "open") }
{
    flag(
        alloc,
        "open",
        "Answers what discovery requests, in front of the node",
    )
}

/// The options and arguments of `device`, without those that it shares with `agent`'s process.
fn device_options<'a>(alloc: Global) -> Result<Vec<Arg<'a>>, AllocError>
    ensures { IfOk result (λ options. map rule_of options.items ≡ device_options) }
{
    let auto = flag(
        alloc,
        "auto",
        "Gives each verdict that the device waits for, always a success",
    );
    let listen = sockets_option(alloc, "listen", "Serves FOLDER/EID.sock as a process");
    let eid = word(alloc, "EID", "The device's endpoint identifier, 8 to 254");
    let numbers = value_parser!(u8).range(8..255);
    Ok(vec![in alloc;
        auto,
        open_option(alloc),
        store_option(alloc, "Keeps activated images in a folder"),
        images_option(alloc),
        report_option(alloc),
        listen,
        flag(
            alloc,
            "take-over",
            "Replaces a socket on which nobody listens"
        ),
        config_word(alloc),
        eid.value_parser(numbers),
    ]?)
}

/// The subcommand `device`.
fn device_command<'a>(alloc: Global, names: OptionNames<'a>) -> Result<Command<'a>, AllocError>
    ensures { IfOk result (λ c. app_of c ≡ device names.entry) }
{
    let command = Command::new(alloc, "device")
        .about("Serves a device by itself: a filter of lines, or a process")
        .long_about(
            "Serves a device of a configuration by itself.\n\n\
            Each line of standard input is a call of the device. For each, standard output\n\
            gets one: the packets that the device sends, in upper-case digits. All whole\n\
            lines are served before more input is awaited. With --listen or --tty it is a\n\
            process, whose peer is the agent at the other end.",
        )
        .after_long_help(DEVICE_HELP);
    let command = with_args(command, device_options(alloc)?)?;
    with_args(command, process_options(alloc, names)?)
}

/// The options and arguments of `agent`, without those that its process shares with a device's.
fn agent_options<'a>(alloc: Global) -> Result<Vec<Arg<'a>>, AllocError>
    ensures { IfOk result (λ options. map rule_of options.items ≡ agent_options) }
{
    let auto = flag(
        alloc,
        "auto",
        "Has each device activate when its session is ready",
    );
    let connect = sockets_option(
        alloc,
        "connect",
        "Updates the devices at FOLDER/EID.sock as a process",
    );
    Ok(vec![in alloc;
        auto,
        open_option(alloc),
        log_option(alloc),
        store_option(alloc, "Keeps records and the event log in a folder"),
        report_option(alloc),
        connect,
        own_package_option(alloc),
        flag(alloc, "check", "Fails where a session doesn't end Done"),
        json_option(alloc),
        config_word(alloc),
    ]?)
}

/// The subcommand `agent`.
fn agent_command<'a>(alloc: Global, names: OptionNames<'a>) -> Result<Command<'a>, AllocError>
    ensures { IfOk result (λ c. app_of c ≡ agent names.entry) }
{
    let command = Command::new(alloc, "agent")
        .about("Serves the agent by itself: a filter of lines, or a process")
        .long_about(
            "Serves the agent of a configuration by itself.\n\n\
            Each line of standard input is a call of the agent. For each, standard output\n\
            gets one: the packets that the agent sends, in upper-case digits. All whole\n\
            lines are served before more input is awaited. With --connect or --tty it is a\n\
            process, which updates the devices at the other ends.",
        )
        .after_long_help(AGENT_HELP);
    let command = with_args(command, agent_options(alloc)?)?;
    with_args(command, process_options(alloc, names)?)
}

/// The subcommand `decode`.
fn decode_command<'a>(alloc: Global, names: OptionNames<'a>) -> Result<Command<'a>, AllocError>
    ensures { IfOk result (λ c. app_of c ≡ decode names.entry) }
{
    let args = vec![in alloc;
        unit_option(alloc, names),
        flag(alloc, "json", "Writes a line of JSON for each packet"),
        packets_word(alloc),
    ]?;
    let command = Command::new(alloc, "decode")
        .about("Prints what packets say, whoever sent them")
        .long_about(
            "Prints what packets say, whoever sent them: a line for each, as in a trace of\n\
            text.\n\n\
            The packets are lines of hexadecimal digits, also with what a trace of digits\n\
            writes before them, or a capture. Each pair of endpoints has a reader of its\n\
            own, which assembles its messages.",
        )
        .after_long_help(DECODE_HELP);
    with_args(command, args)
}

/// The subcommand `status`.
fn status_command<'a>(alloc: Global) -> Result<Command<'a>, AllocError>
    ensures { IfOk result (λ c. app_of c ≡ status) }
{
    let args = vec![in alloc;
        store_option(
            alloc,
            "Reads what runs from a folder, in which nothing is written"
        ),
        images_option(alloc),
        json_option(alloc),
        config_word(alloc),
    ]?;
    let command = Command::new(alloc, "status")
        .about("Prints what runs on each device of a configuration")
        .long_about(
            "Prints what runs on each device of a configuration: for each of its components\n\
            the stamp, the version, and the size and SHA-256 of the image. Nothing is made.",
        )
        .after_long_help(STATUS_HELP);
    with_args(command, args)
}

/// The program, without its subcommands.
fn program<'a>(alloc: Global) -> Command<'a>
    ensures { app_of result ≡ program }
{
    Command::new(alloc, "fwupd")
        .version("0.1.0")
        .about("A firmware update agent and its devices: PLDM for Firmware Update over MCTP")
        .subcommand_required(true)
        .arg_required_else_help(true)
}

/// A command with one more subcommand.
fn with_one<'a>(command: Command<'a>, one: Command<'a>) -> Result<Command<'a>, AllocError>
    ensures { is_plain (app_of one.entry) ≡ true
        → IfOk result (λ c. app_of c ≡ with_one (app_of command.entry) (app_of one.entry)) }
{
    command.subcommand(one)
}

/// The command line, with the names of the trace formats and the transmission units. Help lists the
/// subcommands in this order.
fn command_with<'a>(alloc: Global, names: OptionNames<'a>) -> Result<Command<'a>, AllocError>
    ensures { IfOk result (λ c. app_of c ≡ command_line names.entry) }
{
    let command = with_one(program(alloc), answer_command(alloc)?)?;
    let command = with_one(command, inspect_command(alloc)?)?;
    let command = with_one(command, replay_command(alloc, names)?)?;
    let command = with_one(command, plan_command(alloc)?)?;
    let command = with_one(command, run_command(alloc, names)?)?;
    let command = with_one(command, soak_command(alloc)?)?;
    let command = with_one(command, sel_command(alloc)?)?;
    let command = with_one(command, build_command(alloc)?)?;
    let command = with_one(command, device_command(alloc, names)?)?;
    let command = with_one(command, agent_command(alloc, names)?)?;
    let command = with_one(command, decode_command(alloc, names)?)?;
    with_one(command, status_command(alloc)?)
}

/// The names of the trace formats.
const TRACE_FORMS: &[&str] = &["hex", "text", "pcap"];

/// The sizes of the transmission units.
const UNITS: &[&str] = &["64", "128"];

/// The names that options take as their values.
const NAMES: OptionNames<'static> = OptionNames {
    traces: TRACE_FORMS,
    units: UNITS,
};

/// The whole command line.
pub(crate) fn command<'a>(alloc: Global) -> Result<Command<'a>, AllocError>
    ensures { IfOk result (λ c. IsCommandLine (app_of c)) }
{
    command_with(alloc, NAMES)
}

/// The subcommand `name`, as an error shows its usage; the whole command line for another name.
fn named_command<'a>(alloc: Global, name: &str) -> Result<Command<'a>, AllocError> {
    match name {
        "answer" => answer_command(alloc)?.bin_name("fwupd answer"),
        "replay" => replay_command(alloc, NAMES)?.bin_name("fwupd replay"),
        "plan" => plan_command(alloc)?.bin_name("fwupd plan"),
        "run" => run_command(alloc, NAMES)?.bin_name("fwupd run"),
        "soak" => soak_command(alloc)?.bin_name("fwupd soak"),
        "build" => build_command(alloc)?.bin_name("fwupd build"),
        "device" => device_command(alloc, NAMES)?.bin_name("fwupd device"),
        "agent" => agent_command(alloc, NAMES)?.bin_name("fwupd agent"),
        "status" => status_command(alloc)?.bin_name("fwupd status"),
        _ => command(alloc),
    }
}

/// An error of this kind in the arguments of the subcommand `name`, with this message and the usage
/// of that subcommand.
pub(crate) fn refusal(
    alloc: Global,
    name: &str,
    kind: ErrorKind,
    message: &str,
) -> Result<clap::Error, AllocError>
    ensures { IfOk result (λ error. kind_of error ≡ kind) }
{
    named_command(alloc, name)?.error(kind, message)
}
