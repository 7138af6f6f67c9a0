//! Arguments and options that several subcommands share.

ghost use Rattle.std.specs.Prelude.{◌≡◌, ◌∷◌, [], IfOk, Some, codes, map};
ghost use Rattle.clap.specs.Words.{rule_of};
ghost use Rattle.fwupd_words.specs.CommandLine.{devices_rule, flag_rule, given_option, given_word, images_rule, optional_word, own_package_rule, package_rule, packages_rule, process_rules, roughness_rules, text_option, trace_form_rule, unit_rule, word_rule};

use clap::builder::ValueParser;
use clap::{Arg, ArgAction, value_parser};
use std::alloc::{AllocError, Global};

/// The names that options take as their values.
#[derive(Clone, Copy)]
pub struct OptionNames<'a> {
    /// The names of the trace formats.
    pub traces: &'a [&'a str],
    /// The sizes of the transmission units.
    pub units: &'a [&'a str],
}

/// A required positional argument.
pub(crate) fn word<'a>(alloc: Global, name: &'static str, help: &'static str) -> Arg<'a>
    ensures { rule_of result ≡ word_rule name.entry.now }
{
    Arg::new(alloc, name)
        .help(help)
        .required(true)
        .action(ArgAction::Set)
}

/// The argument for the path of the configuration.
pub(crate) fn config_word<'a>(alloc: Global) -> Arg<'a>
    ensures { rule_of result ≡ word_rule (codes "CONFIG") }
{
    word(
        alloc,
        "CONFIG",
        "The configuration: an agent, its devices, packages",
    )
}

/// The argument for the path of the sockets' folder.
pub(crate) fn folder_word<'a>(alloc: Global) -> Arg<'a>
    ensures { rule_of result ≡ given_word (codes "FOLDER") }
{
    let folder = word(alloc, "FOLDER", "The folder that the sockets are made in");
    folder.value_parser(ValueParser::NonEmptyString)
}

/// The argument for the path of a file of packets, which may be missing.
pub(crate) fn packets_word<'a>(alloc: Global) -> Arg<'a>
    ensures { rule_of result ≡ optional_word (codes "FILE") }
{
    Arg::new(alloc, "FILE")
        .help("Lines of digits, or a capture; standard input if - or missing")
        .action(ArgAction::Set)
}

/// An option without a value.
pub(crate) fn flag<'a>(alloc: Global, name: &'static str, help: &'static str) -> Arg<'a>
    ensures { rule_of result ≡ flag_rule name.entry.now }
{
    Arg::new(alloc, name)
        .long(name)
        .help(help)
        .action(ArgAction::SetTrue)
}

/// An option with a text value.
pub(crate) fn text_option<'a>(
    alloc: Global,
    name: &'static str,
    value: &'static str,
    help: &'static str,
) -> Arg<'a>
    ensures { rule_of result ≡ text_option name.entry.now }
{
    Arg::new(alloc, name)
        .long(name)
        .value_name(value)
        .help(help)
}

/// The option for the path of a trace.
pub(crate) fn trace_option<'a>(alloc: Global) -> Arg<'a>
    ensures { rule_of result ≡ text_option (codes "trace") }
{
    text_option(
        alloc,
        "trace",
        "FILE",
        "Writes each packet to a file as it goes out",
    )
}

/// The option for the format of a trace.
pub(crate) fn trace_form_option<'a>(alloc: Global, names: OptionNames<'a>) -> Arg<'a>
    ensures { rule_of result ≡ trace_form_rule names.entry }
{
    text_option(
        alloc,
        "trace-format",
        "FORM",
        "The form of the trace: digits, what packets say, or a capture",
    )
    .value_parser(names.traces)
}

/// The option for the transmission unit.
pub(crate) fn unit_option<'a>(alloc: Global, names: OptionNames<'a>) -> Arg<'a>
    ensures { rule_of result ≡ unit_rule names.entry }
{
    text_option(
        alloc,
        "unit",
        "BYTES",
        "The transmission unit: the most bytes of a packet's body",
    )
    .value_parser(names.units)
    .default_value("64")
}

/// The option for the path of the event log's records.
pub(crate) fn log_option<'a>(alloc: Global) -> Arg<'a>
    ensures { rule_of result ≡ text_option (codes "sel") }
{
    text_option(
        alloc,
        "sel",
        "FILE",
        "Writes the event log's records to a file in the end",
    )
}

/// The option for the path of the steps.
pub(crate) fn record_option<'a>(alloc: Global, help: &'static str) -> Arg<'a>
    ensures { rule_of result ≡ text_option (codes "record") }
{
    text_option(alloc, "record", "FILE", help)
}

/// The option for the path of the stores' folder.
pub(crate) fn store_option<'a>(alloc: Global, help: &'static str) -> Arg<'a>
    ensures { rule_of result ≡ given_option (codes "store") }
{
    text_option(alloc, "store", "STORE", help).value_parser(ValueParser::NonEmptyString)
}

/// The option for JSON output.
pub(crate) fn json_option<'a>(alloc: Global) -> Arg<'a>
    ensures { rule_of result ≡ flag_rule (codes "json") }
{
    flag(
        alloc,
        "json",
        "Writes one line of JSON in place of the text",
    )
}

/// Gives an option a parser, and a default text.
fn read_option<'a>(option: Arg<'a>, otherwise: &'static str, parser: ValueParser<'a>) -> Arg<'a>
    ensures { rule_of result ≡ record (rule_of option.entry) { defaults = otherwise.entry.now ∷ []; parser = Some parser.entry } }
{
    option.default_value(otherwise).value_parser(parser)
}

/// The options of rough links.
pub(crate) fn roughness_options<'a>(alloc: Global) -> Result<Vec<Arg<'a>>, AllocError>
    ensures { IfOk result (λ options. map rule_of options.items ≡ roughness_rules) }
{
    let loss = text_option(alloc, "loss", "P", "Loses so many of a hundred packets");
    let duplicate = text_option(
        alloc,
        "duplicate",
        "P",
        "Delivers so many of a hundred twice",
    );
    let delay = text_option(
        alloc,
        "delay",
        "N",
        "Holds packets back for up to so many turns",
    );
    let seed = text_option(
        alloc,
        "seed",
        "N",
        "Which chances these are: a seed gives the same run again",
    );
    Ok(vec![in alloc;
        loss.value_parser(value_parser!(u8).range(0..101)),
        duplicate.value_parser(value_parser!(u8).range(0..101)),
        delay.value_parser(value_parser!(u8).range(0..9)),
        seed.value_parser(value_parser!(u64)),
    ]?)
}

/// The option for the number of the package.
pub(crate) fn package_option<'a>(alloc: Global) -> Arg<'a>
    ensures { rule_of result ≡ package_rule }
{
    let package = text_option(
        alloc,
        "package",
        "N",
        "The number of the package in CONFIG, from 1 on",
    );
    read_option(package, "1", value_parser!(u32).range(1..))
}

/// The option for the packages of a run, which may be given more than once: a text for all devices,
/// or for one.
pub(crate) fn packages_option<'a>(alloc: Global) -> Arg<'a>
    ensures { rule_of result ≡ packages_rule }
{
    let package = text_option(
        alloc,
        "package",
        "N|EID=N",
        "Updates with package N, or only EID with package N",
    );
    package.action(ArgAction::Append)
}

/// The option for the files of images, which may be given more than once.
pub(crate) fn images_option<'a>(alloc: Global) -> Arg<'a>
    ensures { rule_of result ≡ images_rule }
{
    let image = text_option(
        alloc,
        "image",
        "EID/CLASS-IDENT=PATH",
        "Takes a component's image from a file; may be given again",
    );
    image.action(ArgAction::Append)
}

/// The option for the endpoint identifiers of devices, which may be given more than once.
pub(crate) fn devices_option<'a>(alloc: Global) -> Arg<'a>
    ensures { rule_of result ≡ devices_rule }
{
    let device = text_option(
        alloc,
        "device",
        "EID",
        "Updates only this device of CONFIG; may be given again",
    );
    device
        .action(ArgAction::Append)
        .value_parser(value_parser!(u8).range(8..255))
}

/// An option for the path of a folder of sockets.
pub(crate) fn sockets_option<'a>(alloc: Global, name: &'static str, help: &'static str) -> Arg<'a>
    ensures { rule_of result ≡ given_option name.entry.now }
{
    text_option(alloc, name, "FOLDER", help).value_parser(ValueParser::NonEmptyString)
}

/// The option for the number of the agent's package, without a default.
pub(crate) fn own_package_option<'a>(alloc: Global) -> Arg<'a>
    ensures { rule_of result ≡ own_package_rule }
{
    let package = text_option(
        alloc,
        "package",
        "N",
        "The number of the package in CONFIG, from 1 on",
    );
    package.value_parser(value_parser!(u32).range(1..))
}

/// The options of a node's process that the device and the agent share.
pub(crate) fn process_options<'a>(
    alloc: Global,
    names: OptionNames<'a>,
) -> Result<Vec<Arg<'a>>, AllocError>
    ensures { IfOk result (λ options. map rule_of options.items ≡ process_rules names.entry) }
{
    let tty = text_option(alloc, "tty", "PATH", "Serves a serial line as a process");
    let tick = text_option(
        alloc,
        "tick",
        "MS",
        "The milliseconds of a unit, 1 to 1000: 10 with sockets, 50 with --tty",
    );
    let ticks = text_option(alloc, "ticks", "N", "Ends the process after N units");
    let trace = text_option(
        alloc,
        "trace",
        "FILE",
        "Writes each packet that is sent or received to a file",
    );
    Ok(vec![in alloc;
        tty.value_parser(ValueParser::NonEmptyString),
        tick.value_parser(value_parser!(u32).range(1..1001)),
        ticks.value_parser(value_parser!(u32).range(1..)),
        trace,
        trace_form_option(alloc, names),
        record_option(
            alloc,
            "Writes each call of the node to a file, as lines of a filter",
        ),
    ]?)
}
