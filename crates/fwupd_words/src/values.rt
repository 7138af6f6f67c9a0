//! The values of arguments under their names.

ghost use Rattle.std.specs.Prelude.{◌≡◌};
ghost use Rattle.fwupd_words.specs.Words.{AsksChance, AsksForm, AsksSmall, AsksTraceForm, given_in, has_value, is_dash, is_set, text_under};
ghost use Rattle.fwupd_words.specs.Processes.{AsksOptional};

use clap::ArgMatches;
use fwupd_base::{Form, TraceForm};

/// The text argument or option `name`, or an empty text if it is missing.
pub(crate) fn text_under<'a>(matches: &ArgMatches<'a>, name: &str) -> &'a str
    ensures { result.now ≡ text_under (given_in matches.now) name.now }
{
    match matches.get_str(name) {
        Some(text) => text,
        None => "",
    }
}

/// Whether the argument `name` has a value.
pub(crate) fn has_value(matches: &ArgMatches<'_>, name: &str) -> bool
    ensures { result ≡ has_value (given_in matches.now) name.now }
{
    matches.get_str(name).is_some()
}

/// Whether a path means standard input or standard output.
pub(crate) fn is_dash(path: &str) -> bool
    ensures { result ≡ is_dash path.now }
{
    path == "-"
}

/// Whether the flag `name` is set.
pub(crate) fn is_set(matches: &ArgMatches<'_>, name: &str) -> bool
    ensures { result ≡ is_set (given_in matches.now) name.now }
{
    match matches.get_str(name) {
        Some(text) => text == "true",
        None => false,
    }
}

/// The output format that the arguments request.
pub(crate) fn form_in(matches: &ArgMatches<'_>) -> Form
    ensures { AsksForm (given_in matches.now) result }
{
    if matches.get_flag("json") {
        Form::Json
    } else {
        Form::Text
    }
}

/// The trace format that the arguments request.
pub(crate) fn trace_form_in(matches: &ArgMatches<'_>) -> TraceForm
    ensures { AsksTraceForm (given_in matches.now) result }
{
    match matches.get_str("trace-format") {
        Some("text") => TraceForm::Text,
        Some("pcap") => TraceForm::Capture,
        _ => TraceForm::Hex,
    }
}

/// The number of 8 bits under `name`, or 0 if it is missing.
pub(crate) fn small_under(matches: &ArgMatches<'_>, name: &str) -> u8
    ensures { AsksSmall (given_in matches.now) name.now result }
{
    match matches.get_one::<u8>(name) {
        Some(number) => number,
        None => 0,
    }
}

/// The number of 8 bits of the option `name`, or 0 if it is missing.
pub(crate) fn chance_under(matches: &ArgMatches<'_>, name: &str) -> u8
    ensures { AsksChance (given_in matches.now) name.now result }
{
    match matches.get_one::<u8>(name) {
        Some(number) => number,
        None => 0,
    }
}

/// The number of 32 bits under `name`, if it is there.
pub(crate) fn number_under(matches: &ArgMatches<'_>, name: &str) -> Option<u32>
    ensures { AsksOptional (given_in matches.now) name.now result }
{
    matches.get_one::<u32>(name)
}
