//! What is wrong with a line or a store, in words.

ghost use Rattle.std.specs.Prelude.{◌≡◌};
ghost use Rattle.fwupd_clues.specs.Reasons.{reason_of, reason_of_store};

use fw_script::ScriptCause;
use fw_store::OpenFault;

/// Returns what a cause says of its line.
pub(crate) fn reason(cause: ScriptCause) -> &'static str
    ensures { result.now ≡ reason_of cause }
{
    match cause {
        ScriptCause::Directive => "no line of this format begins with this word",
        ScriptCause::Fields => "there are too few words, or too many",
        ScriptCause::Order => "such a line may not be here",
        ScriptCause::Number => {
            "a number isn't all digits, a word isn't known, a UUID is malformed, or a path isn't UTF-8"
        }
        ScriptCause::Hex => {
            "bytes aren't an even number of hexadecimal digits, or a descriptor's type isn't four"
        }
        ScriptCause::Range => "a number is outside its bounds",
        ScriptCause::Duplicate => "what it names is there already",
        ScriptCause::Limit => "there are more of these, or more bytes, than is allowed",
        ScriptCause::Missing => "the agent, a device, or a device's component is missing",
        ScriptCause::Memory => "memory was refused",
    }
}

/// Returns why a store can't be opened.
pub(crate) fn store_reason(why: OpenFault) -> &'static str
    ensures { result.now ≡ reason_of_store why }
{
    match why {
        OpenFault::Damaged => {
            "'active' there isn't as it was written, or an image that it names isn't there as it was"
        }
        OpenFault::Foreign =>
            "what it keeps is of components, devices or packages that CONFIG lacks",
        OpenFault::Unreadable => "it can't be read, or can't be made",
        OpenFault::Memory => "memory was refused",
    }
}
