//! Why a text is refused.

ghost use Rattle.std.specs.Prelude.{◌≡◌};
ghost use Rattle.fw_script.specs.Faults.{both as both_of, earlier as earlier_of, name_of, rank_of};

use thiserror::Error;

/// What is wrong with a line. If a line has several faults, the first of this list is reported.
#[derive(Clone, Copy, Debug, PartialEq, Eq, Error)]
pub enum ScriptCause {
    /// The line begins with no directive of the format.
    #[error("Directive")]
    Directive,
    /// A field is missing or empty, or there are too many.
    #[error("Fields")]
    Fields,
    /// The line isn't allowed here.
    #[error("Order")]
    Order,
    /// A number isn't all digits, a verdict is unknown, a UUID is malformed, or a path isn't UTF-8.
    #[error("Number")]
    Number,
    /// Bytes aren't an even number of hexadecimal digits, or a descriptor's type isn't four digits.
    #[error("Hex")]
    Hex,
    /// A number is outside its bounds.
    #[error("Range")]
    Range,
    /// A node's identifier occurs twice, or a component's key twice in one device.
    #[error("Duplicate")]
    Duplicate,
    /// There are too many devices, components of a device, descriptors, or bytes.
    #[error("Limit")]
    Limit,
    /// The agent, a device, or a device's component is missing.
    #[error("Missing")]
    Missing,
    /// Memory was refused.
    #[error("Memory")]
    Memory,
}

impl ScriptCause {
    /// Returns the name of the cause.
    pub fn name(self) -> &'static str
        ensures { result.now ≡ name_of self }
    {
        match self {
            ScriptCause::Directive => "Directive",
            ScriptCause::Fields => "Fields",
            ScriptCause::Order => "Order",
            ScriptCause::Number => "Number",
            ScriptCause::Hex => "Hex",
            ScriptCause::Range => "Range",
            ScriptCause::Duplicate => "Duplicate",
            ScriptCause::Limit => "Limit",
            ScriptCause::Missing => "Missing",
            ScriptCause::Memory => "Memory",
        }
    }

    /// Its place in the list.
    fn rank(self) -> u8
        ensures { result ≡ rank_of self }
    {
        match self {
            ScriptCause::Directive => 1,
            ScriptCause::Fields => 2,
            ScriptCause::Order => 3,
            ScriptCause::Number => 4,
            ScriptCause::Hex => 5,
            ScriptCause::Range => 6,
            ScriptCause::Duplicate => 7,
            ScriptCause::Limit => 8,
            ScriptCause::Missing => 9,
            ScriptCause::Memory => 10,
        }
    }

    /// Returns the cause that comes first in the list.
    pub(crate) fn earlier(self, other: ScriptCause) -> ScriptCause
        ensures { result ≡ earlier_of self other }
    {
        if self.rank() <= other.rank() {
            self
        } else {
            other
        }
    }
}

/// Why a text is refused, and at which line.
#[derive(Clone, Copy, Debug, PartialEq, Eq, Error)]
#[error("line {line}: {cause}")]
pub struct ScriptFault {
    /// The line, counted from 1; for `Missing`, the line after the last.
    pub line: usize,
    /// What is wrong with it.
    pub cause: ScriptCause,
}

/// Returns both values, or the fault that comes first in the list.
pub(crate) fn both<A: Drop, B: Drop>(
    first: Result<A, ScriptCause>,
    second: Result<B, ScriptCause>,
) -> Result<(A, B), ScriptCause>
    ensures { result ≡ both_of first second }
{
    match (first, second) {
        (Ok(first), Ok(second)) => Ok((first, second)),
        (Ok(_), Err(cause)) => Err(cause),
        (Err(cause), Ok(_)) => Err(cause),
        (Err(cause), Err(other)) => Err(cause.earlier(other)),
    }
}
