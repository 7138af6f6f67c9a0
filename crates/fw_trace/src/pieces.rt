//! Pieces of a packet's line, each appended to the text. Their only error is `AllocError`.

ghost use Rattle.std.specs.Prelude.{OnOk, option_map};
ghost use Rattle.fw_text.specs.Printing.{AppendsText, word_and_number};
ghost use Rattle.fwup_wire.specs.Lent.{typed_text_of};
ghost use Rattle.fw_trace.specs.Names.{name_or_digits};
ghost use Rattle.fw_trace.specs.Pieces.{encoded_text, encoding_text, in_digits, in_two, rest_text, text_field};

use fw_text::{push_data, push_number, push_quoted, push_words};
use fwup_wire::TypedText;
use fwup_wire::code::text_type;
use std::alloc::{AllocError, Global};

/// Appends a word and a number of one byte in decimal digits.
pub fn push_byte(
    alloc: Global,
    text: &mut Vec<u8>,
    word: &str,
    number: u8,
) -> Result<(), AllocError>
    ensures { OnOk result (AppendsText text.old.items text.new.items (word_and_number word.now number)) }
{
    push_number(alloc, text, word, usize::from(number))
}

/// Appends a word and a number of two bytes in decimal digits.
pub fn push_short(
    alloc: Global,
    text: &mut Vec<u8>,
    word: &str,
    number: u16,
) -> Result<(), AllocError>
    ensures { OnOk result (AppendsText text.old.items text.new.items (word_and_number word.now number)) }
{
    push_number(alloc, text, word, usize::from(number))
}

/// Appends a word and a number of four bytes in decimal digits.
pub fn push_long(
    alloc: Global,
    text: &mut Vec<u8>,
    word: &str,
    number: u32,
) -> Result<(), AllocError>
    ensures { OnOk result (AppendsText text.old.items text.new.items (word_and_number word.now number)) }
{
    push_number(alloc, text, word, number as usize)
}

/// Appends a word and a byte in two hexadecimal digits.
#[tactic(auto, unfolding(crate::specs::Pieces::in_two))]
pub fn push_two(alloc: Global, text: &mut Vec<u8>, word: &str, number: u8) -> Result<(), AllocError>
    ensures { OnOk result (AppendsText text.old.items text.new.items (in_two word.now number)) }
{
    push_words(text, word)?;
    push_data(alloc, text, &[number])?;
    Ok(())
}

/// Appends a word and data in hexadecimal digits, or a dash if it is empty.
#[tactic(auto, unfolding(crate::specs::Pieces::in_digits))]
pub fn push_digits(
    alloc: Global,
    text: &mut Vec<u8>,
    word: &str,
    bytes: &[u8],
) -> Result<(), AllocError>
    ensures { OnOk result (AppendsText text.old.items text.new.items (in_digits word.now bytes.now)) }
{
    push_words(text, word)?;
    push_data(alloc, text, bytes)?;
    Ok(())
}

/// Appends bytes that aren't decoded: a space and their digits, or nothing if there are none.
#[tactic(auto, unfolding(crate::specs::Pieces::rest_text))]
pub fn push_rest(alloc: Global, text: &mut Vec<u8>, bytes: &[u8]) -> Result<(), AllocError>
    ensures { OnOk result (AppendsText text.old.items text.new.items (rest_text bytes.now)) }
{
    if bytes.is_empty() {
        return Ok(());
    }
    push_words(text, " ")?;
    push_data(alloc, text, bytes)?;
    Ok(())
}

/// Appends a space and a name, or the number's two digits if there is no name.
pub fn push_name(
    alloc: Global,
    text: &mut Vec<u8>,
    name: Option<&'static str>,
    number: u8,
) -> Result<(), AllocError>
    ensures { OnOk result (AppendsText text.old.items text.new.items (name_or_digits (option_map (λ s. s.now) name.entry) number)) }
{
    let Some(name) = name else {
        return push_two(alloc, text, " ", number);
    };
    push_words(text, " ")?;
    push_words(text, name)?;
    Ok(())
}

/// Appends the name of an encoding that isn't ASCII, or its two digits.
fn push_encoding(alloc: Global, text: &mut Vec<u8>, number: u8) -> Result<(), AllocError>
    ensures { OnOk result (AppendsText text.old.items text.new.items (encoding_text number)) }
{
    match number {
        text_type::UNKNOWN => push_words(text, "unknown"),
        text_type::UTF_8 => push_words(text, "utf-8"),
        text_type::UTF_16 => push_words(text, "utf-16"),
        text_type::UTF_16LE => push_words(text, "utf-16le"),
        text_type::UTF_16BE => push_words(text, "utf-16be"),
        _ => push_two(alloc, text, "encoding ", number),
    }
}

/// Appends a word and a text that isn't ASCII: its encoding, and its bytes in digits.
#[tactic(auto, unfolding(crate::specs::Pieces::encoded_text))]
fn push_encoded(
    alloc: Global,
    text: &mut Vec<u8>,
    word: &str,
    value: &TypedText<'_>,
) -> Result<(), AllocError>
    ensures { OnOk result (AppendsText text.old.items text.new.items (encoded_text word.now (typed_text_of value.now))) }
{
    push_words(text, word)?;
    push_encoding(alloc, text, value.text_type)?;
    push_digits(alloc, text, " ", value.bytes)?;
    Ok(())
}

/// Appends a word and a text: ASCII in quotes; another encoding by its name, with the bytes in
/// digits.
pub fn push_text(
    alloc: Global,
    text: &mut Vec<u8>,
    word: &str,
    value: &TypedText<'_>,
) -> Result<(), AllocError>
    ensures { OnOk result (AppendsText text.old.items text.new.items (text_field word.now (typed_text_of value.now))) }
{
    if value.text_type == text_type::ASCII {
        push_quoted(alloc, text, word, value.bytes)
    } else {
        push_encoded(alloc, text, word, value)
    }
}
