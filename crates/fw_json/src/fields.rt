//! Pieces of a value, each appended to the tokens written so far.
//!
//! Their only error is `AllocError`; the tokens are unspecified after it.

ghost use Rattle.std.specs.Prelude.{◌≡◌, ◌+◌, ◌++◌, [], ◌∷◌, IfOk, OnOk, decimal, option_map, string_bytes};
ghost use Rattle.std.specs.List.{flat_map};
ghost use Rattle.hex.specs.Hex.{encode_upper};
ghost use Rattle.json.specs.Json as Json;
ghost use Rattle.json.specs.Lex.{tokens};
ghost use Rattle.json.specs.Print.{print};
ghost use Rattle.json.specs.Token.{begin_array, begin_object, boolean, end_array, end_object, key, null, number, string};
ghost use Rattle.json.specs.Tree.{json_tokens};
ghost use Rattle.fw_text.specs.Printing.{escaped_byte};
ghost use Rattle.fw_json.specs.Values.{in_digits, optional_value};
ghost use Rattle.fw_json.specs.Writing.{AppendsTokens};

use json::Writer;
use std::alloc::{AllocError, Global};

/// Begins an object.
pub(crate) fn open_object(writer: &mut Writer) -> Result<(), AllocError>
    ensures { OnOk result (AppendsTokens writer.old writer.new (begin_object ∷ [])) }
{
    writer.begin_object()?;
    Ok(())
}

/// Ends an object.
pub(crate) fn close_object(writer: &mut Writer) -> Result<(), AllocError>
    ensures { OnOk result (AppendsTokens writer.old writer.new (end_object ∷ [])) }
{
    writer.end_object()?;
    Ok(())
}

/// Ends an array.
pub(crate) fn close_array(writer: &mut Writer) -> Result<(), AllocError>
    ensures { OnOk result (AppendsTokens writer.old writer.new (end_array ∷ [])) }
{
    writer.end_array()?;
    Ok(())
}

/// Writes a key, and begins the array that is its value.
pub(crate) fn open_array_field(writer: &mut Writer, name: &str) -> Result<(), AllocError>
    ensures { OnOk result (AppendsTokens writer.old writer.new (key name.now ∷ begin_array ∷ [])) }
{
    writer.key(name)?;
    writer.begin_array()?;
    Ok(())
}

/// Writes a key.
pub(crate) fn push_key(writer: &mut Writer, name: &str) -> Result<(), AllocError>
    ensures { OnOk result (AppendsTokens writer.old writer.new (key name.now ∷ [])) }
{
    writer.key(name)?;
    Ok(())
}

/// Writes null.
pub(crate) fn push_null(writer: &mut Writer) -> Result<(), AllocError>
    ensures { OnOk result (AppendsTokens writer.old writer.new (null ∷ [])) }
{
    writer.null()?;
    Ok(())
}

/// Writes the number `place` plus one.
pub(crate) fn push_next(alloc: Global, writer: &mut Writer, place: usize) -> Result<(), AllocError>
    ensures { OnOk result (AppendsTokens writer.old writer.new (number (decimal (place + 1)) ∷ [])) }
{
    let digits = (place as u128 + 1).to_string(alloc)?;
    writer.number(&digits)?;
    Ok(())
}

/// Writes a key and a number.
pub(crate) fn push_number_field(
    writer: &mut Writer,
    name: &str,
    value: usize,
) -> Result<(), AllocError>
    ensures { OnOk result (AppendsTokens writer.old writer.new (key name.now ∷ number (decimal value) ∷ [])) }
{
    writer.key(name)?;
    writer.u64(value as u64)?;
    Ok(())
}

/// Writes a key and a string.
pub(crate) fn push_word_field(
    writer: &mut Writer,
    name: &str,
    words: &str,
) -> Result<(), AllocError>
    ensures { OnOk result (AppendsTokens writer.old writer.new (key name.now ∷ string words.now ∷ [])) }
{
    writer.key(name)?;
    writer.string(words)?;
    Ok(())
}

/// Writes a key and a boolean.
pub(crate) fn push_flag_field(
    writer: &mut Writer,
    name: &str,
    holds: bool,
) -> Result<(), AllocError>
    ensures { OnOk result (AppendsTokens writer.old writer.new (key name.now ∷ boolean holds ∷ [])) }
{
    writer.key(name)?;
    writer.boolean(holds)?;
    Ok(())
}

/// Writes a key, and a string or null.
pub(crate) fn push_optional_word_field(
    writer: &mut Writer,
    name: &str,
    words: Option<&str>,
) -> Result<(), AllocError>
    ensures { OnOk result (AppendsTokens writer.old writer.new
        (key name.now
        ∷ json_tokens (optional_value Json.string (option_map (λ w. w.now) words.entry)))) }
{
    writer.key(name)?;
    match words {
        Some(words) => writer.string(words)?,
        None => writer.null()?,
    }
    Ok(())
}

/// Writes a key and the number `place` plus one.
pub(crate) fn push_next_field(
    alloc: Global,
    writer: &mut Writer,
    name: &str,
    place: usize,
) -> Result<(), AllocError>
    ensures { OnOk result (AppendsTokens writer.old writer.new (key name.now ∷ number (decimal (place + 1)) ∷ [])) }
{
    writer.key(name)?;
    push_next(alloc, writer, place)
}

/// Writes a key, and bytes in upper-case hexadecimal digits or null.
pub(crate) fn push_optional_digits_field(
    alloc: Global,
    writer: &mut Writer,
    name: &str,
    bytes: Option<&[u8]>,
) -> Result<(), AllocError>
    ensures { OnOk result (AppendsTokens writer.old writer.new
        (key name.now
        ∷ json_tokens (optional_value in_digits (option_map (λ b. b.now) bytes.entry)))) }
{
    match bytes {
        Some(bytes) => push_digits_field(alloc, writer, name, bytes),
        None => push_optional_word_field(writer, name, None),
    }
}

/// Writes a key, and bytes in upper-case hexadecimal digits, two each.
pub(crate) fn push_digits_field(
    alloc: Global,
    writer: &mut Writer,
    name: &str,
    bytes: &[u8],
) -> Result<(), AllocError>
    ensures { OnOk result (AppendsTokens writer.old writer.new (key name.now ∷ string (encode_upper bytes.now) ∷ [])) }
{
    let digits = hex::encode_upper(alloc, bytes)?;
    push_word_field(writer, name, &digits)
}

/// Whether a byte is printed unescaped.
fn is_plain(byte: u8) -> bool
    ensures { result ≡ Rattle.fw_text.specs.Printing.is_plain byte }
{
    (b' '..=b'~').contains(&byte) && byte != b'"' && byte != b'\\'
}

/// Appends a byte of a text, escaped as between quotes.
fn push_escaped(alloc: Global, text: &mut String, byte: u8) -> Result<(), AllocError>
    ensures { OnOk result (string_bytes text.new ≡ string_bytes text.old ++ escaped_byte byte) }
{
    if is_plain(byte) {
        text.push(char::from(byte))?;
    } else {
        let digits = hex::encode_upper(alloc, &[byte])?;
        text.push_str("\\x")?;
        text.push_str(&digits)?;
    }
    Ok(())
}

/// A text, escaped as between quotes.
fn spelling(alloc: Global, bytes: &[u8]) -> Result<String, AllocError>
    ensures { IfOk result (λ text. string_bytes text ≡ flat_map escaped_byte bytes.now) }
{
    let mut text = String::new(alloc);
    for byte in bytes {
        push_escaped(alloc, &mut text, *byte)?;
    }
    Ok(text)
}

/// Writes a key, and a text escaped as between quotes.
pub(crate) fn push_text_field(
    alloc: Global,
    writer: &mut Writer,
    name: &str,
    bytes: &[u8],
) -> Result<(), AllocError>
    ensures { OnOk result (AppendsTokens writer.old writer.new (key name.now ∷ string (flat_map escaped_byte bytes.now) ∷ [])) }
{
    let text = spelling(alloc, bytes)?;
    push_word_field(writer, name, &text)
}

/// The line of the written value: its bytes, and a line feed.
pub(crate) fn line(writer: Writer) -> Result<Vec<u8>, AllocError>
    ensures bytes { IfOk result (λ text. text.items ≡ writer.before ++ print writer.tokens ++ 10 ∷ []) }
    ensures reads_back { tokens (print writer.tokens) ≡ writer.tokens }
{
    let mut text = writer.into_inner();
    text.push(b'\n')?;
    Ok(text)
}
