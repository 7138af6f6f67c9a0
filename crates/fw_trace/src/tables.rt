//! The text of bytes by a table of their fields. Each function's only error is `AllocError`.

ghost use Rattle.std.specs.Prelude.{◌≡◌, OnOk, map, true};
ghost use Rattle.fw_text.specs.Printing.{AppendsText};
ghost use Rattle.fw_trace.specs.Tables.{answer_body_text, field_of, field_size, field_text, fields_text, is_table_of, table_text};

use crate::names::{CodeTable, code_name};
use crate::pieces::{push_byte, push_digits, push_name, push_rest};
use pldm_base::completion::SUCCESS;
use std::alloc::{AllocError, Global};

/// How a field is printed.
#[derive(Clone, Copy)]
pub enum Form {
    /// One byte, in decimal digits.
    Number,
    /// One byte, in two hexadecimal digits.
    Byte,
    /// This number of bytes, in hexadecimal digits.
    Digits(usize),
    /// A handle of four bytes, lowest first: in hexadecimal digits, highest byte first.
    Handle,
    /// All bytes that are left, in hexadecimal digits.
    Rest,
    /// A byte with the number of items, and the items, of this number of bytes each.
    List(u8),
}

/// A field: the word before it, and its form.
pub type Field = (&'static str, Form);

/// Returns the size of a field, by the bytes from its first on.
fn field_size(form: Form, bytes: &[u8]) -> usize
    ensures { result ≡ field_size form bytes.now }
{
    match (form, bytes) {
        (Form::Number | Form::Byte, _) => 1,
        (Form::Digits(size), _) => size,
        (Form::Handle, _) => 4,
        (Form::Rest, _) => bytes.len(),
        (Form::List(_), []) => 0,
        (Form::List(size), [count, ..]) => usize::from(size) * usize::from(*count) + 1,
    }
}

/// Whether the fields take exactly these bytes.
fn is_table_of(fields: &[Field], bytes: &[u8]) -> bool
    ensures { result ≡ is_table_of (map field_of fields.now) bytes.now }
{
    let mut left = bytes;
    for (_, form) in fields {
        let size = field_size(*form, left);
        if left.len() < size {
            return false;
        }
        let (_, rest) = left.split_at(size);
        left = rest;
    }
    left.is_empty()
}

/// Appends a field, given its bytes.
fn push_field(
    alloc: Global,
    text: &mut Vec<u8>,
    field: Field,
    bytes: &[u8],
) -> Result<(), AllocError>
    ensures { OnOk result (AppendsText text.old.items text.new.items (field_text (field_of field.entry) bytes.now)) }
{
    let (word, form) = field;
    match (form, bytes) {
        (Form::Number, [number]) => push_byte(alloc, text, word, *number),
        (Form::Handle, [h0, h1, h2, h3]) => push_digits(alloc, text, word, &[*h3, *h2, *h1, *h0]),
        (Form::List(_), []) => Ok(()),
        (Form::List(_), [count, items @ ..]) => {
            push_byte(alloc, text, word, *count)?;
            push_rest(alloc, text, items)
        }
        _ => push_digits(alloc, text, word, bytes),
    }
}

/// Appends each field, of bytes that are exactly the fields'.
#[tactic(auto, using(fw_text::proofs::Chains::telling))]
fn push_fields(
    alloc: Global,
    text: &mut Vec<u8>,
    fields: &[Field],
    bytes: &[u8],
) -> Result<(), AllocError>
    requires { is_table_of (map field_of fields.now) bytes.now ≡ true }
    ensures { OnOk result (AppendsText text.old.items text.new.items (fields_text (map field_of fields.now) bytes.now)) }
{
    let mut left = bytes;
    for field in fields {
        let (part, rest) = left.split_at(field_size(field.1, left));
        push_field(alloc, text, *field, part)?;
        left = rest;
    }
    Ok(())
}

/// Appends bytes by a table of their fields, or their digits if they aren't exactly its fields.
pub fn push_by_table(
    alloc: Global,
    text: &mut Vec<u8>,
    fields: &[Field],
    bytes: &[u8],
) -> Result<(), AllocError>
    ensures { OnOk result (AppendsText text.old.items text.new.items (table_text (map field_of fields.now) bytes.now)) }
{
    if is_table_of(fields, bytes) {
        push_fields(alloc, text, fields, bytes)
    } else {
        push_rest(alloc, text, bytes)
    }
}

/// Appends an answer's code and, by the table of a success, the bytes after it.
pub fn push_answer_body(
    alloc: Global,
    text: &mut Vec<u8>,
    codes: CodeTable,
    fields: &[Field],
    body: &[u8],
) -> Result<(), AllocError>
    ensures { OnOk result (AppendsText text.old.items text.new.items (answer_body_text codes (map field_of fields.now) body.now)) }
{
    let [code, rest @ ..] = body else {
        return Ok(());
    };
    push_name(alloc, text, code_name(codes, *code), *code)?;
    if *code == SUCCESS {
        push_by_table(alloc, text, fields, rest)?;
    } else {
        push_rest(alloc, text, rest)?;
    }
    Ok(())
}
