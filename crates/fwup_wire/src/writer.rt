//! Writes the fields of a message in order.

ghost use Rattle.std.specs.Prelude.{◌+◌, ◌++◌, ◌<◌, ◌≡◌, ◌≤◌, length};
ghost use Rattle.arrayvec.specs.ArrayVec.{array_vec_len};
ghost use Rattle.byteorder.specs.Endian.{little_bytes};
ghost use Rattle.fwup_wire.specs.Fields.{HasComponentWidths, component_bytes, text_bytes};
ghost use Rattle.fwup_wire.specs.Lent.{typed_text_of};

use crate::values::{Key, TypedText};
use byteorder::{ByteOrder, LittleEndian};
use pldm_base::{MAX_REPLY, Reply};

/// Appends a number of two bytes.
pub fn put_u16(out: &mut Reply, number: u16)
    requires { array_vec_len out.old + 2 ≤ MAX_REPLY }
    ensures bytes { out.new.items ≡ out.old.items ++ little_bytes 2 number }
    ensures width { number < 65536 }
{
    let mut bytes = [0; 2];
    LittleEndian::write_u16(&mut bytes, number);
    let _ = out.try_extend_from_slice(&bytes);
}

/// Appends a number of four bytes.
pub fn put_u32(out: &mut Reply, number: u32)
    requires { array_vec_len out.old + 4 ≤ MAX_REPLY }
    ensures { out.new.items ≡ out.old.items ++ little_bytes 4 number }
{
    let mut bytes = [0; 4];
    LittleEndian::write_u32(&mut bytes, number);
    let _ = out.try_extend_from_slice(&bytes);
}

/// Appends a key, an index and a comparison stamp.
pub fn put_component(out: &mut Reply, key: &Key, index: u8, stamp: u32)
    requires { array_vec_len out.old + 9 ≤ MAX_REPLY }
    ensures bytes { out.new.items ≡ out.old.items ++ component_bytes key.now index stamp }
    ensures widths { HasComponentWidths key.now stamp }
{
    put_u16(out, key.classification);
    put_u16(out, key.identifier);
    out.push(index);
    put_u32(out, stamp);
}

/// Appends a text: its type, its length and its bytes.
pub fn put_text(out: &mut Reply, text: &TypedText<'_>)
    requires room { array_vec_len out.old + 2 + length text.now.bytes.now ≤ MAX_REPLY }
    requires short { length text.now.bytes.now < 256 }
    ensures { out.new.items ≡ out.old.items ++ text_bytes (typed_text_of text.now) }
{
    out.push(text.text_type);
    out.push(text.bytes.len() as u8);
    let _ = out.try_extend_from_slice(text.bytes);
}
