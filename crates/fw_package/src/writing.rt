//! Writes the header of a package.

ghost use Rattle.std.specs.Prelude.{◌≡◌, ◌+◌, ◌++◌, ◌∷◌, [], ◌<◌, ◌≤◌, All, None, length, map};
ghost use Rattle.std.specs.List.{flat_map, sum_by};
ghost use Rattle.arrayvec.specs.ArrayVec.{array_vec_len};
ghost use Rattle.byteorder.specs.Endian.{little_bytes};
ghost use Rattle.fw_package.specs.Asked.{asked_component_of, asked_package_of, asked_record_of, component_size, descriptor_size, header_size, record_size, refusal_of};
ghost use Rattle.fw_package.specs.Package.{descriptor_of};
ghost use Rattle.fw_package.specs.Views.{IsFit, IsRecordFit};
ghost use Rattle.fw_package.specs.Writing.{HasAskedComponentWidths, HasRecordWidths, HasAskedWidths, IsHeaderOf, body_bytes, component_bytes, components_bytes, descriptor_bytes, header_bytes, opening_bytes, record_bytes, record_head};

use crate::asked::{AskedComponent, AskedFault, AskedPackage, AskedRecord};
use crate::bitmaps::{bitmap_size, put_bitmap};
use crate::crc::crc32;
use crate::measures::{HEADER_LIMIT, header_size, record_size, refusal};
use crate::reading::{HEADER_REVISION, package_identifier};
use crate::texts::Descriptor;
use crate::uses::BYTE_BITS;
use arrayvec::ArrayVec;
use byteorder::{ByteOrder, LittleEndian};

/// The bytes of a header.
pub type Header = ArrayVec<u8, HEADER_LIMIT>;

/// The type of each written text: ASCII.
const ASCII: u8 = 1;

/// The package data's length: there is none.
const NO_DATA: u16 = 0;

/// Appends bytes.
fn put(header: &mut Header, bytes: &[u8])
    requires { array_vec_len header.old + length bytes.now ≤ 65535 }
    ensures { header.new.items ≡ header.old.items ++ bytes.now }
{
    let _ = header.try_extend_from_slice(bytes);
}

/// Appends a number of two bytes.
fn put_u16(header: &mut Header, number: u16)
    requires { array_vec_len header.old + 2 ≤ 65535 }
    ensures bytes { header.new.items ≡ header.old.items ++ little_bytes 2 number }
    ensures width { number < 65536 }
{
    let mut bytes = [0; 2];
    LittleEndian::write_u16(&mut bytes, number);
    put(header, &bytes);
}

/// Appends a number of four bytes.
fn put_u32(header: &mut Header, number: u32)
    requires { array_vec_len header.old + 4 ≤ 65535 }
    ensures bytes { header.new.items ≡ header.old.items ++ little_bytes 4 number }
    ensures width { number < 4294967296 }
{
    let mut bytes = [0; 4];
    LittleEndian::write_u32(&mut bytes, number);
    put(header, &bytes);
}

/// Appends the type and the length of a text.
fn put_text_head(header: &mut Header, text: &[u8])
    requires room { array_vec_len header.old + 2 ≤ 65535 }
    requires short { length text.now ≤ 255 }
    ensures { header.new.items ≡ header.old.items ++ 1 ∷ length text.now ∷ [] }
{
    header.push(ASCII);
    header.push(text.len() as u8);
}

/// Appends a descriptor: its type, its size and its data.
fn put_descriptor(header: &mut Header, descriptor: &Descriptor<'_>)
    requires { array_vec_len header.old + descriptor_size (descriptor_of descriptor.now) ≤ 65535 }
    ensures bytes { header.new.items ≡ header.old.items ++ descriptor_bytes (descriptor_of descriptor.now) }
    ensures width { descriptor.now.kind < 65536 }
{
    put_u16(header, descriptor.kind);
    put_u16(header, descriptor.bytes.len() as u16);
    put(header, descriptor.bytes);
}

/// Appends descriptors.
fn put_descriptors(header: &mut Header, descriptors: &[Descriptor<'_>])
    requires { array_vec_len header.old + sum_by descriptor_size (map descriptor_of descriptors.now) ≤ 65535 }
    ensures bytes { header.new.items ≡ header.old.items ++ flat_map descriptor_bytes (map descriptor_of descriptors.now) }
    ensures widths { All (λ d. d.kind < 65536) (map descriptor_of descriptors.now) }
{
    for descriptor in descriptors {
        put_descriptor(header, descriptor);
    }
}

/// Appends a record with a bitmap of `bitmap_size` bytes.
fn put_record(header: &mut Header, asked: &AskedRecord<'_>, bitmap_size: usize)
    requires room { array_vec_len header.old + record_size bitmap_size (asked_record_of asked.now) ≤ 65535 }
    requires small { bitmap_size ≤ 8192 }
    requires fit { IsRecordFit (asked_record_of asked.now) }
    ensures bytes { header.new.items ≡ header.old.items ++ record_bytes bitmap_size (asked_record_of asked.now) }
    ensures widths { HasRecordWidths (asked_record_of asked.now) }
{
    put_record_head(header, asked, bitmap_size);
    put_bitmap(header, bitmap_size, asked.uses);
    put(header, asked.set_text);
    put_descriptors(header, asked.descriptors);
}

/// Appends a record's fields before its bitmap.
fn put_record_head(header: &mut Header, asked: &AskedRecord<'_>, bitmap_size: usize)
    requires room { array_vec_len header.old + 11 ≤ 65535 }
    requires small { record_size bitmap_size (asked_record_of asked.now) ≤ 65535 }
    requires fit { IsRecordFit (asked_record_of asked.now) }
    ensures bytes { header.new.items ≡ header.old.items ++ record_head bitmap_size (asked_record_of asked.now) }
    ensures width { asked.now.flags < 4294967296 }
{
    put_u16(header, record_size(asked, bitmap_size) as u16);
    header.push(asked.descriptors.len() as u8);
    put_u32(header, asked.flags);
    put_text_head(header, asked.set_text);
    put_u16(header, NO_DATA);
}

/// Appends records with bitmaps of `bitmap_size` bytes.
fn put_records(header: &mut Header, records: &[AskedRecord<'_>], bitmap_size: usize)
    requires room { array_vec_len header.old + sum_by (record_size bitmap_size) (map asked_record_of records.now) ≤ 65535 }
    requires small { bitmap_size ≤ 8192 }
    requires fit { All IsRecordFit (map asked_record_of records.now) }
    ensures bytes { header.new.items ≡ header.old.items ++ flat_map (record_bytes bitmap_size) (map asked_record_of records.now) }
    ensures widths { All HasRecordWidths (map asked_record_of records.now) }
{
    for asked in records {
        put_record(header, asked, bitmap_size);
    }
}

/// Appends a component whose image is at this offset.
fn put_component(header: &mut Header, asked: &AskedComponent<'_>, offset: usize)
    requires room { array_vec_len header.old + component_size (asked_component_of asked.now) ≤ 65535 }
    requires short { length asked.now.text.now ≤ 255 }
    requires inside { offset + asked.now.size ≤ 4294967295 }
    ensures bytes { header.new.items ≡ header.old.items ++ component_bytes offset (asked_component_of asked.now) }
    ensures widths { HasAskedComponentWidths (asked_component_of asked.now) }
{
    put_u16(header, asked.classification);
    put_u16(header, asked.identifier);
    put_u32(header, asked.stamp);
    put_u16(header, asked.options);
    put_u16(header, asked.method);
    put_u32(header, offset as u32);
    put_u32(header, asked.size as u32);
    put_text_head(header, asked.text);
    put(header, asked.text);
}

/// Appends components. The image of the first is at this offset, each other after the one before
/// it.
fn put_components(header: &mut Header, components: &[AskedComponent<'_>], start: usize)
    requires room { array_vec_len header.old + sum_by component_size (map asked_component_of components.now) ≤ 65535 }
    requires short { All (λ c. length c.text ≤ 255) (map asked_component_of components.now) }
    requires inside { start + sum_by (λ c. c.size) (map asked_component_of components.now) ≤ 4294967295 }
    ensures bytes { header.new.items ≡ header.old.items ++ components_bytes start (map asked_component_of components.now) }
    ensures widths { All HasAskedComponentWidths (map asked_component_of components.now) }
{
    let mut offset = start;
    for asked in components {
        put_component(header, asked, offset);
        offset += asked.size;
    }
}

/// Appends the fixed part and the version text.
fn put_opening(header: &mut Header, asked: &AskedPackage<'_>)
    requires room { array_vec_len header.old + 36 + length asked.now.version.now ≤ 65535 }
    requires fit { IsFit (asked_package_of asked.now) }
    ensures bytes { header.new.items ≡ header.old.items ++ opening_bytes (asked_package_of asked.now) }
    ensures release { length asked.now.release ≡ 13 }
{
    let bitmap_size = bitmap_size(asked.components.len());
    put(header, package_identifier().as_bytes());
    header.push(HEADER_REVISION);
    put_u16(header, header_size(asked) as u16);
    put(header, &asked.release);
    put_u16(header, (BYTE_BITS * bitmap_size) as u16);
    put_text_head(header, asked.version);
    put(header, asked.version);
}

/// Appends the header's bytes before its checksum.
fn put_body(header: &mut Header, asked: &AskedPackage<'_>)
    requires empty { array_vec_len header.old ≡ 0 }
    requires fit { IsFit (asked_package_of asked.now) }
    ensures bytes { header.new.items ≡ body_bytes (asked_package_of asked.now) }
    ensures widths { HasAskedWidths (asked_package_of asked.now) }
{
    put_opening(header, asked);
    header.push(asked.records.len() as u8);
    put_records(header, asked.records, bitmap_size(asked.components.len()));
    put_u16(header, asked.components.len() as u16);
    put_components(header, asked.components, header_size(asked));
}

impl<'a> AskedPackage<'a> {
    ghost use Rattle.std.specs.Prelude.{IfErr, IsOk, OnErr, OnOk, Some};

    /// Writes the header of the package. The file is the header, and after it the images in the
    /// order of their components.
    ///
    /// # Errors
    /// The first fault that holds. Then the buffer is unchanged.
    pub fn write_header(&self, header: &mut Header) -> Result<(), AskedFault>
        ensures written { refusal_of (asked_package_of self.now) ≡ None → IsOk result }
        ensures refused { IfErr result (λ fault. refusal_of (asked_package_of self.now) ≡ Some fault) }
        ensures bytes { OnOk result (header.new.items ≡ header_bytes (asked_package_of self.now)) }
        ensures package { OnOk result (IsHeaderOf (asked_package_of self.now) header.new.items) }
        ensures kept { OnErr result (header.new ≡ header.old) }
    {
        if let Some(fault) = refusal(self) {
            return Err(fault);
        }
        header.clear();
        put_body(header, self);
        let checksum = crc32(header.as_slice());
        put_u32(header, checksum);
        Ok(())
    }
}
