//! Device identification records, with their devices' descriptors and their components.

ghost use Rattle.std.specs.Iterator.{YieldsFirstBy, item_count};
ghost use Rattle.std.specs.Prelude.{◌≡◌, ◌≤◌, length, map, take, drop, IfSome, IsSome, ◌<◌};
ghost use Rattle.std.specs.List.{position};
ghost use Rattle.byteorder.specs.Endian.{little_number};
ghost use Rattle.std.specs.Result.{result_map_both};
ghost use Rattle.fw_package.specs.Choice.{is_for};
ghost use Rattle.fw_package.specs.Lent.{record_seen};
ghost use Rattle.fw_package.specs.Package.{descriptor_of};
ghost use Rattle.fw_package.specs.Records.{record_of, records_of};
ghost use Rattle.fw_package.specs.Layout.{after_records};

use crate::descriptors::{Descriptors, split};
use crate::fault::PackageFault;
use crate::layout::skip_records;
use crate::numbers::{u16_at, u32_at};
use crate::texts::{Descriptor, Text};
use crate::uses::Uses;
use byteorder::{ByteOrder, LittleEndian};
use std::marker::Model;

/// The bytes of a record before its bitmap.
pub(crate) const HEAD_SIZE: usize = 11;

/// The place of the descriptor count, after the record length.
const DESCRIPTOR_COUNT: usize = 2;

/// The place of the option flags.
const FLAGS: usize = 3;

/// The place of the set text's type.
const TEXT_TYPE: usize = 7;

/// The place of the set text's length.
const TEXT_LENGTH: usize = 8;

/// The place of the package data's length.
const DATA_LENGTH: usize = 9;

/// A device identification record, borrowed from its package's header.
#[derive(Drop)]
pub struct Record<'a> {
    /// The update option flags.
    pub flags: u32,
    /// The component image set version text.
    pub set_text: Text<'a>,
    /// The descriptors of its devices.
    pub descriptors: Descriptors<'a>,
    /// The numbers of the components that it uses, counted from 0.
    pub uses: Uses<'a>,
}

impl<'a> Record<'a> {
    /// Reads the record with exactly these bytes.
    ///
    /// # Errors
    /// `RecordLength` if its parts don't make up the bytes.
    #[tactic(auto, unfolding(crate::specs::Records::record_of))]
    pub(crate) fn read(
        bytes: &'a [u8],
        bitmap_size: usize,
        component_count: u16,
    ) -> Result<Record<'a>, PackageFault>
        ensures { result_map_both record_seen (λ e. e) result ≡ record_of bitmap_size component_count bytes.now }
    {
        let (head, rest) = split(bytes, HEAD_SIZE)?;
        let (bitmap, rest) = split(rest, bitmap_size)?;
        let (text, rest) = split(rest, usize::from(head[TEXT_LENGTH]))?;
        let (descriptors, rest) = Descriptors::read(rest, head[DESCRIPTOR_COUNT])?;
        if rest.len() != usize::from(u16_at(head, DATA_LENGTH)) {
            return Err(PackageFault::RecordLength);
        }
        Ok(Record {
            flags: u32_at(head, FLAGS),
            set_text: Text {
                kind: head[TEXT_TYPE],
                bytes: text,
            },
            descriptors,
            uses: Uses::new(bitmap, component_count),
        })
    }

    /// Returns whether the record is for the device with these descriptors: it has a descriptor,
    /// and all of its descriptors are the device's.
    pub(crate) fn is_for(self, device: &[Descriptor<'_>]) -> bool
        ensures { result ≡ is_for (map descriptor_of device.now) (record_seen self.entry) }
    {
        !self.descriptors.is_empty() && self.descriptors.are_among(device)
    }
}

/// The records of a package, in order. It is also an iterator over them.
#[derive(Drop)]
pub struct Records<'a> {
    count: usize,
    rest: &'a [u8],
    bitmap_size: usize,
    component_count: u16,
}

impl<'a> Model for Records<'a> {
    ghost use Rattle.std.specs.Prelude.{List};
    ghost use Rattle.fw_package.specs.Package.{RecordOf};
    ghost use Rattle.fw_package.specs.Records.{records_of};
    ghost use Rattle.fw_package.specs.Views.{AreRecords, list_or_empty};

    ghost Value = { List RecordOf };

    ghost view = { λ r. list_or_empty (records_of r.bitmap_size r.component_count r.count r.rest.now) };

    ghost invariant = { λ r. AreRecords r.bitmap_size r.component_count r.count r.rest.now };
}

impl<'a> Records<'a> {
    /// Reads `count` records, the first at the beginning of these bytes.
    ///
    /// # Errors
    /// `RecordLength` if the parts of one don't make up its length.
    #[tactic(auto, using(crate::proofs::Rows::recording))]
    pub(crate) fn read(
        bytes: &'a [u8],
        count: usize,
        bitmap_size: usize,
        component_count: u16,
    ) -> Result<Records<'a>, PackageFault>
        requires { IsSome (after_records count bytes.now) }
        ensures { result ≡ records_of bitmap_size component_count count bytes.now }
    {
        let mut rest = bytes;
        for _record in 0..count {
            let (piece, after) = first_record(rest);
            let _ = Record::read(piece, bitmap_size, component_count)?;
            rest = after;
        }
        Ok(Records {
            count,
            rest: bytes,
            bitmap_size,
            component_count,
        })
    }

    /// Returns the number of records left.
    #[tactic(auto, using(crate::proofs::Rows::records_count))]
    pub fn len(&self) -> usize
        ensures { result ≡ length self.now }
    {
        self.count
    }

    /// Returns an iterator over the records.
    pub fn iter(&self) -> Records<'a>
        ensures { result ≡ self.now }
    {
        Records {
            count: self.count,
            rest: self.rest,
            bitmap_size: self.bitmap_size,
            component_count: self.component_count,
        }
    }

    /// Returns the records from this number on. The records before it are skipped by their lengths.
    #[tactic(auto, using(crate::proofs::Rows::records_starting))]
    pub(crate) fn from(&self, number: usize) -> Records<'a>
        requires { number ≤ length self.now }
        ensures { result ≡ drop number self.now }
    {
        let Some(rest) = skip_records(self.rest, number) else {
            unreachable!()
        };
        Records {
            count: self.count - number,
            rest,
            bitmap_size: self.bitmap_size,
            component_count: self.component_count,
        }
    }

    /// Returns the number, among the records left, of the first record for the device with these
    /// descriptors.
    pub(crate) fn position_for(mut self, device: &[Descriptor<'_>]) -> Option<usize>
        ensures number { result ≡ position (is_for (map descriptor_of device.now)) self.entry }
        ensures there { IfSome result (λ n. n < length self.entry) }
    {
        for number in 0..self.count {
            let Some(record) = self.next() else {
                return None;
            };
            if record.is_for(device) {
                return Some(number);
            }
        }
        None
    }
}

impl<'a> Iterator for Records<'a> {
    type Item = Record<'a>;

    ghost next_gives = { YieldsFirstBy record_seen (λ left. left) };

    ghost remaining = { item_count (λ left. left) };

    #[tactic(auto, using(crate::proofs::Rows::records_next))]
    fn next(&mut self) -> Option<Record<'a>> {
        if self.count == 0 {
            return None;
        }
        let (piece, rest) = first_record(self.rest);
        let Ok(record) = Record::read(piece, self.bitmap_size, self.component_count) else {
            unreachable!()
        };
        *self = Records {
            count: self.count - 1,
            rest,
            bitmap_size: self.bitmap_size,
            component_count: self.component_count,
        };
        Some(record)
    }
}

/// Returns the first record's bytes, by its length, and the bytes after them.
fn first_record(bytes: &[u8]) -> (&[u8], &[u8])
    requires long { 2 ≤ length bytes.now }
    requires whole { little_number 2 bytes.now ≤ length bytes.now }
    ensures record { result.0.now ≡ take (little_number 2 bytes.now) bytes.now }
    ensures others { result.1.now ≡ drop (little_number 2 bytes.now) bytes.now }
{
    bytes.split_at(usize::from(LittleEndian::read_u16(bytes)))
}
