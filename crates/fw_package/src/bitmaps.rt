//! Writes the bitmap of a record.

ghost use Rattle.std.specs.Prelude.{◌≡◌, ◌+◌, ◌++◌, ◌≤◌, ◌<◌};
ghost use Rattle.std.specs.List.Sorted.{IsStrictlyIncreasing};
ghost use Rattle.arrayvec.specs.ArrayVec.{array_vec_len};
ghost use Rattle.fw_package.specs.Asked.{are_uses, bitmap_size_for};
ghost use Rattle.fw_package.specs.Writing.{bitmap_byte, bitmap_of, is_used};

use crate::uses::BYTE_BITS;
use crate::writing::Header;

/// Returns the bytes of a bitmap for `count` components: one bit each, and at least one byte.
pub fn bitmap_size(count: usize) -> usize
    ensures { result ≡ bitmap_size_for count }
{
    count.div_ceil(BYTE_BITS).max(1)
}

/// Returns whether the numbers rise and each is below the count.
pub fn are_uses(uses: &[u16], count: usize) -> bool
    ensures { result ≡ are_uses count 0 uses.now }
{
    let mut from = 0;
    for number in uses {
        let number = usize::from(*number);
        if number < from || number >= count {
            return false;
        }
        from = number + 1;
    }
    true
}

/// Appends a bitmap of `size` bytes for the components `uses`.
#[tactic(auto, using(crate::proofs::Bits::placing))]
pub fn put_bitmap(header: &mut Header, size: usize, uses: &[u16])
    requires room { array_vec_len header.old + size ≤ 65535 }
    requires small { size ≤ 8192 }
    requires rising { IsStrictlyIncreasing uses.now }
    ensures { header.new.items ≡ header.old.items ++ bitmap_of size uses.now }
{
    for place in 0..size {
        header.push(bitmap_byte(uses, place));
    }
}

/// Returns the byte of a bitmap at this place.
#[tactic(auto, using(crate::proofs::Bits::byte_bits))]
fn bitmap_byte(uses: &[u16], place: usize) -> u8
    requires small { place < 8192 }
    requires rising { IsStrictlyIncreasing uses.now }
    ensures { result ≡ bitmap_byte uses.now place }
{
    let mut byte = 0;
    for bit in 0..BYTE_BITS {
        let number = place * BYTE_BITS + (BYTE_BITS - 1 - bit);
        byte = byte * 2 + u8::from(is_used(uses, number as u16));
    }
    byte
}

/// Returns whether a component is in the list.
#[tactic(auto, using(crate::proofs::Bits::used_found))]
fn is_used(uses: &[u16], number: u16) -> bool
    requires { IsStrictlyIncreasing uses.now }
    ensures { result ≡ is_used uses.now number }
{
    uses.binary_search(&number).is_ok()
}
