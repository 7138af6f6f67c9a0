//! Pieces of an image, as they are sent.

ghost use Rattle.std.specs.Prelude.{◌≡◌, ◌≤◌, ◌-◌, ◌++◌, drop, length as length_of, replicate};
ghost use Rattle.ua_core.specs.Serve.{window};

use arrayvec::ArrayVec;
use fwup_wire::MAX_TRANSFER;

/// Returns `length` bytes of an image from `offset` on, with zeros past its end.
pub fn piece(image: &[u8], offset: usize, length: usize) -> ArrayVec<u8, MAX_TRANSFER>
    requires { length ≤ MAX_TRANSFER }
    ensures { result.items ≡ window image.now offset length }
{
    let rest = from(image, offset);
    let mut piece = ArrayVec::new();
    let _ = piece.try_extend_from_slice(&rest[..rest.len().min(length)]);
    pad(&mut piece, length);
    piece
}

/// Returns the bytes from an offset on.
fn from(bytes: &[u8], offset: usize) -> &[u8]
    ensures { result.now ≡ drop offset bytes.now }
{
    if bytes.len() < offset {
        return &[];
    }
    &bytes[offset..]
}

/// Appends zeros up to `length` bytes.
#[tactic(auto, using(crate::proofs::Padding::one_more_zero))]
fn pad(piece: &mut ArrayVec<u8, MAX_TRANSFER>, length: usize)
    requires most { length ≤ MAX_TRANSFER }
    requires more { length_of piece.old.items ≤ length }
    ensures { piece.new.items ≡ piece.old.items ++ replicate (length - length_of piece.old.items) 0 }
{
    let missing = length - piece.len();
    for _added in 0..missing {
        piece.push(0);
    }
}
