//! The frame check sequence (DSP0253): the 16-bit FCS of RFC 1662, not complemented.

ghost use Rattle.std.specs.Prelude.{◌≡◌, ◌<◌, length};
ghost use Rattle.mctp_serial.specs.Check.{check_after, check_after_bit, check_after_byte, check_of};

/// The polynomial of RFC 1662, with its bits reflected.
const POLYNOMIAL: u16 = 0x8408;

/// The value with which a check sequence begins.
const START: u16 = 0xFFFF;

/// Returns the check sequence after one bit.
#[tactic(auto, unfolding(crate::specs::Check::check_after_bit))]
fn after_bit(check: u16) -> u16
    ensures { result ≡ check_after_bit check }
{
    if check % 2 == 1 {
        (check / 2) ^ POLYNOMIAL
    } else {
        check / 2
    }
}

/// Returns the check sequence after one byte.
#[tactic(auto, unfolding(crate::specs::Check::check_after_byte))]
fn after_byte(check: u16, byte: u8) -> u16
    ensures { result ≡ check_after_byte check byte }
{
    let mixed = check ^ u16::from(byte);
    let half = after_bit(after_bit(after_bit(after_bit(mixed))));
    after_bit(after_bit(after_bit(after_bit(half))))
}

/// Returns the check sequence after `bytes`.
#[tactic(auto, using(crate::proofs::Steps::steps))]
fn after(start: u16, bytes: &[u8]) -> u16
    ensures { result ≡ check_after start bytes.now }
{
    let mut check = start;
    for byte in bytes {
        check = after_byte(check, *byte);
    }
    check
}

/// Returns the check sequence of a packet's frame.
#[tactic(auto, unfolding(crate::specs::Check::check_after))]
pub(crate) fn check_of(packet: &[u8]) -> u16
    requires { length packet.now < 256 }
    ensures { result ≡ check_of packet.now }
{
    let revision = after_byte(START, 1);
    let count = after_byte(revision, packet.len() as u8);
    after(count, packet)
}
