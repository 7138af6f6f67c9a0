//! Packets of MCTP (DSP0236): a head of four bytes and a body of 1 byte to the transmission unit,
//! read and written exactly.
#![tactic(auto)]

mod codec;
mod fault;
mod laws;
mod layout;
mod unit;

pub use codec::{decode, encode};
pub use fault::WireFault;
pub use laws::reads_back;
pub use layout::{HEAD_SIZE, Head, MAX_BODY, MAX_PACKET, Packet, RawPacket, copy_of};
pub use unit::{MAX_MESSAGE, MAX_PACKETS, Unit};
