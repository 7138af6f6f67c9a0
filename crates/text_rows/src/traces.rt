//! The lines of packets: tables of packets with their expected lines, and random bytes.

mod answers;
mod bases;
mod commands;
mod decoded;
mod memory;
mod packets;
mod randoms;
mod rows;
mod update;
