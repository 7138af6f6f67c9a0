//! The agent's connections to the sockets of its devices.

use crate::connection::Connection;
use fw_process::Line;
use mctp_wire::RawPacket;
use std::alloc::{AllocError, Global};
use std::os::unix::net::UnixStream;

/// A device, the name of its socket, and the connection to it, if there is one.
#[derive(Drop)]
struct Peer {
    eid: u8,
    path: String,
    connection: Option<Connection<UnixStream>>,
}

/// Connects to a name, if a process listens there.
fn connect(rt: &HostRuntime, path: &str) -> Option<Connection<UnixStream>> {
    let Ok(stream) = UnixStream::connect(rt, path) else {
        return None;
    };
    match stream.set_nonblocking(true) {
        Ok(()) => Some(Connection::new(stream)),
        Err(_) => None,
    }
}

impl Peer {
    /// Connects to the device, if there is no connection.
    fn connect(&mut self, rt: &HostRuntime) {
        if self.connection.is_none() {
            self.connection = connect(rt, &self.path);
        }
    }

    /// Ends a connection that isn't open.
    fn end_closed(&mut self) {
        let is_open = match &self.connection {
            Some(connection) => connection.is_open(),
            None => return,
        };
        if !is_open {
            self.connection = None;
        }
    }

    /// The next packet that came from the device.
    fn receive(&mut self, packet: &mut RawPacket) -> Option<u32> {
        let stamp = self.connection.as_mut()?.receive(packet);
        self.end_closed();
        stamp
    }

    /// Sends a packet to the device.
    fn send(&mut self, unit: u32, packet: &RawPacket) {
        if let Some(connection) = &mut self.connection {
            connection.send(unit, packet);
        }
        self.end_closed();
    }
}

/// The agent's connections to the sockets of its devices, `EID.sock` in a folder. In each round it
/// connects where there is no connection.
#[derive(Drop)]
pub struct AgentSockets<'a> {
    rt: &'a HostRuntime,
    peers: Vec<Peer>,
    /// The place of the device whose packets are asked for next.
    next: usize,
}

impl<'a> AgentSockets<'a> {
    /// Creates the connections to devices with these endpoint identifiers.
    ///
    /// # Errors
    /// `AllocError` if memory for them is refused.
    pub fn new(
        rt: &'a HostRuntime,
        alloc: Global,
        folder: &str,
        eids: &[u8],
    ) -> Result<AgentSockets<'a>, AllocError> {
        let mut peers = Vec::new(alloc);
        for eid in eids {
            let Ok(path) = format!(in alloc; "{folder}/{eid}.sock") else {
                return Err(AllocError);
            };
            peers.push(Peer {
                eid: *eid,
                path,
                connection: None,
            })?;
        }
        Ok(AgentSockets { rt, peers, next: 0 })
    }
}

impl<'a> Line for AgentSockets<'a> {
    fn begin_round(&mut self, _unit: u32) {
        for peer in self.peers.as_mut_slice() {
            peer.connect(self.rt);
        }
    }

    fn receive(&mut self, packet: &mut RawPacket) -> Option<u32> {
        for _ in 0..self.peers.len() {
            if self.next >= self.peers.len() {
                self.next = 0;
            }
            let stamp = self.peers[self.next].receive(packet);
            if stamp.is_some() {
                return stamp;
            }
            self.next += 1;
        }
        None
    }

    fn send(&mut self, unit: u32, packet: &RawPacket) {
        let Some(to) = packet.get(1) else {
            return;
        };
        for peer in self.peers.as_mut_slice() {
            if peer.eid == *to {
                peer.send(unit, packet);
            }
        }
    }
}
