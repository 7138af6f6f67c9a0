//! The socket of a device.

use crate::connection::Connection;
use fw_process::Line;
use mctp_wire::RawPacket;
use std::fs;
use std::io::{self, ErrorKind};
use std::os::unix::net::{UnixListener, UnixStream};

/// The number of connections that are accepted in a round.
const MOST_ACCEPTED: u32 = 16;

/// The socket of a device, at a name. The agent connects to it; the newest connection replaces an
/// older one.
#[derive(Drop)]
pub struct DeviceSockets {
    listener: UnixListener,
    connection: Option<Connection<UnixStream>>,
}

/// Whether a process listens at a name.
fn is_listened_at(rt: &HostRuntime, path: &str) -> bool {
    UnixStream::connect(rt, path).is_ok()
}

impl DeviceSockets {
    /// Listens at a name. With `takes_over`, a name at which nobody listens is removed first.
    ///
    /// # Errors
    /// The name is there already (`AddrInUse`), or the socket can't be made.
    pub fn listen(rt: &HostRuntime, path: &str, takes_over: bool) -> io::Result<DeviceSockets> {
        if takes_over && !is_listened_at(rt, path) {
            let _ = fs::remove_file(rt, path);
        }
        let listener = UnixListener::bind(rt, path)?;
        listener.set_nonblocking(true)?;
        Ok(DeviceSockets {
            listener,
            connection: None,
        })
    }

    /// Accepts the connections that wait.
    fn accept(&mut self) {
        for _ in 0..MOST_ACCEPTED {
            let Ok((stream, _)) = self.listener.accept() else {
                return;
            };
            if stream.set_nonblocking(true).is_ok() {
                self.connection = Some(Connection::new(stream));
            }
        }
    }
}

impl Line for DeviceSockets {
    fn begin_round(&mut self, _unit: u32) {
        self.accept();
    }

    fn receive(&mut self, packet: &mut RawPacket) -> Option<u32> {
        let connection = self.connection.as_mut()?;
        let stamp = connection.receive(packet);
        if !connection.is_open() {
            self.connection = None;
        }
        stamp
    }

    fn send(&mut self, unit: u32, packet: &RawPacket) {
        let Some(connection) = &mut self.connection else {
            return;
        };
        connection.send(unit, packet);
        if !connection.is_open() {
            self.connection = None;
        }
    }
}
