//! Links over Unix sockets.

ghost use Rattle.std.specs.Prelude.{◌==◌, ◌≡◌, IfOk, string_bytes, true};
ghost use Rattle.fwupd_jobs.specs.Sockets.{socket_path};
ghost use Rattle.mctp_wire.specs.Units.{bytes_of};

use crate::read_ahead::ReadAhead;
use crate::socket_names::{SocketNames, SystemNames};
use crate::write_behind::WriteBehind;
use fw_edge::StreamLink;
use fwupd_nodes::Wires;
use fwupd_watch::{Explaining, JobFault};
use mctp_wire::Unit;
use std::alloc::{AllocError, Global};
use std::io;
use std::os::unix::net::{UnixListener, UnixStream};

/// Unix sockets in folders. The socket of a device is named `EID.sock`; the name is removed when
/// both ends are connected.
#[derive(Drop)]
pub struct Sockets<'a> {
    rt: &'a HostRuntime,
    names: SystemNames<'a>,
    /// The path of the socket that couldn't be made last, and the error.
    refused: Option<(String, io::Error)>,
}

/// A socket with buffered reads, whose writes are held back until the other end is read.
pub(crate) type Socket = ReadAhead<WriteBehind<UnixStream>>;

/// A link over sockets.
pub(crate) type SocketLink = StreamLink<Socket>;

/// The path of the socket of a device in a folder.
pub(crate) fn socket_path(alloc: Global, folder: &str, device: u8) -> Result<String, AllocError>
    ensures { IfOk result (λ path. string_bytes path ≡ socket_path folder.now device) }
{
    match format!(in alloc; "{folder}/{device}.sock") {
        Ok(path) => Ok(path),
        Err(_) => Err(AllocError),
    }
}

/// The buffered end of a connection.
fn end(alloc: Global, stream: UnixStream) -> io::Result<Socket> {
    ReadAhead::new(alloc, WriteBehind::new(alloc, stream)?)
}

/// Connects a socket to itself, as a link.
fn connected<N: SocketNames>(
    alloc: Global,
    names: &mut N,
    unit: Unit,
    listener: &UnixListener,
    path: &str,
) -> io::Result<SocketLink>
    ensures unit { IfOk result (λ link. link.unit ≡ unit) }
    ensures names { N.taken names.new ≡ N.taken names.old }
{
    let (agent, device) = names.connect(listener, path)?;
    Ok(StreamLink::new(unit, end(alloc, agent)?, end(alloc, device)?))
}

/// Makes a socket at this path, and a link over it to itself. The path exists only meanwhile.
///
/// # Errors
/// The path exists already, or the socket can't be made. Nothing of the socket remains then.
#[tactic(auto, using(crate::proofs::Names::given_back))]
fn socket_link<N: SocketNames>(
    alloc: Global,
    names: &mut N,
    unit: Unit,
    path: &str,
) -> io::Result<SocketLink>
    ensures unit { IfOk result (λ link. link.unit ≡ unit) }
    ensures names { N.taken names.new ≡ N.taken names.old }
{
    let listener = names.bind(path)?;
    let link = connected(alloc, names, unit, &listener, path);
    names.release(path);
    link
}

/// Prints why a socket couldn't be made.
pub(crate) fn explain_socket(explaining: Explaining<'_>, path: &str, error: &io::Error) {
    let rt = explaining.runtime();
    let _ = match error.kind() {
        io::ErrorKind::AddrInUse => eprintln!(rt;
            "{path}: this name is taken, as a run that was killed leaves it: remove it unless another run goes on"
        ),
        _ => eprintln!(rt; "{path}: {error}"),
    };
}

impl<'a> Sockets<'a> {
    /// Creates the sockets of a runtime.
    pub fn new(rt: &'a HostRuntime) -> Sockets<'a> {
        Sockets {
            rt,
            names: SystemNames::new(rt),
            refused: None,
        }
    }

    /// Prints on standard error, where faults are explained, why a socket couldn't be made, if one
    /// couldn't.
    pub fn explain(&self) {
        if let Some((path, error)) = &self.refused
            && let Some(explaining) = Explaining::find(self.rt)
        {
            explain_socket(explaining, path, error);
        }
    }
}

impl<'a> Wires<SocketLink> for Sockets<'a> {
    ghost lacks = { λ s folder device. true };

    ghost is_to = { λ unit folder device link. bytes_of link.unit == bytes_of unit };

    fn open(&mut self, unit: Unit, folder: &str, device: u8) -> Result<SocketLink, JobFault> {
        let Ok(path) = socket_path(self.rt.alloc(), folder, device) else {
            return Err(JobFault::Memory);
        };
        match socket_link(self.rt.alloc(), &mut self.names, unit, &path) {
            Ok(link) => Ok(link),
            Err(error) if error.kind() == io::ErrorKind::OutOfMemory => Err(JobFault::Memory),
            Err(error) => {
                self.refused = Some((path, error));
                Err(JobFault::Socket(device))
            }
        }
    }
}
