//! The system's sockets and serial lines, and its clock.

ghost use Rattle.std.specs.Prelude.{◌≡◌, None, Some, if◌then◌else◌};

use crate::process_files::{SystemWatch, open_watch};
use crate::sockets::{explain_socket, socket_path};
use fwupd_base::{DeviceProcess, Serving, Watching, Wire};
use fwupd_nodes::{Joined, Network, Observed, Wiring};
use fwupd_watch::{Explaining, JobFault};
use fwupd_wires::{
    AgentSockets, AgentWire, DeviceSockets, DeviceWire, Front, FrontedLine, MachineClock, Port,
    SerialLine,
};
use std::alloc::Global;
use std::io;

/// The front of a node over sockets, if it is requested.
fn front(network: &Network, serving: Serving<'_>) -> Option<Front>
    ensures { result ≡ (if serving.entry.is_open
        then Some (record { network = network.now.unit; endpoint = network.now.endpoint })
        else None) }
{
    if !serving.is_open {
        return None;
    }
    Some(Front {
        network: network.unit,
        endpoint: network.endpoint,
    })
}

/// Prints why a serial line couldn't be opened.
fn explain_tty(explaining: Explaining<'_>, error: &io::Error) {
    let _ = eprintln!(explaining.runtime(); "tty: {error}");
}

/// The system's sockets and serial lines, and its clock.
#[derive(Drop)]
pub(crate) struct SystemWiring<'a> {
    rt: &'a HostRuntime,
    /// The path of the socket that couldn't be made, and the error.
    refused: Option<(String, io::Error)>,
    /// The error of a serial line that couldn't be opened.
    unopened: Option<io::Error>,
}

impl<'a> SystemWiring<'a> {
    /// Creates the wiring of a runtime.
    pub(crate) fn new(rt: &'a HostRuntime) -> SystemWiring<'a> {
        SystemWiring {
            rt,
            refused: None,
            unopened: None,
        }
    }

    /// Prints on standard error, where faults are explained, why a socket or a serial line couldn't
    /// be made or opened, if one couldn't.
    pub(crate) fn explain(&self) {
        let Some(explaining) = Explaining::find(self.rt) else {
            return;
        };
        if let Some((path, error)) = &self.refused {
            explain_socket(explaining, path, error);
        }
        if let Some(error) = &self.unopened {
            explain_tty(explaining, error);
        }
    }

    /// Opens a serial line.
    fn open(
        &mut self,
        alloc: Global,
        path: &str,
        network: &Network,
    ) -> Result<SerialLine<Port>, JobFault> {
        match Port::open(self.rt, alloc, path) {
            Ok(port) => Ok(SerialLine::new(port, network.unit, network.endpoint)),
            Err(error) if error.kind() == io::ErrorKind::OutOfMemory => Err(JobFault::Memory),
            Err(error) => {
                self.unopened = Some(error);
                Err(JobFault::Tty)
            }
        }
    }

    /// Listens at the name of a device's socket in a folder.
    fn listen(&mut self, folder: &str, job: &DeviceProcess<'_>) -> Result<DeviceSockets, JobFault> {
        let Ok(path) = socket_path(self.rt.alloc(), folder, job.eid) else {
            return Err(JobFault::Memory);
        };
        match DeviceSockets::listen(self.rt, &path, job.takes_over) {
            Ok(sockets) => Ok(sockets),
            Err(error) => {
                self.refused = Some((path, error));
                Err(JobFault::Socket(job.eid))
            }
        }
    }
}

impl<'a> Wiring for SystemWiring<'a> {
    type Device = DeviceWire;

    type Agent = AgentWire<'a>;

    type Clock = MachineClock<'a>;

    type Watch = SystemWatch<'a>;

    fn watch(
        &mut self,
        alloc: Global,
        observed: Observed<'_>,
        watching: Watching<'_>,
    ) -> Result<SystemWatch<'a>, JobFault> {
        open_watch(self.rt, alloc, observed, watching)
    }

    fn device(
        &mut self,
        alloc: Global,
        network: &Network,
        job: &DeviceProcess<'_>,
    ) -> Result<Joined<Self::Device, Self::Clock>, JobFault> {
        let line = match job.serving.wire {
            Wire::Sockets(folder) => {
                let sockets = self.listen(folder, job)?;
                DeviceWire::Sockets(FrontedLine::new(sockets, front(network, job.serving)))
            }
            Wire::Tty(path) => DeviceWire::Serial(self.open(alloc, path, network)?),
        };
        Ok(Joined {
            line,
            clock: MachineClock::new(self.rt, job.serving.tick),
        })
    }

    fn agent(
        &mut self,
        alloc: Global,
        network: &Network,
        eids: &[u8],
        serving: Serving<'_>,
    ) -> Result<Joined<Self::Agent, Self::Clock>, JobFault> {
        let line = match serving.wire {
            Wire::Sockets(folder) => match AgentSockets::new(self.rt, alloc, folder, eids) {
                Ok(sockets) => {
                    AgentWire::Sockets(FrontedLine::new(sockets, front(network, serving)))
                }
                Err(_) => return Err(JobFault::Memory),
            },
            Wire::Tty(path) => AgentWire::Serial(self.open(alloc, path, network)?),
        };
        Ok(Joined {
            line,
            clock: MachineClock::new(self.rt, serving.tick),
        })
    }
}
