//! The names of sockets in folders.

ghost use Rattle.std.specs.Prelude.{◌≡◌, ◌∷◌, List, None, OnErr, OnOk, Option, drop, option_map, ℕ};

use std::os::unix::net::{UnixListener, UnixStream};
use std::{fs, io};

/// The names of sockets. In contracts, `taken` is the names that this program has bound, the latest
/// first, if they are known.
pub trait SocketNames {
    ghost taken: { Self → Option (List (List ℕ)) };

    /// Binds a socket to a name that doesn't exist yet.
    ///
    /// # Errors
    /// The name exists, or the socket can't be made.
    fn bind(&mut self, path: &str) -> io::Result<UnixListener>
        ensures taken { OnOk result (taken self.new ≡ option_map (λ names. path.now ∷ names) (taken self.old)) }
        ensures kept { OnErr result (taken self.new ≡ taken self.old) };

    /// Returns both ends of a connection to the socket of a name: the agent's, which accepts it,
    /// and the device's.
    ///
    /// # Errors
    /// One of the two can't be made.
    fn connect(
        &mut self,
        listener: &UnixListener,
        path: &str,
    ) -> io::Result<(UnixStream, UnixStream)>
        ensures { taken self.new ≡ taken self.old };

    /// Removes the name that was bound last.
    fn release(&mut self, path: &str)
        ensures { taken self.new ≡ option_map (drop 1) (taken self.old) };
}

/// The system's names; contracts know nothing of them.
#[derive(Drop)]
pub struct SystemNames<'a> {
    rt: &'a HostRuntime,
}

impl<'a> SystemNames<'a> {
    /// Creates the names of a runtime.
    pub fn new(rt: &'a HostRuntime) -> SystemNames<'a> {
        SystemNames { rt }
    }
}

impl<'a> SocketNames for SystemNames<'a> {
    ghost taken = { λ s. None };

    fn bind(&mut self, path: &str) -> io::Result<UnixListener> {
        UnixListener::bind(self.rt, path)
    }

    fn connect(
        &mut self,
        listener: &UnixListener,
        path: &str,
    ) -> io::Result<(UnixStream, UnixStream)> {
        let device = UnixStream::connect(self.rt, path)?;
        let (agent, _) = listener.accept()?;
        Ok((agent, device))
    }

    fn release(&mut self, path: &str) {
        let _ = fs::remove_file(self.rt, path);
    }
}
