//! Whoever opens the file of the site, and the port.
ghost use Rattle.std.specs.Prelude.{ℕ, List, Result, ⊤};
ghost use Rattle.std.specs.declared.io.Error.{Error};
ghost use Rattle.std.specs.declared.net.socket_addr.SocketAddr.{SocketAddr};

use crate::program::connections::Port;
use byte_streams::Fed;
use std::fs::File;
use std::net::{Net, SocketAddr, TcpListener, TcpStream};
use std::rt::Files;
use std::{fs, io};

/// Opens files and ports. Contracts see what it says of itself by two relations.
pub trait Opens {
    /// A file, open for reading.
    type File;
    /// Whoever connects to a port.
    type Callers;

    // To open the file at that path gave that.
    ghost opened: { List ℕ → Result Self.File Error → Type 0 };
    // To listen at that address gave that.
    ghost bound: { SocketAddr → Result Self.Callers Error → Type 0 };

    /// Opens the file at this path for reading.
    fn open(&self, path: &str) -> io::Result<Self::File>
        ensures { opened path.now result };

    /// Listens at this address.
    fn bind(&self, address: SocketAddr) -> io::Result<Self::Callers>
        ensures { bound address result };
}

/// The files and ports of this machine. Of these std says nothing, so neither do the relations.
#[derive(Drop)]
pub(crate) struct Machine<'a, T> {
    pub rt: &'a T,
}

impl<T: Files<File = File> + Net<Listener = TcpListener, Stream = TcpStream>> Opens
    for Machine<'_, T> {
    type File = Fed<File>;

    type Callers = Port<TcpListener>;

    ghost opened = { λ _ _. ⊤ };

    ghost bound = { λ _ _. ⊤ };

    fn open(&self, path: &str) -> io::Result<Fed<File>>
        ensures { ⊤ }
    {
        Ok(Fed::new(fs::open(self.rt, path)?))
    }

    fn bind(&self, address: SocketAddr) -> io::Result<Port<TcpListener>>
        ensures { ⊤ }
    {
        Ok(Port {
            listener: TcpListener::bind(self.rt, address)?,
        })
    }
}
