//! A descriptor that can only be shut.

use std::io;
use std::net::{Shutdown, TcpStream};
use std::os::fd::AsFd;

/// A descriptor of a listener, or of a connection, beside its own. It can only be shut.
#[derive(Drop)]
pub struct Shutter(TcpStream);

impl Shutter {
    /// One for this listener or stream.
    pub fn of<S: AsFd>(of: &S) -> io::Result<Shutter> {
        let held = of.as_fd().try_clone_to_owned()?;
        Ok(Shutter(TcpStream::from(held)))
    }

    /// Shuts it: nobody connects there any more, and another server may listen on the port; a peer
    /// sees the end. So it is also where this process can't end.
    pub fn shut(&self) {
        let _ = self.0.shutdown(Shutdown::Both);
    }
}
