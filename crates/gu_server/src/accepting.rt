//! How connections are accepted.

use crossbeam_channel::Sender;
use gu_command::ServeError;
use gu_connection::{AfterFault, Faults, after_fault};
use std::net::{TcpListener, TcpStream};
use std::sync::Wait;
use std::thread;
use std::time::{Clock, Duration};

/// How long a server waits for descriptors or buffers before it asks again, in milliseconds.
const LACK_WAIT: u64 = 100;

/// How often it waits so for one connection: a minute in all.
const MOST_LACKS: u32 = 600;

/// Accepts the next connection, and hands it to the workers, for whom it may wait. A fault that
/// passes is passed over.
fn accept<R: Wait + Clock>(
    rt: &R,
    listener: &TcpListener,
    to: &Sender<TcpStream>,
) -> Result<(), ServeError> {
    let mut lacks = 0u32;
    let mut faults = Faults::none();
    for _ in rt.forever() {
        match listener.accept() {
            Ok((stream, _peer)) => {
                return match to.send(rt, stream) {
                    Ok(()) => Ok(()),
                    Err(_) => Err(ServeError::Memory),
                };
            }
            Err(error) => match after_fault(error.raw_os_error()) {
                AfterFault::AsksAgain => {
                    if !faults.pass(rt) {
                        return Err(ServeError::Accept);
                    }
                }
                AfterFault::Waits if lacks < MOST_LACKS => {
                    lacks += 1;
                    thread::sleep(rt, Duration::from_millis(LACK_WAIT));
                }
                _ => return Err(ServeError::Accept),
            },
        }
    }
    unreachable!()
}

/// Accepts so many connections, or with 0 without end.
pub(crate) fn accept_all<R: Wait + Clock>(
    rt: &R,
    listener: &TcpListener,
    to: &Sender<TcpStream>,
    connections: u32,
) -> Result<(), ServeError> {
    if connections == 0 {
        for _ in rt.forever() {
            accept(rt, listener, to)?;
        }
    }
    for _ in 0..connections {
        accept(rt, listener, to)?;
    }
    Ok(())
}
