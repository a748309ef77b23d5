//! The end of a connection. A close with bytes unread would make the system send a reset, which
//! destroys what the peer hasn't read: so a stream lingers, on which all is sent. What a peer
//! doesn't take is given up once it has taken nothing for 30 seconds.

ghost use Rattle.std.specs.Prelude.{◌≡◌, ◌+◌, ◌<◌, ◌≤◌, ◌↔◌, IsTrue};
ghost use Rattle.gu_connection.specs.Lasting.{most_untaken, most_lingering};

use crate::worker::WRITE_WAIT;
use std::io::{ErrorKind, Read};
use std::net::{Shutdown, TcpStream};
use std::sync::Wait;
use std::time::{Clock, Instant};

/// For how many seconds a peer may go on behind the end of its session.
const LINGER_WAIT: u64 = 10;

/// The longest read, in bytes.
const LONGEST_READ: usize = 4096;

/// Whether what waits for a peer isn't sent any more: a write was tried, and the peer has taken
/// nothing for more than 30 seconds in this second, since that one.
pub fn takes_nothing(was_tried: bool, took: u64, second: u64) -> bool
    ensures { IsTrue result ↔ (IsTrue was_tried × (took + most_untaken < second)) }
{
    was_tried && second.saturating_sub(took) > WRITE_WAIT
}

/// For how many seconds a peer may go on behind the end of its session: 30 where it takes slowly,
/// or 10.
pub fn linger_wait(is_slow: bool) -> u64
    ensures { result ≡ most_lingering is_slow }
{
    if is_slow { WRITE_WAIT } else { LINGER_WAIT }
}

/// Whether a stream lingers on: its peer goes on, and has for no longer than so many seconds.
pub fn stays(goes_on: bool, waited: u64, most: u64) -> bool
    ensures { IsTrue result ↔ (IsTrue goes_on × (waited ≤ most)) }
{
    goes_on && waited <= most
}

/// Reads what has come, with so many reads at the most, and throws it away: whether more may come.
pub fn read_away<S: Read>(from: &mut S, reads: usize) -> bool {
    let mut piece = [0u8; LONGEST_READ];
    for _ in 0..reads {
        match from.read(&mut piece) {
            Ok(0) => return false,
            Ok(_) => {}
            Err(error) => {
                return matches!(error.kind(), ErrorKind::WouldBlock | ErrorKind::Interrupted);
            }
        }
    }
    true
}

/// Tells a peer that no more comes, and throws away what it still sends, until it ends too or has
/// gone on for more than so many seconds.
pub(crate) fn linger<R: Wait + Clock>(rt: &R, stream: &TcpStream, most: u64) {
    let Ok(ended) = Instant::now(rt) else {
        return;
    };
    if stream.shutdown(Shutdown::Write).is_err() {
        return;
    }
    let mut from: &TcpStream = stream;
    for _ in rt.forever() {
        let goes_on = read_away(&mut from, 1);
        match ended.elapsed(rt) {
            Ok(waited) if stays(goes_on, waited.as_secs(), most) => {}
            _ => return,
        }
    }
}
