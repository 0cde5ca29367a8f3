//! A link over UDP's datagrams.
ghost use Rattle.std.specs.Prelude.{◌≡◌, IfOk};
ghost use Rattle.wire_links.specs.Counted.{none_counted};

use crate::link::{Counts, Heard, Link, LinkFault};
use std::io;
use std::io::ErrorKind;
use std::net::{Ipv4Addr, Net, SocketAddr, SocketAddrV4, UdpSocket};
use std::time::Duration;
use two_wire::Frame;
use two_wire::size::MOST_FRAME_BYTES;

/// Room for a frame, and for one byte more, by which a datagram that is too long is known.
const ROOM: usize = MOST_FRAME_BYTES + 1;

/// A link over datagrams between programs of one host, a frame in each. It is bound to the loopback address alone.
///
/// It hears whoever sends to its port, and sends to the one that it heard last.
pub struct UdpLink {
    socket: UdpSocket,
    /// To whom it sends: the one that was heard last.
    peer: Option<SocketAddr>,
    /// The port that it was opened for: at which it is bound, 0 for a free one, or to which it is to send first.
    named: u16,
    counts: Counts,
}

// Written out: the crates above would prove a derived one anew.
impl Drop for UdpLink {
    fn drop(self) {
        let UdpLink {
            socket,
            peer: _,
            named: _,
            counts: _,
        } = self;
        drop(socket);
    }
}

/// The socket address of this port at the loopback address.
fn loopback(port: u16) -> SocketAddr {
    SocketAddr::V4(SocketAddrV4::new(Ipv4Addr::LOCALHOST, port))
}

/// A socket at this port of the loopback address, which waits so long for a datagram.
fn open_socket<R: Net>(rt: &R, port: u16, wait_ms: u32) -> io::Result<UdpSocket> {
    let socket = UdpSocket::bind(rt, loopback(port))?;
    if wait_ms == 0 {
        socket.set_nonblocking(true)?;
    } else {
        socket.set_read_timeout(Some(Duration::from_millis(u64::from(wait_ms))))?;
    }
    Ok(socket)
}

/// Whether the error says only that no datagram came in the time, or that the wait for one was cut short.
fn is_quiet(error: &io::Error) -> bool {
    matches!(
        error.kind(),
        ErrorKind::WouldBlock | ErrorKind::TimedOut | ErrorKind::Interrupted
    )
}

/// The fault that an error of the system's is.
fn fault_of(error: &io::Error) -> LinkFault {
    match error.kind() {
        ErrorKind::ConnectionRefused => LinkFault::NobodyThere,
        _ => LinkFault::Failed,
    }
}

impl UdpLink {
    /// A link at this port, or at a free one for port 0. It sends to the one that it heard last, and fails to send before it heard somebody.
    /// A call of `next` waits so many milliseconds for a frame, and with 0 it waits for nobody: it answers what is there.
    pub fn bind<R: Net>(rt: &R, port: u16, wait_ms: u32) -> Result<UdpLink, LinkFault>
        ensures counts { IfOk result (λ link. link.counts ≡ none_counted) }
        ensures port { IfOk result (λ link. link.named ≡ port) }
    {
        let Ok(socket) = open_socket(rt, port, wait_ms) else {
            return Err(LinkFault::Failed);
        };
        Ok(UdpLink::over(socket, port, None))
    }

    /// A link at a free port, that sends to this one until it has heard somebody. It waits as one of `bind` does.
    pub fn to<R: Net>(rt: &R, port: u16, wait_ms: u32) -> Result<UdpLink, LinkFault>
        ensures counts { IfOk result (λ link. link.counts ≡ none_counted) }
        ensures port { IfOk result (λ link. link.named ≡ port) }
    {
        let Ok(socket) = open_socket(rt, 0, wait_ms) else {
            return Err(LinkFault::Failed);
        };
        Ok(UdpLink::over(socket, port, Some(loopback(port))))
    }

    /// A link over a socket, that was opened for this port and has counted nothing.
    fn over(socket: UdpSocket, port: u16, peer: Option<SocketAddr>) -> UdpLink
        ensures counts { result.counts ≡ none_counted }
        ensures port { result.named ≡ port }
    {
        UdpLink {
            socket,
            peer,
            named: port,
            counts: Counts::NONE,
        }
    }

    /// The port at which it hears.
    pub fn port(&self) -> Result<u16, LinkFault> {
        match self.socket.local_addr() {
            Ok(address) => Ok(address.port()),
            Err(_) => Err(LinkFault::Failed),
        }
    }

    /// The frame of the next datagram. One that is too long for a frame is an empty one, which is no frame of any bus.
    fn hear(&mut self) -> Result<Heard, LinkFault>
        ensures counts { self.new.counts ≡ self.old.counts }
        ensures port { self.new.named ≡ self.old.named }
    {
        let mut bytes = [0u8; ROOM];
        let (length, sender) = match self.socket.recv_from(&mut bytes) {
            Ok(received) => received,
            Err(error) if is_quiet(&error) => return Ok(Heard::Quiet),
            Err(error) => return Err(fault_of(&error)),
        };
        self.peer = Some(sender);
        if length > MOST_FRAME_BYTES {
            return Ok(Heard::Frame(Frame::new()));
        }
        Ok(Heard::Frame(Frame::from_slice(&bytes[..length])))
    }

    /// Sends the bytes as one datagram.
    fn tell(&self, bytes: &[u8]) -> Result<(), LinkFault> {
        let Some(peer) = self.peer else {
            return Err(LinkFault::NobodyThere);
        };
        match self.socket.send_to(bytes, peer) {
            Ok(sent) if sent == bytes.len() => Ok(()),
            Ok(_) => Err(LinkFault::Failed),
            Err(error) => Err(fault_of(&error)),
        }
    }
}

impl Link for UdpLink {
    ghost counts_of = { λ link. link.counts };

    ghost gives = { λ link answer after. after.named ≡ link.named };

    ghost takes = { λ link frame answer after. after.named ≡ link.named };

    fn next(&mut self) -> Result<Heard, LinkFault> {
        let answer = self.hear();
        self.counts.count_next(&answer);
        answer
    }

    fn send(&mut self, frame: &Frame) -> Result<(), LinkFault> {
        let answer = self.tell(frame.as_slice());
        self.counts.count_send(&answer);
        answer
    }

    fn counts(&self) -> Counts {
        self.counts
    }
}
