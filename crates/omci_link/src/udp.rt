//! A link over UDP.

ghost use Rattle.std.specs.Prelude.{◌≡◌, ◌≤◌, IfSome};
ghost use Rattle.omci_core.specs.Memory.{one_more};
ghost use Rattle.omci_link.specs.Arrivals.{HasPacketBound};

use crate::arrival::Arrival;
use crate::link::Link;
use omci_core::{Failed, MAX_PACKET_BYTES};
use std::io::ErrorKind;
use std::marker::Model;
use std::net::{Ipv4Addr, Ipv6Addr, Net, SocketAddr, ToSocketAddrs, UdpSocket};
use std::time::Duration;
use std::{io, str};

/// A link over UDP: each packet is a datagram, and one that is longer is cut to a packet's length.
/// An address is text, as `127.0.0.1:48000`. An end that listens takes packets there and sends to
/// whoever sent last; before anyone did, what it sends goes nowhere. An end that calls sends to the
/// address and takes packets from there alone. `next` answers `Quiet` once it has waited a second,
/// and never `Closed`.
///
/// It tells nothing of its packets. Each call that fails is counted, also one before `attach`; at
/// its last value the count stays.
#[derive(Drop)]
pub struct UdpLink<R: Net + Drop> {
    rt: R,
    line: Option<Line>,
    faults: u64,
}

// A socket at its address, and where what it sends goes.
#[derive(Drop)]
struct Line {
    socket: UdpSocket,
    peer: Peer,
}

// Where a socket sends to.
#[derive(Clone, Copy)]
enum Peer {
    // The address that it called.
    Called,
    // Whoever sent last, where anyone did.
    Last(Option<SocketAddr>),
}

impl<R: Net + Drop> Model for UdpLink<R> {
    ghost use Rattle.std.specs.Prelude.{ℕ};

    ghost Value = { ℕ };

    ghost view = { λ link. link.faults };
}

impl<R: Net + Clone + Drop> UdpLink<R> {
    /// A link at no address yet, with no faults so far.
    pub fn new(rt: R) -> UdpLink<R>
        ensures faults { result ≡ 0 }
    {
        UdpLink {
            rt,
            line: None,
            faults: 0,
        }
    }

    // Counts a fault.
    fn fault(&mut self) -> Failed
        ensures state { self.new ≡ one_more self.old }
        ensures later { self.old ≤ self.new }
    {
        self.faults = self.faults.saturating_add(1);
        Failed
    }
}

// A line to the address, of an end that listens there or calls it.
fn open<R: Net>(rt: &R, address: &[u8], listens: bool) -> Option<Line> {
    let address = str::from_utf8(address).ok()?;
    let line = if listens {
        listen(rt, address)
    } else {
        call(rt, address)
    }?;
    let second = Duration::from_secs(1);
    line.socket.set_read_timeout(Some(second)).ok()?;
    Some(line)
}

// A line of an end that listens.
fn listen<R: Net>(rt: &R, address: &str) -> Option<Line> {
    let socket = UdpSocket::bind(rt, address).ok()?;
    let peer = Peer::Last(None);
    Some(Line { socket, peer })
}

// A line of an end that calls.
fn call<R: Net>(rt: &R, address: &str) -> Option<Line> {
    let to = address.to_socket_addrs(rt).ok()?.next()?;
    let socket = UdpSocket::bind(rt, any_beside(to)).ok()?;
    socket.connect(to).ok()?;
    let peer = Peer::Called;
    Some(Line { socket, peer })
}

// Any address of this system from which that one can be reached.
fn any_beside(to: SocketAddr) -> SocketAddr {
    match to {
        SocketAddr::V4(_) => SocketAddr::from((Ipv4Addr::UNSPECIFIED, 0)),
        SocketAddr::V6(_) => SocketAddr::from((Ipv6Addr::UNSPECIFIED, 0)),
    }
}

// Whether a call was cut short: by a signal, or by the news that an earlier packet found nobody at
// its address. Packets may be lost, so such a call is made once more.
fn is_cut_short(error: &io::Error) -> bool {
    matches!(
        error.kind(),
        ErrorKind::Interrupted | ErrorKind::ConnectionRefused
    )
}

// Whether a call has waited as long as it may.
fn has_waited(error: &io::Error) -> bool {
    matches!(error.kind(), ErrorKind::WouldBlock | ErrorKind::TimedOut)
}

// Reads a datagram into the buffer, and answers how many bytes of it are there and who sent it.
fn read(socket: &UdpSocket, into: &mut [u8]) -> io::Result<(usize, SocketAddr)> {
    match socket.recv_from(into) {
        Err(error) if is_cut_short(&error) => socket.recv_from(into),
        done => done,
    }
}

// Sends a datagram to the address that the socket called, and answers how many bytes went.
fn write(socket: &UdpSocket, bytes: &[u8]) -> io::Result<usize> {
    match socket.send(bytes) {
        Err(error) if is_cut_short(&error) => socket.send(bytes),
        done => done,
    }
}

impl Line {
    // What comes within a second.
    fn next(&mut self, into: &mut [u8]) -> Option<Arrival>
        ensures bound { IfSome result (λ answer. HasPacketBound answer) }
    {
        match read(&self.socket, into) {
            Ok((count, from)) => {
                self.heard(from);
                Some(Arrival::Packet(count.min(MAX_PACKET_BYTES)))
            }
            Err(error) if has_waited(&error) => Some(Arrival::Quiet),
            Err(_) => None,
        }
    }

    // An end that listens answers whoever sent last.
    fn heard(&mut self, from: SocketAddr) {
        if let Peer::Last(_) = self.peer {
            self.peer = Peer::Last(Some(from));
        }
    }

    // Sends a packet; it goes nowhere where nobody was heard.
    fn send(&self, bytes: &[u8]) -> Option<()> {
        let sent = match self.peer {
            Peer::Called => write(&self.socket, bytes).ok()?,
            Peer::Last(Some(to)) => self.socket.send_to(bytes, to).ok()?,
            Peer::Last(None) => bytes.len(),
        };
        if sent == bytes.len() { Some(()) } else { None }
    }
}

// What comes on a line within a second, where there is a line.
fn next_on(line: &mut Option<Line>, into: &mut [u8]) -> Option<Arrival>
    ensures bound { IfSome result (λ answer. HasPacketBound answer) }
{
    line.as_mut()?.next(into)
}

// Sends a packet on a line, where there is one.
fn send_on(line: &Option<Line>, bytes: &[u8]) -> Option<()> {
    line.as_ref()?.send(bytes)
}

impl<R: Net + Clone + Drop> Link for UdpLink<R> {
    ghost use Rattle.std.specs.Prelude.{None};

    ghost left = { λ link. None };

    ghost sent = { λ link. None };

    ghost faults = { λ link. link };

    fn attach(&mut self, address: &[u8], listens: bool) -> Result<(), Failed> {
        self.line = None;
        self.line = open(&self.rt, address, listens);
        if self.line.is_some() {
            Ok(())
        } else {
            Err(self.fault())
        }
    }

    fn next(&mut self, into: &mut [u8]) -> Result<Arrival, Failed> {
        match next_on(&mut self.line, into) {
            Some(answer) => Ok(answer),
            None => Err(self.fault()),
        }
    }

    fn send(&mut self, bytes: &[u8]) -> Result<(), Failed> {
        match send_on(&self.line, bytes) {
            Some(()) => Ok(()),
            None => Err(self.fault()),
        }
    }
}
