//! A dialer over TCP.

ghost use Rattle.std.specs.Prelude.{◌≡◌, ◌+◌, ◌-◌, ◌^◌, ◌<◌, min};
ghost use Rattle.oc_outside.specs.Counts.{Rose};
ghost use Rattle.oc_outside.specs.Dialers.{IfLine, OnDialFailed, OnDialNoMemory};

use crate::tcp_link::TcpLink;
use oc_outside::{DialAnswer, Dialer};
use std::io;
use std::io::ErrorKind;
use std::marker::Model;
use std::net::{Net, OpenListener, OpenStream, TcpListener, TcpStream};

/// The network of the runtime that it holds. An address is a host and a port, as `localhost:7000`. It tells no bytes and
/// nothing of what it was asked for, and is seen as its counts.
#[derive(Drop)]
pub struct TcpDialer<R> {
    rt: R,
    faults: u64,
    handed: u64,
    closed: u64,
    last_faults: u64,
    last_ends: u64,
}

impl<R> Model for TcpDialer<R> {
    ghost use Rattle.std.specs.Prelude.{◌^◌, ◌<◌};
    ghost use Rattle.oc_lines.specs.TcpLines.{TcpDialing};

    ghost Value = { TcpDialing };

    ghost view = { λ d. record {
      faults = d.faults;
      handed = d.handed;
      closed = d.closed;
      last = record { faults = d.last_faults; ends = d.last_ends };
    } };

    ghost invariant = { λ d. d.faults < 2 ^ 64 };
}

impl<R: Net> TcpDialer<R> {
    /// The network of this runtime.
    pub fn new(rt: R) -> TcpDialer<R>
        ensures { result ≡ record { faults = 0; handed = 0; closed = 0; last = record { faults = 0; ends = 0 } } }
    {
        TcpDialer {
            rt,
            faults: 0,
            handed: 0,
            closed: 0,
            last_faults: 0,
            last_ends: 0,
        }
    }

    // Counts a line or a fault.
    fn hand_out(&mut self, made: Result<R::Stream, ErrorKind>) -> DialAnswer<TcpLink<R::Stream>>
        ensures line { IfLine result (λ line. line ≡ record { faults = 0; ends = 0 }) }
        ensures handed { IfLine result (λ _. self.new ≡ record self.old { handed = min (self.old.handed + 1) (2 ^ 64 - 1) }) }
        ensures failed { OnDialFailed result (self.new ≡ record self.old { faults = min (self.old.faults + 1) (2 ^ 64 - 1) }) }
        ensures unchanged { OnDialNoMemory result (self.new ≡ self.old) }
        ensures below_end { self.new.faults < 2 ^ 64 }
    {
        match made {
            Ok(stream) => {
                // Where the delay of small pieces stays on, the line is only slower.
                let _ = stream.set_nodelay(true);
                self.handed = self.handed.saturating_add(1);
                DialAnswer::Line(TcpLink::new(stream))
            }
            Err(ErrorKind::OutOfMemory) => DialAnswer::NoMemory,
            Err(_) => {
                self.faults = self.faults.saturating_add(1);
                DialAnswer::Failed
            }
        }
    }
}

// Takes one line, tried again where it was interrupted.
fn accept_one<L: OpenListener>(listener: &L) -> Result<L::Stream, ErrorKind> {
    for _ in 0..u64::MAX {
        match listener.accept() {
            Ok((stream, _)) => return Ok(stream),
            Err(error) => match error.kind() {
                ErrorKind::Interrupted => {}
                kind => return Err(kind),
            },
        }
    }
    Err(ErrorKind::Interrupted)
}

// Waits at the address for one line, and lets go of the address.
fn listen_once<R: Net>(rt: &R, address: &str) -> Result<R::Stream, ErrorKind> {
    match TcpListener::bind(rt, address) {
        Ok(listener) => accept_one(&listener),
        Err(error) => Err(error.kind()),
    }
}

// Calls the address, again where the call was interrupted.
fn connect_once<R: Net>(rt: &R, address: &str) -> Result<R::Stream, ErrorKind> {
    for _ in 0..u64::MAX {
        match TcpStream::connect(rt, address) {
            Ok(stream) => return Ok(stream),
            Err(error) => match error.kind() {
                ErrorKind::Interrupted => {}
                kind => return Err(kind),
            },
        }
    }
    Err(ErrorKind::Interrupted)
}

impl<R: Net> Dialer for TcpDialer<R> {
    ghost use Rattle.std.specs.Prelude.{None};

    type Line = TcpLink<R::Stream>;

    ghost faults = { λ d. d.faults };

    ghost handed = { λ d. d.handed };

    ghost closed = { λ d. d.closed };

    ghost asked = { λ _. None };

    ghost last_sent = { λ _. None };

    ghost last_arrived = { λ _. None };

    ghost last_faults = { λ d. d.last.faults };

    ghost last_ends = { λ d. d.last.ends };

    /// It takes one line, and then lets go of the address. Every failure but want of memory is a fault.
    fn listen(&mut self, address: &str) -> DialAnswer<TcpLink<R::Stream>> {
        let made = listen_once(&self.rt, address);
        self.hand_out(made)
    }

    /// Every failure but want of memory is a fault.
    fn connect(&mut self, address: &str) -> DialAnswer<TcpLink<R::Stream>> {
        let made = connect_once(&self.rt, address);
        self.hand_out(made)
    }

    fn close(&mut self, line: TcpLink<R::Stream>) {
        self.closed = self.closed.saturating_add(1);
        self.last_faults = line.faults();
        self.last_ends = line.ends();
    }
}
