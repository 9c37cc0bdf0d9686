ghost use Rattle.std.specs.Prelude.{◌≡◌, ◌-◌, ◌^◌, ◌<◌, ◌≤◌, ◌⊎◌, All, IfNone, IfOk, IfSome, take};
ghost use Rattle.oc_outside.specs.Sinks.{IfTook, OnPutFailed};
ghost use Rattle.oc_outside.specs.declared.dialers.Asked.{Asked};
ghost use Rattle.oc_lines.specs.MemoryLines.{IsUnused};
ghost use Rattle.oc_lines.specs.Dialed.{Dialed, AskedNothing, AskedOnce, ClosedAll, DialingFailed, LineFailed, RanOneLine, SentIs};

use super::*;
use oc_outside::{Asked, DialAnswer, Dialer, Link, PutAnswer, RecvAnswer};
use oc_values::{Items, NoMemory};
use std::alloc::Global;
use std::collections::VecDeque;
use std::io::{Error, ErrorKind, Read, Write};
use std::net::TcpListener;
use std::test::Fail;
use std::time::Duration;
use std::{io, thread};

/// How often a caller tries to reach a listener that begins at the same time.
const TRIES: u32 = 3_000;

// Calls the other party, sends a piece, and closes the line. It says of the dialer what a run will say of it.
fn call_and_send<D: Dialer>(dialer: &mut D, address: &str, piece: &[u8]) -> Option<PutAnswer>
    ensures { let before : Dialed = record {
      faults = D.faults dialer.old;
      handed = D.handed dialer.old;
      closed = D.closed dialer.old;
      asked = D.asked dialer.old;
      last_sent = D.last_sent dialer.old;
      last_arrived = D.last_arrived dialer.old;
      last_faults = D.last_faults dialer.old;
      last_ends = D.last_ends dialer.old;
    } in
        let after : Dialed = record {
          faults = D.faults dialer.new;
          handed = D.handed dialer.new;
          closed = D.closed dialer.new;
          asked = D.asked dialer.new;
          last_sent = D.last_sent dialer.new;
          last_arrived = D.last_arrived dialer.new;
          last_faults = D.last_faults dialer.new;
          last_ends = D.last_ends dialer.new;
        } in
        ClosedAll before after
        × IfSome result (λ answer.
        AskedOnce (Asked.Connect address.now) before after
        × (before.closed < 2 ^ 64 - 1 → RanOneLine before after)
        × IfTook answer (λ n. SentIs (take n piece.now) after)
        × OnPutFailed answer (LineFailed after))
        × IfNone result (AskedNothing before after
        ⊎ (AskedOnce (Asked.Connect address.now) before after × DialingFailed before after)) }
{
    match dialer.connect(address) {
        DialAnswer::Line(line) => {
            let mut line = line;
            let answer = line.send(piece);
            dialer.close(line);
            Some(answer)
        }
        DialAnswer::Failed | DialAnswer::NoMemory => None,
    }
}

fn line_of<L: Drop>(answer: DialAnswer<L>) -> Result<L, NoMemory> {
    match answer {
        DialAnswer::Line(line) => Ok(line),
        _ => Err(NoMemory),
    }
}

// Whether it was asked to listen, and at which address.
fn call_of(asked: &Asked) -> (bool, &[u8]) {
    match asked {
        Asked::Listen(address) => (true, address.as_bytes()),
        Asked::Connect(address) => (false, address.as_bytes()),
    }
}

// Lines on which these bytes come, two at once.
fn lines_with(alloc: Global, coming: &[&[u8]]) -> Result<VecDeque<MemoryLink>, NoMemory>
    ensures { IfOk result (λ lines. All IsUnused lines.items) }
{
    let mut lines = VecDeque::new(alloc);
    for bytes in coming {
        let bytes = Items::from_slice(alloc, bytes)?;
        lines.push_back(MemoryLink::new(alloc, bytes, 2, Items::new(alloc)))?;
    }
    Ok(lines)
}

#[test]
fn a_line_in_memory(rt: HostRuntime) -> Result<(), Fail> {
    let alloc = rt.alloc();
    let coming = Items::from_slice(alloc, b"hello")?;
    let mut line = MemoryLink::new(alloc, coming, 2, Items::from_slice(alloc, &[1, 5])?);
    let mut buffer = [0u8; 3];
    assert_eq!(rt; line.send(b"ping"), PutAnswer::Took(2));
    assert_eq!(rt; line.send(b"ng"), PutAnswer::Failed);
    assert_eq!(rt; line.recv(&mut buffer), RecvAnswer::Got(2));
    assert_eq!(rt; line.recv(&mut buffer[2..]), RecvAnswer::Got(1));
    assert_eq!(rt; buffer, *b"hel");
    assert_eq!(rt; line.recv(&mut buffer), RecvAnswer::Got(2));
    assert_eq!(rt; line.recv(&mut buffer), RecvAnswer::Failed);
    assert_eq!(rt; line.recv(&mut buffer), RecvAnswer::Ended);
    assert_eq!(rt; buffer, *b"lol");
    assert_eq!(rt; line.send(b""), PutAnswer::Took(0));
    assert_eq!(rt; line.sent(), b"pi".as_slice());
    Ok(())
}

#[test]
fn a_dialer_in_memory(rt: HostRuntime) -> Result<(), Fail> {
    let alloc = rt.alloc();
    let lines = lines_with(alloc, &[b"ab", b""])?;
    let mut dialer = MemoryDialer::new(alloc, lines, Items::from_slice(alloc, &[1])?);
    let mut first = line_of(dialer.listen("here:1"))?;
    let mut buffer = [0u8; 3];
    assert_eq!(rt; first.recv(&mut buffer), RecvAnswer::Got(2));
    assert_eq!(rt; call_and_send(&mut dialer, "there:2", b"xyz"), None);
    assert_eq!(rt;
        call_and_send(&mut dialer, "there:3", b"xyz"),
        Some(PutAnswer::Took(2))
    );
    assert_eq!(rt; dialer.last().sent(), b"xy".as_slice());
    dialer.close(first);
    assert_eq!(rt; dialer.last().sent(), b"".as_slice());
    assert_eq!(rt; call_and_send(&mut dialer, "there:4", b"xyz"), None);
    let wanted = [
        (true, "here:1"),
        (false, "there:2"),
        (false, "there:3"),
        (false, "there:4"),
    ];
    assert_eq!(rt; dialer.asked().len(), wanted.len());
    for (asked, (listens, address)) in dialer.asked().iter().zip(wanted.iter()) {
        assert_eq!(rt; call_of(asked), (*listens, address.as_bytes()));
    }
    Ok(())
}

// A stream whose calls answer by this list: a number of bytes, or an error. After the list each call answers 0.
#[derive(Drop)]
struct Listed<'a> {
    answers: &'a [Result<usize, ErrorKind>],
    calls: usize,
}

impl Listed<'_> {
    fn answer(&mut self, most: usize) -> io::Result<usize>
        ensures { IfOk result (λ n. n ≤ most) }
    {
        let answer = self.answers.get(self.calls).copied().unwrap_or(Ok(0));
        self.calls = self.calls.saturating_add(1);
        match answer {
            Ok(n) => Ok(n.min(most)),
            Err(kind) => Err(Error::from(kind)),
        }
    }
}

impl Read for Listed<'_> {
    fn read(&mut self, into: &mut [u8]) -> io::Result<usize> {
        self.answer(into.len())
    }
}

impl Write for Listed<'_> {
    fn write(&mut self, piece: &[u8]) -> io::Result<usize> {
        self.answer(piece.len())
    }

    fn flush(&mut self) -> io::Result<()> {
        Ok(())
    }
}

#[test]
fn a_stream_with_faults(rt: HostRuntime) -> Result<(), Fail> {
    let answers = [
        Err(ErrorKind::Interrupted),
        Ok(2),
        Err(ErrorKind::BrokenPipe),
        Ok(0),
        Err(ErrorKind::OutOfMemory),
        Err(ErrorKind::Interrupted),
        Ok(3),
        Err(ErrorKind::ConnectionReset),
    ];
    let mut line = TcpLink::new(Listed {
        answers: &answers,
        calls: 0,
    });
    let mut buffer = [0u8; 4];
    assert_eq!(rt; line.send(b"abc"), PutAnswer::Took(2));
    assert_eq!(rt; line.send(b"c"), PutAnswer::Failed);
    assert_eq!(rt; line.send(b"c"), PutAnswer::Failed);
    assert_eq!(rt; line.send(b"c"), PutAnswer::NoMemory);
    assert_eq!(rt; line.recv(&mut buffer), RecvAnswer::Got(3));
    assert_eq!(rt; line.recv(&mut buffer), RecvAnswer::Failed);
    assert_eq!(rt; line.recv(&mut buffer), RecvAnswer::Ended);
    assert_eq!(rt; line.send(b""), PutAnswer::Took(0));
    assert_eq!(rt; (line.faults(), line.ends()), (3, 1));
    Ok(())
}

// Sends to a party that is gone, until that is found out.
fn send_until_fault<L: Link>(rt: &HostRuntime, line: &mut L) {
    for _ in 0..TRIES {
        if line.send(b"lost") == PutAnswer::Failed {
            return;
        }
        thread::sleep(rt, Duration::from_millis(1));
    }
}

#[test]
fn a_pair_of_sockets(rt: HostRuntime) -> Result<(), Fail> {
    let listener = TcpListener::bind(&rt, "127.0.0.1:0")?;
    let port = listener.local_addr()?.port();
    let address = format!(in rt.alloc(); "127.0.0.1:{port}")?;
    let mut dialer = TcpDialer::new(&rt);
    let mut first = line_of(dialer.connect(address.as_str()))?;
    let (stream, _) = listener.accept()?;
    let mut second = TcpLink::new(stream);
    let mut buffer = [0u8; 4];
    assert_eq!(rt; first.send(b"ping"), PutAnswer::Took(4));
    assert_eq!(rt; second.recv(&mut buffer), RecvAnswer::Got(4));
    assert_eq!(rt; buffer, *b"ping");
    assert_eq!(rt; second.send(b"ok"), PutAnswer::Took(2));
    assert_eq!(rt; first.recv(&mut buffer), RecvAnswer::Got(2));
    assert_eq!(rt; buffer, *b"okng");
    // The other end is closed: the line ends, and a piece that nobody takes is a fault.
    dialer.close(first);
    assert_eq!(rt; second.recv(&mut buffer), RecvAnswer::Ended);
    assert_eq!(rt; second.ends(), 1);
    send_until_fault(&rt, &mut second);
    assert_eq!(rt; second.faults(), 1);
    // Nobody is there.
    drop(listener);
    assert!(rt; line_of(dialer.connect(address.as_str())).is_err());
    assert!(rt; line_of(dialer.connect("127.0.0.1")).is_err());
    assert!(rt; line_of(dialer.listen("192.0.2.1:1")).is_err());
    Ok(())
}

// Waits for the other party, and says what came and whether the line ended then.
fn hear<D: Dialer>(dialer: &mut D, address: &str) -> Option<(RecvAnswer, [u8; 4], RecvAnswer)> {
    match dialer.listen(address) {
        DialAnswer::Line(line) => {
            let mut line = line;
            let mut buffer = [0u8; 4];
            let came = line.recv(&mut buffer);
            let bytes = buffer;
            let end = line.recv(&mut buffer);
            dialer.close(line);
            Some((came, bytes, end))
        }
        DialAnswer::Failed | DialAnswer::NoMemory => None,
    }
}

// Calls the other party until it is there, and sends a piece.
fn say<D: Dialer>(rt: &HostRuntime, dialer: &mut D, address: &str) -> Option<PutAnswer> {
    for _ in 0..TRIES {
        if let Some(answer) = call_and_send(dialer, address, b"ping") {
            return Some(answer);
        }
        thread::sleep(rt, Duration::from_millis(10));
    }
    None
}

#[test]
fn a_listener_and_a_caller(rt: HostRuntime) -> Result<(), Fail> {
    let port = TcpListener::bind(&rt, "127.0.0.1:0")?.local_addr()?.port();
    let address = format!(in rt.alloc(); "127.0.0.1:{port}")?;
    let (heard, said) = thread::join(
        &rt,
        || hear(&mut TcpDialer::new(&rt), address.as_str()),
        || say(&rt, &mut TcpDialer::new(&rt), address.as_str()),
    );
    assert_eq!(rt; said, Some(PutAnswer::Took(4)));
    assert_eq!(rt;
        heard,
        Some((RecvAnswer::Got(4), *b"ping", RecvAnswer::Ended))
    );
    Ok(())
}
