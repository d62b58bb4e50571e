//! The small types, arrays, sources and sinks that every part stands on.

ghost use Rattle.std.specs.Prelude.{◌≤◌, IfOk};

use omci_core::{
    Bytes, Failed, MemSink, MemSource, Packet, Packets, Sink, Source, StdSink, StdSource, Words,
    filled, front_filled, next_number, put_at,
};
use std::io;
use std::io::{ErrorKind, Read, Write};
use std::test::Fail;

/// One read into a buffer of three bytes, through the bound.
fn read_three<S: Source>(source: &mut S) -> Result<([u8; 3], usize), Failed> {
    let mut piece = [0; 3];
    let count = source.read(&mut piece)?;
    Ok((piece, count))
}

/// One write, through the bound.
fn write_once<K: Sink>(sink: &mut K, piece: &[u8]) -> Result<usize, Failed> {
    sink.write(piece)
}

/// A reader and writer that takes one byte a call, fails at its second and takes nothing at its
/// third.
#[derive(Drop)]
struct Faulty {
    calls: u8,
}

impl Faulty {
    fn answer(&mut self, room: usize) -> io::Result<usize>
        ensures { IfOk result (λ n. n ≤ room) }
    {
        self.calls = self.calls.saturating_add(1);
        match self.calls {
            2 => Err(ErrorKind::TimedOut.into()),
            3 => Ok(0),
            _ => Ok(room.min(1)),
        }
    }
}

impl Read for Faulty {
    fn read(&mut self, buf: &mut [u8]) -> io::Result<usize> {
        self.answer(buf.len())
    }
}

impl Write for Faulty {
    fn write(&mut self, buf: &[u8]) -> io::Result<usize> {
        self.answer(buf.len())
    }

    fn flush(&mut self) -> io::Result<()> {
        Ok(())
    }
}

#[test]
fn numbers_follow_one_another(rt: HostRuntime) {
    for (n, next) in [(1, 2), (2, 3), (32_766, 32_767), (32_767, 1)] {
        prove!(0 < n && n < 32_768);
        assert_eq!(rt; next_number(n), next, "after {n}");
    }
}

#[test]
fn arrays_are_filled_with_zeros(rt: HostRuntime) {
    assert_eq!(rt; filled(b"ab"), [b'a', b'b', 0, 0]);
    assert_eq!(rt; filled(b"abcd"), *b"abcd");
    assert_eq!(rt; front_filled(b"ab"), [b'a', b'b', 0]);
    assert_eq!(rt; front_filled(b"abcdef"), *b"abc");
    let mut row = *b"abcdef";
    put_at(&mut row, 2, b"xy");
    assert_eq!(rt; row, *b"abxyef");
}

#[test]
fn lists_hold_what_was_put_in(rt: HostRuntime) -> Result<(), Fail> {
    let mut packet = Packet::new();
    assert!(rt; packet.is_empty());
    packet.put(&[0x0a; 48]);
    packet.put(b"omc");
    assert!(rt; packet.len() == 3);
    packet.append(b"i");
    assert_eq!(rt; packet.bytes(), b"omci".as_slice());
    packet.clear();
    assert!(rt; packet.is_empty());
    packet.put(b"ok");

    let mut packets = Packets::new(rt.alloc());
    packets.push(Packet::default())?;
    packets.push(packet)?;
    assert!(rt; !packets.is_empty() && packets.len() == 2);
    assert_eq!(rt; packets.get(1).bytes(), b"ok".as_slice());
    assert_eq!(rt;
        format!(in rt.alloc(); "{:?}", packets.get(1))?.as_str(),
        "[111, 107]"
    );
    packets.clear();
    assert!(rt; packets.is_empty());

    let mut words = Words::new(rt.alloc());
    assert!(rt; words.is_empty());
    words.push(b"replay")?;
    words.push(b"")?;
    assert!(rt; words.len() == 2);
    assert_eq!(rt; words.word(0), b"replay".as_slice());

    let copy = Bytes::of(rt.alloc(), b"ab")?;
    assert!(rt; copy == Bytes::from_vec(b"ab".to_vec(rt.alloc())?));
    assert!(rt; copy.len() == 2 && !copy.is_empty());
    assert_eq!(rt; format!(in rt.alloc(); "{copy:?}")?.as_str(), "[97, 98]");
    Ok(())
}

#[test]
fn source_in_memory_fails_at_the_named_call(rt: HostRuntime) -> Result<(), Fail> {
    for bad in 1..=4u64 {
        let fails = vec![in rt.alloc(); bad]?;
        let mut source = MemSource::new(b"abcd".to_vec(rt.alloc())?, fails);
        let mut wants = [([b'a', b'b', b'c'], 3), ([b'd', 0, 0], 1), ([0, 0, 0], 0)].into_iter();
        for call in 1..=4u64 {
            let want = if call == bad {
                Err(Failed)
            } else {
                wants.next().ok_or(Failed)
            };
            assert_eq!(rt; read_three(&mut source), want, "call {call} of {bad}");
        }
    }
    Ok(())
}

#[test]
fn sink_in_memory_fails_at_the_named_call_or_when_full(rt: HostRuntime) -> Result<(), Fail> {
    for bad in 1..=4u64 {
        let fails = vec![in rt.alloc(); bad]?;
        let mut sink = MemSink::new(rt.alloc(), 5, fails)?;
        let mut wants = [Ok(3), Ok(2), Err(Failed)].into_iter();
        for call in 1..=4u64 {
            let want = if call == bad {
                Err(Failed)
            } else {
                wants.next().unwrap_or(Err(Failed))
            };
            assert_eq!(rt; write_once(&mut sink, b"abc"), want, "call {call} of {bad}");
        }
        assert_eq!(rt; sink.bytes(), b"abcab".as_slice());
    }
    Ok(())
}

#[test]
fn adapters_hand_on_bytes_and_faults(rt: HostRuntime) -> Result<(), Fail> {
    let mut source = StdSource::new(b"abcd".as_slice());
    assert_eq!(rt; read_three(&mut source)?, ([b'a', b'b', b'c'], 3));
    assert_eq!(rt; read_three(&mut source)?, ([b'd', 0, 0], 1));
    assert_eq!(rt; read_three(&mut source)?, ([0, 0, 0], 0));

    let mut written = Vec::new(rt.alloc());
    let mut sink = StdSink::new(&mut written);
    assert_eq!(rt; write_once(&mut sink, b"abc")?, 3);
    assert_eq!(rt; write_once(&mut sink, b"")?, 0);
    assert_eq!(rt; written.as_slice(), b"abc".as_slice());

    let mut source = StdSource::new(Faulty { calls: 0 });
    let mut sink = StdSink::new(Faulty { calls: 0 });
    let reads = [Ok(1), Err(Failed), Ok(0), Ok(1)];
    let writes = [Ok(1), Err(Failed), Err(Failed), Ok(1)];
    for (read, wrote) in reads.into_iter().zip(writes) {
        assert_eq!(rt; read_three(&mut source).map(|(_, count)| count), read);
        assert_eq!(rt; write_once(&mut sink, b"ab"), wrote);
    }
    Ok(())
}
