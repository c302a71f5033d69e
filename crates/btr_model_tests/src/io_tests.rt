//! That calls succeed, and that a fault in mid-stream is reported, which no clause says. The generic functions use each
//! clause of the traits.
ghost use Rattle.std.specs.Prelude.{◌≡◌, ◌⊎◌, ◌++◌, [], ◌∷◌, None, IfOk, OnOk, OnErr, option_to_list};
ghost use Rattle.btr_io.specs.Faults.{HasCause};

use super::fixture::{Row, all_hold};
use btr_io::*;
use std::alloc::Global;
use std::test::Fail;

type Bytes = &'static [u8];

/// Reads one byte, or none at the end.
fn next_byte<S: Source>(source: &mut S) -> Result<Option<u8>, Failed>
    ensures byte { S.is_observable → IfOk result (λ byte. S.left source.old ≡ option_to_list byte ++ S.left source.new) }
    ensures end { S.is_observable → IfOk result (λ byte. byte ≡ None → S.left source.old ≡ []) }
    ensures none_lost { S.is_observable → OnErr result (S.left source.new ≡ S.left source.old) }
    ensures cause { HasCause (S.faults source.old) (S.faults source.new) result }
{
    let mut buf = [0];
    let n = source.read(&mut buf)?;
    Ok(if n == 0 { None } else { Some(buf[0]) })
}

/// Writes one byte and passes it on.
fn put_byte<K: Sink>(sink: &mut K, byte: u8) -> Result<(), Failed>
    ensures written { K.is_observable → OnOk result (K.written sink.new ≡ K.written sink.old ++ byte ∷ []) }
    ensures failed { K.is_observable → OnErr result ((K.written sink.new ≡ K.written sink.old)
        ⊎ (K.written sink.new ≡ K.written sink.old ++ byte ∷ [])) }
    ensures cause { HasCause (K.faults sink.old) (K.faults sink.new) result }
{
    sink.write(&[byte])?;
    sink.flush()
}

#[test]
fn one_byte_is_read_at_a_time(rt: HostRuntime) -> Result<(), Fail> {
    let bytes = [7, 8].to_vec(rt.alloc())?;
    let failing = [1].to_vec(rt.alloc())?;
    let mut source = MemSource::new(bytes, 1, failing);
    let first = (next_byte(&mut source), next_byte(&mut source));
    let second = (next_byte(&mut source), next_byte(&mut source));
    assert!(rt; first == (Ok(Some(7)), Err(Failed)));
    assert!(rt; second == (Ok(Some(8)), Ok(None)));
    Ok(())
}

#[test]
fn one_byte_is_written_at_a_time(rt: HostRuntime) -> Result<(), Fail> {
    // the second flush is the fourth call
    let failing = [3].to_vec(rt.alloc())?;
    let mut sink = MemSink::new(rt.alloc(), 3, 1, failing)?;
    let first = (put_byte(&mut sink, 7), put_byte(&mut sink, 8));
    let second = (put_byte(&mut sink, 9), put_byte(&mut sink, 10));
    assert!(rt; first == (Ok(()), Err(Failed)));
    assert!(rt; second == (Ok(()), Err(Failed)));
    assert!(rt; sink.written() == [7, 8, 9].as_slice());
    Ok(())
}

/// Whether bytes were read, or the fault is this one.
fn is_read(read: Result<Vec<u8>, ReadAllFault>, want: Result<&[u8], ReadAllFault>) -> bool {
    match read {
        Ok(read) => want.is_ok_and(|want| read.as_slice() == want),
        Err(fault) => want.is_err_and(|want| fault == want),
    }
}

/// Bytes, bytes a call, failing calls, limit, answer, what is left.
struct Reading(
    Bytes,
    usize,
    &'static [u64],
    u64,
    Result<Bytes, ReadAllFault>,
    Bytes,
);

impl Row for Reading {
    fn holds(&self, alloc: Global) -> Result<bool, Fail> {
        if self.1 == 0 {
            return Ok(false);
        }
        let bytes = self.0.to_vec(alloc)?;
        let failing = self.2.to_vec(alloc)?;
        let mut source = MemSource::new(bytes, self.1, failing);
        let is_as_wanted = is_read(read_all(alloc, &mut source, self.3), self.4);
        let rest = read_all(alloc, &mut source, 9);
        Ok(is_as_wanted && (self.3 >= 9 || is_read(rest, Ok(self.5))))
    }
}

const FIVE: Bytes = &[1, 2, 3, 4, 5];

const READINGS: &[Reading] = &[
    Reading(FIVE, 2, &[], 5, Ok(FIVE), &[]),
    Reading(FIVE, 2, &[], u64::MAX, Ok(FIVE), &[]),
    Reading(FIVE, 100, &[], 6, Ok(FIVE), &[]),
    Reading(FIVE, 2, &[], 4, Err(ReadAllFault::TooLong), &[]),
    Reading(FIVE, 1, &[], 1, Err(ReadAllFault::TooLong), &[3, 4, 5]),
    Reading(FIVE, 2, &[], 0, Err(ReadAllFault::TooLong), &[2, 3, 4, 5]),
    Reading(&[], 2, &[], 0, Ok(&[]), &[]),
    Reading(FIVE, 2, &[1], 9, Err(ReadAllFault::Fault), &[3, 4, 5]),
    Reading(FIVE, 2, &[3], 9, Err(ReadAllFault::Fault), &[]),
    Reading(FIVE, 2, &[4], 9, Ok(FIVE), &[]),
];

#[test]
fn reads_all_or_says_why(rt: HostRuntime) -> Result<(), Fail> {
    all_hold(rt.alloc(), READINGS)
}

/// Bytes, room, bytes a call, failing calls, answer, what was written.
struct Writing(
    Bytes,
    usize,
    usize,
    &'static [u64],
    Result<(), Failed>,
    Bytes,
);

impl Row for Writing {
    fn holds(&self, alloc: Global) -> Result<bool, Fail> {
        if self.2 == 0 {
            return Ok(false);
        }
        let failing = self.3.to_vec(alloc)?;
        let mut sink = MemSink::new(alloc, self.1, self.2, failing)?;
        let answer = write_all(&mut sink, self.0);
        Ok(answer == self.4 && sink.written() == self.5)
    }
}

const WRITINGS: &[Writing] = &[
    Writing(FIVE, 5, 2, &[], Ok(()), FIVE),
    Writing(FIVE, 9, 100, &[], Ok(()), FIVE),
    Writing(&[], 0, 1, &[], Ok(()), &[]),
    Writing(FIVE, 5, 2, &[1], Err(Failed), &[1, 2]),
    Writing(FIVE, 4, 2, &[], Err(Failed), &[1, 2, 3, 4]),
    Writing(FIVE, 3, 2, &[], Err(Failed), &[1, 2]),
];

#[test]
fn writes_all_or_a_prefix(rt: HostRuntime) -> Result<(), Fail> {
    all_hold(rt.alloc(), WRITINGS)
}

#[test]
fn reads_more_than_one_piece(rt: HostRuntime) -> Result<(), Fail> {
    let mut bytes = Vec::new(rt.alloc());
    for i in 0..200_000u32 {
        bytes.push((i % 251) as u8)?;
    }
    let copy = bytes.to_vec(rt.alloc())?;
    let mut source = MemSource::new(copy, 100_000, Vec::new(rt.alloc()));
    let read = read_all(rt.alloc(), &mut source, 200_000);
    assert!(rt; is_read(read, Ok(&bytes)));
    Ok(())
}
