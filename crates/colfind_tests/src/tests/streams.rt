//! The readers and writers of the standard library as devices. No clause says that they hand the
//! bytes on as they are, so this is shown over readers and writers of every temper.
ghost use Rattle.std.specs.Prelude.{◌+◌, ◌^◌, ◌<◌, ◌≤◌};

use super::{bytes_are, same};
use colfind_io::{DeviceFault, FileFault, FromRead, Source, Target, ToWrite, read_all, write_all};
use std::alloc::Global;
use std::io;
use std::io::{ErrorKind, Read, Write};
use std::process::Abort;

/// A reader of bytes in pieces of these sizes, one after the other and then from the first again.
/// It fails after `reads` reads.
#[derive(Drop)]
struct OddReader<'a> {
    rest: &'a [u8],
    sizes: [usize; 5],
    at: usize,
    reads: u64,
}

impl<'a> Read for OddReader<'a> {
    fn read(&mut self, buf: &mut [u8]) -> io::Result<usize> {
        if self.reads == 0 {
            return Err(io::Error::from(ErrorKind::Other));
        }
        self.reads -= 1;
        let size = self.sizes.get(self.at % 5).copied().unwrap_or(1);
        self.at = self.at.wrapping_add(1) % 5;
        let count = size.min(buf.len()).min(self.rest.len());
        let (piece, rest) = self.rest.split_at(count);
        buf[..count].copy_from_slice(piece);
        self.rest = rest;
        Ok(count)
    }
}

/// A writer that takes as many bytes as its plan says, a write at a time, and fails after that. It
/// counts what it was asked.
#[derive(Drop)]
struct PlannedWriter {
    bytes: Vec<u8>,
    plan: [usize; 4],
    writes: usize,
    flushes: u64,
    flush_fails: bool,
}

impl PlannedWriter {
    fn new(alloc: Global, plan: [usize; 4]) -> Self {
        PlannedWriter {
            bytes: Vec::new(alloc),
            plan,
            writes: 0,
            flushes: 0,
            flush_fails: false,
        }
    }
}

impl Write for PlannedWriter {
    fn write(&mut self, buf: &[u8]) -> io::Result<usize> {
        let planned = self.plan.get(self.writes).copied();
        self.writes = self.writes.saturating_add(1);
        let Some(most) = planned else {
            return Err(io::Error::from(ErrorKind::Other));
        };
        let count = most.min(buf.len());
        self.bytes.extend_from_slice(&buf[..count])?;
        Ok(count)
    }

    fn flush(&mut self) -> io::Result<()> {
        self.flushes = self.flushes.saturating_add(1);
        if self.flush_fails {
            return Err(io::Error::from(ErrorKind::Other));
        }
        Ok(())
    }
}

/// Puts a number of two bytes behind the others, the greater byte first.
fn put_number(rt: &impl Abort, bytes: &mut Vec<u8>, number: u16) {
    bytes
        .extend_from_slice(&number.to_be_bytes())
        .expect(rt, "memory");
}

/// The numbers from 0 up to before `count`, of two bytes each, the greater byte first. So no piece
/// of them can stand in another's place unseen.
fn numbers(rt: &impl Abort, alloc: Global, count: u16) -> Vec<u8> {
    let mut bytes = Vec::new(alloc);
    for number in 0..count {
        put_number(rt, &mut bytes, number);
    }
    bytes
}

/// A reader of bytes in pieces of these sizes, which fails after so many reads.
fn odd_reader(rest: &[u8], sizes: [usize; 5], reads: u64) -> OddReader<'_> {
    OddReader {
        rest,
        sizes,
        at: 0,
        reads,
    }
}

/// Compares the bytes that a reader gives, in pieces of these sizes.
fn compare_read(rt: &impl Abort, alloc: Global, bytes: &[u8], sizes: [usize; 5]) {
    let mut reader = odd_reader(bytes, sizes, u64::MAX);
    let read = read_all(alloc, &mut FromRead::new(&mut reader)).ok();
    bytes_are(rt, &read.expect(rt, "the bytes"), bytes);
}

#[test]
fn a_reader_hands_on_all_bytes(rt: HostRuntime) {
    let bytes = numbers(&rt, rt.alloc(), 20_001);
    compare_read(&rt, rt.alloc(), &bytes, [1, 4095, 3, 777, 8192]);
    compare_read(&rt, rt.alloc(), &bytes, [4096, 4096, 4096, 4096, 4096]);
}

/// Compares what a read answers.
fn read_is<R: Source>(
    rt: &impl Abort,
    reader: &mut R,
    buffer: &mut [u8],
    want: Result<usize, DeviceFault>,
)
    requires { R.failures reader.old < 2 ^ 62 }
    ensures { R.failures reader.new ≤ R.failures reader.old + 1 }
{
    same(rt, &reader.read(buffer), &want);
}

/// Compares what a write answers.
fn write_is<O: Target>(rt: &impl Abort, out: &mut O, bytes: &[u8], want: Result<usize, DeviceFault>)
    requires { O.failures out.old < 2 ^ 62 }
    ensures { O.failures out.new ≤ O.failures out.old + 1 }
{
    same(rt, &out.write(bytes), &want);
}

/// Compares what a flush answers.
fn flush_is<O: Target>(rt: &impl Abort, out: &mut O, want: Result<(), DeviceFault>)
    requires { O.failures out.old < 2 ^ 62 }
    ensures { O.failures out.new ≤ O.failures out.old + 1 }
{
    same(rt, &out.flush(), &want);
}

#[test]
fn a_reader_gives_one_byte_then_none_then_fails(rt: HostRuntime) {
    let mut reader = FromRead::new(odd_reader(b"a", [1, 1, 1, 1, 1], 2));
    let mut buffer = *b"xyz";
    read_is(&rt, &mut reader, &mut buffer, Ok(1));
    same(&rt, &buffer, b"ayz");
    read_is(&rt, &mut reader, &mut buffer, Ok(0));
    read_is(&rt, &mut reader, &mut buffer, Err(DeviceFault));
    read_is(&rt, &mut reader, &mut buffer, Err(DeviceFault));
    same(&rt, &buffer, b"ayz");
}

#[test]
fn a_reader_that_fails_in_the_middle_ends_the_bytes(rt: HostRuntime) {
    let reader = odd_reader(b"abcdef", [2, 2, 2, 2, 2], 2);
    let failed = read_all(rt.alloc(), &mut FromRead::new(reader));
    same(&rt, &failed.err(), &Some(FileFault::Device));
}

/// Compares what a writer holds, and how often it was asked to write and to flush.
fn writer_is(rt: &impl Abort, writer: &PlannedWriter, bytes: &[u8], writes: usize, flushes: u64) {
    bytes_are(rt, &writer.bytes, bytes);
    same(rt, &(writer.writes, writer.flushes), &(writes, flushes));
}

#[test]
fn a_writer_takes_one_byte_then_none_then_fails(rt: HostRuntime) {
    let mut inner = PlannedWriter::new(rt.alloc(), [1, 0, 2, 0]);
    {
        let mut out = ToWrite::new(&mut inner);
        write_is(&rt, &mut out, b"abcd", Ok(1));
        write_is(&rt, &mut out, b"bcd", Ok(0));
        write_is(&rt, &mut out, b"bcd", Ok(2));
        write_is(&rt, &mut out, b"", Ok(0));
        write_is(&rt, &mut out, b"d", Err(DeviceFault));
        write_is(&rt, &mut out, b"d", Err(DeviceFault));
    }
    writer_is(&rt, &inner, b"abc", 6, 0);
}

#[test]
fn a_flush_reaches_the_writer(rt: HostRuntime) {
    let mut inner = PlannedWriter::new(rt.alloc(), [0, 0, 0, 0]);
    {
        let mut out = ToWrite::new(&mut inner);
        flush_is(&rt, &mut out, Ok(()));
        flush_is(&rt, &mut out, Ok(()));
    }
    writer_is(&rt, &inner, b"", 0, 2);
    inner.flush_fails = true;
    flush_is(&rt, &mut ToWrite::new(&mut inner), Err(DeviceFault));
    writer_is(&rt, &inner, b"", 0, 3);
}

/// Compares whether all bytes are taken, as many as a writer then holds, and how often it was asked.
fn compare_given(
    rt: &impl Abort,
    alloc: Global,
    plan: [usize; 4],
    bytes: &[u8],
    held: usize,
    writes: usize,
) {
    let mut inner = PlannedWriter::new(alloc, plan);
    let given = write_all(&mut ToWrite::new(&mut inner), bytes).is_ok();
    same(rt, &given, &(held == bytes.len()));
    writer_is(rt, &inner, bytes.get(..held).unwrap_or(b""), writes, 0);
}

#[test]
fn a_writer_is_given_all_bytes(rt: HostRuntime) {
    let alloc = rt.alloc();
    let bytes = numbers(&rt, alloc, 5_000);
    compare_given(&rt, alloc, [1, 4_097, 3, usize::MAX], &bytes, 10_000, 4);
    compare_given(&rt, alloc, [1, 4_097, 0, usize::MAX], &bytes, 4_098, 3);
}
