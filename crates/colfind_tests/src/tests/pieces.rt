//! How many bytes one call moves: no clause says that a device gives or takes as many as it can.
ghost use Rattle.std.specs.Prelude.{◌+◌, ◌^◌, ◌<◌, ◌≤◌};

use super::{bytes_are, same};
use crate::tests::devices::{FailingSource, FailingTarget};
use colfind_io::{DeviceFault, MemorySource, MemoryTarget, Source, Target};
use std::process::Abort;

/// Compares what a read into a buffer of eight bytes gives.
fn compare_read<R: Source>(rt: &impl Abort, reader: &mut R, bytes: &[u8])
    requires { R.failures reader.old < 2 ^ 62 }
    ensures { R.failures reader.new ≤ R.failures reader.old + 1 }
{
    let mut buffer = [0u8; 8];
    let count = reader.read(&mut buffer);
    same(rt, &count, &Ok(bytes.len()));
    bytes_are(rt, buffer.get(..bytes.len()).unwrap_or(b""), bytes);
}

#[test]
fn a_read_gives_as_many_bytes_as_it_may(rt: HostRuntime) {
    let mut reader = MemorySource::new(b"abcdefg", 3);
    compare_read(&rt, &mut reader, b"abc");
    compare_read(&rt, &mut reader, b"def");
    compare_read(&rt, &mut reader, b"g");
    compare_read(&rt, &mut reader, b"");
    let mut reader = MemorySource::new(b"abcdefghij", 9);
    compare_read(&rt, &mut reader, b"abcdefgh");
    compare_read(&rt, &mut reader, b"ij");
    let mut reader = FailingSource::new(b"abcdefg", 3, 2);
    compare_read(&rt, &mut reader, b"abc");
    compare_read(&rt, &mut reader, b"def");
    let mut buffer = [0u8; 8];
    same(&rt, &reader.read(&mut buffer), &Err(DeviceFault));
    same(&rt, &reader.read(&mut buffer), &Err(DeviceFault));
}

#[test]
fn a_write_takes_as_many_bytes_as_it_may(rt: HostRuntime) {
    let mut out = MemoryTarget::new(rt.alloc());
    same(&rt, &out.write(b"abcdefg"), &Ok(7));
    let mut out = FailingTarget::new(rt.alloc(), 3, 2);
    same(&rt, &out.write(b"abcdefg"), &Ok(3));
    same(&rt, &out.write(b"de"), &Ok(2));
    same(&rt, &out.write(b"fg"), &Err(DeviceFault));
    bytes_are(&rt, out.bytes(), b"abcde");
}
