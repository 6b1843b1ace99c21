//! Writing all, to a writer that takes a part at a time and may fail.
ghost use Rattle.std.specs.Prelude.{◌≡◌, ◌+◌, ◌^◌, ◌<◌, not, is_ok, OnOk, OnErr};
ghost use Rattle.colfind_io.specs.Devices.{with_piece, one_if};
ghost use Rattle.colfind_io.specs.Writing.{WritesPrefix};
ghost use Rattle.colfind_io.specs.Printing.{printed_end};

use crate::devices::{DeviceFault, Target};
use crate::output::Output;

/// Writes all the bytes, in as many calls as the writer makes of it. After an error nothing more
/// is written.
pub fn write_all<O: Target>(out: &mut O, bytes: &[u8]) -> Result<(), DeviceFault>
    requires { O.failures out.old < 2 ^ 63 }
    ensures ok { OnOk result (O.held out.new ≡ with_piece bytes.now (O.held out.old)) }
    ensures err { OnErr result (WritesPrefix (O.held out.old) (O.held out.new) bytes.now) }
    ensures count { O.failures out.new ≡ O.failures out.old + one_if (not (is_ok result)) }
{
    let mut rest = bytes;
    while !rest.is_empty() {
        match out.write(rest)? {
            0 => return Err(DeviceFault),
            count => rest = &rest[count..],
        }
    }
    Ok(())
}

/// Writes what is printed after all ranges, of which there are `count`, and then flushes. After
/// an error nothing more is written.
pub fn write_end<O: Target>(out: &mut O, form: Output, count: u64) -> Result<(), DeviceFault>
    requires { O.failures out.old < 2 ^ 63 }
    ensures ok { OnOk result
        (O.held out.new ≡ with_piece (printed_end form count) (O.held out.old)) }
    ensures err { OnErr result
        (WritesPrefix (O.held out.old) (O.held out.new) (printed_end form count)) }
    ensures flushed { OnOk result (O.flushed out.new ≡ O.held out.new) }
    ensures count { O.failures out.new ≡ O.failures out.old + one_if (not (is_ok result)) }
{
    write_all(out, form.last_line(count).as_bytes())?;
    out.flush()
}
