//! Reading a text piece by piece, and searching each piece.
ghost use Rattle.std.specs.Prelude.{◌≡◌, ℕ, ◌+◌, ◌^◌, ◌<◌, [], ◌++◌, List, Option, OnOk, OnErr, IfOk, false};
ghost use Rattle.colfind_io.specs.Gathering.{Prints};
ghost use Rattle.colfind_io.specs.declared.output.Output.{Output};
ghost use Rattle.colfind_run.specs.Finding.{Searches, failures_at};
ghost use Rattle.collation_search.specs.Search.{HasSearched, sought};
ghost use Rattle.collation_search.specs.Feeding.{Feeds};

use colfind_io::{DeviceFault, Lines, PIECE_BYTES, Source, Target};
use collation_search::{Found, Search, TextFault};
use collation_table::Weights;

/// How the reading of a text has ended.
#[derive(Clone, Copy, Debug, PartialEq, Eq)]
pub enum Ending {
    /// The reader reported its end.
    End,
    /// The text so far has a fault, whatever follows.
    Closed(TextFault),
    /// The reader has failed, after so many bytes.
    Unread(u64),
}

/// Searches one piece, and writes the lines of the ranges that became known. None waits afterwards. `found` is room that it uses.
fn search_piece<'a, W: Weights, O: Target>(
    search: &mut Search<'a, W>,
    piece: &[u8],
    found: &mut Found,
    lines: &mut Lines,
    out: &mut O,
) -> Result<(), TextFault>
    requires { lines.old.failed ≡ false → O.failures out.old < 2 ^ 63 }
    ensures fed { (known : List (ℕ × ℕ)) × Feeds search.old piece.now result known search.new
        × ((form : Output) (ranges : List (ℕ × ℕ)) (before : Option (List ℕ)) (failures : ℕ)
        → Prints form lines.old ranges before (O.held out.old) failures (O.failures out.old)
        → Prints form lines.new (ranges ++ known) before (O.held out.new) failures
        (O.failures out.new)) }
    ensures sent { lines.new.waiting.bytes ≡ [] }
    ensures ready { lines.new.failed ≡ false → O.failures out.new < 2 ^ 63 }
{
    let answer = search.feed_with(piece, found, &mut |start, end| lines.put(out, start, end));
    lines.send(out);
    answer
}

/// Reads the text piece by piece to its end, to its first fault or to a failure of the reader, and
/// writes the lines of the ranges as they become known. No line waits while bytes are asked for.
/// After a failed write no more is read.
pub fn search_text<'a, W: Weights, R: Source, O: Target>(
    search: &mut Search<'a, W>,
    reader: &mut R,
    lines: &mut Lines,
    out: &mut O,
) -> Result<Ending, DeviceFault>
    requires begins { HasSearched search.old [] [] }
    requires prints { Prints lines.old.form lines.old [] (O.held out.old) (O.held out.old)
        (O.failures out.old) (O.failures out.old) }
    requires good { lines.old.failed ≡ false }
    requires reads { R.failures reader.old < 2 ^ 63 }
    requires writes { O.failures out.old < 2 ^ 63 }
    ensures searched { Searches search.new lines.old.form result lines.new (R.left reader.old)
        (R.left reader.new)
        (O.held out.old) (O.held out.new) (O.failures out.old) (O.failures out.new) }
    ensures sent { lines.new.waiting.bytes ≡ [] }
    ensures sought { sought search.new ≡ sought search.old }
    ensures count { IfOk result
        (λ ending. R.failures reader.new ≡ R.failures reader.old + failures_at ending) }
    ensures err { OnErr result (R.failures reader.new ≡ R.failures reader.old) }
{
    let mut piece = [0u8; PIECE_BYTES];
    let mut found = Found::new();
    let mut taken = 0u64;
    loop {
        match reader.read(&mut piece) {
            Err(_) => return Ok(Ending::Unread(taken)),
            Ok(0) => return Ok(Ending::End),
            Ok(count) => {
                let answer = search_piece(search, &piece[..count], &mut found, lines, out);
                if lines.has_failed() {
                    search.has_handed_out();
                    return Err(DeviceFault);
                }
                if let Err(fault) = answer {
                    return Ok(Ending::Closed(fault));
                }
                taken += count as u64;
            }
        }
    }
}
