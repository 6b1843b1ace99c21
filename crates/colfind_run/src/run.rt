//! A run of the search over a reader and a writer.
ghost use Rattle.std.specs.Prelude.{ℕ, List, Option, ◌≡◌, ◌≢◌, ◌<◌, ◌^◌, ◌++◌, nat_lt};
ghost use Rattle.collation_matches.specs.declared.select.Select.TheVariants.{All};
ghost use Rattle.colfind_run.specs.Patterns.{IsCompiledWith, answer_to, settled_in};
ghost use Rattle.colfind_run.specs.Finding.{IsFoundIn, HasSearchedUntil, failures_of, failures_at};
ghost use Rattle.collation_matches.specs.GoodPrefix.{whole};
ghost use Rattle.collation_search.specs.Search.{sought};
ghost use Rattle.collation_matches.specs.Sought.{IsCompiledFrom, answer_to as search_answer, settled_in as search_settled};
ghost use Rattle.colfind_run.specs.Running.{IfDone, IfText, IfRead};
ghost use Rattle.colfind_run.specs.Running.{PrintsAll, PrintsToFault, PrintsSettled, PrintsPrefix, reported_ranges, FailsAs};

use crate::texts::{Ending, search_text};
use colfind_io::{Lines, Output, Source, Target};
use collation_matches::one_range_begins_at_an_offset;
use collation_pattern::Pattern;
use collation_search::{Found as Ranges, Search, Select, TextFault};
use collation_table::Weights;
use std::alloc::Global;

/// What a run reports.
#[derive(Clone, Copy, Debug, PartialEq, Eq)]
pub enum Outcome {
    /// The number of matches in a text without a fault.
    Done(u64),
    /// The first fault of the text.
    Text(TextFault),
    /// The reader has failed, after so many bytes.
    Read(u64),
    /// The writer has failed.
    Write,
    /// Memory was refused.
    Memory,
}

/// How the text ended.
#[derive(Clone, Copy)]
enum TextEnd {
    /// At its end, without a fault.
    Good,
    /// At its first fault, or at its end where that cuts a character.
    Fault(TextFault),
    /// Where the reader failed, after so many bytes.
    Unread(u64),
}

/// Ends the search of a text whose reading has ended: `rest` is emptied, and then holds the ranges that were not handed out yet.
fn close<'a, W: Weights>(search: Search<'a, W>, ending: Ending, rest: &mut Ranges) -> TextEnd
    ensures found { (p bytes : List ℕ) (handed : List (ℕ × ℕ)) (left : Option (List ℕ))
        → IsCompiledFrom (sought search.entry) p
        → HasSearchedUntil search.entry ending bytes handed left
        → IsFoundIn (λ b. search_answer (sought search.entry) p b)
        (λ b. search_settled (sought search.entry) p (whole b)) result
        (handed ++ rest.new.items) bytes left }
    ensures count { failures_of result ≡ failures_at ending }
{
    match ending {
        Ending::Unread(count) => {
            search.stop(rest);
            TextEnd::Unread(count)
        }
        Ending::Closed(fault) => {
            rest.clear();
            TextEnd::Fault(fault)
        }
        Ending::End => match search.finish(rest) {
            Ok(()) => TextEnd::Good,
            Err(fault) => TextEnd::Fault(fault),
        },
    }
}

/// Finds the pattern in the text that `reader` gives, and writes all minimal matches to `out`, as `run_with` does.
pub fn run<W: Weights, R: Source, O: Target>(
    alloc: Global,
    table: &W,
    pattern: &Pattern,
    form: Output,
    reader: &mut R,
    out: &mut O,
) -> Outcome
    requires reads { R.failures reader.old < 2 ^ 63 }
    requires writes { O.failures out.old < 2 ^ 63 }
    // What was read and printed, for each text `p` of which the pattern was compiled.
    ensures done { IfDone result (λ count. (p : List ℕ)
        → IsCompiledWith (W.table table.now) pattern.now p
        → PrintsAll (answer_to All (W.table table.now) p pattern.now) form count
        (R.left reader.old) (R.left reader.new) (O.held out.old) (O.held out.new)) }
    ensures text_fault { IfText result (λ fault. (p : List ℕ)
        → IsCompiledWith (W.table table.now) pattern.now p
        → PrintsToFault (answer_to All (W.table table.now) p pattern.now) form fault
        (R.left reader.old) (R.left reader.new) (O.held out.old) (O.held out.new)) }
    ensures read_failure { IfRead result (λ count. (p : List ℕ)
        → IsCompiledWith (W.table table.now) pattern.now p
        → PrintsSettled (settled_in All (W.table table.now) p pattern.now) form count
        (R.left reader.old) (R.left reader.new) (O.held out.old) (O.held out.new)) }
    ensures write_failure { result ≡ Outcome.Write → (p : List ℕ)
        → IsCompiledWith (W.table table.now) pattern.now p
        → PrintsPrefix
        (reported_ranges (answer_to All (W.table table.now) p pattern.now)
        (settled_in All (W.table table.now) p pattern.now)
        (nat_lt (R.failures reader.old) (R.failures reader.new))) form
        (R.left reader.old) (R.left reader.new) (O.held out.old) (O.held out.new) }
    ensures flushed { result ≢ Outcome.Write → result ≢ Outcome.Memory
        → O.flushed out.new ≡ O.held out.new }
    ensures memory { result ≡ Outcome.Memory → (out.new ≡ out.old) × (reader.new ≡ reader.old) }
    ensures failures { FailsAs result (R.failures reader.old) (R.failures reader.new)
        (O.failures out.old) (O.failures out.new) }
{
    run_with(alloc, table, pattern, form, Select::All, reader, out)
}

/// Finds the pattern in the text that `reader` gives, and writes the matches that are selected to `out`, all or a chain of them;
/// then it flushes `out`. The text is read to its end or to its first fault.
/// Neither the text nor the matches are kept: the lines of a match are written as soon as it is known, and at the latest
/// before the next bytes are read. A failure of the reader ends the text too, and then the matches that end before the end of
/// its last whole character are written, or the chain of these. After a failure of `out` nothing more is written or read, and
/// that is reported in place of anything else. Where memory is refused, neither device was asked.
pub fn run_with<W: Weights, R: Source, O: Target>(
    alloc: Global,
    table: &W,
    pattern: &Pattern,
    form: Output,
    select: Select,
    reader: &mut R,
    out: &mut O,
) -> Outcome
    requires reads { R.failures reader.old < 2 ^ 63 }
    requires writes { O.failures out.old < 2 ^ 63 }
    // What was read and printed, for each text `p` of which the pattern was compiled.
    ensures done { IfDone result (λ count. (p : List ℕ)
        → IsCompiledWith (W.table table.now) pattern.now p
        → PrintsAll (answer_to select (W.table table.now) p pattern.now) form count
        (R.left reader.old) (R.left reader.new) (O.held out.old) (O.held out.new)) }
    ensures text_fault { IfText result (λ fault. (p : List ℕ)
        → IsCompiledWith (W.table table.now) pattern.now p
        → PrintsToFault (answer_to select (W.table table.now) p pattern.now) form fault
        (R.left reader.old) (R.left reader.new) (O.held out.old) (O.held out.new)) }
    ensures read_failure { IfRead result (λ count. (p : List ℕ)
        → IsCompiledWith (W.table table.now) pattern.now p
        → PrintsSettled (settled_in select (W.table table.now) p pattern.now) form count
        (R.left reader.old) (R.left reader.new) (O.held out.old) (O.held out.new)) }
    ensures write_failure { result ≡ Outcome.Write → (p : List ℕ)
        → IsCompiledWith (W.table table.now) pattern.now p
        → PrintsPrefix
        (reported_ranges (answer_to select (W.table table.now) p pattern.now)
        (settled_in select (W.table table.now) p pattern.now)
        (nat_lt (R.failures reader.old) (R.failures reader.new))) form
        (R.left reader.old) (R.left reader.new) (O.held out.old) (O.held out.new) }
    ensures flushed { result ≢ Outcome.Write → result ≢ Outcome.Memory
        → O.flushed out.new ≡ O.held out.new }
    ensures memory { result ≡ Outcome.Memory → (out.new ≡ out.old) × (reader.new ≡ reader.old) }
    ensures failures { FailsAs result (R.failures reader.old) (R.failures reader.new)
        (O.failures out.old) (O.failures out.new) }
{
    let Ok(mut search) = Search::new_with(alloc, table, pattern, select) else {
        return Outcome::Memory;
    };
    one_range_begins_at_an_offset();
    let mut lines = Lines::new(form);
    let Ok(ending) = search_text(&mut search, reader, &mut lines, out) else {
        return Outcome::Write;
    };
    let mut rest = Ranges::new();
    let end = close(search, ending, &mut rest);
    lines.put_all(out, rest.as_slice());
    if lines.finish(out).is_err() {
        return Outcome::Write;
    }
    match end {
        TextEnd::Good => Outcome::Done(lines.count()),
        TextEnd::Fault(fault) => Outcome::Text(fault),
        TextEnd::Unread(count) => Outcome::Read(count),
    }
}
