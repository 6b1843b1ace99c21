//! The program: its words, its table file and tailor file, and a run from its text, which is a file or standard
//! input, to standard output.
ghost use Rattle.std.specs.Prelude.{◌≡◌, ◌<◌, ◌≤◌, ◌^◌, ℕ, List, map, IfOk, IfErr, OnOk, is_some, true, false};
ghost use Rattle.colfind_run.specs.declared.faults.Stop.{Stop};
ghost use Rattle.colfind_run.specs.Causes.{IsCaused, HasCause, IsUnread};
ghost use Rattle.colfind_run.specs.Faults.{fault_of, ReportsLine, ReportsSomeFault};
ghost use Rattle.colfind_run.specs.Patterns.{IsCompiledWith};
ghost use Rattle.colfind_run.specs.Searching.{FindsSelected, FindsAsked, IsTableOf, IfAt, left_of, left_after, no_files, status_of};
ghost use Rattle.colfind_run.specs.Stopping.{IsReason, StopsSearch, StopsAtTable, StopsAtTailor, StopsAtText, is_before_text, seen};
ghost use Rattle.collation_table.specs.Faults.{tailored_map};

use crate::faults::{Fault, Stop};
use crate::run::{Outcome, run_with};
use crate::settings::settings;
use crate::words::Settings;
use colfind_io::{FileFault, Folder, Output, Source, SystemFiles, Target, read_all, write_all};
use collation_pattern::Pattern;
use collation_search::Select;
use collation_table::{Table, Weights};
use std::alloc::Global;
use std::rt::Files;

/// What the words of the program ask for. It answers the status: 0 where there are matches and no
/// fault, 1 where there are neither, and 2 at a fault, of which it writes a line to `err`. What goes
/// to `out` is all matches, or a chain of them, as the words select. The first fault ends the program.
/// That `err` fails changes nothing.
pub fn program<'a, F: Files, R: Source, O: Target, E: Target>(
    runtime: &F,
    alloc: Global,
    words: &'a [&'a str],
    input: &mut R,
    out: &mut O,
    err: &mut E,
) -> u8
    requires reads { R.failures input.old < 2 ^ 63 }
    requires writes { O.failures out.old < 2 ^ 63 }
    requires reports { E.failures err.old < 2 ^ 63 }
    ensures status { result ≤ 2 }
    // No clause can name the bytes of the machine's files. So the table is what some bytes spell, and
    // where a text file is asked for, its bytes are any; the input is then as it was.
    ensures found { result < 2 → (count : ℕ) × (result ≡ status_of count)
        × FindsAsked no_files (map (λ word. word.now) words.entry.now) (input.new ≡ input.old) count
        (R.left input.old) (R.left input.new) (O.held out.old) (O.held out.new) }
    ensures sound { result < 2 → (R.failures input.new ≡ R.failures input.old)
        × (O.failures out.new ≡ O.failures out.old) }
    ensures quiet { result < 2 → err.new ≡ err.old }
    ensures reported { result ≡ 2 → ReportsSomeFault (E.held err.old) (E.held err.new)
        (E.failures err.old) (E.failures err.new) }
    // The fault is the first in the order of work, and before the text no device is asked.
    ensures first { result ≡ 2 → (stop : Stop)
        × ReportsLine (fault_of stop) (E.held err.old) (E.held err.new) (E.failures err.old)
        (E.failures err.new)
        × IsReason no_files (map (λ word. word.now) words.entry.now) (input.new ≡ input.old) stop
        (seen (R.left input.old) (R.failures input.old) (O.held out.old) (O.failures out.old))
        (seen (R.left input.new) (R.failures input.new) (O.held out.new) (O.failures out.new))
        × (is_before_text stop ≡ true → (input.new ≡ input.old) × (out.new ≡ out.old)) }
{
    match count_matches(&SystemFiles::new(runtime), alloc, words, input, out) {
        Ok(0) => 1,
        Ok(_) => 0,
        Err(stop) => report(err, stop.fault()),
    }
}

/// Writes the line of a fault, and answers its status.
pub fn report<E: Target>(err: &mut E, fault: Fault) -> u8
    requires { E.failures err.old < 2 ^ 63 }
    ensures status { result ≡ 2 }
    ensures line { ReportsLine fault (E.held err.old) (E.held err.new) (E.failures err.old)
        (E.failures err.new) }
{
    let _ = write_all(err, fault.line().as_bytes());
    2
}

/// The number of matches that were written, with the files of `folder`.
pub fn count_matches<'a, D: Folder, R: Source, O: Target>(
    folder: &D,
    alloc: Global,
    words: &'a [&'a str],
    input: &mut R,
    out: &mut O,
) -> Result<u64, Stop>
    requires reads { R.failures input.old < 2 ^ 63 }
    requires writes { O.failures out.old < 2 ^ 63 }
    ensures found { IfOk result (λ count. FindsAsked (D.bytes_at folder.now)
        (map (λ word. word.now) words.entry.now) (input.new ≡ input.old) count
        (R.left input.old) (R.left input.new) (O.held out.old) (O.held out.new)) }
    ensures sound { OnOk result ((R.failures input.new ≡ R.failures input.old)
        × (O.failures out.new ≡ O.failures out.old)) }
    ensures reason { IfErr result (λ stop. IsReason (D.bytes_at folder.now)
        (map (λ word. word.now) words.entry.now) (input.new ≡ input.old) stop
        (seen (R.left input.old) (R.failures input.old) (O.held out.old) (O.failures out.old))
        (seen (R.left input.new) (R.failures input.new) (O.held out.new) (O.failures out.new))) }
    // A fault of a file comes only where `open` answered so at its path, or a read of the file failed.
    ensures cause { IfErr result (IsCaused (D.open_gives folder.now) D.File.left D.File.failures
        (map (λ word. word.now) words.entry.now)) }
    ensures unasked { IfErr result (λ stop. is_before_text stop ≡ true
        → (input.new ≡ input.old) × (out.new ≡ out.old)) }
{
    let asked = settings(alloc, words)?;
    let table = read_table(folder, alloc, &asked)?;
    search(folder, alloc, &table, &asked, input, out)
}

/// The number of matches, which were written, in the text file if one is asked for, else in the
/// input.
fn search<D: Folder, W: Weights, R: Source, O: Target>(
    folder: &D,
    alloc: Global,
    table: &W,
    asked: &Settings,
    input: &mut R,
    out: &mut O,
) -> Result<u64, Stop>
    requires reads { R.failures input.old < 2 ^ 63 }
    requires writes { O.failures out.old < 2 ^ 63 }
    ensures found { IfOk result
        (λ count. FindsSelected (W.table table.now) asked.now.strength asked.now.variable
        asked.now.pattern.now asked.now.output asked.now.select count
        (left_of (D.bytes_at folder.now) asked.now (R.left input.old))
        (left_after (D.bytes_at folder.now) asked.now (R.left input.new))
        (O.held out.old) (O.held out.new)) }
    ensures sound { OnOk result ((R.failures input.new ≡ R.failures input.old)
        × (O.failures out.new ≡ O.failures out.old)) }
    ensures reason { IfErr result (λ stop.
        StopsSearch (D.bytes_at folder.now) (W.table table.now) asked.now stop
        (seen (R.left input.old) (R.failures input.old) (O.held out.old) (O.failures out.old))
        (seen (R.left input.new) (R.failures input.new) (O.held out.new) (O.failures out.new))) }
    ensures cause { IfErr result
        (HasCause (D.open_gives folder.now) D.File.left D.File.failures asked.now) }
    ensures unasked { IfErr result (λ stop. is_before_text stop ≡ true
        → (input.new ≡ input.old) × (out.new ≡ out.old)) }
    ensures file { is_some asked.now.text ≡ true → input.new ≡ input.old }
{
    let pattern = Pattern::compile(alloc, table, asked.pattern, asked.strength, asked.variable)?;
    let Some(path) = asked.text else {
        return search_in(
            alloc,
            table,
            &pattern,
            asked.output,
            asked.select,
            input,
            out,
        );
    };
    let Ok(mut text) = folder.open(path) else {
        return Err(Stop::TextFile);
    };
    search_in(
        alloc,
        table,
        &pattern,
        asked.output,
        asked.select,
        &mut text,
        out,
    )
}

/// The number of matches of the pattern in what `reader` gives that are selected, which were written.
fn search_in<W: Weights, R: Source, O: Target>(
    alloc: Global,
    table: &W,
    pattern: &Pattern,
    form: Output,
    select: Select,
    reader: &mut R,
    out: &mut O,
) -> Result<u64, Stop>
    requires reads { R.failures reader.old < 2 ^ 63 }
    requires writes { O.failures out.old < 2 ^ 63 }
    // For each text `p` of which the pattern was compiled.
    ensures found { IfOk result (λ count. (p : List ℕ)
        → IsCompiledWith (W.table table.now) pattern.now p
        → FindsSelected
        (W.table table.now) pattern.now.strength pattern.now.variable p form select count
        (R.left reader.old) (R.left reader.new) (O.held out.old) (O.held out.new)) }
    ensures sound { OnOk result ((R.failures reader.new ≡ R.failures reader.old)
        × (O.failures out.new ≡ O.failures out.old)) }
    ensures reason { IfErr result (λ stop. (p : List ℕ)
        → IsCompiledWith (W.table table.now) pattern.now p
        → StopsAtText
        (W.table table.now) pattern.now.strength pattern.now.variable p form select stop
        (seen (R.left reader.old) (R.failures reader.old) (O.held out.old) (O.failures out.old))
        (seen (R.left reader.new) (R.failures reader.new) (O.held out.new) (O.failures out.new))) }
    ensures inside { IfErr result (λ stop. is_before_text stop ≡ false) }
{
    match run_with(alloc, table, pattern, form, select, reader, out) {
        Outcome::Done(count) => Ok(count),
        Outcome::Text(fault) => Err(Stop::Text(fault)),
        Outcome::Read(count) => Err(Stop::Read(count)),
        Outcome::Write => Err(Stop::Write),
        Outcome::Memory => Err(Stop::Memory),
    }
}

/// The table of the table file and, if one is asked for, the tailor file.
fn read_table<D: Folder>(folder: &D, alloc: Global, asked: &Settings) -> Result<Table, Stop>
    ensures table { IfOk result (λ table.
        IsTableOf (D.bytes_at folder.now) asked.now (⟦<Table as Weights>⟧.table table)) }
    ensures fault { IfErr result (StopsAtTable (D.bytes_at folder.now) asked.now) }
    ensures cause { IfErr result
        (HasCause (D.open_gives folder.now) D.File.left D.File.failures asked.now) }
    ensures missing { D.is_missing folder.now asked.now.table.now ≡ true
        → result ≡ Err (Stop.File FileFault.Device) }
{
    let base = read_file(folder, alloc, asked.table)?;
    match asked.tailor {
        Some(path) => read_tailored(folder, alloc, &base, path),
        None => Ok(Table::read(alloc, &base)?),
    }
}

/// The table of a table file with the bytes `base` and of the tailor file at `path`.
fn read_tailored<D: Folder>(
    folder: &D,
    alloc: Global,
    base: &[u8],
    path: &str,
) -> Result<Table, Stop>
    ensures table { IfOk result (λ table. (tailor : List ℕ)
        × IfAt (D.bytes_at folder.now path.now) tailor
        × (⟦<Table as Weights>⟧.table table ≡ tailored_map base.now tailor)) }
    ensures fault { IfErr result (StopsAtTailor (D.bytes_at folder.now path.now) base.now) }
    ensures cause { result ≡ Err (Stop.Tailor FileFault.Device)
        → IsUnread (D.open_gives folder.now) D.File.left D.File.failures path.now }
    ensures missing { D.is_missing folder.now path.now ≡ true
        → result ≡ Err (Stop.Tailor FileFault.Device) }
{
    match read_file(folder, alloc, path) {
        Ok(tailor) => Ok(Table::read_tailored(alloc, base, &tailor)?),
        Err(fault) => Err(Stop::Tailor(fault)),
    }
}

/// The bytes of the file at `path`.
fn read_file<D: Folder>(folder: &D, alloc: Global, path: &str) -> Result<Vec<u8>, FileFault>
    ensures bytes { IfOk result (λ bytes. IfAt (D.bytes_at folder.now path.now) bytes.items) }
    ensures cause { result ≡ Err FileFault.Device
        → IsUnread (D.open_gives folder.now) D.File.left D.File.failures path.now }
    ensures missing { D.is_missing folder.now path.now ≡ true → result ≡ Err FileFault.Device }
{
    let Ok(mut file) = folder.open(path) else {
        return Err(FileFault::Device);
    };
    read_all(alloc, &mut file)
}
