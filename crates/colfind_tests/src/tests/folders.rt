//! Which file is read for what, over a folder in memory, whose files are observable.
ghost use Rattle.std.specs.Prelude.{◌≡◌, Some, None, not, is_ok, codes, ◌||◌, if◌then◌else◌};
ghost use Rattle.std.specs.Str.{bytes_eq};

use super::devices::FailingSource;
use super::{TABLE, bytes_are, same};
use colfind_io::{DeviceFault, FileFault, Folder, MemorySource, MemoryTarget};
use colfind_run::faults::Stop;
use colfind_run::program::count_matches;
use std::alloc::Global;
use std::process::Abort;

/// A table file, a tailor file and a text file, each at the path that says so, and at `broken` the text file again, of which two bytes can
/// be read. There are no others.
#[derive(Clone, Copy)]
struct MemoryFolder<'a> {
    table: &'a [u8],
    tailor: &'a [u8],
    text: &'a [u8],
}

impl<'a> Folder for MemoryFolder<'a> {
    type File = FailingSource<'a>;

    ghost bytes_at = { λ d path. if bytes_eq path (codes "table") then Some d.table.now else
        (if bytes_eq path (codes "tailor") then Some d.tailor.now else
        (if bytes_eq path (codes "text") || bytes_eq path (codes "broken") then Some d.text.now else None)) };

    ghost is_missing = { λ _ path. not (bytes_eq path (codes "table") || (bytes_eq path (codes "tailor")
        || (bytes_eq path (codes "text") || bytes_eq path (codes "broken")))) };

    ghost open_gives = { λ _ path answer. is_ok answer ≡ (bytes_eq path (codes "table")
        || (bytes_eq path (codes "tailor") || (bytes_eq path (codes "text") || bytes_eq path (codes "broken")))) };

    fn open(&self, path: &str) -> Result<FailingSource<'a>, DeviceFault> {
        if path == "table" {
            Ok(FailingSource::new(self.table, 7, u64::MAX))
        } else if path == "tailor" {
            Ok(FailingSource::new(self.tailor, 7, u64::MAX))
        } else if path == "text" {
            Ok(FailingSource::new(self.text, 7, u64::MAX))
        } else if path == "broken" {
            Ok(FailingSource::new(self.text, 2, 1))
        } else {
            Err(DeviceFault)
        }
    }
}

/// The four files.
fn four_files() -> MemoryFolder<'static> {
    MemoryFolder {
        table: TABLE.as_bytes(),
        tailor: b"0062 ; [.1C00.0020.0002]",
        text: b"aab",
    }
}

/// Compares what the words give over the four files, and an input that is one `a`.
fn compare<'a>(
    rt: &impl Abort,
    alloc: Global,
    words: &'a [&'a str],
    wanted: Result<u64, Stop>,
    printed: &str,
) {
    let mut input = MemorySource::new(b"a", 1);
    let mut out = MemoryTarget::new(alloc);
    let answer = count_matches(&four_files(), alloc, words, &mut input, &mut out);
    same(rt, &answer, &wanted);
    bytes_are(rt, out.bytes(), printed.as_bytes());
}

#[test]
fn each_file_is_read_for_its_part(rt: HostRuntime) {
    let alloc = rt.alloc();
    let words = ["--table", "table", "a", "text"];
    compare(&rt, alloc, &words, Ok(2), "0:1\n1:2\n");
    let words = ["--table", "table", "--tailor", "tailor", "a", "text"];
    compare(&rt, alloc, &words, Ok(3), "0:1\n1:2\n2:3\n");
    let words = ["--table", "table", "a"];
    compare(&rt, alloc, &words, Ok(1), "0:1\n");
    let none = Err(Stop::File(FileFault::Device));
    let words = ["--table", "none", "--tailor", "none", "a", "none"];
    compare(&rt, alloc, &words, none, "");
    let none = Err(Stop::Tailor(FileFault::Device));
    let words = ["--table", "table", "--tailor", "none", "a", "none"];
    compare(&rt, alloc, &words, none, "");
    let words = ["--table", "table", "--tailor", "tailor", "a", "none"];
    compare(&rt, alloc, &words, Err(Stop::TextFile), "");
}

#[test]
fn a_file_that_fails_is_reported_for_its_part(rt: HostRuntime) {
    let alloc = rt.alloc();
    let failed = Err(Stop::File(FileFault::Device));
    let words = ["--table", "broken", "--tailor", "broken", "a", "broken"];
    compare(&rt, alloc, &words, failed, "");
    let failed = Err(Stop::Tailor(FileFault::Device));
    let words = ["--table", "table", "--tailor", "broken", "a", "broken"];
    compare(&rt, alloc, &words, failed, "");
    let words = ["--table", "table", "a", "broken"];
    compare(&rt, alloc, &words, Err(Stop::Read(2)), "0:1\n");
}
