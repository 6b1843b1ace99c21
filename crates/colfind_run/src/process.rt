//! The process: its words, and the status that it ends with.
ghost use Rattle.std.specs.Prelude.{◌≡◌, ◌^◌, ◌<◌, ◌≤◌, ℕ, List, map, IfOk, string_bytes, true};
ghost use Rattle.std.specs.Process.{exit_status};
ghost use Rattle.clap.specs.Words.{Text};
ghost use Rattle.colfind_run.specs.declared.faults.Stop.{Stop};
ghost use Rattle.colfind_run.specs.Faults.{fault_of, ReportsLine, ReportsSomeFault};
ghost use Rattle.colfind_run.specs.Searching.{FindsAsked, no_files, status_of};
ghost use Rattle.colfind_run.specs.Stopping.{IsReason, is_before_text, seen};

use crate::faults::{Fault, MEMORY};
use crate::program::{program, report};
use colfind_io::{Source, Target};
use std::alloc::{AllocError, Global};
use std::env;
use std::io::{Eprint, ErrorKind};
use std::process::{ExitCode, Termination};

/// The status that the process ends with. Only `ended` makes one.
#[derive(Drop)]
pub struct Status {
    number: u8,
}

impl Termination for Status {
    fn report<P: Eprint>(self, _rt: &P) -> ExitCode
        ensures { exit_status result ≡ self.number }
    {
        ExitCode::from(self.number)
    }
}

/// What the words after the program's name ask for, over three streams. It answers the status: 0
/// where there are matches and no fault, 1 where there are neither, and 2 at a fault, of which it
/// writes a line to `err`.
pub fn ended<R: Source, O: Target, E: Target>(
    rt: &HostRuntime,
    input: &mut R,
    out: &mut O,
    err: &mut E,
) -> Status
    requires reads { R.failures input.old < 2 ^ 63 }
    requires writes { O.failures out.old < 2 ^ 63 }
    requires reports { E.failures err.old < 2 ^ 63 }
    ensures status { result.number ≤ 2 }
    // No clause can name the words of a process, so they are any.
    ensures found { result.number < 2 → (words : List Text) × (count : ℕ)
        × (result.number ≡ status_of count)
        × FindsAsked no_files words (input.new ≡ input.old) count
        (R.left input.old) (R.left input.new) (O.held out.old) (O.held out.new) }
    ensures sound { result.number < 2 → (R.failures input.new ≡ R.failures input.old)
        × (O.failures out.new ≡ O.failures out.old) }
    ensures quiet { result.number < 2 → err.new ≡ err.old }
    ensures reported { result.number ≡ 2 → ReportsSomeFault (E.held err.old) (E.held err.new)
        (E.failures err.old) (E.failures err.new) }
{
    let number = match given_words(rt) {
        Ok(words) => answer(rt, &words, input, out, err),
        Err(fault) => report(err, fault),
    };
    Status { number }
}

/// The words after the program's name.
fn given_words(rt: &HostRuntime) -> Result<Vec<String>, Fault> {
    match env::args(rt) {
        Ok(mut words) => {
            let _name = words.next();
            words.collect(rt.alloc()).map_err(|_| Fault::At(MEMORY, 0))
        }
        Err(error) if error.kind() == ErrorKind::OutOfMemory => Err(Fault::At(MEMORY, 0)),
        Err(_) => Err(Fault::Usage),
    }
}

/// What these words ask for, over three streams, as `program` answers it.
fn answer<R: Source, O: Target, E: Target>(
    rt: &HostRuntime,
    given: &Vec<String>,
    input: &mut R,
    out: &mut O,
    err: &mut E,
) -> u8
    requires reads { R.failures input.old < 2 ^ 63 }
    requires writes { O.failures out.old < 2 ^ 63 }
    requires reports { E.failures err.old < 2 ^ 63 }
    ensures status { result ≤ 2 }
    ensures found { result < 2 → (count : ℕ) × (result ≡ status_of count)
        × FindsAsked no_files (map (λ word. string_bytes word) given.now.items)
        (input.new ≡ input.old) count
        (R.left input.old) (R.left input.new) (O.held out.old) (O.held out.new) }
    ensures sound { result < 2 → (R.failures input.new ≡ R.failures input.old)
        × (O.failures out.new ≡ O.failures out.old) }
    ensures quiet { result < 2 → err.new ≡ err.old }
    ensures first { result ≡ 2 → (stop : Stop)
        × ReportsLine (fault_of stop) (E.held err.old) (E.held err.new)
        (E.failures err.old) (E.failures err.new)
        × IsReason no_files (map (λ word. string_bytes word) given.now.items)
        (input.new ≡ input.old) stop
        (seen (R.left input.old) (R.failures input.old) (O.held out.old) (O.failures out.old))
        (seen (R.left input.new) (R.failures input.new) (O.held out.new) (O.failures out.new))
        × (is_before_text stop ≡ true → (input.new ≡ input.old) × (out.new ≡ out.old)) }
{
    let Ok(words) = texts_of(rt.alloc(), given) else {
        return report(err, Fault::At(MEMORY, 0));
    };
    program(rt, rt.alloc(), &words, input, out, err)
}

/// The texts of words.
///
/// # Errors
///
/// Only where memory was refused.
fn texts_of<'a>(alloc: Global, given: &'a Vec<String>) -> Result<Vec<&'a str>, AllocError>
    ensures { IfOk result (λ texts.
        map (λ text. text.now) texts.items ≡ map (λ word. string_bytes word) given.now.items) }
{
    let mut words = Vec::new(alloc);
    for word in given {
        words.push(word.as_str())?;
    }
    Ok(words)
}
