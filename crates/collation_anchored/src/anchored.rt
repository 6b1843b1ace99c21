//! Whether a whole text is a match, and where a match ends that begins with it.

ghost use Rattle.std.specs.Prelude.{◌≡◌, ◌⊎◌, ℕ, List, Result, Bool, Err};
ghost use Rattle.collation_table.specs.Table.{longest_mapped};
ghost use Rattle.collation_pattern.specs.Compiled.{IsCompiledWith};
ghost use Rattle.collation_anchored.specs.Answers.{equal_answer, begins_answer, no_memory};

use crate::comparison::{Asked, Comparison, Reading};
use collation_elements::clusters_are_parts;
use collation_matches::TextFault;
use collation_pattern::Pattern;
use collation_pattern::laws::key_law;
use collation_table::Weights;
use nfd_points::laws::laws_of_faults;
use std::alloc::{AllocError, Global};
use utf8_cut::{front, whole_characters_are_the_longest_text};

/// Whether a whole text is a match of a pattern, as [`Anchored::equals`] says. The pattern was compiled with this table.
///
/// # Errors
///
/// Those of [`Anchored::equals`], or 36 at 0 where [`Anchored::new`] was refused memory. That this is for no other reason no clause says,
/// for none can name the request: it is read off the body, and tested.
pub fn equal<W: Weights>(
    alloc: Global,
    table: &W,
    pattern: &Pattern,
    text: &[u8],
) -> Result<bool, TextFault>
    ensures answer { (p : List ℕ) → IsCompiledWith (W.table table.now) pattern.now p
        → (result ≡ Err no_memory)
        ⊎ (result ≡ equal_answer (W.table table.now) pattern.now p text.now) }
{
    let Ok(mut anchored) = Anchored::new(alloc, table, pattern) else {
        return Err(TextFault {
            kind: TextFault::NO_MEMORY,
            offset: 0,
        });
    };
    anchored.equals(text)
}

/// Where the least match of a pattern ends that begins where a text begins, as [`Anchored::begins`] says. The pattern was compiled with
/// this table.
///
/// # Errors
///
/// Those of [`Anchored::begins`], or 36 at 0 where [`Anchored::new`] was refused memory. That this is for no other reason no clause says,
/// for none can name the request: it is read off the body, and tested.
pub fn begins<W: Weights>(
    alloc: Global,
    table: &W,
    pattern: &Pattern,
    text: &[u8],
) -> Result<Option<u64>, TextFault>
    ensures answer { (p : List ℕ) → IsCompiledWith (W.table table.now) pattern.now p
        → (result ≡ Err no_memory)
        ⊎ (result ≡ begins_answer (W.table table.now) pattern.now p text.now) }
{
    let Ok(mut anchored) = Anchored::new(alloc, table, pattern) else {
        return Err(TextFault {
            kind: TextFault::NO_MEMORY,
            offset: 0,
        });
    };
    anchored.begins(text)
}

/// Asks texts in memory for matches that are anchored, one text after the other.
#[derive(Drop)]
pub struct Anchored<'a, W: Weights> {
    pub(crate) table: &'a W,
    pub(crate) pattern: &'a Pattern,
    /// It stands on the heap, so that what asks texts does not carry it when it is moved.
    pub(crate) comparison: Box<Comparison>,
    ghost longest: { comparison.value.longest_key ≡ longest_mapped (W.table table.now) },
}

impl<'a, W: Weights> Anchored<'a, W> {
    ghost use Rattle.std.specs.Prelude.{◌≡◌, ℕ, List, IfOk, None};
    ghost use Rattle.collation_pattern.specs.Compiled.{IsCompiledWith};
    ghost use Rattle.collation_matches.specs.GoodPrefix.{fault as fault_of};
    ghost use Rattle.collation_anchored.specs.Answers.{equal_answer, begins_answer, has_more_keys};

    /// Lends a table and a pattern that was compiled with it.
    ///
    /// # Errors
    ///
    /// Where memory was refused. That it is for no other reason no clause says: the body has no other `Err`, and it is tested.
    pub fn new(alloc: Global, table: &'a W, pattern: &'a Pattern) -> Result<Self, AllocError>
        ensures table { IfOk result (λ made. made.table.now ≡ table.now) }
        ensures pattern { IfOk result (λ made. made.pattern.now ≡ pattern.now) }
    {
        let comparison = Comparison::new(alloc, table, pattern)?;
        Ok(Anchored {
            table,
            pattern,
            comparison: Box::new(alloc, comparison)?,
        })
    }

    /// Whether the whole text is a match: its sort key is the pattern's (UTS #10, S3). Ignorable characters at its ends belong to it. It
    /// stops behind the first unit whose keys are others: of a text that begins with another letter than the pattern it reads its first
    /// characters alone. No memory is taken.
    ///
    /// # Errors
    ///
    /// The first fault of the text, where it stands before the answer is decided: the text counts as ended there, and its keys are the
    /// first of the pattern's, or all of them. A fault behind is not told.
    pub fn equals(&mut self, text: &[u8]) -> Result<bool, TextFault>
        ensures answer { (p : List ℕ)
            → IsCompiledWith (W.table self.old.table.now) self.old.pattern.now p
            → result ≡ equal_answer (W.table self.old.table.now) self.old.pattern.now p text.now }
        ensures table { self.new.table.now ≡ self.old.table.now }
        ensures pattern { self.new.pattern.now ≡ self.old.pattern.now }
    {
        key_law(self.table);
        laws_of_faults();
        whole_characters_are_the_longest_text();
        let comparison = &mut *self.comparison;
        match comparison.read(self.table, self.pattern, text, Asked::Whole) {
            Reading::Decided => Ok(false),
            Reading::Ended(at) => {
                let begun = comparison.end(self.table, self.pattern);
                if !begun {
                    return Ok(false);
                }
                match at {
                    Some(fault) => Err(fault),
                    None => Ok(comparison.progress.matched == self.pattern.len()),
                }
            }
        }
    }

    /// Where the least match ends that begins where the text begins: in bytes from there, the end not included; `None` where no match
    /// begins there. It is a match in the sense of [`Anchored::equals`], and need not be minimal: ignorable characters in front belong to
    /// it. It stops behind the first unit whose keys are others, and where the cluster has ended that completes the pattern's keys. No
    /// memory is taken.
    ///
    /// # Errors
    ///
    /// The first fault of the text, where it stands before the answer is decided: the text counts as ended there, its keys are the first
    /// of the pattern's, or all of them, and no match ends before the fault. A match that ends at the fault is not told. A fault behind
    /// is not told.
    pub fn begins(&mut self, text: &[u8]) -> Result<Option<u64>, TextFault>
        ensures answer { (p : List ℕ)
            → IsCompiledWith (W.table self.old.table.now) self.old.pattern.now p
            → result ≡ begins_answer (W.table self.old.table.now) self.old.pattern.now p text.now }
        ensures table { self.new.table.now ≡ self.old.table.now }
        ensures pattern { self.new.pattern.now ≡ self.old.pattern.now }
    {
        key_law(self.table);
        clusters_are_parts();
        laws_of_faults();
        whole_characters_are_the_longest_text();
        let most = self.pattern.len();
        let comparison = &mut *self.comparison;
        match comparison.read(self.table, self.pattern, text, Asked::Beginning) {
            Reading::Decided => Ok(comparison.progress.completed),
            Reading::Ended(at) => {
                let begun = comparison.end(self.table, self.pattern);
                let completed = comparison.progress.completed;
                if completed.is_some() || !begun {
                    return Ok(completed);
                }
                match at {
                    Some(first) => Err(first),
                    None => {
                        if comparison.progress.matched == most {
                            Ok(Some(text.len() as u64))
                        } else {
                            Ok(None)
                        }
                    }
                }
            }
        }
    }

    /// Whether a text has more keys than the pattern. It counts them up to one more than these, and no memory is taken. Of a text with a
    /// fault nothing is said.
    pub fn has_more_keys(&mut self, text: &[u8]) -> bool
        ensures more { fault_of text.now ≡ None
            → result ≡ has_more_keys (W.table self.old.table.now) self.old.pattern.now text.now }
        ensures table { self.new.table.now ≡ self.old.table.now }
        ensures pattern { self.new.pattern.now ≡ self.old.pattern.now }
    {
        laws_of_faults();
        whole_characters_are_the_longest_text();
        match front(text) {
            (text, None) => {
                self.comparison
                    .has_more_keys(self.table, self.pattern, text, text.len())
            }
            (_, Some(_)) => false,
        }
    }
}
