//! What C calls. `colfind.h` says of each call what it gives, who owns what, and what C must uphold.

ghost use Rattle.std.specs.Prelude.{◌≡◌, ℕ, Option, length, None, Some, IfSome, IfNone};
ghost use Rattle.std.specs.Arc.{arc_value};
ghost use Rattle.std.specs.Str.{IsUtf8};
ghost use Rattle.colfind_c.specs.Exports.{StatusSays, Tells, OfTable, OfPattern, OfSearch, AsksPattern, AsksSearch, untouched, MakesTable, MakesPattern, StartsSearch, GoesOnFrom, AnswersFirst, AnswersFirstFrom, TakesOldest, SavesInto, SharesTable, SharesQuery, SharesOwned, SharesInto, IsGiven, GivesTable, GivesPattern, IsCompiled, strength_for, variable_for, select_for, pending, first_of, number_of};
ghost use Rattle.colfind_c.specs.Messages.{as_text, message};
ghost use Rattle.colfind_c.specs.Sessions.{FeedsSession, FinishesSession, StopsSession, FirstInSession, AllInSession};

use crate::handle::{Handle, put, take};
use crate::message::write_text;
use crate::outcome::{Outcome, Status};
use crate::owned::{Owned, Query, Session};
use crate::queue::Range;
use collation_elements::{Strength, Variable};
use collation_pattern::Pattern;
use collation_search::{Select, index, index_from};
use collation_table::Table;
use std::alloc::Global;
use std::sync::Arc;
use utf8_cut::front;

/// Gives a handle a value.
fn give(alloc: Global, out: &mut Handle, owned: Owned) -> Outcome
    ensures given { IsGiven owned result out.old.value out.new.value }
{
    match Box::new(alloc, owned) {
        Ok(boxed) => {
            put(alloc, out, boxed);
            Outcome::Good
        }
        Err(_) => Outcome::NoMemory,
    }
}

/// Gives a handle a table.
fn give_table(alloc: Global, out: &mut Handle, table: Table) -> Outcome
    ensures given { GivesTable table result out.old.value out.new.value }
{
    match Arc::new(alloc, table) {
        Ok(table) => give(alloc, out, Owned::Table(table)),
        Err(_) => Outcome::NoMemory,
    }
}

/// Reads a table into a handle.
fn make_table(alloc: Global, out: &mut Handle, base: &[u8], tailor: &[u8]) -> Outcome
    ensures made { MakesTable base.now tailor.now result out.old.value out.new.value }
{
    match Table::read_tailored(alloc, base, tailor) {
        Ok(table) => give_table(alloc, out, table),
        Err(fault) => Outcome::Table(fault),
    }
}

/// The table of a file in memory, and of one that tailors it, which may be empty.
#[unsafe(no_mangle)]
pub extern "C" fn colfind_table(
    alloc: Global,
    out: &mut Handle,
    base: &[u8],
    tailor: &[u8],
) -> Status
    ensures made { StatusSays result
        (λ outcome. MakesTable base.now tailor.now outcome out.old.value out.new.value) }
{
    make_table(alloc, out, base, tailor).status()
}

/// A strength from its number.
fn strength_of(number: u8) -> Option<Strength>
    ensures { result ≡ strength_for number }
{
    match number {
        1 => Some(Strength::One),
        2 => Some(Strength::Two),
        3 => Some(Strength::Three),
        _ => None,
    }
}

/// A variable weighting from its number.
fn variable_of(number: u8) -> Option<Variable>
    ensures { result ≡ variable_for number }
{
    match number {
        0 => Some(Variable::NonIgnorable),
        1 => Some(Variable::Shifted),
        _ => None,
    }
}

/// A selection from its number.
fn select_of(number: u8) -> Option<Select>
    ensures { result ≡ select_for number }
{
    match number {
        0 => Some(Select::All),
        1 => Some(Select::Chain),
        _ => None,
    }
}

/// The table that a handle holds, once more.
fn table_in(owned: &Owned) -> Result<Arc<Table>, Outcome>
    ensures shared { SharesTable (Some owned.now) result }
{
    match owned {
        Owned::Table(table) => match Arc::try_clone(table) {
            Ok(shared) => Ok(shared),
            Err(_) => Err(Outcome::NoMemory),
        },
        _ => Err(Outcome::WrongHandle),
    }
}

/// The pattern that a handle holds, once more.
fn query_in(owned: &Owned) -> Result<Arc<Query>, Outcome>
    ensures shared { SharesQuery (Some owned.now) result }
{
    match owned {
        Owned::Pattern(query) => match Arc::try_clone(query) {
            Ok(shared) => Ok(shared),
            Err(_) => Err(Outcome::NoMemory),
        },
        _ => Err(Outcome::WrongHandle),
    }
}

/// Bytes as text, if they are UTF-8 as a whole.
fn text_of(bytes: &[u8]) -> Option<&str>
    ensures some { IfSome result (λ text. text.now ≡ bytes.now) }
    ensures none { IfNone result (¬ (IsUtf8 bytes.now)) }
{
    match front(bytes) {
        (text, None) => Some(text),
        (_, Some(_)) => None,
    }
}

/// Compiles a pattern.
fn compile(
    alloc: Global,
    table: Arc<Table>,
    text: &[u8],
    strength: u8,
    variable: u8,
) -> Result<Query, Outcome>
    ensures compiled { IsCompiled (arc_value table) text.now strength variable result }
{
    let (Some(strength), Some(variable)) = (strength_of(strength), variable_of(variable)) else {
        return Err(Outcome::BadArgument);
    };
    let Some(text) = text_of(text) else {
        return Err(Outcome::BadArgument);
    };
    match Pattern::compile(alloc, &*table, text, strength, variable) {
        Ok(pattern) => Ok(Query { table, pattern }),
        Err(fault) => Err(Outcome::Pattern(fault)),
    }
}

/// Gives a handle a pattern.
fn give_pattern(alloc: Global, out: &mut Handle, query: Query) -> Outcome
    ensures given { GivesPattern query result out.old.value out.new.value }
{
    match Arc::new(alloc, query) {
        Ok(query) => give(alloc, out, Owned::Pattern(query)),
        Err(_) => Outcome::NoMemory,
    }
}

/// Compiles a pattern into a handle.
fn make_pattern(
    alloc: Global,
    table: Arc<Table>,
    out: &mut Handle,
    text: &[u8],
    strength: u8,
    variable: u8,
) -> Outcome
    ensures made { MakesPattern
        (arc_value table) text.now strength variable result out.old.value out.new.value }
{
    match compile(alloc, table, text, strength, variable) {
        Ok(query) => give_pattern(alloc, out, query),
        Err(outcome) => outcome,
    }
}

/// The table that a handle holds, once more.
fn table_of(alloc: Global, table: &mut Handle) -> Result<Arc<Table>, Outcome>
    ensures shared { SharesTable table.old.value result }
    ensures same { table.new.value ≡ table.old.value }
{
    match take(alloc, table) {
        Some(owned) => {
            let shared = table_in(&*owned);
            put(alloc, table, owned);
            shared
        }
        None => Err(Outcome::WrongHandle),
    }
}

/// A pattern that is compiled with a table.
#[unsafe(no_mangle)]
pub extern "C" fn colfind_pattern(
    alloc: Global,
    table: &mut Handle,
    out: &mut Handle,
    text: &[u8],
    strength: u8,
    variable: u8,
) -> Status
    ensures made { StatusSays result
        (λ outcome. OfTable
        (λ t how. MakesPattern t text.now strength variable how out.old.value out.new.value)
        table.old.value outcome) }
    ensures same { table.new.value ≡ table.old.value }
{
    match table_of(alloc, table) {
        Ok(shared) => make_pattern(alloc, shared, out, text, strength, variable).status(),
        Err(outcome) => outcome.status(),
    }
}

/// A value that threads may share, as the compiler sees by its type.
fn for_threads<T: Send + Sync>(value: T) -> T
    ensures { result ≡ value }
{
    value
}

/// The table or the pattern that a handle holds, once more.
fn share_in(owned: &Owned) -> Result<Owned, Outcome>
    ensures shared { SharesOwned (Some owned.now) result }
{
    match owned {
        Owned::Table(table) => match Arc::try_clone(table) {
            Ok(shared) => Ok(Owned::Table(for_threads(shared))),
            Err(_) => Err(Outcome::NoMemory),
        },
        Owned::Pattern(query) => match Arc::try_clone(query) {
            Ok(shared) => Ok(Owned::Pattern(for_threads(shared))),
            Err(_) => Err(Outcome::NoMemory),
        },
        Owned::Search(_) => Err(Outcome::WrongHandle),
    }
}

/// The same of a handle.
fn share_of(alloc: Global, handle: &mut Handle) -> Result<Owned, Outcome>
    ensures shared { SharesOwned handle.old.value result }
    ensures same { handle.new.value ≡ handle.old.value }
{
    match take(alloc, handle) {
        Some(owned) => {
            let shared = share_in(&*owned);
            put(alloc, handle, owned);
            shared
        }
        None => Err(Outcome::WrongHandle),
    }
}

/// A second handle for a table or a pattern, which may be used in another thread than the first.
#[unsafe(no_mangle)]
pub extern "C" fn colfind_share(alloc: Global, handle: &mut Handle, out: &mut Handle) -> Status
    ensures shared { StatusSays result
        (λ outcome. SharesInto handle.old.value outcome out.old.value out.new.value) }
    ensures same { handle.new.value ≡ handle.old.value }
{
    match share_of(alloc, handle) {
        Ok(owned) => give(alloc, out, owned).status(),
        Err(outcome) => outcome.status(),
    }
}

/// The pattern that a handle holds, once more.
pub(crate) fn query_of(alloc: Global, pattern: &mut Handle) -> Result<Arc<Query>, Outcome>
    ensures shared { SharesQuery pattern.old.value result }
    ensures same { pattern.new.value ≡ pattern.old.value }
{
    match take(alloc, pattern) {
        Some(owned) => {
            let shared = query_in(&*owned);
            put(alloc, pattern, owned);
            shared
        }
        None => Err(Outcome::WrongHandle),
    }
}

/// Starts a search into a handle.
fn start_search(alloc: Global, query: Arc<Query>, out: &mut Handle, select: u8) -> Outcome
    ensures started { StartsSearch (arc_value query) select result out.old.value out.new.value }
{
    match select_of(select) {
        Some(select) => match Session::new(alloc, query, select) {
            Ok(session) => give(alloc, out, Owned::Search(session)),
            Err(_) => Outcome::NoMemory,
        },
        None => Outcome::BadArgument,
    }
}

/// A search at the beginning of a text.
#[unsafe(no_mangle)]
pub extern "C" fn colfind_search(
    alloc: Global,
    pattern: &mut Handle,
    out: &mut Handle,
    select: u8,
) -> Status
    ensures made { StatusSays result
        (λ outcome. OfPattern
        (λ q how. StartsSearch q select how out.old.value out.new.value)
        pattern.old.value outcome) }
    ensures same { pattern.new.value ≡ pattern.old.value }
{
    match query_of(alloc, pattern) {
        Ok(query) => start_search(alloc, query, out, select).status(),
        Err(outcome) => outcome.status(),
    }
}

/// Resumes a search into a handle.
fn go_on(alloc: Global, query: Arc<Query>, out: &mut Handle, select: u8, words: &[u64]) -> Outcome
    ensures goes_on { GoesOnFrom
        (arc_value query) select words.now result out.old.value out.new.value }
{
    match select_of(select) {
        Some(select) => match Session::resume(alloc, query, select, words) {
            Ok(session) => give(alloc, out, Owned::Search(session)),
            Err(fault) => Outcome::State(fault),
        },
        None => Outcome::BadArgument,
    }
}

/// A search that goes on from words.
#[unsafe(no_mangle)]
pub extern "C" fn colfind_resume(
    alloc: Global,
    pattern: &mut Handle,
    out: &mut Handle,
    select: u8,
    words: &[u64],
) -> Status
    ensures made { StatusSays result
        (λ outcome. OfPattern
        (λ q how. GoesOnFrom q select words.now how out.old.value out.new.value)
        pattern.old.value outcome) }
    ensures same { pattern.new.value ≡ pattern.old.value }
{
    match query_of(alloc, pattern) {
        Ok(query) => go_on(alloc, query, out, select, words).status(),
        Err(outcome) => outcome.status(),
    }
}

/// Feeds a piece to what a handle holds.
fn feed_owned(owned: &mut Owned, piece: &[u8]) -> Outcome
    ensures fed { OfSearch (λ old how new. FeedsSession old piece.now how new)
        (Some owned.old) result (Some owned.new) }
{
    match owned {
        Owned::Search(session) => session.feed(piece),
        _ => Outcome::WrongHandle,
    }
}

/// Takes a piece of the text.
#[unsafe(no_mangle)]
pub extern "C" fn colfind_feed(alloc: Global, search: &mut Handle, piece: &[u8]) -> Status
    ensures fed { StatusSays result
        (λ outcome. OfSearch
        (λ old how new. FeedsSession old piece.now how new)
        search.old.value outcome search.new.value) }
{
    match take(alloc, search) {
        Some(mut owned) => {
            let outcome = feed_owned(&mut *owned, piece);
            put(alloc, search, owned);
            outcome.status()
        }
        None => Outcome::WrongHandle.status(),
    }
}

/// Ends the text of what a handle holds.
fn finish_owned(owned: &mut Owned) -> Outcome
    ensures finished { OfSearch FinishesSession (Some owned.old) result (Some owned.new) }
{
    match owned {
        Owned::Search(session) => session.finish(),
        _ => Outcome::WrongHandle,
    }
}

/// Ends the text.
#[unsafe(no_mangle)]
pub extern "C" fn colfind_finish(alloc: Global, search: &mut Handle) -> Status
    ensures finished { StatusSays result
        (λ outcome. OfSearch FinishesSession search.old.value outcome search.new.value) }
{
    match take(alloc, search) {
        Some(mut owned) => {
            let outcome = finish_owned(&mut *owned);
            put(alloc, search, owned);
            outcome.status()
        }
        None => Outcome::WrongHandle.status(),
    }
}

/// Gives the text up of what a handle holds.
fn stop_owned(owned: &mut Owned) -> Outcome
    ensures stopped { OfSearch StopsSession (Some owned.old) result (Some owned.new) }
{
    match owned {
        Owned::Search(session) => session.stop(),
        _ => Outcome::WrongHandle,
    }
}

/// Gives the text up.
#[unsafe(no_mangle)]
pub extern "C" fn colfind_stop(alloc: Global, search: &mut Handle) -> Status
    ensures stopped { StatusSays result
        (λ outcome. OfSearch StopsSession search.old.value outcome search.new.value) }
{
    match take(alloc, search) {
        Some(mut owned) => {
            let outcome = stop_owned(&mut *owned);
            put(alloc, search, owned);
            outcome.status()
        }
        None => Outcome::WrongHandle.status(),
    }
}

/// Takes ranges of what a handle holds.
fn take_owned(owned: &mut Owned, out: &mut [Range]) -> usize
    ensures taken { TakesOldest (Some owned.old) (length out.old) result out.new (Some owned.new) }
    ensures len { length out.new ≡ length out.old }
{
    match owned {
        Owned::Search(session) => session.take(out),
        _ => 0,
    }
}

/// Takes ranges that wait, the oldest first: how many. A handle that holds no search has none.
#[unsafe(no_mangle)]
pub extern "C" fn colfind_take(alloc: Global, search: &mut Handle, out: &mut [Range]) -> usize
    ensures taken { TakesOldest search.old.value (length out.old) result out.new search.new.value }
{
    match take(alloc, search) {
        Some(mut owned) => {
            let count = take_owned(&mut *owned, out);
            put(alloc, search, owned);
            count
        }
        None => 0,
    }
}

/// How many ranges of what a handle holds wait.
fn pending_in(owned: &Owned) -> usize
    ensures { result ≡ pending (Some owned.now) }
{
    match owned {
        Owned::Search(session) => session.queue.len(),
        _ => 0,
    }
}

/// How many ranges wait. A handle that holds no search has none.
#[unsafe(no_mangle)]
pub extern "C" fn colfind_pending(alloc: Global, search: &mut Handle) -> usize
    ensures counted { result ≡ pending search.old.value }
    ensures same { search.new.value ≡ search.old.value }
{
    let Some(owned) = take(alloc, search) else {
        return 0;
    };
    let count = pending_in(&*owned);
    put(alloc, search, owned);
    count
}

/// Writes the words of what a handle holds into a buffer, if they have room: how the call has ended, and how many there are.
fn save_owned(alloc: Global, owned: &mut Owned, out: &mut [u64]) -> (Outcome, usize)
    ensures saved { AsksSearch (untouched out.old)
        (λ old given how new. SavesInto out.old given.1 given.0 old how new)
        (Some owned.old) (result.1, out.new) result.0 (Some owned.new) }
    ensures len { length out.new ≡ length out.old }
{
    match owned {
        Owned::Search(session) => save_session(alloc, session, out),
        _ => (Outcome::WrongHandle, 0),
    }
}

/// Writes the words of a search into a buffer, if they have room: how the call has ended, and how many there are.
fn save_session(alloc: Global, session: &mut Session, out: &mut [u64]) -> (Outcome, usize)
    ensures saved { SavesInto out.old out.new result.1 session.old result.0 session.new }
    ensures len { length out.new ≡ length out.old }
{
    let mut words = Vec::new(alloc);
    match session.save(&mut words) {
        Outcome::Good => {}
        failed => return (failed, 0),
    }
    let count = words.len();
    if count > out.len() {
        return (Outcome::Short(count as u64), count);
    }
    out[..count].copy_from_slice(words.as_slice());
    (Outcome::Good, count)
}

/// What became of a search that was to be saved.
#[repr(C)]
#[derive(Clone, Copy)]
pub struct Saved {
    pub status: Status,
    /// How many words the search has.
    pub words: usize,
}

/// Writes the search as words, from which another one goes on.
#[unsafe(no_mangle)]
pub extern "C" fn colfind_save(alloc: Global, search: &mut Handle, out: &mut [u64]) -> Saved
    ensures saved { StatusSays result.status
        (λ outcome. AsksSearch (untouched out.old)
        (λ old given how new. SavesInto out.old given.1 given.0 old how new)
        search.old.value (result.words, out.new) outcome search.new.value) }
{
    match take(alloc, search) {
        Some(mut owned) => {
            let (outcome, words) = save_owned(alloc, &mut *owned, out);
            put(alloc, search, owned);
            Saved {
                status: outcome.status(),
                words,
            }
        }
        None => Saved {
            status: Outcome::WrongHandle.status(),
            words: 0,
        },
    }
}

/// The first range of a text in memory, if there is one.
#[repr(C)]
#[derive(Clone, Copy)]
pub struct First {
    pub status: Status,
    /// 1 if there is a range, else 0.
    pub is_found: u32,
    pub range: Range,
}

/// The first range of a text for a pattern.
fn first_in(alloc: Global, query: &Query, text: &[u8]) -> (Outcome, Option<(u64, u64)>)
    ensures { AnswersFirst query.now text.now result.1 result.0 }
{
    match index(alloc, &*query.table, &query.pattern, text) {
        Ok(found) => (Outcome::Good, found),
        Err(fault) => (Outcome::Text(fault), None),
    }
}

/// What C gets of the first range of a text.
pub(crate) fn first_with(outcome: Outcome, found: Option<(u64, u64)>) -> First
    ensures { result ≡ first_of outcome found }
{
    let status = outcome.status();
    match found {
        Some((start, end)) => First {
            status,
            is_found: 1,
            range: Range { start, end },
        },
        None => First {
            status,
            is_found: 0,
            range: Range { start: 0, end: 0 },
        },
    }
}

/// The first range of a text in memory.
#[unsafe(no_mangle)]
pub extern "C" fn colfind_index(alloc: Global, pattern: &mut Handle, text: &[u8]) -> First
    ensures first { Tells first_of result
        (λ outcome range. AsksPattern None
        (λ q first how. AnswersFirst q text.now first how)
        pattern.old.value range outcome) }
    ensures same { pattern.new.value ≡ pattern.old.value }
{
    match query_of(alloc, pattern) {
        Ok(query) => {
            let (outcome, found) = first_in(alloc, &*query, text);
            first_with(outcome, found)
        }
        Err(outcome) => first_with(outcome, None),
    }
}

/// The first range for a pattern of what stands in a text from an offset on.
fn first_from(
    alloc: Global,
    query: &Query,
    text: &[u8],
    from: usize,
) -> (Outcome, Option<(u64, u64)>)
    ensures { AnswersFirstFrom query.now text.now from result.1 result.0 }
{
    if from > text.len() {
        return (Outcome::BadArgument, None);
    }
    match index_from(alloc, &*query.table, &query.pattern, text, from) {
        Ok(found) => (Outcome::Good, found),
        Err(fault) => (Outcome::Text(fault), None),
    }
}

/// The first range of what stands in a text from an offset on; its own offsets are from the beginning
/// of the text.
#[unsafe(no_mangle)]
pub extern "C" fn colfind_index_from(
    alloc: Global,
    pattern: &mut Handle,
    text: &[u8],
    from: usize,
) -> First
    ensures first { Tells first_of result
        (λ outcome range. AsksPattern None
        (λ q first how. AnswersFirstFrom q text.now from first how)
        pattern.old.value range outcome) }
    ensures same { pattern.new.value ≡ pattern.old.value }
{
    match query_of(alloc, pattern) {
        Ok(query) => {
            let (outcome, found) = first_from(alloc, &*query, text, from);
            first_with(outcome, found)
        }
        Err(outcome) => first_with(outcome, None),
    }
}

/// The first range for what a handle holds of what stands in a text from an offset on.
fn first_owned(owned: &mut Owned, text: &[u8], from: usize) -> (Outcome, Option<(u64, u64)>)
    ensures first { AsksSearch None
        (λ old first how new. FirstInSession old text.now from first how new)
        (Some owned.old) result.1 result.0 (Some owned.new) }
{
    match owned {
        Owned::Search(session) => session.first_in(text, from),
        _ => (Outcome::WrongHandle, None),
    }
}

/// The first range of what stands in a text from an offset on, by a search that was made before.
#[unsafe(no_mangle)]
pub extern "C" fn colfind_first_in(
    alloc: Global,
    search: &mut Handle,
    text: &[u8],
    from: usize,
) -> First
    ensures first { Tells first_of result
        (λ outcome range. AsksSearch None
        (λ old first how new. FirstInSession old text.now from first how new)
        search.old.value range outcome search.new.value) }
{
    match take(alloc, search) {
        Some(mut owned) => {
            let (outcome, found) = first_owned(&mut *owned, text, from);
            put(alloc, search, owned);
            first_with(outcome, found)
        }
        None => first_with(Outcome::WrongHandle, None),
    }
}

/// One number for whether there is a range: 1 or 0, or that of the fault before it.
fn number_for(outcome: Outcome, found: Option<(u64, u64)>) -> u32
    ensures { result ≡ number_of found outcome }
{
    match found {
        Some(_) => 1,
        None => outcome.status().kind,
    }
}

/// Whether a text in memory has a range, by a search that was made before: 1 or 0, or the number of the fault before it.
#[unsafe(no_mangle)]
pub extern "C" fn colfind_has(alloc: Global, search: &mut Handle, text: &[u8]) -> u32
    ensures has { (range : Option (ℕ × ℕ)) × (outcome : Outcome)
        × (result ≡ number_of range outcome)
        × AsksSearch None
        (λ old first how new. FirstInSession old text.now 0 first how new)
        search.old.value range outcome search.new.value }
{
    match take(alloc, search) {
        Some(mut owned) => {
            let (outcome, found) = first_owned(&mut *owned, text, 0);
            put(alloc, search, owned);
            number_for(outcome, found)
        }
        None => Outcome::WrongHandle.status().kind,
    }
}

/// What became of a call for all ranges of a text.
#[repr(C)]
#[derive(Clone, Copy)]
pub struct AllIn {
    pub status: Status,
    /// How many ranges the text has.
    pub count: usize,
}

/// All ranges of a text for what a handle holds.
fn all_owned(owned: &mut Owned, text: &[u8], out: &mut [Range]) -> (Outcome, usize)
    ensures all { AsksSearch (untouched out.old)
        (λ old given how new. AllInSession old text.now given.1 given.0 how new)
        (Some owned.old) (result.1, out.new) result.0 (Some owned.new) }
    ensures len { length out.new ≡ length out.old }
{
    match owned {
        Owned::Search(session) => session.all_in(text, out),
        _ => (Outcome::WrongHandle, 0),
    }
}

/// All ranges of a text in memory, by a search that was made before.
#[unsafe(no_mangle)]
pub extern "C" fn colfind_all_in(
    alloc: Global,
    search: &mut Handle,
    text: &[u8],
    out: &mut [Range],
) -> AllIn
    ensures all { StatusSays result.status
        (λ outcome. AsksSearch (untouched out.old)
        (λ old given how new. AllInSession old text.now given.1 given.0 how new)
        search.old.value (result.count, out.new) outcome search.new.value) }
{
    match take(alloc, search) {
        Some(mut owned) => {
            let (outcome, count) = all_owned(&mut *owned, text, out);
            put(alloc, search, owned);
            AllIn {
                status: outcome.status(),
                count,
            }
        }
        None => AllIn {
            status: Outcome::WrongHandle.status(),
            count: 0,
        },
    }
}

/// Writes what a status says as text, with a zero byte behind it, or the front of it where the buffer
/// is too small: how many bytes the whole text has, without the zero byte.
#[unsafe(no_mangle)]
pub extern "C" fn colfind_message(status: Status, out: &mut [u8]) -> usize
    ensures written { out.new ≡ as_text (message status) out.old }
    ensures len { result ≡ length (message status) }
{
    let text = status.message();
    write_text(text.as_bytes(), out);
    text.len()
}

/// Lets go of what a handle holds, if it holds anything.
#[unsafe(no_mangle)]
pub extern "C" fn colfind_free(alloc: Global, handle: &mut Handle)
    ensures { handle.new.value ≡ None }
{
    let _owned = take(alloc, handle);
}
