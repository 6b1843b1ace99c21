//! What a handle holds.

ghost use Rattle.std.specs.Prelude.{◌≡◌, false};
ghost use Rattle.std.specs.Arc.{arc_value};
ghost use Rattle.std.specs.Option.{ForSome};
ghost use Rattle.colfind_c.specs.Queries.{table_of};
ghost use Rattle.collation_anchored.specs.Parking.{IsForTable};
ghost use Rattle.collation_search.specs.Parking.{IsFor, parked_select};

use crate::queue::Queue;
use collation_anchored::Parked as Asking;
use collation_pattern::Pattern;
use collation_search::{Found, Parked, Select};
use collation_table::Table;
use std::sync::Arc;

/// A pattern, and the table with which it was compiled.
#[derive(Drop)]
pub struct Query {
    pub(crate) table: Arc<Table>,
    pub(crate) pattern: Pattern,
}

/// A search between two calls.
#[derive(Drop)]
pub struct Session {
    pub(crate) query: Arc<Query>,
    pub(crate) select: Select,
    /// The search, until it was finished or stopped.
    pub(crate) parked: Option<Parked>,
    pub(crate) queue: Queue,
    /// Room for the ranges of a piece, used again and again.
    pub(crate) found: Box<Found>,
    /// What asks whole texts for the pattern, between two of them: none before the first.
    pub(crate) asking: Option<Asking>,
    ghost asks: { ForSome asking (λ a. IsForTable (table_of (arc_value query)) a) },
    ghost fits: { ForSome parked (λ p.
        IsFor (table_of (arc_value query)) (arc_value query).pattern p
        × (parked_select p ≡ select)) },
    ghost kept: { ForSome parked (λ _. queue.lost ≡ false) },
}

/// What a handle holds: a table, a pattern or a search.
#[derive(Drop)]
pub enum Owned {
    Table(Arc<Table>),
    Pattern(Arc<Query>),
    Search(Session),
}
