//! What a finder says of letters that it takes, clause by clause, where its contract has a name for it (`TakesText`).
ghost use Rattle.std.specs.Prelude.{◌≡◌, ℕ, ◌+◌, ◌≤◌, List, ◌++◌, length, take, false};
ghost use Rattle.std.specs.Str.{chars, IsUtf8};
ghost use Rattle.std.specs.List.{FoldsTo};
ghost use Rattle.nfd_points.specs.Points.{byte_len};
ghost use Rattle.collation_matches.specs.GoodPrefix.{most_bytes};
ghost use Rattle.collation_finder.specs.Caches.{IsCacheRight};
ghost use Rattle.collation_finder.specs.Early.{IsCutUpTo};
ghost use Rattle.collation_finder.specs.Finding.{FinderStandsFor, IsReady, KeepsSetup};

use collation_finder::{Cache, Finder, Front};
use collation_table::Weights;
use collation_walk::{Found, Query};

/// What `Finder::take_letters` says.
fn letters_say<W: Weights, F: FnMut(u64, u64)>(
    finder: &mut Finder,
    query: &Query<'_, W>,
    cache: &mut Cache,
    front: Front<'_>,
    found: &mut Found,
    sink: &mut F,
) -> usize
    requires ready { IsReady (W.table query.now.table.now) query.now.pattern.now finder.old }
    requires right { IsCacheRight (W.table query.now.table.now) query.now.pattern.now cache.old }
    requires fits { front.offset + length front.piece.now ≤ most_bytes }
    requires callable { F.IsAlwaysCallable sink.old }
    ensures within { result ≤ length front.entry.piece.now }
    ensures text { IsUtf8 (take result front.entry.piece.now) }
    ensures taken { (ranges : List (ℕ × ℕ))
        × FoldsTo (λ f range g. F.step f range.0 range.1 tt g) sink.old ranges sink.new
        × ((taken : List ℕ) (handed : List (ℕ × ℕ))
        → FinderStandsFor (W.table query.now.table.now) query.now.pattern.now
        finder.old taken handed
        → front.entry.offset ≡ byte_len taken
        → FinderStandsFor (W.table query.now.table.now) query.now.pattern.now finder.new
        (taken ++ chars (take result front.entry.piece.now)) (handed ++ ranges)) }
    ensures left { (place : ℕ) (taken : List ℕ) (handed : List (ℕ × ℕ))
        → FinderStandsFor (W.table query.now.table.now) query.now.pattern.now
        finder.old taken handed
        → front.entry.offset ≡ byte_len taken → front.entry.offset + front.entry.reach ≤ place
        → IsCutUpTo (W.table query.now.table.now) place taken finder.old.window.points
        → IsCutUpTo (W.table query.now.table.now) place (taken ++ chars
        (take result front.entry.piece.now)) finder.new.window.points }
    ensures right { IsCacheRight (W.table query.now.table.now) query.now.pattern.now cache.new }
    ensures open { finder.new.window.has_ended ≡ false }
    ensures setup { KeepsSetup finder.old finder.new }
    ensures callable { F.IsAlwaysCallable sink.new }
{
    finder.take_letters(query, cache, front, found, sink)
}
