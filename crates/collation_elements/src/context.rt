//! The context law: a text may be taken apart at its boundaries. What stands between two of them is, as a text by itself,
//! made of the collation elements and keys that the whole text has there. Canonical ordering and the look at non-starters
//! stop at the starter with which a cluster begins, no unit reaches across it, and its first element, which has a primary
//! weight, settles variable weighting afresh. It holds for any table, well formed or not.

ghost use Rattle.collation_elements.specs.Context.{UnitsPartWhereClustersBegin, PrimariesSettleWeighting, BoundariesAreStarts, PartsHaveTheKeysOfClusters, PartsAreTexts, ElementsAreJoined, KeysAreJoined};

use nfd_points::laws::{laws_of_decompositions, laws_of_ordering, laws_of_points};

/// Why a text may be cut where a cluster begins: no unit reaches across that place (UTS #10, S2.1), neither part has other
/// units by itself, and variable weighting forgets there what came before.
pub fn clusters_begin_afresh()
    ensures units { UnitsPartWhereClustersBegin }
    ensures weights { PrimariesSettleWeighting }
{
    laws_of_decompositions();
    laws_of_points();
    laws_of_ordering();
}

/// The clusters of a text are its parts between neighboring boundaries: they begin at the boundaries, each cluster and each
/// row of clusters is a text, and the keys of that text are those that the clusters have in the whole.
pub fn clusters_are_parts()
    ensures boundaries { BoundariesAreStarts }
    ensures keys { PartsHaveTheKeysOfClusters }
    ensures texts { PartsAreTexts }
{
    laws_of_decompositions();
    laws_of_points();
    laws_of_ordering();
}

/// Cut in two at a boundary, a part of a text between two boundaries has the collation elements of the two parts, each
/// taken as a text by itself, and so the keys.
pub fn parts_join()
    ensures elements { ElementsAreJoined }
    ensures keys { KeysAreJoined }
{
    laws_of_decompositions();
    laws_of_points();
    laws_of_ordering();
}
