//! Laws of points and of their faults, each the promise of a function that does nothing.
//!
//! They hold for every list of code points, also for numbers that are no scalar values.
ghost use Rattle.nfd_points.specs.Laws.{Limits, DecompositionsAreShort, OthersAreStarters, AsciiIsItself, DecompositionsAreInOrder, CodesAreNfd, PointsAreSound, PointsAreDecomposed, AsciiIsSound, BytesAreCounted, BytesOfParts, PointsOfParts, PointsAreShifted, OffsetsAreWithin, TextsPart, TextsAreCut, OrderingIsInOrder, OrderedStays, OrderingOfPrefixes, OrderingStopsAtStarters, StartersStay, OrderingIsShifted, OrderingKeeps, OrderingAddsNone, OrderingCounts, ShortRunsJoin, FaultAfter, FaultInPrefix, FaultsAreRuns, GoodRunsAreShort, ShortRunsAreGood, FewPointsAreGood, StartersBeginAnew, LongRunsAreFaults, GivenAreFinal, GivenBegin, WaitingAreOthers, AsciiIsGiven};

/// The most points that wait, of one decomposition, and that one call gives.
pub fn limits()
    ensures { Limits }
{}

/// What the decomposition of one code point is.
pub fn laws_of_decompositions()
    ensures short { DecompositionsAreShort }
    ensures others { OthersAreStarters }
    ensures ascii { AsciiIsItself }
    ensures in_order { DecompositionsAreInOrder }
{}

/// The points of a text are its NFD, and what they are of two parts.
pub fn laws_of_points()
    ensures nfd { CodesAreNfd }
    ensures sound { PointsAreSound }
    ensures decomposed { PointsAreDecomposed }
    ensures ascii { AsciiIsSound }
    ensures bytes { BytesAreCounted }
    ensures bytes_of_parts { BytesOfParts }
    ensures parts { PointsOfParts }
    ensures shifted { PointsAreShifted }
    ensures offsets { OffsetsAreWithin }
    ensures texts { TextsPart }
    ensures cuts { TextsAreCut }
{}

/// What canonical ordering does, and that it does not cross a starter.
pub fn laws_of_ordering()
    ensures in_order { OrderingIsInOrder }
    ensures stays { OrderedStays }
    ensures prefixes { OrderingOfPrefixes }
    ensures at_starters { OrderingStopsAtStarters }
    ensures starters { StartersStay }
    ensures shifted { OrderingIsShifted }
    ensures keeps { OrderingKeeps }
    ensures adds_none { OrderingAddsNone }
    ensures counts { OrderingCounts }
{}

/// Where no more than 30 non-starters follow each other.
pub fn laws_of_runs()
    ensures join { ShortRunsJoin }
{}

/// The first fault of a text, by its parts, and by the runs of non-starters in its joined decompositions.
pub fn laws_of_faults()
    ensures following { FaultAfter }
    ensures in_prefix { FaultInPrefix }
    ensures runs { FaultsAreRuns }
    ensures short { GoodRunsAreShort }
    ensures good { ShortRunsAreGood }
    ensures few { FewPointsAreGood }
    ensures anew { StartersBeginAnew }
    ensures long { LongRunsAreFaults }
{}

/// What a reorderer has given of a text.
pub fn laws_of_reordering()
    ensures last { GivenAreFinal }
    ensures begin { GivenBegin }
    ensures others { WaitingAreOthers }
    ensures ascii { AsciiIsGiven }
{}
