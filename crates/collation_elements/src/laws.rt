//! Laws about the definitions: each is the contract of a function that does nothing.
ghost use Rattle.std.specs.Prelude.{◌≡◌, Bool, List, [], ◌∷◌, ◌++◌, true, false, All};
ghost use Rattle.nfd_points.specs.declared.points.Point.{Point};
ghost use Rattle.nfd_points.specs.Points.{is_starter};
ghost use Rattle.nfd_points.specs.Reordering.{is_closed};
ghost use Rattle.collation_table.specs.Table.{TableMap, BeginsNoLongerString, ContinuesNoString};
ghost use Rattle.collation_elements.specs.declared.settings.Strength.{Strength};
ghost use Rattle.collation_elements.specs.declared.settings.Variable.{Variable};
ghost use Rattle.collation_elements.specs.Units.{units, MappedPairsAreUnits};
ghost use Rattle.collation_elements.specs.Decided.{DecidedUnitsAreCut, UndecidedUnitsAreLeft, DecidedUnitsBegin, DecidedUnitsStay, EarlyCutsAreMadeGood};
ghost use Rattle.collation_elements.specs.Keys.{keys};
ghost use Rattle.collation_elements.specs.declared.keys.Item.{Item};
ghost use Rattle.collation_elements.specs.declared.weigher.Weigher.{Weigher};
ghost use Rattle.collation_elements.specs.Items.{items};
ghost use Rattle.collation_elements.specs.Weighing.{weigher, after_units, WeigherStandsFor};
ghost use Rattle.collation_elements.specs.ItemParts.{item_keys, item_starts};
ghost use Rattle.collation_elements.specs.Boundaries.{cluster_starts};

/// The keys among the items of a list of points are its keys, and the offsets among them are those at which its clusters begin.
pub fn items_are_keys_and_starts()
    ensures keys { (table : TableMap) (strength : Strength) (variable : Variable) (ps : List Point)
        → item_keys (items table strength variable false (units table ps))
        ≡ keys table strength variable ps }
    ensures starts { (table : TableMap) (strength : Strength) (variable : Variable)
        (ps : List Point)
        → item_starts (items table strength variable false (units table ps))
        ≡ cluster_starts table ps }
{}

/// Points after whose last starter no point stands, put after others of the kind, are of the kind too.
pub fn closed_points_append()
    ensures { (xs ys : List Point) → is_closed xs ≡ true → is_closed ys ≡ true
        → is_closed (xs ++ ys) ≡ true }
{}

/// The units of points and of those that follow are those of both by themselves, where with no code point of the first ones a
/// mapped string of two or more begins, or where a starter follows whose code point stands in no mapped string after the first
/// place, or one last point of which that holds. Two points are a unit, whatever follows them, where their code points are a mapped
/// string and no longer one begins with it.
pub fn units_stay_apart()
    ensures alone { (table : TableMap) (ps more : List Point)
        → All (λ p. BeginsNoLongerString table p.cp) ps
        → units table (ps ++ more) ≡ units table ps ++ units table more }
    ensures before { (table : TableMap) (ps : List Point) (d : Point) (more : List Point)
        → is_starter d ≡ true
        → ContinuesNoString table d.cp
        → units table (ps ++ d ∷ more) ≡ units table ps ++ units table (d ∷ more) }
    ensures last { (table : TableMap) (ps : List Point) (d : Point)
        → ContinuesNoString table d.cp
        → units table (ps ++ d ∷ []) ≡ units table ps ++ units table (d ∷ []) }
    ensures pair { MappedPairsAreUnits }
{}

/// A weigher goes on with further units: what it gives is the items of those before and then those of the further ones.
pub fn weighers_go_on()
    ensures { (table : TableMap) (w : Weigher) (us vs : List (List Point)) (given more : List Item)
        (after : Bool)
        → items table w.strength w.variable w.after_variable vs ≡ more
        → after_units table w.variable w.after_variable vs ≡ after
        → WeigherStandsFor table w us given
        → WeigherStandsFor table (weigher w.strength w.variable after) (us ++ vs) (given ++ more) }
{}

/// Units that are decided stay decided, whatever points follow, and begin the units of all. Units that were cut early, as if the text
/// ended before a starter across which none reaches, are decided too once enough points stand from that starter on.
pub fn decided_units_stay()
    ensures cut { DecidedUnitsAreCut }
    ensures left { UndecidedUnitsAreLeft }
    ensures begin { DecidedUnitsBegin }
    ensures stay { DecidedUnitsStay }
    ensures early { EarlyCutsAreMadeGood }
{}
