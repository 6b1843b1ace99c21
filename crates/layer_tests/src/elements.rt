//! What no clause says of `collation_elements`: worked windows and worked keys, over tables of a few rows.
ghost use Rattle.std.specs.Prelude.{◌≡◌, [], ◌∷◌};
ghost use Rattle.collation_elements.specs.declared.settings.Strength.TheVariants.{One, Two};
ghost use Rattle.collation_elements.specs.declared.settings.Variable.TheVariants.{NonIgnorable, Shifted};
ghost use Rattle.collation_elements.specs.declared.keys.Key.TheVariants.{Primary, Secondary};
ghost use Rattle.collation_elements.specs.Boundaries.{boundaries};
ghost use Rattle.collation_elements.specs.Clusters.{clusters};
ghost use Rattle.collation_elements.specs.WorkedTable.{worked_table};
ghost use Rattle.collation_elements.specs.WorkedClusters.{worked_cluster};

use crate::calls::{KEPT, ONE, SHIFTED, TABLE, THREE, TWO, put, repeated, same, table_of, text_is};
use arrayvec::ArrayVec;
use collation_elements::{
    CharacterItems, Item, ItemsFault, Key, MOST_ITEMS, Strength, Unit, Variable, Weigher, Window,
    closed_points_append, clusters_are_parts, clusters_begin_afresh, items_are_keys_and_starts,
    items_of_text, parts_join, units_stay_apart, worked,
};
use collation_table::{Element, Table, Weights};
use nfd_points::Point;
use std::alloc::{AllocError, Global};
use std::process::Abort;

const CONTRACTED: &str = "0061 ; [.1C00.0020.0002]
0075 ; [.1C90.0020.0002]
0075 0323 ; [.1C91.0020.0002]
0075 0323 0302 ; [.1C92.0020.0002]
0302 ; [.0000.0024.0002]
0323 ; [.0000.0026.0002]
0327 ; [.0000.0030.0002]
0327 0061 ; [.1C05.0020.0002]
";

const ONE_CONTRACTION: &str = "0078 0301 ; [.1CA0.0020.0002]";

/// The definitions on texts that are written out: a contraction is one unit; a soft hyphen has no key and begins no cluster,
/// but the text begins with it; an accent at the beginning has its key in the first cluster; after a hyphen the circle has no
/// key under shifted weighting, and the hyphen begins a cluster without keys.
fn worked_clusters()
    ensures empty_text { clusters worked_table Two NonIgnorable [] ≡ [] }
    ensures contraction { clusters worked_table One NonIgnorable (0x61 ∷ 0x63 ∷ 0x68 ∷ [])
        ≡ worked_cluster 0 (Primary 0x1C00 0 0 ∷ []) ∷ worked_cluster 1
        (Primary 0x1C28 0 0 ∷ []) ∷ [] }
    ensures contraction_boundaries { boundaries worked_table (0x61 ∷ 0x63 ∷ 0x68 ∷ [])
        ≡ 0 ∷ 1 ∷ 3 ∷ [] }
    ensures soft_hyphen { clusters worked_table One NonIgnorable (0xC2 ∷ 0xAD ∷ 0x61 ∷ [])
        ≡ worked_cluster 0 [] ∷ worked_cluster 2 (Primary 0x1C00 0 0 ∷ []) ∷ [] }
    ensures accent_first { clusters worked_table Two NonIgnorable (0xCC ∷ 0x81 ∷ 0x61 ∷ [])
        ≡ worked_cluster 0 (Secondary 0x24 0 ∷ []) ∷ worked_cluster 2
        (Primary 0x1C00 0x20 0 ∷ []) ∷ [] }
    ensures accent_boundaries { boundaries worked_table (0xCC ∷ 0x81 ∷ 0x61 ∷ []) ≡ 0 ∷ 2 ∷ 3 ∷ [] }
    ensures hyphen_shifted { clusters worked_table Two Shifted
        (0x61 ∷ 0x2D ∷ 0xE2 ∷ 0x83 ∷ 0x9D ∷ 0x62 ∷ [])
        ≡ worked_cluster 0 (Primary 0x1C00 0x20 0 ∷ []) ∷ worked_cluster 1 []
        ∷ worked_cluster 5 (Primary 0x1C10 0x20 0 ∷ []) ∷ [] }
    ensures hyphen_kept { clusters worked_table Two NonIgnorable
        (0x61 ∷ 0x2D ∷ 0xE2 ∷ 0x83 ∷ 0x9D ∷ [])
        ≡ worked_cluster 0 (Primary 0x1C00 0x20 0 ∷ [])
        ∷ worked_cluster 1 (Primary 0x0202 0x20 0 ∷ Secondary 0x40 0 ∷ []) ∷ [] }
{}

#[test]
fn definitions_compute() {
    worked_clusters();
    worked::limits();
    items_are_keys_and_starts();
    closed_points_append();
    units_stay_apart();
    clusters_are_parts();
    clusters_begin_afresh();
    parts_join();
}

/// A window of the characters of a text, each its own decomposition, in this order, unless memory is refused.
fn try_window(alloc: Global, table: &Table, text: &str) -> Result<Window, AllocError> {
    let mut window = Window::with_capacity(alloc, table.longest_key())?;
    for (offset, c) in text.char_indices() {
        if !window.is_full() {
            window.push(Point::new(c, offset as u64, true));
        }
    }
    Ok(window)
}

/// The window, which the text ends or not.
fn window_of(rt: &impl Abort, alloc: Global, table: &Table, text: &str, has_ended: bool) -> Window {
    let mut window = try_window(alloc, table, text).expect(rt, "a window");
    if has_ended {
        window.end();
    }
    window
}

/// The next unit, if it is decided.
fn next_unit<'t>(window: &mut Window, table: &'t Table) -> Option<Unit<'t>> {
    window.next_unit(table)
}

/// The points that a window holds.
fn points_in(rt: &impl Abort, alloc: Global, window: &Window) -> Vec<Point> {
    let mut points = Vec::new(alloc);
    for i in 0..window.len() {
        points.push(window.point(i)).expect(rt, "memory");
    }
    points
}

/// Writes the code point of a point.
fn put_point(rt: &impl Abort, units: &mut String, point: &Point) {
    write!(units, "{:X}", point.cp).expect(rt, "memory");
}

/// Writes the code points of the points that were held and are not left.
fn put_points(rt: &impl Abort, units: &mut String, held: &[Point], left: &[Point]) {
    for point in held {
        if !left.contains(point) {
            put_point(rt, units, point);
            put(rt, units, " ");
        }
    }
}

/// Writes the weights of an element.
fn put_element(rt: &impl Abort, units: &mut String, e: &Element) {
    write!(units, "[{:04X}.{:04X}.{:04X}]", e.w1, e.w2, e.w3).expect(rt, "memory");
}

/// Writes the row of a unit.
fn put_row(rt: &impl Abort, units: &mut String, unit: &Unit<'_>) {
    for element in unit.elements() {
        put_element(rt, units, element);
    }
    put(rt, units, " ");
}

/// Writes a unit: its first code point, the points that were held and are not left, and its row.
fn put_unit(rt: &impl Abort, units: &mut String, unit: &Unit<'_>, held: &[Point], left: &[Point]) {
    put_point(rt, units, &unit.first_point());
    put(rt, units, ": ");
    put_points(rt, units, held, left);
    put_row(rt, units, unit);
}

/// The units that are decided, a dozen at most: each by its first code point, those that it takes out of the window, and its row.
fn units_of(rt: &impl Abort, alloc: Global, table: &Table, mut window: Window) -> String {
    let mut units = String::new(alloc);
    for _ in 0..12 {
        let held = points_in(rt, alloc, &window);
        let Some(unit) = next_unit(&mut window, table) else {
            break;
        };
        put_unit(rt, &mut units, &unit, &held, &points_in(rt, alloc, &window));
    }
    units
}

/// A table, a text, whether it ends there, and its units.
type Units<'a> = (&'a str, &'a str, bool, &'a str);

const UNITS: [Units; 9] = [
    (TABLE, "u\u{327}\u{301}", false, ""),
    (
        TABLE,
        "u\u{327}\u{301}a",
        false,
        "75: 75 301 [1C98.0020.0002] 327: 327 [0000.0030.0002] ",
    ),
    (
        TABLE,
        "u\u{300}\u{301}",
        true,
        "75: 75 [1C90.0020.0002] 300: 300 [0000.0025.0002] 301: 301 [0000.0024.0002] ",
    ),
    (TABLE, "c", false, ""),
    (TABLE, "ch", false, ""),
    (TABLE, "cha", false, "63: 63 68 [1C28.0020.0002] "),
    (
        ONE_CONTRACTION,
        "x\u{327}\u{301}",
        true,
        "78: 78 301 [1CA0.0020.0002] 327: 327 [FBC0.0020.0002][8327.0000.0000] ",
    ),
    (
        CONTRACTED,
        "u\u{327}\u{323}\u{302}a",
        false,
        "75: 75 323 302 [1C92.0020.0002] ",
    ),
    (
        CONTRACTED,
        "u\u{323}\u{327}\u{302}a",
        true,
        "75: 75 323 302 [1C92.0020.0002] 327: 327 61 [1C05.0020.0002] ",
    ),
];

/// Compares the units of a row.
fn units_are(rt: &impl Abort, alloc: Global, row: &Units<'_>) {
    let (file, text, has_ended, want) = *row;
    let table = table_of(rt, alloc, file, None);
    let window = window_of(rt, alloc, &table, text, has_ended);
    let units = units_of(rt, alloc, &table, window);
    drop(table);
    text_is(rt, &units, want);
}

#[test]
fn cuts_decided_units(rt: HostRuntime) {
    for row in &UNITS {
        units_are(&rt, rt.alloc(), row);
    }
}

/// The items of a unit.
type UnitItems = ArrayVec<Item, MOST_ITEMS>;

/// Puts the items of a unit behind the others.
fn put_items(
    rt: &impl Abort,
    all: &mut Vec<Item>,
    weigher: &mut Weigher,
    unit: &Unit<'_>,
    items: &mut UnitItems,
) {
    weigher.take(unit, items);
    all.extend_from_slice(items.as_slice()).expect(rt, "memory");
}

/// The items of the units in a window, a dozen of these at most.
fn items_of(
    rt: &impl Abort,
    alloc: Global,
    table: &Table,
    mut window: Window,
    mut weigher: Weigher,
) -> Vec<Item> {
    let mut all = Vec::new(alloc);
    let mut items = UnitItems::new();
    for _ in 0..12 {
        let Some(unit) = next_unit(&mut window, table) else {
            break;
        };
        put_items(rt, &mut all, &mut weigher, &unit, &mut items);
    }
    all
}

/// A text, a strength, a weighting, and the items.
type Items<'a> = (&'a str, Strength, Variable, &'a [Item]);

const ITEMS: [Items; 4] = [
    (
        "e\u{301}",
        TWO,
        KEPT,
        &[
            Item::ClusterStart(0),
            Item::Element(Key::Primary(0x1C40, 0x20, 0)),
            Item::Element(Key::Secondary(0x24, 0)),
        ],
    ),
    (
        "\u{2F00}",
        THREE,
        KEPT,
        &[
            Item::ClusterStart(0),
            Item::Element(Key::Pair(0xFB40, 0xCE00, 0x20, 4)),
        ],
    ),
    (
        "\u{4E00}",
        ONE,
        KEPT,
        &[
            Item::ClusterStart(0),
            Item::Element(Key::Pair(0xFB40, 0xCE00, 0, 0)),
        ],
    ),
    (
        "-\u{20DD}b\u{20DD}",
        TWO,
        SHIFTED,
        &[
            Item::ClusterStart(0),
            Item::ClusterStart(4),
            Item::Element(Key::Primary(0x1C10, 0x20, 0)),
            Item::Element(Key::Secondary(0x40, 0)),
        ],
    ),
];

/// The items of a text, unless it is at fault.
fn try_items(
    alloc: Global,
    table: &Table,
    text: &str,
    strength: Strength,
    variable: Variable,
) -> Result<Vec<Item>, ItemsFault> {
    items_of_text(alloc, table, text, strength, variable)
}

/// The items are these.
fn items_are(rt: &impl Abort, got: &[Item], want: &[Item]) {
    same(rt, &got, &want);
}

/// Compares the items of a row, by a window and a weigher, and by the call for a whole text.
fn row_is(rt: &impl Abort, alloc: Global, table: &Table, row: &Items<'_>) {
    let (text, strength, variable, want) = *row;
    let window = window_of(rt, alloc, table, text, true);
    let weigher = Weigher::new(strength, variable);
    items_are(rt, &items_of(rt, alloc, table, window, weigher), want);
    let whole = try_items(alloc, table, text, strength, variable);
    items_are(rt, &whole.expect(rt, "items"), want);
}

#[test]
fn gives_keys_up_to_the_strength(rt: HostRuntime) {
    let alloc = rt.alloc();
    let table = table_of(&rt, alloc, TABLE, None);
    for row in &ITEMS {
        row_is(&rt, alloc, &table, row);
    }
    drop(table);
}

/// The points of a window are these.
fn points_are(rt: &impl Abort, got: &[Point], want: &[Point]) {
    same(rt, &got, &want);
}

/// Compares what a window of two points answers.
fn two_points(rt: &impl Abort, alloc: Global, table: &Table) {
    let window = window_of(rt, alloc, table, "ab", false);
    let want = [Point::new('a', 0, true), Point::new('b', 1, true)];
    points_are(rt, &points_in(rt, alloc, &window), &want);
    same(rt, &(window.len(), window.is_full()), &(2, false));
}

#[test]
fn answers_each_call(rt: HostRuntime) {
    let alloc = rt.alloc();
    let table = table_of(&rt, alloc, TABLE, None);
    two_points(&rt, alloc, &table);
    let weigher = Weigher::restore(TWO, SHIFTED, true);
    same(&rt, &weigher.after_variable(), &true);
    let marks = repeated(&rt, alloc, "\u{301}", 31);
    let fault = try_items(alloc, &table, &marks, TWO, SHIFTED).err();
    drop(table);
    same(&rt, &fault, &Some(ItemsFault::Points));
    same(&rt, &worked::unused_item(), &Item::ClusterStart(0));
}

/// The items of a letter with one mark, and of one with three.
fn try_marked(alloc: Global, table: &Table) -> Result<[Option<CharacterItems>; 2], AllocError> {
    let mut window = Window::with_capacity(alloc, table.longest_key())?;
    let weigher = Weigher::restore(TWO, SHIFTED, true);
    let letter = Point::new('e', 0, true);
    let mark = Point::new('\u{301}', 0, false);
    let two = CharacterItems::of_points(table, &mut window, weigher, &[letter, mark]);
    let four = [letter, mark, mark, mark];
    let none = CharacterItems::of_points(table, &mut window, weigher, &four);
    Ok([two, none])
}

#[test]
fn keeps_the_items_of_a_character(rt: HostRuntime) {
    let alloc = rt.alloc();
    let table = table_of(&rt, alloc, TABLE, None);
    let [two, none] = try_marked(alloc, &table).expect(&rt, "memory");
    drop(table);
    let expected = CharacterItems {
        begins_cluster: true,
        first: Some(Key::Primary(0x1C40, 0x20, 0)),
        second: Some(Key::Secondary(0x24, 0)),
        third: None,
        after_variable: false,
    };
    same(&rt, &(two, none), &(Some(expected), None));
}
