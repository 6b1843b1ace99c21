//! How many bytes pass by `byte_blocks`, by sets that are made here: the clauses say which, these rows say so of worked pieces.

use crate::calls::same_at;
use byte_blocks::{AsciiSets, NO_BYTES, TwoByteSets, going_len, len_to_last, passed_len, put};

/// Sets in which `x` halts, and `b` does not pass behind `a`.
fn ascii_sets() -> AsciiSets {
    let mut sets = AsciiSets {
        halt: [0; 16],
        key: [0; 16],
        later: [0; 16],
        joins: [0; 16],
        inner: [0; 16],
    };
    put(&mut sets.halt, b'x');
    put(&mut sets.key, b'a');
    put(&mut sets.later, b'b');
    sets
}

/// The same, of characters of one and of two bytes: the last byte of `ж` is a key too.
fn two_byte_sets() -> TwoByteSets {
    let mut sets = TwoByteSets {
        halt: NO_BYTES,
        key: NO_BYTES,
        later: NO_BYTES,
    };
    sets.halt.put(b'x');
    sets.key.put(b'a');
    sets.key.put(0xB6);
    sets.later.put(b'b');
    sets
}

/// How many bytes at the front of a piece pass, by both kinds of sets.
fn lengths(piece: &str) -> (usize, usize) {
    let bytes = piece.as_bytes();
    (
        passed_len(&ascii_sets(), bytes, bytes.len()),
        going_len(&two_byte_sets(), bytes, bytes.len()),
    )
}

/// To the end, to what halts, to a pair, and to a byte past ASCII; pieces of fewer than eighteen bytes do not go with characters of two.
#[test]
fn bytes_pass_up_to_one_that_does_not(rt: HostRuntime) {
    for (piece, lengths_of_piece) in &[
        ("", (0, 0)),
        ("a cat", (5, 0)),
        ("a cat and a bat beside the door of a barn", (41, 41)),
        ("a cat beside the door of an axe", (29, 29)),
        ("a bat and a crab beside the door", (15, 15)),
        ("the bottom of the lab in the barn", (20, 20)),
        ("the door of the дом of the lab", (16, 32)),
        ("the door of the ж of the house", (16, 31)),
        ("the door of the жb", (16, 18)),
    ] {
        same_at(&rt, &lengths(*piece), lengths_of_piece, piece);
    }
}

/// In front of a whole block, in it, at its ends, and nowhere; a byte past ASCII is in no set.
#[test]
fn the_last_byte_of_a_set_is_found(rt: HostRuntime) {
    let set = ascii_sets().halt;
    for (text, len) in &[
        ("", 0),
        ("an axe", 5),
        ("a cat beside the door of a barn", 0),
        ("x cat beside the door of a barn", 1),
        ("an axe beside the door of the barn", 5),
        ("an axe beside the box of the barn", 21),
        ("the door of the дом and of a box", 35),
        ("an ax behind the шум of the barn", 5),
    ] {
        let bytes = text.as_bytes();
        same_at(&rt, &len_to_last(&set, bytes, bytes.len()), len, text);
    }
}
