//! What no clause says of a search: its answers of worked texts, however their bytes come and wherever it is saved and resumed; when
//! it hands out a range; the words of its states; and that its calls succeed where memory is there.

use collation_elements::{Strength, Variable};

mod answers;
mod by_steps;
mod calls;
mod checks;
mod handing_out;
mod letters;
mod long_keys;
mod long_texts;
mod refusals;
mod resuming;
mod rows;
mod states;

const TABLE: &str = "@version 0.0.0
0020 ; [*0201.0020.0002]
002D ; [*0202.0020.0002]
0061 ; [.1C00.0020.0002]
0041 ; [.1C00.0020.0008]
0062 ; [.1C10.0020.0002]
0063 ; [.1C20.0020.0002]
0063 0068 ; [.1C28.0020.0002]
0065 ; [.1C40.0020.0002]
0068 ; [.1C50.0020.0002]
006D ; [.1C60.0020.0002]
0072 ; [.1C70.0020.0002]
0073 ; [.1C80.0020.0002]
0075 ; [.1C90.0020.0002]
0075 0301 ; [.1C98.0020.0002]
0300 ; [.0000.0025.0002]
0301 ; [.0000.0024.0002]
0327 ; [.0000.0030.0002]
20DD ; [.0000.0040.0002]
00AD ; [.0000.0000.0000]
2F00 ; [.FB40.0020.0004][.CE00.0000.0000]
";

const KEPT: Variable = Variable::NonIgnorable;

const SHIFTED: Variable = Variable::Shifted;

const ONE: Strength = Strength::One;

const TWO: Strength = Strength::Two;

const THREE: Strength = Strength::Three;

/// The start and the end of a range, in bytes from the beginning of the text.
type Range = (u64, u64);
