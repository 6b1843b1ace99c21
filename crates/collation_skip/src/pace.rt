//! Which way through text is asked, and when. Where nothing was passed by, at least as many bytes are walked over next as blocks looked
//! over, and twice as many as the time before. All ways answer alike, so no count can make an answer wrong, and no function here has a
//! clause.
use crate::passed::Passed;

/// How many bytes have to pass, so that blocks pay.
pub(crate) const WORTH_BLOCKS: usize = 32;

/// How many bytes have to pass, so that any way pays.
pub const WORTH: usize = 24;

/// How far the automaton goes at once where blocks pay, over what stopped them, in bytes: twice as far once it passed little by at
/// `MANY_TIMES` or more, since it leaves the last bytes, in which a match may begin, and of a long record these are many.
const TURN: usize = 64;

const MANY_TIMES: u32 = 32;

/// How many bytes are many, when it is seen whether the automaton comes to their end, but for `TURN` at most.
const MANY_ASKED: usize = 512;

/// How many bytes pass one by one at a time for each turn of the automaton: where it is soon asked, it goes faster.
const FOREIGN_FOR_EACH: usize = 16;

/// The most bytes that are walked over before text is asked for again, unless more were looked over in vain. And how many turns the
/// automaton is not asked at most, but for one.
const LONGEST: u32 = 256;

/// How many bytes of a text a place is tried on.
pub(crate) const SAMPLE: usize = 1_024;

/// Up to how many bytes a text alone has no place, but for one of ASCII with many different bytes, whose place serves it alone, and is chosen
/// by at least `SAMPLE_ALONE` bytes.
const LONGEST_ALONE: usize = 6_000;

const SAMPLE_ALONE: usize = 192;

/// At which turn the automaton rests for good: two thousand million times.
const NEVER: u32 = 0x8000_0001;

/// How many bytes at the front of a text are ASCII where a place is chosen by it: of other scripts few blocks pass.
const ASCII_FRONT: usize = 16;

/// How many bytes the automaton passes by before sets are chosen for characters of two bytes: some times as many as it would pass by
/// meanwhile.
const FIRST_WAIT: usize = 524_288;

/// How many bytes the sets have to pass by of each text, one with the other, and how many they may lack since they lacked none: where texts
/// are shorter, the automaton passes as much, and goes on where blocks stop.
const EACH_TEXT: usize = 96;

const MOST_LACKING: usize = 6_144;

/// In how many bytes a character of two bytes is looked for, which tells that the next one will be met soon.
const TWO_BYTES_WITHIN: usize = 256;

/// What was looked over and passed by until now, as far as it says which way is asked, and when.
#[derive(Clone, Copy, Debug)]
pub struct Pace {
    /// How many bytes of what letters take next are walked over before a way is asked.
    due: usize,
    /// How many bytes are walked over behind each call: none where much was passed by, more where bytes were looked over in vain.
    hold: usize,
    /// The fewest bytes of a text by which a place is chosen for blocks. Where less than `SAMPLE` will do, short texts make it less; `SAMPLE`
    /// wants a long one, and `usize::MAX` none.
    wanted: usize,
    /// Whether a place would serve one text alone: then only the bytes pass that the piece has by which it is chosen, and the automaton rests,
    /// until little passes.
    pub(crate) is_alone: bool,
    /// Whether the last text of ASCII passed in blocks.
    blocks_pay: bool,
    /// At which turn the automaton is, of those in which it could be asked: it is asked at powers of two, and each time that it passed little
    /// by it goes on from there, up to 512.
    times: u32,
    /// Whether it goes two turns at once: from then on it does.
    goes_far: bool,
    /// Whether it came to the end of the last text of many bytes that it was asked: then few stops are expected.
    pub(crate) is_calm: bool,
    /// Whether the last text that sets of two bytes passed by had such a character soon: then they are asked before blocks of ASCII, else
    /// after them.
    pub(crate) are_sets_first: bool,
    /// How many bytes the automaton has still to pass by before sets are chosen; where there are some, how many bytes more they may lack.
    sets_left: usize,
    /// How many bytes it has to pass by before the next ones.
    wait: usize,
}

impl Pace {
    /// Nothing was passed by yet, and the first `due` bytes are walked over.
    pub fn new(due: usize) -> Pace {
        Pace {
            due,
            hold: 0,
            wanted: SAMPLE - 1,
            is_alone: false,
            blocks_pay: false,
            times: 2,
            goes_far: false,
            is_calm: false,
            are_sets_first: false,
            sets_left: FIRST_WAIT,
            wait: FIRST_WAIT,
        }
    }

    /// Prepares, before its first byte, for one text alone of `len` bytes, of which at least `due` are walked over. A place is chosen that
    /// serves it alone where it is said to have many different bytes, all of ASCII (`has_many`); else none for a short one, and for a longer
    /// one once, though its first pieces are short.
    pub fn prepare(&mut self, due: usize, len: usize, has_many: bool) {
        self.due = self.due.max(due);
        self.is_alone = has_many;
        self.wanted = if has_many {
            SAMPLE_ALONE
        } else if len <= LONGEST_ALONE {
            usize::MAX
        } else {
            SAMPLE
        };
    }

    /// How many bytes of what letters take next are walked over before text is asked for.
    pub fn due(&self) -> usize {
        self.due
    }

    /// Text was asked for up to `at`: how many bytes are walked over from the front on until it is asked for again.
    pub fn wait_from(&mut self, at: usize) -> usize {
        self.due = at.saturating_add(self.hold);
        self.due
    }

    /// Letters took so many bytes.
    pub fn after_letters(&mut self, len: usize) {
        self.due = self.due.saturating_sub(len);
    }

    /// So many bytes were looked over in vain: twice as many are walked over as before, or these. Where these are many, the automaton that
    /// rested for good is asked: other characters came than those by which a place was chosen.
    pub fn lose(&mut self, looked: usize) {
        self.hold = twice(self.hold).max(looked);
        if self.hold >= LONGEST as usize && self.times >= NEVER {
            self.times = 1;
        }
    }

    /// Text was passed by, if it was: none is walked over where that pays, a quarter of what was before where more than one letter passed or
    /// the automaton is soon asked, else twice as much.
    pub(crate) fn after(&mut self, passed: &Option<Passed>, looked: usize) {
        let Some(passed) = passed else {
            self.lose(looked);
            return;
        };
        self.hold = if passed.end >= WORTH {
            0
        } else if passed.start > 0 || self.times <= LONGEST {
            (self.hold / 4).min(LONGEST as usize)
        } else {
            twice(self.hold)
        };
    }

    /// Whether a place is chosen for blocks by this text.
    #[inline(always)]
    pub(crate) fn is_wanted(&self, text: &[u8]) -> bool {
        text.len() >= self.wanted && begins_with_ascii(text)
    }

    /// A place was sought by a text of so many bytes, and found, if it was: by a long one, or for one text alone, for good, by a short one
    /// until a long one comes.
    pub(crate) fn after_choice(&mut self, len: usize, is_some: bool) {
        self.wanted = if len < SAMPLE && !self.is_alone {
            SAMPLE
        } else {
            usize::MAX
        };
        if self.is_alone && is_some {
            self.times = NEVER;
        }
    }

    /// There is no place. This text may be one of the short ones that make one due.
    pub(crate) fn after_short(&mut self, text: &[u8]) {
        if text.len() < self.wanted
            && self.wanted < SAMPLE
            && begins_with_ascii(text)
            && !self.is_alone
        {
            self.wanted = self.wanted.saturating_sub(text.len()).max(WORTH_BLOCKS);
        }
    }

    /// Blocks of ASCII passed by so many bytes: whether that was worth while.
    pub(crate) fn after_blocks(&mut self, passed: usize) -> bool {
        if passed < WORTH_BLOCKS {
            return false;
        }
        self.blocks_pay = true;
        true
    }

    /// Whether the automaton is not asked this time.
    pub(crate) fn rests(&mut self) -> bool {
        if self.times & self.times.wrapping_sub(1) == 0 {
            return false;
        }
        self.times = self.times.wrapping_add(1);
        true
    }

    /// The most bytes that pass one by one this time.
    pub(crate) fn most_foreign(&self) -> usize {
        (self.times as usize).saturating_mul(FOREIGN_FOR_EACH)
    }

    /// The most bytes over which the automaton goes this time.
    pub(crate) fn most_moves(&mut self) -> usize {
        let most = if !self.blocks_pay {
            usize::MAX
        } else if self.goes_far {
            2 * TURN
        } else {
            TURN
        };
        self.blocks_pay = false;
        most
    }

    /// The automaton passed by so many bytes of those that it was asked, and blocks by so many. Where that was little, it is not asked one
    /// time, then 3, 7, and so on. Until a place was sought half of what it was asked is not little, unless that is nothing: of a short
    /// piece it is asked few bytes. Where it passed no more than blocks did, or, once it goes far, no more than half of what it was asked,
    /// that says nothing. Else it is asked at once, and once it goes far twice as soon.
    pub(crate) fn after_moves(&mut self, asked: usize, passed: usize, in_blocks: usize) {
        if asked >= MANY_ASKED {
            self.is_calm = passed >= asked - TURN;
        }
        let least = if self.goes_far && asked <= 2 * TURN {
            asked / 2
        } else {
            0
        };
        let much = if self.wanted < SAMPLE {
            WORTH.min(asked / 2).max(1)
        } else {
            WORTH
        };
        if passed < much {
            self.goes_far = self.goes_far || self.times >= MANY_TIMES;
            self.times = self.times.min(LONGEST);
        } else if passed <= in_blocks.max(least) {
            self.times /= 2;
        } else if self.goes_far {
            self.times = (self.times / 4).max(1);
        } else {
            self.times = 1;
        }
        self.times = self.times.wrapping_add(1);
    }

    /// The automaton passed by so many bytes: whether sets are chosen now, by a piece of so many, where there are none.
    pub(crate) fn are_sets_due(&mut self, has_sets: bool, passed: usize, len: usize) -> bool {
        if has_sets {
            return false;
        }
        self.sets_left = self.sets_left.saturating_sub(passed);
        self.sets_left == 0 && len >= SAMPLE
    }

    /// Sets were chosen, or none pay: the next choice waits twice as long.
    pub(crate) fn after_sets_choice(&mut self, is_some: bool) {
        self.wait = self.wait.saturating_mul(2);
        self.sets_left = if is_some { MOST_LACKING } else { self.wait };
    }

    /// Sets passed by so many bytes, or none: whether they are kept. Else there are none, and the next are waited for as long as all before.
    pub(crate) fn after_sets(&mut self, passed: usize) -> bool {
        let left = self.sets_left.saturating_add(passed);
        self.sets_left = left.saturating_sub(EACH_TEXT).min(MOST_LACKING);
        if self.sets_left > 0 {
            return true;
        }
        self.sets_left = self.wait / 2;
        false
    }

    /// Sets passed by this text, and that was worth while.
    #[inline(always)]
    pub(crate) fn after_text(&mut self, text: &[u8]) {
        self.are_sets_first = !text[..text.len().min(TWO_BYTES_WITHIN)].is_ascii();
    }
}

/// Twice as many bytes, up to `LONGEST`. Where it is none or one, one letter is walked over: so two come next.
fn twice(hold: usize) -> usize {
    hold.saturating_mul(2).max(2).min(LONGEST as usize)
}

/// Whether a text is ASCII at its front.
#[inline(always)]
fn begins_with_ascii(text: &[u8]) -> bool {
    text[..text.len().min(ASCII_FRONT)].is_ascii()
}
