//! One number for all that the calls of a job answered.

use collation_search::TextFault;

/// The number so far.
#[derive(Drop)]
pub struct Digest {
    pub value: u64,
    /// How many ranges were added.
    pub ranges: u64,
}

impl Digest {
    /// That of no answer.
    pub fn new() -> Digest {
        Digest {
            value: 0xCBF2_9CE4_8422_2325,
            ranges: 0,
        }
    }

    /// Adds a number.
    pub fn add(&mut self, number: u64) {
        let turned = self.value.rotate_left(5) ^ number;
        self.value = turned.wrapping_mul(0x9E37_79B9_7F4A_7C15);
    }

    /// Adds a range.
    pub fn add_range(&mut self, start: u64, end: u64) {
        self.add(start);
        self.add(end);
        self.ranges = self.ranges.wrapping_add(1);
    }

    /// Adds the answer of a call that looks for the first range.
    pub fn add_first(&mut self, answer: &Result<Option<(u64, u64)>, TextFault>) {
        match answer {
            Ok(Some((start, end))) => self.add_range(*start, *end),
            Ok(None) => self.add(1),
            Err(fault) => self.add_fault(fault),
        }
    }

    /// Adds the answer of a call that takes a piece, or ends a text.
    pub fn add_status(&mut self, answer: &Result<(), TextFault>) {
        match answer {
            Ok(()) => self.add(1),
            Err(fault) => self.add_fault(fault),
        }
    }

    /// Adds a fault.
    fn add_fault(&mut self, fault: &TextFault) {
        self.add(u64::from(fault.kind));
        self.add(fault.offset);
    }

    /// Adds the words of a saved state.
    pub fn add_words(&mut self, words: &[u64]) {
        for word in words {
            self.add(*word);
        }
    }
}
