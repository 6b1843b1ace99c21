//! Texts of words that are chosen by a number, in lines.

use crate::random::Random;
use anyhow::{Result, bail};
use std::alloc::{AllocError, Global};

/// How many bytes a line has at least.
const LINE_LENGTH: usize = 72;

/// By how many words a part begins behind the one before, in a circle. It is a prime number, above the number of words of any text here, so
/// that each word comes once before one comes again.
const STRIDE: usize = 2_147_483_647;

/// What is found in no list of words.
const NOTHING: &[u8] = b"";

/// A text, and where its words begin.
#[derive(Drop)]
pub struct Text {
    bytes: Vec<u8>,
    starts: Vec<usize>,
}

/// Parts of a text, no two from the same word on until each word has come.
#[derive(Drop)]
pub struct Parts<'a> {
    text: &'a Text,
    first: usize,
}

/// The words of the list with this name. A line of `lists` is a name and words, with blanks between them.
pub fn words<'a>(alloc: Global, lists: &'a str, name: &str) -> Result<Vec<&'a str>> {
    for line in lists.lines() {
        if let Some((first, rest)) = line.split_once(' ')
            && first == name
        {
            let mut words = Vec::new(alloc);
            for word in rest.split(' ') {
                words.push(word)?;
            }
            return Ok(words);
        }
    }
    bail!("no list {name}");
}

impl Text {
    /// At least `size` bytes of words, with a blank behind each but one in `joined`.
    pub fn of_words(
        alloc: Global,
        words: &[&str],
        joined: usize,
        size: usize,
        random: &mut Random,
    ) -> Result<Text> {
        let mut text = Text {
            bytes: Vec::new(alloc),
            starts: Vec::new(alloc),
        };
        let mut line = 0usize;
        for _ in 0..size {
            if text.bytes.len() >= size {
                break;
            }
            let word = word_of(words, random);
            text.starts.push(text.bytes.len())?;
            text.bytes.extend_from_slice(word.as_bytes())?;
            if text.bytes.len().saturating_sub(line) > LINE_LENGTH {
                line = text.bytes.len();
                text.bytes.push(b'\n')?;
            } else if joined == 0 || random.below(joined) > 0 {
                text.bytes.push(b' ')?;
            }
        }
        Ok(text)
    }

    /// `size` characters of a range of code points, in words of up to eight.
    pub fn of_characters(
        alloc: Global,
        first: u32,
        count: usize,
        size: usize,
        random: &mut Random,
    ) -> Result<Text> {
        let mut text = Text {
            bytes: Vec::new(alloc),
            starts: Vec::new(alloc),
        };
        for _ in 0..size {
            let chosen = u32::try_from(random.below(count.max(1))).unwrap_or(0);
            let character = char::from_u32(first.wrapping_add(chosen)).unwrap_or('-');
            if random.below(8) == 0 {
                text.bytes.push(b' ')?;
                text.starts.push(text.bytes.len())?;
            }
            let mut room = [0; 4];
            text.bytes
                .extend_from_slice(character.encode_utf8(&mut room).as_bytes())?;
        }
        Ok(text)
    }

    /// All of it.
    pub fn bytes(&self) -> &[u8] {
        self.bytes.as_slice()
    }

    /// How many words so many bytes of it have, about, and one at least.
    pub fn words_in(&self, bytes: usize) -> usize {
        let words = bytes.saturating_mul(self.starts.len()) / self.bytes.len().max(1);
        words.max(1)
    }

    /// Parts of it, the first from any word on.
    pub fn parts(&self, random: &mut Random) -> Parts<'_> {
        Parts {
            text: self,
            first: random.below(self.starts.len().max(1)),
        }
    }

    /// From the start of a word to before the start of another.
    fn between(&self, first: usize, last: usize) -> &[u8] {
        let start = self.starts.get(first).copied().unwrap_or(0);
        let end = self.starts.get(last).copied().unwrap_or(0);
        self.bytes.get(start..end).unwrap_or(NOTHING)
    }
}

impl<'a> Parts<'a> {
    /// So many words from the next first one on, fewer at the end.
    pub fn next(&mut self, words: usize) -> &'a [u8] {
        let starts = self.text.starts.len();
        self.first = self.first.wrapping_add(STRIDE) % starts.max(1);
        let last = self
            .first
            .saturating_add(words)
            .min(starts.saturating_sub(1));
        self.text.between(self.first, last)
    }
}

/// One of the words, those in front more often.
pub fn word_of<'a>(words: &[&'a str], random: &mut Random) -> &'a str {
    words
        .get(random.skewed(words.len().max(1)))
        .copied()
        .unwrap_or("")
}
