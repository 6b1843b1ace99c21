//! Sets of bytes in which sixteen bytes are looked up at once, by their halves.
ghost use Rattle.std.specs.Prelude.{◌≡◌};
ghost use Rattle.byte_blocks.specs.Sets.{in_set as in_set_of, is_in};

/// The bit that each high half of a byte has in a set.
pub const COLUMNS: [u8; 16] = [1, 2, 4, 8, 16, 32, 64, 128, 0, 0, 0, 0, 0, 0, 0, 0];

/// The bit that each high half of a byte from 128 on has in a set.
pub const HIGH_COLUMNS: [u8; 16] = [0, 0, 0, 0, 0, 0, 0, 0, 1, 2, 4, 8, 16, 32, 64, 128];

/// Not 0 at the high halves of leading bytes.
pub const LEADS: [u8; 16] = [0, 0, 0, 0, 0, 0, 0, 0, 0, 0, 0, 0, 255, 255, 255, 255];

/// Not 0 at the high halves of trailing bytes.
pub const TRAILS: [u8; 16] = [0, 0, 0, 0, 0, 0, 0, 0, 255, 255, 255, 255, 0, 0, 0, 0];

/// Not 0 where a byte is in a set of ASCII: number l of it has bit h where the byte 16 h + l is in it.
#[inline(always)]
pub fn in_set(set: &[u8; 16], byte: u8) -> u8
    ensures { result ≡ in_set_of set.now byte }
{
    set[(byte % 16) as usize] & COLUMNS[(byte / 16) as usize]
}

/// Puts a byte of ASCII into a set of these.
pub fn put(set: &mut [u8; 16], byte: u8) {
    set[(byte % 16) as usize] |= COLUMNS[(byte / 16) as usize];
}

/// A set of bytes: number l of the first half has bit h where the byte 16 h + l is in it, of the other half where 128 + 16 h + l is.
#[derive(Clone, Copy, Debug)]
pub struct ByteSet {
    pub ascii: [u8; 16],
    pub high: [u8; 16],
}

/// The empty set.
pub const NO_BYTES: ByteSet = ByteSet {
    ascii: [0; 16],
    high: [0; 16],
};

impl ByteSet {
    /// Not 0 where a byte is in it.
    #[inline(always)]
    pub fn has(&self, byte: u8) -> u8
        ensures { result ≡ is_in self.now byte }
    {
        let high = self.high[(byte % 16) as usize] & HIGH_COLUMNS[(byte / 16) as usize];
        in_set(&self.ascii, byte) | high
    }

    /// Puts a byte into it.
    pub fn put(&mut self, byte: u8) {
        put(&mut self.ascii, byte);
        self.high[(byte % 16) as usize] |= HIGH_COLUMNS[(byte / 16) as usize];
    }
}

/// Sets of bytes of ASCII: number l of a set has bit h where the byte 16 h + l is in it.
#[derive(Clone, Copy, Debug)]
pub struct AsciiSets {
    /// Of those that do not pass.
    pub halt: [u8; 16],
    /// Of those behind which none of `later` passes.
    pub key: [u8; 16],
    pub later: [u8; 16],
    /// Of those behind which none of `inner` passes.
    pub joins: [u8; 16],
    pub inner: [u8; 16],
}

/// Sets of bytes, of which each ends a character of one byte or of two, but for leading bytes.
#[derive(Clone, Copy, Debug)]
pub struct TwoByteSets {
    /// Of those that do not pass; leading ones among them.
    pub halt: ByteSet,
    /// Of those behind which none of `later` ends the next character.
    pub key: ByteSet,
    pub later: ByteSet,
}
