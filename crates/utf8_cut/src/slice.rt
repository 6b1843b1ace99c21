// The characters of a whole slice.
ghost use Rattle.std.specs.Prelude.{◌≡◌, take};
ghost use Rattle.std.specs.Str.{chars};
ghost use Rattle.utf8_cut.specs.Characters.{characters, characters_end, first_fault, with_offsets};

/// The longest prefix of whole characters, as text, and the offset of what follows it: of an
/// ill-formed sequence or of an incomplete sequence at the end of the slice.
pub fn front(bytes: &[u8]) -> (&str, Option<u64>)
    ensures text { result.0.now ≡ take (characters_end bytes.now) bytes.now }
    ensures characters { with_offsets 0 (chars result.0.now) ≡ characters bytes.now }
    ensures fault { result.1 ≡ first_fault bytes.now }
{
    match simdutf8::compat::from_utf8(bytes) {
        Ok(text) => (text, None),
        Err(error) => {
            let end = error.valid_up_to();
            // `from_utf8` has found these bytes well-formed.
            let text = unsafe { std::str::from_utf8_unchecked(&bytes[..end]) };
            (text, Some(end as u64))
        }
    }
}
