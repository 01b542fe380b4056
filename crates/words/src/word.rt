// Words of a run of bytes, and what a word says.
ghost use Rattle.std.specs.Prelude.{◌≡◌, ℕ, ◌+◌, ◌*◌, ◌/◌, ◌%◌, ◌^◌, ◌<◌, ◌≤◌, ◌∷◌, length, drop, MatchOption};
ghost use Rattle.words.specs.Words.{words, field, kind};
ghost use Rattle.words.specs.Kinds.{kind_named};
ghost use Rattle.words.specs.Placed as spec;

use crate::kind::Kind;

// A word, and its place among the words it stands with, the first at 0.
#[derive(Clone, Copy, Debug, PartialEq, Eq)]
pub struct Word {
    pub place: usize,
    pub bits: u32,
}

impl Word {
    // The top four bits say what the word is; some numbers name no kind.
    pub fn kind(self) -> Option<Kind>
        ensures { result ≡ kind_named (kind self.bits) }
    {
        Kind::try_from(self.bits >> 28).ok()
    }

    // The word without its lowest bits; without all 32 of them it is 0.
    fn from_bit(self, low: u32) -> u32
        ensures { result ≡ self.bits / 2 ^ low }
    {
        self.bits.checked_shr(low).unwrap_or(0)
    }

    // The field that has `width` bits, the lowest of them bit `low`: what lies beyond the word's 32 bits is 0.
    pub fn field(self, low: u32, width: u32) -> u32
        ensures { result ≡ field self.bits low width }
    {
        let from_low = self.from_bit(low);
        match 1u32.checked_shl(width) {
            Some(end) => from_low % end,
            None => from_low,
        }
    }
}

// The first word and what follows it, or None where fewer than four bytes are left.
pub fn first_word(bytes: &[u8]) -> Option<(u32, &[u8])>
    ensures { MatchOption result (length bytes.now < 4) (λ p. words bytes.now ≡ p.0 ∷ words p.1.now) }
{
    let [a, b, c, d, rest @ ..] = bytes else {
        return None;
    };
    Some((u32::from_be_bytes([*a, *b, *c, *d]), rest))
}

// The word at a place, or None beyond the last.
pub fn word_at(bytes: &[u8], place: usize) -> Option<Word>
    ensures { result ≡ spec.word_at place (words bytes.now) }
{
    if place >= bytes.len() / 4 {
        return None;
    }
    let (bits, _) = first_word(&bytes[4 * place..])?;
    Some(Word { place, bits })
}
