// A reader stands over a paper's bytes and keeps its place, by which refusals name a word.
ghost use Rattle.std.specs.Prelude.{◌≡◌, ◌+◌, ◌*◌, ◌≤◌, [], ◌∷◌, length, MatchOption};

use crate::word::{self, Word};

#[derive(Drop)]
pub struct Reader<'a> {
    pub(crate) bytes: &'a [u8],
    pub(crate) at: usize,
    ghost inside: { 4 * at ≤ length bytes.now },
}

impl<'a> Reader<'a> {
    ghost use Rattle.words.specs.Left.{left};

    // It starts at the first word.
    pub fn new(bytes: &'a [u8]) -> Self
        ensures at { result.at ≡ 0 }
        ensures bytes { result.bytes.now ≡ bytes.now }
    {
        Reader { bytes, at: 0 }
    }

    // How many words have been taken.
    pub fn place(&self) -> usize
        ensures { result ≡ self.now.at }
    {
        self.at
    }

    // The next word, or None at the end, where the reader stays.
    pub fn take_word(&mut self) -> Option<Word>
        ensures same { self.new.bytes.now ≡ self.old.bytes.now }
        ensures cases { MatchOption result ((left self.old ≡ []) × (self.new.at ≡ self.old.at)) (λ w. (left self.old ≡ w.bits ∷ left self.new) × (w.place ≡ self.old.at) × (self.new.at ≡ self.old.at + 1)) }
    {
        let word = word::word_at(self.bytes, self.at)?;
        self.at += 1;
        Some(word)
    }
}

// The words that are left, each with its place.
impl Iterator for Reader<'_> {
    ghost use Rattle.std.specs.Iterator.{YieldsFirst, item_count};
    ghost use Rattle.words.specs.Left.{to_come};

    type Item = Word;

    ghost next_gives = { YieldsFirst to_come };

    ghost remaining = { item_count to_come };

    fn next(&mut self) -> Option<Word> {
        self.take_word()
    }
}
