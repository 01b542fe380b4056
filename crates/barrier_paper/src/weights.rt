// The weights of a line: for each tank the sum of its weight words.
ghost use Rattle.std.specs.Prelude.{◌≡◌, ℕ, ◌*◌, ◌/◌, ◌<◌, ◌≤◌, length, pos, ◌+ℤ◌, slice_index_or, unsigned_abs};
ghost use Rattle.words.specs.Words.{words};
ghost use Rattle.words.specs.Kinds.{number_of};
ghost use Rattle.plant.specs.Limits.{most_tanks};
ghost use Rattle.paper.specs.Limits.{most_evidence_words};
ghost use Rattle.lines.specs.Limits.{most_weight_sum};
ghost use Rattle.lines.specs.OfLine.{line_meant};
ghost use Rattle.barrier_paper.specs.Document.{signed, weight_said};
ghost use Rattle.barrier_paper.specs.Windows.{word_weight, part_weight, part_strict, line_said};

use lines::{LineWeights, Weights};
use paper::limits::MOST_EVIDENCE_WORDS;
use plant::limits::MOST_TANKS;
use words::word::word_at;
use words::{Kind, Reader, Word};

// The size that a weight word writes, with its sign.
fn signed_of(word: Word) -> i32
    ensures { result ≡ signed (weight_said word.bits) }
{
    let size = word.field(0, 14) as i32;
    if word.field(14, 1) == 1 { -size } else { size }
}

// Adds what one word gives to its tank, if it is a weight word of the kind.
fn add_weight(each: &mut [i32; MOST_TANKS], kind: Kind, word: Word)
    requires { (r : ℕ) → r < most_tanks → unsigned_abs (slice_index_or each.old r (pos 0)) ≤ 2 * most_weight_sum }
    ensures { (r : ℕ) → r < most_tanks → slice_index_or each.new r (pos 0) ≡ slice_index_or each.old r (pos 0) +ℤ word_weight (number_of kind) word.bits r }
{
    if word.kind() == Some(kind) {
        each[word.field(22, 6) as usize] += signed_of(word);
    }
}

// For each tank what the weight words of the kind give it.
fn weights(part: &[u8], kind: Kind) -> Weights
    requires { length part.now / 4 ≤ most_evidence_words }
    ensures { (r : ℕ) → slice_index_or result.each r (pos 0) ≡ part_weight (number_of kind) (words part.now) r }
{
    let mut each = [0; MOST_TANKS];
    for word in Reader::new(part) {
        add_weight(&mut each, kind, word);
    }
    Weights { each }
}

// Whether a line's word, its first, says strict.
fn is_strict(line: &[u8]) -> bool
    ensures { result ≡ part_strict (words line.now) }
{
    word_at(line, 0).is_some_and(|word| word.field(0, 1) == 1)
}

// The line that a part of a paper says. One with more words than a paper may have says nothing, so that no sum is too large.
pub fn line_weights(line: &[u8]) -> LineWeights
    ensures { line_meant result ≡ line_said (words line.now) }
{
    let line = if line.len() / 4 > MOST_EVIDENCE_WORDS {
        &[]
    } else {
        line
    };
    LineWeights {
        left: weights(line, Kind::Left),
        right: weights(line, Kind::Right),
        strict: is_strict(line),
    }
}
