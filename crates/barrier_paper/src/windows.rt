// Parts of a barrier paper. Each is a part of the paper's bytes: nothing is copied. The same bytes are asked for words of one kind and of
// another, so bytes and kind are two parameters and no struct. A kind is a `Kind` or any other number of four bits.
ghost use Rattle.std.specs.Prelude.{◌≡◌, ℕ, length, slice_index};
ghost use Rattle.words.specs.Words.{words, word, kind};
ghost use Rattle.barrier_paper.specs.Windows as spec;

use words::Kind;
use words::word::first_word;

// The top four bits of a word, the number of its kind.
fn kind_of(bytes: &[u8; 4]) -> u32
    ensures { result ≡ kind (word (slice_index bytes.now 0) (slice_index bytes.now 1) (slice_index bytes.now 2) (slice_index bytes.now 3)) }
{
    u32::from_be_bytes(*bytes) >> 28
}

// How many words are of a kind.
pub fn count_kind<K: Into<u32>>(bytes: &[u8], kind: K) -> usize
    ensures { (k : ℕ) × K.converts kind k × (result ≡ spec.count_kind k (words bytes.now)) }
{
    let number = kind.into();
    let mut rest = bytes;
    let mut count = 0;
    // A loop that only counts: a filter's `count` takes five times as long, since it looks for the next word of the kind each time.
    while let Some((word, after)) = first_word(rest) {
        if word >> 28 == number {
            count += 1;
        }
        rest = after;
    }
    count
}

// The part from word number n of a kind on, counted from 0; where there is none, what is left over after the words, which is no word.
pub fn seek<K: Into<u32>>(bytes: &[u8], kind: K, n: usize) -> &[u8]
    ensures { (k : ℕ) × K.converts kind k × (words result.now ≡ spec.from_nth k n (words bytes.now)) }
{
    let number = kind.into();
    let (words, rest) = bytes.as_chunks::<4>();
    let found = words
        .iter()
        .enumerate()
        .filter(|(_, word)| kind_of(word) == number)
        .nth(n);
    match found {
        Some((place, _)) => &bytes[4 * place..],
        None => rest,
    }
}

// How many words come before the first that ends a part: one of the kind with this number, or a step.
pub(crate) fn count_before(bytes: &[u8], number: u32) -> usize
    ensures { result ≡ length (spec.before number (words bytes.now)) }
{
    let (words, _) = bytes.as_chunks::<4>();
    words
        .iter()
        .position(|word| {
            let kind = kind_of(word);
            kind == number || kind == u32::from(Kind::Step)
        })
        .unwrap_or(words.len())
}

// The first word, and what follows it up to the next word of the kind or a step.
pub fn part_of<K: Into<u32>>(bytes: &[u8], kind: K) -> &[u8]
    ensures { (k : ℕ) × K.converts kind k × (words result.now ≡ spec.part k (words bytes.now)) }
{
    let number = kind.into();
    match bytes.get(4..) {
        Some(after) => &bytes[..4 * (1 + count_before(after, number))],
        None => bytes,
    }
}

// Line l of a case; where there is none, what is left over after the words, as by `seek`.
pub fn line(case: &[u8], l: usize) -> &[u8]
    ensures { words result.now ≡ spec.line_part l (words case.now) }
{
    part_of(seek(case, Kind::Line, l), Kind::Line)
}
