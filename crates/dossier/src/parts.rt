// The four parts of a dossier.
ghost use Rattle.std.specs.Prelude.{◌≡◌, ℕ, Bool};
ghost use Rattle.words.specs.declared.word.Word.{Word as WordSpec};
ghost use Rattle.dossier.specs.Parts.{run_of, after, plant_part, source_part, target_part, evidence_part};

use words::{Kind, Reader, Word};

// The words that come first as long as the test takes them, and what follows.
fn cut<F: Fn(Word) -> bool>(bytes: &[u8], takes: F) -> (&[u8], &[u8])
    requires { F.IsAlwaysCallable takes }
    ensures run { (test : ℕ → Bool) → ((word : WordSpec) (took : Bool) → F.post takes word took → took ≡ test word.bits) → result.0.now ≡ run_of test bytes.now }
    ensures rest { (test : ℕ → Bool) → ((word : WordSpec) (took : Bool) → F.post takes word took → took ≡ test word.bits) → result.1.now ≡ after test bytes.now }
{
    let words = Reader::new(bytes).take_while(|&word| takes(word)).count();
    bytes.split_at(4 * words)
}

// What a dossier is cut into: the plant paper, the source words, the target words and the evidence paper.
#[derive(Drop)]
pub struct Dossier<'a> {
    pub plant: &'a [u8],
    pub source: &'a [u8],
    pub target: &'a [u8],
    pub evidence: &'a [u8],
}

// Cuts the bytes into their parts, whatever they are.
pub fn split(input: &[u8]) -> Dossier<'_>
    ensures plant { result.plant.now ≡ plant_part input.now }
    ensures source { result.source.now ≡ source_part input.now }
    ensures target { result.target.now ≡ target_part input.now }
    ensures evidence { result.evidence.now ≡ evidence_part input.now }
{
    let (plant, from_source) = cut(input, |word| word.kind() != Some(Kind::Source));
    let (source, from_target) = cut(from_source, |word| word.kind() == Some(Kind::Source));
    let (target, evidence) = cut(from_target, |word| word.kind() == Some(Kind::Target));
    Dossier {
        plant,
        source,
        target,
        evidence,
    }
}
