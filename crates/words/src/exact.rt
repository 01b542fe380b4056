// What words and bytes have to do with each other.
ghost use Rattle.words.specs.Inverse.{WordsAndBytesAgree};

// Writing words as bytes and reading bytes as words are inverse to each other.
pub fn words_and_bytes_agree() -> bool
    ensures { WordsAndBytesAgree }
{
    true
}
