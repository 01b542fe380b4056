// Bytes from the hexadecimal digits that write them.
ghost use Rattle.std.specs.Prelude.{◌≡◌, IfOk, vec_items};
ghost use Rattle.std.specs.Option.{option_map};
ghost use Rattle.vectors.specs.Hex.{value_of, byte_of, bytes_of};

use std::alloc::{AllocError, Global};

// The value of a digit; None for a byte that is none.
fn value(digit: u8) -> Option<u8>
    ensures { result ≡ value_of digit }
{
    match digit {
        b'0'..=b'9' => Some(digit - b'0'),
        b'a'..=b'f' => Some(digit - b'a' + 10),
        _ => None,
    }
}

// The byte that two digits write, the higher one first.
fn byte(high: u8, low: u8) -> Option<u8>
    ensures { result ≡ byte_of high low }
{
    let x = value(high)?;
    let y = value(low)?;
    Some(16 * x + y)
}

// The bytes that the digits write; None where one is left over or is no digit.
pub fn decoded(heap: Global, digits: &[u8]) -> Result<Option<Vec<u8>>, AllocError>
    ensures { IfOk result (λ o. option_map vec_items o ≡ bytes_of digits.now) }
{
    let (pairs, rest) = digits.as_chunks::<2>();
    if !rest.is_empty() {
        return Ok(None);
    }
    let mut bytes = Vec::new(heap);
    for [high, low] in pairs {
        let Some(b) = byte(*high, *low) else {
            return Ok(None);
        };
        bytes.push(b)?;
    }
    Ok(Some(bytes))
}
