//! The words of the command language: bytes as pairs of lower case digits, and a full stop for
//! none; and numbers.
ghost use Rattle.std.specs.Prelude.{◌≡◌, ◌≢◌, ◌∷◌, ◌++◌, [], List, ℕ, IfOk, OnOk, MatchOption, Contains};
ghost use Rattle.hex.specs.Hex.{encode_lower, IsBytes};
ghost use Rattle.rusty_leveldb.specs.Programs.Language.{hex_word, OutputGrows};
ghost use Rattle.rusty_leveldb.specs.Programs.Readings.{IsHexWord, IsWordReading, IsNumberReading};

use hex::FromHexError;
use std::alloc::{AllocError, Global};
use std::str;

const DIGITS: &[u8; 16] = b"0123456789abcdef";

/// Appends bytes as a word to the text. Where it fails, out of memory, part of the word may be
/// there.
pub(super) fn put_word(out: &mut Vec<u8>, bytes: &[u8]) -> Result<(), AllocError>
    ensures { OutputGrows out.old.items out.new.items result (hex_word bytes.now) }
{
    if bytes.is_empty() {
        return out.extend_from_slice(b".");
    }
    for byte in bytes {
        out.extend_from_slice(&digits(*byte))?;
    }
    Ok(())
}

// A byte's two digits.
fn digits(byte: u8) -> [u8; 2]
    ensures { result ≡ encode_lower (byte ∷ []) }
{
    [DIGITS[(byte / 16) as usize], DIGITS[(byte % 16) as usize]]
}

/// The bytes that a word encodes, or none where it encodes none. Fails out of memory.
pub(super) fn read_word(alloc: Global, word: &[u8]) -> Result<Option<Vec<u8>>, AllocError>
    ensures { IfOk result (IsWordReading word.now) }
{
    let Some(bytes) = read_digits(alloc, word)? else {
        return Ok(None);
    };
    let mut again = Vec::new(alloc);
    put_word(&mut again, &bytes)?;
    if again.as_slice() == word {
        Ok(Some(bytes))
    } else {
        Ok(None)
    }
}

// The bytes of a word, whichever the case of its digits; where it is one, those that it encodes.
fn read_digits(alloc: Global, word: &[u8]) -> Result<Option<Vec<u8>>, AllocError>
    ensures { IfOk result (λ found. MatchOption found
        ((bytes : List ℕ) → IsHexWord word.now bytes → ⊥)
        (λ read. IsBytes read.items
        × ((bytes : List ℕ) → IsHexWord word.now bytes → read.items ≡ bytes))) }
{
    if word == b".".as_slice() {
        return Ok(Some(Vec::new(alloc)));
    }
    match hex::decode(alloc, word) {
        Ok(bytes) => Ok(Some(bytes)),
        Err(error) => match error {
            FromHexError::OutOfMemory => Err(AllocError),
            _ => Ok(None),
        },
    }
}

/// The number that decimal digits are, zeros before it left aside; none where the text isn't digits
/// alone, or their number has more than 64 bits.
pub(super) fn read_number(digits: &[u8]) -> Option<usize>
    ensures { IsNumberReading digits.now result }
{
    let Ok(text) = str::from_utf8(digits) else {
        return None;
    };
    if text.starts_with('+') {
        return None;
    }
    text.parse().ok()
}

/// What comes after these bytes, where a text begins with them.
pub(super) fn after<'a>(text: &'a [u8], head: &[u8]) -> Option<&'a [u8]>
    ensures { MatchOption result ((rest : List ℕ) → text.now ≢ head.now ++ rest)
        (λ rest. text.now ≡ head.now ++ rest.now) }
{
    text.strip_prefix(head)
}

/// What comes before the first of these bytes in a text, and what after it, where there is one.
pub(super) fn split_once(text: &[u8], separator: u8) -> (&[u8], Option<&[u8]>)
    ensures before { Contains result.0.now separator → ⊥ }
    ensures parts { MatchOption result.1 (result.0.now ≡ text.now)
        (λ rest. text.now ≡ result.0.now ++ separator ∷ rest.now) }
{
    for (place, byte) in text.iter().enumerate() {
        if *byte == separator {
            return (&text[..place], Some(&text[place + 1..]));
        }
    }
    (text, None)
}
