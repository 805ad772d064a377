//! The values of numbers and texts.

ghost use Rattle.std.specs.Prelude.{◌≡◌, ◌≤◌, pos, IfOk};
ghost use Rattle.std.specs.Str.{IsUtf8};
ghost use Rattle.hog_grammar.specs.Bytes.{value_from, greatest};
ghost use Rattle.hog_grammar.specs.Terminal.{escaped, meant, unquoted};

use hog_value::{HogText, TextStop};
use std::alloc::{AllocError, Global};

/// The value of a number, which is 9223372036854775807 at most.
#[tactic(auto, using(crate::proofs::Values::value_goes, crate::proofs::Values::value_within))]
pub fn number(digits: &[u8]) -> i64
    requires { value_from 0 digits.now ≤ greatest }
    ensures { result ≡ pos (value_from 0 digits.now) }
{
    let mut value = 0u64;
    'digits: for digit in digits {
        value = value * 10 + digit.saturating_sub(b'0') as u64;
    }
    value as i64
}

/// The byte that an escape means.
fn escape(c: u8) -> u8
    ensures { result ≡ escaped c }
{
    match c {
        b'n' => b'\n',
        b'r' => b'\r',
        b't' => b'\t',
        b'0' => 0,
        _ => c,
    }
}

/// The bytes that characters mean.
#[tactic(auto, using(crate::proofs::Values::after_one, crate::proofs::Values::plain_one, crate::proofs::Values::back_one))]
fn meaning(alloc: Global, bytes: &[u8]) -> Result<Vec<u8>, AllocError>
    ensures { IfOk result (λ v. v.items ≡ meant bytes.now) }
{
    let mut meaning = Vec::new(alloc);
    let mut after_backslash = false;
    'bytes: for byte in bytes {
        if after_backslash {
            meaning.push(escape(*byte))?;
            after_backslash = false;
        } else if *byte == b'\\' {
            after_backslash = true;
        } else {
            meaning.push(*byte)?;
        }
    }
    Ok(meaning)
}

/// The text that characters mean.
pub fn characters(alloc: Global, bytes: &[u8]) -> Result<HogText, AllocError>
    requires { IsUtf8 (meant bytes.now) }
    ensures { IfOk result (λ t. t ≡ meant bytes.now) }
{
    let bytes = meaning(alloc, bytes)?;
    text_of(alloc, &bytes)
}

/// The text that stands between quotes.
pub fn quoted(alloc: Global, bytes: &[u8]) -> Result<HogText, AllocError>
    requires { IsUtf8 (meant (unquoted bytes.now)) }
    ensures { IfOk result (λ t. t ≡ meant (unquoted bytes.now)) }
{
    if bytes.len() < 2 {
        return characters(alloc, &bytes[..0]);
    }
    characters(alloc, &bytes[1..bytes.len() - 1])
}

/// Bytes that are UTF-8 as a text.
pub fn text_of(alloc: Global, bytes: &[u8]) -> Result<HogText, AllocError>
    requires { IsUtf8 bytes.now }
    ensures { IfOk result (λ t. t ≡ bytes.now) }
{
    match HogText::from_bytes(alloc, bytes) {
        Ok(text) => Ok(text),
        Err(TextStop::OutOfMemory) => Err(AllocError),
        Err(TextStop::NotUtf8 { at: _ }) => unreachable!(),
    }
}
