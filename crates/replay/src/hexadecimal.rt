//! How a script spells bytes.

ghost use Rattle.std.specs.Prelude.{◌≡◌, ℕ, ◌<◌, List, [], ◌∷◌, ◌++◌, length, OnOk, IfOk, IfErr, IfSome, IfNone, slice_index};
ghost use Rattle.std.specs.List.{concat};
ghost use Rattle.std.specs.String.{string_bytes};
ghost use Rattle.hex.specs.Hex.{encode_upper, upper_digits};
ghost use Rattle.fault.specs.declared.kinds.Fault.TheVariants.{Memory};
ghost use Rattle.replay.specs.Script.{IsDivided, IsHex, bytes_text};

use fault::Fault;
use hex::FromHexError;
use std::alloc::{AllocError, Global};

/// The bytes of a text in HEX: words of hex digits of either case, divided by one blank each, with an even number of
/// digits in all. `None` where the text is no HEX. Its only fault is `Memory`.
pub fn script_bytes(alloc: Global, text: &str) -> Result<Option<Vec<u8>>, Fault>
    ensures found { IfOk result (λ found. IfSome found (λ bytes. IsHex text.now bytes.items)) }
    ensures none { IfOk result (λ found. IfNone found ((bytes : List ℕ) → ¬ IsHex text.now bytes)) }
    ensures memory { IfErr result (λ fault. fault ≡ Memory) }
{
    let digits = match joined(alloc, text.as_bytes()) {
        Ok(Some(digits)) => digits,
        Ok(None) => return Ok(None),
        Err(_) => return Err(Fault::Memory),
    };
    match hex::decode(alloc, digits.as_slice()) {
        Ok(bytes) => Ok(Some(bytes)),
        Err(error) => match error {
            FromHexError::OutOfMemory => Err(Fault::Memory),
            _ => Ok(None),
        },
    }
}

/// The words of a text, joined without the single blanks between them. It is `None` where a blank stands at either end
/// or beside another, or where the text has no byte.
fn joined(alloc: Global, text: &[u8]) -> Result<Option<Vec<u8>>, AllocError>
    ensures found { IfOk result (λ found. IfSome found (λ digits.
        (words : List (List ℕ)) × IsDivided text.now words × (digits.items ≡ concat words))) }
    ensures none { IfOk result (λ found.
        IfNone found ((words : List (List ℕ)) → ¬ IsDivided text.now words)) }
{
    let mut digits = Vec::with_capacity(alloc, text.len())?;
    let mut begins = true;
    for byte in text {
        if *byte != b' ' {
            digits.push(*byte)?;
            begins = false;
        } else if begins {
            return Ok(None);
        } else {
            begins = true;
        }
    }
    if begins {
        return Ok(None);
    }
    Ok(Some(digits))
}

const UPPER_DIGITS: &[u8; 16] = b"0123456789ABCDEF";

/// The upper-case digit of a number below 16.
fn upper_digit(number: u8) -> char
    requires { number < 16 }
    ensures value { result ≡ slice_index upper_digits number }
    ensures ascii { result < 128 }
{
    char::from(UPPER_DIGITS[usize::from(number)])
}

fn push_byte(text: &mut String, byte: u8) -> Result<(), AllocError>
    ensures { OnOk result
        (string_bytes text.new ≡ string_bytes text.old ++ encode_upper (byte ∷ [])) }
{
    text.push(upper_digit(byte / 16))?;
    text.push(upper_digit(byte % 16))?;
    Ok(())
}

/// Bytes as a script prints them: upper-case hex in words of four bytes, divided by one blank each; the last word may
/// be shorter. Its only fault is `Memory`.
pub fn shown(alloc: Global, bytes: &[u8]) -> Result<String, Fault>
    ensures value { IfOk result (λ text. string_bytes text ≡ bytes_text bytes.now) }
    ensures memory { IfErr result (λ fault. fault ≡ Memory) }
{
    spelled(alloc, bytes).map_err(|_| Fault::Memory)
}

fn spelled(alloc: Global, bytes: &[u8]) -> Result<String, AllocError>
    ensures { IfOk result (λ text. string_bytes text ≡ bytes_text bytes.now) }
{
    let room = bytes.len().saturating_mul(3);
    let mut text = String::with_capacity(alloc, room)?;
    for (index, byte) in bytes.iter().enumerate() {
        if index > 0 && index % 4 == 0 {
            text.push(' ')?;
        }
        push_byte(&mut text, *byte)?;
    }
    Ok(text)
}
