ghost use Rattle.std.specs.Option.{SomeIff};
ghost use Rattle.std.specs.Char.{digit_value};
ghost use Rattle.jildorba.specs.Pairs.{Digit, byte, Appended};

use crate::unreadable::{Misread, Unreadable};
use std::alloc::Global;
use std::str::SplitWhitespace;

// The bytes that words write, two hexadecimal digits a byte. A byte stands in one word.
pub fn bytes_of<'a>(heap: Global, words: SplitWhitespace<'a>) -> Result<Vec<u8>, Misread<'a>> {
    let mut bytes = Vec::new(heap);
    for word in words {
        push_word(&mut bytes, word)?;
    }
    Ok(bytes)
}

fn push_word<'a>(bytes: &mut Vec<u8>, word: &'a str) -> Result<(), Misread<'a>>
    ensures { Appended bytes.old.items word.now bytes.new.items result }
{
    let mut rest = word.as_bytes();
    'each: while let [high, low, more @ ..] = rest {
        bytes.push(byte_of(*high, *low).ok_or(Unreadable::NoDigits(word))?)?;
        rest = more;
    }
    if !rest.is_empty() {
        return Err(Unreadable::HalfByte(word).into());
    }
    Ok(())
}

// The byte of two digits, the high one first.
fn byte_of(high: u8, low: u8) -> Option<u8>
    ensures { SomeIff result (Digit high × Digit low) (byte high low) }
{
    Some(digit_of(high)? * 16 + digit_of(low)?)
}

fn digit_of(byte: u8) -> Option<u8>
    ensures { SomeIff result (Digit byte) (digit_value byte) }
{
    let digit = char::from(byte).to_digit(16)?;
    Some(digit as u8)
}
