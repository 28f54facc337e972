ghost use Rattle.std.specs.Prelude.{◌≡◌, ◌↔◌, true, [], ◌∷◌, IfErr, Ok, ◌≢◌};
ghost use Rattle.std.specs.Str.Parse.{AllDigits, without_leading_sign, ParsesUnsigned};
ghost use Rattle.jildorba.specs.Words.{Parses, Tells};

use std::str::FromStr;

// Why a word is no number for its field.
#[derive(Clone, Copy)]
pub enum Misfit {
    // it is not digits, with or without a sign
    NoNumber,
    // it is a number outside the field's range
    OutOfRange,
}

// The number that the digits of a word write; a plus may stand first, and a minus where the type has a sign.
pub fn number<T: FromStr>(word: &str) -> Result<T, Misfit>
where
    T::Err: Drop,
    ensures reads { Parses T.from_str_gives word.now result }
    ensures why { IfErr result (Tells word.now) }
{
    word.parse::<T>().map_err(|_| why_not(word))
}

// The byte of a root field, where a minus alone stands for 255.
pub fn root(word: &str) -> Result<u8, Misfit>
    ensures none { word.now ≡ 45 ∷ [] → result ≡ Ok 255 }
    ensures reads { (word.now ≢ 45 ∷ []) → ParsesUnsigned 8 10 word.now result }
    ensures why { IfErr result (Tells word.now) }
{
    if word == "-" {
        return Ok(255);
    }
    number(word)
}

fn why_not(word: &str) -> Misfit
    ensures { Tells word.now result }
{
    let digits = after_sign(word.as_bytes());
    if !digits.is_empty() && all_digits(digits) {
        Misfit::OutOfRange
    } else {
        Misfit::NoNumber
    }
}

fn after_sign(bytes: &[u8]) -> &[u8]
    ensures { result.now ≡ without_leading_sign bytes.now }
{
    match bytes {
        [b'-' | b'+', rest @ ..] => rest,
        _ => bytes,
    }
}

fn all_digits(bytes: &[u8]) -> bool
    ensures { (result ≡ true) ↔ AllDigits 10 bytes.now }
{
    bytes.iter().all(u8::is_ascii_digit)
}
