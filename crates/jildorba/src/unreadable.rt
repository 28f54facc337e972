ghost use Rattle.std.specs.Prelude.{◌≡◌};
ghost use Rattle.std.specs.declared.alloc.AllocError.{AllocError};
ghost use Rattle.jildorba.specs.declared.unreadable.Misread.TheVariants.{NoMemory, Unreadable};

use crate::numbers::Misfit;
use std::alloc::{AllocError, AllocFailed};
use std::fmt;

// A field of a line, with the letter that the list of commands has for it.
#[derive(Clone, Copy)]
pub enum Field {
    // of the store: deferring or eager
    Make,
    // N, how many cells
    Cells,
    // D, a root to be filled
    Filled,
    // R, a root
    Root,
    // S, a second root
    Other,
    // A, the root of link 0
    Link0,
    // B, the root of link 1
    Link1,
    // K
    Kind,
    // V
    Value,
}

impl fmt::Display for Field {
    fn fmt<W: fmt::Write>(&self, f: &mut fmt::Formatter<W>) -> fmt::Result {
        f.write_str(match self {
            Field::Make => "the make of the store",
            Field::Cells => "N",
            Field::Filled => "D",
            Field::Root => "R",
            Field::Other => "S",
            Field::Link0 => "A",
            Field::Link1 => "B",
            Field::Kind => "K",
            Field::Value => "V",
        })
    }
}

impl Field {
    fn range(self) -> &'static str {
        match self {
            Field::Make => "deferring or eager",
            Field::Cells => "0 to 65535",
            Field::Kind => "0 to 255",
            Field::Value => "-2147483648 to 2147483647",
            _ => "0 to 255, or - for 255",
        }
    }
}

// Why a line cannot be read, or cannot be answered where it stands.
#[derive(Clone, Copy)]
pub enum Unreadable<'a> {
    UnknownCommand(&'a str),
    Missing(Field),
    // a word that its field does not take
    Unfit(Misfit, Field, &'a str),
    // the first word past the last field
    Extra(&'a str),
    // a word of a rule has a character that is no hexadecimal digit
    NoDigits(&'a str),
    // a word of a rule ends with one digit of a byte
    HalfByte(&'a str),
    // it asks a bench, and none is set up
    NoStore,
}

// A word is quoted with its control characters escaped, since it goes to a terminal.
impl fmt::Display for Unreadable<'_> {
    fn fmt<W: fmt::Write>(&self, f: &mut fmt::Formatter<W>) -> fmt::Result {
        match *self {
            Unreadable::UnknownCommand(word) => write!(f, "unknown command {word:?}"),
            Unreadable::Missing(field) => write!(f, "{field} is missing"),
            Unreadable::Unfit(Misfit::NoNumber, field, word) => {
                write!(f, "{field} is not a number: {word:?}")
            }
            Unreadable::Unfit(Misfit::OutOfRange, field, word) => {
                write!(f, "{field} is not {}: {word:?}", field.range())
            }
            Unreadable::Extra(word) => write!(f, "one word too many: {word:?}"),
            Unreadable::NoDigits(word) => write!(f, "HEX is not hexadecimal digits: {word:?}"),
            Unreadable::HalfByte(word) => write!(f, "HEX is not two digits a byte: {word:?}"),
            Unreadable::NoStore => f.write_str(
                "no store is set up yet: begin with store deferring N or store eager N",
            ),
        }
    }
}

// Why a line is not answered.
#[derive(Clone, Copy)]
pub enum Misread<'a> {
    NoMemory(AllocError),
    Unreadable(Unreadable<'a>),
}

impl<'a> From<AllocError> for Misread<'a> {
    ghost from_gives = { λ e r. r ≡ NoMemory e };

    fn from(e: AllocError) -> Misread<'a> {
        Misread::NoMemory(e)
    }
}

impl<'a, T: Drop> From<AllocFailed<T>> for Misread<'a> {
    ghost from_gives = { λ _ r. (e : AllocError) × (r ≡ NoMemory e) };

    fn from(e: AllocFailed<T>) -> Misread<'a> {
        Misread::NoMemory(AllocError::from(e))
    }
}

impl<'a> From<Unreadable<'a>> for Misread<'a> {
    ghost from_gives = { λ e r. r ≡ Unreadable e };

    fn from(why: Unreadable<'a>) -> Misread<'a> {
        Misread::Unreadable(why)
    }
}
