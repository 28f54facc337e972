use crate::numbers::{Misfit, number, root};
use crate::unreadable::{Field, Unreadable};
use bench::call::Call;
use std::str::{FromStr, SplitWhitespace};

// Which store a bench stands on.
#[derive(Clone, Copy)]
pub enum Make {
    Deferring,
    Eager,
}

// What a bench is asked.
#[derive(Clone, Copy)]
pub enum Ask {
    Call(Call),
    Tally,
    Roots,
    Cells,
}

// One line of a script.
#[derive(Drop)]
pub enum Line<'a> {
    Blank,
    Help,
    Setup { make: Make, cells: u16 },
    // the words of a rule are read where there is memory for its bytes
    Check(SplitWhitespace<'a>),
    Ask(Ask),
}

// The words of a line that are still to be read.
#[derive(Drop)]
struct Fields<'a> {
    words: SplitWhitespace<'a>,
}

// What a line says, up to a comment.
#[inline(always)]
pub fn read_line<'a>(text: &'a str) -> Result<Line<'a>, Unreadable<'a>> {
    let mut fields = Fields::of(text);
    let Some(command) = fields.words.next() else {
        return Ok(Line::Blank);
    };
    let line = match command {
        "help" => Line::Help,
        "store" => fields.setup()?,
        "check" => return Ok(Line::Check(fields.words)),
        "tally" => Line::Ask(Ask::Tally),
        "roots" => Line::Ask(Ask::Roots),
        "cells" => Line::Ask(Ask::Cells),
        _ => Line::Ask(Ask::Call(fields.call(command)?)),
    };
    fields.end()?;
    Ok(line)
}

impl<'a> Fields<'a> {
    #[inline(always)]
    fn of(text: &'a str) -> Fields<'a> {
        let (said, _) = text.split_once('#').unwrap_or((text, ""));
        Fields {
            words: said.split_whitespace(),
        }
    }

    fn setup(&mut self) -> Result<Line<'a>, Unreadable<'a>> {
        let make = match self.word(Field::Make)? {
            "deferring" => Make::Deferring,
            "eager" => Make::Eager,
            other => return Err(Unreadable::Unfit(Misfit::OutOfRange, Field::Make, other)),
        };
        let cells = self.number(Field::Cells)?;
        Ok(Line::Setup { make, cells })
    }

    #[inline(always)]
    fn call(&mut self, command: &'a str) -> Result<Call, Unreadable<'a>> {
        match command {
            "make" => Ok(Call::Make {
                d: self.root(Field::Filled)?,
                kind: self.number(Field::Kind)?,
                value: self.number(Field::Value)?,
                a: self.root(Field::Link0)?,
                b: self.root(Field::Link1)?,
            }),
            "copy" => Ok(Call::Copy {
                s: self.root(Field::Other)?,
                d: self.root(Field::Filled)?,
            }),
            "release" => Ok(Call::Release {
                r: self.root(Field::Root)?,
            }),
            "match" => Ok(Call::Match {
                r: self.root(Field::Root)?,
                kind: self.number(Field::Kind)?,
                a: self.root(Field::Link0)?,
                b: self.root(Field::Link1)?,
            }),
            "rebuild" => Ok(Call::Rebuild {
                r: self.root(Field::Root)?,
                kind: self.number(Field::Kind)?,
                value: self.number(Field::Value)?,
                a: self.root(Field::Link0)?,
                b: self.root(Field::Link1)?,
            }),
            "look" => Ok(Call::Look {
                r: self.root(Field::Root)?,
            }),
            "same" => Ok(Call::Same {
                r: self.root(Field::Root)?,
                s: self.root(Field::Other)?,
            }),
            _ => Err(Unreadable::UnknownCommand(command)),
        }
    }

    #[inline(always)]
    fn word(&mut self, field: Field) -> Result<&'a str, Unreadable<'a>> {
        self.words.next().ok_or(Unreadable::Missing(field))
    }

    #[inline(always)]
    fn root(&mut self, field: Field) -> Result<u8, Unreadable<'a>> {
        let word = self.word(field)?;
        root(word).map_err(|why| Unreadable::Unfit(why, field, word))
    }

    #[inline(always)]
    fn number<T: FromStr>(&mut self, field: Field) -> Result<T, Unreadable<'a>>
    where
        T::Err: Drop,
    {
        let word = self.word(field)?;
        number(word).map_err(|why| Unreadable::Unfit(why, field, word))
    }

    // No word is left over.
    #[inline(always)]
    fn end(&mut self) -> Result<(), Unreadable<'a>> {
        let left = self.words.next();
        left.map_or(Ok(()), |word| Err(Unreadable::Extra(word)))
    }
}
