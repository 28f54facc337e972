ghost use Rattle.std.specs.Prelude.{◌≤◌};
ghost use Rattle.std.specs.Int.{w32};
ghost use Rattle.std.specs.Str.Parse.{ParsesUnsigned, ParsesSigned};

use crate::drive::{Clerk, Desk, NoDesk};
use crate::line::{Ask, Line, Make, read_line};
use crate::numbers::{Misfit, number};
use bench::call::{Answer, Call};
use bench::fault::{BenchFault, Wanting};
use std::alloc::{AllocError, Global};
use std::test::Fail;
use store::cell::Cell;
use store::fault::StoreFault;

#[test]
fn lines_are_read_field_by_field(rt: HostRuntime) {
    assert!(rt; matches!(read_line(" \t# look 1"), Ok(Line::Blank)));
    assert!(rt; matches!(read_line("help # 1"), Ok(Line::Help)));
    assert!(rt;
        matches!(
            read_line("store deferring 65535"),
            Ok(Line::Setup {
                make: Make::Deferring,
                cells: 65535,
            }),
        )
    );
    assert!(rt;
        matches!(
            read_line("store eager 0"),
            Ok(Line::Setup {
                make: Make::Eager,
                cells: 0,
            }),
        )
    );
    assert!(rt;
        matches!(
            read_line("  make 0 64 -2147483648 1 - # over root 1"),
            Ok(Line::Ask(Ask::Call(Call::Make {
                d: 0,
                kind: 64,
                value: -2147483648,
                a: 1,
                b: 255,
            }))),
        )
    );
    assert!(rt;
        matches!(
            read_line("copy 16 -"),
            Ok(Line::Ask(Ask::Call(Call::Copy { s: 16, d: 255 }))),
        )
    );
    assert!(rt;
        matches!(
            read_line("release 3#"),
            Ok(Line::Ask(Ask::Call(Call::Release { r: 3 }))),
        )
    );
    assert!(rt;
        matches!(
            read_line("match 1 128 2 3"),
            Ok(Line::Ask(Ask::Call(Call::Match {
                r: 1,
                kind: 128,
                a: 2,
                b: 3,
            }))),
        )
    );
    assert!(rt;
        matches!(
            read_line("rebuild 1 255 2147483647 2 3"),
            Ok(Line::Ask(Ask::Call(Call::Rebuild {
                r: 1,
                kind: 255,
                value: 2147483647,
                a: 2,
                b: 3,
            }))),
        )
    );
    assert!(rt;
        matches!(
            read_line("look 15"),
            Ok(Line::Ask(Ask::Call(Call::Look { r: 15 }))),
        )
    );
    assert!(rt;
        matches!(
            read_line("same 4 5"),
            Ok(Line::Ask(Ask::Call(Call::Same { r: 4, s: 5 }))),
        )
    );
    assert!(rt; matches!(read_line("tally"), Ok(Line::Ask(Ask::Tally))));
    assert!(rt; matches!(read_line("roots"), Ok(Line::Ask(Ask::Roots))));
    assert!(rt; matches!(read_line("cells"), Ok(Line::Ask(Ask::Cells))));
}

// Why a line cannot be read; no text where it can.
fn reason(heap: Global, line: &str) -> Result<String, AllocError> {
    match read_line(line) {
        Ok(_) => String::from_str(heap, ""),
        Err(why) => format!(in heap; "{why}"),
    }
}

#[test]
fn unreadable_lines_are_told_why(rt: HostRuntime) -> Result<(), Fail> {
    let worked = [
        ("Make 0 0 5 - -", "unknown command \"Make\""),
        ("store", "the make of the store is missing"),
        (
            "store lazy 4",
            "the make of the store is not deferring or eager: \"lazy\"",
        ),
        ("store eager # 4", "N is missing"),
        ("store eager 65536", "N is not 0 to 65535: \"65536\""),
        ("make 0 256 5 - -", "K is not 0 to 255: \"256\""),
        ("make 0 - 5 - -", "K is not a number: \"-\""),
        (
            "make 0 0 2147483648 - -",
            "V is not -2147483648 to 2147483647: \"2147483648\"",
        ),
        (
            "rebuild 0 0 -2147483649 - -",
            "V is not -2147483648 to 2147483647: \"-2147483649\"",
        ),
        ("make 0 0 5 -1 -", "A is not 0 to 255, or - for 255: \"-1\""),
        ("make 0 0 5 -", "B is missing"),
        (
            "match 0 0 - 999999999999999999999x",
            "B is not a number: \"999999999999999999999x\"",
        ),
        ("copy 0", "D is missing"),
        ("copy one 2", "S is not a number: \"one\""),
        ("look 1 2 3", "one word too many: \"2\""),
        ("look \u{1b}[2J", "R is not a number: \"\\u{1b}[2J\""),
        ("same 1 256", "S is not 0 to 255, or - for 255: \"256\""),
        ("tally 1", "one word too many: \"1\""),
    ];
    for (line, why) in worked {
        let said = reason(rt.alloc(), line)?;
        assert_eq!(rt; said.as_str(), why);
    }
    Ok(())
}

// What `number` promises at each type that a field has, in the library's words.
fn byte(word: &str) -> Result<u8, Misfit>
    ensures { ParsesUnsigned 8 10 word.now result }
{
    number(word)
}

fn size(word: &str) -> Result<u16, Misfit>
    ensures { ParsesUnsigned 16 10 word.now result }
{
    number(word)
}

fn value(word: &str) -> Result<i32, Misfit>
    ensures { ParsesSigned w32 10 word.now result }
{
    number(word)
}

#[test]
fn numbers_are_read_at_each_type(rt: HostRuntime) {
    assert!(rt; matches!(byte("+255"), Ok(255)));
    assert!(rt; matches!(byte("-0"), Err(Misfit::OutOfRange)));
    assert!(rt; matches!(size("65536"), Err(Misfit::OutOfRange)));
    assert!(rt; matches!(size("0x10"), Err(Misfit::NoNumber)));
    assert!(rt; matches!(value("-2147483648"), Ok(-2147483648)));
    assert!(rt; matches!(value("-"), Err(Misfit::NoNumber)));
}

// Answers the calls in turn, whatever they are; it stands on a lent table as a bench does.
#[derive(Drop)]
struct Dummy<'t> {
    cells: &'t mut [Cell],
    sent: u8,
    ghost few: { sent ≤ 8 },
}

impl Desk for Dummy<'_> {
    fn send(&mut self, _call: &Call) -> Result<Answer, BenchFault> {
        if self.sent < 8 {
            self.sent += 1;
        }
        match self.sent {
            1 => Ok(Answer::Done),
            2 => Ok(Answer::Value(-5)),
            3 => Ok(Answer::OtherKind),
            4 => Ok(Answer::Cell { kind: 64, value: 6 }),
            5 => Ok(Answer::Sameness(true)),
            6 => Ok(Answer::Sameness(false)),
            7 => Err(BenchFault::NoSuchRoot(16)),
            _ => Err(BenchFault::Store(Wanting {
                fault: StoreFault::NoCell,
                root: 3,
            })),
        }
    }

    fn cells(&self) -> &[Cell] {
        self.cells
    }

    fn root(&self, r: u8) -> Option<u16> {
        match r {
            0 => Some(5),
            3 => Some(7),
            _ => None,
        }
    }
}

const SCRIPT: [&str; 18] = [
    "# before any set-up",
    "tally",
    "store eager 4097",
    "store eager 2",
    "look 0",
    "look 0",
    "look 0",
    "look 0",
    "store deferring 0",
    "look 0",
    "look",
    "look 0",
    "look 0",
    "look 0",
    "roots",
    "tally",
    "cells",
    "store deferring 4096",
];

const BEFORE: &str = "line 2: no store is set up yet: begin with store deferring N or store eager N
fault 1 layer 2 root 255 place 65535
";

const SERVED: &str = "ok
value -5
other kind
kind 64 value 6
fault 1 layer 2 root 255 place 65535
yes
line 11: R is missing
no
fault 2 layer 2 root 16 place 65535
fault 22 layer 1 root 3 place 65535
roots 0:5 3:7
tally 3
cell 0 kind 128 value -1 links 1 - count 2 next -
cell 1 kind 0 value 0 links - - count 1 next 0
";

#[test]
fn a_part_is_served_up_to_the_next(rt: HostRuntime) -> Result<(), Fail> {
    let mut table = [Cell::BLANK; 2];
    table[0] = Cell {
        kind: 128,
        value: -1,
        link0: Some(1),
        count: 2,
        ..Cell::BLANK
    };
    table[1] = Cell {
        count: 1,
        next: Some(0),
        ..Cell::BLANK
    };
    let mut clerk = Clerk::new(rt.alloc());
    let Some(first) = clerk.serve(&SCRIPT, 0, &mut NoDesk)? else {
        return Err(Fail::new("no part"));
    };
    assert_eq!(rt; first.start, 4);
    assert_eq!(rt; clerk.out.as_str(), BEFORE);
    clerk.out.clear();
    let mut desk = Dummy {
        cells: &mut table,
        sent: 0,
    };
    let Some(second) = clerk.serve(&SCRIPT, first.start, &mut desk)? else {
        return Err(Fail::new("no second part"));
    };
    assert_eq!(rt; second.start, 18);
    assert_eq!(rt; second.cells, 4096);
    assert_eq!(rt; clerk.out.as_str(), SERVED);
    Ok(())
}

// What is printed for a script of one line that needs no bench.
fn told(heap: Global, line: &str) -> Result<String, AllocError> {
    let mut clerk = Clerk::new(heap);
    clerk.serve(&[line], 0, &mut NoDesk)?;
    Ok(clerk.out)
}

#[test]
fn rules_are_read_in_digits(rt: HostRuntime) -> Result<(), Fail> {
    let heap = rt.alloc();
    let worked = [
        ("check 0A00010000000000030004000C00", "records 2\n"),
        (
            " check 0a 0001 00 00 00 0000 03 00 04 000c 00# two records",
            "records 2\n",
        ),
        ("check", "fault 6 layer 3 root 255 place 0\n"),
        (
            "check 0A0",
            "line 1: HEX is not two digits a byte: \"0A0\"\n",
        ),
        (
            "check -1 0",
            "line 1: HEX is not hexadecimal digits: \"-1\"\n",
        ),
    ];
    for (line, said) in worked {
        let out = told(heap, line)?;
        assert_eq!(rt; out.as_str(), said);
    }
    let mut long = String::from_str(heap, "check ")?;
    for _ in 0..4097 {
        long.push_str("00")?;
    }
    let out = told(heap, long.as_str())?;
    assert_eq!(rt; out.as_str(), "fault 4 layer 3 root 255 place 0\n");
    Ok(())
}
