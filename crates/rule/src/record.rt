ghost use Rattle.std.specs.Prelude.{◌≡◌};
ghost use Rattle.rule.specs.Kinds.{kind_number, Reads};
ghost use Rattle.rule.specs.Read.{closes, front, arms, fields, head_fields, record_at, head_at};
ghost use Rattle.rule.specs.Judged.{rec_call};
ghost use Rattle.rule.specs.Shown.{shown, shown_front, shown_arms, shown_fields, shown_record_at, shown_head, shown_head_at};

use crate::fault::Flaw;
use bench::call::Call;

// The head of a rule: the roots in use when it begins, when it ends, and the roots that it may touch; bit r for root r.
#[derive(Clone, Copy, PartialEq, Eq, Debug)]
pub struct Head {
    pub enter: u16,
    pub leave: u16,
    pub own: u16,
}

// A record of a block. The arms of a match or test are parts of the rule's bytes.
#[derive(Clone, Copy)]
pub enum Record<'a> {
    Make {
        d: u8,
        kind: u8,
        slot: u8,
        a: u8,
        b: u8,
    },
    Copy {
        s: u8,
        d: u8,
    },
    Release {
        r: u8,
    },
    Rebuild {
        r: u8,
        kind: u8,
        slot: u8,
        a: u8,
        b: u8,
    },
    Set {
        slot: u8,
        value: i32,
    },
    Sum {
        to: u8,
        x: u8,
        y: u8,
    },
    Difference {
        to: u8,
        x: u8,
        y: u8,
    },
    Look {
        r: u8,
        slot: u8,
    },
    Match {
        r: u8,
        kind: u8,
        slot: u8,
        a: u8,
        b: u8,
        yes: &'a [u8],
        no: &'a [u8],
    },
    Test {
        x: u8,
        y: u8,
        yes: &'a [u8],
        no: &'a [u8],
    },
    Done,
}

// What a record is, by the number that it opens with.
#[derive(Clone, Copy, PartialEq, Eq, Debug)]
pub enum Kind {
    Head,
    Make,
    Copy,
    Release,
    Rebuild,
    Set,
    Sum,
    Difference,
    Look,
    Match,
    Test,
    Done,
}

impl TryFrom<u16> for Kind {
    type Error = Flaw;

    ghost try_from_gives = { λ n r. Reads n r };

    fn try_from(number: u16) -> Result<Kind, Flaw> {
        match number {
            1 => Ok(Kind::Head),
            2 => Ok(Kind::Make),
            3 => Ok(Kind::Copy),
            4 => Ok(Kind::Release),
            5 => Ok(Kind::Rebuild),
            6 => Ok(Kind::Set),
            7 => Ok(Kind::Sum),
            8 => Ok(Kind::Difference),
            9 => Ok(Kind::Look),
            10 => Ok(Kind::Match),
            11 => Ok(Kind::Test),
            12 => Ok(Kind::Done),
            _ => Err(Flaw::Kind),
        }
    }
}

impl Record<'_> {
    // Nothing follows it in its block.
    pub fn closes(&self) -> bool
        ensures { result ≡ closes (shown self.now) }
    {
        matches!(
            self,
            Record::Match { .. } | Record::Test { .. } | Record::Done
        )
    }

    // The call that it makes, if it makes one; a new cell takes the value.
    pub fn call(&self, value: i32) -> Option<Call>
        ensures { result ≡ rec_call (shown self.now) value }
    {
        match *self {
            Record::Make { d, kind, a, b, .. } => Some(Call::Make {
                d,
                kind,
                value,
                a,
                b,
            }),
            Record::Copy { s, d } => Some(Call::Copy { s, d }),
            Record::Release { r } => Some(Call::Release { r }),
            Record::Rebuild { r, kind, a, b, .. } => Some(Call::Rebuild {
                r,
                kind,
                value,
                a,
                b,
            }),
            Record::Look { r, .. } => Some(Call::Look { r }),
            Record::Match { r, kind, a, b, .. } => Some(Call::Match { r, kind, a, b }),
            Record::Set { .. }
            | Record::Sum { .. }
            | Record::Difference { .. }
            | Record::Test { .. }
            | Record::Done => None,
        }
    }
}

// How a record opens: its kind, the bytes of its fields, and the bytes after it.
#[derive(Clone, Copy)]
pub struct Front<'a> {
    pub kind: u16,
    pub body: &'a [u8],
    pub rest: &'a [u8],
}

fn open(bytes: &[u8]) -> Result<Front<'_>, Flaw>
    ensures { shown_front result ≡ front bytes.now }
{
    let [l0, l1, k0, k1, after @ ..] = bytes else {
        return Err(Flaw::Cut);
    };
    let length = usize::from(u16::from_le_bytes([*l0, *l1]));
    if length < 4 || length > bytes.len() {
        return Err(Flaw::Cut);
    }
    let (body, rest) = after.split_at(length - 4);
    Ok(Front {
        kind: u16::from_le_bytes([*k0, *k1]),
        body,
        rest,
    })
}

// The yes arm, of so many bytes, and the no arm, of the rest; neither has under 4.
fn arms(length: u16, bytes: &[u8]) -> Result<(&[u8], &[u8]), Flaw>
    ensures { shown_arms result ≡ arms length bytes.now }
{
    let n = usize::from(length);
    if n < 4 || bytes.len() < n + 4 {
        return Err(Flaw::Length);
    }
    Ok(bytes.split_at(n))
}

fn fields(kind: Kind, body: &[u8]) -> Result<Record<'_>, Flaw>
    ensures { shown_fields result ≡ fields (kind_number kind) body.now }
{
    match (kind, body) {
        (Kind::Make, &[d, kind, slot, a, b]) => Ok(Record::Make {
            d,
            kind,
            slot,
            a,
            b,
        }),
        (Kind::Copy, &[s, d]) => Ok(Record::Copy { s, d }),
        (Kind::Release, &[r]) => Ok(Record::Release { r }),
        (Kind::Rebuild, &[r, kind, slot, a, b]) => Ok(Record::Rebuild {
            r,
            kind,
            slot,
            a,
            b,
        }),
        (Kind::Set, &[slot, v0, v1, v2, v3]) => Ok(Record::Set {
            slot,
            value: i32::from_le_bytes([v0, v1, v2, v3]),
        }),
        (Kind::Sum, &[to, x, y]) => Ok(Record::Sum { to, x, y }),
        (Kind::Difference, &[to, x, y]) => Ok(Record::Difference { to, x, y }),
        (Kind::Look, &[r, slot]) => Ok(Record::Look { r, slot }),
        (Kind::Match, [r, kind, slot, a, b, n0, n1, rest @ ..]) => {
            let (yes, no) = arms(u16::from_le_bytes([*n0, *n1]), rest)?;
            Ok(Record::Match {
                r: *r,
                kind: *kind,
                slot: *slot,
                a: *a,
                b: *b,
                yes,
                no,
            })
        }
        (Kind::Test, [x, y, n0, n1, rest @ ..]) => {
            let (yes, no) = arms(u16::from_le_bytes([*n0, *n1]), rest)?;
            Ok(Record::Test {
                x: *x,
                y: *y,
                yes,
                no,
            })
        }
        (Kind::Done, []) => Ok(Record::Done),
        (Kind::Head, _) => Err(Flaw::Kind),
        _ => Err(Flaw::Length),
    }
}

// The record at the front of a block's bytes, and the bytes after it.
pub fn read_record(bytes: &[u8]) -> Result<(Record<'_>, &[u8]), Flaw>
    ensures { shown_record_at result ≡ record_at bytes.now }
{
    let Front { kind, body, rest } = open(bytes)?;
    Ok((fields(Kind::try_from(kind)?, body)?, rest))
}

fn head_fields(kind: Kind, body: &[u8]) -> Result<Head, Flaw>
    ensures { shown_head result ≡ head_fields (kind_number kind) body.now }
{
    if kind != Kind::Head {
        return Err(Flaw::Kind);
    }
    let [i0, i1, o0, o1, w0, w1] = body else {
        return Err(Flaw::Length);
    };
    Ok(Head {
        enter: u16::from_le_bytes([*i0, *i1]),
        leave: u16::from_le_bytes([*o0, *o1]),
        own: u16::from_le_bytes([*w0, *w1]),
    })
}

// The head, which stands first, and the bytes of the block behind it.
pub fn read_head(bytes: &[u8]) -> Result<(Head, &[u8]), Flaw>
    ensures { shown_head_at result ≡ head_at bytes.now }
{
    let Front { kind, body, rest } = open(bytes)?;
    Ok((head_fields(Kind::try_from(kind)?, body)?, rest))
}
