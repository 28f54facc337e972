ghost use Rattle.std.specs.Prelude.{◌≡◌, ℕ, ◌+◌, ◌≤◌, ◌↔◌, length, IfOk, Ok, Err};
ghost use Rattle.rule.specs.Sheet.{Fork};
ghost use Rattle.rule.specs.Read.{branch, before_arms, fork, tree};
ghost use Rattle.rule.specs.Check.{block_answer, headed, answer};
ghost use Rattle.rule.specs.Allowed.{Allowed};
ghost use Rattle.rule.specs.Shown.{shown, head_of};
ghost use Rattle.rule.specs.Claimed.{claims_of};

use crate::fault::{Flaw, RuleFault, Spot};
use crate::flags::{either, lowest_differing, marked};
use crate::record::{Head, Record, read_head, read_record};
use crate::tests::test_record;

// The most bytes and the most records of a rule, and how many matches and tests may stand around another.
pub const MOST_BYTES: usize = 4096;

const MOST_RECORDS: u16 = 1024;

const DEEPEST: u8 = 16;

// Which roots a rule owns, and which are in use when it ends.
#[derive(Clone, Copy)]
pub struct Claims {
    pub own: [bool; 16],
    pub out: [bool; 16],
}

// Where the check stands: at a place of the rule, behind so many records, inside so many matches and tests, on a path
// that comes with the used roots.
#[derive(Clone, Copy)]
struct Path {
    place: u16,
    seen: u16,
    depth: u8,
    used: [bool; 16],
}

// The arms of a match or test, and how many bytes of it stand before them.
#[derive(Clone, Copy)]
struct Arms<'a> {
    before: u16,
    yes: &'a [u8],
    no: &'a [u8],
}

// Checks a block on a path. Answers how many records there are up to its end.
#[cycle(check_block_check_fork)]
fn check_block(claims: &Claims, bytes: &[u8], path: Path) -> Result<u16, Spot>
    requires small { path.place + length bytes.now ≤ 4096 }
    requires few { path.seen ≤ 1024 }
    requires shallow { path.depth ≤ 16 }
    ensures told { result ≡ block_answer (claims_of claims.now) (tree path.place bytes.now) path.seen path.depth path.used }
    ensures few { IfOk result (λ n. n ≤ 1024) }
{
    let mut rest = bytes;
    let mut path = path;
    'records: loop {
        if path.seen >= MOST_RECORDS {
            return Err(Flaw::TooMany.at(path.place));
        }
        let (rec, after) = read_record(rest).map_err(|flaw| flaw.at(path.place))?;
        if rec.closes() && !after.is_empty() {
            return Err(Flaw::Trailing.at(path.place));
        }
        match rec {
            Record::Match { yes, no, .. } => {
                let before = 11;
                return check_fork(claims, &rec, Arms { before, yes, no }, path);
            }
            Record::Test { yes, no, .. } => {
                let before = 8;
                return check_fork(claims, &rec, Arms { before, yes, no }, path);
            }
            Record::Done => {
                return match lowest_differing(&path.used, &claims.out) {
                    Some(r) => Err(Flaw::NotAsDeclared(r).at(path.place)),
                    None => Ok(path.seen + 1),
                };
            }
            _ => {
                test_record(&claims.own, &rec, &mut path.used).map_err(|flaw| flaw.at(path.place))?;
                path.place += (rest.len() - after.len()) as u16;
                path.seen += 1;
                rest = after;
            }
        }
    }
}

// Checks a match or test on a path: its own tests, then the yes arm, then the no arm.
#[cycle(check_block_check_fork)]
fn check_fork(claims: &Claims, rec: &Record<'_>, arms: Arms<'_>, path: Path) -> Result<u16, Spot>
    requires small { path.place + arms.before + length arms.yes.now + length arms.no.now ≤ 4096 }
    requires few { path.seen + 1 ≤ 1024 }
    requires shallow { path.depth ≤ 16 }
    ensures told { (f : Fork) → shown rec.now ≡ branch f arms.entry.yes.now arms.entry.no.now → arms.entry.before ≡ before_arms f → result ≡ block_answer (claims_of claims.now) (fork path.place f (tree (path.place + before_arms f) arms.entry.yes.now) (tree (path.place + before_arms f + length arms.entry.yes.now) arms.entry.no.now)) path.seen path.depth path.used }
    ensures few { IfOk result (λ n. n ≤ 1024) }
{
    if path.depth >= DEEPEST {
        return Err(Flaw::TooDeep.at(path.place));
    }
    let mut yes = Path {
        place: path.place + arms.before,
        seen: path.seen + 1,
        depth: path.depth + 1,
        ..path
    };
    test_record(&claims.own, rec, &mut yes.used).map_err(|flaw| flaw.at(path.place))?;
    let seen = check_block(claims, arms.yes, yes)?;
    let no = Path {
        place: yes.place + arms.yes.len() as u16,
        seen,
        depth: yes.depth,
        ..path
    };
    check_block(claims, arms.no, no)
}

// Tests a head, then the block behind it.
fn check_headed(head: &Head, rest: &[u8]) -> Result<u16, Spot>
    requires small { 10 + length rest.now ≤ 4096 }
    ensures { result ≡ headed (head_of head.now) rest.now }
{
    let own = marked(head.own);
    let out = marked(head.leave);
    let used = marked(head.enter);
    match lowest_differing(&either(&either(&used, &out), &own), &own) {
        Some(r) => Err(Flaw::NotOwned(r).at(0)),
        None => {
            let path = Path {
                place: 10,
                seen: 1,
                depth: 0,
                used,
            };
            check_block(&Claims { own, out }, rest, path)
        }
    }
}

// How many records a rule has, its head counted; or the first of its tests that fails.
pub fn check(bytes: &[u8]) -> Result<u16, RuleFault>
    ensures told { result ≡ answer bytes.now }
    ensures allowed { (n : ℕ) → (result ≡ Ok n) ↔ Allowed bytes.now n }
{
    if bytes.len() > MOST_BYTES {
        return Err(RuleFault::TooLong);
    }
    let (head, rest) = read_head(bytes).map_err(|flaw| flaw.at(0))?;
    Ok(check_headed(&head, rest)?)
}
