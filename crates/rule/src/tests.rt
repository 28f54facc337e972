ghost use Rattle.std.specs.Prelude.{◌≡◌, map, Some, Ok};
ghost use Rattle.bench.specs.Tests.{after_touches, quad, verdict, first};
ghost use Rattle.rule.specs.declared.fault.Flaw.TheVariants.{LinksUnfit};
ghost use Rattle.rule.specs.Shown.{shown};
ghost use Rattle.rule.specs.Check.{mark_flaw, own_flaw, unless};
ghost use Rattle.rule.specs.Judged.{rec_marks, rec_links, rec_touches, rec_flaws};

use crate::fault::Flaw;
use crate::mark::Mark;
use crate::mark::Mark::{Link, Root, Slot};
use crate::record::Record;
use bench::call::{Field, Touch};
use bench::tests::{in_use, test_each, test_field, test_touches};

// The roots, links and slots that a record names, from left to right.
pub fn marks(rec: &Record<'_>) -> [Option<Mark>; 4]
    ensures { result ≡ quad (map Some (rec_marks (shown rec.now))) }
{
    match *rec {
        Record::Make {
            d: r,
            slot,
            a,
            b,
            ..
        }
        | Record::Rebuild { r, slot, a, b, .. }
        | Record::Match { r, slot, a, b, .. } => {
            [
                Some(Root(r)),
                Some(Slot(slot)),
                Some(Link(a)),
                Some(Link(b)),
            ]
        }
        Record::Copy { s, d } => [Some(Root(s)), Some(Root(d)), None, None],
        Record::Release { r } => [Some(Root(r)), None, None, None],
        Record::Set { slot, .. } => [Some(Slot(slot)), None, None, None],
        Record::Sum { to, x, y } | Record::Difference { to, x, y } => {
            [Some(Slot(to)), Some(Slot(x)), Some(Slot(y)), None]
        }
        Record::Look { r, slot } => [Some(Root(r)), Some(Slot(slot)), None, None],
        Record::Test { x, y, .. } => [Some(Slot(x)), Some(Slot(y)), None, None],
        Record::Done => [None; 4],
    }
}

// What a record does to roots, in the order of spending and filling; a match as it does when it says yes.
pub fn touches(rec: &Record<'_>) -> [Option<Touch>; 4]
    ensures { result ≡ quad (rec_touches (shown rec.now)) }
{
    match rec.call(0) {
        Some(call) => call.touches(),
        None => [None; 4],
    }
}

// Whether the roots for links fit the kind.
pub fn links_fit(rec: &Record<'_>) -> bool
    ensures { result ≡ rec_links (shown rec.now) }
{
    rec.call(0).is_none_or(|call| call.links_fit())
}

// A field that names no root or no slot.
fn test_mark(mark: Mark) -> Result<(), Flaw>
    ensures { result ≡ verdict (mark_flaw mark) }
{
    match mark {
        Root(r) => Ok(test_field(Field::Root(r))?),
        Link(r) => Ok(test_field(Field::Link(r))?),
        Slot(s) if s >= 8 => Err(Flaw::NoSuchSlot),
        Slot(_) => Ok(()),
    }
}

// A root that is not owned.
fn test_own(own: &[bool; 16], mark: Mark) -> Result<(), Flaw>
    ensures { result ≡ verdict (own_flaw own.now mark) }
{
    match mark {
        Root(r) if !in_use(own, r) => Err(Flaw::NotOwned(r)),
        Link(r) if !in_use(own, r) && r != 255 => Err(Flaw::NotOwned(r)),
        _ => Ok(()),
    }
}

fn test_links(rec: &Record<'_>) -> Result<(), Flaw>
    ensures { result ≡ verdict (unless (rec_links (shown rec.now)) LinksUnfit) }
{
    if links_fit(rec) {
        Ok(())
    } else {
        Err(Flaw::LinksUnfit)
    }
}

// The tests of a record that can be read: its fields, its links, the roots that it owns, then its way with the roots.
pub fn test_record(own: &[bool; 16], rec: &Record<'_>, used: &mut [bool; 16]) -> Result<(), Flaw>
    ensures told { result ≡ verdict (first (rec_flaws own.now (shown rec.now) used.old)) }
    ensures after { result ≡ Ok tt → used.new ≡ after_touches (rec_touches (shown rec.now)) used.old }
{
    let marks = marks(rec);
    test_each(&marks, test_mark)?;
    test_links(rec)?;
    test_each(&marks, |mark| test_own(own, mark))?;
    test_touches(used, &touches(rec))?;
    Ok(())
}
