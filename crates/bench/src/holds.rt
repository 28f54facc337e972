ghost use Rattle.std.specs.Prelude.{◌≡◌, ◌<◌, true, is_some, if◌then◌else◌, Some, None, nat_eq, slice_set};
ghost use Rattle.store.specs.Interface.{on, asked_for};
ghost use Rattle.store.specs.Rooted.{root_at};
ghost use Rattle.bench.specs.Handing.{Back, put, Settable, put_links, LinksPassed, Taken};
ghost use Rattle.bench.specs.Machine.{spend, spent, taken};
ghost use Rattle.bench.specs.Step.{linked, link_roots};

use crate::tests::link;
use store::content::Content;
use store::hold::{Hold, Links};
use store::roots::Roots;

// The cell that a root in use names.
#[inline(always)]
pub fn cell(roots: &Roots, r: u8) -> u16
    requires { is_some (root_at roots.now.slots r) ≡ true }
    ensures { Some result ≡ root_at roots.now.slots r }
{
    let Some(cell) = roots.number(r) else {
        unreachable()
    };
    cell
}

// Takes the hold out of a root in use.
#[inline(always)]
pub fn take(roots: &mut Roots, r: u8) -> Hold
    requires { is_some (root_at roots.old.slots r) ≡ true }
    ensures given { Some result.cell ≡ root_at roots.old.slots r }
    ensures emptied { roots.new.slots ≡ spend roots.old.slots r }
{
    let Some(hold) = roots.empty(r) else {
        unreachable()
    };
    hold
}

// Takes the hold out of a link's root; none where the field is 255.
#[inline(always)]
fn take_link(roots: &mut Roots, a: u8) -> Option<Hold>
    ensures emptied { roots.new.slots ≡ spent roots.old.slots (linked a) }
    ensures given { on result ≡ (if nat_eq a 255 then None else root_at roots.old.slots a) }
{
    roots.empty(link(a)?)
}

// What a new cell is to hold, with the holds for its links, which are taken out of their roots.
#[inline(always)]
pub fn take_content(roots: &mut Roots, kind: u8, value: i32, a: u8, b: u8) -> Content
    requires { LinksPassed roots.old.slots kind a b }
    ensures asked { asked_for result.kind result.value result.links ≡ record { kind = kind; value = value; links = taken roots.old.slots (link_roots a b) } }
    ensures taken { Taken roots.old.slots roots.new.slots a b result.links }
{
    let first = take_link(roots, a);
    let second = take_link(roots, b);
    Content {
        kind,
        value,
        links: Links { first, second },
    }
}

// Sets a hold in a root that is known to be empty.
#[inline(always)]
pub fn fill(roots: &mut Roots, r: u8, hold: Hold)
    requires root { r < 16 }
    requires empty { root_at roots.old.slots r ≡ None }
    ensures { roots.new.slots ≡ slice_set roots.old.slots r (Some hold.cell) }
{
    match roots.set(r, hold) {
        Ok(()) => {}
        Err(_) => unreachable(),
    }
}

#[inline(always)]
fn fill_some(roots: &mut Roots, a: u8, hold: Option<Hold>)
    requires { Back roots.old.slots a (on hold) }
    ensures { roots.new.slots ≡ put roots.old.slots a (on hold) }
{
    if let Some(hold) = hold {
        fill(roots, a, hold);
    }
}

// Sets the holds for links in their roots.
#[inline(always)]
pub fn fill_links(roots: &mut Roots, a: u8, b: u8, links: Links)
    requires { Settable roots.old.slots a b links }
    ensures { roots.new.slots ≡ put_links roots.old.slots a b links }
{
    let Links { first, second } = links;
    fill_some(roots, a, first);
    fill_some(roots, b, second);
}
