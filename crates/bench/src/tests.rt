ghost use Rattle.std.specs.Prelude.{◌≡◌, map, Ok, Option, Result, option_and_then, slice_set};
ghost use Rattle.bench.specs.Tests.{unnamed, first, fits_kind, link_fault, link, touch_denied, touched, first_denied, after_touches, touch_fault, fault_of, verdict, in_use};

use crate::call::Touch::{Fill, Spend, Use};
use crate::call::{Call, Field, Touch};
use crate::fault::{BenchFault, NoSuchRoot, TouchFault};
use store::cell::links_of_kind;

// The tests of a call, in their order: the root fields, the links against the kind, then the roots in use.
#[inline(always)]
pub fn test(call: &Call, used: &[bool; 16]) -> Result<(), BenchFault>
    ensures { result ≡ verdict (fault_of call.now used.now) }
{
    test_each(&call.fields(), test_field)?;
    test_links(call)?;
    test_roots(used, &call.touches())
}

// The first of the items that are there that fails the test.
#[inline(always)]
pub fn test_each<T: Copy, E, F: Fn(T) -> Result<(), E>>(
    items: &[Option<T>],
    test: F,
) -> Result<(), E>
    requires { F.IsAlwaysCallable test }
    ensures { (f : T → Option E) → ((x : T) (r : Result (Unit {0}) E) → F.post test x r → r ≡ verdict (f x)) → result ≡ verdict (first (map (option_and_then f) items.now)) }
{
    'each: for item in items {
        if let Some(item) = *item {
            test(item)?;
        }
    }
    Ok(())
}

// A field that names no root.
#[inline(always)]
pub fn test_field(field: Field) -> Result<(), NoSuchRoot>
    ensures { result ≡ verdict (unnamed field) }
{
    match field {
        Field::Root(r) if r >= 16 => Err(NoSuchRoot(r)),
        Field::Link(r) if r >= 16 && r != 255 => Err(NoSuchRoot(r)),
        _ => Ok(()),
    }
}

#[inline(always)]
fn test_links(call: &Call) -> Result<(), BenchFault>
    ensures { result ≡ verdict (link_fault call.now) }
{
    if call.links_fit() {
        Ok(())
    } else {
        Err(BenchFault::LinksUnfit)
    }
}

// A link's root is 255 exactly where the kind lacks the link.
#[inline(always)]
pub fn fits_kind(kind: u8, a: u8, b: u8) -> bool
    ensures { result ≡ fits_kind kind a b }
{
    let n = links_of_kind(kind);
    (n >= 1) == link(a).is_some() && (n >= 2) == link(b).is_some()
}

// The first root that is empty where it is used, or in use where it is filled.
#[inline(always)]
fn test_roots(used: &[bool; 16], touches: &[Option<Touch>]) -> Result<(), BenchFault>
    ensures { result ≡ verdict (touch_fault touches.now used.now) }
{
    let mut used = *used;
    test_touches(&mut used, touches)?;
    Ok(())
}

// What the touches leave in use, one after another, unless one is refused.
#[inline(always)]
pub fn test_touches(used: &mut [bool; 16], touches: &[Option<Touch>]) -> Result<(), TouchFault>
    ensures told { result ≡ verdict (first_denied touches.now used.old) }
    ensures after { result ≡ Ok tt → used.new ≡ after_touches touches.now used.old }
{
    'each: for touch in touches {
        if let Some(touch) = *touch {
            test_touch(used, touch)?;
        }
    }
    Ok(())
}

// What the touch leaves in use, unless it is refused.
#[inline(always)]
pub fn test_touch(used: &mut [bool; 16], touch: Touch) -> Result<(), TouchFault>
    ensures told { result ≡ verdict (touch_denied touch used.old) }
    ensures after { result ≡ Ok tt → used.new ≡ touched touch used.old }
{
    match touch {
        Use(r) | Spend(r) if !in_use(used, r) => Err(TouchFault::Empty(r)),
        Fill(r) if in_use(used, r) => Err(TouchFault::InUse(r)),
        Use(_) => Ok(()),
        Spend(r) => {
            put(used, r, false);
            Ok(())
        }
        Fill(r) => {
            put(used, r, true);
            Ok(())
        }
    }
}

// Nothing where there is no such root.
#[inline(always)]
pub fn put(used: &mut [bool; 16], r: u8, flag: bool)
    ensures { used.new ≡ slice_set used.old r flag }
{
    if r < 16 {
        used[usize::from(r)] = flag;
    }
}

#[inline(always)]
pub fn in_use(used: &[bool; 16], r: u8) -> bool
    ensures { result ≡ in_use used.now r }
{
    used.get(usize::from(r)).copied().unwrap_or(false)
}

// The root that a link's field names; none where it is 255.
#[inline(always)]
pub fn link(a: u8) -> Option<u8>
    ensures { result ≡ link a }
{
    (a != 255).then_some(a)
}
