ghost use Rattle.std.specs.Prelude.{◌≡◌};
ghost use Rattle.rule.specs.Check.{marked, either, differing};

use std::array;

// Which of the sixteen roots a number marks, by bit r for root r.
pub fn marked(mask: u16) -> [bool; 16]
    ensures { result ≡ marked mask }
{
    array::from_fn(|r| mask >> r & 1 == 1)
}

// Marked in one or the other.
pub fn either(a: &[bool; 16], b: &[bool; 16]) -> [bool; 16]
    ensures { result ≡ either a.now b.now }
{
    array::from_fn(|r| a[r] | b[r])
}

// The lowest root at which the two differ.
pub fn lowest_differing(a: &[bool; 16], b: &[bool; 16]) -> Option<u8>
    ensures { result ≡ differing 0 a.now b.now }
{
    let lowest = a.iter().zip(b.iter()).position(|(x, y)| x != y);
    lowest.map(|r| r as u8)
}
