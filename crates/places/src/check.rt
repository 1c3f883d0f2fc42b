// Whether a shelf may be one that the calls made: for callers whose shelf nothing vouches for.
ghost use Rattle.std.specs.Prelude.{◌≡◌, true, ◌≤◌, eqb};
ghost use Rattle.places.specs.Shelf.{Good};
ghost use Rattle.places.specs.Check.{is_stored, is_zero, back, continues, sound, is_good};

use crate::Shelf;
use number::{BIAS, Number};

// A mantissa of 32 bits, and an exponent from -1000 to 1000.
fn stored(a: Number) -> bool
    ensures { result ≡ is_stored a }
{
    (0x8000_0000..0x1_0000_0000).contains(&a.m) && a.in_range()
}

// 0 where a number is zero, which has mantissa 0 at exponent 0.
fn fault(a: Number) -> u64
    ensures { eqb result 0 ≡ is_zero a }
{
    a.m | a.x ^ BIAS
}

fn zero(a: Number) -> bool
    ensures { result ≡ is_zero a }
{
    fault(a) == 0
}

// How far before k in a table the factor before it in its line stands.
fn back(k: usize) -> usize
    ensures value { result ≡ back k }
    ensures upper_bound { result ≤ k }
{
    if k % 8 < k / 8 {
        return 8;
    }
    if k / 8 < k % 8 {
        return 1;
    }
    0
}

// What may stand behind a number in a line: zero, and a stored number where that is not zero.
#[tactic(auto, unfolding(crate::specs::Check::continues))]
fn continues(before: Number, a: Number) -> bool
    ensures { result ≡ continues before a }
{
    zero(a) || (!zero(before) && stored(a))
}

// What may stand at k in the table of a matrix of n rows, behind a number in its line.
#[tactic(auto, unfolding(crate::specs::Check::sound))]
fn sound(n: usize, k: usize, before: Number, a: Number) -> bool
    ensures { result ≡ sound n k before a }
{
    let row = k / 8;
    let column = k % 8;
    if n <= row || n <= column {
        zero(a)
    } else if row == column {
        stored(a)
    } else {
        continues(before, a)
    }
}

// A good shelf: at most eight rows at each place, accepted factors in them, and zeros elsewhere. The numbers behind the rows are tested at once.
pub fn is_good(shelf: Shelf) -> bool
    ensures value { result ≡ is_good shelf }
    ensures good { result ≡ true → Good shelf }
{
    let sizes = shelf.sizes;
    // Loops by the index, which is meant: what a number may be is told by its place.
    for p in 0..8usize {
        let n = sizes[p] as usize;
        if 8 < n {
            return false;
        }
        for k in 0..n * 8 {
            let at = p * 64 + k;
            let before = shelf.numbers[at - back(k)];
            let a = shelf.numbers[at];
            if !sound(n, k, before, a) {
                return false;
            }
        }
        let mut faults = 0u64;
        for k in n * 8..64 {
            let a = shelf.numbers[p * 64 + k];
            faults = faults | fault(a);
        }
        if faults != 0 {
            return false;
        }
    }
    true
}
