// The shelf: eight places, each empty or holding a matrix. It goes in by value and comes back; what a place holds is read and put here.
#![tactic(auto)]

ghost use Rattle.std.specs.Prelude.{◌≡◌, ◌<◌, ◌*◌};
ghost use Rattle.std.proofs.lemmas.List.Edits.{sets};
ghost use Rattle.places.specs.Shelf.{rows_at, table_at, with_table, empty_shelf, Fits, Good};

use number::Number;

pub mod check; // check.rt: the test of a shelf that nothing vouches for
pub mod judge; // judge.rt: the tests of the calls

// Eight places of 64 numbers each, and the rows of the matrix at each, 0 where the place is empty.
#[repr(C)]
#[derive(Clone, Copy)]
pub struct Shelf {
    numbers: [Number; 512],
    sizes: [u8; 8],
}

// All places empty.
pub fn new() -> Shelf
    ensures value { result ≡ empty_shelf }
    ensures good { Good result }
{
    Shelf {
        numbers: [Number::zero(); 512],
        sizes: [0u8; 8],
    }
}

// The rows of the matrix at a place, 0 where it is empty or above 7.
pub fn rows_at(shelf: Shelf, place: usize) -> usize
    ensures { result ≡ rows_at shelf place }
{
    if place > 7 {
        return 0;
    }
    let sizes = shelf.sizes;
    sizes[place] as usize
}

// The 64 numbers of a place. Here and in `put` a loop by the index: `copy_from_slice` is `memmove`, which a firmware would have to supply, and
// `array::from_fn` takes the shelf by a reference, for which each call keeps one copy more on its stack.
pub fn table_at(shelf: Shelf, place: usize) -> [Number; 64]
    requires { place < 8 }
    ensures { result ≡ table_at shelf place }
{
    let mut t = [Number::zero(); 64];
    for k in 0..64usize {
        t[k] = shelf.numbers[place * 64 + k];
    }
    t
}

// Puts a table over the numbers of a place. Never in line: there the loop grows so long that the step which keeps a result is a call of its own, with a shelf
// copied once more in it.
#[inline(never)]
fn put(numbers: &mut [Number; 512], place: usize, t: &[Number; 64])
    requires { place < 8 }
    ensures { numbers.new ≡ sets numbers.old (place * 64) t.now }
{
    for k in 0..64usize {
        numbers[place * 64 + k] = t[k];
    }
}

// A table of n rows put at a place.
pub fn with_table(shelf: Shelf, place: usize, n: usize, t: [Number; 64]) -> Shelf
    requires { Good shelf × (place < 8) × Fits n t }
    ensures value { result ≡ with_table shelf place n t }
    ensures good { Good result }
{
    let mut left = shelf;
    put(&mut left.numbers, place, &t);
    left.sizes[place] = n as u8;
    left
}
