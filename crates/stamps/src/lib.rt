// Weights from time stamps: the factors of the matrix whose row i holds the powers of stamp i, and the test of the stamps.
#![tactic(auto)]

ghost use Rattle.std.specs.Prelude.{◌≡◌, false, ◌+◌, ◌≤◌, ◌<◌, length};
ghost use Rattle.number.specs.Number.{rounded};
ghost use Rattle.powers.specs.Stamps.{product_from};
ghost use Rattle.table.specs.Table.{cell_at, table_of};
ghost use Rattle.stamps.specs.Stamps.{mistimed, built_factors, less_number, Timed};

use number::{Direction, Number};
use std::array;

// Stamps that are turned down: one is zero, is 2^32 or more, or does not exceed the one before it, or their count is not 1 to 8.
pub fn mistimed(stamps: &[u64]) -> bool
    ensures { result ≡ mistimed stamps.now }
{
    if stamps.is_empty() || 8 < stamps.len() {
        return true;
    }
    let mut before = 0;
    for &stamp in stamps {
        let not_above = stamp <= before;
        let too_large = 0x1_0000_0000 <= stamp;
        if not_above || too_large {
            return true;
        }
        before = stamp;
    }
    false
}

// Stamps that are not turned down, counted from 1.
#[derive(Clone, Copy)]
struct Stamps<'a> {
    stamps: &'a [u64],
    ghost timed: { Timed stamps.now },
}

impl<'a> Stamps<'a> {
    // Stamp i less stamp k, which comes before it.
    fn less(&self, i: usize, k: usize) -> Number
        requires { (1 ≤ k) × (k < i) × (i ≤ length self.now.stamps.now) }
        ensures { result ≡ less_number self.now.stamps.now i k }
    {
        Number::natural(self.stamps[i - 1] - self.stamps[k - 1])
    }

    // The differences of stamp i and of `count` stamps, the first of which has the number `from`, multiplied in ascending order; 1 where there are none.
    fn product(&self, i: usize, from: usize, count: usize) -> Number
        requires { (1 ≤ from) × (from + count ≤ i) × (i ≤ length self.now.stamps.now) }
        ensures { result ≡ product_from rounded from count (less_number self.now.stamps.now i) }
    {
        let mut p = Number::one();
        for k in 0..count {
            p = p.mul(self.less(i, from + k), Direction::Nearest);
        }
        p
    }

    // The factor of row i and column j.
    fn factor(&self, i: usize, j: usize) -> Number
        requires { (1 ≤ i) × (i ≤ length self.now.stamps.now) × (1 ≤ j) × (j ≤ length self.now.stamps.now) }
        ensures { result ≡ built_factors self.now.stamps.now i j }
    {
        if i < j {
            return Number::natural(self.stamps[i - 1]);
        }
        if i == j {
            return self.product(i, 1, i - 1);
        }
        let above = self.product(i, i - j + 1, j - 1);
        let below = self.product(i - 1, i - j, j - 1);
        above.div(below, Direction::Nearest)
    }

    // What stands at k in the table of the matrix.
    fn cell(&self, k: usize) -> Number
        ensures { result ≡ cell_at (length self.now.stamps.now) (built_factors self.now.stamps.now) k }
    {
        let n = self.stamps.len();
        let i = k / 8;
        let j = k % 8;
        if i < n && j < n {
            self.factor(i + 1, j + 1)
        } else {
            Number::zero()
        }
    }
}

// The table of the matrix.
pub fn table(stamps: &[u64]) -> [Number; 64]
    requires { mistimed stamps.now ≡ false }
    ensures { result ≡ table_of (length stamps.now) (built_factors stamps.now) }
{
    let stamps = Stamps { stamps };
    array::from_fn(|k| stamps.cell(k))
}
