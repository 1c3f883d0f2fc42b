// A table of the sets, their positions, and the sets that letters change: a caller makes it once and lends it.
ghost use Rattle.std.specs.Prelude.{◌≡◌, ℕ, ◌+◌, ◌-◌, ◌*◌, ◌^◌, ◌≤◌, ◌<◌, get_or};
ghost use Rattle.rowset.specs.Mask.{position_of, count_below};
ghost use Rattle.rowset.specs.Sets.{Neighbours, SetAt, changed_of, begin_of, block_of, Listed, Placed, Paired, Tables};
ghost use Rattle.rowset.specs.Blocks.{Filled};

use crate::set_table::{FIRST, SETS};
use crate::table::POSITION;
use crate::{replaced, sets, wide};

// The sets and their positions, as they stand in the constants: one computed comparison proves each.
fn all_sets() -> [u8; 256]
    ensures { Listed result }
{
    SETS
}

fn positions() -> [u8; 256]
    ensures { (s : ℕ) → s < 256 → get_or result s 0 ≡ position_of s }
{
    POSITION
}

// The two one after the other, and no block filled.
fn joined(sets: &[u8; 256], positions: &[u8; 256]) -> [u8; 1408]
    requires { Listed sets.now × ((s : ℕ) → s < 256 → get_or positions.now s 0 ≡ position_of s) }
    ensures { Listed result × Placed result }
{
    let mut t = [0; 1408];
    t[..256].copy_from_slice(sets);
    t[256..512].copy_from_slice(positions);
    t
}

// Which block the sets with row a and without its neighbour o have.
fn block(a: usize, o: usize) -> usize
    requires { (1 ≤ a) × (a ≤ 8) }
    ensures { result ≡ block_of a o }
{
    if a < o { a - 1 } else { a + 5 }
}

// Fills the two blocks of the rows l and l + 1; those of smaller l are filled.
fn fill(t: &mut [u8; 1408], n: usize, l: usize)
    requires { (n ≤ 8) × (1 ≤ l) × (l < n) × Filled n (l * 64) t.old }
    ensures { Filled n (l * 64 + 64) t.new }
{
    let up = 512 + block(l, l + 1) * 64;
    let down = 512 + block(l + 1, l) * 64;
    for m in 0..1 << (n - 2) {
        let s = sets::parted(m, l) + (1 << (l - 1));
        t[up + m] = t[256 + s];
        t[down + m] = t[256 + replaced(s, l, l + 1)];
    }
}

// The tables for n rows.
pub fn tables(n: usize) -> [u8; 1408]
    requires { n ≤ 8 }
    ensures { Tables n result }
{
    let mut t = joined(&all_sets(), &positions());
    for l in 1..n {
        fill(&mut t, n, l);
    }
    t
}

// The position of s among the masks with equally many rows.
pub fn position_in(t: &[u8; 1408], s: usize) -> usize
    requires { (s < 256) × Placed t.now }
    ensures value { result ≡ position_of s }
    ensures upper_bound { result < 70 }
{
    wide(t[256 + s])
}

// Where the sets of k rows begin.
pub fn begin(k: usize) -> usize
    requires { k ≤ 8 }
    ensures { result ≡ begin_of k }
{
    wide(FIRST[k])
}

// The set of k rows at position p, where those of k rows begin at b.
pub fn set_in(t: &[u8; 1408], b: usize, k: usize, p: usize) -> usize
    requires { (k ≤ 8) × (p < count_below k 256) × (b ≡ begin_of k) × Listed t.now }
    ensures { SetAt k p result }
{
    wide(t[b + p])
}

// The position of the set with row a, without its neighbour o, and with the other rows m, of n rows.
pub fn changed_in(t: &[u8; 1408], n: usize, a: usize, o: usize, m: usize) -> usize
    requires { (n ≤ 8) × Neighbours n a o × (m < 2 ^ (n - 2)) × Paired n t.now }
    ensures value { result ≡ position_of (changed_of a o m) }
    ensures upper_bound { result < 70 }
{
    wide(t[512 + block(a, o) * 64 + m])
}
