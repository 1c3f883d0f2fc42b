// Row sets as masks of eight bits, bit 0 for row 1, by shifts and masks.
#![tactic(auto)]

pub mod lent; // lent.rt: the tables, held once by a caller and lent
pub mod sets; // sets.rt: how many sets of k rows there are, and sets put apart for two rows
mod set_table; // set_table.rt: the sets of k rows, one after the other, and their counts
mod table; // table.rt: positions

ghost use Rattle.std.specs.Prelude.{◌≡◌, ◌<◌, ◌≤◌};
ghost use Rattle.rowset.specs.Mask.{mask_has, mask_beyond, mask_replaced, mask_count, mask_run, mask_among, mask_with_first};

// A byte as a number: a caller's mask, an entry of the table.
pub fn wide(x: u8) -> usize
    ensures value { result ≡ x }
    ensures upper_bound { result < 256 }
{
    usize::from(x)
}

// Row i is in s.
pub fn has(s: usize, i: usize) -> bool
    requires { (1 ≤ i) × (i ≤ 8) }
    ensures { result ≡ mask_has i s }
{
    (s >> (i - 1)) & 1 == 1
}

// s has a row beyond the first n.
pub fn beyond(s: usize, n: usize) -> bool
    requires { n ≤ 8 }
    ensures { result ≡ mask_beyond n s }
{
    s >> n != 0
}

// s with row o in place of row a.
pub fn replaced(s: usize, a: usize, o: usize) -> usize
    requires { (s < 256) × (1 ≤ a) × (a ≤ 8) × (1 ≤ o) × (o ≤ 8) }
    ensures value { result ≡ mask_replaced a o s }
    ensures upper_bound { result < 256 }
{
    let out = 1 << (a - 1);
    ((s | out) ^ out) | (1 << (o - 1))
}

// How many rows s has.
pub fn count(s: usize) -> usize
    requires { s < 256 }
    ensures value { result ≡ mask_count s }
    ensures upper_bound { result ≤ 8 }
{
    s.count_ones() as usize
}

// The consecutive rows a .. b, none if b < a.
pub fn run(a: usize, b: usize) -> usize
    requires { (1 ≤ a) × (b ≤ 8) }
    ensures value { result ≡ mask_run a b }
    ensures upper_bound { result < 256 }
{
    if b < a { 0 } else { (1 << b) - (1 << (a - 1)) }
}

// s, a set that counts among the chosen rows p, as a set of all rows.
pub fn among(p: usize, s: usize) -> usize
    ensures value { result ≡ mask_among p s }
    ensures upper_bound { result < 256 }
{
    let mut r = 0;
    // k chosen rows are below row i + 1. Counted by hand: numbering them by `filter` and `enumerate` is no plainer, and k < 64 is to be shown.
    let mut k: usize = 0;
    for i in 0..8usize {
        if (p >> i) & 1 == 1 {
            r |= ((s >> k) & 1) << i;
            k += 1;
        }
    }
    r
}

// The rows 1 .. k joined to s, whose own rows then count from k + 1.
pub fn with_first(s: usize, k: usize) -> usize
    requires { (s < 256) × (k ≤ 8) }
    ensures { result ≡ mask_with_first k s }
{
    run(1, k) | (s << k)
}
