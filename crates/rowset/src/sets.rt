// How many sets of k rows there are of n rows, and a set of the other rows put apart for two rows.
ghost use Rattle.std.specs.Prelude.{◌≡◌, ◌^◌, ◌≤◌, ◌<◌};
ghost use Rattle.rowset.specs.Mask.{count_below};
ghost use Rattle.rowset.specs.Sets.{parted_of};

use crate::set_table::SETS_OF;
use crate::wide;

// How many sets of k rows there are of n rows.
pub fn sets_of(n: usize, k: usize) -> usize
    requires { (n ≤ 8) × (k ≤ 8) }
    ensures value { result ≡ count_below k (2 ^ n) }
    ensures upper_bound { result ≤ 70 }
{
    wide(SETS_OF[n * 9 + k])
}

// m with the places of the rows l and l + 1 put in, both free.
pub fn parted(m: usize, l: usize) -> usize
    requires { (m < 64) × (1 ≤ l) × (l ≤ 8) }
    ensures { result ≡ parted_of l m }
{
    m + 3 * ((m >> (l - 1)) << (l - 1))
}
