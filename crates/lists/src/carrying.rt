// Carrying items through the word of a matrix, letter by letter from right to left. Rows and items count from 1.
ghost use Rattle.std.specs.Prelude.{◌≡◌, [], ◌∷◌, ◌+◌, ◌-◌, ◌*◌, ◌≤◌, ◌<◌, take, set};
ghost use Rattle.number.specs.Number.{Ranged, reach};
ghost use Rattle.number.specs.Signed.{plain, signed_sum, signed_product, SignedRanged};
ghost use Rattle.words.specs.Sources.{Each};
ghost use Rattle.table.specs.Table.{factors_of};
ghost use Rattle.walk.specs.Letters.{middle};
ghost use Rattle.items.specs.Items.{vector_of, ItemsRanged};
ghost use Rattle.lists.specs.Lists.{carried_list};
ghost use Rattle.lists.specs.Carrying.{Carries, Scaled, letter_of, working_reach};

use number::Number;
use number::signed::Signed;
use walk::{Way, letters};

// Item `to` gets w times item `from` added: E_j(w) with to = j and from = j - 1, Et_j(w) with to = j - 1 and from = j.
fn add(v: &mut [Signed; 8], to: usize, from: usize, w: Number)
    requires le_to { (1 ≤ to) × (to ≤ 8) × (1 ≤ from) × (from ≤ 8) }
    requires signed_ranged { SignedRanged working_reach (vector_of v.old to) × SignedRanged working_reach (vector_of v.old from) × Ranged 1000 w }
    ensures { v.new ≡ set v.old (to - 1) (signed_sum (vector_of v.old to) (signed_product (vector_of v.old from) (plain w))) }
{
    v[to - 1] = v[to - 1].add(v[from - 1].times(w));
}

// D: each item times its entry.
fn scale(v: &mut [Signed; 8], b: [Number; 64], n: usize)
    requires n_bound { n ≤ 8 }
    requires items_ranged { ItemsRanged working_reach n v.old × Each (Ranged 1000) n (factors_of b) }
    ensures { Scaled n (factors_of b) v.old v.new }
{
    for k in 0..n {
        v[k] = v[k].times(b[k * 9]);
    }
}

// Letter t of the word.
fn letter(v: &mut [Signed; 8], b: [Number; 64], n: usize, t: usize)
    requires le_n { (1 ≤ n) × (n ≤ 8) × (t < 2 * middle n + 1) }
    requires items_ranged { ItemsRanged working_reach n v.old × Each (Ranged 1000) n (factors_of b) }
    ensures { Carries n (letter_of n (factors_of b) t ∷ []) v.old v.new }
{
    if t == letters::middle(n) {
        scale(v, b, n);
    } else {
        let l = letters::move_at(n, Way::Plain, t);
        add(v, l.to, l.from, b[l.at]);
    }
}

// The whole word.
pub fn through(v: [Signed; 8], b: [Number; 64], n: usize) -> [Signed; 8]
    requires { (1 ≤ n) × (n ≤ 8) × ItemsRanged 1000 n v × Each (Ranged 1000) n (factors_of b) }
    ensures result_value { take n result ≡ carried_list n (factors_of b) (take n v) }
    ensures items_ranged { ItemsRanged reach n result }
{
    let mut u = v;
    for t in (0..2 * letters::middle(n) + 1).rev() {
        letter(&mut u, b, n, t);
    }
    u
}
