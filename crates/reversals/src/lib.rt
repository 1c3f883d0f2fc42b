// Reversals of a list of items: nonzero items of opposite sign with only zeros between, counted in one pass.
#![tactic(auto)]

ghost use Rattle.std.specs.Prelude.{◌≡◌, ◌≤◌, take};
ghost use Rattle.reversals.specs.Reversals.{turn, latest, reversals};

use number::signed::Signed;

// 1 for a positive and a negative item, in either order, else 0.
fn turn(a: Signed, b: Signed) -> u64
    ensures { result ≡ turn a b }
{
    let first_vanishes = a.size.m == 0;
    let second_vanishes = b.size.m == 0;
    u64::from(!first_vanishes && !second_vanishes && a.negative != b.negative)
}

// The later of two items, unless it is zero: a standstill is passed over.
fn latest(a: Signed, b: Signed) -> Signed
    ensures { result ≡ latest a b }
{
    if b.size.m == 0 { a } else { b }
}

// The reversals among the first n of eight items: each is set against the last before it that is not zero.
pub fn count(v: [Signed; 8], n: usize) -> u64
    requires { n ≤ 8 }
    ensures { result ≡ reversals (take n v) }
{
    let mut last = Signed::zero();
    let mut found = 0;
    for a in &v[..n] {
        found += turn(last, *a);
        last = latest(last, *a);
    }
    found
}
