// Whether no factor of a joined word is zero: then, and only then, it is called full; every minor is present, and nothing is walked.
ghost use Rattle.std.specs.Prelude.{◌≡◌, ◌↔◌, true, ◌≤◌, ◌<◌};
ghost use Rattle.table.specs.Table.{factors_of};
ghost use Rattle.walk.specs.Lent.{table_in, steps_of};
ghost use Rattle.presence.specs.Full.{NoZero, Full};

use walk::Joined;

// No factor of step c, which has n rows, is zero. The numbers are in rows of eight.
fn no_zero(factors: &[u64; 768], n: usize, c: usize) -> bool
    requires { (n ≤ 8) × (c < 6) }
    ensures { (result ≡ true) ↔ NoZero n (factors_of (table_in factors.now c)) }
{
    (0..n * 8).all(|t| n <= t % 8 || factors[2 * (c * 64 + t)] != 0)
}

// The word has a step, and no factor of its steps is zero.
pub fn full(word: Joined, factors: &[u64; 768]) -> bool
    requires { (word.n ≤ 8) × (word.count ≤ 6) }
    ensures { (result ≡ true) ↔ Full word.n (steps_of word factors.now) }
{
    0 < word.count && (0..word.count).all(|c| no_zero(factors, word.n, c))
}
