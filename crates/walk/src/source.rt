// What a caller of the walk makes once and lends: the factors of six steps in words, and the letters of their words as numbers.
// A word is made of no steps (`no_steps`), and a step at a time is put behind (`put_step`).
ghost use Rattle.std.specs.Prelude.{◌≡◌, [], ◌∷◌, ◌++◌, ◌+◌, ◌*◌, ◌≤◌, ◌<◌, length};
ghost use Rattle.walk.specs.Letters.{middle, move_at, MoveWithin};
ghost use Rattle.walk.specs.Lent.{number_in, table_in, code_of, Spelled, Kept, no_steps, steps_of, Prepared};
ghost use Rattle.walk.specs.Steps.{step_of};

use crate::letters::Move;
use crate::{Joined, Step, Way, letters};
use number::Number;

// The factors of step c put into words, steps being put one after the other: a mantissa, and its exponent behind it.
pub fn put_factors(b: &mut [u64; 768], c: usize, table: [Number; 64])
    requires { (c < 6) × (length b.old ≡ 768) }
    ensures c_after { table_in b.new c ≡ table }
    ensures kept { Kept (c * 128) b.old b.new }
    ensures b_len { length b.new ≡ 768 }
{
    for (t, a) in table.iter().enumerate() {
        b[c * 128 + 2 * t] = a.m;
        b[c * 128 + 2 * t + 1] = a.x;
    }
}

// Number p of the factors.
pub fn factor_in(b: &[u64; 768], p: usize) -> Number
    requires { p < 384 }
    ensures { result ≡ number_in b.now p }
{
    let m = b[2 * p];
    let x = b[2 * p + 1];
    Number { m, x }
}

// A letter as a number.
fn code(m: Move) -> u16
    requires { (m.to < 16) × (m.from < 16) × (m.at < 64) }
    ensures { result ≡ code_of m }
{
    ((m.from * 16 + m.to) * 64 + m.at) as u16
}

// The letters of step c, of n rows and taken this way, steps being spelled one after the other.
pub fn spell(l: &mut [u16; 342], n: usize, way: Way, c: usize)
    requires { (1 ≤ n) × (n ≤ 8) × (c < 6) × (length l.old ≡ 342) }
    ensures spelled { Spelled n way c l.new }
    ensures kept { Kept (c * 57) l.old l.new }
    ensures l_len { length l.new ≡ 342 }
{
    let d = letters::middle(n);
    for t in 0..2 * d + 1 {
        // D has no number; one branch for all that follows is no plainer.
        if t == d {
            continue;
        }
        l[c * 57 + t] = code(letters::move_at(n, way, t));
    }
}

// Letter t of step c, where that is not D.
pub fn letter_in(l: &[u16; 342], n: usize, way: Way, c: usize, t: usize) -> Move
    requires le_n { (1 ≤ n) × (n ≤ 8) × (c < 6) × (t < 2 * middle n + 1) × (t ≡ middle n → ⊥) }
    requires spelled { Spelled n way c l.now }
    ensures value { result ≡ move_at n way t }
    ensures move_within { MoveWithin n result }
{
    let v = usize::from(l[c * 57 + t]);
    let rows = v / 64;
    Move {
        to: rows % 16,
        from: rows / 16,
        at: v % 64,
    }
}

// A word of n rows without steps.
pub fn no_steps(n: usize) -> Joined
    ensures { result ≡ no_steps n }
{
    let s = Step { way: Way::Plain };
    Joined {
        steps: [s; 6],
        count: 0,
        n,
    }
}

// One step more behind those of a word: a source's factors, and the way that its word is taken.
pub fn put_step(
    word: Joined,
    l: &mut [u16; 342],
    b: &mut [u64; 768],
    way: Way,
    table: [Number; 64],
) -> Joined
    requires { Prepared word l.old b.old × (1 ≤ word.n) × (word.n ≤ 8) × (word.count < 6) }
    ensures prepared { Prepared result l.new b.new × (result.n ≡ word.n) × (result.count ≡ word.count + 1) }
    ensures b_after { steps_of result b.new ≡ steps_of word b.old ++ (step_of way table ∷ []) }
{
    let n = word.n;
    let c = word.count;
    spell(l, n, way, c);
    put_factors(b, c, table);
    let mut steps = word.steps;
    steps[c] = Step { way };
    Joined {
        steps,
        count: c + 1,
        n,
    }
}
