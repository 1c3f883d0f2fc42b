// Rounding: whole numbers with what is left behind them, and digits that are more than 32.
ghost use Rattle.std.specs.Prelude.{◌≡◌, ◌+◌, ◌-◌, ◌*◌, ◌^◌, ◌≤◌, ◌<◌};
ghost use Rattle.number.specs.Digits.{lifted_of, multiplier_of, whole_of};
ghost use Rattle.number.specs.Number.{renormalised, round, round_by};

use crate::{Direction, Number, either, power};

// What a remainder is multiplied by before it is compared with the divisor d; one more is taken where the product is larger: 2 to nearest; 1 down, where it
// never is; d + 1 up, where any remainder makes it so.
pub fn multiplier(d: u64, direction: Direction) -> u64
    requires { d < 2 ^ 32 }
    ensures { result ≡ multiplier_of direction d }
{
    match direction {
        Direction::Nearest => 2,
        Direction::Down => 1,
        Direction::Up => d + 1,
    }
}

// q and remainder / d to a whole number, by the multiplier of a direction: one comparison. An odd q counts beside the product, so that it goes up at a tie.
pub fn whole(q: u64, remainder: u64, d: u64, k: u64) -> u64
    requires { (q < 2 ^ 32) × (remainder < d) × (remainder * k < 2 ^ 64 - 1) }
    ensures { result ≡ whole_of q remainder d k }
{
    either(d < remainder * k + q % 2, q + 1, q)
}

// A mantissa that was rounded up to 2^32 is 2^31 one exponent higher.
fn renormalised(m: u64, x: u64) -> Number
    requires { x < 2 ^ 62 }
    ensures { result ≡ renormalised m x }
{
    let carried = m == 0x1_0000_0000;
    if carried {
        return Number {
            m: 0x8000_0000,
            x: x + 1,
        };
    }
    Number { m, x }
}

// q and remainder / d, with 32 digits before the point, to the nearest number.
fn round(q: u64, remainder: u64, d: u64, x: u64) -> Number
    requires { (2 ^ 31 ≤ q) × (q < 2 ^ 32) × (remainder < d) × (d ≤ 2 ^ 62) × (x < 2 ^ 62) }
    ensures { result ≡ round (q * d + remainder) d x }
{
    renormalised(whole(q, remainder, d, 2), x)
}

// A whole number of more than 32 digits at exponent x: w digits are left behind the point.
fn round_long(n: u64, w: u64, x: u64) -> Number
    requires { (w ≤ 32) × (2 ^ 31 * 2 ^ w ≤ n) × (n < 2 ^ 32 * 2 ^ w) × (x < 2 ^ 61) }
    ensures { result ≡ round n (2 ^ w) (x + w) }
{
    let d = power(w);
    let q = n >> w;
    round(q, n - q * d, d, x + w)
}

// A whole number at exponent x: digits past the 32nd are left behind the point, zeros are joined to fewer.
pub fn round_integer(n: u64, x: u64) -> Number
    requires { (0 < n) × (32 ≤ x) × (x < 2 ^ 61) }
    ensures { result ≡ round n 1 x }
{
    let z = u64::from(n.leading_zeros());
    if z < 32 {
        return round_long(n, 32 - z, x);
    }
    round(n * power(z - 32), 0, 1, x - (z - 32))
}

// p, of 63 + t digits, lifted so that all but 32 can be cut off. To nearest half a unit less one is added, and one more where the last digit that is kept is
// odd; down, nothing; up, a unit less one, so that an exact p stays.
fn lifted(p: u64, t: u64, direction: Direction) -> u64
    requires { (p ≤ 2 ^ 64 - 2 ^ 32) × (t ≤ 1) }
    ensures { result ≡ lifted_of direction p t }
{
    match direction {
        Direction::Nearest => p + 0x3fff_ffff + t * 0x4000_0000 + ((p >> 31) >> t) % 2,
        Direction::Down => p,
        Direction::Up => p + 0x7fff_ffff + t * 0x8000_0000,
    }
}

// p, of 63 or 64 digits, at exponent x, to 32 digits: no branch but by the direction. The digits are counted anew once p is lifted, and so a mantissa that
// was rounded up to 2^32 is carried.
pub fn kept(p: u64, x: u64, direction: Direction) -> Number
    requires { (2 ^ 62 ≤ p) × (p ≤ 2 ^ 64 - 2 ^ 32) × (x < 2 ^ 61) }
    ensures { result ≡ round_by direction p 1 x }
{
    let t = p >> 63;
    let r = lifted(p, t, direction);
    let u = r >> 63;
    let m = (r >> 31) >> u;
    let y = x + 31 + u;
    Number { m, x: y }
}
