// Numbers of 32 binary digits: add, multiply and divide give the exact result rounded once, in a direction: to nearest, ties to even, or down, or up.
// Each operation brings its exact result to the form n / d at an exponent x, whatever the direction. Sums and products are rounded by `kept`, quotients by
// `whole`, since nothing is carried; differences to nearest by `round_integer`. Where a caller names a direction, it is chosen when the code is compiled.
#![tactic(auto)]

ghost use Rattle.std.specs.Prelude.{◌≡◌, false, cond, ◌+◌, ◌-◌, ◌*◌, ◌^◌, ◌≤◌, ◌<◌};
ghost use Rattle.fraction.specs.Fraction.{fraction_sum, fraction_product, fraction_quotient};
ghost use Rattle.number.specs.Number.{zero_number, one_number, natural_number, unbiased, round, round_by, sum_of, product_of, sum_by, product_by, quotient_by};
ghost use Rattle.number.specs.Number.{value, Ranged, reach, exponent_of, in_range, FullDigits};
ghost use Rattle.number.specs.Toward.{Directed};
ghost use Rattle.number.specs.Division.{shift_of, rounded_quotient, Divided};
ghost use Rattle.number.specs.Signed.{below, difference_of};
ghost use Rattle.number.specs.Digits.{unlike_of, aligned_of};

pub mod integer; // integer.rt: whole numbers with a sign
pub mod packed; // packed.rt: a number in one word
mod roundings; // roundings.rt: whole numbers and digits, rounded
pub mod signed; // signed.rt: numbers with a sign

// The exponent 0.
pub const BIAS: u64 = 4194304;

// m times 2 to the power x - BIAS. Zero has m 0 and x BIAS.
// C fills the fields, so each operation asks for its range, and no ghost field holds it.
#[repr(C)]
#[derive(Clone, Copy, PartialEq, Eq)]
pub struct Number {
    pub m: u64,
    pub x: u64,
}

// Which way a result is rounded: IEEE 754's roundTiesToEven, its roundTowardZero, and the upward partner of that.
#[derive(Clone, Copy)]
pub enum Direction {
    Nearest,
    Down,
    Up,
}

// The exponent that is kept as x.
pub fn unbiased(x: u64) -> i64
    requires { x < 2 ^ 32 }
    ensures { result ≡ unbiased x }
{
    x as i64 - BIAS as i64
}

// a or b: a select, and no branch.
fn either(first: bool, a: u64, b: u64) -> u64
    ensures { result ≡ cond first a b }
{
    if first { a } else { b }
}

// The same of numbers: a branch on the order of two operands is slower wherever the order is hard to foretell.
fn either_number(first: bool, a: Number, b: Number) -> Number
    ensures { result ≡ cond first a b }
{
    Number {
        m: either(first, a.m, b.m),
        x: either(first, a.x, b.x),
    }
}

pub fn power(k: u64) -> u64
    requires { k < 64 }
    ensures { result ≡ 2 ^ k }
{
    1u64 << k
}

// a / b at exponent x: the mantissas are compared, the shift is chosen, one division gives the whole quotient, and this is rounded.
// It has 32 digits before rounding and after it, so nothing is carried. The direction is asked first: nothing stands between the division and its rounding.
fn quotient(a: u64, b: u64, x: u64, direction: Direction) -> Number
    requires { FullDigits a × FullDigits b × (32 ≤ x) × (x < 2 ^ 61) }
    ensures { result ≡ record { m = rounded_quotient direction a b; x = x - shift_of a b } }
{
    let k = roundings::multiplier(b, direction);
    let s = either(a < b, 32, 31);
    let y = x - s;
    let n = a << s;
    let q = n / b;
    let m = roundings::whole(q, n - q * b, b, k);
    Number { m, x: y }
}

// Whether digits were dropped, as a number.
fn unlike(a: u64, b: u64) -> u64
    ensures { result ≡ unlike_of a b }
{
    u64::from(a != b)
}

// Twice the sum of a and of b moved k places down, both with 30 more digits, and 1 more where digits of b are dropped.
fn aligned(a: u64, b: u64, k: u64) -> u64
    requires { (a < 2 ^ 32) × (b < 2 ^ 32) × (k < 64) }
    ensures { result ≡ aligned_of a b k }
{
    let z = b * 0x4000_0000;
    let y = z >> k;
    let whole = y * power(k);
    (a * 0x4000_0000 + y) * 2 + unlike(whole, z)
}

// The sum, where the second exponent is not above the first. Up to 31 places apart it is exact before it is rounded; from 32 on it rounds as the exact one,
// in every direction, since a digit stands for those of b that are dropped.
fn sum(a: Number, b: Number, direction: Direction) -> Number
    requires { FullDigits a.m × (b.m < 2 ^ 32) × (b.x ≤ a.x) × (32 ≤ b.x) × (a.x < 2 ^ 61) }
    ensures { result ≡ round_by direction (a.m * 2 ^ (a.x - b.x) + b.m) 1 b.x }
{
    let k = (a.x - b.x).min(63);
    roundings::kept(aligned(a.m, b.m, k), a.x - 31, direction)
}

// The difference, where the second number is the smaller and its exponent not above the first's.
// From 33 places on the second is less than half a unit of the first's last place; an eighth stands for it. But below 2^31 units are
// half as large: there 33 places are worked in full, 2^64 less the second number.
fn difference(a: Number, b: Number) -> Number
    requires { FullDigits a.m × (0 < b.m) × (b.m < 2 ^ 32) × (b.x ≤ a.x) × (32 ≤ b.x) × (a.x < 2 ^ 61) × (b.m < a.m * 2 ^ (a.x - b.x)) }
    ensures { result ≡ round (a.m * 2 ^ (a.x - b.x) - b.m) 1 b.x }
{
    let k = a.x - b.x;
    if k < 33 {
        return roundings::round_integer(a.m * power(k) - b.m, b.x);
    }
    let is_power = a.m == 0x8000_0000;
    if k == 33 && is_power {
        return roundings::round_integer(u64::MAX - b.m + 1, b.x);
    }
    roundings::round_integer(a.m * 8 - 1, a.x - 3)
}

impl Number {
    pub fn zero() -> Number
        ensures { result ≡ zero_number }
    {
        Number { m: 0, x: BIAS }
    }

    pub fn one() -> Number
        ensures { result ≡ one_number }
    {
        Number {
            m: 0x8000_0000,
            x: BIAS - 31,
        }
    }

    // A natural number, exactly where it has at most 32 digits.
    pub fn natural(n: u64) -> Number
        requires { 0 < n }
        ensures { result ≡ natural_number n }
    {
        roundings::round_integer(n, BIAS)
    }

    // The exponent, as it is answered.
    pub fn exponent(self) -> i64
        requires { self.x < 2 ^ 32 }
        ensures { result ≡ exponent_of self }
    {
        unbiased(self.x)
    }

    // Whether the exponent may be stored: from -1000 to 1000.
    pub fn in_range(self) -> bool
        ensures { result ≡ in_range self }
    {
        BIAS - 1000 <= self.x && self.x <= BIAS + 1000
    }

    pub fn add(self, other: Number, direction: Direction) -> Number
        requires { Ranged reach self × Ranged reach other }
        ensures value { result ≡ sum_by direction self other }
        ensures directed { Directed direction (reach + 2) (fraction_sum (value self) (value other)) result }
    {
        if self.m == 0 {
            return other;
        }
        if other.m == 0 {
            return self;
        }
        let turned = self.x < other.x;
        sum(
            either_number(turned, other, self),
            either_number(turned, self, other),
            direction,
        )
    }

    pub fn mul(self, other: Number, direction: Direction) -> Number
        requires { Ranged reach self × Ranged reach other }
        ensures value { result ≡ product_by direction self other }
        ensures directed { Directed direction (reach + reach + 33) (fraction_product (value self) (value other)) result }
    {
        if self.m == 0 {
            return self;
        }
        if other.m == 0 {
            return other;
        }
        roundings::kept(self.m * other.m, self.x + other.x - BIAS, direction)
    }

    pub fn div(self, other: Number, direction: Direction) -> Number
        requires { Ranged reach self × Ranged reach other × (0 < other.m) }
        ensures value { result ≡ quotient_by direction self other }
        ensures directed { Directed direction (reach + reach + 32) (fraction_quotient (value self) (value other)) result }
        ensures divided { 0 < self.m → Divided direction self other result }
    {
        if self.m == 0 {
            return self;
        }
        quotient(self.m, other.m, self.x + BIAS - other.x, direction)
    }

    // This number plus w times b, to nearest, the product rounded first.
    pub fn add_product(self, w: Number, b: Number) -> Number
        requires { Ranged reach self × Ranged reach w × Ranged reach b × Ranged reach (product_of w b) }
        ensures { result ≡ sum_of self (product_of w b) }
    {
        self.add(w.mul(b, Direction::Nearest), Direction::Nearest)
    }

    // Whether this number is less than the other.
    pub fn below(self, other: Number) -> bool
        requires { Ranged reach self × Ranged reach other }
        ensures { result ≡ below self other }
    {
        if other.m == 0 {
            return false;
        }
        if self.m == 0 || self.x < other.x {
            return true;
        }
        self.x == other.x && self.m < other.m
    }

    // This number less one that is not larger. A difference of equals is zero.
    pub fn sub(self, other: Number) -> Number
        requires { Ranged reach self × Ranged reach other × (below self other ≡ false) }
        ensures { result ≡ difference_of self other }
    {
        if other.m == 0 {
            return self;
        }
        if self == other {
            return Number::zero();
        }
        difference(self, other)
    }
}
