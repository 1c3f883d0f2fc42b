// Add, multiply and divide of positive numbers, with what rounding took away: the rounded result, and the exact rest beside it.
// Each works its rest from the result that the number's own add, mul or div gives, by whole numbers and with no further rounding.
#![tactic(auto)]

ghost use Rattle.std.specs.Prelude.{◌≡◌, ◌^◌, ◌≤◌, ◌<◌};
ghost use Rattle.rests.specs.Rest.{odd_part, rest_of, sum_rounded, product_rounded, quotient_rounded, worked_by, PositivePair};
ghost use Rattle.rests.specs.Rest.{rest_integer, rest_exponent, Small};

use number::{BIAS, Direction, Number, integer, power, unbiased};

#[derive(Clone, Copy)]
pub enum Operator {
    Add,
    Multiply,
    Divide,
}

// An odd whole number times 2 to the power x - BIAS, with a sign. No rest is 0 with x BIAS, and not negative.
// It is answered so to callers in C, number and exponent alike: hence no Option.
#[derive(Clone, Copy)]
pub struct Rest {
    pub negative: bool,
    pub odd: u64,
    pub x: u64,
}

// A rounded result, and its rest.
#[derive(Clone, Copy)]
pub struct Rounded {
    pub number: Number,
    pub rest: Rest,
}

impl Rest {
    // The odd number with its sign, as it is answered.
    pub fn integer(self) -> i64
        requires { self.odd < 2 ^ 32 }
        ensures { result ≡ rest_integer self }
    {
        if self.negative {
            integer::minus(self.odd)
        } else {
            integer::plus(self.odd)
        }
    }

    pub fn exponent(self) -> i64
        requires { self.x < 2 ^ 32 }
        ensures { result ≡ rest_exponent self }
    {
        unbiased(self.x)
    }
}

// n times 2 to the power x - BIAS with a sign, its twos taken into the exponent.
fn odd_part(negative: bool, n: u64, x: u64) -> Rest
    requires { x < 2 ^ 62 }
    ensures { result ≡ odd_part negative n x }
{
    if n == 0 {
        return Rest {
            negative: false,
            odd: 0,
            x: BIAS,
        };
    }
    let twos = u64::from(n.trailing_zeros());
    Rest {
        negative,
        odd: n >> twos,
        x: x + twos,
    }
}

// p less q, both at the exponent x.
fn difference(p: u64, q: u64, x: u64) -> Rest
    requires { x < 2 ^ 62 }
    ensures { result ≡ rest_of p q x }
{
    odd_part(p < q, p.abs_diff(q), x)
}

// The sum, where the second exponent is not above the first: the result less the first is exact, and the second less that is the rest (Fast2Sum).
// From 33 places on the second is less than half a unit of the first's last place: the first is the result, and the second is the rest.
fn sum(a: Number, b: Number) -> Rounded
    requires { PositivePair a b × (b.x ≤ a.x) }
    ensures { result ≡ sum_rounded a b }
{
    let number = a.add(b, Direction::Nearest);
    let k = a.x - b.x;
    let rest = if 32 < k {
        odd_part(false, b.m, b.x)
    } else {
        let more = number.m * power(number.x - a.x) - a.m;
        difference(b.m, more * power(k), b.x)
    };
    Rounded { number, rest }
}

// The three take two numbers, as their callers have them: a type for a positive pair would be made for one call each.
pub fn add(a: Number, b: Number) -> Rounded
    requires { PositivePair a b }
    ensures { result ≡ sum_rounded a b }
{
    if a.x < b.x { sum(b, a) } else { sum(a, b) }
}

pub fn multiply(a: Number, b: Number) -> Rounded
    requires { PositivePair a b }
    ensures { result ≡ product_rounded a b }
{
    let number = a.mul(b, Direction::Nearest);
    let x = a.x + b.x - BIAS;
    let rest = difference(a.m * b.m, number.m * power(number.x - x), x);
    Rounded { number, rest }
}

pub fn divide(a: Number, b: Number) -> Rounded
    requires { PositivePair a b }
    ensures { result ≡ quotient_rounded a b }
{
    let number = a.div(b, Direction::Nearest);
    let x = number.x + b.x - BIAS;
    let rest = difference(a.m * power(a.x - x), number.m * b.m, x);
    Rounded { number, rest }
}

// One of the three.
pub fn work(operator: Operator, a: Number, b: Number) -> Rounded
    requires { PositivePair a b }
    ensures value { result ≡ worked_by operator a b }
    ensures small { Small result }
{
    match operator {
        Operator::Add => add(a, b),
        Operator::Multiply => multiply(a, b),
        Operator::Divide => divide(a, b),
    }
}
