// The arithmetic as it is offered outside: one operation on two list items, answered with the rounded result and with what rounding took away.
#![tactic(auto)]

ghost use Rattle.std.specs.Prelude.{◌≡◌};
ghost use Rattle.rests.specs.Rest.{Small};
ghost use Rattle.arithmetic.specs.Arithmetic.{is_positive, arithmetic_call, result_of, worked_report};
ghost use Rattle.arithmetic.specs.Promise.{Logged};

use number::signed::Signed;
pub use rests::Operator;
use rests::Rounded;
use verdict::{Reason, Refusal, refuse_if};

// A working number, and its rest: an odd whole number with a sign and an exponent, or 0 with exponent 0.
#[derive(Clone, Copy)]
pub struct Worked {
    pub mantissa: u64,
    pub exponent: i64,
    pub rest: i64,
    pub rest_exponent: i64,
}

fn positive(a: Signed) -> bool
    ensures { result ≡ is_positive a }
{
    let vanishes = a.size.m == 0;
    !vanishes && !a.negative
}

// A result with its rest, as numbers.
fn told(done: Rounded) -> Worked
    requires { Small done }
    ensures { result ≡ result_of done }
{
    Worked {
        mantissa: done.number.m,
        exponent: done.number.exponent(),
        rest: done.rest.integer(),
        rest_exponent: done.rest.exponent(),
    }
}

// Adds, multiplies or divides two positive items, lent as three numbers each: sign, mantissa, exponent.
pub fn arithmetic(operator: Operator, items: &[i64]) -> Result<Worked, Refusal>
    ensures result_value { worked_report result ≡ arithmetic_call operator items.now }
    ensures logged { Logged operator items.now result }
{
    let Some(list) = items::read(items, 2, 2) else {
        return Err(Reason::WrongList.into());
    };
    let [a, b, ..] = list.items;
    refuse_if(!positive(a), Reason::WrongList)?;
    refuse_if(!positive(b), Reason::WrongList)?;
    Ok(told(rests::work(operator, a.size, b.size)))
}
