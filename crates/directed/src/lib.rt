// The directed operations for the comparison with exact fractions, and for nothing else: this archive is no part of the library. Nothing proves what its
// caller hands over, so operands are tested, and what cannot be worked is answered with a number that no operation gives.
#![tactic(auto)]

ghost use Rattle.std.specs.Prelude.{◌≡◌, ◌≤◌, ◌<◌, true, MatchOption, unwrap_or};
ghost use Rattle.directed.specs.Directed.{nothing, is_workable, direction_of, number_of, worked_of, directed_of};

use number::{BIAS, Direction, Number};

// The operations take exponents from -REACH to REACH.
const REACH: u64 = 2097088;

// No number: an exponent that no operation gives.
const NOTHING: Number = Number { m: 0, x: 0 };

#[derive(Clone, Copy)]
enum Operation {
    Add,
    Multiply,
    Divide,
}

// Zero, or a mantissa of 32 bits at an exponent that the operations take.
fn is_workable(a: Number) -> bool
    ensures { result ≡ is_workable a }
{
    if a.m == 0 {
        return a.x == BIAS;
    }
    0x8000_0000 <= a.m && a.m < 0x1_0000_0000 && BIAS - REACH <= a.x && a.x <= BIAS + REACH
}

// 0 is nearest, 1 is down, 2 is up. No `TryFrom`: `Direction` is another crate's, and `u8` std's.
fn direction_of(number: u8) -> Option<Direction>
    ensures { MatchOption result (3 ≤ number) (λ w. (number < 3) × (w ≡ direction_of number)) }
{
    match number {
        0 => Some(Direction::Nearest),
        1 => Some(Direction::Down),
        2 => Some(Direction::Up),
        _ => None,
    }
}

// 0 adds, 1 multiplies, 2 divides.
fn operation_of(number: u8) -> Option<Operation>
    ensures { MatchOption result (3 ≤ number) (λ o. number_of o ≡ number) }
{
    match number {
        0 => Some(Operation::Add),
        1 => Some(Operation::Multiply),
        2 => Some(Operation::Divide),
        _ => None,
    }
}

// Nothing is divided by zero.
fn worked(operation: Operation, direction: Direction, a: Number, b: Number) -> Option<Number>
    requires { (is_workable a ≡ true) × (is_workable b ≡ true) }
    ensures { unwrap_or result nothing ≡ worked_of (number_of operation) direction a b }
{
    match operation {
        Operation::Add => Some(a.add(b, direction)),
        Operation::Multiply => Some(a.mul(b, direction)),
        Operation::Divide if b.m == 0 => None,
        Operation::Divide => Some(a.div(b, direction)),
    }
}

fn answer(operation: u8, direction: u8, a: Number, b: Number) -> Option<Number>
    ensures { unwrap_or result nothing ≡ directed_of operation direction a b }
{
    let operation = operation_of(operation)?;
    let direction = direction_of(direction)?;
    if !is_workable(a) || !is_workable(b) {
        return None;
    }
    worked(operation, direction, a, b)
}

// Numbers for the operation and the direction, and a number where there is no answer: the interface to C.
#[unsafe(no_mangle)]
pub extern "C" fn directed_work(operation: u8, direction: u8, a: Number, b: Number) -> Number
    ensures { result ≡ directed_of operation direction a b }
{
    answer(operation, direction, a, b).unwrap_or(NOTHING)
}
