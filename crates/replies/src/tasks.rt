// Operations and recipes: worked, or foretold.
ghost use Rattle.std.specs.Prelude.{◌≡◌};
ghost use Rattle.lines.specs.Ascii.{ascii};
ghost use Rattle.places.specs.Shelf.{Good};
ghost use Rattle.places.specs.Outcome.{outcome};
ghost use Rattle.operations.specs.Reports.{operated_outcome};
ghost use Rattle.operations.specs.Forecast.{foretold_report};
ghost use Rattle.replies.specs.Calls.{mask, task_by};
ghost use Rattle.replies.specs.Replies.{Replied, told, told_performed, operation_reply, recipe_reply};

use crate::calls;
use crate::calls::Answered;
use recipes::codes;
use requests::{Kind, Mode};
use shelf::{Operated, Refusal, Shelf, Task};

// Masks are read as numbers of at most 255.
pub fn mask(n: usize) -> u8
    ensures { result ≡ mask n }
{
    (n % 256) as u8
}

// An operation on places, with its masks.
fn task_of(kind: Kind, a: usize, b: usize, c: usize) -> Task
    ensures { result ≡ task_by kind a b c }
{
    match kind {
        Kind::Product => Task::Product { left: a, right: b },
        Kind::Inverse => Task::Inverse(a),
        Kind::Converse => Task::Converse(a),
        Kind::Transpose => Task::Transpose(a),
        Kind::Submatrix => Task::Submatrix {
            source: a,
            rows: mask(b),
            columns: mask(c),
        },
        Kind::Schur => Task::Schur { source: a, k: b },
    }
}

// What an operation or a recipe did.
fn performed(done: Operated, out: &mut [u8], at: usize) -> Answered
    requires { Good done.shelf }
    ensures good { Good result.shelf }
    ensures replied { Replied (told_performed (operated_outcome done)) out.old at out.new result }
{
    calls::after(done.shelf, answers::put_performed(out, at, done.answer))
}

// The steps that it will make, alone.
fn foretold(shelf: Shelf, answer: Result<usize, Refusal>, out: &mut [u8], at: usize) -> Answered
    requires { Good shelf }
    ensures good { Good result.shelf }
    ensures replied { Replied (told (ascii "steps") (outcome shelf (foretold_report answer))) out.old at out.new result }
{
    calls::after(shelf, answers::put_foretold(out, at, answer))
}

// An operation as it is asked for, with its numbers; the last is its target.
pub fn answer(
    shelf: Shelf,
    mode: Mode,
    kind: Kind,
    v: [usize; 4],
    out: &mut [u8],
    at: usize,
) -> Answered
    requires { Good shelf }
    ensures good { Good result.shelf }
    ensures replied { Replied (operation_reply shelf mode kind v) out.old at out.new result }
{
    let [a, b, c, target] = v;
    let task = task_of(kind, a, b, c);
    match mode {
        Mode::Direct => performed(shelf::perform(shelf, task, target), out, at),
        Mode::Foretold => foretold(shelf, shelf::forecast(shelf, task), out, at),
    }
}

// A recipe likewise, with the codes of its steps.
pub fn recipe(
    shelf: Shelf,
    mode: Mode,
    v: [usize; 4],
    steps: &[u64],
    out: &mut [u8],
    at: usize,
) -> Answered
    requires { Good shelf }
    ensures good { Good result.shelf }
    ensures replied { Replied (recipe_reply shelf mode v steps.now) out.old at out.new result }
{
    let [.., target] = v;
    let recipe = codes::recipe(steps);
    match mode {
        Mode::Direct => performed(shelf::perform_recipe(shelf, recipe, target), out, at),
        Mode::Foretold => foretold(shelf, shelf::forecast_recipe(shelf, recipe), out, at),
    }
}
