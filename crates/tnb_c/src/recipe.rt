// Recipes for programs in C and Rust. A step is made by one of four calls, so that no program writes a way as a number; whatever a step holds, it is some place
// in some way.
ghost use Rattle.std.specs.Prelude.{◌≡◌};
ghost use Rattle.walk.specs.declared.Way.TheVariants.{Plain, Inverted, Conversed, Transposed};
ghost use Rattle.recipes.specs.Codes.{recipe_by};
ghost use Rattle.operations.specs.Operations.{joined_rows, joined_at};
ghost use Rattle.shelf.specs.Run.{recipe, forecast_recipe};
ghost use Rattle.tnb_c.specs.Answers.{checked, answer_of, step_of, steps_of, Answered, ForetoldAnswer, StepAnswer};

use crate::{Answer, Steps};
use places::{Shelf, check};
use recipes::{Way, codes};

// A step of a recipe.
#[repr(C)]
#[derive(Clone, Copy)]
pub struct Step {
    pub code: u64,
}

// A place taken plain.
#[unsafe(no_mangle)]
pub extern "C" fn tnb_plain(place: usize) -> Step
    ensures value { result ≡ step_of Plain place }
    ensures step_answer { StepAnswer Plain place result }
{
    Step {
        code: codes::code(Way::Plain, place),
    }
}

// A place taken as its re-signed inverse.
#[unsafe(no_mangle)]
pub extern "C" fn tnb_inverted(place: usize) -> Step
    ensures value { result ≡ step_of Inverted place }
    ensures step_answer { StepAnswer Inverted place result }
{
    Step {
        code: codes::code(Way::Inverted, place),
    }
}

// A place taken as its converse.
#[unsafe(no_mangle)]
pub extern "C" fn tnb_conversed(place: usize) -> Step
    ensures value { result ≡ step_of Conversed place }
    ensures step_answer { StepAnswer Conversed place result }
{
    Step {
        code: codes::code(Way::Conversed, place),
    }
}

// A place taken as its transpose.
#[unsafe(no_mangle)]
pub extern "C" fn tnb_transposed(place: usize) -> Step
    ensures value { result ≡ step_of Transposed place }
    ensures step_answer { StepAnswer Transposed place result }
{
    Step {
        code: codes::code(Way::Transposed, place),
    }
}

// The product of the steps, 2 to 6, in their order, to an empty place.
#[unsafe(no_mangle)]
pub extern "C" fn tnb_recipe(shelf: Shelf, steps: &[u64], target: usize) -> Answer
    ensures value { result ≡ answer_of (checked shelf (recipe (recipe_by steps.now) target)) }
    ensures answered { Answered result target (joined_rows shelf (recipe_by steps.now)) (joined_at shelf (recipe_by steps.now)) }
{
    if check::is_good(shelf) {
        let made = codes::recipe(steps);
        return operations::perform_recipe(shelf, made, target).into();
    }
    Answer::foreign(shelf)
}

// The steps that a recipe will make.
#[unsafe(no_mangle)]
pub extern "C" fn tnb_forecast_recipe(shelf: Shelf, steps: &[u64]) -> Steps
    ensures value { result ≡ steps_of (checked shelf (forecast_recipe (recipe_by steps.now))).report }
    ensures foretold_answer { ForetoldAnswer shelf (recipe (recipe_by steps.now)) result }
{
    if check::is_good(shelf) {
        let made = codes::recipe(steps);
        return operations::forecast_recipe(shelf, made).into();
    }
    Steps::foreign()
}
