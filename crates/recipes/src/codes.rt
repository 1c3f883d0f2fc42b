// Steps as numbers, as C and the console hand them over: four times one more than the place, plus 0 for plain, 1 for the re-signed inverse, 2 for the
// converse, 3 for the transpose. Every number is some step; one that no step has, 0 among them, is a step of place 8, which is none.
ghost use Rattle.std.specs.Prelude.{◌≡◌, ◌%◌, get_or};
ghost use Rattle.recipes.specs.Codes.{way_code, way_by, place_by, step_code, step_by, recipe_by};

use crate::{Recipe, RecipeStep, Way};

// No `From`: `Way` is another crate's, and `u64` std's.
fn way_code(way: Way) -> u64
    ensures { result ≡ way_code way }
{
    match way {
        Way::Plain => 0,
        Way::Inverted => 1,
        Way::Conversed => 2,
        Way::Transposed => 3,
    }
}

// The number of a step. Every place above 7 is told by 8, so that no number is too large.
#[tactic(auto, unfolding(crate::specs::Codes::step_code))]
pub fn code(way: Way, place: usize) -> u64
    ensures { result ≡ step_code way place }
{
    4 * (place.min(8) as u64 + 1) + way_code(way)
}

fn way(code: u64) -> Way
    ensures { result ≡ way_by (code % 4) }
{
    match code % 4 {
        0 => Way::Plain,
        1 => Way::Inverted,
        2 => Way::Conversed,
        _ => Way::Transposed,
    }
}

fn place(quarter: u64) -> usize
    ensures { result ≡ place_by quarter }
{
    match quarter {
        1..=8 => (quarter - 1) as usize,
        _ => 8,
    }
}

// The step of a number, whatever it is.
impl From<u64> for RecipeStep {
    ghost from_gives = { λ code step. step ≡ step_by code };

    #[tactic(auto, unfolding(crate::specs::Codes::step_by))]
    fn from(code: u64) -> RecipeStep {
        RecipeStep {
            place: place(code / 4),
            way: way(code),
        }
    }
}

// The step of slot c, that of 0 where no number is left.
fn slot(codes: &[u64], c: usize) -> RecipeStep
    ensures { result ≡ step_by (get_or codes.now c 0) }
{
    codes.get(c).copied().unwrap_or(0).into()
}

// A recipe of so many steps. Of more than six, which no recipe has, the first six have slots.
pub fn recipe(codes: &[u64]) -> Recipe
    ensures { result ≡ recipe_by codes.now }
{
    let mut steps = [RecipeStep::from(0); 6];
    for c in 0..6usize {
        steps[c] = slot(codes, c);
    }
    Recipe {
        steps,
        count: codes.len(),
    }
}
