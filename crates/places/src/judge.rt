// The tests of the calls, a line each, in document 01's order: the first condition that holds turns a call down.
ghost use Rattle.std.specs.Prelude.{◌≡◌, ◌≤◌, ◌<◌, map};
ghost use Rattle.verdict.specs.Verdict.{first_of};
ghost use Rattle.conditions.specs.Conditions.{above, any_of, empty, differ, miscounted, misclamped, sources_alone, sources_to};
ghost use Rattle.recipes.specs.Recipe.{place_of, places_in};
ghost use Rattle.places.specs.Shelf.{rows_at};
ghost use Rattle.places.specs.Tests.{unfit, source_tests, target_tests, one_source};

use crate::{Shelf, rows_at};
use recipes::{Recipe, RecipeStep};
use verdict::{Reason, Verdict, refuse_if};

// A source alone.
#[tactic(auto, unfolding(verdict::specs::Verdict::first_behind))]
pub fn source(shelf: Shelf, place: usize) -> Verdict
    ensures { result ≡ first_of (source_tests shelf place) }
{
    let rows = rows_at(shelf, place);
    refuse_if(7 < place, Reason::NoSuchPlace)?;
    refuse_if(rows == 0, Reason::SourceEmpty)
}

// A target alone.
#[tactic(auto, unfolding(verdict::specs::Verdict::first_behind))]
pub fn target(shelf: Shelf, place: usize) -> Verdict
    ensures { result ≡ first_of (target_tests shelf place) }
{
    let rows = rows_at(shelf, place);
    refuse_if(7 < place, Reason::NoSuchPlace)?;
    refuse_if(rows != 0, Reason::TargetFull)
}

// One source and a target.
#[tactic(auto, unfolding(verdict::specs::Verdict::first_behind))]
pub fn one_source(shelf: Shelf, source: usize, target: usize) -> Verdict
    ensures { result ≡ first_of (one_source shelf source target) }
{
    let rows = rows_at(shelf, source);
    let there = rows_at(shelf, target);
    refuse_if(7 < source, Reason::NoSuchPlace)?;
    refuse_if(7 < target, Reason::NoSuchPlace)?;
    refuse_if(rows == 0, Reason::SourceEmpty)?;
    refuse_if(there != 0, Reason::TargetFull)
}

// Whether a step names a place above 7.
fn any_above(steps: &[RecipeStep]) -> bool
    ensures { result ≡ any_of above (map place_of steps.now) }
{
    steps.iter().any(|step| 7 < step.place)
}

// Whether the place of a step is empty.
fn any_empty(shelf: Shelf, steps: &[RecipeStep]) -> bool
    ensures { result ≡ any_of (empty (rows_at shelf)) (map place_of steps.now) }
{
    steps.iter().any(|step| rows_at(shelf, step.place) == 0)
}

// Whether the place of a step has not the rows of the first step's place.
fn any_unlike(shelf: Shelf, first: usize, steps: &[RecipeStep]) -> bool
    ensures { result ≡ any_of (differ (rows_at shelf) first) (map place_of steps.now) }
{
    let rows = rows_at(shelf, first);
    steps.iter().any(|step| rows_at(shelf, step.place) != rows)
}

// The sources of a recipe's steps alone. The slots behind its count are not looked at.
pub fn sources_alone(shelf: Shelf, recipe: Recipe) -> Verdict
    requires { (1 ≤ recipe.count) × (recipe.count ≤ 6) }
    ensures { result ≡ first_of (sources_alone (rows_at shelf) (places_in recipe)) }
{
    let steps = &recipe.steps[..recipe.count];
    refuse_if(any_above(steps), Reason::NoSuchPlace)?;
    refuse_if(any_empty(shelf, steps), Reason::SourceEmpty)?;
    refuse_if(
        any_unlike(shelf, steps[0].place, steps),
        Reason::SizesDiffer,
    )
}

// The sources of a recipe's steps, and a target.
pub fn sources_to(shelf: Shelf, recipe: Recipe, target: usize) -> Verdict
    requires { (1 ≤ recipe.count) × (recipe.count ≤ 6) }
    ensures { result ≡ first_of (sources_to (rows_at shelf) (places_in recipe) target) }
{
    let steps = &recipe.steps[..recipe.count];
    refuse_if(any_above(steps), Reason::NoSuchPlace)?;
    refuse_if(7 < target, Reason::NoSuchPlace)?;
    refuse_if(any_empty(shelf, steps), Reason::SourceEmpty)?;
    refuse_if(rows_at(shelf, target) != 0, Reason::TargetFull)?;
    refuse_if(
        any_unlike(shelf, steps[0].place, steps),
        Reason::SizesDiffer,
    )
}

// Whether a recipe has not 2 to 6 steps.
pub fn miscounted(count: usize) -> bool
    ensures { result ≡ miscounted count }
{
    !(2..=6).contains(&count)
}

// Whether of n rows none is clamped, or none is left.
pub fn misclamped(n: usize, clamped: usize) -> bool
    ensures { result ≡ misclamped n clamped }
{
    clamped == 0 || n <= clamped
}

// Whether row and column sets of n rows are of unequal count, empty, or beyond n.
pub fn unfit(n: usize, rows: usize, columns: usize) -> bool
    requires { (n ≤ 8) × (rows < 256) × (columns < 256) }
    ensures { result ≡ unfit n rows columns }
{
    rowset::count(rows) != rowset::count(columns)
        || (rows == 0 || columns == 0)
        || (rowset::beyond(rows, n) || rowset::beyond(columns, n))
}
