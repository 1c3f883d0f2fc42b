// Forecasts (document 02, (k)): the steps that an operation on places will make. It tests as the operation does, without a target, 14 and 17.
ghost use Rattle.std.specs.Prelude.{◌≡◌, ◌≤◌, ◌<◌};
ghost use Rattle.conditions.specs.Conditions.{sources_alone};
ghost use Rattle.recipes.specs.Recipe.{places_in};
ghost use Rattle.places.specs.Shelf.{rows_at, Good};
ghost use Rattle.places.specs.Tests.{source_tests};
ghost use Rattle.words.specs.Effort.{steps_foretold};
ghost use Rattle.operations.specs.Operations.{submatrix_at, schur_at, joined_rows, joined_at, set_tests};
ghost use Rattle.operations.specs.Forecast.{foretelling, clamped_alone, foretold_report};

use crate::{effort, tests};
use places::{Shelf, judge};
use recipes::Recipe;
use verdict::Refusal;

// The words of one to six steps, joined.
pub fn joined(shelf: Shelf, recipe: Recipe) -> Result<usize, Refusal>
    requires { Good shelf × (1 ≤ recipe.count) × (recipe.count ≤ 6) }
    ensures { foretold_report result
        ≡ foretelling (sources_alone (rows_at shelf) (places_in recipe)) (steps_foretold (joined_rows shelf recipe) (joined_at shelf recipe)) }
{
    judge::sources_alone(shelf, recipe)?;
    let n = places::rows_at(shelf, recipe.steps[0].place);
    Ok(effort::of_sizes(recipe.count, n, 0, n))
}

// A transpose has no word.
pub fn transpose(shelf: Shelf, source: usize) -> Result<usize, Refusal>
    requires { Good shelf }
    ensures { foretold_report result ≡ foretelling (source_tests shelf source) 0 }
{
    judge::source(shelf, source)?;
    Ok(0)
}

// The row and column sets are masks. Whether the submatrix is singular is not asked.
pub fn submatrix(shelf: Shelf, source: usize, rows: u8, columns: u8) -> Result<usize, Refusal>
    requires { Good shelf }
    ensures { foretold_report result
        ≡ foretelling (set_tests shelf source rows columns) (steps_foretold (rows_at shelf source) (submatrix_at shelf source rows columns)) }
{
    tests::sets(shelf, source, rows, columns)?;
    let n = places::rows_at(shelf, source);
    let k = rowset::count(usize::from(rows));
    Ok(effort::of_sizes(1, n, 0, k))
}

// What remains after the first k rows and columns.
pub fn schur(shelf: Shelf, source: usize, k: usize) -> Result<usize, Refusal>
    requires { Good shelf }
    ensures { foretold_report result ≡ foretelling (clamped_alone shelf source k) (steps_foretold (rows_at shelf source) (schur_at shelf source k)) }
{
    tests::clamped(shelf, source, k)?;
    let n = places::rows_at(shelf, source);
    let rest = n - k;
    Ok(effort::of_sizes(1, n, k, rest))
}
