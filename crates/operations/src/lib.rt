// The operations on places: transpose, product, re-signed inverse, converse, submatrix, Schur complement, recipes of steps joined; minors; and a place filled
// from time stamps. A result is worked first and kept by a step of its own.
#![tactic(auto)]

ghost use Rattle.std.specs.Prelude.{◌≡◌};
ghost use Rattle.places.specs.Shelf.{rows_at, Good};
ghost use Rattle.operations.specs.Operations.{product_at, inverse_at, converse_at, submatrix_at, schur_at, joined_rows, joined_at};
ghost use Rattle.operations.specs.Operations.{transpose_call, build_call, product_call, inverse_call, converse_call, submatrix_call, schur_call, recipe_call};
ghost use Rattle.operations.specs.Operations.{minor_call};
ghost use Rattle.operations.specs.Reports.{filled_outcome, operated_outcome, valued_report};
ghost use Rattle.operations.specs.Forecast.{forecast_call, recipe_forecast, task_call, foretold_report, Found, RecipeFound, Foretelling};
ghost use Rattle.operations.specs.Promise.{Promised, BuildPromised};

use places::{Shelf, judge};
use recipes::{Recipe, Way};
use verdict::{Reason, Refusal, refuse_if};

mod ahead; // ahead.rt: forecasts
mod effort; // effort.rt: steps by sizes
mod tests; // tests.rt: the tests of chosen rows
mod word; // word.rt: the words that are walked, and minors of one
mod work; // work.rt: results, and how they are kept

// What an operation answers: the result's factors are within so many unit roundings, and took so many steps.
#[derive(Clone, Copy)]
pub struct Performed {
    pub bound: u32,
    pub steps: usize,
}

// A mantissa times 2 to the power of an exponent.
#[derive(Clone, Copy)]
pub struct Value {
    pub mantissa: u64,
    pub exponent: i64,
}

// An operation on places, without its target.
#[derive(Clone, Copy)]
pub enum Task {
    Product {
        left: usize,
        right: usize,
    },
    Inverse(usize),
    Converse(usize),
    Transpose(usize),
    Submatrix {
        source: usize,
        rows: u8,
        columns: u8,
    },
    Schur {
        source: usize,
        k: usize,
    },
}

// The shelf after an operation.
#[derive(Clone, Copy)]
pub struct Operated {
    pub shelf: Shelf,
    pub answer: Result<Performed, Refusal>,
}

// The shelf after a place was filled from time stamps, and the bound of its factors in unit roundings.
#[derive(Clone, Copy)]
pub struct Filled {
    pub shelf: Shelf,
    pub answer: Result<u32, Refusal>,
}

// The transpose of a place, to an empty place.
pub fn transpose(shelf: Shelf, source: usize, target: usize) -> Operated
    requires { Good shelf }
    ensures result_value { operated_outcome result ≡ transpose_call shelf source target }
    ensures good { Good result.shelf }
{
    work::keep(shelf, target, work::transposed(shelf, source, target))
}

// The matrix whose row i holds the powers 0 to n - 1 of stamp i, from n time stamps, 1 to 8, to an empty place.
pub fn build(shelf: Shelf, target: usize, stamps: &[u64]) -> Filled
    requires { Good shelf }
    ensures result_value { filled_outcome result ≡ build_call shelf target stamps.now }
    ensures good { Good result.shelf }
    ensures build_promised { BuildPromised result.shelf target stamps.now result.answer }
{
    work::filled(work::keep(shelf, target, work::built(shelf, target, stamps)))
}

// Product, inverse and converse differ in their recipe alone, but each promises its own operation: one function for the three is no plainer.
// The product of two places, left times right, to an empty place.
pub fn product(shelf: Shelf, left: usize, right: usize, target: usize) -> Operated
    requires { Good shelf }
    ensures result_value { operated_outcome result ≡ product_call shelf left right target }
    ensures good { Good result.shelf }
    ensures promised { Promised result.shelf target (rows_at shelf left) (product_at shelf left right) result.answer }
{
    let steps = recipes::two(left, right);
    work::keep(shelf, target, work::joined(shelf, steps, target))
}

// The re-signed inverse of a place, to an empty place.
pub fn inverse(shelf: Shelf, source: usize, target: usize) -> Operated
    requires { Good shelf }
    ensures result_value { operated_outcome result ≡ inverse_call shelf source target }
    ensures good { Good result.shelf }
    ensures promised { Promised result.shelf target (rows_at shelf source) (inverse_at shelf source) result.answer }
{
    let steps = recipes::one(Way::Inverted, source);
    work::keep(shelf, target, work::joined(shelf, steps, target))
}

// The converse of a place, to an empty place.
pub fn converse(shelf: Shelf, source: usize, target: usize) -> Operated
    requires { Good shelf }
    ensures result_value { operated_outcome result ≡ converse_call shelf source target }
    ensures good { Good result.shelf }
    ensures promised { Promised result.shelf target (rows_at shelf source) (converse_at shelf source) result.answer }
{
    let steps = recipes::one(Way::Conversed, source);
    work::keep(shelf, target, work::joined(shelf, steps, target))
}

// The chosen rows and columns of a place, given as masks, to an empty place.
pub fn submatrix(shelf: Shelf, source: usize, rows: u8, columns: u8, target: usize) -> Operated
    requires { Good shelf }
    ensures result_value { operated_outcome result ≡ submatrix_call shelf source rows columns target }
    ensures good { Good result.shelf }
    ensures promised { Promised result.shelf target (rows_at shelf source) (submatrix_at shelf source rows columns) result.answer }
{
    work::keep(
        shelf,
        target,
        work::submatrix(shelf, source, rows, columns, target),
    )
}

// The Schur complement of the first k rows and columns of a place, to an empty place: what remains once the first k control points are clamped.
pub fn schur(shelf: Shelf, source: usize, k: usize, target: usize) -> Operated
    requires { Good shelf }
    ensures result_value { operated_outcome result ≡ schur_call shelf source k target }
    ensures good { Good result.shelf }
    ensures promised { Promised result.shelf target (rows_at shelf source) (schur_at shelf source k) result.answer }
{
    work::keep(shelf, target, work::schur(shelf, source, k, target))
}

// An operation, to an empty place.
pub fn perform(shelf: Shelf, task: Task, target: usize) -> Operated
    requires { Good shelf }
    ensures result_value { operated_outcome result ≡ task_call shelf task target }
    ensures good { Good result.shelf }
{
    match task {
        Task::Product { left, right } => product(shelf, left, right, target),
        Task::Inverse(source) => inverse(shelf, source, target),
        Task::Converse(source) => converse(shelf, source, target),
        Task::Transpose(source) => transpose(shelf, source, target),
        Task::Submatrix {
            source,
            rows,
            columns,
        } => submatrix(shelf, source, rows, columns, target),
        Task::Schur { source, k } => schur(shelf, source, k, target),
    }
}

// The steps that an operation will make, without working it.
pub fn forecast(shelf: Shelf, task: Task) -> Result<usize, Refusal>
    requires { Good shelf }
    ensures result_value { foretold_report result ≡ forecast_call shelf task }
    ensures foretelling { Foretelling shelf (Found task) (task_call shelf task) (foretold_report result) }
{
    match task {
        Task::Product { left, right } => ahead::joined(shelf, recipes::two(left, right)),
        Task::Inverse(source) => ahead::joined(shelf, recipes::one(Way::Inverted, source)),
        Task::Converse(source) => ahead::joined(shelf, recipes::one(Way::Conversed, source)),
        Task::Transpose(source) => ahead::transpose(shelf, source),
        Task::Submatrix {
            source,
            rows,
            columns,
        } => ahead::submatrix(shelf, source, rows, columns),
        Task::Schur { source, k } => ahead::schur(shelf, source, k),
    }
}

// A recipe: the product of its steps, 2 to 6, each a place taken plain, as its re-signed inverse, its converse or its transpose, to an empty place. The words
// of the steps are joined in their order and the rule is run once.
pub fn perform_recipe(shelf: Shelf, recipe: Recipe, target: usize) -> Operated
    requires { Good shelf }
    ensures result_value { operated_outcome result ≡ recipe_call shelf recipe target }
    ensures good { Good result.shelf }
    ensures promised { Promised result.shelf target (joined_rows shelf recipe) (joined_at shelf recipe) result.answer }
{
    work::keep(shelf, target, work::counted(shelf, recipe, target))
}

// The steps that a recipe will make, without working it.
pub fn forecast_recipe(shelf: Shelf, recipe: Recipe) -> Result<usize, Refusal>
    requires { Good shelf }
    ensures result_value { foretold_report result ≡ recipe_forecast shelf recipe }
    ensures foretelling { Foretelling shelf RecipeFound (recipe_call shelf recipe) (foretold_report result) }
{
    let miscounted = judge::miscounted(recipe.count);
    refuse_if(miscounted, Reason::WrongStepCount)?;
    ahead::joined(shelf, recipe)
}

// Any minor of a place, its row and column sets given as masks.
pub fn minor(shelf: Shelf, place: usize, rows: u8, columns: u8) -> Result<Value, Refusal>
    requires { Good shelf }
    ensures { valued_report result ≡ minor_call shelf place rows columns }
{
    tests::sets(shelf, place, rows, columns)?;
    let n = places::rows_at(shelf, place);
    let a = word::minor(places::table_at(shelf, place), n, rows, columns);
    let beyond = !a.in_range();
    refuse_if(beyond, Reason::ExponentOutOfRange)?;
    Ok(Value {
        mantissa: a.m,
        exponent: a.exponent(),
    })
}
