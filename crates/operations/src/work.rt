// The operations: a result is worked first (`Proposal`) and kept by a step of its own.
ghost use Rattle.std.specs.Prelude.{◌≡◌, ◌≤◌};
ghost use Rattle.conditions.specs.Conditions.{sources_to};
ghost use Rattle.recipes.specs.Recipe.{places_in};
ghost use Rattle.places.specs.Shelf.{rows_at, Good};
ghost use Rattle.operations.specs.Operations.{submatrix_at, submatrix_tests, schur_at, clamped_tests, joined_rows, joined_at, recipe_tests};
ghost use Rattle.operations.specs.Proposed.{transpose_proposal, build_proposal, proposed, kept, filled_by, ranged_of, Keepable};

use crate::{Filled, Operated, Performed, tests, word};
use places::{Shelf, judge};
use recipes::Recipe;
use rule::Refactored;
use verdict::{Reason, Refusal, refuse_if};
use walk::Way;

// A result before it is kept, or why there is none.
pub type Proposal = Result<Refactored, Refusal>;

// A result is kept at a place; without one the shelf stays as it was.
pub fn keep(shelf: Shelf, target: usize, proposal: Proposal) -> Operated
    requires { Good shelf × Keepable target proposal }
    ensures value { result ≡ kept shelf target proposal }
    ensures good { Good result.shelf }
{
    match proposal {
        Ok(made) => {
            let after = places::with_table(shelf, target, made.rows, made.factors);
            let performed = Performed {
                bound: made.bound,
                steps: made.steps,
            };
            Operated {
                shelf: after,
                answer: Ok(performed),
            }
        }
        Err(why) => Operated {
            shelf,
            answer: Err(why),
        },
    }
}

// What a build answers: it works no minor, so that there are no steps to tell.
pub fn filled(x: Operated) -> Filled
    ensures { result ≡ filled_by x }
{
    Filled {
        shelf: x.shelf,
        answer: x.answer.map(|done| done.bound),
    }
}

// The transpose: factors exchanged, no rounding and no steps.
pub fn transposed(shelf: Shelf, source: usize, target: usize) -> Proposal
    requires { Good shelf }
    ensures value { result ≡ transpose_proposal shelf source target }
    ensures keepable { Keepable target result }
{
    judge::one_source(shelf, source, target)?;
    Ok(Refactored {
        factors: table::exchanged(places::table_at(shelf, source)),
        rows: places::rows_at(shelf, source),
        bound: 0,
        steps: 0,
    })
}

// The matrix of powers of time stamps. No exponent is outside -1000 to 1000, so that is not tested.
pub fn built(shelf: Shelf, target: usize, stamps: &[u64]) -> Proposal
    requires { Good shelf }
    ensures value { result ≡ build_proposal shelf target stamps.now }
    ensures keepable { Keepable target result }
{
    judge::target(shelf, target)?;
    refuse_if(stamps::mistimed(stamps), Reason::WrongStamps)?;
    Ok(Refactored {
        factors: stamps::table(stamps),
        rows: stamps.len(),
        bound: 11,
        steps: 0,
    })
}

// What the rule handed back: no result where a new factor has an exponent outside -1000 to 1000.
fn ranged(made: Refactored) -> Proposal
    ensures { result ≡ ranged_of made }
{
    let beyond = table::outside(made.factors);
    refuse_if(beyond, Reason::ExponentOutOfRange)?;
    Ok(made)
}

// The words of one to six steps, joined: the rule is run once.
pub fn joined(shelf: Shelf, recipe: Recipe, target: usize) -> Proposal
    requires { Good shelf × (1 ≤ recipe.count) × (recipe.count ≤ 6) }
    ensures value { result ≡ proposed (sources_to (rows_at shelf) (places_in recipe) target) (joined_rows shelf recipe) (joined_at shelf recipe) }
    ensures keepable { Keepable target result }
{
    judge::sources_to(shelf, recipe, target)?;
    let n = places::rows_at(shelf, recipe.steps[0].place);
    let mut letters = [0u16; 342];
    let mut sources = [0u64; 768];
    let word = word::of_recipe(shelf, recipe, n, &mut letters, &mut sources);
    let all = rowset::run(1, n);
    ranged(rule::work(word, &letters, &sources, table::blank(), all, all, 0))
}

// A recipe: the count of its steps is tested first of all.
pub fn counted(shelf: Shelf, recipe: Recipe, target: usize) -> Proposal
    requires { Good shelf }
    ensures value { result ≡ proposed (recipe_tests shelf recipe target) (joined_rows shelf recipe) (joined_at shelf recipe) }
    ensures keepable { Keepable target result }
{
    let miscounted = judge::miscounted(recipe.count);
    refuse_if(miscounted, Reason::WrongStepCount)?;
    joined(shelf, recipe, target)
}

// The row and column sets are masks.
pub fn submatrix(shelf: Shelf, source: usize, rows: u8, columns: u8, target: usize) -> Proposal
    requires { Good shelf }
    ensures value { result ≡ proposed (submatrix_tests shelf source rows columns target) (rows_at shelf source) (submatrix_at shelf source rows columns) }
    ensures keepable { Keepable target result }
{
    tests::submatrix(shelf, source, rows, columns, target)?;
    let n = places::rows_at(shelf, source);
    let factors = places::table_at(shelf, source);
    let mut letters = [0u16; 342];
    let mut sources = [0u64; 768];
    let word = word::of_source(Way::Plain, factors, n, &mut letters, &mut sources);
    let row_set = usize::from(rows);
    let column_set = usize::from(columns);
    ranged(rule::work(word, &letters, &sources, factors, row_set, column_set, 0))
}

// What remains after the first k rows and columns, which are joined to every row and column set.
pub fn schur(shelf: Shelf, source: usize, k: usize, target: usize) -> Proposal
    requires { Good shelf }
    ensures value { result ≡ proposed (clamped_tests shelf source k target) (rows_at shelf source) (schur_at shelf source k) }
    ensures keepable { Keepable target result }
{
    tests::clamped_to(shelf, source, k, target)?;
    let n = places::rows_at(shelf, source);
    let factors = places::table_at(shelf, source);
    let mut letters = [0u16; 342];
    let mut sources = [0u64; 768];
    let plain = word::of_source(Way::Plain, factors, n, &mut letters, &mut sources);
    let all = rowset::run(1, n);
    ranged(rule::work(plain, &letters, &sources, factors, all, all, k))
}
