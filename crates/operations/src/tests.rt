// The tests of rows chosen from a place, a line each: those of the places first, and then the choice: row and column sets, given as masks, or k rows clamped.
// Where a name ends in `_to`, there is a target.
ghost use Rattle.std.specs.Prelude.{◌≡◌};
ghost use Rattle.verdict.specs.Verdict.{first_of};
ghost use Rattle.places.specs.Shelf.{rows_at, Good};
ghost use Rattle.places.specs.Tests.{unfit};
ghost use Rattle.operations.specs.Operations.{set_tests, chosen_tests, submatrix_tests, clamped_tests};
ghost use Rattle.operations.specs.Forecast.{clamped_alone};

use crate::word;
use places::{Shelf, judge, rows_at};
use verdict::{Reason, Verdict, refuse_if};

pub fn sets(shelf: Shelf, source: usize, rows: u8, columns: u8) -> Verdict
    requires { Good shelf }
    ensures { result ≡ first_of (set_tests shelf source rows columns) }
{
    judge::source(shelf, source)?;
    refuse_if(unfit(shelf, source, rows, columns), Reason::WrongChoice)
}

fn sets_to(shelf: Shelf, source: usize, rows: u8, columns: u8, target: usize) -> Verdict
    requires { Good shelf }
    ensures { result ≡ first_of (chosen_tests shelf source rows columns target) }
{
    judge::one_source(shelf, source, target)?;
    refuse_if(unfit(shelf, source, rows, columns), Reason::WrongChoice)
}

// Whether row and column sets do not fit the matrix at a place.
fn unfit(shelf: Shelf, source: usize, rows: u8, columns: u8) -> bool
    requires { Good shelf }
    ensures { result ≡ unfit (rows_at shelf source) rows columns }
{
    let n = rows_at(shelf, source);
    judge::unfit(n, usize::from(rows), usize::from(columns))
}

// A submatrix: whether it is singular is asked of sets that fit.
pub fn submatrix(shelf: Shelf, source: usize, rows: u8, columns: u8, target: usize) -> Verdict
    requires { Good shelf }
    ensures { result ≡ first_of (submatrix_tests shelf source rows columns target) }
{
    sets_to(shelf, source, rows, columns, target)?;
    let n = rows_at(shelf, source);
    let factors = places::table_at(shelf, source);
    refuse_if(word::is_zero(factors, n, rows, columns), Reason::Singular)
}

pub fn clamped(shelf: Shelf, source: usize, k: usize) -> Verdict
    ensures { result ≡ first_of (clamped_alone shelf source k) }
{
    judge::source(shelf, source)?;
    refuse_if(
        judge::misclamped(rows_at(shelf, source), k),
        Reason::WrongChoice,
    )
}

pub fn clamped_to(shelf: Shelf, source: usize, k: usize, target: usize) -> Verdict
    ensures { result ≡ first_of (clamped_tests shelf source k target) }
{
    judge::one_source(shelf, source, target)?;
    refuse_if(
        judge::misclamped(rows_at(shelf, source), k),
        Reason::WrongChoice,
    )
}
