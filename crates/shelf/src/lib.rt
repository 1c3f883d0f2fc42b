// The shelf of eight matrices, and its calls. A shelf goes in by value and comes back; a refused call hands it back as it was.
#![tactic(auto)]

ghost use Rattle.std.specs.Prelude.{◌≡◌, Err};
ghost use Rattle.places.specs.Shelf.{Good};
ghost use Rattle.verdict.specs.Report.{verdict_report};
ghost use Rattle.writer.specs.Encoding.{written_report};
ghost use Rattle.lists.specs.Promise.{Steady};
ghost use Rattle.shelf.specs.Calls.{load_call, drop_call, write_call, length_call, Measuring, carry_call, factor_call};
ghost use Rattle.shelf.specs.Reports.{changed_outcome, factor_report};
ghost use Rattle.shelf.specs.Changed.{changed_by, loaded};

pub use arithmetic::{Operator, Worked, arithmetic};
pub use lists::count_reversals;
pub use operations::{
    Filled, Operated, Performed, Task, Value, build, converse, forecast, forecast_recipe, inverse,
    minor, perform, perform_recipe, product, schur, submatrix, transpose,
};
use places::judge;
pub use places::{Shelf, new, rows_at};
pub use reader::behind;
pub use recipes::{Recipe, RecipeStep, Way};
pub use sentences::sentence;
pub use verdict::{Reason, Refusal, Verdict};

// The shelf after a call that only changes it.
#[derive(Clone, Copy)]
pub struct Changed {
    pub shelf: Shelf,
    pub verdict: Verdict,
}

// A call that was turned down hands the shelf back as it was.
fn unchanged(shelf: Shelf, why: Refusal) -> Changed
    ensures { result ≡ changed_by shelf (Err why) }
{
    Changed {
        shelf,
        verdict: Err(why),
    }
}

// The new shelf, or the old one and why.
fn answered(shelf: Shelf, new: Result<Shelf, Refusal>) -> Changed
    ensures { result ≡ changed_by shelf new }
{
    match new {
        Ok(new) => Changed {
            shelf: new,
            verdict: Ok(()),
        },
        Err(why) => unchanged(shelf, why),
    }
}

// The shelf with the matrix that bytes hold at a place.
fn loaded(shelf: Shelf, place: usize, bytes: &[u8]) -> Result<Shelf, Refusal>
    requires { Good shelf }
    ensures { result ≡ loaded shelf place bytes.now }
{
    judge::target(shelf, place)?;
    let read = reader::read_matrix(bytes)?;
    let bytes_behind = read.next < bytes.len();
    if bytes_behind {
        return Err(Refusal {
            reason: Reason::BytesBehind,
            offset: read.next,
        });
    }
    let factors = table::spread(read.numbers, read.rows);
    Ok(places::with_table(shelf, place, read.rows, factors))
}

// Loads a place from bytes.
pub fn load(shelf: Shelf, place: usize, bytes: &[u8]) -> Changed
    requires { Good shelf }
    ensures result_value { changed_outcome result ≡ load_call shelf place bytes.now }
    ensures good { Good result.shelf }
{
    answered(shelf, loaded(shelf, place, bytes))
}

// Empties a place, which can then be filled again. No `?`: a shelf in a `Result` is copied once more, for a quarter more time and half as much stack again.
pub fn drop_place(shelf: Shelf, place: usize) -> Changed
    requires { Good shelf }
    ensures result_value { changed_outcome result ≡ drop_call shelf place }
    ensures good { Good result.shelf }
{
    match judge::source(shelf, place) {
        Ok(()) => Changed {
            shelf: places::with_table(shelf, place, 0, table::blank()),
            verdict: Ok(()),
        },
        Err(why) => unchanged(shelf, why),
    }
}

// Writes a place to lent bytes. No byte past the matrix's length is changed, and none where the call is turned down.
pub fn write(shelf: Shelf, place: usize, out: &mut [u8]) -> Result<usize, Refusal>
    requires { Good shelf }
    ensures result_value { written_report result ≡ (write_call shelf place out.old).report }
    ensures out_after { out.new ≡ (write_call shelf place out.old).bytes }
{
    judge::source(shelf, place)?;
    let n = places::rows_at(shelf, place);
    let factors = table::packed(places::table_at(shelf, place), n);
    writer::write_matrix(factors, n, out)
}

// How many bytes writing a place will take. Nothing is written.
// It judges and packs as `write` does: a function for both would return rows with factors, and be no plainer.
pub fn length(shelf: Shelf, place: usize) -> Result<usize, Refusal>
    requires { Good shelf }
    ensures result_value { written_report result ≡ length_call shelf place }
    ensures measuring { Measuring shelf place (written_report result) }
{
    judge::source(shelf, place)?;
    let n = places::rows_at(shelf, place);
    let factors = table::packed(places::table_at(shelf, place), n);
    Ok(writer::matrix_length(factors, n))
}

// Carries a list of items through the word of a place, to a second list, past whose first n items nothing is changed.
// An item is lent as three numbers: sign, mantissa, exponent. The list written has no more reversals than the list given.
pub fn carry(shelf: Shelf, place: usize, items: &[i64], out: &mut [i64]) -> Verdict
    requires { Good shelf }
    ensures result_value { verdict_report result ≡ (carry_call shelf place items.now out.old).report }
    ensures out_after { out.new ≡ (carry_call shelf place items.now out.old).items }
    ensures steady { Steady result items.now out.new }
{
    judge::source(shelf, place)?;
    let n = places::rows_at(shelf, place);
    lists::carry(places::table_at(shelf, place), n, items, out)
}

// The factor of row i and column j of a place, zero where the place holds none.
pub fn factor_at(shelf: Shelf, place: usize, i: usize, j: usize) -> Value
    requires { Good shelf }
    ensures { factor_report result ≡ factor_call shelf place i j }
{
    let n = rows_at(shelf, place);
    let absent = i < 1 || j < 1 || n < i || n < j;
    if absent {
        return Value {
            mantissa: 0,
            exponent: 0,
        };
    }
    let t = places::table_at(shelf, place);
    let a = t[(i - 1) * 8 + (j - 1)];
    Value {
        mantissa: a.m,
        exponent: a.exponent(),
    }
}
