// The shelf's calls for programs in C and Rust. Nothing proves what such a caller hands over, so each call that takes a shelf tests it first:
// one that these calls cannot have made is answered with 255 and handed back.
#![tactic(auto)]

ghost use Rattle.std.specs.Prelude.{◌≡◌, length};
ghost use Rattle.reader.specs.Matrix.{behind_of};
ghost use Rattle.places.specs.Shelf.{empty_shelf, rows_at};
ghost use Rattle.lists.specs.Lists.{reversals_call};
ghost use Rattle.arithmetic.specs.Arithmetic.{arithmetic_call};
ghost use Rattle.notices.specs.Sentence.{notice, sentence_report, bytes_after_sentence};
ghost use Rattle.operations.specs.Operations.{product_at, inverse_at, converse_at, submatrix_at, schur_at};
ghost use Rattle.shelf.specs.Run.{load, drop, write, byte_length, product, inverse, converse, submatrix, schur, transpose, build, minor, carry, rows, factor};
ghost use Rattle.tnb_c.specs.Answers.{checked, answer_of, length_of, value_of, worked_of, status_of};
ghost use Rattle.tnb_c.specs.Answers.{Answered, BuiltAnswer, MeasuredAnswer, SteadyStatus, LoggedAnswer, SentenceAnswer};

use arithmetic::Operator;
use places::{Shelf, check};

mod answers; // answers.rt: the shelf's answers as structs
mod forecasts; // forecasts.rt: steps told without working them
mod recipe; // recipe.rt: recipes and their steps

// What a call answers that may change the shelf: 0, or the number of the refusal with its offset; the bound of an operation or a build and the steps of an
// operation, else 0; and the shelf after it.
#[repr(C)]
#[derive(Clone, Copy)]
pub struct Answer {
    pub number: u8,
    pub bound: u32,
    pub offset: usize,
    pub steps: usize,
    pub shelf: Shelf,
}

// Whether a call was accepted that answers nothing else.
#[repr(C)]
#[derive(Clone, Copy)]
pub struct Status {
    pub number: u8,
    pub offset: usize,
}

// How many bytes were written or will be, reversals counted, or rows a place has.
#[repr(C)]
#[derive(Clone, Copy)]
pub struct Length {
    pub number: u8,
    pub offset: usize,
    pub length: usize,
}

// How many steps an operation will make.
#[repr(C)]
#[derive(Clone, Copy)]
pub struct Steps {
    pub number: u8,
    pub offset: usize,
    pub steps: usize,
}

// The mantissa and the exponent of a minor or a factor.
#[repr(C)]
#[derive(Clone, Copy)]
pub struct Value {
    pub number: u8,
    pub offset: usize,
    pub mantissa: u64,
    pub exponent: i64,
}

// A number worked from two others, and its rest: an odd whole number with a sign and an exponent, or 0 with exponent 0.
#[repr(C)]
#[derive(Clone, Copy)]
pub struct Worked {
    pub number: u8,
    pub offset: usize,
    pub mantissa: u64,
    pub exponent: i64,
    pub rest: i64,
    pub rest_exponent: i64,
}

// A shelf with all places empty.
#[unsafe(no_mangle)]
pub extern "C" fn tnb_new() -> Shelf
    ensures { result ≡ empty_shelf }
{
    places::new()
}

// Loads a place from bytes.
#[unsafe(no_mangle)]
pub extern "C" fn tnb_load(shelf: Shelf, place: usize, bytes: &[u8]) -> Answer
    ensures { result ≡ answer_of (checked shelf (load place bytes.now)) }
{
    if check::is_good(shelf) {
        return shelf::load(shelf, place, bytes).into();
    }
    Answer::foreign(shelf)
}

// Empties a place.
#[unsafe(no_mangle)]
pub extern "C" fn tnb_drop(shelf: Shelf, place: usize) -> Answer
    ensures { result ≡ answer_of (checked shelf (drop place)) }
{
    if check::is_good(shelf) {
        return shelf::drop_place(shelf, place).into();
    }
    Answer::foreign(shelf)
}

// Writes a place to lent bytes.
#[unsafe(no_mangle)]
pub extern "C" fn tnb_write(shelf: Shelf, place: usize, out: &mut [u8]) -> Length
    ensures value { result ≡ length_of (checked shelf (write place out.old)).report }
    ensures out_after { out.new ≡ (checked shelf (write place out.old)).bytes }
{
    if check::is_good(shelf) {
        return shelf::write(shelf, place, out).into();
    }
    Length::foreign()
}

// How many bytes writing a place will take.
#[unsafe(no_mangle)]
pub extern "C" fn tnb_byte_length(shelf: Shelf, place: usize) -> Length
    ensures value { result ≡ length_of (checked shelf (byte_length place)).report }
    ensures measured_answer { MeasuredAnswer shelf place result }
{
    if check::is_good(shelf) {
        return shelf::length(shelf, place).into();
    }
    Length::foreign()
}

// The product of two places, left times right, to an empty place.
#[unsafe(no_mangle)]
pub extern "C" fn tnb_product(shelf: Shelf, left: usize, right: usize, target: usize) -> Answer
    ensures value { result ≡ answer_of (checked shelf (product left right target)) }
    ensures answered { Answered result target (rows_at shelf left) (product_at shelf left right) }
{
    if check::is_good(shelf) {
        return operations::product(shelf, left, right, target).into();
    }
    Answer::foreign(shelf)
}

// The re-signed inverse of a place, to an empty place.
#[unsafe(no_mangle)]
pub extern "C" fn tnb_inverse(shelf: Shelf, source: usize, target: usize) -> Answer
    ensures value { result ≡ answer_of (checked shelf (inverse source target)) }
    ensures answered { Answered result target (rows_at shelf source) (inverse_at shelf source) }
{
    if check::is_good(shelf) {
        return operations::inverse(shelf, source, target).into();
    }
    Answer::foreign(shelf)
}

// The converse of a place, to an empty place.
#[unsafe(no_mangle)]
pub extern "C" fn tnb_converse(shelf: Shelf, source: usize, target: usize) -> Answer
    ensures value { result ≡ answer_of (checked shelf (converse source target)) }
    ensures answered { Answered result target (rows_at shelf source) (converse_at shelf source) }
{
    if check::is_good(shelf) {
        return operations::converse(shelf, source, target).into();
    }
    Answer::foreign(shelf)
}

// The chosen rows and columns of a place, given as masks, to an empty place.
#[unsafe(no_mangle)]
pub extern "C" fn tnb_submatrix(
    shelf: Shelf,
    source: usize,
    rows: u8,
    columns: u8,
    target: usize,
) -> Answer
    ensures value { result ≡ answer_of (checked shelf (submatrix source rows columns target)) }
    ensures answered { Answered result target (rows_at shelf source) (submatrix_at shelf source rows columns) }
{
    if check::is_good(shelf) {
        return operations::submatrix(shelf, source, rows, columns, target).into();
    }
    Answer::foreign(shelf)
}

// The Schur complement of the first k rows and columns of a place, to an empty place: what remains once the first k control points are clamped.
#[unsafe(no_mangle)]
pub extern "C" fn tnb_schur(shelf: Shelf, source: usize, k: usize, target: usize) -> Answer
    ensures value { result ≡ answer_of (checked shelf (schur source k target)) }
    ensures answered { Answered result target (rows_at shelf source) (schur_at shelf source k) }
{
    if check::is_good(shelf) {
        return operations::schur(shelf, source, k, target).into();
    }
    Answer::foreign(shelf)
}

// The transpose of a place, to an empty place.
#[unsafe(no_mangle)]
pub extern "C" fn tnb_transpose(shelf: Shelf, source: usize, target: usize) -> Answer
    ensures { result ≡ answer_of (checked shelf (transpose source target)) }
{
    if check::is_good(shelf) {
        return operations::transpose(shelf, source, target).into();
    }
    Answer::foreign(shelf)
}

// The matrix whose row i holds the powers 0 to n - 1 of stamp i, from n time stamps, 1 to 8, to an empty place.
#[unsafe(no_mangle)]
pub extern "C" fn tnb_build(shelf: Shelf, target: usize, stamps: &[u64]) -> Answer
    ensures value { result ≡ answer_of (checked shelf (build target stamps.now)) }
    ensures built_answer { BuiltAnswer result target stamps.now }
{
    if check::is_good(shelf) {
        return operations::build(shelf, target, stamps).into();
    }
    Answer::foreign(shelf)
}

// A minor of a place, of the rows and columns of two masks.
#[unsafe(no_mangle)]
pub extern "C" fn tnb_minor(shelf: Shelf, place: usize, rows: u8, columns: u8) -> Value
    ensures { result ≡ value_of (checked shelf (minor place rows columns)).report }
{
    if check::is_good(shelf) {
        return operations::minor(shelf, place, rows, columns).into();
    }
    Value::foreign()
}

// The rows of the matrix at a place, 0 where the place is empty or above 7.
#[unsafe(no_mangle)]
pub extern "C" fn tnb_rows(shelf: Shelf, place: usize) -> Length
    ensures { result ≡ length_of (checked shelf (rows place)).report }
{
    if check::is_good(shelf) {
        return Length::of(places::rows_at(shelf, place));
    }
    Length::foreign()
}

// The factor of row i and column j of a place, zero where the place has none.
#[unsafe(no_mangle)]
pub extern "C" fn tnb_factor(shelf: Shelf, place: usize, i: usize, j: usize) -> Value
    ensures { result ≡ value_of (checked shelf (factor place i j)).report }
{
    if check::is_good(shelf) {
        return shelf::factor_at(shelf, place, i, j).into();
    }
    Value::foreign()
}

// How many bytes lie behind the first matrix; all, where a load would refuse that matrix for a fault in its own bytes.
#[unsafe(no_mangle)]
pub extern "C" fn tnb_rest(bytes: &[u8]) -> usize
    ensures { result ≡ length (behind_of bytes.now) }
{
    let part = reader::behind(bytes);
    part.len()
}

// Carries as many items as the matrix of a place has rows into a second list, which has no more reversals. An item is three numbers: sign, mantissa, exponent.
#[unsafe(no_mangle)]
pub extern "C" fn tnb_carry(shelf: Shelf, place: usize, items: &[i64], out: &mut [i64]) -> Status
    ensures value { result ≡ status_of (checked shelf (carry place items.now out.old)).report }
    ensures out_after { out.new ≡ (checked shelf (carry place items.now out.old)).items }
    ensures steady_status { SteadyStatus result items.now out.new }
{
    if check::is_good(shelf) {
        return shelf::carry(shelf, place, items, out).into();
    }
    Status::foreign()
}

// Counts the reversals of a list of 1 to 8 items.
#[unsafe(no_mangle)]
pub extern "C" fn tnb_reversals(items: &[i64]) -> Length
    ensures { result ≡ length_of (reversals_call items.now) }
{
    lists::count_reversals(items).into()
}

// Works two positive items. No shelf is handed over, so there is none to test.
fn worked_by(operator: Operator, items: &[i64]) -> Worked
    ensures value { result ≡ worked_of (arithmetic_call operator items.now) }
    ensures logged_answer { LoggedAnswer operator result items.now }
{
    arithmetic::arithmetic(operator, items).into()
}

// The sum of two positive items. The rest: first plus second, minus the result.
#[unsafe(no_mangle)]
pub extern "C" fn tnb_add(items: &[i64]) -> Worked
    ensures value { result ≡ worked_of (arithmetic_call Operator.Add items.now) }
    ensures logged_answer { LoggedAnswer Operator.Add result items.now }
{
    worked_by(Operator::Add, items)
}

// Their product. The rest: first times second, minus the result.
#[unsafe(no_mangle)]
pub extern "C" fn tnb_multiply(items: &[i64]) -> Worked
    ensures value { result ≡ worked_of (arithmetic_call Operator.Multiply items.now) }
    ensures logged_answer { LoggedAnswer Operator.Multiply result items.now }
{
    worked_by(Operator::Multiply, items)
}

// Their quotient, first over second. The rest: first, minus the result times second.
#[unsafe(no_mangle)]
pub extern "C" fn tnb_divide(items: &[i64]) -> Worked
    ensures value { result ≡ worked_of (arithmetic_call Operator.Divide items.now) }
    ensures logged_answer { LoggedAnswer Operator.Divide result items.now }
{
    worked_by(Operator::Divide, items)
}

// Writes the sentence of a refusal's number, its offset and up to seven places to lent bytes; 220 are always enough. No shelf is handed over.
#[unsafe(no_mangle)]
pub extern "C" fn tnb_sentence(number: u64, offset: u64, places: &[u64], out: &mut [u8]) -> Length
    ensures value { result ≡ length_of (sentence_report (notice number offset places.now) out.old) }
    ensures out_after { out.new ≡ bytes_after_sentence (notice number offset places.now) out.old }
    ensures sentence_answer { SentenceAnswer (notice number offset places.now) out.old out.new result }
{
    sentences::sentence(number, offset, places, out).into()
}
