// What a place of the shelf holds.
ghost use Rattle.lines.specs.Text.{Puts};
ghost use Rattle.places.specs.Shelf.{Good};
ghost use Rattle.std.specs.Prelude.{[]};
ghost use Rattle.shelf.specs.Reports.{factor_report};
ghost use Rattle.answers.specs.Answers.{report_text};
ghost use Rattle.answers.specs.Matrix.{row_text, factors_text, place_text};

use crate::{put_count, put_number};
use shelf::{Shelf, Value};

// A factor, behind a space.
pub fn put_factor(out: &mut [u8], at: usize, factor: Value) -> usize
    ensures { Puts out.old at (report_text [] (factor_report factor)) out.new result }
{
    put_number(out, at, factor.mantissa, factor.exponent)
}

// The factors of row i.
fn put_row(out: &mut [u8], at: usize, shelf: Shelf, place: usize, n: usize, i: usize) -> usize
    requires { Good shelf }
    ensures { Puts out.old at (row_text shelf place n i) out.new result }
{
    let mut to = at;
    for j in 1..=n {
        to = put_factor(out, to, shelf::factor_at(shelf, place, i, j));
    }
    to
}

// The factors of n rows.
fn put_factors(out: &mut [u8], at: usize, shelf: Shelf, place: usize, n: usize) -> usize
    requires { Good shelf }
    ensures { Puts out.old at (factors_text shelf place n) out.new result }
{
    let mut to = at;
    for i in 1..=n {
        to = put_row(out, to, shelf, place, n, i);
    }
    to
}

// `empty`, or `matrix N` and the mantissa and exponent of each factor.
pub fn put_place(out: &mut [u8], at: usize, shelf: Shelf, place: usize) -> usize
    requires { Good shelf }
    ensures { Puts out.old at (place_text shelf place) out.new result }
{
    let n = shelf::rows_at(shelf, place);
    if n == 0 {
        return lines::put(out, at, b"empty");
    }
    let first = put_count(out, at, b"matrix", n as u64);
    put_factors(out, first, shelf, place, n)
}
