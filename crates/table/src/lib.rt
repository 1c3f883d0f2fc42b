// A table: the factors of a matrix as 64 numbers in rows of eight. The factor of row i and column j stands at (i - 1) * 8 + (j - 1); a number that is no
// factor is zero.
#![tactic(auto)]

ghost use Rattle.std.specs.Prelude.{◌≡◌, ◌≤◌, replicate};
ghost use Rattle.number.specs.Number.{zero_number};
ghost use Rattle.words.specs.Word.{exchanged};
ghost use Rattle.table.specs.Table.{factors_of, cell_at, table_of, square_of, packed_of, outside};

use number::Number;
use std::array;

// No factor.
pub fn blank() -> [Number; 64]
    ensures { result ≡ replicate 64 zero_number }
{
    [Number::zero(); 64]
}

// What stands at k in the table of a matrix of n rows whose factors stand one behind the other, row by row.
fn cell(numbers: &[Number; 64], n: usize, k: usize) -> Number
    requires { n ≤ 8 }
    ensures { result ≡ cell_at n (square_of n numbers.now) k }
{
    let i = k / 8;
    let j = k % 8;
    if i < n && j < n {
        numbers[i * n + j]
    } else {
        Number::zero()
    }
}

// The table of such a matrix.
pub fn spread(numbers: [Number; 64], n: usize) -> [Number; 64]
    requires { n ≤ 8 }
    ensures { result ≡ table_of n (square_of n numbers) }
{
    array::from_fn(|k| cell(&numbers, n, k))
}

// And back: the factors of n rows, one behind the other, and zeros behind them.
// A loop by the index, since only the first n * n are put, each from a place that its number tells.
pub fn packed(t: [Number; 64], n: usize) -> [Number; 64]
    requires { n ≤ 8 }
    ensures { result ≡ packed_of n t }
{
    let mut r = blank();
    for k in 0..n * n {
        r[k] = t[k / n * 8 + k % n];
    }
    r
}

// The factors of (i, j) and (j, i) exchanged.
pub fn exchanged(t: [Number; 64]) -> [Number; 64]
    ensures { result ≡ table_of 8 (exchanged (factors_of t)) }
{
    array::from_fn(|k| t[k % 8 * 8 + k / 8])
}

// A number has an exponent outside -1000 to 1000.
pub fn outside(t: [Number; 64]) -> bool
    ensures { result ≡ outside t }
{
    t.iter().any(|a| !a.in_range())
}
