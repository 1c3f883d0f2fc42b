// The steps of an operation by its sizes alone (document 02, (k)). Nothing is walked.
ghost use Rattle.std.specs.Prelude.{◌≡◌, ◌+◌, ◌≤◌};
ghost use Rattle.words.specs.Effort.{minor_foretold, result_steps};

use rowset::sets;

// The k rows of a result of m joined sources of n rows, with so many rows clamped before them. The sets of clamped + p out of n - 1 rows stand for the two
// minors on the diagonal in row p + 1 of the result, and four times for each row further down.
pub fn of_sizes(m: usize, n: usize, clamped: usize, k: usize) -> usize
    requires { (m ≤ 6) × (1 ≤ n) × (n ≤ 8) × (clamped + k ≤ 8) }
    ensures { result ≡ result_steps (λ p. minor_foretold m n (clamped + p)) k }
{
    let mut sum: usize = 0;
    for p in 0..k {
        sum += (4 * (k - (p + 1)) + 1) * sets::sets_of(n - 1, clamped + p);
    }
    m * (n * n - n) * sum
}
