// The bounds returned with a result, by the source's size from 1 to 8: document 01's table for one source, and from it the bounds of any number of steps.
ghost use Rattle.std.specs.Prelude.{◌≡◌, ◌≤◌};
ghost use Rattle.words.specs.Operation.{bound_of};

const ONE_SOURCE: [u32; 8] = [7, 27, 63, 115, 183, 267, 367, 483];

fn one_source(n: usize) -> u32
    requires { (1 ≤ n) × (n ≤ 8) }
    ensures { result ≡ bound_of 1 n }
{
    ONE_SOURCE[n - 1]
}

// Each step adds as much as the first one; with two it is document 01's table for a product.
pub fn of_steps(m: usize, n: usize) -> u32
    requires { (m ≤ 6) × (1 ≤ n) × (n ≤ 8) }
    ensures { result ≡ bound_of m n }
{
    m as u32 * (one_source(n) - 3) + 3
}
