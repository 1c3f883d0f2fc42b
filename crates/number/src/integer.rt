// Whole numbers with a sign. What each does is std's; the names and clauses are those that the crates above prove with.
ghost use Rattle.std.specs.Prelude.{◌≡◌, ◌^◌, ◌<◌, pos, nat_abs, neg_ℤ};
ghost use Rattle.number.specs.Integer.{is_negative};

pub fn is_negative(x: i64) -> bool
    ensures { result ≡ is_negative x }
{
    x.is_negative()
}

// x without its sign.
pub fn magnitude(x: i64) -> u64
    ensures { result ≡ nat_abs x }
{
    x.unsigned_abs()
}

pub fn plus(n: u64) -> i64
    requires { n < 2 ^ 63 }
    ensures { result ≡ pos n }
{
    n as i64
}

pub fn minus(n: u64) -> i64
    requires { n < 2 ^ 63 }
    ensures { result ≡ neg_ℤ (pos n) }
{
    -plus(n)
}
