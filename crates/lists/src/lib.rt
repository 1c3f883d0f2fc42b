// Lists of signed items: carried through the word of a matrix, and their reversals counted.
#![tactic(auto)]

ghost use Rattle.std.specs.Prelude.{◌≡◌, ◌≤◌, take};
ghost use Rattle.lists.specs.Lists.{item_outside, any_outside, carry_tests, items_after_carry, reversals_call, reversals_report};
ghost use Rattle.lists.specs.Promise.{Steady};
ghost use Rattle.verdict.specs.Verdict.{first_of};
ghost use Rattle.number.specs.Number.{Ranged};
ghost use Rattle.words.specs.Sources.{Each};
ghost use Rattle.table.specs.Table.{factors_of};

use number::Number;
use number::signed::Signed;
use verdict::{Reason, Refusal, Verdict, refuse_if};

mod carrying; // carrying.rt: items through a word

// How many reversals a list of 1 to 8 items has.
pub fn count_reversals(items: &[i64]) -> Result<u64, Refusal>
    ensures { reversals_report result ≡ reversals_call items.now }
{
    let Some(list) = items::read(items, 1, 8) else {
        return Err(Reason::WrongList.into());
    };
    Ok(reversals::count(list.items, list.count))
}

// Not zero, and with an exponent outside -1000 to 1000.
fn outside(a: Signed) -> bool
    ensures { result ≡ item_outside a }
{
    a.size.m != 0 && !a.size.in_range()
}

// Whether one of the first n of eight items is outside.
fn any_outside(v: [Signed; 8], n: usize) -> bool
    requires { n ≤ 8 }
    ensures { result ≡ any_outside (take n v) }
{
    v[..n].iter().any(|a| outside(*a))
}

// Carries the items through the word of n rows with these factors, stored or zero, that of row i and column j at (i - 1) * 8 + (j - 1), into `out`.
pub fn carry(factors: [Number; 64], n: usize, items: &[i64], out: &mut [i64]) -> Verdict
    requires { (1 ≤ n) × (n ≤ 8) × Each (Ranged 1000) n (factors_of factors) }
    ensures value { result ≡ first_of (carry_tests n (factors_of factors) items.now out.old) }
    ensures out_after { out.new ≡ items_after_carry n (factors_of factors) items.now out.old }
    ensures steady { Steady result items.now out.new }
{
    let Some(list) = items::read(items, n, n) else {
        return Err(Reason::WrongList.into());
    };
    let u = carrying::through(list.items, factors, n);
    refuse_if(any_outside(u, n), Reason::ExponentOutOfRange)?;
    refuse_if(out.len() < 3 * n, Reason::OutputTooShort)?;
    items::write(u, n, out);
    Ok(())
}
