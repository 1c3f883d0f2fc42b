// New factors (document 01, "The rounded rule"; with zeros, document 02, (e)): each from minors of a joined word, worked afresh, by the formulas; and `work`,
// which every operation calls. The steps of the minors are added up (document 02, (k)).
#![tactic(auto)]

ghost use Rattle.std.specs.Prelude.{◌≡◌};
ghost use Rattle.walk.specs.Lent.{AllSpelled};
ghost use Rattle.rule.specs.Chosen.{chosen_of, Workable};
ghost use Rattle.rule.specs.Result.{work_of};

use formulas::Run;
use number::Number;
use walk::Joined;

mod bounds; // bounds.rt: the bounds by size
mod formulas; // formulas.rt: the minors and the factors of a run

// A joined word with the chosen rows and columns of its matrix. The first ones, so many of both as are clamped, are joined to every set of the others.
#[derive(Clone, Copy)]
pub struct Chosen {
    pub word: Joined,
    pub rows: usize,
    pub columns: usize,
    pub clamped: usize,
}

// The new factors, in rows of eight, how many rows they have, their bound, and the steps that were made.
#[derive(Clone, Copy)]
pub struct Refactored {
    pub factors: [Number; 64],
    pub rows: usize,
    pub bound: u32,
    pub steps: usize,
}

// The new factors of the chosen rows and columns of a joined word, the first of them clamped, put over the 64 numbers of a table.
pub fn work(
    word: Joined,
    letters: &[u16; 342],
    sources: &[u64; 768],
    table: [Number; 64],
    rows: usize,
    columns: usize,
    clamped: usize,
) -> Refactored
    requires { Workable (chosen_of word rows columns clamped) sources.now × AllSpelled word letters.now }
    ensures { result ≡ work_of (chosen_of word rows columns clamped) sources.now }
{
    let chosen = Chosen {
        word,
        rows,
        columns,
        clamped,
    };
    let size = rowset::count(rows) - clamped;
    let tables = rowset::lent::tables(word.n);
    let lower = presence::present(word, letters, sources, columns);
    let upper = presence::present_turned(word, letters, sources, rows);
    let run = Run {
        chosen,
        size,
        tables: &tables,
        letters,
        sources,
        lower: &lower,
        upper: &upper,
    };
    run.refactored(table)
}
