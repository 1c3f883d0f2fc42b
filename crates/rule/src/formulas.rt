// A run of the rule: the minors that the formulas ask for, and the new factors made of them.
ghost use Rattle.std.specs.Prelude.{◌≡◌, true, false, cond, ◌+◌, ◌-◌, ◌^◌, ◌≤◌, ◌<◌};
ghost use Rattle.number.specs.Number.{rounded, Ranged};
ghost use Rattle.rowset.specs.Mask.{mask_count};
ghost use Rattle.words.specs.RowSet.{of_mask, rows};
ghost use Rattle.words.specs.Formula.{on_diagonal, banded_below};
ghost use Rattle.words.specs.Sources.{run_reach};
ghost use Rattle.words.specs.Effort.{four_steps, quotient_steps};
ghost use Rattle.table.specs.Table.{cell_at};
ghost use Rattle.rule.specs.Chosen.{size_of, Workable, Lent};
ghost use Rattle.rule.specs.Latest.{alone_of, with_row, Sides, LatestMask};
ghost use Rattle.rule.specs.Result.{cell_steps, work_of};
ghost use Rattle.rule.specs.Single.{workable-single};

use crate::{Chosen, Refactored, bounds};
use number::{Direction, Number};
use walk::Counted;

// Two sets; turned, exchanged.
fn in_order(turned: bool, i: usize, j: usize) -> (usize, usize)
    ensures { result ≡ cond turned (j, i) (i, j) }
{
    if turned { (j, i) } else { (i, j) }
}

// What a run works on, how many rows its new factors have, and what it is lent. Below the diagonal the sets of rows whose minors with the leading columns are
// not zero are held, above it the sets of columns. Two lifetimes, since a caller lends letters and sources each by its own.
#[derive(Clone, Copy)]
pub struct Run<'a, 'b> {
    pub chosen: Chosen,
    pub size: usize,
    pub tables: &'b [u8; 1408],
    pub letters: &'a [u16; 342],
    pub sources: &'b [u64; 768],
    pub lower: &'b [bool; 256],
    pub upper: &'b [bool; 256],
    pub ghost workable: { Workable chosen sources.now } by { workable-single chosen sources.now },
    pub ghost size_value: { size ≡ size_of chosen },
    pub ghost lent: { Lent chosen tables.now letters.now },
    pub ghost lower_sides: { Sides chosen sources.now false lower.now },
    pub ghost upper_sides: { Sides chosen sources.now true upper.now },
}

impl<'a, 'b> Run<'a, 'b> {
    ghost use Rattle.rule.specs.Run.{run_size, run_minors, run_steps, run_factors};

    // The minor with row set i and column set j, sets that count among the chosen ones behind the clamped, these joined to both; turned, the row set is j and
    // the column set i.
    fn minor(&self, i: usize, j: usize, turned: bool) -> Counted
        requires { (i < 2 ^ run_size self.now) × (j < 2 ^ run_size self.now) × (mask_count i ≡ mask_count j) }
        ensures number_value { result.number ≡ run_minors self.now turned (of_mask (run_size self.now) i) (of_mask (run_size self.now) j) }
        ensures ranged { Ranged (run_reach 6 8) result.number }
        ensures steps_value { (result.steps ≡ run_steps self.now (mask_count i)) × (result.steps ≤ 24000) }
    {
        let chosen = self.chosen;
        let (s, t) = in_order(turned, i, j);
        let rows = rowset::among(chosen.rows, rowset::with_first(s, chosen.clamped));
        let columns = rowset::among(chosen.columns, rowset::with_first(t, chosen.clamped));
        chosen
            .word
            .minor(self.tables, self.letters, self.sources, rows, columns)
    }

    // M(a..b | 1..m), for m rows a..b; turned, M(1..m | a..b).
    fn run_minor(&self, a: usize, b: usize, m: usize, turned: bool) -> Counted
        requires { (1 ≤ a) × (b ≤ run_size self.now) × (b + 1 ≡ a + m) }
        ensures number_value { result.number ≡ run_minors self.now turned (rows (run_size self.now) a b) (rows (run_size self.now) 1 m) }
        ensures ranged { Ranged (run_reach 6 8) result.number }
        ensures steps_value { (result.steps ≡ run_steps self.now m) × (result.steps ≤ 24000) }
    {
        let i = rowset::run(a, b);
        let j = rowset::run(1, m);
        self.minor(i, j, turned)
    }

    fn on_diagonal(&self, i: usize) -> Counted
        requires { (1 ≤ i) × (i ≤ run_size self.now) }
        ensures number_value { result.number ≡ on_diagonal rounded (run_size self.now) (run_minors self.now false) i }
        ensures steps_value { (result.steps ≡ run_steps self.now i + run_steps self.now (i - 1)) × (result.steps ≤ 96000) }
    {
        let upper = self.run_minor(1, i, i, false);
        let lower = self.run_minor(1, i - 1, i - 1, false);
        Counted {
            number: upper.number.div(lower.number, Direction::Nearest),
            steps: upper.steps + lower.steps,
        }
    }

    // R: the latest set of j - 1 rows, all before row i, whose minor with the columns 1..j-1 is not zero; turned, of columns: two calls, since
    // the sets and the Bools of a side belong together, and nothing is exchanged.
    fn latest(&self, i: usize, j: usize, turned: bool) -> usize
        requires { (1 ≤ j) × (j ≤ i) × (i ≤ run_size self.now) }
        ensures { LatestMask (run_size self.now) (run_minors self.now turned) i j result }
    {
        let chosen = self.chosen;
        if turned {
            presence::latest(self.upper, chosen.columns, chosen.clamped, i, j - 1)
        } else {
            presence::latest(self.lower, chosen.rows, chosen.clamped, i, j - 1)
        }
    }

    // M(R | 1..j-1), s being the mask of R.
    fn alone(&self, s: usize, i: usize, j: usize, turned: bool) -> Counted
        requires range { (1 ≤ j) × (j ≤ i) × (i ≤ run_size self.now) }
        requires latest_mask { LatestMask (run_size self.now) (run_minors self.now turned) i j s }
        ensures number_value { result.number ≡ alone_of (run_size self.now) (run_minors self.now turned) i j }
        ensures ranged { Ranged (run_reach 6 8) result.number }
        ensures steps_value { (result.steps ≡ run_steps self.now (j - 1)) × (result.steps ≤ 24000) }
    {
        self.minor(s, rowset::run(1, j - 1), turned)
    }

    // M(R and i | 1..j), s being the mask of R.
    fn with_row(&self, s: usize, i: usize, j: usize, turned: bool) -> Counted
        requires range { (1 ≤ j) × (j ≤ i) × (i ≤ run_size self.now) }
        requires latest_mask { LatestMask (run_size self.now) (run_minors self.now turned) i j s }
        ensures number_value { result.number ≡ with_row (run_size self.now) (run_minors self.now turned) i j }
        ensures ranged { Ranged (run_reach 6 8) result.number }
        ensures steps_value { (result.steps ≡ run_steps self.now j) × (result.steps ≤ 24000) }
    {
        self.minor(rowset::replaced(s, i, i), rowset::run(1, j), turned)
    }

    // Below the diagonal, j < i; turned, the factor of row j and column i above it. All four minors are worked, where it is zero too.
    fn off_diagonal(&self, i: usize, j: usize, turned: bool) -> Counted
        requires { (1 ≤ j) × (j < i) × (i ≤ run_size self.now) }
        ensures number_value { result.number ≡ banded_below rounded (run_size self.now) (run_minors self.now turned) i j }
        ensures steps_value { (result.steps ≡ four_steps (run_steps self.now) j) × (result.steps ≤ 96000) }
    {
        let s = self.latest(i, j, turned);
        let t = self.latest(i - 1, j, turned);
        let corner = self.with_row(s, i, j, turned);
        let before = self.alone(t, i - 1, j, turned);
        let run = self.alone(s, i, j, turned);
        let above = self.with_row(t, i - 1, j, turned);
        let steps = corner.steps + before.steps + (run.steps + above.steps);
        let vanishes = corner.number.m == 0;
        if vanishes {
            return Counted {
                number: Number::zero(),
                steps,
            };
        }
        Counted {
            number: corner.number.mul(before.number, Direction::Nearest).div(
                run.number.mul(above.number, Direction::Nearest),
                Direction::Nearest,
            ),
            steps,
        }
    }

    fn factor(&self, i: usize, j: usize) -> Counted
        requires { (1 ≤ i) × (i ≤ run_size self.now) × (1 ≤ j) × (j ≤ run_size self.now) }
        ensures number_value { result.number ≡ run_factors self.now i j }
        ensures steps_value { (result.steps ≡ quotient_steps (run_steps self.now) i j) × (result.steps ≤ 96000) }
    {
        if i == j {
            self.on_diagonal(i)
        } else if j < i {
            self.off_diagonal(i, j, false)
        } else {
            self.off_diagonal(j, i, true)
        }
    }

    // The number at t of the new factors in rows of eight: zero past their rows and columns, which takes no steps.
    fn cell(&self, t: usize) -> Counted
        requires { t < 64 }
        ensures number_value { result.number ≡ cell_at (run_size self.now) (run_factors self.now) t }
        ensures steps_value { (result.steps ≡ cell_steps (run_size self.now) (run_steps self.now) t) × (result.steps ≤ 96000) }
    {
        let i = t / 8 + 1;
        let j = t % 8 + 1;
        if self.size < i || self.size < j {
            return Counted {
                number: Number::zero(),
                steps: 0,
            };
        }
        self.factor(i, j)
    }

    // The new factors, zero past their rows and columns, put over the 64 numbers of a table.
    pub fn refactored(&self, table: [Number; 64]) -> Refactored
        ensures { result ≡ work_of self.now.chosen self.now.sources.now }
    {
        let mut factors = table;
        let mut steps: usize = 0;
        for (t, number) in factors.iter_mut().enumerate() {
            let x = self.cell(t);
            *number = x.number;
            steps += x.steps;
        }
        Refactored {
            factors,
            rows: self.size,
            bound: bounds::of_steps(self.chosen.word.count, self.chosen.word.n),
            steps,
        }
    }
}
