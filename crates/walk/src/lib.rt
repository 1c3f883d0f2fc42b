// Minors (document 01, "The rounded rule"): a number for every set of k rows is held, and the letters of a word are applied from right to left.
// The sets that letters update are counted. The numbers are held in words, changed in place; the tables of row sets, the letters and the factors are lent by
// the caller, who made them once.
#![tactic(auto)]

ghost use Rattle.std.specs.Prelude.{◌≡◌, cond, ◌+◌, ◌-◌, ◌*◌, ◌^◌, ◌≤◌, ◌<◌};
ghost use Rattle.number.specs.Number.{rounded, Ranged, Stored};
ghost use Rattle.rowset.specs.Mask.{mask_count, count_below};
ghost use Rattle.rowset.specs.Sets.{Neighbours, begin_of, Tables};
ghost use Rattle.words.specs.RowSet.{of_mask};
ghost use Rattle.words.specs.Walk.{moved, scaled, act, walk, minor};
ghost use Rattle.words.specs.Operation.{step_word, joined_word};
ghost use Rattle.words.specs.Effort.{letter_steps, walk_steps};
ghost use Rattle.words.specs.Sources.{Walkable, Source, Sources};
ghost use Rattle.walk.specs.Letters.{middle};
ghost use Rattle.walk.specs.Packed.{held_by};
ghost use Rattle.walk.specs.Held.{Agree, Working, letter_reach, step_reach, scaled_reach};
ghost use Rattle.walk.specs.Steps.{scaling, entries_of, StoredEntries, divides, backwards, diagonal_of, letter_at};
ghost use Rattle.walk.specs.Lent.{table_in, step_in, Spelled, AllSpelled, steps_of};
ghost use Rattle.walk.specs.Single.{Tables-prop};

use number::{Direction, Number, packed};
use rowset::{lent, sets};

pub mod letters; // letters.rt: the letters of a word by their numbers
pub mod source; // source.rt: factors and letters as they are lent

// The way that a source's word is taken.
#[derive(Clone, Copy, PartialEq, Eq)]
pub enum Way {
    Plain,
    Inverted,
    Conversed,
    Transposed,
}

impl Way {
    fn divides(self) -> bool
        ensures { result ≡ divides self }
    {
        matches!(self, Way::Inverted)
    }

    fn backwards(self) -> bool
        ensures { result ≡ backwards self }
    {
        matches!(self, Way::Conversed)
    }
}

// A step of a joined word. The factor of row i and column j of step c stands at c * 64 + (i - 1) * 8 + (j - 1) of the lent factors.
#[derive(Clone, Copy)]
pub struct Step {
    pub way: Way,
}

// The first `count` of six steps, each of n rows: their words are joined in this order. No call allocates memory, so there is room for the longest.
#[derive(Clone, Copy)]
pub struct Joined {
    pub steps: [Step; 6],
    pub count: usize,
    pub n: usize,
}

// A number, and the steps that it took: how many row sets letters E and Et were applied to for it (document 02, (k)), those among them whose number a zero
// left as it was. (`steps` of `Joined` are sources, each with its way.)
#[derive(Clone, Copy)]
pub struct Counted {
    pub number: Number,
    pub steps: usize,
}

// The walk of one minor: its sets have k of n rows. A letter changes `many` of them, as many as there are sets of k - 1 of the other rows; in the tables the
// sets of k - 1 rows begin at `begin`. The tables, the letters and the factors are lent. Which step is walked, and which way, is told to each method: a walk
// is of the minor.
#[derive(Clone, Copy)]
struct Walk<'a> {
    tables: &'a [u8; 1408],
    letters: &'a [u16; 342],
    factors: &'a [u64; 768],
    n: usize,
    k: usize,
    begin: usize,
    many: usize,
    ghost rows: { (1 ≤ k) × (k ≤ n) × (n ≤ 8) },
    ghost begins: { begin ≡ begin_of (k - 1) },
    ghost counted: { (many ≡ count_below (k - 1) (2 ^ (n - 2))) × (many < 71) },
    ghost listed: { Tables n tables.now } by { Tables-prop n tables.now },
}

impl<'a> Walk<'a> {
    fn new(
        tables: &'a [u8; 1408],
        letters: &'a [u16; 342],
        factors: &'a [u64; 768],
        n: usize,
        k: usize,
    ) -> Walk<'a>
        requires { (1 ≤ k) × (k ≤ n) × (n ≤ 8) × Tables n tables.now }
        ensures rows { (result.n ≡ n) × (result.k ≡ k) }
        ensures lent { (result.letters.now ≡ letters.now) × (result.factors.now ≡ factors.now) }
    {
        Walk {
            tables,
            letters,
            factors,
            n,
            k,
            begin: lent::begin(k - 1),
            many: sets::sets_of(n.saturating_sub(2), k - 1),
        }
    }

    // Each set with row a and without row o gets its number plus w times that of the set with o in place of a, the product rounded first.
    // This is E_j(w) with a = j and o = j - 1, and Et_j(w) with a = j - 1 and o = j. In place, since no set that is read is changed.
    // A number that is zero is passed over: it adds nothing.
    fn moved(&self, u: &mut [u64; 70], a: usize, o: usize, w: Number)
        requires rows { Neighbours self.now.n a o }
        requires working { Working letter_reach self.now.n self.now.k (held_by u.old) × Ranged 1000 w }
        ensures { Agree self.now.n self.now.k (held_by u.new) (moved rounded a o w (held_by u.old)) }
    {
        for p in 0..self.many {
            let m = lent::set_in(self.tables, self.begin, self.k - 1, p);
            let from = lent::changed_in(self.tables, self.n, o, a, m);
            let y = u[from];
            let b = packed::unpack(y);
            let vanishes = b.m == 0;
            if vanishes {
                continue;
            }
            let to = lent::changed_in(self.tables, self.n, a, o, m);
            let x = u[to];
            u[to] = packed::pack(packed::unpack(x).add_product(w, b));
        }
    }

    // x multiplied, for the inverse divided, by the entries of the rows of s in ascending order; in the converse the entries of D are read backwards.
    fn scaled(&self, way: Way, c: usize, s: usize, x: Number) -> Number
        requires reached { (c < 6) × Ranged letter_reach x }
        requires stored { StoredEntries self.now.n (entries_of self.now.n (backwards way) (table_in self.now.factors.now c)) }
        ensures value { let e = entries_of self.now.n (backwards way) (table_in self.now.factors.now c) in
            result ≡ scaled rounded (scaling (divides way)) e (of_mask self.now.n s) x }
        ensures ranged { Ranged scaled_reach result }
    {
        let mut y = x;
        for i in 0..self.n {
            // A name of its own, by which an edit turns the order.
            let row = i + 1;
            if rowset::has(s, row) {
                let e = source::factor_in(
                    self.factors,
                    c * 64 + entry_row(self.n, row - 1, way) * 9,
                );
                y = scale(way, y, e);
            }
        }
        y
    }

    // D: the number of each set of k rows. Zero stays zero.
    fn diagonal(&self, u: &mut [u64; 70], way: Way, c: usize)
        requires working { Working letter_reach self.now.n self.now.k (held_by u.old) }
        requires stored { (c < 6) × StoredEntries self.now.n (entries_of self.now.n (backwards way) (table_in self.now.factors.now c)) }
        ensures { Agree self.now.n self.now.k (held_by u.new) (diagonal_of self.now.n way (table_in self.now.factors.now c) (held_by u.old)) }
    {
        let begin = lent::begin(self.k);
        for p in 0..sets::sets_of(self.n, self.k) {
            let y = u[p];
            let x = packed::unpack(y);
            if x.m == 0 {
                continue;
            }
            let s = lent::set_in(self.tables, begin, self.k, p);
            u[p] = packed::pack(self.scaled(way, c, s, x));
        }
    }

    // Letter t of the word of step c. Its steps are the sets that it updates; D takes none.
    fn act(&self, u: &mut [u64; 70], way: Way, c: usize, t: usize) -> usize
        requires letter { (c < 6) × (t < 2 * middle self.now.n + 1) }
        requires working { Working letter_reach self.now.n self.now.k (held_by u.old) }
        requires source { Source (Walkable self.now.n) (step_in way self.now.factors.now c) × Spelled self.now.n way c self.now.letters.now }
        ensures agree { let l = letter_at self.now.n way (table_in self.now.factors.now c) t in
            Agree self.now.n self.now.k (held_by u.new) (act rounded l (held_by u.old)) }
        ensures value { (result ≡ letter_steps self.now.n self.now.k (letter_at self.now.n way (table_in self.now.factors.now c) t)) × (result < 71) }
    {
        if t == letters::middle(self.n) {
            self.diagonal(u, way, c);
            return 0;
        }
        let l = source::letter_in(self.letters, self.n, way, c, t);
        let w = source::factor_in(self.factors, c * 64 + l.at);
        self.moved(u, l.to, l.from, w);
        self.many
    }

    // The word of step c, from right to left; answered with its steps.
    fn walked(&self, u: &mut [u64; 70], way: Way, c: usize) -> usize
        requires working { Working step_reach self.now.n self.now.k (held_by u.old) }
        requires source { (c < 6) × Source (Walkable self.now.n) (step_in way self.now.factors.now c) × Spelled self.now.n way c self.now.letters.now }
        ensures agree { Agree self.now.n self.now.k (held_by u.new) (walk rounded (step_word self.now.n (step_in way self.now.factors.now c)) (held_by u.old)) }
        ensures value { (result ≡ walk_steps self.now.n self.now.k (step_word self.now.n (step_in way self.now.factors.now c))) × (result ≤ 4000) }
    {
        let mut steps = 0;
        for t in (0..2 * letters::middle(self.n) + 1).rev() {
            steps += self.act(u, way, c, t);
        }
        steps
    }
}

fn scale(way: Way, x: Number, e: Number) -> Number
    requires { Ranged (2 ^ 20) x × Stored e }
    ensures { result ≡ scaling (divides way) x e }
{
    if way.divides() {
        x.div(e, Direction::Nearest)
    } else {
        x.mul(e, Direction::Nearest)
    }
}

// The row that the entry of row i + 1 of D comes from, counted from 0.
fn entry_row(n: usize, i: usize, way: Way) -> usize
    requires { i < n }
    ensures value { result ≡ cond (backwards way) (n - 1 - i) i }
    ensures upper_bound { result < n }
{
    if way.backwards() { n - 1 - i } else { i }
}

impl Joined {
    // The minor of the joined word with row set i and column set j. The walk starts with 1 at j, 0 elsewhere. An empty minor takes no steps.
    pub fn minor(
        self,
        tables: &[u8; 1408],
        letters: &[u16; 342],
        factors: &[u64; 768],
        i: usize,
        j: usize,
    ) -> Counted
        requires le_n { (1 ≤ self.n) × (self.n ≤ 8) × (self.count ≤ 6) }
        requires i_bound { (i < 2 ^ self.n) × (j < 2 ^ self.n) × (mask_count i ≡ mask_count j) }
        requires sources { Sources (Walkable self.n) (steps_of self factors.now) }
        requires tables { Tables self.n tables.now × AllSpelled self letters.now }
        ensures number_value { result.number ≡ minor rounded (joined_word self.n (steps_of self factors.now)) (of_mask self.n i) (of_mask self.n j) }
        ensures steps_value { (result.steps ≡ walk_steps self.n (mask_count i) (joined_word self.n (steps_of self factors.now))) × (result.steps ≤ 24000) }
    {
        if j == 0 {
            return Counted {
                number: Number::one(),
                steps: 0,
            };
        }
        let k = rowset::count(j);
        let walk = Walk::new(tables, letters, factors, self.n, k);
        let zero = packed::pack(Number::zero());
        let mut v = [zero; 70];
        v[lent::position_in(tables, j)] = packed::pack(Number::one());
        let mut steps = 0;
        for c in (0..self.count).rev() {
            let s = self.steps[c];
            steps += walk.walked(&mut v, s.way, c);
        }
        Counted {
            number: packed::unpack(v[lent::position_in(tables, i)]),
            steps,
        }
    }
}
