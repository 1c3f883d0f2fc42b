// Which minors of a joined word are not zero (document 02, request (e)), by a walk of Bools; and the latest set of rows with such a minor. Where no factor is
// zero no minor is, and nothing is walked.
#![tactic(auto)]

ghost use Rattle.std.specs.Prelude.{◌≡◌, true, ◌+◌, ◌-◌, ◌*◌, ◌^◌, ◌≤◌, ◌<◌};
ghost use Rattle.number.specs.Number.{rounded};
ghost use Rattle.rowset.specs.Mask.{mask_count, mask_moves};
ghost use Rattle.words.specs.RowSet.{of_mask};
ghost use Rattle.words.specs.Walk.{moved, act, walk, minor};
ghost use Rattle.words.specs.Operation.{joined_word};
ghost use Rattle.words.specs.Sources.{Walkable, Source, Sources};
ghost use Rattle.walk.specs.Letters.{middle};
ghost use Rattle.walk.specs.Lent.{table_in, step_in, Spelled, AllSpelled, steps_of};
ghost use Rattle.presence.specs.Presence.{presence, letter_if, word_if, turned_by, place_if};
ghost use Rattle.presence.specs.Held.{state_of, Agree, present_word, present_letter, Starts, Tells, latest_held};

use walk::{Joined, Way, letters, source};

mod full; // full.rt: whether a factor is zero

// s has row a and not row o.
fn moves(s: usize, a: usize, o: usize) -> bool
    requires { (1 ≤ a) × (a ≤ 8) × (1 ≤ o) × (o ≤ 8) }
    ensures { result ≡ mask_moves a o s }
{
    rowset::has(s, a) && !rowset::has(s, o)
}

// Each set with row a and without row o is present where it was, and where the set with o in place of a is, which does not change.
fn moved(v: &mut [bool; 256], n: usize, a: usize, o: usize)
    requires { (n ≤ 8) × (1 ≤ a) × (a ≤ n) × (1 ≤ o) × (o ≤ n) }
    ensures { Agree n (state_of v.new) (moved presence a o true (state_of v.old)) }
{
    for s in 0..1usize << n {
        if moves(s, a, o) {
            v[s] |= v[rowset::replaced(s, a, o)];
        }
    }
}

// Which of so many is number k in turn: from the last to the first; turned, from the first to the last.
fn in_turn(turned: bool, many: usize, k: usize) -> usize
    requires { k < many }
    ensures value { result ≡ place_if turned many k }
    ensures upper_bound { result < many }
{
    if turned { k } else { many - 1 - k }
}

// Step c of a joined word of n rows, taken this way, with the letters and the factors as a caller lends them.
#[derive(Clone, Copy)]
struct Lent<'a> {
    letters: &'a [u16; 342],
    factors: &'a [u64; 768],
    n: usize,
    way: Way,
    c: usize,
    ghost some: { 1 ≤ n },
    ghost few: { n ≤ 8 },
    ghost six: { c < 6 },
    ghost walkable: { Source (Walkable n) (step_in way factors.now c) },
    ghost spelled: { Spelled n way c letters.now },
}

impl<'a> Lent<'a> {
    // Letter t of the step's word; turned, its transpose. D, whose entries are positive, changes nothing, and neither does a letter with factor zero.
    fn act(&self, v: &mut [bool; 256], t: usize, turned: bool)
        requires { t < 2 * middle self.now.n + 1 }
        ensures { Agree self.now.n (state_of v.new)
            (act presence (letter_if turned (present_letter self.now.n self.now.way (table_in self.now.factors.now self.now.c) t)) (state_of v.old)) }
    {
        let n = self.n;
        if t == letters::middle(n) {
            return;
        }
        let l = source::letter_in(self.letters, n, self.way, self.c, t);
        let w = source::factor_in(self.factors, self.c * 64 + l.at);
        let vanishes = w.m == 0;
        if vanishes {
            return;
        }
        if turned {
            moved(v, n, l.from, l.to);
        } else {
            moved(v, n, l.to, l.from);
        }
    }

    // The step's word, from right to left; turned, the transposed word: its letters from left to right, E and Et exchanged.
    fn walked(&self, v: &mut [bool; 256], turned: bool)
        ensures { Agree self.now.n (state_of v.new)
            (walk presence (word_if turned (present_word self.now.n self.now.way (table_in self.now.factors.now self.now.c))) (state_of v.old)) }
    {
        let many = 2 * letters::middle(self.n) + 1;
        for k in 0..many {
            self.act(v, in_turn(turned, many, k), turned);
        }
    }
}

// The first c of the chosen rows p, for each c: the sets that the walks start from. They differ in their counts, which no letter changes.
fn starts(p: usize) -> [bool; 256]
    requires { p < 256 }
    ensures { Starts p result }
{
    let mut v = [false; 256];
    for c in 0..=rowset::count(p) {
        v[rowset::among(p, rowset::run(1, c))] = true;
    }
    v
}

// The words of the steps, from right to left; turned, the transposed words, from left to right. Where no factor is zero all sets are held, and none is walked.
fn told<'a>(
    word: Joined,
    letters: &'a [u16; 342],
    factors: &'a [u64; 768],
    p: usize,
    turned: bool,
) -> [bool; 256]
    requires le_n { (1 ≤ word.n) × (word.n ≤ 8) × (word.count ≤ 6) × (p < 2 ^ word.n) }
    requires sources { Sources (Walkable word.n) (steps_of word factors.now) × AllSpelled word letters.now }
    ensures { Tells word.n (turned_by turned (minor rounded (joined_word word.n (steps_of word factors.now)))) (of_mask word.n p) result }
{
    if full::full(word, factors) {
        return [true; 256];
    }
    let mut v = starts(p);
    for k in 0..word.count {
        let c = in_turn(turned, word.count, k);
        let step = Lent {
            letters,
            factors,
            n: word.n,
            way: word.steps[c].way,
            c,
        };
        step.walked(&mut v, turned);
    }
    v
}

// For each set of rows, whether its minor with as many of the chosen columns p, the first ones, is other than zero.
pub fn present(word: Joined, letters: &[u16; 342], factors: &[u64; 768], p: usize) -> [bool; 256]
    requires le_n { (1 ≤ word.n) × (word.n ≤ 8) × (word.count ≤ 6) × (p < 2 ^ word.n) }
    requires sources { Sources (Walkable word.n) (steps_of word factors.now) × AllSpelled word letters.now }
    ensures { Tells word.n (minor rounded (joined_word word.n (steps_of word factors.now))) (of_mask word.n p) result }
{
    told(word, letters, factors, p, false)
}

// For each set of columns, whether its minor with as many of the chosen rows p, the first ones, is other than zero.
pub fn present_turned(
    word: Joined,
    letters: &[u16; 342],
    factors: &[u64; 768],
    p: usize,
) -> [bool; 256]
    requires le_n { (1 ≤ word.n) × (word.n ≤ 8) × (word.count ≤ 6) × (p < 2 ^ word.n) }
    requires sources { Sources (Walkable word.n) (steps_of word factors.now) × AllSpelled word letters.now }
    ensures { Tells word.n (λ I J. minor rounded (joined_word word.n (steps_of word factors.now)) J I) (of_mask word.n p) result }
{
    told(word, letters, factors, p, true)
}

// Of the sets that count among the rows p but the first k of these, the latest one of c rows, all before row i, that v has with these k joined; the empty set
// where there is none.
pub fn latest(v: &[bool; 256], p: usize, k: usize, i: usize, c: usize) -> usize
    requires { (p < 256) × (k ≤ mask_count p) × (1 ≤ i) × (k + i ≤ mask_count p + 1) }
    ensures result_value { of_mask (mask_count p - k) result ≡ latest_held v.now p k i c }
    ensures upper_bound { result < 2 ^ (i - 1) }
{
    for s in (0..1usize << (i - 1)).rev() {
        if rowset::count(s) == c && v[rowset::among(p, rowset::with_first(s, k))] {
            return s;
        }
    }
    0
}
