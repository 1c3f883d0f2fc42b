// Words as the walk takes them, of the steps of a recipe and of one source. Minors of one source, and whether they are zero.
// The caller lends room for the letters and the sources' factors: walk and rule take them apart from the word, so that a struct of the three is no plainer.
ghost use Rattle.std.specs.Prelude.{◌≡◌, [], ◌∷◌, map, ◌^◌, ◌≤◌, ◌<◌, eqb, length};
ghost use Rattle.number.specs.Number.{rounded};
ghost use Rattle.rowset.specs.Mask.{mask_count};
ghost use Rattle.words.specs.RowSet.{of_mask};
ghost use Rattle.words.specs.Word.{word};
ghost use Rattle.words.specs.Walk.{minor};
ghost use Rattle.words.specs.Sources.{Walkable};
ghost use Rattle.table.specs.Table.{factors_of};
ghost use Rattle.recipes.specs.Recipe.{place_of, steps_in, slot_at};
ghost use Rattle.walk.specs.Steps.{step_of};
ghost use Rattle.operations.specs.Operations.{step_with};
ghost use Rattle.operations.specs.Proposed.{Made};

use number::Number;
use places::Shelf;
use recipes::Recipe;
use walk::{Joined, Way, source};

// The steps of a recipe put one after the other, in their order, as a word of n rows.
pub fn of_recipe(
    shelf: Shelf,
    recipe: Recipe,
    n: usize,
    letters: &mut [u16; 342],
    sources: &mut [u64; 768],
) -> Joined
    requires le_n { (1 ≤ n) × (n ≤ 8) × (recipe.count ≤ 6) × ((c : _) → c < recipe.count → place_of (slot_at recipe c) < 8) }
    requires lent { (length letters.old ≡ 342) × (length sources.old ≡ 768) }
    ensures { Made n (map (step_with shelf) (steps_in recipe)) result letters.new sources.new }
{
    let mut word = source::no_steps(n);
    for step in &recipe.steps[..recipe.count] {
        let factors = places::table_at(shelf, step.place);
        word = source::put_step(word, &mut *letters, &mut *sources, step.way, factors);
    }
    word
}

// The word of one source of n rows, taken this way.
pub fn of_source(
    way: Way,
    factors: [Number; 64],
    n: usize,
    letters: &mut [u16; 342],
    sources: &mut [u64; 768],
) -> Joined
    requires le_n { (1 ≤ n) × (n ≤ 8) }
    requires lent { (length letters.old ≡ 342) × (length sources.old ≡ 768) }
    ensures { Made n (step_of way factors ∷ []) result letters.new sources.new }
{
    source::put_step(source::no_steps(n), letters, sources, way, factors)
}

// The minor of these rows and columns, given as masks, of the matrix of n rows with these factors.
pub fn minor(factors: [Number; 64], n: usize, rows: u8, columns: u8) -> Number
    requires le_n { (1 ≤ n) × (n ≤ 8) × Walkable n (factors_of factors) }
    requires sets { (rows < 2 ^ n) × (columns < 2 ^ n) × (mask_count rows ≡ mask_count columns) }
    ensures { result ≡ minor rounded (word n (factors_of factors)) (of_mask n rows) (of_mask n columns) }
{
    let tables = rowset::lent::tables(n);
    let mut letters = [0u16; 342];
    let mut sources = [0u64; 768];
    let plain = of_source(Way::Plain, factors, n, &mut letters, &mut sources);
    let i = usize::from(rows);
    let j = usize::from(columns);
    plain.minor(&tables, &letters, &sources, i, j).number
}

// Whether that minor is zero, which the zeros among the factors tell.
pub fn is_zero(factors: [Number; 64], n: usize, rows: u8, columns: u8) -> bool
    requires le_n { (1 ≤ n) × (n ≤ 8) × Walkable n (factors_of factors) }
    requires sets { (rows < 2 ^ n) × (columns < 2 ^ n) × (mask_count rows ≡ mask_count columns) }
    ensures { result ≡ eqb (minor rounded (word n (factors_of factors)) (of_mask n rows) (of_mask n columns)).m 0 }
{
    let mut letters = [0u16; 342];
    let mut sources = [0u64; 768];
    let plain = of_source(Way::Plain, factors, n, &mut letters, &mut sources);
    let held = presence::present(plain, &letters, &sources, usize::from(columns));
    !held[usize::from(rows)]
}
