// Recipes (document 02, (f)): steps, each a place number together with the way it is taken. Two to six of them make a recipe; the operations that document 01
// names have one step or two.
#![tactic(auto)]

ghost use Rattle.std.specs.Prelude.{◌≡◌};
ghost use Rattle.recipes.specs.Recipe.{one_step, two_steps};

pub use walk::Way;

pub mod codes; // codes.rt: steps as numbers

// A step: a place number together with the way it is taken.
#[derive(Clone, Copy)]
pub struct RecipeStep {
    pub place: usize,
    pub way: Way,
}

// The first `count` of six steps. The other slots are not looked at. No call allocates memory, so a recipe has room for the longest.
#[derive(Clone, Copy)]
pub struct Recipe {
    pub steps: [RecipeStep; 6],
    pub count: usize,
}

// One place, taken in a way.
pub fn one(way: Way, place: usize) -> Recipe
    ensures { result ≡ one_step way place }
{
    let step = RecipeStep { place, way };
    Recipe {
        steps: [step; 6],
        count: 1,
    }
}

// Two places, taken plain.
pub fn two(left: usize, right: usize) -> Recipe
    ensures { result ≡ two_steps left right }
{
    let second = RecipeStep {
        place: right,
        way: Way::Plain,
    };
    let mut steps = [second; 6];
    steps[0] = RecipeStep {
        place: left,
        way: Way::Plain,
    };
    Recipe { steps, count: 2 }
}
