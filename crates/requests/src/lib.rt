// Requests: what a line asks of the console.
#![tactic(auto)]

mod commands; // commands.rt: the words of the console, and what follows each
mod items; // items.rt: list items
mod request; // request.rt: a line's command and numbers, and what stands behind them
mod steps; // steps.rt: the steps of a recipe
mod wholes; // wholes.rt: lists of whole numbers

pub use commands::{Command, Kind, Mode};
pub use request::{Request, of_line};

// How many words a list has at most.
const LONGEST: usize = 16;
