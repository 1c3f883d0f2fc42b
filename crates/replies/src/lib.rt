// The console's words: the answer to a line, on one shelf.
#![tactic(auto)]

mod answer; // answer.rt: the answer to a line
mod calls; // calls.rt: the calls, with their answers
mod filling; // filling.rt: list items, as they are lent
mod tasks; // tasks.rt: operations and recipes, worked or foretold

pub use answer::{LONGEST, to_line};
pub use calls::Answered;
