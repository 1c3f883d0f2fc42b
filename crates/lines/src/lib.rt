// Lines of text: their words, decimal numbers and hexadecimal bytes, read and written.
#![tactic(auto)]

mod reading; // reading.rt: words, numbers and bytes of a line
mod writing; // writing.rt: the same put into a buffer

pub use reading::{
    SignedWhole, before, first, next_word, read_bytes, read_signed, read_whole, word,
};
pub use writing::{put, put_bytes, put_signed, put_whole};
