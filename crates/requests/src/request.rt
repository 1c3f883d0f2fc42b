// What a line asks: a word of the console, numbers, and then bytes, items, whole numbers or nothing. Words have one space between them.
ghost use Rattle.std.specs.Prelude.{◌≡◌, ◌≤◌, length, Some};
ghost use Rattle.requests.specs.Words.{words_at};
ghost use Rattle.requests.specs.Requests.{most, number_by, index_behind, letter_numbers, numbers_read};
ghost use Rattle.requests.specs.Lists.{list_read};
ghost use Rattle.requests.specs.Requests.{last_bytes, two_items, asked, with_tail, start_of, request_of};

use crate::commands::{Command, Form, Letter, Mode, Tail};
use crate::{commands, items, wholes};

// The numbers of a line, and where the next word starts.
#[derive(Clone, Copy)]
pub struct Numbers {
    pub values: [usize; 4],
    pub next: usize,
}

// A command, its numbers, and how many bytes, items and whole numbers stand for it at the start of the buffers that a caller lends.
#[derive(Clone, Copy)]
pub struct Request {
    pub command: Command,
    pub values: [usize; 4],
    pub bytes: usize,
    pub items: usize,
    pub wholes: usize,
}

// The largest number that a letter stands for.
fn most(letter: Letter) -> u64
    ensures { result ≡ most letter }
{
    match letter {
        Letter::Place => u64::from(u32::MAX),
        Letter::Mask => 255,
        Letter::Length => 512,
        Letter::None => 0,
    }
}

// The number of a letter, in the word at an index; 0 where the letter asks for none.
fn number_at(line: &[u8], at: usize, letter: Letter) -> Option<u64>
    ensures { result ≡ number_by letter line.now at }
{
    match letter {
        Letter::None => Some(0),
        _ => lines::read_whole(lines::word(line, at), most(letter)),
    }
}

fn behind(line: &[u8], at: usize, letter: Letter) -> usize
    ensures { result ≡ index_behind letter line.now at }
{
    match letter {
        Letter::None => at,
        _ => lines::next_word(line, at),
    }
}

// The numbers that the letters ask for, from an index on.
fn read_numbers(line: &[u8], letters: &[Letter; 4], at: usize) -> Option<Numbers>
    ensures { numbers_read line.now result ≡ letter_numbers letters.now (words_at line.now at) }
{
    let mut values = [0usize; 4];
    let mut next = at;
    for (k, &letter) in letters.iter().enumerate() {
        values[k] = number_at(line, next, letter)? as usize;
        next = behind(line, next, letter);
    }
    Some(Numbers { values, next })
}

// The last word as bytes.
fn read_bytes(line: &[u8], at: usize, bytes: &mut [u8]) -> Option<usize>
    requires { length bytes.old ≡ 2048 }
    ensures { list_read 1 bytes.new result ≡ last_bytes (words_at line.now at) }
{
    if lines::next_word(line, at) <= line.len() {
        return None;
    }
    lines::read_bytes(lines::word(line, at), bytes)
}

// The words that are left as exactly two items.
fn read_two(line: &[u8], at: usize, list: &mut [i64]) -> Option<usize>
    requires { 48 ≤ length list.old }
    ensures { list_read 3 list.new result ≡ two_items (words_at line.now at) }
{
    let count = items::read(line, at, list)?;
    let two = count == 2;
    if two { Some(count) } else { None }
}

// A command with its numbers alone.
fn alone(command: Command, values: [usize; 4]) -> Request
    ensures { result ≡ record { command = command; values = values; bytes = 0; items = 0; wholes = 0 } }
{
    Request {
        command,
        values,
        bytes: 0,
        items: 0,
        wholes: 0,
    }
}

// The request of a form whose numbers were read, with what stands behind them.
fn with_tail(
    line: &[u8],
    form: Form,
    read: Numbers,
    bytes: &mut [u8; 2048],
    list: &mut [i64; 48],
    wholes: &mut [u64; 16],
) -> Option<Request>
    ensures { asked result bytes.new list.new wholes.new
        ≡ with_tail form.command form.tail (numbers_read line.now (Some read)) }
{
    let command = form.command;
    let values = read.values;
    let next = read.next;
    let request = alone(command, values);
    match form.tail {
        Tail::None if line.len() < next => Some(request),
        Tail::None => None,
        Tail::Bytes => Some(Request {
            bytes: read_bytes(line, next, bytes)?,
            ..request
        }),
        Tail::Items => Some(Request {
            items: items::read(line, next, list)?,
            ..request
        }),
        Tail::Two => Some(Request {
            items: read_two(line, next, list)?,
            ..request
        }),
        Tail::Wholes(member) => Some(Request {
            wholes: wholes::read(line, next, member, wholes)?,
            ..request
        }),
    }
}

// Where a line's words start without the one in front of an operation's.
fn start(line: &[u8], mode: Mode) -> usize
    ensures { result ≡ start_of mode line.now }
{
    match mode {
        Mode::Direct => 0,
        Mode::Foretold => lines::next_word(line, 0),
    }
}

// What a line asks; nothing where it is no request. Its bytes, items or whole numbers go to the start of the buffers, three of the caller's.
pub fn of_line(
    line: &[u8],
    bytes: &mut [u8; 2048],
    list: &mut [i64; 48],
    wholes: &mut [u64; 16],
) -> Option<Request>
    ensures { asked result bytes.new list.new wholes.new ≡ request_of line.now }
{
    let mode = commands::mode_of(lines::word(line, 0));
    let own = start(line, mode);
    let form = commands::form_by(mode, lines::word(line, own))?;
    let read = read_numbers(line, &form.letters, lines::next_word(line, own))?;
    with_tail(line, form, read, bytes, list, wholes)
}
