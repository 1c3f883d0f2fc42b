// A console for one shelf: requests on standard input, one to a line, and one line for each on standard output. What is promised here is of bytes that were
// read and of answers that wait to be written; reading and writing are run.
#![tactic(auto)]

ghost use Rattle.std.specs.Prelude.{◌≡◌, cond, List, [], ℕ, ◌+◌, ◌≤◌, ◌<◌, length, take, drop};
ghost use Rattle.lines.specs.Words.{before};
ghost use Rattle.tnb_console.specs.Session.{after_line, after_end, emptied};
ghost use Rattle.tnb_console.specs.Kept.{session_of, place_of, Orderly, Responded, TextAnswered, PieceAnswered};

use replies::LONGEST;
use shelf::Shelf;
use std::io::{Read, Write};

// Answers are written once so many bytes wait. The output has room for the longest answer behind them.
const ENOUGH: usize = 16384;

// What is kept from line to line: the shelf, where the next line starts, how many bytes of answers wait, whether that line is too
// long and its start thrown away, and whether all answers before those could be written.
#[derive(Clone, Copy)]
struct State {
    shelf: Shelf,
    start: usize,
    waiting: usize,
    long: bool,
    written: bool,
}

// Writes what waits.
fn flush(rt: &HostRuntime, output: &[u8], waiting: usize) -> std::io::Result<()>
    requires { waiting ≤ length output.now }
{
    rt.stdout().write_all(&output[..waiting])
}

// Makes room for an answer, and answers where it goes. Where a write fails, the answers behind it are written all the same.
fn room(rt: &HostRuntime, output: &[u8], waiting: usize, written: &mut bool) -> usize
    requires { waiting ≤ length output.now }
    ensures { result ≡ place_of waiting }
{
    if waiting < ENOUGH {
        return waiting;
    }
    *written &= flush(rt, output, waiting).is_ok();
    0
}

// Answers a line, which is given without its end; the one behind it starts at `next`.
fn respond(rt: &HostRuntime, was: State, line: &[u8], next: usize, output: &mut [u8]) -> State
    requires { Orderly was output.old }
    ensures orderly { Orderly result output.new }
    ensures output_after { (session_of result output.new ≡ after_line (session_of was output.old) line.now) × (result.start ≡ next) }
{
    let mut written = was.written;
    let at = room(rt, output, was.waiting, &mut written);
    let answered = replies::to_line(was.shelf, line, was.long, output, at);
    State {
        shelf: answered.shelf,
        start: next,
        waiting: answered.at,
        long: false,
        written,
    }
}

// Where the line that starts at an index ends; the text's length where that is not read yet.
fn line_end(text: &[u8], start: usize) -> usize
    requires { start ≤ length text.now }
    ensures value { result ≡ start + length (before 10 (drop start text.now)) }
    ensures upper_bound { result ≤ length text.now }
{
    start + lines::before(&text[start..], b'\n')
}

// Answers the lines that end in the text, one after the other.
fn respond_all(rt: &HostRuntime, was: State, text: &[u8], output: &mut [u8]) -> State
    requires orderly { Orderly was output.old }
    requires start_in_bounds { was.start ≤ length text.now }
    ensures orderly_2 { Orderly result output.new }
    ensures responded { Responded was text.now output.old result output.new }
{
    let mut now = was;
    let mut start = was.start;
    let mut end = line_end(text, start);
    while end < text.len() {
        now = respond(rt, now, &text[start..end], end + 1, output);
        start = end + 1;
        end = line_end(text, start);
    }
    now
}

// Answers the lines that end in the text, and judges by its length what goes on behind them.
fn respond_text(rt: &HostRuntime, was: State, text: &[u8], output: &mut [u8]) -> State
    requires orderly { Orderly was output.old }
    requires start_value { was.start ≡ 0 }
    ensures orderly_2 { Orderly result output.new }
    ensures text_answered { TextAnswered was text.now output.old result output.new }
{
    let now = respond_all(rt, was, text, output);
    // No `||`: behind it the value would have no equation where the struct is made.
    let long = now.long | (LONGEST < text.len() - now.start);
    State { long, ..now }
}

// Reads once, behind the first `held` bytes, and answers how many there are then. At the end of input that is no more.
fn read_more(rt: &HostRuntime, input: &mut [u8], held: usize) -> usize
    requires { held < length input.old }
    ensures upper_bound { result ≤ length input.new }
    ensures input_unchanged { take held input.new ≡ take held input.old }
{
    match rt.stdin().read(&mut input[held..]) {
        Ok(n) => held + n,
        Err(_) => held,
    }
}

// Moves the bytes from `start` to n to the input's start, and answers how many they are.
fn move_up(input: &mut [u8], start: usize, n: usize) -> usize
    requires start_le_n { start ≤ n }
    requires n_in_bounds { n ≤ length input.old }
    ensures input_after { take result input.new ≡ drop start (take n input.old) }
    ensures upper_bound { result ≤ length input.new }
{
    input.copy_within(start..n, 0);
    n - start
}

// The same for what is left of an unfinished line: nothing, where that is too long.
fn hold(input: &mut [u8], start: usize, n: usize, long: bool) -> usize
    requires start_le_n { start ≤ n }
    requires n_in_bounds { n ≤ length input.old }
    ensures input_after { take result input.new ≡ cond long [] (drop start (take n input.old)) }
    ensures upper_bound { result ≤ length input.new }
{
    if long {
        return 0;
    }
    move_up(input, start, n)
}

// What is left when a piece of the input was answered: the first `held` bytes of the input start the next line.
#[derive(Clone, Copy)]
struct Piece {
    state: State,
    held: usize,
}

// Answers the lines that end among the first n bytes of the input.
fn respond_piece(
    rt: &HostRuntime,
    was: State,
    input: &mut [u8],
    n: usize,
    output: &mut [u8],
) -> Piece
    requires orderly { Orderly was output.old }
    requires start_value { (was.start ≡ 0) × (n ≤ length input.old) }
    ensures orderly_2 { Orderly result.state output.new }
    ensures piece_answered { PieceAnswered was (take n input.old) output.old result input.new output.new }
{
    let state = respond_text(rt, was, &input[..n], output);
    let held = hold(input, state.start, n, state.long);
    Piece { state, held }
}

// At the end of the input the start of a line is a line.
fn finish(rt: &HostRuntime, was: State, start: &[u8], output: &mut [u8]) -> State
    requires { Orderly was output.old }
    ensures orderly { Orderly result output.new }
    ensures output_after { session_of result output.new ≡ after_end (session_of was output.old) start.now }
{
    if was.long || !start.is_empty() {
        return respond(rt, was, start, 0, output);
    }
    was
}

// Writes the answers that wait, and says so where these or some before them could not be written.
fn deliver(rt: &HostRuntime, state: State, output: &[u8]) -> bool
    requires { state.waiting ≤ length output.now }
{
    if flush(rt, output, state.waiting).is_ok() && state.written {
        return true;
    }
    let told = rt
        .stderr()
        .write_all(b"tnb_console: cannot write its output\n");
    told.is_ok();
    false
}

// The answers that waited are written, and the next piece starts in front.
fn delivered(was: State) -> State
    ensures by_index { (out : List ℕ) → session_of result out ≡ emptied (session_of was out) }
    ensures start_value { (result.start ≡ 0) × (result.waiting ≡ 0) }
{
    State {
        start: 0,
        waiting: 0,
        written: true,
        ..was
    }
}

// Nothing says that the input ends, so turns are counted up to a number that no run reaches.
fn serve(rt: &HostRuntime, input: &mut [u8], output: &mut [u8])
    requires { (length input.old ≡ 65536) × (length output.old ≡ 65536) }
{
    let mut now = State {
        shelf: shelf::new(),
        start: 0,
        waiting: 0,
        long: false,
        written: true,
    };
    let mut held = 0;
    for _ in 0..u64::MAX {
        let n = read_more(rt, input, held);
        if n <= held {
            deliver(rt, finish(rt, now, &input[..held], output), output);
            return;
        }
        let piece = respond_piece(rt, now, input, n, output);
        if !deliver(rt, piece.state, output) {
            return;
        }
        held = piece.held;
        now = delivered(piece.state);
    }
}

fn main(rt: HostRuntime) {
    let mut input = io::large_buffer();
    let mut output = io::large_buffer();
    serve(&rt, &mut input, &mut output);
}
