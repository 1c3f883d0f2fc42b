// The answer to a line: that of the call that it asks for, or that it is no request.
ghost use Rattle.std.specs.Prelude.{◌≡◌, ◌*◌, take};
ghost use Rattle.places.specs.Shelf.{Good};
ghost use Rattle.requests.specs.Requests.{asked, request_of};
ghost use Rattle.replies.specs.Replies.{Replied, reply_by, reply_to, overlong, answer_to, reply_to_line};

use crate::calls::Answered;
use crate::{calls, tasks};
use requests::{Command, Request};
use shelf::{Operator, Shelf};

pub const LONGEST: usize = 4096;

// The first items of a list.
fn some_items(list: &[i64], count: usize) -> &[i64]
    ensures { result.now ≡ take (count * 3) list.now }
{
    lines::first(list, count.saturating_mul(3))
}

// The answer to a call with its numbers, bytes, items and whole numbers. A number is a place, a length to lend, a mask of rows or columns, or
// what a sentence tells.
#[tactic(auto, unfolding(crate::specs::Replies::reply_by))]
fn to_command(
    shelf: Shelf,
    command: Command,
    v: [usize; 4],
    bytes: &[u8],
    list: &[i64],
    wholes: &[u64],
    out: &mut [u8],
    at: usize,
) -> Answered
    requires { Good shelf }
    ensures good { Good result.shelf }
    ensures replied { Replied (reply_by shelf command v bytes.now list.now wholes.now)
        out.old at out.new result }
{
    let [a, b, c, _] = v;
    match command {
        Command::Load => calls::load(shelf, a, bytes, out, at),
        Command::Write => calls::write(shelf, a, b, out, at),
        Command::Length => calls::length(shelf, a, out, at),
        Command::Drop => calls::drop(shelf, a, out, at),
        Command::Operation { mode, kind } => tasks::answer(shelf, mode, kind, v, out, at),
        Command::Recipe(mode) => tasks::recipe(shelf, mode, v, wholes, out, at),
        Command::Build => calls::filled(shelf::build(shelf, a, wholes), out, at),
        Command::Minor => calls::minor(shelf, a, tasks::mask(b), tasks::mask(c), out, at),
        Command::Carry => calls::carry(shelf, a, b, list, out, at),
        Command::Reversals => calls::reversals(shelf, list, out, at),
        Command::Add => calls::arithmetic(shelf, Operator::Add, list, out, at),
        Command::Multiply => calls::arithmetic(shelf, Operator::Multiply, list, out, at),
        Command::Divide => calls::arithmetic(shelf, Operator::Divide, list, out, at),
        Command::Rest => calls::rest(shelf, bytes, out, at),
        Command::Sentence => calls::sentence(shelf, a, b, c, wholes, out, at),
        Command::Show => calls::show(shelf, a, out, at),
    }
}

// The answer to a request. The buffers go by their references as arrays, whose types say how long they are.
fn to_request(
    shelf: Shelf,
    request: Request,
    bytes: &[u8; 2048],
    list: &[i64; 48],
    wholes: &[u64; 16],
    out: &mut [u8],
    at: usize,
) -> Answered
    requires { Good shelf }
    ensures good { Good result.shelf }
    ensures replied { Replied (reply_to shelf (asked (Some request) bytes.now list.now wholes.now))
        out.old at out.new result }
{
    to_command(
        shelf,
        request.command,
        request.values,
        lines::first(bytes, request.bytes),
        some_items(list, request.items),
        lines::first(wholes, request.wholes),
        out,
        at,
    )
}

// The answer to a line that is not too long.
fn to_short(shelf: Shelf, line: &[u8], out: &mut [u8], at: usize) -> Answered
    requires { Good shelf }
    ensures good { Good result.shelf }
    ensures replied { Replied (reply_to shelf (request_of line.now)) out.old at out.new result }
{
    let mut bytes = [0u8; 2048];
    let mut list = [0i64; 48];
    let mut wholes = [0u64; 16];
    match requests::of_line(line, &mut bytes, &mut list, &mut wholes) {
        Some(request) => to_request(shelf, request, &bytes, &list, &wholes, out, at),
        None => calls::after(shelf, answers::put_bad(out, at)),
    }
}

// A line of more bytes is no request, nor is one whose start was thrown away.
fn is_long(line: &[u8], long: bool) -> bool
    ensures { result ≡ overlong long line.now }
{
    long || LONGEST < line.len()
}

// The answer to a line, without its end.
fn answered(shelf: Shelf, line: &[u8], long: bool, out: &mut [u8], at: usize) -> Answered
    requires { Good shelf }
    ensures good { Good result.shelf }
    ensures replied { Replied (answer_to shelf long line.now) out.old at out.new result }
{
    if is_long(line, long) {
        return calls::after(shelf, answers::put_bad(out, at));
    }
    to_short(shelf, line, out, at)
}

// The answer to a line, which is given without its end; `long`: its start was thrown away. The answer has its end.
pub fn to_line(shelf: Shelf, line: &[u8], long: bool, out: &mut [u8], at: usize) -> Answered
    requires { Good shelf }
    ensures good { Good result.shelf }
    ensures replied { Replied (reply_to_line shelf long line.now) out.old at out.new result }
{
    let done = answered(shelf, line, long, out, at);
    calls::after(done.shelf, lines::put(out, done.at, b"\n"))
}
