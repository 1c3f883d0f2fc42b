// The console's words: each does what a request asks for and puts the answer into the output.
ghost use Rattle.std.specs.Prelude.{◌≡◌};
ghost use Rattle.lines.specs.Ascii.{ascii};
ghost use Rattle.lines.specs.Text.{Puts};
ghost use Rattle.places.specs.Shelf.{Good};
ghost use Rattle.operations.specs.Reports.{filled_outcome};
ghost use Rattle.shelf.specs.Reports.{changed_outcome};
ghost use Rattle.writer.specs.Encoding.{written_report};
ghost use Rattle.notices.specs.Sentence.{notice};
ghost use Rattle.shelf.specs.Run.{run, load, write, byte_length, drop, minor, carry, reversals, arithmetic, rest, sentence};
ghost use Rattle.answers.specs.Answers.{report_text, with_bytes};
ghost use Rattle.replies.specs.Calls.{lent_count, lent_bytes, lent_items, show_text};
ghost use Rattle.replies.specs.Replies.{Replied, told, told_worked, told_bytes, told_items, reply};

use crate::filling;
use shelf::{Changed, Filled, Operator, Reason, Refusal, Shelf};

// The shelf after a request, and the index of the output behind the answer.
#[derive(Clone, Copy)]
pub struct Answered {
    pub shelf: Shelf,
    pub at: usize,
}

pub fn after(shelf: Shelf, at: usize) -> Answered
    requires { Good shelf }
    ensures good { Good result.shelf }
    ensures shelf_value { (result.shelf ≡ shelf) × (result.at ≡ at) }
{
    Answered { shelf, at }
}

fn changed(change: Changed, word: &[u8], out: &mut [u8], at: usize) -> Answered
    requires { Good change.shelf }
    ensures good { Good result.shelf }
    ensures replied { Replied (told word.now (changed_outcome change)) out.old at out.new result }
{
    after(
        change.shelf,
        answers::put_verdict(out, at, change.verdict, word),
    )
}

pub fn load(shelf: Shelf, place: usize, bytes: &[u8], out: &mut [u8], at: usize) -> Answered
    requires { Good shelf }
    ensures good { Good result.shelf }
    ensures replied { Replied (told (ascii "loaded") (run shelf (load place bytes.now))) out.old at out.new result }
{
    changed(shelf::load(shelf, place, bytes), b"loaded", out, at)
}

pub fn drop(shelf: Shelf, place: usize, out: &mut [u8], at: usize) -> Answered
    requires { Good shelf }
    ensures good { Good result.shelf }
    ensures replied { Replied (told (ascii "dropped") (run shelf (drop place))) out.old at out.new result }
{
    changed(shelf::drop_place(shelf, place), b"dropped", out, at)
}

// What a build did.
pub fn filled(done: Filled, out: &mut [u8], at: usize) -> Answered
    requires { Good done.shelf }
    ensures good { Good result.shelf }
    ensures replied { Replied (told (ascii "bound") (filled_outcome done)) out.old at out.new result }
{
    after(done.shelf, answers::put_bounded(out, at, done.answer))
}

// How many bytes or items are lent where so many were asked for.
fn lent(count: usize) -> usize
    ensures { result ≡ lent_count count }
{
    count.min(512)
}

// `wrote N` or the refusal, and behind it all the lent bytes.
fn wrote(
    shelf: Shelf,
    answer: Result<usize, Refusal>,
    bytes: &[u8],
    out: &mut [u8],
    at: usize,
) -> Answered
    requires { Good shelf }
    ensures good { Good result.shelf }
    ensures replied { Replied (reply shelf (with_bytes (report_text (ascii "wrote") (written_report answer)) bytes.now))
        out.old at out.new result }
{
    let space = answers::put_written(out, at, b"wrote", answer);
    let buffer = lines::put(out, space, b" ");
    after(shelf, lines::put_bytes(out, buffer, bytes))
}

// Writes a place to so many lent bytes, each a5, which the answer ends with.
pub fn write(shelf: Shelf, place: usize, count: usize, out: &mut [u8], at: usize) -> Answered
    requires { Good shelf }
    ensures good { Good result.shelf }
    ensures replied { Replied (told_bytes (ascii "wrote") (run shelf (write place (lent_bytes (lent_count count))))) out.old at out.new result }
{
    let mut memory = [0xa5u8; 512];
    let bytes = &mut memory[..lent(count)];
    let written = shelf::write(shelf, place, bytes);
    wrote(shelf, written, bytes, out, at)
}

// How many bytes that takes.
pub fn length(shelf: Shelf, place: usize, out: &mut [u8], at: usize) -> Answered
    requires { Good shelf }
    ensures good { Good result.shelf }
    ensures replied { Replied (told (ascii "length") (run shelf (byte_length place))) out.old at out.new result }
{
    let answer = shelf::length(shelf, place);
    after(shelf, answers::put_written(out, at, b"length", answer))
}

// Writes the sentence of a refusal likewise. A closure that makes the call, to share the rest with `write`, would be no plainer.
pub fn sentence(
    shelf: Shelf,
    count: usize,
    number: usize,
    offset: usize,
    places: &[u64],
    out: &mut [u8],
    at: usize,
) -> Answered
    requires { Good shelf }
    ensures good { Good result.shelf }
    ensures replied { Replied (told_bytes (ascii "wrote") (run shelf (sentence (notice number offset places.now) (lent_bytes (lent_count count)))))
        out.old at out.new result }
{
    let mut memory = [0xa5u8; 512];
    let bytes = &mut memory[..lent(count)];
    let written = shelf::sentence(number as u64, offset as u64, places, bytes);
    wrote(shelf, written, bytes, out, at)
}

// Carries a list into so many lent items, which the answer ends with.
pub fn carry(
    shelf: Shelf,
    place: usize,
    count: usize,
    list: &[i64],
    out: &mut [u8],
    at: usize,
) -> Answered
    requires { Good shelf }
    ensures good { Good result.shelf }
    ensures replied { Replied (told_items (ascii "carried") (run shelf (carry place list.now (lent_items (lent_count count)))))
        out.old at out.new result }
{
    let mut memory = [0i64; 1536];
    let items = &mut memory[..lent(count) * 3];
    filling::fill(items);
    let verdict = shelf::carry(shelf, place, list, items);
    let space = answers::put_verdict(out, at, verdict, b"carried");
    let buffer = lines::put(out, space, b" ");
    after(shelf, answers::put_items(out, buffer, items))
}

pub fn minor(
    shelf: Shelf,
    place: usize,
    rows: u8,
    columns: u8,
    out: &mut [u8],
    at: usize,
) -> Answered
    requires { Good shelf }
    ensures good { Good result.shelf }
    ensures replied { Replied (told (ascii "number") (run shelf (minor place rows columns))) out.old at out.new result }
{
    let answer = shelf::minor(shelf, place, rows, columns);
    after(shelf, answers::put_valued(out, at, answer))
}

pub fn reversals(shelf: Shelf, list: &[i64], out: &mut [u8], at: usize) -> Answered
    requires { Good shelf }
    ensures good { Good result.shelf }
    ensures replied { Replied (told (ascii "reversals") (run shelf (reversals list.now))) out.old at out.new result }
{
    let answer = shelf::count_reversals(list);
    after(shelf, answers::put_reversals(out, at, answer))
}

pub fn arithmetic(shelf: Shelf, op: Operator, list: &[i64], out: &mut [u8], at: usize) -> Answered
    requires { Good shelf }
    ensures good { Good result.shelf }
    ensures replied { Replied (told_worked (run shelf (arithmetic op list.now))) out.old at out.new result }
{
    let answer = shelf::arithmetic(op, list);
    after(shelf, answers::put_worked(out, at, answer))
}

pub fn rest(shelf: Shelf, bytes: &[u8], out: &mut [u8], at: usize) -> Answered
    requires { Good shelf }
    ensures good { Good result.shelf }
    ensures replied { Replied (told_bytes (ascii "rest") (run shelf (rest bytes.now))) out.old at out.new result }
{
    after(shelf, answers::put_rest(out, at, shelf::behind(bytes)))
}

fn put_shown(shelf: Shelf, place: usize, out: &mut [u8], at: usize) -> usize
    requires { Good shelf }
    ensures { Puts out.old at (show_text shelf place) out.new result }
{
    if 7 < place {
        return answers::put_refusal(out, at, Reason::NoSuchPlace.into());
    }
    answers::put_place(out, at, shelf, place)
}

// The console's own word: what a place holds.
pub fn show(shelf: Shelf, place: usize, out: &mut [u8], at: usize) -> Answered
    requires { Good shelf }
    ensures good { Good result.shelf }
    ensures replied { Replied (reply shelf (show_text shelf place)) out.old at out.new result }
{
    after(shelf, put_shown(shelf, place, out, at))
}
