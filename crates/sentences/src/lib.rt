// Refusals in words: the sentence of a refusal's number, its offset and places, for a panel to show.
#![tactic(auto)]

ghost use Rattle.std.specs.Prelude.{◌≡◌, ◌≤◌, length};
ghost use Rattle.lines.specs.Text.{Puts, decimal, spaced};
ghost use Rattle.writer.specs.Encoding.{writing_report, bytes_after_writing, written_report};
ghost use Rattle.notices.specs.Reasons.{HasReason};
ghost use Rattle.notices.specs.Sentence.{notice, refusal_text, sentence_of, unsayable, sentence_report, bytes_after_sentence};
ghost use Rattle.notices.specs.Promise.{Worded};

use verdict::{Reason, Refusal, refuse_if};

mod reasons; // reasons.rt: a reason for each number

// No sentence is longer.
const LONGEST: usize = 220;

// The front of a sentence: `refused N at P`.
pub fn put_front(out: &mut [u8], at: usize, number: u64, offset: u64) -> usize
    ensures { Puts out.old at (refusal_text number offset) out.new result }
{
    let first = lines::put(out, at, b"refused ");
    let middle = lines::put_whole(out, first, number);
    let second = lines::put(out, middle, b" at ");
    lines::put_whole(out, second, offset)
}

// Places in the order given, a space before each.
fn put_places(out: &mut [u8], at: usize, places: &[u64]) -> usize
    ensures { Puts out.old at (spaced decimal places.now) out.new result }
{
    let mut to = at;
    for &place in places {
        let next = lines::put(out, to, b" ");
        to = lines::put_whole(out, next, place);
    }
    to
}

// The sentence, at the start of out.
fn put_sentence(out: &mut [u8], number: u64, offset: u64, places: &[u64]) -> usize
    requires { HasReason number }
    ensures { Puts out.old 0 (sentence_of (notice number offset places.now)) out.new result }
{
    let space = put_front(out, 0, number, offset);
    let reason = lines::put(out, space, b" ");
    let end = lines::put(out, reason, reasons::reason_of(number));
    put_places(out, end, places)
}

// Writes a text to lent bytes. No byte past its length is changed, and none where the lent bytes are too few.
#[tactic(auto, unfolding(writer::specs::Encoding::writing_report, writer::specs::Encoding::bytes_after_writing))]
fn write(text: &[u8], out: &mut [u8]) -> Result<usize, Refusal>
    ensures result_value { written_report result ≡ writing_report out.old text.now }
    ensures out_after { out.new ≡ bytes_after_writing out.old text.now }
{
    refuse_if(out.len() < text.len(), Reason::OutputTooShort)?;
    Ok(lines::put(out, 0, text))
}

// The sentence is made beside the lent bytes, so that these stay as they were where they are too few.
fn say(number: u64, offset: u64, places: &[u64], out: &mut [u8]) -> Result<usize, Refusal>
    requires { HasReason number × (length places.now ≤ 7) }
    ensures result_value { written_report result ≡ writing_report out.old (sentence_of (notice number offset places.now)) }
    ensures out_after { out.new ≡ bytes_after_writing out.old (sentence_of (notice number offset places.now)) }
{
    let mut text = [0u8; LONGEST];
    let n = put_sentence(&mut text, number, offset, places);
    write(&text[..n], out)
}

// A number outside 1 to 22, or more than seven places.
fn unsayable(number: u64, count: usize) -> bool
    ensures { result ≡ unsayable number count }
{
    !matches!(number, 1..=22) || 7 < count
}

// Writes the sentence of a refusal to lent bytes, and answers its length. The number is no `Reason`: C lends it, and it may be that of none.
#[tactic(auto, unfolding(notices::specs::Sentence::sentence_report, notices::specs::Sentence::bytes_after_sentence, verdict::specs::Verdict::first_behind))]
pub fn sentence(number: u64, offset: u64, places: &[u64], out: &mut [u8]) -> Result<usize, Refusal>
    ensures result_value { written_report result ≡ sentence_report (notice number offset places.now) out.old }
    ensures out_after { out.new ≡ bytes_after_sentence (notice number offset places.now) out.old }
    ensures worded { Worded (notice number offset places.now) out.old out.new result }
{
    refuse_if(unsayable(number, places.len()), Reason::WrongList)?;
    say(number, offset, places, out)
}
