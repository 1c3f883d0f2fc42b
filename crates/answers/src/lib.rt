// Answer lines, put into a buffer: numbers, refusals, and the answers of the calls by what they report.
#![tactic(auto)]

ghost use Rattle.std.specs.Prelude.{◌++◌, [], ◌∷◌, pos};
ghost use Rattle.lines.specs.Ascii.{ascii};
ghost use Rattle.lines.specs.Text.{Puts, decimal};
ghost use Rattle.verdict.specs.Report.{accepted, answer_report, verdict_report};
ghost use Rattle.verdict.specs.Verdict.{number_of};
ghost use Rattle.writer.specs.Encoding.{written_report};
ghost use Rattle.lists.specs.Lists.{reversals_report};
ghost use Rattle.arithmetic.specs.Arithmetic.{worked_report};
ghost use Rattle.operations.specs.Reports.{bounded_report, performed_report, valued_report};
ghost use Rattle.operations.specs.Forecast.{foretold_report};
ghost use Rattle.notices.specs.Sentence.{refusal_text};
ghost use Rattle.answers.specs.Answers.{integer_text, values_text, report_text, performed_text, worked_text, with_bytes, bad_text};

use number::integer;
use shelf::{Performed, Refusal, Value, Verdict, Worked};

mod listed; // listed.rt: list items
mod matrix; // matrix.rt: what a place holds

pub use listed::put_items;
pub use matrix::{put_factor, put_place};

// A whole number with its sign.
pub fn put_integer(out: &mut [u8], at: usize, x: i64) -> usize
    ensures { Puts out.old at (integer_text x) out.new result }
{
    lines::put_signed(out, at, integer::is_negative(x), integer::magnitude(x))
}

// A number behind a space.
fn put_value(out: &mut [u8], at: usize, n: u64) -> usize
    ensures { Puts out.old at (ascii " " ++ decimal n) out.new result }
{
    let number = lines::put(out, at, b" ");
    lines::put_whole(out, number, n)
}

// A whole number with its sign, behind a space.
fn put_signed_value(out: &mut [u8], at: usize, x: i64) -> usize
    ensures { Puts out.old at (ascii " " ++ integer_text x) out.new result }
{
    let number = lines::put(out, at, b" ");
    put_integer(out, number, x)
}

// Mantissa and exponent, each behind a space.
pub fn put_number(out: &mut [u8], at: usize, mantissa: u64, exponent: i64) -> usize
    ensures { Puts out.old at (values_text (pos mantissa ∷ exponent ∷ [])) out.new result }
{
    let second = put_value(out, at, mantissa);
    put_signed_value(out, second, exponent)
}

// `refused N at P`.
pub fn put_refusal(out: &mut [u8], at: usize, why: Refusal) -> usize
    ensures { Puts out.old at (refusal_text (number_of why.reason) why.offset) out.new result }
{
    sentences::put_front(out, at, u64::from(why.reason.number()), why.offset as u64)
}

// A call that answers no more than a word where it was accepted.
pub fn put_verdict(out: &mut [u8], at: usize, verdict: Verdict, word: &[u8]) -> usize
    ensures { Puts out.old at (report_text word.now (verdict_report verdict)) out.new result }
{
    match verdict {
        Ok(()) => lines::put(out, at, word),
        Err(why) => put_refusal(out, at, why),
    }
}

// A word and a number.
fn put_count(out: &mut [u8], at: usize, word: &[u8], n: u64) -> usize
    ensures { Puts out.old at (report_text word.now (accepted (pos n ∷ []))) out.new result }
{
    let space = lines::put(out, at, word);
    put_value(out, space, n)
}

// A call that returns a number.
fn put_counted(out: &mut [u8], at: usize, word: &[u8], answer: Result<u64, Refusal>) -> usize
    ensures { Puts out.old at (report_text word.now (answer_report (λ n. pos n ∷ []) answer)) out.new result }
{
    match answer {
        Ok(n) => put_count(out, at, word, n),
        Err(why) => put_refusal(out, at, why),
    }
}

// `bound K steps N`. Where an answer has more than a number, a closure that puts it would be no plainer than the `match`.
pub fn put_performed(out: &mut [u8], at: usize, answer: Result<Performed, Refusal>) -> usize
    ensures { Puts out.old at (performed_text (performed_report answer)) out.new result }
{
    match answer {
        Ok(Performed { bound, steps }) => {
            let behind = put_count(out, at, b"bound", u64::from(bound));
            put_count(out, behind, b" steps", steps as u64)
        }
        Err(why) => put_refusal(out, at, why),
    }
}

// `steps N`.
pub fn put_foretold(out: &mut [u8], at: usize, answer: Result<usize, Refusal>) -> usize
    ensures { Puts out.old at (report_text (ascii "steps") (foretold_report answer)) out.new result }
{
    put_written(out, at, b"steps", answer)
}

// `bound K`.
pub fn put_bounded(out: &mut [u8], at: usize, answer: Result<u32, Refusal>) -> usize
    ensures { Puts out.old at (report_text (ascii "bound") (bounded_report answer)) out.new result }
{
    put_counted(out, at, b"bound", answer.map(u64::from))
}

// `wrote N`, `length N` or `steps N`, by the word.
pub fn put_written(out: &mut [u8], at: usize, word: &[u8], answer: Result<usize, Refusal>) -> usize
    ensures { Puts out.old at (report_text word.now (written_report answer)) out.new result }
{
    put_counted(out, at, word, answer.map(|n| n as u64))
}

// `reversals N`.
pub fn put_reversals(out: &mut [u8], at: usize, answer: Result<u64, Refusal>) -> usize
    ensures { Puts out.old at (report_text (ascii "reversals") (reversals_report answer)) out.new result }
{
    put_counted(out, at, b"reversals", answer)
}

// `number M E`.
pub fn put_valued(out: &mut [u8], at: usize, answer: Result<Value, Refusal>) -> usize
    ensures { Puts out.old at (report_text (ascii "number") (valued_report answer)) out.new result }
{
    match answer {
        Ok(value) => {
            let space = lines::put(out, at, b"number");
            put_factor(out, space, value)
        }
        Err(why) => put_refusal(out, at, why),
    }
}

// `number M E rest R X`.
pub fn put_worked(out: &mut [u8], at: usize, answer: Result<Worked, Refusal>) -> usize
    ensures { Puts out.old at (worked_text (worked_report answer)) out.new result }
{
    match answer {
        Ok(worked) => {
            let space = lines::put(out, at, b"number");
            let behind = put_number(out, space, worked.mantissa, worked.exponent);
            let first = lines::put(out, behind, b" rest");
            let second = put_signed_value(out, first, worked.rest);
            put_signed_value(out, second, worked.rest_exponent)
        }
        Err(why) => put_refusal(out, at, why),
    }
}

// `rest BYTES`.
pub fn put_rest(out: &mut [u8], at: usize, bytes: &[u8]) -> usize
    ensures { Puts out.old at (with_bytes (report_text (ascii "rest") (accepted [])) bytes.now) out.new result }
{
    let part = lines::put(out, at, b"rest ");
    lines::put_bytes(out, part, bytes)
}

// `bad request`.
pub fn put_bad(out: &mut [u8], at: usize) -> usize
    ensures { Puts out.old at bad_text out.new result }
{
    lines::put(out, at, b"bad request")
}
