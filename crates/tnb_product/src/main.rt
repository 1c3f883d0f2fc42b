// Loads left.tnb and right.tnb to places 0 and 1, multiplies them into place 2, and prints n, then row, column, mantissa and exponent of
// each factor; at the first refusal only that.
#![tactic(auto)]

ghost use Rattle.std.specs.Prelude.{◌≡◌, ℕ, ◌≤◌, length, take};
ghost use Rattle.lines.specs.Text.{Puts};
ghost use Rattle.verdict.specs.Report.{verdict_report};
ghost use Rattle.verdict.specs.Verdict.{number_of};
ghost use Rattle.places.specs.Shelf.{Good};
ghost use Rattle.operations.specs.Reports.{operated_outcome};
ghost use Rattle.shelf.specs.Reports.{factor_report};
ghost use Rattle.tnb_product.specs.Printed.{factor_line, row_lines, factor_lines, result_text, refusal_line, printed};
ghost use Rattle.tnb_product.specs.Printed.{unless_refused, longest_text, program_text};

use shelf::{Operated, Refusal, Shelf, Value, Verdict};
use std::fs::File;
use std::io::{Read, Write};

// Reads until the file ends or the buffer is full, and answers how many bytes that were.
fn read_all(file: &mut File, buffer: &mut [u8]) -> std::io::Result<usize> {
    let mut have = 0;
    while have < buffer.len() {
        match file.read(&mut buffer[have..])? {
            0 => break,
            n => have += n,
        }
    }
    Ok(have)
}

// Reads a file to the start of the buffer; one that can't be opened, or of which a read fails, counts as no bytes.
fn read_file(rt: &HostRuntime, path: &str, buffer: &mut [u8]) -> usize {
    match File::open(rt, path) {
        Ok(mut file) => read_all(&mut file, buffer).unwrap_or(0),
        Err(_) => 0,
    }
}

// The line of a factor.
fn put_factor(out: &mut [u8], at: usize, i: usize, j: usize, factor: Value) -> usize
    ensures { Puts out.old at (factor_line i j (factor_report factor)) out.new result }
{
    let first = lines::put_whole(out, at, i as u64);
    let second = lines::put(out, first, b" ");
    let third = lines::put_whole(out, second, j as u64);
    let end = answers::put_factor(out, third, factor);
    lines::put(out, end, b"\n")
}

// The lines of row i of place 2, which has n factors. A closure for the text of a factor, to share this with `answers`, would be no plainer.
fn put_row(out: &mut [u8], at: usize, shelf: Shelf, n: usize, i: usize) -> usize
    requires { Good shelf }
    ensures { Puts out.old at (row_lines shelf n i) out.new result }
{
    let mut to = at;
    for j in 1..=n {
        to = put_factor(out, to, i, j, shelf::factor_at(shelf, 2, i, j));
    }
    to
}

// The lines of n rows.
fn put_factors(out: &mut [u8], at: usize, shelf: Shelf, n: usize) -> usize
    requires { Good shelf }
    ensures { Puts out.old at (factor_lines shelf n) out.new result }
{
    let mut to = at;
    for i in 1..=n {
        to = put_row(out, to, shelf, n, i);
    }
    to
}

// n, and a line for each factor of place 2.
fn put_result(out: &mut [u8], shelf: Shelf) -> usize
    requires { Good shelf }
    ensures { Puts out.old 0 (result_text shelf) out.new result }
{
    let n = shelf::rows_at(shelf, 2);
    let end = lines::put_whole(out, 0, n as u64);
    let next = lines::put(out, end, b"\n");
    put_factors(out, next, shelf, n)
}

fn put_refused(out: &mut [u8], why: Refusal) -> usize
    ensures { Puts out.old 0 (refusal_line (number_of why.reason) why.offset) out.new result }
{
    let end = answers::put_refusal(out, 0, why);
    lines::put(out, end, b"\n")
}

// The first refusal of the two loads and the product, or else what the product left at place 2.
fn put_text(out: &mut [u8], left: Verdict, right: Verdict, product: Operated) -> usize
    requires { Good product.shelf }
    ensures { Puts out.old 0 (unless_refused (verdict_report left) (unless_refused (verdict_report right) (printed (operated_outcome product))))
        out.new result }
{
    match left.and(right).and(product.answer) {
        Ok(_) => put_result(out, product.shelf),
        Err(why) => put_refused(out, why),
    }
}

// What is printed, by the bytes of the two files. A refused load leaves its place empty, and the product of that is not printed.
fn text(left: &[u8], right: &[u8], out: &mut [u8]) -> usize
    requires { longest_text ≤ length out.old }
    ensures { take result out.new ≡ program_text left.now right.now }
{
    let first = shelf::load(shelf::new(), 0, left);
    let second = shelf::load(first.shelf, 1, right);
    let product = shelf::product(second.shelf, 0, 1, 2);
    put_text(out, first.verdict, second.verdict, product)
}

// Reads the two files, and puts what is printed. A load judges less than 4,096 bytes, so a longer file may be cut there.
fn put_files(rt: &HostRuntime, left: &mut [u8], right: &mut [u8], out: &mut [u8]) -> usize
    requires { longest_text ≤ length out.old }
    ensures { (a : ℕ) × (b : ℕ) × (take result out.new ≡ program_text (take a left.new) (take b right.new)) }
{
    let a = read_file(rt, "left.tnb", left);
    let b = read_file(rt, "right.tnb", right);
    text(lines::first(left, a), lines::first(right, b), out)
}

fn main(rt: HostRuntime) {
    let mut left = io::buffer();
    let mut right = io::buffer();
    let mut out = io::large_buffer();
    let n = put_files(&rt, &mut left, &mut right, &mut out);
    if rt.stdout().write_all(lines::first(&out, n)).is_err() {
        let told = rt
            .stderr()
            .write_all(b"tnb_product: cannot write its output\n");
        told.is_ok();
    }
}
