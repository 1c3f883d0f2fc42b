// Writes a matrix as bytes (document 01, "Bytes"): n, then its factors row by row. The factors are the first n times n of 64 numbers.
#![tactic(auto)]

ghost use Rattle.std.specs.Prelude.{◌≡◌, ◌≤◌, length};
ghost use Rattle.std.proofs.lemmas.List.Edits.{sets};
ghost use Rattle.writer.specs.Encoding.{factor_bytes, square_factors, encoding, encoded_length, writing_report, bytes_after_writing, written_report};

use number::Number;
use verdict::{Reason, Refusal, refuse_if};

// The exponent -1001, as it is kept: an exponent code counts from there.
pub const CODE_ZERO: u64 = 4193303;

// The factors of a matrix of n rows.
fn factors(numbers: &[Number; 64], n: usize) -> &[Number]
    ensures { result.now ≡ square_factors n numbers.now }
{
    &numbers[..n.saturating_mul(n).min(64)]
}

#[tactic(auto, unfolding(crate::specs::Encoding::factor_bytes))]
fn factor_length(a: Number) -> usize
    ensures value { result ≡ length (factor_bytes a) }
    ensures upper_bound { result ≤ 20 }
{
    if a.m == 0 {
        return group::width(0);
    }
    group::width(a.x.saturating_sub(CODE_ZERO)) + group::width(a.m.saturating_sub(0x8000_0000))
}

// How many bytes the matrix of n rows takes.
// A walk of its own beside `put_matrix`: lent bytes that are too few stay as they were, and one walk over a sink that counts or writes is no plainer.
pub fn matrix_length(numbers: [Number; 64], n: usize) -> usize
    ensures { result ≡ encoded_length n (square_factors n numbers) }
{
    // std has no `From` of a `usize`.
    let mut total = group::width(n as u64);
    for &a in factors(&numbers, n) {
        total += factor_length(a);
    }
    total
}

// Writes a factor at the start of out, and answers how many bytes that took.
#[tactic(auto, unfolding(crate::specs::Encoding::factor_bytes))]
fn put_factor(out: &mut [u8], a: Number) -> usize
    requires { length (factor_bytes a) ≤ length out.old }
    ensures value { result ≡ length (factor_bytes a) }
    ensures out_after { out.new ≡ sets out.old 0 (factor_bytes a) }
{
    if a.m == 0 {
        return group::put(out, 0);
    }
    let at = group::put(out, a.x.saturating_sub(CODE_ZERO));
    at + group::put(&mut out[at..], a.m.saturating_sub(0x8000_0000))
}

// Writes n and the factors at the start of out, and answers how many bytes that took.
fn put_matrix(out: &mut [u8], n: usize, factors: &[Number]) -> usize
    requires { encoded_length n factors.now ≤ length out.old }
    ensures value { result ≡ encoded_length n factors.now }
    ensures out_after { out.new ≡ sets out.old 0 (encoding n factors.now) }
{
    let mut at = group::put(out, n as u64);
    for &a in factors {
        at += put_factor(&mut out[at..], a);
    }
    at
}

// Writes the matrix of n rows to lent bytes. No byte past its length is changed.
#[tactic(auto, unfolding(crate::specs::Encoding::writing_report, crate::specs::Encoding::bytes_after_writing))]
pub fn write_matrix(numbers: [Number; 64], n: usize, out: &mut [u8]) -> Result<usize, Refusal>
    ensures result_value { written_report result ≡ writing_report out.old (encoding n (square_factors n numbers)) }
    ensures out_after { out.new ≡ bytes_after_writing out.old (encoding n (square_factors n numbers)) }
{
    let need = matrix_length(numbers, n);
    refuse_if(out.len() < need, Reason::OutputTooShort)?;
    Ok(put_matrix(out, n, factors(&numbers, n)))
}
