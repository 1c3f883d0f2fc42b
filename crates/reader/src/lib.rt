// Reads a matrix from bytes (document 01, "Bytes" and "Turned down for the input"): n, then its factors row by row, each an exponent code and,
// unless that is 0, the rest of a mantissa. Also the part of a bundle behind its first matrix.
#![tactic(auto)]

ghost use Rattle.std.specs.Prelude.{◌≡◌, [], ◌*◌, ◌^◌, ◌≤◌, ◌<◌, length, IfOk};
ghost use Rattle.table.specs.Table.{square_of};
ghost use Rattle.reader.specs.Matrix.{read_to, item_at, mantissa_at, before_in_line, judged_code, factor_at, factors_from};
ghost use Rattle.reader.specs.Matrix.{parsed, matrix_of, OutcomeInside, behind_of};
ghost use Rattle.reader.specs.Faults.{next_row, next_column};

use group::GroupFault;
use number::Number;
use verdict::{Reason, Refusal, refuse_if};
use writer::CODE_ZERO;

// An input, and how far it is read: an offset counts from its start.
#[derive(Clone, Copy)]
struct Input<'a> {
    bytes: &'a [u8],
    at: usize,
    ghost inside: { at ≤ length bytes.now },
}

// A matrix of so many rows, and the offset behind it. The factors stand first among as many numbers as a place of the shelf has, row by row: factor (i, j) of
// n rows is number (i - 1) * n + j - 1, counted from 0. The numbers past them are zero.
#[derive(Clone, Copy)]
pub struct Parsed {
    pub rows: usize,
    pub next: usize,
    pub numbers: [Number; 64],
}

// The factors of a matrix of so many rows that stand before the next one, row by row.
#[derive(Clone, Copy)]
struct Front<'a> {
    rows: usize,
    factors: &'a [Number],
    ghost some: { 0 < rows },
}

impl Front<'_> {
    // The factor just before the next one in its line: below the diagonal the one above it, above the diagonal the one left of it.
    fn just_before(&self) -> Number
        requires { next_row self.now.rows self.now.factors.now ≡ next_column self.now.rows self.now.factors.now → ⊥ }
        ensures { let n = self.now.rows in
            let L = self.now.factors.now in
            result ≡ before_in_line (square_of n L) (next_row n L) (next_column n L) }
    {
        let k = self.factors.len();
        if k % self.rows < k / self.rows {
            self.factors[k - self.rows]
        } else {
            self.factors[k - 1]
        }
    }

    // Judges the exponent code of the next factor.
    #[tactic(auto, unfolding(crate::specs::Matrix::judged_code))]
    fn judge(&self, code: u64) -> Result<(), Reason>
        ensures { result ≡ judged_code self.now.rows self.now.factors.now code }
    {
        if code > 2001 {
            return Err(Reason::FactorOutOfRange);
        }
        let k = self.factors.len();
        let diagonal = k / self.rows == k % self.rows;
        if diagonal && code == 0 {
            return Err(Reason::FactorZero);
        }
        if !diagonal && code != 0 && self.just_before().m == 0 {
            return Err(Reason::PatternBroken);
        }
        Ok(())
    }
}

impl Input<'_> {
    // The group number that comes next.
    #[tactic(auto, unfolding(crate::specs::Matrix::item_at))]
    fn item(&mut self) -> Result<u64, Refusal>
        ensures value { read_to self.new.at result ≡ item_at self.old.bytes.now self.old.at }
        ensures small { IfOk result (λ v. v < 2 ^ 32) }
        ensures kept { self.new.bytes ≡ self.old.bytes }
    {
        match group::group_at(&self.bytes[self.at..]) {
            Ok(group) => {
                self.at += group.bytes;
                Ok(group.value)
            }
            Err(GroupFault::Ended) => Err(Refusal {
                reason: Reason::BytesEndEarly,
                offset: self.bytes.len(),
            }),
            Err(GroupFault::Faulty) => Err(Refusal {
                reason: Reason::MalformedGroup,
                offset: self.at,
            }),
        }
    }

    // The factor whose exponent code was read.
    #[tactic(auto, unfolding(crate::specs::Matrix::mantissa_at))]
    fn mantissa(&mut self, code: u64) -> Result<Number, Refusal>
        requires { code < 2 ^ 32 }
        ensures value { read_to self.new.at result ≡ mantissa_at self.old.bytes.now self.old.at code }
        ensures kept { self.new.bytes ≡ self.old.bytes }
    {
        if code == 0 {
            return Ok(Number::zero());
        }
        let at = self.at;
        let part = self.item()?;
        let too_large = part > 0x7FFF_FFFF;
        if too_large {
            return Err(Refusal {
                reason: Reason::FactorOutOfRange,
                offset: at,
            });
        }
        Ok(Number {
            m: part + 0x8000_0000,
            x: code + CODE_ZERO,
        })
    }

    // The factor that comes next, behind those in front.
    #[tactic(auto, unfolding(crate::specs::Matrix::factor_at))]
    fn factor(&mut self, front: &Front) -> Result<Number, Refusal>
        ensures value { read_to self.new.at result ≡ factor_at self.old.bytes.now front.now.rows front.now.factors.now self.old.at }
        ensures kept { self.new.bytes ≡ self.old.bytes }
    {
        let at = self.at;
        let code = self.item()?;
        match front.judge(code) {
            Ok(()) => self.mantissa(code),
            Err(reason) => Err(Refusal { reason, offset: at }),
        }
    }

    // A matrix of n rows whose factors come next.
    fn matrix(&mut self, n: usize) -> Result<Parsed, Refusal>
        requires { (0 < n) × (n < 9) }
        ensures value { result ≡ parsed (factors_from self.old.bytes.now n [] (n * n) self.old.at) }
        ensures outcome_inside { OutcomeInside (length self.old.bytes.now) result }
    {
        let mut numbers = [Number::zero(); 64];
        for k in 0..n * n {
            let front = Front {
                rows: n,
                factors: &numbers[..k],
            };
            numbers[k] = self.factor(&front)?;
        }
        Ok(Parsed {
            rows: n,
            next: self.at,
            numbers,
        })
    }
}

// The matrix at the start of s.
#[tactic(auto, unfolding(crate::specs::Matrix::matrix_of))]
pub fn read_matrix(s: &[u8]) -> Result<Parsed, Refusal>
    ensures value { result ≡ parsed (matrix_of s.now) }
    ensures outcome_inside { OutcomeInside (length s.now) result }
{
    let mut input = Input { bytes: s, at: 0 };
    let n = input.item()?;
    refuse_if(n < 1 || n > 8, Reason::SizeOutOfRange)?;
    input.matrix(n as usize)
}

// The part of a bundle behind its first matrix, or all of it where a load would refuse that matrix for a fault in its own bytes.
pub fn behind(s: &[u8]) -> &[u8]
    ensures { result.now ≡ behind_of s.now }
{
    match read_matrix(s) {
        Ok(read) => &s[read.next..],
        Err(_) => s,
    }
}
