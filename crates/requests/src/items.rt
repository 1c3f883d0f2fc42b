// List items, three numbers each, read from words of a line as `sign,mantissa,exponent`.
ghost use Rattle.std.specs.Prelude.{◌≡◌, ◌+◌, ◌≤◌, length, drop};
ghost use Rattle.requests.specs.Words.{words_at};
ghost use Rattle.requests.specs.Lists.{list_read};
ghost use Rattle.requests.specs.Items.{spelled_number, spelled_item, spelled_items};

use crate::LONGEST;
use lines::SignedWhole;

#[derive(Clone, Copy)]
pub struct Item {
    pub sign: i64,
    pub mantissa: i64,
    pub exponent: i64,
}

// The number of 64 bits with a sign that a part of an item spells.
fn spelled_number(s: &[u8]) -> Option<i64>
    ensures { result ≡ spelled_number s.now }
{
    match lines::read_signed(s)? {
        SignedWhole::Plus(n) => 0i64.checked_add_unsigned(n),
        SignedWhole::Minus(n) => 0i64.checked_sub_unsigned(n),
    }
}

// What stands behind the first n bytes and one more.
pub fn behind(s: &[u8], n: usize) -> &[u8]
    ensures { result.now ≡ drop (n + 1) s.now }
{
    if s.len() <= n {
        return &[];
    }
    &s[n + 1..]
}

// The call judges an item: a negative mantissa is passed on too. Where a comma lacks, a part is empty and no number.
fn spelled_item(word: &[u8]) -> Option<Item>
    ensures { result ≡ spelled_item word.now }
{
    let a = lines::before(word, b',');
    let rest = behind(word, a);
    let b = lines::before(rest, b',');
    let sign = spelled_number(&word[..a])?;
    let mantissa = spelled_number(&rest[..b])?;
    let exponent = spelled_number(behind(rest, b))?;
    Some(Item {
        sign,
        mantissa,
        exponent,
    })
}

// Reads each word from an index on as an item, and puts its numbers behind those before it.
// (`wholes::read` is its twin: the check does not cover a closure's bound that names how many numbers a word has, and a trait is longer than both.)
pub fn read(line: &[u8], at: usize, list: &mut [i64]) -> Option<usize>
    requires { 48 ≤ length list.old }
    ensures { list_read 3 list.new result ≡ spelled_items 16 (words_at line.now at) }
{
    // No `for`: where a word starts is known only behind the one before it.
    let mut next = at;
    let mut count: usize = 0;
    while next <= line.len() {
        if LONGEST <= count {
            return None;
        }
        let item = spelled_item(lines::word(line, next))?;
        list[count * 3] = item.sign;
        list[count * 3 + 1] = item.mantissa;
        list[count * 3 + 2] = item.exponent;
        next = lines::next_word(line, next);
        count += 1;
    }
    Some(count)
}
