// Words of a line, and what a word stands for.
ghost use Rattle.std.specs.Prelude.{◌≡◌, ◌/◌, ◌<◌, ◌≤◌, length, take};
ghost use Rattle.std.proofs.lemmas.List.Edits.{sets};
ghost use Rattle.lines.specs.Words.{before, word_at, next_word};
ghost use Rattle.lines.specs.Decimal.{spelled_whole, spelled_signed, WholeUpTo, SignedFits};
ghost use Rattle.lines.specs.Hexadecimal.{nibble_of, byte_of, all_digits, hexadecimal, spelled_bytes, bytes_read, bytes_into};

// A number with a sign, as its size: the sign of a zero is told too.
#[derive(Clone, Copy, PartialEq, Eq)]
pub enum SignedWhole {
    Plus(u64),
    Minus(u64),
}

// How many bytes stand before the first that is `stop`; all, where none is.
pub fn before(s: &[u8], stop: u8) -> usize
    ensures value { result ≡ length (before stop s.now) }
    ensures upper_bound { result ≤ length s.now }
{
    s.iter().position(|&b| b == stop).unwrap_or(s.len())
}

// The word that starts at an index: up to the next space, or to the line's end. No word starts past the end.
pub fn word(s: &[u8], at: usize) -> &[u8]
    ensures { result.now ≡ word_at s.now at }
{
    let Some(rest) = s.get(at..) else {
        return &[];
    };
    &rest[..before(rest, b' ')]
}

// Where the word behind it starts: past the word and a space. Behind the last word that is past the end.
pub fn next_word(s: &[u8], at: usize) -> usize
    ensures { result ≡ next_word s.now at }
{
    match s.get(at..) {
        Some(rest) => at + before(rest, b' ') + 1,
        None => at,
    }
}

// The first elements of a list; all, where it has no more.
pub fn first<T>(s: &[T], count: usize) -> &[T]
    ensures { result.now ≡ take count s.now }
{
    &s[..count.min(s.len())]
}

// The whole number, at most `most`, that decimal digits spell.
pub fn read_whole(s: &[u8], most: u64) -> Option<u64>
    ensures value { result ≡ spelled_whole s.now most }
    ensures whole_up_to { WholeUpTo most result }
{
    if s.is_empty() {
        return None;
    }
    let mut value: u64 = 0;
    for &b in s {
        if !b.is_ascii_digit() {
            return None;
        }
        value = value.checked_mul(10)?.checked_add(u64::from(b - b'0'))?;
        let above = most < value;
        if above {
            return None;
        }
    }
    Some(value)
}

// The number of 64 bits with a sign that decimal digits spell, with `-` in front of a negative one.
pub fn read_signed(s: &[u8]) -> Option<SignedWhole>
    ensures value { result ≡ spelled_signed s.now }
    ensures signed_fits { SignedFits result }
{
    match s {
        [b'-', digits @ ..] => Some(SignedWhole::Minus(read_whole(digits, 1 << 63)?)),
        _ => Some(SignedWhole::Plus(read_whole(s, (1 << 63) - 1)?)),
    }
}

// The value of a hexadecimal digit in lower case, 0 for any other byte.
fn nibble(b: u8) -> u8
    ensures { (result ≡ nibble_of b) × (result < 16) }
{
    match b {
        b'0'..=b'9' => b - b'0',
        b'a'..=b'f' => b - b'a' + 10,
        _ => 0,
    }
}

// The byte that two digits spell.
fn byte(high: u8, low: u8) -> u8
    ensures { result ≡ byte_of high low }
{
    nibble(high) * 16 + nibble(low)
}

fn all_digits(s: &[u8]) -> bool
    ensures { result ≡ all_digits s.now }
{
    s.iter().all(|b| matches!(b, b'0'..=b'9' | b'a'..=b'f'))
}

// Pairs of digits, at least one, or `-` alone.
fn is_hexadecimal(s: &[u8]) -> bool
    ensures { result ≡ hexadecimal s.now }
{
    match s {
        [] => false,
        [b] => *b == b'-',
        _ => s.len() % 2 == 0 && all_digits(s),
    }
}

// Puts the byte of each pair at the start of out.
fn put_pairs(s: &[u8], out: &mut [u8])
    requires { length s.now / 2 ≤ length out.old }
    ensures { out.new ≡ sets out.old 0 (spelled_bytes s.now) }
{
    for (k, pair) in s.chunks_exact(2).enumerate() {
        out[k] = byte(pair[0], pair[1]);
    }
}

// Puts the bytes that s spells in hexadecimal at the start of out, `-` for none, and answers how many. Where s is not of that form, or out is
// too short, out stays as it was.
pub fn read_bytes(s: &[u8], out: &mut [u8]) -> Option<usize>
    ensures value { result ≡ bytes_read s.now out.old }
    ensures out_after { out.new ≡ bytes_into s.now out.old }
{
    let count = s.len() / 2;
    if !is_hexadecimal(s) || out.len() < count {
        return None;
    }
    put_pairs(s, out);
    Some(count)
}
