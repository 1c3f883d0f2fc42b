// Text put into a buffer from an index on. What has no room is left out.
ghost use Rattle.std.specs.Prelude.{◌≡◌, ◌<◌};
ghost use Rattle.io.specs.Digits.{hex_digit_ascii};
ghost use Rattle.lines.specs.Text.{Puts, decimal, signed_text, pair_text, pairs_text, bytes_text};

// Puts text at an index, and answers the index behind it.
pub fn put(out: &mut [u8], at: usize, text: &[u8]) -> usize
    ensures { Puts out.old at text.now out.new result }
{
    if out.len() < at {
        return at;
    }
    let count = text.len().min(out.len() - at);
    out[at..at + count].copy_from_slice(&text[..count]);
    at + count
}

// A whole number in decimal.
pub fn put_whole(out: &mut [u8], at: usize, n: u64) -> usize
    ensures { Puts out.old at (decimal n) out.new result }
{
    let mut text = [0u8; 20];
    let k = io::decimal(n, &mut text);
    put(out, at, &text[..k])
}

// A number with its sign: `-` in front of a negative one.
pub fn put_signed(out: &mut [u8], at: usize, negative: bool, size: u64) -> usize
    ensures { Puts out.old at (signed_text negative size) out.new result }
{
    if negative {
        let next = put(out, at, b"-");
        return put_whole(out, next, size);
    }
    put_whole(out, at, size)
}

fn glyph(d: u8) -> u8
    requires { d < 16 }
    ensures { result ≡ hex_digit_ascii d }
{
    if d < 10 { 48 + d } else { 87 + d }
}

fn put_pair(out: &mut [u8], at: usize, b: u8) -> usize
    ensures { Puts out.old at (pair_text b) out.new result }
{
    let text = [glyph(b / 16), glyph(b % 16)];
    put(out, at, &text)
}

fn put_pairs(out: &mut [u8], at: usize, s: &[u8]) -> usize
    ensures { Puts out.old at (pairs_text s.now) out.new result }
{
    let mut to = at;
    for &b in s {
        to = put_pair(out, to, b);
    }
    to
}

// Bytes in hexadecimal, `-` for none.
pub fn put_bytes(out: &mut [u8], at: usize, s: &[u8]) -> usize
    ensures { Puts out.old at (bytes_text s.now) out.new result }
{
    if s.is_empty() {
        return put(out, at, b"-");
    }
    put_pairs(out, at, s)
}
