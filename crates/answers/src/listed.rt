// List items, lent as three numbers each, and put as `sign,mantissa,exponent`.
ghost use Rattle.std.specs.Prelude.{◌≡◌, length};
ghost use Rattle.lines.specs.Text.{Puts};
ghost use Rattle.answers.specs.Items.{item_text_at, more_items, items_text};

use crate::put_integer;

// An item: its sign, mantissa and exponent.
fn put_item(out: &mut [u8], at: usize, item: &[i64]) -> usize
    requires { length item.now ≡ 3 }
    ensures { Puts out.old at (item_text_at item.now 0) out.new result }
{
    let comma = put_integer(out, at, item[0]);
    let second = lines::put(out, comma, b",");
    let end = put_integer(out, second, item[1]);
    let third = lines::put(out, end, b",");
    put_integer(out, third, item[2])
}

// The items of a list, each behind a space.
fn put_more(out: &mut [u8], at: usize, list: &[i64]) -> usize
    ensures { Puts out.old at (more_items list.now) out.new result }
{
    let mut to = at;
    for item in list.chunks_exact(3) {
        let next = lines::put(out, to, b" ");
        to = put_item(out, next, item);
    }
    to
}

// The items of a list, a space between two, `-` for none.
pub fn put_items(out: &mut [u8], at: usize, list: &[i64]) -> usize
    ensures { Puts out.old at (items_text list.now) out.new result }
{
    if list.len() < 3 {
        return lines::put(out, at, b"-");
    }
    let second = put_item(out, at, &list[..3]);
    put_more(out, second, &list[3..])
}
