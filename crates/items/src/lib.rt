// List items, an item as three whole numbers: a list read and judged, and items written.
#![tactic(auto)]

ghost use Rattle.std.specs.Prelude.{◌≡◌, ◌+◌, ◌*◌, ◌≤◌, ◌<◌, nat_abs, length, take};
ghost use Rattle.std.proofs.lemmas.List.Edits.{sets};
ghost use Rattle.number.specs.Number.{reach};
ghost use Rattle.number.specs.Signed.{SignedRanged};
ghost use Rattle.number.specs.Integer.{biased};
ghost use Rattle.items.specs.Items.{signed_item, list_of, listed_within, sign_of, item_numbers, list_numbers, ItemsRanged};

use number::signed::Signed;
use number::{BIAS, Number};

// The items of a proper list, at the start of eight: no call allocates memory.
#[derive(Clone, Copy)]
pub struct ItemList {
    pub count: usize,
    pub items: [Signed; 8],
}

// An exponent as it is kept.
fn biased(e: i64) -> u64
    requires { nat_abs e ≤ 1000 }
    ensures { result ≡ biased e }
{
    (BIAS as i64 + e) as u64
}

// The item of sign s, mantissa m and exponent e.
#[tactic(auto, using(crate::proofs::ItemForms::malformed, std::proofs::lemmas::Int::ints))]
fn item_of(s: i64, m: i64, e: i64) -> Option<Signed>
    ensures { result ≡ signed_item s m e }
{
    match (s, m, e) {
        (0, 0, 0) => Some(Signed::zero()),
        (-1 | 1, 0x8000_0000..=0xffff_ffff, -1000..=1000) => Some(Signed {
            negative: s < 0,
            size: Number {
                m: m as u64,
                x: biased(e),
            },
        }),
        _ => None,
    }
}

// A list of least to most items.
pub fn read(items: &[i64], least: usize, most: usize) -> Option<ItemList>
    requires { most ≤ 8 }
    ensures { result ≡ listed_within least most (list_of items.now) }
{
    let count = items.len() / 3;
    if items.len() % 3 != 0 || count < least || most < count {
        return None;
    }
    let mut list = [Signed::zero(); 8];
    for k in 0..count {
        list[k] = item_of(items[3 * k], items[3 * k + 1], items[3 * k + 2])?;
    }
    Some(ItemList { count, items: list })
}

fn sign(a: Signed) -> i64
    ensures { result ≡ sign_of a }
{
    match (a.size.m, a.negative) {
        (0, _) => 0,
        (_, true) => -1,
        (_, false) => 1,
    }
}

// Writes an item's three numbers from index `at` on.
fn put(a: Signed, out: &mut [i64], at: usize)
    requires { SignedRanged reach a × (at + 2 < length out.old) }
    ensures { out.new ≡ sets out.old at (item_numbers a) }
{
    out[at] = sign(a);
    out[at + 1] = a.size.m as i64;
    out[at + 2] = a.size.exponent();
}

// Writes the first n of eight items.
pub fn write(v: [Signed; 8], n: usize, out: &mut [i64])
    requires { (n ≤ 8) × ItemsRanged reach n v × (3 * n ≤ length out.old) }
    ensures { out.new ≡ sets out.old 0 (list_numbers (take n v)) }
{
    for (k, a) in v[..n].iter().enumerate() {
        put(*a, out, 3 * k);
    }
}
