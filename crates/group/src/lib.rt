// Group numbers: seven bits a byte, lowest first, the top bit set on all bytes but the last, in the fewest bytes, below 2^32.
#![tactic(auto)]

ghost use Rattle.std.specs.Prelude.{◌≡◌, ◌≤◌, length};
ghost use Rattle.std.proofs.lemmas.List.Edits.{sets};
ghost use Rattle.group.specs.Group.{group_of, bytes_of, Inside};

// A group number that was read, and how many bytes hold it.
#[derive(Clone, Copy)]
pub struct Group {
    pub value: u64,
    pub bytes: usize,
}

// Why no group number stands at the start of a run of bytes.
#[derive(Clone, Copy)]
pub enum GroupFault {
    // The bytes end before the number does.
    Ended,
    // Not in the fewest bytes, or 2^32 or more, or a fifth byte with its top bit set.
    Faulty,
}

// The group number at the start of s, the part of an input that starts at the next item.
pub fn group_at(s: &[u8]) -> Result<Group, GroupFault>
    ensures value { result ≡ group_of s.now }
    ensures inside { Inside (length s.now) result }
{
    let mut value: u64 = 0;
    let mut weight: u64 = 1;
    for i in 0..5 {
        let Some(&byte) = s.get(i) else {
            return Err(GroupFault::Ended);
        };
        let b = u64::from(byte);
        if b < 128 {
            let later = i != 0;
            if b == 0 && later {
                return Err(GroupFault::Faulty);
            }
            let total = value + weight * b;
            let fits = total < 4294967296;
            if fits {
                return Ok(Group {
                    value: total,
                    bytes: i + 1,
                });
            }
            return Err(GroupFault::Faulty);
        }
        value += weight * (b - 128);
        weight *= 128;
    }
    Err(GroupFault::Faulty)
}

// How many bytes hold v.
pub fn width(v: u64) -> usize
    ensures value { result ≡ length (bytes_of v) }
    ensures upper_bound { result ≤ 10 }
{
    let mut rest = v;
    // No `for`: how many bytes come is known only once the number is through; here and in `put`.
    let mut passed = 0;
    while rest > 127 {
        rest /= 128;
        passed += 1;
    }
    passed + 1
}

// Writes v at the start of out, and answers how many bytes that took. No byte past those is changed.
pub fn put(out: &mut [u8], v: u64) -> usize
    requires { length (bytes_of v) ≤ length out.old }
    ensures value { result ≡ length (bytes_of v) }
    ensures out_after { out.new ≡ sets out.old 0 (bytes_of v) }
{
    let mut rest = v;
    let mut i: usize = 0;
    while 128 <= rest {
        // `as`, proved to lose nothing: no form of std is plainer.
        out[i] = (128 + rest % 128) as u8;
        rest /= 128;
        i += 1;
    }
    out[i] = rest as u8;
    i + 1
}
