// Lists of whole numbers, read from words of a line, one to a word: stamps, places, or the codes of steps.
ghost use Rattle.std.specs.Prelude.{◌≡◌, ◌≤◌, length};
ghost use Rattle.requests.specs.Words.{words_at};
ghost use Rattle.requests.specs.Lists.{list_read};
ghost use Rattle.requests.specs.Wholes.{spelled_member, spelled_wholes};

use crate::{LONGEST, steps};

// What the words of a list are: numbers of 64 bits, of 32, or the steps of a recipe.
#[derive(Clone, Copy, PartialEq, Eq)]
pub enum Member {
    Stamp,
    Place,
    Step,
}

fn spelled_member(word: &[u8], member: Member) -> Option<u64>
    ensures { result ≡ spelled_member member word.now }
{
    match member {
        Member::Stamp => lines::read_whole(word, u64::MAX),
        Member::Place => lines::read_whole(word, u64::from(u32::MAX)),
        Member::Step => steps::spelled_step(word),
    }
}

// Reads each word from an index on as a whole number, and puts it behind those before it.
pub fn read(line: &[u8], at: usize, member: Member, list: &mut [u64]) -> Option<usize>
    requires { 16 ≤ length list.old }
    ensures { list_read 1 list.new result ≡ spelled_wholes member 16 (words_at line.now at) }
{
    // No `for`: where a word starts is known only behind the one before it.
    let mut next = at;
    let mut count: usize = 0;
    while next <= line.len() {
        if LONGEST <= count {
            return None;
        }
        list[count] = spelled_member(lines::word(line, next), member)?;
        next = lines::next_word(line, next);
        count += 1;
    }
    Some(count)
}
