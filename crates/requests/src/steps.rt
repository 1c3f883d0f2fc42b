// The steps of a recipe, read from words of a line as `P,WAY`, each as its code.
ghost use Rattle.std.specs.Prelude.{◌≡◌};
ghost use Rattle.requests.specs.Steps.{spelled_way, spelled_step};

use crate::items;
use recipes::{Way, codes};

// (By `check::same`: a `match` on the word leaves a goal for each byte of each name.)
fn spelled_way(word: &[u8]) -> Option<Way>
    ensures { result ≡ spelled_way word.now }
{
    if check::same(word, b"plain") {
        return Some(Way::Plain);
    }
    if check::same(word, b"inverse") {
        return Some(Way::Inverted);
    }
    if check::same(word, b"converse") {
        return Some(Way::Conversed);
    }
    if check::same(word, b"transpose") {
        return Some(Way::Transposed);
    }
    None
}

// The call judges a place. Where the comma lacks, the way is empty and none.
pub fn spelled_step(word: &[u8]) -> Option<u64>
    ensures { result ≡ spelled_step word.now }
{
    let a = lines::before(word, b',');
    let place = lines::read_whole(&word[..a], u64::from(u32::MAX))?;
    let way = spelled_way(items::behind(word, a))?;
    Some(codes::code(way, place as usize))
}
