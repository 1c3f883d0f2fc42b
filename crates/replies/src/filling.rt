// List items as they are lent.
ghost use Rattle.std.specs.Prelude.{◌≡◌, ◌/◌, length};
ghost use Rattle.std.proofs.lemmas.List.Edits.{sets};
ghost use Rattle.replies.specs.Calls.{lent_items};

// Fills a list with the item 1,2147483648,0, as it is lent. With `chunks_exact_mut` the proof did not close: no invariant was found that says of the parts
// lent out what the list holds at the end.
pub fn fill(list: &mut [i64])
    ensures { list.new ≡ sets list.old 0 (lent_items (length list.old / 3)) }
{
    let mut k: usize = 0;
    while 3 <= list.len() - k {
        list[k] = 1;
        list[k + 1] = 2147483648;
        list[k + 2] = 0;
        k += 3;
    }
}
