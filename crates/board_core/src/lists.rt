ghost use Rattle.std.specs.Prelude.{◌≡◌, ℕ, ◌<◌, [], ◌∷◌, ◌++◌, replicate, slice_index_or, slice_set, IfOk, vec_len, vec_capacity};
ghost use Rattle.std.specs.List.{HoldsAt};
ghost use Rattle.board_core.specs.Lists.{contents, HaveRoom};

use std::alloc::{AllocError, Global};

/// So many empty lists, each with room for so many numbers.
pub fn empty_lists(alloc: Global, count: usize, room: usize) -> Result<Vec<Vec<u32>>, AllocError>
    ensures empty { IfOk result (λ lists. contents lists.items ≡ replicate count []) }
    ensures room { IfOk result (λ lists. HaveRoom room lists.items) }
{
    let mut lists = Vec::with_capacity(alloc, count)?;
    for _i in 0..count {
        lists.push(Vec::with_capacity(alloc, room)?)?;
    }
    Ok(lists)
}

/// Adds a number to one of the lists, in the room that it has.
pub fn add_to_list(lists: &mut Vec<Vec<u32>>, at: usize, number: u32)
    requires known { at < vec_len lists.old }
    requires room { HoldsAt (λ v. vec_len v < vec_capacity v) lists.old.items at }
    ensures added { contents lists.new.items
        ≡ slice_set (contents lists.old.items) at
        (slice_index_or (contents lists.old.items) at [] ++ number ∷ []) }
    ensures roomy { (room : ℕ) → HaveRoom room lists.old.items → HaveRoom room lists.new.items }
{
    let _ = lists[at].push(number);
}
