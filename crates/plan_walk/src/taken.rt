ghost use Rattle.std.specs.Prelude.{◌≡◌, ◌++◌, map, OnOk, IfOk};
ghost use Rattle.plan_walk.specs.Letters.{put_in, numbers_of};

use chaos_letter::Letter;
use fd_words::{Memory, NumberLists, Numbers};
use std::alloc::Global;

/// Appends the numbers of each letter.
fn push_numbers(alloc: Global, lists: &mut NumberLists, letters: &[Letter]) -> Result<(), Memory>
    ensures { OnOk result (lists.new ≡ lists.old ++ map numbers_of letters.now) }
{
    for letter in letters {
        let list = letter.numbers().copy(alloc)?;
        lists.push(list)?;
    }
    Ok(())
}

/// The lists of a phase where all send to all, by ascending sender: those of the letters, and in place
/// `me` the node's own list, which no letter brings.
pub fn taken_lists(
    alloc: Global,
    me: u32,
    own: &Numbers,
    got: &[Letter],
) -> Result<NumberLists, Memory>
    ensures { IfOk result (λ lists. lists ≡ put_in me own.now (map numbers_of got.now)) }
{
    let mut lists = NumberLists::new(alloc);
    let at = (me as usize).min(got.len());
    push_numbers(alloc, &mut lists, &got[..at])?;
    lists.push(own.copy(alloc)?)?;
    push_numbers(alloc, &mut lists, &got[at..])?;
    Ok(lists)
}
