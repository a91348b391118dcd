ghost use Rattle.std.specs.Prelude.{◌≡◌, ◌*◌, length};
ghost use Rattle.chaos_move.specs.Moves.{kept, unpacked};

use crate::rows::value_for;
use chaos_sched::{Item, Items};
use fd_words::{NumberLists, Numbers};

/// Puts the value of each row of a Gather letter into the slot of its item, passing over a row that
/// names another element. It takes no memory.
pub fn unpack(numbers: &Numbers, items: &Items, ghosts: &mut NumberLists)
    requires { length numbers.now ≡ 3 * length items.now }
    ensures { ghosts.new ≡ unpacked numbers.now items.now ghosts.old }
{
    let rows = numbers.as_slice();
    let all = items.as_slice();
    for at in 0..all.len() {
        keep(all[at], value_for(rows, at, all[at]), ghosts);
    }
}

fn keep(item: Item, value: Option<i64>, ghosts: &mut NumberLists)
    ensures { ghosts.new ≡ kept item value ghosts.old }
{
    if let Some(value) = value {
        ghosts.set(u64::from(item.array), u64::from(item.slot), value);
    }
}
