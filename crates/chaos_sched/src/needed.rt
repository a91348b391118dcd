ghost use Rattle.std.specs.Prelude.{◌≡◌, IfOk};
ghost use Rattle.chaos_sched.specs.Scheduled.{needed_from, needed_items};

use crate::in_order::put_in_order;
use crate::{Item, Need};
use fd_words::{Memory, Role};
use std::alloc::Global;

/// The items that are needed of a node in a role.
pub fn needed(alloc: Global, needs: &[Need], role: Role, owner: u32) -> Result<Vec<Item>, Memory>
    ensures { IfOk result (λ items. items.items ≡ needed_from role owner needs.now) }
{
    let mut items = chosen(alloc, needs, role, owner)?;
    put_in_order(&mut items);
    Ok(items)
}

fn chosen(alloc: Global, needs: &[Need], role: Role, owner: u32) -> Result<Vec<Item>, Memory>
    ensures { IfOk result (λ items. items.items ≡ needed_items role owner needs.now) }
{
    let items = needs
        .iter()
        .filter(|need| need.role == role && need.place.owner == owner)
        .map(|need| Item {
            array: need.array,
            element: need.element,
            local: need.place.local,
            slot: need.slot,
        })
        .collect(alloc)?;
    Ok(items)
}
