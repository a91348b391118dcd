ghost use Rattle.std.specs.Prelude.{◌≡◌};
ghost use Rattle.chaos_sched.specs.Scheduled.{in_order};

use crate::Item;
use list_laws::ascend;

/// Puts items in ascending order by array and element, and keeps one of each element.
pub fn put_in_order(items: &mut Vec<Item>)
    ensures { items.new.items ≡ in_order items.old.items }
{
    ascend(items);
    items.dedup_by(|next, kept| next.array == kept.array && next.element == kept.element);
}
