//! Lists in ascending order, and items dealt out to numbered lists.
#![tactic(auto)]

ghost use Rattle.std.specs.Prelude.{◌≡◌};
ghost use Rattle.std.specs.FinMap.{IsAntisymmetric};
ghost use Rattle.list_laws.specs.Order.{ascending};

/// Puts a list in ascending order, each item once. It takes no memory.
pub fn ascend<T: Ord + Drop>(list: &mut Vec<T>)
    requires { IsAntisymmetric T.cmp }
    ensures { list.new.items ≡ ascending T.cmp list.old.items }
{
    list.sort_unstable();
    list.dedup();
}
