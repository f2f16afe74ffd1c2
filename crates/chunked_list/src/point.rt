ghost use Rattle.std.specs.Prelude.{◌≡◌, ◌≤◌, Bool, true, false, length};
ghost use Rattle.std.specs.Fn.{ComputesKey};
ghost use Rattle.std.specs.List.Sorted.{IsPartitionedBy, IsPartitionPoint};

// How many items pass, where those that do stand before the others. The last is looked at first: in a list that grows
// at its end, most of what is looked for stands there.
pub fn point_of<T, P: Fn(&T) -> bool>(items: &[T], pred: P) -> usize
    requires { P.IsAlwaysCallable pred }
    ensures bound { result ≤ length items.now }
    ensures partitioned { (p : T → Bool) → ComputesKey P.FnMut p pred → IsPartitionedBy p items.now → IsPartitionPoint (λ y. p y ≡ true) (λ y. p y ≡ false) items.now result }
{
    let Some(last) = items.len().checked_sub(1) else {
        return 0;
    };
    if pred(&items[last]) {
        return items.len();
    }
    items.partition_point(pred)
}
