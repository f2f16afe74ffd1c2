ghost use Rattle.std.specs.Prelude.{◌≡◌, ◌≤◌, ◌<◌, ◌^◌, Bool, true, false, length};
ghost use Rattle.std.specs.Fn.{ComputesKey};
ghost use Rattle.std.specs.List.Sorted.{IsPartitionedBy, IsPartitionPoint};
ghost use Rattle.chunked_list.specs.Chunks.{joined, begins, AreChunks};

use crate::chunk::Chunk;
use crate::point::point_of;

// How many items pass, where those that do stand before the others.
pub fn point_in<T, P: Fn(&T) -> bool>(chunks: &[Chunk<T>], firsts: &[u32], pred: P) -> usize
    requires kept { AreChunks chunks.now firsts.now }
    requires few { length (joined chunks.now) < 2 ^ 64 }
    requires callable { P.IsAlwaysCallable pred }
    ensures bound { result ≤ length (joined chunks.now) }
    ensures partitioned { (p : T → Bool) → ComputesKey P.FnMut p pred → IsPartitionedBy p (joined chunks.now) → IsPartitionPoint (λ y. p y ≡ true) (λ y. p y ≡ false) (joined chunks.now) result }
{
    let begun = point_of(
        chunks,
        |chunk: &Chunk<T>| -> bool
            requires { P.IsAlwaysCallable pred }
            ensures { (p : T → Bool) → ComputesKey P.FnMut p pred → result ≡ begins p chunk.now }
        {
            match chunk.items.first() {
                Some(item) => pred(item),
                None => false,
            }
        },
    );
    let Some(last) = begun.checked_sub(1) else {
        return 0;
    };
    firsts[last] as usize + chunks[last].items.partition_point(pred)
}
