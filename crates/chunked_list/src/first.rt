ghost use Rattle.std.specs.Prelude.{◌≡◌, ◌+◌, ◌<◌, ◌≤◌, ◌^◌, ℕ, true, false, nat_le, length, slice_index_or};
ghost use Rattle.std.specs.List.Sorted.{IsPartitionedBy, IsPartitionPoint};
ghost use Rattle.chunked_list.specs.Firsts.{raised, lowered};

// One item more stands before each chunk from a place on. The numbers stand close together, so that several are told
// at a time.
pub fn raise(firsts: &mut [u32], from: usize)
    requires few { (i d : ℕ) → i < length firsts.old → slice_index_or firsts.old i d + 1 < 2 ^ 32 }
    ensures { firsts.new ≡ raised from firsts.old }
{
    for place in from..firsts.len() {
        firsts[place] += 1;
    }
}

// One item less stands before each chunk from a place on.
pub fn lower(firsts: &mut [u32], from: usize)
    requires some { (i d : ℕ) → from ≤ i → i < length firsts.old → 1 ≤ slice_index_or firsts.old i d }
    ensures { firsts.new ≡ lowered from firsts.old }
{
    for place in from..firsts.len() {
        firsts[place] -= 1;
    }
}

// How many chunks begin at a place of the list or before it. The last one is looked at first, and then the one where the place
// would be if all had as many items. A guess that is wrong, as where the product wraps, is seen to be.
pub fn begun_by(firsts: &[u32], place: usize) -> usize
    requires { 0 < length firsts.now }
    ensures bound { result ≤ length firsts.now }
    ensures partitioned { IsPartitionedBy (λ f. nat_le f place) firsts.now → IsPartitionPoint (λ f. nat_le f place ≡ true) (λ f. nat_le f place ≡ false) firsts.now result }
{
    let last = firsts.len() - 1;
    if firsts[last] as usize <= place {
        return firsts.len();
    }
    let guess = place.wrapping_mul(last) / firsts[last] as usize;
    if is_in(firsts, guess, last, place) {
        return guess + 1;
    }
    firsts.partition_point(|first| *first as usize <= place)
}

// Whether a place is in a chunk before the last one.
fn is_in(firsts: &[u32], chunk: usize, last: usize, place: usize) -> bool
    requires { length firsts.now ≡ last + 1 }
    ensures { result ≡ true → IsPartitionedBy (λ f. nat_le f place) firsts.now → IsPartitionPoint (λ f. nat_le f place ≡ true) (λ f. nat_le f place ≡ false) firsts.now (chunk + 1) }
{
    if chunk >= last {
        return false;
    }
    firsts[chunk] as usize <= place && place < firsts[chunk + 1] as usize
}
