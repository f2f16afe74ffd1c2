ghost use Rattle.std.specs.Prelude.{◌≡◌, ◌<◌, ◌^◌, length, take, drop};
ghost use Rattle.chunked_list.specs.Chunks.{joined, AreChunks, IsInside, place_of, halved};

use crate::chunk::{Chunk, HALF};
use crate::first::begun_by;

// Where an item stands: in which chunk, and where in it.
#[derive(Clone, Copy)]
pub struct Spot {
    pub chunk: usize,
    pub at: usize,
}

// Where the item at a place of the list stands.
pub fn spot_of<T>(chunks: &[Chunk<T>], firsts: &[u32], place: usize) -> Spot
    requires kept { AreChunks chunks.now firsts.now }
    requires inside { place < length (joined chunks.now) }
    ensures inside { IsInside chunks.now result }
    ensures place { place_of chunks.now result ≡ place }
{
    let chunk = begun_by(firsts, place) - 1;
    Spot {
        chunk,
        at: place - firsts[chunk] as usize,
    }
}

// The items of a chunk from a spot on.
pub fn run_at<T>(chunks: &[Chunk<T>], spot: Spot) -> &[T]
    requires { IsInside chunks.now spot }
    ensures front { result.now ≡ take (length result.now) (drop (place_of chunks.now spot) (joined chunks.now)) }
    ensures some { 0 < length result.now }
{
    let (_, run) = chunks[spot.chunk].items.split_at(spot.at);
    run
}

// Where an item stands after its chunk was cut in two.
pub fn halved(spot: Spot) -> Spot
    requires { spot.chunk < 2 ^ 63 }
    ensures { result ≡ halved spot }
{
    if spot.at < HALF {
        spot
    } else {
        Spot {
            chunk: spot.chunk + 1,
            at: spot.at - HALF,
        }
    }
}
