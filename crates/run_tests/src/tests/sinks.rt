use io_edge::MemSink;
use net_base::NumberList;
use std::alloc::Global;
use std::test::Fail;

// A sink with room for so many bytes, whose calls with these numbers fail.
pub fn sink(alloc: Global, room: usize, failing: &[u64]) -> Result<MemSink, Fail> {
    let failing = NumberList::from_slice(alloc, failing)?;
    Ok(MemSink::new(alloc, room, failing)?)
}
