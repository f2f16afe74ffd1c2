ghost use Rattle.std.specs.Prelude.{◌≡◌, take, drop, IfOk, OnOk};
ghost use Rattle.pair_net.specs.Ends.{fresh_end, reached_by, taken_out};

use crate::EndPhase;
use hs_message::VersionInfo;
use mux_segment::Cutter;
use net_base::{Octets, OutOfMemory};
use std::alloc::Global;

/// One end, and the pipe towards it.
#[derive(Drop)]
pub(crate) struct EndState {
    /// What it says of itself.
    pub info: VersionInfo,
    pub phase: EndPhase,
    /// What it has received while it waited and is not decoded yet.
    pub stream: Cutter,
    /// The bytes in the pipe towards it.
    pub incoming: Octets,
}

impl EndState {
    /// An end to which nothing has happened yet. Takes no memory.
    pub fn new(alloc: Global, info: VersionInfo) -> Self
        ensures { result ≡ fresh_end info }
    {
        EndState {
            info,
            phase: EndPhase::Fresh,
            stream: Cutter::new(alloc),
            incoming: Octets::new(alloc),
        }
    }

    /// The other end puts bytes into the pipe.
    pub fn reach(&mut self, bytes: &[u8]) -> Result<(), OutOfMemory>
        ensures { OnOk result (self.new ≡ reached_by bytes.now self.old) }
    {
        self.incoming.extend_from_slice(bytes)?;
        Ok(())
    }

    /// Takes the next bytes out of the pipe, so many or all.
    pub fn take(&mut self, alloc: Global, count: u64) -> Result<Octets, OutOfMemory>
        ensures bytes { IfOk result (λ bytes. bytes ≡ take count self.old.incoming) }
        ensures pipe { OnOk result (self.new ≡ taken_out count self.old) }
    {
        let (next, rest) = split_front(self.incoming.as_slice(), count);
        let next = Octets::from_slice(alloc, next)?;
        self.incoming = Octets::from_slice(alloc, rest)?;
        Ok(next)
    }
}

fn split_front(bytes: &[u8], count: u64) -> (&[u8], &[u8])
    ensures front { result.0.now ≡ take count bytes.now }
    ensures rest { result.1.now ≡ drop count bytes.now }
{
    if count < bytes.len() as u64 {
        bytes.split_at(count as usize)
    } else {
        (bytes, &[])
    }
}
