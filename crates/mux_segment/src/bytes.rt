ghost use Rattle.std.specs.Prelude.{◌≡◌, ◌≤◌, length, drop, IfOk};

use net_base::{Octets, OutOfMemory};
use std::alloc::Global;

/// What stands behind the first bytes. Takes no memory where they are none.
pub fn behind(alloc: Global, bytes: Octets, count: usize) -> Result<Octets, OutOfMemory>
    requires { count ≤ length bytes }
    ensures { IfOk result (λ rest. rest ≡ drop count bytes) }
{
    if count == 0 {
        return Ok(bytes);
    }
    Octets::from_slice(alloc, &bytes.as_slice()[count..])
}
