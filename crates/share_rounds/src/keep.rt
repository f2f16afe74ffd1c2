ghost use Rattle.std.specs.Prelude.{◌≡◌, ◌++◌, ◌∷◌, [], OnOk, if◌then◌else◌};

use net_base::{Addr, AddrList, OutOfMemory};

/// Puts an address at the end of a list, where it may stand there.
pub(crate) fn keep_where(list: &mut AddrList, may: bool, addr: Addr) -> Result<(), OutOfMemory>
    ensures { OnOk result (list.new ≡ (if may then list.old ++ addr ∷ [] else list.old)) }
{
    if may {
        list.push(addr)?;
    }
    Ok(())
}
