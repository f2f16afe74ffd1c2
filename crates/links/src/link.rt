ghost use Rattle.std.specs.Prelude.{◌≡◌};
ghost use Rattle.links.specs.Link.{place_of};

use conn_table::Placed;
use govern_rules::Link;

/// The address and id of a link.
pub fn place_of(link: &Link) -> Placed
    ensures { result ≡ place_of link.now }
{
    Placed {
        addr: link.addr,
        cid: link.cid,
    }
}
