use crate::tests::steps::addresses::A1;
use govern_rules::Link;
use net_base::Cid;

/// The link of an address, as one of those below.
macro_rules! link {
    ($addr:ident, $kind:ident) => {
        govern_rules::Link {
            addr: $addr,
            ..$kind
        }
    };
}

pub(crate) use link;

/// This side has closed it.
pub const CLOSED: Link = Link {
    addr: A1,
    cid: Cid(1),
    live: false,
    acquirable: false,
    pending: false,
    local: false,
    sharing: false,
    owes2: false,
    owes8: false,
    owes10: false,
};

pub const ACQUIRABLE: Link = Link {
    live: true,
    acquirable: true,
    ..CLOSED
};

pub const PENDING: Link = Link {
    live: true,
    pending: true,
    ..CLOSED
};

/// In use by this side.
pub const IN_USE: Link = Link {
    live: true,
    local: true,
    sharing: true,
    ..CLOSED
};

/// Sharing was not agreed on.
pub const NOT_SHARING: Link = Link {
    sharing: false,
    ..IN_USE
};

/// It was asked to become hot.
pub const OWES2: Link = Link {
    owes2: true,
    ..IN_USE
};

pub const OWES8: Link = Link {
    owes8: true,
    ..IN_USE
};

/// It owes addresses.
pub const OWES10: Link = Link {
    owes10: true,
    ..IN_USE
};
