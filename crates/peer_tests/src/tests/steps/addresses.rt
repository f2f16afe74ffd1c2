use net_base::{Addr, Ip};

pub const LOOPBACK: Ip = Ip::V4(0x7f00_0001);

/// 127.0.0.1 with a port.
macro_rules! local {
    ($port:literal) => {
        net_base::Addr {
            ip: $crate::tests::steps::addresses::LOOPBACK,
            port: $port,
        }
    };
}

/// 127.0.0.1 with each of these ports.
macro_rules! locals {
    ($($port:literal),*) => {
        &[$(local!($port)),*]
    };
}

pub(crate) use local;
pub(crate) use locals;

/// The own address of the node.
pub const A1: Addr = local!(3001);

pub const A2: Addr = local!(3002);

pub const A3: Addr = local!(3003);

pub const A4: Addr = local!(3004);

pub const A5: Addr = local!(3005);

pub const A6: Addr = local!(3006);

pub const A7: Addr = local!(3007);

pub const A8: Addr = local!(3008);

pub const A9: Addr = local!(3009);

pub const A10: Addr = local!(3010);

pub const A11: Addr = local!(3011);

pub const A12: Addr = local!(3012);
