ghost use Rattle.net_base.specs.Limits.{IsWithinLimits};

use net_base::{ActionList, Addr, Event, Ip};
use node_engine::Engine;
use std::alloc::Global;
use std::test::Fail;

mod events;
mod meeting;

// 127.0.0.1 with a port.
fn local(port: u16) -> Addr {
    Addr {
        ip: Ip::V4(0x7f00_0001),
        port,
    }
}

// As many events an engine takes at most.
const EVENTS_MOST: u64 = 20_000;

// What an engine does about an event.
fn advance(alloc: Global, engine: &mut Engine, event: &Event) -> Result<ActionList, Fail>
    requires { IsWithinLimits event.now }
{
    if engine.taken() >= EVENTS_MOST {
        return Err("too many events".into());
    }
    Ok(engine.step_in_place(event, ActionList::new(alloc))?)
}
