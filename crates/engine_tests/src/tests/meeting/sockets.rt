ghost use Rattle.std.specs.Prelude.{◌≡◌, true};

use super::super::local;
use super::{config_of, listener, opened};
use loop_world::LoopWorld;
use net_base::{Addr, AddrList, Event};
use node_world::{Next, World, WorldRefusal};
use std::io::Write;
use std::net::{SocketAddr, TcpStream};
use std::test::Fail;

fn socket_addr(port: u16) -> SocketAddr {
    SocketAddr::from(([127, 0, 0, 1], port))
}

// A port at which nobody listens.
fn free_port(rt: &HostRuntime) -> Result<u16, Fail> {
    Ok(listener(rt)?.local_addr()?.port())
}

// What comes of opening a world that is to listen at a port.
fn opening(rt: &HostRuntime, port: u16) -> Result<(), WorldRefusal> {
    LoopWorld::new(rt.alloc(), rt).open(&config_of(local(port)), &AddrList::new(rt.alloc()))
}

#[test]
fn an_address_in_use_is_a_fault(rt: HostRuntime) -> Result<(), Fail> {
    let taken = listener(&rt)?;
    let port = taken.local_addr()?.port();
    assert!(rt; opening(&rt, port) == Err(WorldRefusal::Failed));
    drop(taken);
    assert!(rt; opening(&rt, port) == Ok(()));
    Ok(())
}

// A peer that says this and goes.
fn visit(rt: &HostRuntime, port: u16, says: &[u8]) -> Result<(), Fail> {
    let mut stream = TcpStream::connect(rt, socket_addr(port))?;
    Ok(stream.write_all(says)?)
}

// The address of the peer that connected, where that is what comes next.
fn caller<W: World>(world: &mut W) -> Result<Option<Addr>, Fail>
    requires { W.is_open world.old ≡ true }
    ensures { W.is_open world.new ≡ true }
{
    match world.next() {
        Ok(Next::Event(Event::Accepted(addr))) => Ok(Some(addr)),
        Ok(_) => Ok(None),
        Err(_) => Err("no event comes".into()),
    }
}

// The address of the next peer that connects. None is where nobody does within a thousand events.
fn next_caller<W: World>(world: &mut W) -> Result<Option<Addr>, Fail>
    requires { W.is_open world.old ≡ true }
{
    for _ in 0..1000 {
        let caller = caller(world)?;
        if caller.is_some() {
            return Ok(caller);
        }
    }
    Ok(None)
}

// One ends before it has said all of its address, one begins as no announcement does, and one announces port 3003.
fn visit_all(rt: &HostRuntime, port: u16) -> Result<(), Fail> {
    visit(rt, port, &[4, 127, 0, 0, 1, 11])?;
    visit(rt, port, &[5, 127, 0, 0, 1, 11, 186])?;
    visit(rt, port, &[4, 127, 0, 0, 1, 11, 187])
}

#[test]
fn who_goes_unannounced_is_not_told_of(rt: HostRuntime) -> Result<(), Fail> {
    let port = free_port(&rt)?;
    let mut world = opened(&rt, local(port))?;
    visit_all(&rt, port)?;
    assert!(rt; next_caller(&mut world)? == Some(local(3003)));
    Ok(())
}
