ghost use Rattle.std.specs.Prelude.{◌≡◌, ◌++◌, OnOk};
ghost use Rattle.machine.specs.Peers.{peer_fails, peer_succeeds, peer_becomes, peer_was_asked};
ghost use Rattle.node_engine.specs.State.{Does, DoesSilently, temp_notice, known_notices};

use crate::NodeState;
use net_base::{Action, ActionList, Addr, OutOfMemory, PeerNote, Temp};

impl NodeState {
    /// The peer with an address fails, where there is one: it is cold, and left alone for the back-off.
    pub(crate) fn peer_fails(
        &mut self,
        addr: Addr,
        actions: &mut ActionList,
    ) -> Result<(), OutOfMemory>
        ensures { OnOk result (Does (peer_fails addr self.old) actions.old self.new actions.new) }
    {
        let backoff = self.connections.settings().backoff;
        let temp = self.peers.fail(addr, self.moment, backoff);
        tell_temp(addr, temp, actions)
    }

    /// A connection with the peer is in use: it is warm, and its failures are forgotten.
    pub(crate) fn peer_succeeds(
        &mut self,
        addr: Addr,
        actions: &mut ActionList,
    ) -> Result<(), OutOfMemory>
        ensures { OnOk result (Does (peer_succeeds addr self.old) actions.old self.new actions.new) }
    {
        let temp = self.peers.succeed(addr);
        tell_temp(addr, temp, actions)
    }

    /// The peer with an address has a temperature from now on, where there is one.
    pub(crate) fn peer_becomes(
        &mut self,
        temp: Temp,
        addr: Addr,
        actions: &mut ActionList,
    ) -> Result<(), OutOfMemory>
        ensures { OnOk result (Does (peer_becomes temp addr self.old) actions.old self.new actions.new) }
    {
        let told = self.peers.set_temp(addr, temp);
        tell_temp(addr, told, actions)
    }

    /// The peer with an address is not asked for addresses before a moment. Nothing is told of that.
    pub(crate) fn peer_was_asked(&mut self, next: u64, addr: Addr)
        ensures { DoesSilently (peer_was_asked next addr self.old) self.new }
    {
        self.peers.asked(addr, next);
    }
}

/// Each of some addresses is new in the book.
pub(crate) fn tell_known(addrs: &[Addr], actions: &mut ActionList) -> Result<(), OutOfMemory>
    ensures { OnOk result (actions.new ≡ actions.old ++ known_notices addrs.now) }
{
    for addr in addrs {
        actions.push(Action::Peer(*addr, PeerNote::Known))?;
    }
    Ok(())
}

// The temperature of a peer is told, where there is one to tell.
fn tell_temp(addr: Addr, temp: Option<Temp>, actions: &mut ActionList) -> Result<(), OutOfMemory>
    ensures { OnOk result (actions.new ≡ actions.old ++ temp_notice addr temp) }
{
    match temp {
        Some(Temp::Cold) => actions.push(Action::Peer(addr, PeerNote::Cold)),
        Some(Temp::Warm) => actions.push(Action::Peer(addr, PeerNote::Warm)),
        Some(Temp::Hot) => actions.push(Action::Peer(addr, PeerNote::Hot)),
        None => Ok(()),
    }
}
