ghost use Rattle.std.specs.Prelude.{◌≡◌, ◌≤◌, ◌+◌, ◌^◌, true, Some, slice_get, IsSome, IfSome, IfOk, OnOk, OnErr};
ghost use Rattle.mux_segment.specs.Lent.{lent};
ghost use Rattle.std.specs.Option.{option_map};
ghost use Rattle.machine.specs.Replies.{reply_on, paid, is_owed_on};
ghost use Rattle.connections.specs.Owed.{reply_of};
ghost use Rattle.connections.specs.Standing.{entry_with, Turns, owes, fed_of, fed_entry, unread};
ghost use Rattle.connections.specs.Talks.{IsFed};

use super::Connections;
use crate::talk::{Feed, Owe, Pay};
use crate::{Decoded, Reply};
use conn_table::Recent;
use mux_segment::{LentItem, PackedItems};
use net_base::{Cid, OutOfMemory};

impl Connections {
    /// The reply that is owed on a protocol of a connection that stands. None where there is none.
    pub fn reply(&self, cid: Cid, protocol: u16) -> Option<Reply>
        requires { IsSome (entry_with cid.0 self.now) }
        ensures { IfSome (entry_with cid.0 self.now) (λ e. result ≡ option_map reply_of (reply_on protocol e)) }
    {
        let place = self.kept.roster.place_of(cid);
        self.kept.talks.at(place).replies.on(protocol)
    }

    /// A reply on a protocol comes to be owed from a moment on, for what was asked.
    pub fn owe(&mut self, cid: Cid, protocol: u16, asked: u64, now: u64)
        requires stands { IsSome (entry_with cid.0 self.old) }
        requires known { is_owed_on protocol ≡ true }
        requires moment { now ≤ 2 ^ 48 }
        ensures { Turns cid.0 (owes protocol asked (now + self.old.settings.reply)) self.old self.new }
    {
        let place = self.kept.roster.place_of(cid);
        let until = now + self.kept.settings.reply;
        let reply = Reply { until, asked };
        let seen = self.kept.sight(cid, place);
        self.kept.talks.change(place, Owe { protocol, reply });
        self.kept
            .follow(cid, place, seen, &mut self.timers, &mut self.links);
    }

    /// The reply on a protocol is there.
    pub fn pay(&mut self, cid: Cid, protocol: u16)
        requires { IsSome (entry_with cid.0 self.old) }
        ensures { Turns cid.0 (paid protocol) self.old self.new }
    {
        let place = self.kept.roster.place_of(cid);
        let seen = self.kept.sight(cid, place);
        self.kept.talks.change(place, Pay { protocol });
        self.kept
            .follow(cid, place, seen, &mut self.timers, &mut self.links);
    }

    /// The first item that bytes of a connection would make whole, lent, where nothing that came in before waits and it is
    /// easily seen. Takes no memory, and changes nothing.
    pub fn first<'a>(&self, cid: Cid, bytes: &'a [u8]) -> Option<LentItem<'a>>
        requires { IsSome (entry_with cid.0 self.now) }
        ensures { IfSome result (λ item. IfSome (entry_with cid.0 self.now) (λ e. slice_get (fed_of bytes.now e).items 0 ≡ Some (lent item))) }
    {
        let place = self.kept.roster.place_of(cid);
        self.kept.talks.at(place).cutter.first(bytes)
    }

    /// Bytes come in on a connection: the items that they make whole, up to the first fault. Where memory is refused,
    /// what came in and was not decoded is lost. The items stand in memory that is given, in place of what it held.
    pub fn feed(
        &mut self,
        cid: Cid,
        bytes: &[u8],
        memory: PackedItems,
    ) -> Result<Decoded, OutOfMemory>
        requires { IsSome (entry_with cid.0 self.old) }
        ensures turns { OnOk result (Turns cid.0 (fed_entry bytes.now) self.old self.new) }
        ensures err { OnErr result (Turns cid.0 unread self.old self.new) }
        ensures gives { IfOk result (λ fed. IfSome (entry_with cid.0 self.old) (λ e. IsFed (fed_of bytes.now e) fed)) }
    {
        // no deadline comes or goes, and no link changes
        let place = self.kept.roster.place_of(cid);
        self.kept.roster.recent = Some(Recent { cid, place });
        let alloc = self.alloc;
        self.kept.talks.change(
            place,
            Feed {
                alloc,
                bytes,
                memory,
            },
        )
    }
}
