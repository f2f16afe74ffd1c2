ghost use Rattle.std.specs.Prelude.{◌≡◌, ◌<◌, length, None, IfSome, IfOk, true, ⊤};
ghost use Rattle.machine.specs.Replies.{with_reply, without_reply, is_owed_on};
ghost use Rattle.mux_segment.specs.Protocols.{node_limits};
ghost use Rattle.mux_segment.specs.Stream.{nothing_fed, fed_by};
ghost use Rattle.net_base.specs.Shared.{nothing_undecoded};
ghost use Rattle.connections.specs.Steps.{unread_if};
ghost use Rattle.connections.specs.Talks.{TurnsAt, with_cutter, with_owed, fresh_talk, going_on, HasFed, IsFed};

use crate::replies::Replies;
use crate::{Decoded, Reply};
use chunked_list::{Change, ChunkedList};
use mux_segment::{CutFault, Cutter, PackedItems};
use net_base::OutOfMemory;
use std::alloc::Global;
use std::mem;

/// What is kept of a connection beside its facts.
#[derive(Drop)]
pub struct Talk {
    /// What came in and is not decoded yet.
    pub cutter: Cutter,
    pub replies: Replies,
}

impl Talk {
    /// Nothing came in, and nothing is owed. Takes no memory.
    pub fn new(alloc: Global) -> Talk
        ensures { result ≡ fresh_talk }
    {
        Talk {
            cutter: Cutter::new(alloc),
            replies: Replies::new(),
        }
    }
}

// What came in and is not decoded is dropped, where the connection is closed.
pub fn unread_at(talks: &mut ChunkedList<Talk>, place: usize, alloc: Global, closed: bool)
    requires { place < length talks.old }
    ensures { TurnsAt place (unread_if closed) talks.old talks.new }
{
    if closed {
        let cutter = Cutter::new(alloc);
        talks.change(place, Unread { cutter });
    }
}

// A fresh cutter goes on.
struct Unread {
    cutter: Cutter,
}

impl Change<Talk> for Unread {
    type Answer = ();

    ghost may = { λ unread talk. unread.cutter ≡ nothing_fed };

    ghost does = { λ unread old new answer. new ≡ with_cutter nothing_fed old };

    fn apply(self, talk: &mut Talk) {
        let Unread { cutter } = self;
        talk.cutter = cutter;
    }
}

// New bytes of a stream that goes on. Where memory is refused, nothing of it is left. The items stand in memory that is given.
pub struct Feed<'a> {
    pub alloc: Global,
    pub bytes: &'a [u8],
    pub memory: PackedItems,
}

impl<'a> Change<Talk> for Feed<'a> {
    type Answer = Result<Decoded, OutOfMemory>;

    ghost may = { λ feed talk. talk.cutter.fault ≡ None };

    ghost does = { λ feed old new answer. HasFed feed.bytes.now old new answer };

    fn apply(self, talk: &mut Talk) -> Result<Decoded, OutOfMemory> {
        let Feed {
            alloc,
            bytes,
            memory,
        } = self;
        let cutter = mem::replace(&mut talk.cutter, Cutter::new(alloc));
        let (cutter, fed) = feed_cutter(cutter, alloc, bytes, memory)?;
        talk.cutter = cutter;
        Ok(fed)
    }
}

// New bytes of a stream that goes on, and the cutter with which it does.
fn feed_cutter(
    cutter: Cutter,
    alloc: Global,
    bytes: &[u8],
    memory: PackedItems,
) -> Result<(Cutter, Decoded), OutOfMemory>
    requires { cutter.fault ≡ None }
    ensures next { IfOk result (λ r. r.0 ≡ going_on (fed_by node_limits cutter bytes.now).state) }
    ensures fed { IfOk result (λ r. IsFed (fed_by node_limits cutter bytes.now) r.1) }
{
    let mut items = memory;
    items.clear();
    let (cutter, fault) = cutter.feed_into(bytes, &mut items)?;
    let cutter = next_cutter(alloc, cutter, fault);
    Ok((cutter, Decoded { items, fault }))
}

// The cutter with which a stream goes on.
fn next_cutter(alloc: Global, cutter: Cutter, fault: Option<CutFault>) -> Cutter
    requires same { cutter.fault ≡ fault }
    requires empty { IfSome fault (λ f. cutter.undecoded ≡ nothing_undecoded) }
    ensures { result ≡ going_on cutter }
{
    match fault {
        Some(_) => Cutter::new(alloc),
        None => cutter,
    }
}

// A reply comes to be owed.
pub struct Owe {
    pub protocol: u16,
    pub reply: Reply,
}

impl Change<Talk> for Owe {
    type Answer = ();

    ghost may = { λ owe talk. is_owed_on owe.protocol ≡ true };

    ghost does = { λ owe old new answer.
        new ≡ with_owed (with_reply (record { protocol = owe.protocol; until = owe.reply.until; asked = owe.reply.asked })) old };

    fn apply(self, talk: &mut Talk) {
        let Owe { protocol, reply } = self;
        talk.replies.owe(protocol, reply);
    }
}

// A reply is owed no more.
pub struct Pay {
    pub protocol: u16,
}

impl Change<Talk> for Pay {
    type Answer = ();

    ghost may = { λ pay talk. ⊤ };

    ghost does = { λ pay old new answer. new ≡ with_owed (without_reply pay.protocol) old };

    fn apply(self, talk: &mut Talk) {
        let Pay { protocol } = self;
        talk.replies.pay(protocol);
    }
}
