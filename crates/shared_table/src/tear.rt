// Whether what the seats kept is what the history has.
ghost use Rattle.std.specs.Prelude.{◌≡◌, ◌≢◌, ◌<◌, length, Some, IfSome, IfNone, MatchBool, slice_get};
ghost use Rattle.shared_table.specs.Entries.{count_of, noted_in};
ghost use Rattle.shared_table.specs.Tears.{AreNoted, Differs, IsTorn, kept_by, seen_of, seen_with};
ghost use Rattle.shared_table.specs.declared.who.Who.TheVariants.{Out, In};

use crate::{Entry, Noted, TableCall, TableReply, Torn, Who};

// How many calls of each governor were compared.
#[derive(Drop)]
struct Seen {
    outs: usize,
    ins: usize,
}

/// The first entry that is not what its caller's seat kept. None where each caller has just the calls that its seat kept.
pub fn first_torn(history: &[Entry], outs: &[Noted], ins: &[Noted]) -> Option<Torn>
    requires outs { length outs.now ≡ count_of Out history.now }
    requires ins { length ins.now ≡ count_of In history.now }
    ensures none { IfNone result (AreNoted history.now outs.now ins.now) }
    ensures some { IfSome result (λ torn. IsTorn history.now outs.now ins.now torn) }
{
    let mut seen = Seen { outs: 0, ins: 0 };
    for entry in history {
        if let Some(torn) = compared(entry, outs, ins, &mut seen) {
            return Some(torn);
        }
    }
    None
}

// Compares an entry with what its caller's seat kept. One that is the same is counted.
fn compared(entry: &Entry, outs: &[Noted], ins: &[Noted], seen: &mut Seen) -> Option<Torn>
    requires { seen_of entry.now.who seen.old < length (kept_by entry.now.who outs.now ins.now) }
    ensures same { IfNone result (slice_get (kept_by entry.now.who outs.now ins.now) (seen_of entry.now.who seen.old) ≡ Some (noted_in entry.now)) }
    ensures seen { IfNone result (seen.new ≡ seen_with entry.now.who seen.old) }
    ensures torn { IfSome result (λ torn. Differs entry.now (kept_by entry.now.who outs.now ins.now) (seen_of entry.now.who seen.old) torn) }
{
    match entry.who {
        Who::Out => {
            if let Some(torn) = torn_at(entry, outs, seen.outs) {
                return Some(torn);
            }
            seen.outs += 1;
        }
        Who::In => {
            if let Some(torn) = torn_at(entry, ins, seen.ins) {
                return Some(torn);
            }
            seen.ins += 1;
        }
    }
    None
}

// An entry, where its caller's seat kept another behind so many others.
fn torn_at(entry: &Entry, kept: &[Noted], others: usize) -> Option<Torn>
    requires { others < length kept.now }
    ensures same { IfNone result (slice_get kept.now others ≡ Some (noted_in entry.now)) }
    ensures torn { IfSome result (λ torn. Differs entry.now kept.now others torn) }
{
    let kept = kept[others];
    if is_noted(entry, &kept) {
        return None;
    }
    Some(Torn {
        who: entry.who,
        place: others as u64 + 1,
        kept,
        found: noted(entry),
    })
}

// An entry as its caller keeps it.
pub fn noted(entry: &Entry) -> Noted
    ensures { result ≡ noted_in entry.now }
{
    Noted {
        call: entry.call,
        reply: entry.reply,
    }
}

fn is_noted(entry: &Entry, kept: &Noted) -> bool
    ensures { MatchBool result (kept.now ≡ noted_in entry.now) (kept.now ≢ noted_in entry.now) }
{
    is_same_call(entry.call, kept.call) && is_same_reply(entry.reply, kept.reply)
}

fn is_same_call(found: TableCall, kept: TableCall) -> bool
    ensures { MatchBool result (kept ≡ found) (kept ≢ found) }
{
    kept == found
}

fn is_same_reply(found: TableReply, kept: TableReply) -> bool
    ensures { MatchBool result (kept ≡ found) (kept ≢ found) }
{
    kept == found
}
