ghost use Rattle.std.specs.Prelude.{◌≡◌};
ghost use Rattle.cbor_items.specs.Front.{Finds};
ghost use Rattle.hs_message.specs.Codes.{reason_tag, reason_code_of};

use crate::tag::Tag;
use cbor_items::Absent;

/// The kinds of reasons of a refusal.
#[derive(Clone, Copy)]
pub(crate) enum ReasonCode {
    NoCommon,
    NotDecoded,
    Declined,
}

impl ReasonCode {
    /// How a reason of the kind begins.
    pub(crate) fn tag(self) -> Tag
        ensures { result ≡ reason_tag self }
    {
        let (elements, number) = match self {
            ReasonCode::NoCommon => (2, 0),
            ReasonCode::NotDecoded => (3, 1),
            ReasonCode::Declined => (3, 2),
        };
        Tag { elements, number }
    }

    /// The kind of reason that begins so.
    pub(crate) fn of(tag: Tag) -> Result<ReasonCode, Absent>
        ensures { Finds (λ code. code) result (reason_code_of tag) }
    {
        if tag == ReasonCode::NoCommon.tag() {
            Ok(ReasonCode::NoCommon)
        } else if tag == ReasonCode::NotDecoded.tag() {
            Ok(ReasonCode::NotDecoded)
        } else if tag == ReasonCode::Declined.tag() {
            Ok(ReasonCode::Declined)
        } else {
            Err(Absent)
        }
    }
}
