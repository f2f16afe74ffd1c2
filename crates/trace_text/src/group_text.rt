ghost use Rattle.std.specs.Prelude.{◌≡◌, Some};
ghost use Rattle.std.specs.List.{flat_map};
ghost use Rattle.trace_text.specs.EventTexts.{group_words, sign_word, spaced};

use crate::text::AddressTexts;
use net_base::Group;
use std::fmt;

/// Groups, each from the space before its slash on.
#[derive(Clone, Copy)]
pub struct GroupTexts<'a>(pub &'a [Group]);

impl fmt::Display for GroupTexts<'_> {
    ghost output = { λ text. Some (spaced (flat_map group_words text.0.now)) };

    fn fmt<W: fmt::Write>(&self, f: &mut fmt::Formatter<W>) -> fmt::Result {
        for group in self.0 {
            f.write(GroupText(group))?;
        }
        Ok(())
    }
}

#[derive(Clone, Copy)]
struct GroupText<'a>(&'a Group);

impl fmt::Display for GroupText<'_> {
    ghost output = { λ text. Some (spaced (group_words text.0.now)) };

    fn fmt<W: fmt::Write>(&self, f: &mut fmt::Formatter<W>) -> fmt::Result {
        let Group {
            hot,
            warm,
            advertise,
            members,
        } = self.0;
        let sign = sign_word(*advertise);
        let members = AddressTexts(members.as_slice());
        write!(f, " / {hot} {warm} {sign}{members}")
    }
}

fn sign_word(advertise: bool) -> &'static str
    ensures { result.now ≡ sign_word advertise }
{
    if advertise { "+" } else { "-" }
}
