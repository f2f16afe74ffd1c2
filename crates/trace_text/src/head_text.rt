ghost use Rattle.std.specs.Prelude.{◌≡◌, ◌++◌, map, IfOk, Some};
ghost use Rattle.std.specs.String.{string_bytes};
ghost use Rattle.std.specs.List.{flat_map};
ghost use Rattle.trace_text.specs.HeadTexts.{printed_head, first_lines, printed_setting, printed_settings, set_text_line, ended};
ghost use Rattle.trace_text.specs.Settings.{settings_under, setting_values};

use crate::text::AddressText;
use net_base::{Addr, Octets, OutOfMemory, Settings};
use std::alloc::{AllocError, Global};
use std::fmt;

/// The head of a trace: its first two lines and all settings, each line ended by a line feed.
pub fn print_head(alloc: Global, settings: &Settings) -> Result<Octets, OutOfMemory>
    ensures { IfOk result (λ head. head ≡ printed_head settings.now) }
{
    let texts = set_texts(settings);
    let text = head_text(alloc, settings.version, settings.own, &texts)?;
    Ok(Octets::from_vec(text.into_bytes()))
}

fn head_text(
    alloc: Global,
    version: u64,
    own: Addr,
    texts: &[SetText],
) -> Result<String, AllocError>
    ensures { IfOk result (λ text. string_bytes text ≡ flat_map ended (first_lines version own ++ map set_text_line texts.now)) }
{
    let own = AddressText(own);
    format!(in alloc; "trace {version}\nown {own}\n{}", SetTexts(texts))
}

fn set_texts(settings: &Settings) -> [SetText; 13]
    ensures { map set_text_line result ≡ printed_settings (settings_under settings.now.hard) (setting_values settings.now) }
{
    [
        SetText::new("magic", settings.magic),
        SetText::new("initiatoronly", settings.initiator_only),
        SetText::new("sharing", settings.sharing),
        SetText::new("hard", settings.hard),
        SetText::new("soft", settings.soft),
        SetText::new("delay", settings.delay),
        SetText::new("idle", settings.idle),
        SetText::new("timewait", settings.timewait),
        SetText::new("handshake", settings.handshake),
        SetText::new("reply", settings.reply),
        SetText::new("backoff", settings.backoff),
        SetText::new("sharegap", settings.sharegap),
        SetText::new("shares", settings.shares),
    ]
}

/// A setting's line.
#[derive(Clone, Copy)]
struct SetText {
    name: &'static str,
    value: u64,
}

impl SetText {
    fn new(name: &'static str, value: u64) -> Self
        ensures { set_text_line result ≡ printed_setting name.now value }
    {
        SetText { name, value }
    }
}

impl fmt::Display for SetText {
    ghost output = { λ text. Some (ended (set_text_line text)) };

    fn fmt<W: fmt::Write>(&self, f: &mut fmt::Formatter<W>) -> fmt::Result {
        writeln!(f, "set {} {}", self.name, self.value)
    }
}

// The lines of settings, one after the other.
#[derive(Clone, Copy)]
struct SetTexts<'a>(&'a [SetText]);

impl fmt::Display for SetTexts<'_> {
    ghost output = { λ texts. Some (flat_map (λ text. ended (set_text_line text)) texts.0.now) };

    fn fmt<W: fmt::Write>(&self, f: &mut fmt::Formatter<W>) -> fmt::Result {
        for text in self.0 {
            f.write(*text)?;
        }
        Ok(())
    }
}
