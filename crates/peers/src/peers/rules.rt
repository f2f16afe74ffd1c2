ghost use Rattle.std.specs.Prelude.{◌≡◌, IfOk};
ghost use Rattle.peers.specs.Rules.{seen_at, orders_by};

use super::Peers;
use crate::Rule;
use churn_clock::{effective, effective_big};
use govern_rules::{
    LinkList, OrderList, View, rule_big, rule_g2, rule_g3, rule_g4, rule_g5, rule_g6, rule_g7,
    rule_g8, rule_g9,
};
use net_base::{OutOfMemory, Settings};
use pick_policy::{Picker, RankedPicker};

impl Peers {
    /// What the rules see at a moment, beside some connections. The word decides between peers that are as good.
    pub fn view<'a>(
        &self,
        now: u64,
        word: u64,
        settings: &Settings,
        links: LinkList<'a>,
    ) -> View<'a>
        ensures { result ≡ seen_at now word settings.now links.entry self.now }
    {
        View {
            moment: now,
            word,
            settings: *settings,
            targets: effective(&self.targets, now),
            big: effective_big(&self.big_targets, now),
            links,
        }
    }

    /// What a rule orders. Big ledger peers are picked by a picker of their own.
    pub fn orders_by(
        &self,
        rule: Rule,
        view: &View,
        picker: &Picker,
        ranked: &RankedPicker,
    ) -> Result<OrderList, OutOfMemory>
        ensures { IfOk result (λ orders. orders ≡ orders_by rule view.now self.now) }
    {
        let alloc = self.alloc;
        let (book, groups, roots) = (&self.book, &self.groups, &self.roots);
        match rule {
            Rule::G2 => rule_g2(alloc, view, book, groups, roots, picker),
            Rule::G3 => rule_g3(alloc, view, book, groups, roots, picker),
            Rule::G4 => rule_g4(alloc, view, book, groups, roots, picker),
            Rule::G5 => rule_g5(alloc, view, book, groups, roots, picker),
            Rule::G6 => rule_g6(alloc, view, book, groups, roots, picker),
            Rule::G7 => rule_g7(alloc, view, book, groups, roots, picker),
            Rule::G8 => rule_g8(alloc, view, book, groups, roots, picker),
            Rule::G9 => rule_g9(alloc, view, book, groups, roots, picker),
            Rule::Big(rule) => rule_big(alloc, rule, view, book, ranked),
        }
    }
}
