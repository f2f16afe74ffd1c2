ghost use Rattle.std.specs.Prelude.{◌<◌, IfOk, OnOk, length, map};
ghost use Rattle.laws.specs.OrderNeeds.{MayAll, MayFollow};
ghost use Rattle.machine.specs.Effect.{for_each};
ghost use Rattle.govern_rules.specs.SameViews.{SeeSame};
ghost use Rattle.machine.specs.Govern.{rules as follows, view_of};
ghost use Rattle.node_engine.specs.Rules.{orders_by, AreFirst};
ghost use Rattle.node_engine.specs.State.{Does};

use crate::NodeState;
use govern_rules::{BigRule, OrderList, View};
use net_base::{ActionList, OutOfMemory};
use peers::Rule;
use pick_policy::{Picker, RankedPicker};

/// The rules for ordinary peers, in their order.
pub(crate) const ORDINARY: [Rule; 8] = [
    Rule::G2,
    Rule::G3,
    Rule::G4,
    Rule::G5,
    Rule::G6,
    Rule::G7,
    Rule::G8,
    Rule::G9,
];

/// Those for big ledger peers.
pub(crate) const BIG: [Rule; 5] = [
    Rule::Big(BigRule::B3),
    Rule::Big(BigRule::B5),
    Rule::Big(BigRule::B6),
    Rule::Big(BigRule::B8),
    Rule::Big(BigRule::B9),
];

impl NodeState {
    /// Rules are followed, one after the other.
    pub(crate) fn follow_all(
        &mut self,
        rules: &[Rule],
        word: u64,
        picker: &Picker,
        ranked: &RankedPicker,
        actions: &mut ActionList,
    ) -> Result<(), OutOfMemory>
        requires { MayFollow (map (orders_by word) rules.now) self.old }
        ensures { OnOk result (Does (for_each follows (map (orders_by word) rules.now) self.old) actions.old self.new actions.new) }
    {
        let mut rest = rules;
        while !rest.is_empty() {
            let (orders, after) = self.first_orders(rest, word, picker, ranked)?;
            self.carry_out_all(orders.as_slice(), actions)?;
            rest = after;
        }
        Ok(())
    }

    // The orders of the first rule that gives some, and the rules behind it. Nothing changes before, so all up to there see
    // the same.
    fn first_orders<'r>(
        &self,
        rules: &'r [Rule],
        word: u64,
        picker: &Picker,
        ranked: &RankedPicker,
    ) -> Result<(OrderList, &'r [Rule]), OutOfMemory>
        requires { MayFollow (map (orders_by word) rules.now) self.now }
        ensures found { IfOk result (λ found. AreFirst (orders_by word) rules.now found.0 found.1.now self.now) }
        ensures fewer { IfOk result (λ found. 0 < length rules.now → length found.1.now < length rules.now) }
    {
        let view = self.view(word);
        let mut rest = rules;
        while let Some((rule, after)) = rest.split_first() {
            let orders = self.peers.orders_by(*rule, &view, picker, ranked)?;
            if !orders.as_slice().is_empty() {
                return Ok((orders, after));
            }
            rest = after;
        }
        Ok((OrderList::new(self.alloc), rest))
    }

    // What the rules see. The connections lend their links, so nothing is looked at.
    fn view(&self, word: u64) -> View<'_>
        ensures { SeeSame result (view_of word self.now) }
    {
        let settings = self.connections.settings();
        self.peers
            .view(self.moment, word, settings, self.connections.links())
    }
}
