//! The rules by which a node governs its peers: whom to ask, to forget, to promote, to release, to activate and to
//! deactivate, so that as many are known, established and active as is wanted.
#![tactic(auto)]

mod big_rule;
mod big_rules;
mod candidates;
mod found;
mod link;
mod link_rows;
mod links;
mod mark;
mod marked;
mod nearby;
mod numbers;
mod order;
mod orders;
mod promotable;
mod rules;
mod search;
mod seen;
mod spot;
mod status;
mod task;
mod task_orders;
mod valency;
mod view;
mod walk;
mod wanted;
mod whom;

pub use big_rule::BigRule;
pub use big_rules::rule_big;
pub use link::Link;
pub use link_rows::LinkRows;
pub use links::LinkList;
pub use order::{Order, OrderList};
pub use rules::{rule_g2, rule_g3, rule_g4, rule_g5, rule_g6, rule_g7, rule_g8, rule_g9};
pub use view::View;
