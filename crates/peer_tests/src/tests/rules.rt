//! What each rule orders in a scene.

mod big;
mod by_groups;
mod by_targets;
mod examples;
mod links;
