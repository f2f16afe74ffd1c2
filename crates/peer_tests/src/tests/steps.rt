//! What tests do, one step after the other: each call is made in one function, whatever number of tests make it.

pub mod addresses;
pub mod book;
pub mod scene;
