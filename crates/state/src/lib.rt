// The state that the caller lends, as words: where each stands, what it means, and how it is read and written.
// Mirrors controller/state.rs (unseen) of the Rust.
#![tactic(auto)]

pub mod fresh;
pub mod layout;
pub mod lent;
pub mod words;

pub use layout::{InterfaceValue, Shape};
pub use words::Entry;
