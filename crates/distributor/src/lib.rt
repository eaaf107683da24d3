// The Distributor's byte arrays and single registers over the lent state; its bit registers, target bytes and SGI sources have crates
// of their own. Mirrors the target and source functions of v2.rs, and distributor.rs and redistributor.rs (unseen).
#![tactic(auto)]

pub mod bytes;
pub mod values;
