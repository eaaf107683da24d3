// The lowest layer: interrupt numbers, vCPU numbers and priorities, and one interrupt's record
// with its transitions. Mirrors types.rs (unseen) and interrupt.rs of the Rust.
#![tactic(auto)]

pub mod record;
pub mod types;

pub use record::{InterruptRecord, Synchronized};
pub use types::{GicVcpuId, IntId, InterruptState, Priority, TriggerMode};
