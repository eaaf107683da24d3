// The public calls: setup, the two frames under their Rust names, device inputs, the message frame, what a host may look at, and moving a
// guest. None asks anything of its caller. Mirrors the entries of v2.rs.
#![tactic(auto)]

pub mod start;

pub use answer::{Answer, Reply};
pub use cpu_interface_frame::{read_v2_cpu_interface, write_v2_cpu_interface};
pub use distributor_frame::{read_v2_distributor, write_v2_distributor};
pub use input::{pulse, set_level};
pub use load::{image_shape, load};
pub use look::{interrupt_word, irq_level};
pub use message_frame::{read_v2m, write_v2m};
pub use save::save;
pub use start::setup;
