// The register map: how a frame is accessed, which register of the Distributor or of a CPU interface an access meets, and which
// accesses are refused for their offset or width alone. It holds no state.
#![tactic(auto)]

pub mod cpu_interface;
pub mod dispatch;
pub mod distributor;
pub mod frame;
pub mod ranges;

pub use cpu_interface::{CpuInterfaceRegister, locate_cpu_interface};
pub use distributor::{DistributorAccess, Place, locate_distributor};
pub use frame::{AccessWidth, Refusal, register_value, validate_frame_access};
pub use ranges::{BitRegister, ByteRegister, Class, RegisterRange};
