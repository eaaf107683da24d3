// The runner's lines: what a line asks for, and the text of an answer. It holds no state and knows no controller.
#![tactic(auto)]

pub mod line;
pub mod number;
pub mod request;
pub mod text;

pub use line::parse_line;
pub use request::{Access, Input, LineLevel, Request, Size, Store};
pub use text::Writer;
