// The runner: bytes in, answers out. A line is kept in lent bytes until its newline comes, so that it may cross blocks of input and be of
// any length.
#![tactic(auto)]

pub mod blocks;
pub mod lines;

pub use blocks::{KEPT, Progress, feed, feed_rest};
pub use lines::answer_line;
