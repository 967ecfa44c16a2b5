//! What the gate's crates use besides the commands.

pub use crate::commands::topic;
pub use crate::lines::{Next, next_line, read_line};
pub use crate::topic::Topic;
