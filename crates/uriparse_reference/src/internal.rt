//! What the crates above build on. Not for users.

pub use crate::uri_reference::read::{Pieces, ScannedTail, find_pieces};
pub use crate::uri_reference::relate::relativize;
pub use crate::uri_reference::resolve::resolve;
pub use crate::uri_reference::text::make::relativize_to_text;
pub use crate::uri_reference::view::put::{PutText, make_string, write};
pub use crate::uri_reference::view::relativize::{relativize_into, relativize_to_string};
