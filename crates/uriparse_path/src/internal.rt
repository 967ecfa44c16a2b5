//! What the crates above build on. Users do not need it.

pub use crate::path::dots::{has_dots, remove_dots};
pub use crate::path::merge::merged_path;
pub use crate::path::normal::{PathContext, is_normal_path, normalize_path};
pub use crate::path::offset::offset_of_path_fault;
pub use crate::path::read::{PathSplit, counted_path, split_path, split_root};
pub use crate::path::relate::{empty_path, is_same_path, leading_path};
pub use crate::path::rules::{SegmentSequence, has_dot_segment};
pub use crate::path::start::{
    has_two_slashes, into_absolute, lacks_colon_segment, most_path_bytes, respell,
};
pub use crate::path::text::normal::is_normal_path_text;
pub use crate::path::text::order::compare_path_texts;
pub use crate::path::text::write::{
    prepend_merged, prepend_normal_path, prepend_parent_steps, prepend_undotted,
};
pub use crate::path::text::{are_path_texts_alike, feed_path_text, segments_of};
pub use crate::path::within::is_path_within;
