//! The view of a node, as JSON.

use scoop_status::NodeView;
use std::alloc::Global;

/// The view as JSON, in the shape of [`NodeView`]. `None` if memory is refused.
pub fn print_json(alloc: Global, view: &NodeView<'_>) -> Option<Vec<u8>> {
    serde_json::to_vec_pretty(alloc, view).ok()
}
