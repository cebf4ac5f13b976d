//! The parts of a path.
use std::alloc::{AllocError, Global};

const ROOT: &str = "/";

/// The parts of the path between its slashes, without the root path at its start (ASGI HTTP and
/// WebSocket connection scope, `root_path`); none of `/`. `AllocError` if memory is refused.
pub fn segments_of<'a>(
    alloc: Global,
    path: &'a str,
    root_path: &str,
) -> Result<Vec<&'a str>, AllocError> {
    let local = local_of(path, root_path);
    let mut segments = Vec::new(alloc);
    if local == ROOT {
        return Ok(segments);
    }
    for segment in local.split('/').skip(1) {
        segments.push(segment)?;
    }
    Ok(segments)
}

/// The path without the root path at its start, or the whole path if it does not start with that.
fn local_of<'a>(path: &'a str, root_path: &str) -> &'a str {
    match path.strip_prefix(root_path) {
        Some(local) => local,
        None => path,
    }
}
