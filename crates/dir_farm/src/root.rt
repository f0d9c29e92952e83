//! The root folder, as the system has it.

use crate::folder::settle;
use std::fs;
use std::io::{self, ErrorKind};
use std::path::Path;
use std::rt::Files;

/// What stands in a root.
#[derive(Clone, Copy)]
pub(crate) enum Found {
    /// Nothing.
    Nothing,
    /// The admin's file, and maybe more.
    Admin,
    /// Something, and not the admin's file.
    Other,
}

/// The folder above a path.
fn above(path: &str) -> &str {
    match Path::new(path).parent() {
        Some(parent) if !parent.as_str().is_empty() => parent.as_str(),
        _ => ".",
    }
}

/// Makes the root where it isn't there, and says what stands in it.
pub(crate) fn look_at<R: Files + AllocGlobal + Clone + Drop>(
    rt: &R,
    root: &str,
) -> io::Result<Found> {
    match fs::create_dir(rt, root) {
        Ok(()) => settle(rt, above(root))?,
        Err(error) if error.kind() == ErrorKind::AlreadyExists => {}
        Err(error) => return Err(error),
    }
    let admin = format!(in rt.alloc(); "{root}/disk-0/vol-0/1")?;
    if fs::exists(rt, admin.as_str())? {
        return Ok(Found::Admin);
    }
    match fs::read_dir(rt, root)?.next() {
        Some(Ok(_)) => Ok(Found::Other),
        Some(Err(error)) => Err(error),
        None => Ok(Found::Nothing),
    }
}
