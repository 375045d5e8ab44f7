//! Reading the page that browsers are given.
use crate::file::FileFault;
use std::fs::{self, File};
use std::os::unix::fs::FileExt;
use std::rt::Files;

/// The most bytes of a page: 4 MiB.
pub const LONGEST_PAGE: u64 = 4_194_304;

/// The bytes of a page's file. What is no regular file, or is too large, isn't opened.
///
/// # Errors
///
/// The file isn't there, may not be read, is too large, or fails while it is read; or there is no room for it.
pub fn read_page<R: Files<File = File> + AllocGlobal>(
    rt: &R,
    path: &str,
) -> Result<Vec<u8>, FileFault> {
    let Ok(metadata) = fs::metadata(rt, path) else {
        return Err(FileFault::Unreadable);
    };
    if !metadata.is_file() || metadata.len() > LONGEST_PAGE {
        return Err(FileFault::Unreadable);
    }
    let Ok(file) = fs::open(rt, path) else {
        return Err(FileFault::Unreadable);
    };
    let len = metadata.len() as usize;
    let Ok(mut page) = vec![in rt.alloc(); 0; len] else {
        return Err(FileFault::Memory);
    };
    match file.read_exact_at(page.as_mut_slice(), 0) {
        Ok(()) => Ok(page),
        Err(_) => Err(FileFault::Unreadable),
    }
}
