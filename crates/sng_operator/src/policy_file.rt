//! The file of the policy: its text, and what tells one state of the file from another.

use crate::file_look::{FileState, FileTime};
use sng_script::file::read_text;
use std::io::Error;
use std::os::unix::fs::MetadataExt;
use std::rt::Files;
use std::{fs, io};

/// The file as it was read at the start.
#[derive(Drop)]
pub struct PolicyFile {
    pub path: String,
    pub text: Vec<u8>,
    /// In which state it was read, where that is known.
    pub state: Option<FileState>,
}

impl PolicyFile {
    /// Reads the file of this path. What it becomes while it is read is another state of it.
    pub fn read<R: Files + AllocGlobal>(rt: &R, path: String) -> io::Result<PolicyFile> {
        let state = state_of(rt, path.as_str()).ok();
        let text = file_text(rt, path.as_str())?;
        Ok(PolicyFile { path, text, state })
    }
}

/// The text of the file.
pub fn file_text<R: Files + AllocGlobal>(rt: &R, path: &str) -> io::Result<Vec<u8>> {
    read_text(rt.alloc(), fs::open(rt, path)?)
}

/// In which state the file of this path is. What is no regular file, as a pipe that can be read once, has none.
pub fn state_of<R: Files>(rt: &R, path: &str) -> io::Result<FileState> {
    let found = fs::metadata(rt, path)?;
    if !found.is_file() {
        return Err(Error::other("not a regular file"));
    }
    Ok(FileState {
        device: found.dev(),
        inode: found.ino(),
        size: found.size(),
        modified: FileTime {
            seconds: found.mtime(),
            nanoseconds: found.mtime_nsec(),
        },
        changed: FileTime {
            seconds: found.ctime(),
            nanoseconds: found.ctime_nsec(),
        },
    })
}
