//! The mark of a store that is being made: an empty file, made before the database and removed once
//! the database has its tables. It shows a later run that making the store was cut short.
ghost use Rattle.std.specs.Prelude.{◌≡◌, IfErr};

use std::fs;
use std::fs::File;
use thes_base::fault::Fault;
use thes_command_line::opening::{FileState, file_state};

/// The mark of the store in a file: an empty file next to it, while the store is being made.
#[derive(Drop)]
pub struct MakingMark<'r> {
    rt: &'r HostRuntime,
    path: String,
}

impl<'r> MakingMark<'r> {
    /// Returns the mark of the store in a file, without making it. The name of the mark is that of
    /// the file, with links followed, and `-making`.
    pub fn new(rt: &'r HostRuntime, file: &str) -> Result<MakingMark<'r>, Fault>
        ensures { IfErr result (λ fault. fault ≡ Fault.OutOfMemory) }
    {
        let path = match fs::canonicalize(rt, file) {
            Ok(path) => format!(in rt.alloc(); "{}-making", path.as_str())?,
            Err(_) => format!(in rt.alloc(); "{file}-making")?,
        };
        Ok(MakingMark { rt, path })
    }

    /// Returns whether the mark is there. Only a file of no bytes is a mark.
    pub fn is_there(&self) -> bool {
        let found = fs::symlink_metadata(self.rt, self.path.as_str());
        file_state(&found) == FileState::Bytes(0)
    }

    /// Makes the mark. If that fails, the store is made without it.
    pub fn make(&self) {
        let _ = File::create_new(self.rt, self.path.as_str());
    }

    /// Removes the mark, if it is there.
    pub fn remove(&self) {
        if self.is_there() {
            let _ = fs::remove_file(self.rt, self.path.as_str());
        }
    }
}
