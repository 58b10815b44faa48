ghost use Rattle.std.specs.Prelude.{◌≡◌, IfOk};
ghost use Rattle.std.specs.String.{string_bytes};

use std::alloc::{AllocError, Global};

/// A file in memory.
#[derive(Drop)]
pub struct MemoryFile {
    pub name: String,
    pub contents: Vec<u8>,
}

impl MemoryFile {
    /// A file with copies of this name and these contents.
    pub fn new(alloc: Global, name: &str, contents: &[u8]) -> Result<MemoryFile, AllocError>
        ensures name { IfOk result (λ f. string_bytes f.name ≡ name.now) }
        ensures contents { IfOk result (λ f. f.contents.items ≡ contents.now) }
    {
        Ok(MemoryFile {
            name: String::from_str(alloc, name)?,
            contents: Vec::from_slice(alloc, contents)?,
        })
    }
}
