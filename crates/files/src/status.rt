// What the system tells of the file that a path names.
use std::fs;
use std::fs::Metadata;
use std::io::Result;

// Links are followed. Under a path that the system cannot be handed whole, nothing is found.
pub fn status_of(rt: &HostRuntime, path: &[u8]) -> Option<Metadata> {
    find(rt, path).ok()
}

// The same of a file that is found. Where none is, the error says why.
pub fn find(rt: &HostRuntime, path: &[u8]) -> Result<Metadata> {
    fs::metadata(rt, paths::as_text(path)?)
}
