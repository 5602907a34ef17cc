//! A file in memory.
use jc_rules::{Items, Text};

/// A file in memory: its name, and its bytes.
#[derive(Clone, Debug, Drop)]
pub struct FileEntry {
    pub name: Text,
    pub bytes: Items<u8>,
}
