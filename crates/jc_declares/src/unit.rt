//! A source with the number of its file.
use jc_tree::SourceFile;

/// A source, or a text of the prelude (JLS 7.3), with the number of its file. The prelude's texts are all in file 0, one behind the
/// other, and their offsets count there; the sources count from 1.
#[derive(Drop)]
pub struct SourceUnit {
    pub file: u64,
    pub unit: SourceFile,
}
