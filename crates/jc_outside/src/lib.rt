//! What the compiler reads and writes: files, class files, bytes that come in and bytes that go out, each with a count of faults.
//!
//! The four traits have forms in memory, which tell what they hold, and adapters over files and streams.
#![tactic(auto)]

mod entry;
mod error;
mod files;
mod memory;
mod plan;
mod streams;
mod sure;
mod traits;

pub use entry::FileEntry;
pub use error::{KeysFault, OutsideError};
pub use files::{FolderClasses, FolderShelf};
pub use memory::{MemClasses, MemKeys, MemPaper, MemShelf};
pub use plan::Fail;
pub use streams::{StdKeys, StdPaper};
pub use sure::{SureClasses, SureKeys, SurePaper, SureShelf};
pub use traits::{ClassShelf, Keys, Paper, Shelf};
