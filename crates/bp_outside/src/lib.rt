//! The outside as a program sees it: what it reads from, what it writes to, and what it fetches files from. A call fails
//! only where a count of faults rises, which no caller can raise.
#![tactic(auto)]

mod calls;
mod fault;
mod files;
mod folder;
mod input;
mod memory_shelf;
mod memory_sink;
mod memory_source;
mod named_file;
mod output;
mod portion;
mod shelf;
mod sink;
mod source;
mod steady;

pub use fault::Failed;
pub use folder::FolderShelf;
pub use input::InputSource;
pub use memory_shelf::MemoryShelf;
pub use memory_sink::MemorySink;
pub use memory_source::MemorySource;
pub use named_file::NamedFile;
pub use output::OutputSink;
pub use shelf::{FetchFault, Shelf};
pub use sink::{Sink, write_all};
pub use source::Source;
pub use steady::{DropSink, SteadyShelf, SteadySource};
