//! The outside as two traits: a shelf of named files, and a sink of bytes. Each has an object in
//! memory that fails at the calls it is told to. A file is read whole here, and files are written.
#![tactic(auto)]

mod appending;
mod calls;
mod content;
mod errors;
mod mem_shelf;
mod mem_sink;
mod named;
mod piece_shelf;
mod shelf;
mod sink;
mod sure_shelf;
mod writing;

pub use calls::CallCount;
pub use content::{Content, read_whole};
pub use errors::{OutsideErr, count_want};
pub use mem_shelf::MemShelf;
pub use mem_sink::MemSink;
pub use piece_shelf::PieceShelf;
pub use shelf::Shelf;
pub use sink::Sink;
pub use sure_shelf::SureShelf;
pub use writing::{FileText, WrittenFiles, write_files};
