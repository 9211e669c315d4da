//! Where a run reads its files, keeps its files and writes its text.
#![tactic(auto)]

mod entries;
mod files;
mod mem_shelf;
mod mem_sink;
mod output;
mod shelf;
mod sink;
mod streams;
mod sure_shelf;

pub use files::FileShelf;
pub use mem_shelf::MemShelf;
pub use mem_sink::MemSink;
pub use output::StdSink;
pub use shelf::{LoadFault, Shelf, StoreFault};
pub use sink::{PutFault, Sink};
pub use sure_shelf::SureShelf;
