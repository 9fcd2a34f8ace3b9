//! Devices that count their faults, and reading by blocks.
//!
//! Read `source` and `sink` first, then `put` and `stream`; then `spill`, a store of parts, whose reading is counted in
//! `steps`, and `shelf`, a file that is opened by its name. The devices in memory are in `memory` (with `calls` and
//! `pieces`), `memory_spill` (with `memory_parts` and `memory_order`) and `memory_shelf`, those over readers and
//! writers of std in `adapters`, and that over its files in `file_shelf`. `count` is a number that only clauses see.
#![tactic(auto)]

mod adapters;
mod block;
mod calls;
mod count;
mod file_shelf;
mod memory;
mod memory_order;
mod memory_parts;
mod memory_shelf;
mod memory_spill;
mod pieces;
mod put;
mod shelf;
mod sink;
mod source;
mod spill;
mod steps;
mod stream;

pub use adapters::{ReadSource, WriteSink};
pub use block::Block;
pub use count::Count;
pub use file_shelf::FileShelf;
pub use memory::{MemSink, MemSource, SureSource};
pub use memory_shelf::MemShelf;
pub use memory_spill::MemSpill;
pub use put::put_all;
pub use shelf::Shelf;
pub use sink::Sink;
pub use source::{Failed, Source};
pub use spill::Spill;
pub use steps::Steps;
pub use stream::{FillFault, Stream};
