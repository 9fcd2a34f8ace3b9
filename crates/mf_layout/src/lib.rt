//! From features to the bytes of the map.
//!
//! `layout` makes the features of a part the tiles of the sub-files. `member_rows` puts their rows in the order of the
//! tiles, and `ordered` makes these sub-files: `intervals` goes from interval to interval, `interval` over the tiles of
//! one, which `tile_walk` gives, and `laid` puts one tile behind another; `full` finds a sub-file that is too long.
//!
//! `sub_files` is what the tiles of all intervals become in the store. `emit` writes the map of them: the header
//! (`head_out`), and for each interval (`sub_files_out`) its index (`index_out`) and the bytes of its tiles
//! (`tiles_out`).
#![tactic(auto)]

mod buffered;
pub mod emit;
pub mod fault;
mod full;
mod head_out;
mod index_out;
mod interval;
mod intervals;
mod laid;
pub mod layout;
mod member_rows;
mod ordered;
pub mod sub_files;
mod sub_files_out;
mod tile_walk;
mod tiles_out;
