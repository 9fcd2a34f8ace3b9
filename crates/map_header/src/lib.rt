//! The header of a map, written for every setting.
//!
//! `head_settings` has what the header tells beside the tags, `tag_source` where the tags come from, and `mapping_tags`
//! that they may be those of a mapping. `header` puts the whole: the front and the box, the `options`, the `tags` and
//! the `intervals` with their sub-files. The definitions stand in `Header` of `map_model`.
#![tactic(auto)]

pub mod head_settings;
pub mod header;
mod intervals;
mod mapping_tags;
mod options;
pub mod sub_file;
pub mod tag_source;
mod tags;
#[cfg(test)]
mod tests;
