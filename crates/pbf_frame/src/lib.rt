//! The blobs of an input, one after another.
//!
//! `frames` gives a `frame` at a time, or a `frame_fault`. It reads one blob after another by `blob_read`, with
//! `blob_head` and `blob_raw` for their two messages, whose fields are found by `pbf_wire::lookup` and by `blob_fields`.
#![tactic(auto)]

mod blob_fields;
mod blob_head;
mod blob_raw;
mod blob_read;
pub mod frame;
pub mod frame_fault;
pub mod frames;
