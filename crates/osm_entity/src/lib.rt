//! The entities of a block, one after another, or the first fault.
//!
//! `order` keeps which entity may stand next; `in_block` is what the entities of a block share, and `tags` reads their
//! keys and values. `node` reads a plain node and `place` its place; `dense_read` reads dense nodes, and `dense` gives
//! them, with `columns`, `tag_run` and `run_end` below it. `way` and `relation` read theirs, with `refs` and `members`.
//! `group` goes over the objects of a group, by `group_read`, `group_field` and `next_group`; and `entities` over those
//! of a block, in their order.
#![tactic(auto)]

mod columns;
mod dense;
mod dense_read;
pub mod entities;
pub mod entity;
mod group;
mod group_field;
mod group_read;
mod in_block;
pub mod members;
mod next_group;
mod node;
mod node_numbers;
pub mod node_view;
mod note;
pub mod order;
mod parts;
mod place;
mod placed_id;
pub mod refs;
pub mod relation;
mod run_end;
mod sums;
mod tag_run;
mod tags;
#[cfg(test)]
mod tests;
pub mod way;

pub use osm_model::faults::EntityFault;
