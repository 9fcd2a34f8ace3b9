//! Plain types and the rules that every layer shares.
//!
//! The types are `place`, `kind`, `kept`, `tile` and `number`. Bytes are put into an `out_buf`: numbers by `vbe` and
//! `fixed`. Those of an extract are read by `varint`, `varint_front`, `packed` and `zigzag`, its texts by `text_place`,
//! and the tags of an object by `tag_cursor`. The rules stand in `specs/`, with their `laws` and `rows`.
#![tactic(auto)]

pub mod decimal;
pub mod fixed;
pub mod isqrt;
pub mod kept;
pub mod kind;
pub mod laws;
pub mod number;
pub mod order_laws;
pub mod out_buf;
pub mod packed;
pub mod place;
pub mod place_words;
pub mod rows;
pub mod tag_cursor;
mod tag_lists;
pub mod text_place;
pub mod texts;
pub mod tile;
pub mod varint;
pub mod varint_front;
pub mod vbe;
pub mod words;
pub mod zigzag;
