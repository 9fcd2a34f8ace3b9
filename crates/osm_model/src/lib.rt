//! What an input spells: messages, blobs, blocks and entities, and the first fault.
//!
//! The definitions stand in `specs/`, in this order: `Reading`, `Wire`, `Tables`, `Frames`, `Blocks`, `Entities`,
//! `Objects`, `Order`, `Input`.
//! They speak of the `limits`, of the `numbers` of fields, of their `rules` and `tables`, and of the `faults` for which
//! an input is refused, as the code of the readers does.
//! `rows` has them on small inputs, and `laws` what follows from them; `law_rows` shows that what the laws ask for is
//! met.
#![tactic(auto)]

pub mod block_laws;
pub mod entity_laws;
pub mod faults;
pub mod input_laws;
pub mod law_rows;
pub mod laws;
pub mod limits;
pub mod numbers;
pub mod range_laws;
pub mod rows;
pub mod rules;
pub mod tables;
