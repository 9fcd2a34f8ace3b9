//! Rings: the parts of a relation are joined to them, and whether a place is inside them.
//!
//! `inside` counts the edges that are crossed. `assemble` joins the parts of the one relation of a desk, in the desk:
//! `parts` takes the next part, `rows` lays its points into the output, `laid` has the rings that are laid, each with
//! its home, and `joining` joins all parts of a role to them. `put_back` puts the rings in the place of the parts.
#![tactic(auto)]

pub mod assemble;
pub mod inside;
mod joining;
mod laid;
mod parts;
mod put_back;
mod rows;
