//! The points of the members of relations, as rows of one part: relation after relation, member after member.
//!
//! `points` makes them of the members and of the points of all ways, and `laws` says what they tell. `held` holds the
//! points of one way, `given` gives them as the rows of a member, and `pairs` reads members and points beside each other.
#![tactic(auto)]

mod given;
mod held;
pub mod laws;
mod pairs;
pub mod points;
