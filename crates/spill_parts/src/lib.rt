//! Parts of rows: written, ordered and read.
#![tactic(auto)]

mod byte_part;
mod handed;
mod keys;
mod lookup;
mod merge;
mod part;
mod reader;
mod rows;
#[cfg(test)]
mod test_parts;
mod told;
mod uses;
mod writer;

pub use byte_part::BytePart;
pub use handed::{Ingested, Shapes};
pub use lookup::{Keyed, Lookup};
pub use merge::{JoinOf, join};
pub use part::{Part, forget_part, order_part};
pub use reader::{Page, Reader};
pub use rows::{Rows, put_rows};
pub use told::Told;
pub use uses::copy;
pub use writer::Writer;
