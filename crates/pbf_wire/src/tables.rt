//! Which fields the messages of an extract have, as the definitions have them.

pub use osm_model::tables::{
    BLOB, BLOB_HEADER, DENSE_NODES, HEADER_BBOX, HEADER_BLOCK, NODE, PRIMITIVE_BLOCK,
    PRIMITIVE_GROUP, RELATION, STRING_TABLE, WAY,
};
