//! Which fields the messages of an extract have, and in which form: the OpenStreetMap wiki, "PBF Format", its
//! fileformat.proto and osmformat.proto. That bytes and lists stand at most once, and that lists are packed, is this
//! project's profile.

use crate::numbers::*;
use crate::rules::{FieldRule, Form};

// Rules, each as the number of a field and its form.
macro_rules! rules {
    ($($number:ident $form:ident),*) => {
        [$(FieldRule { number: $number, form: Form::$form }),*]
    };
}

pub const BLOB_HEADER: [FieldRule; 2] = rules![BLOB_HEADER_TYPE Once, BLOB_HEADER_DATASIZE Number];

pub const BLOB: [FieldRule; 7] = rules![
    BLOB_RAW Once,
    BLOB_RAW_SIZE Number,
    BLOB_ZLIB_DATA Once,
    BLOB_LZMA_DATA Once,
    BLOB_BZIP2_DATA Once,
    BLOB_LZ4_DATA Once,
    BLOB_ZSTD_DATA Once
];

pub const HEADER_BLOCK: [FieldRule; 2] =
    rules![HEADER_BLOCK_BBOX Once, HEADER_BLOCK_REQUIRED_FEATURES Many];

pub const HEADER_BBOX: [FieldRule; 4] =
    rules![BBOX_LEFT Number, BBOX_RIGHT Number, BBOX_TOP Number, BBOX_BOTTOM Number];

pub const PRIMITIVE_BLOCK: [FieldRule; 5] = rules![
    BLOCK_STRINGTABLE Once,
    BLOCK_PRIMITIVEGROUP Many,
    BLOCK_GRANULARITY Number,
    BLOCK_LAT_OFFSET Number,
    BLOCK_LON_OFFSET Number
];

pub const STRING_TABLE: [FieldRule; 1] = rules![STRINGTABLE_S Many];

pub const PRIMITIVE_GROUP: [FieldRule; 5] = rules![
    GROUP_NODES Many,
    GROUP_DENSE Once,
    GROUP_WAYS Many,
    GROUP_RELATIONS Many,
    GROUP_CHANGESETS Many
];

pub const NODE: [FieldRule; 5] = rules![
    NODE_ID Number,
    NODE_KEYS Packed,
    NODE_VALS Packed,
    NODE_LAT Number,
    NODE_LON Number
];

pub const DENSE_NODES: [FieldRule; 4] =
    rules![DENSE_ID Packed, DENSE_LAT Packed, DENSE_LON Packed, DENSE_KEYS_VALS Packed];

pub const WAY: [FieldRule; 4] =
    rules![WAY_ID Number, WAY_KEYS Packed, WAY_VALS Packed, WAY_REFS Packed];

pub const RELATION: [FieldRule; 6] = rules![
    RELATION_ID Number,
    RELATION_KEYS Packed,
    RELATION_VALS Packed,
    RELATION_ROLES_SID Packed,
    RELATION_MEMIDS Packed,
    RELATION_TYPES Packed
];
