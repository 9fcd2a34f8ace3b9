//! The numbers of the fields that are read: the OpenStreetMap wiki, "PBF Format", its fileformat.proto and
//! osmformat.proto. Each has the name of its message and that of the field.

pub const BLOB_HEADER_TYPE: u32 = 1;

pub const BLOB_HEADER_DATASIZE: u32 = 3;

pub const BLOB_RAW: u32 = 1;

pub const BLOB_RAW_SIZE: u32 = 2;

pub const BLOB_ZLIB_DATA: u32 = 3;

pub const BLOB_LZMA_DATA: u32 = 4;

pub const BLOB_BZIP2_DATA: u32 = 5;

pub const BLOB_LZ4_DATA: u32 = 6;

pub const BLOB_ZSTD_DATA: u32 = 7;

pub const HEADER_BLOCK_BBOX: u32 = 1;

pub const HEADER_BLOCK_REQUIRED_FEATURES: u32 = 4;

pub const BBOX_LEFT: u32 = 1;

pub const BBOX_RIGHT: u32 = 2;

pub const BBOX_TOP: u32 = 3;

pub const BBOX_BOTTOM: u32 = 4;

pub const BLOCK_STRINGTABLE: u32 = 1;

pub const BLOCK_PRIMITIVEGROUP: u32 = 2;

pub const BLOCK_GRANULARITY: u32 = 17;

pub const BLOCK_LAT_OFFSET: u32 = 19;

pub const BLOCK_LON_OFFSET: u32 = 20;

pub const STRINGTABLE_S: u32 = 1;

pub const GROUP_NODES: u32 = 1;

pub const GROUP_DENSE: u32 = 2;

pub const GROUP_WAYS: u32 = 3;

pub const GROUP_RELATIONS: u32 = 4;

pub const GROUP_CHANGESETS: u32 = 5;

pub const NODE_ID: u32 = 1;

pub const NODE_KEYS: u32 = 2;

pub const NODE_VALS: u32 = 3;

pub const NODE_LAT: u32 = 8;

pub const NODE_LON: u32 = 9;

pub const DENSE_ID: u32 = 1;

pub const DENSE_LAT: u32 = 8;

pub const DENSE_LON: u32 = 9;

pub const DENSE_KEYS_VALS: u32 = 10;

pub const WAY_ID: u32 = 1;

pub const WAY_KEYS: u32 = 2;

pub const WAY_VALS: u32 = 3;

pub const WAY_REFS: u32 = 8;

pub const RELATION_ID: u32 = 1;

pub const RELATION_KEYS: u32 = 2;

pub const RELATION_VALS: u32 = 3;

pub const RELATION_ROLES_SID: u32 = 8;

pub const RELATION_MEMIDS: u32 = 9;

pub const RELATION_TYPES: u32 = 10;
