//! Worked rows: what a reader sees of small maps, and what it refuses.

ghost use Rattle.std.specs.Prelude.{◌≡◌, true, ◌++◌, [], ◌∷◌, map, take, drop, set, replicate, Some, None, Ok, Err};
ghost use Rattle.std.specs.Prelude.{false, pos, negsuc, codes};
ghost use Rattle.mf_base.specs.Spelling.{big_endian};
ghost use Rattle.map_model.specs.Listed.{ShownTag, way};
ghost use Rattle.map_model.specs.Header.{magic_word};
ghost use Rattle.map_model.specs.HeaderReading.{rect_of_bytes, header_length, header_fault};
ghost use Rattle.map_model.specs.declared.fault.HeaderKind.{HeaderKind};
ghost use Rattle.map_model.specs.declared.fault.HeaderFault.{HeaderFault};
ghost use Rattle.map_model.specs.TileReading.{tile_fault_at, read_tile_from};
ghost use Rattle.map_model.specs.declared.fault.TileKind.{TileKind};
ghost use Rattle.map_model.specs.Listing.{ShowFault, quoted, tile_end, show, listing, poi_line, way_line, tile_text};
ghost use Rattle.map_model.specs.Listing.{show_fault_text};
ghost use Rattle.map_model.specs.Samples.{valued_bench, outer_ring, inner_ring, eastward, at_place, world_corner};
ghost use Rattle.map_model.specs.Samples.{world_tile, to_origin, bench_tags, bench_map, bench_sub_file, empty_map};
ghost use Rattle.map_model.specs.Samples.{listed_bench, garden_tags, garden_tile, listed_garden, two_tiles};
ghost use Rattle.map_model.specs.Samples.{two_tiles_file};

/// The first fault of a header, by the place of its field.
#[tactic(auto, unfolding(crate::proofs::Compute::compute))]
pub fn headers_read()
    ensures right { header_fault 144 bench_map ≡ None }
    ensures cut { header_fault 143 (take 143 bench_map) ≡ Some (HeaderFault.At 28 HeaderKind.FileSize) }
    ensures version_first { header_fault 143 (set (take 143 bench_map) 27 0x06)
        ≡ Some (HeaderFault.At 24 HeaderKind.Version) }
    ensures bounds { header_fault 144 (set bench_map 56 0xFF) ≡ Some (HeaderFault.At 44 HeaderKind.Bounds) }
    ensures projection { header_fault 144 (set bench_map 63 0x4E) ≡ Some (HeaderFault.At 62 HeaderKind.Projection) }
    ensures text { header_fault 144 (set bench_map 63 0xFF) ≡ Some (HeaderFault.At 62 HeaderKind.Text) }
    ensures debug { header_fault 144 (set bench_map 71 0x80) ≡ Some (HeaderFault.At 71 HeaderKind.Debug) }
    ensures no_interval { header_fault 144 (set bench_map 90 0x00) ≡ Some (HeaderFault.At 90 HeaderKind.Interval) }
    ensures base_16 { header_fault 144 (set bench_map 91 0x10) ≡ None }
    ensures base_17 { header_fault 144 (set bench_map 91 0x11) ≡ Some (HeaderFault.At 91 HeaderKind.Interval) }
    ensures sides { rect_of_bytes
        (0xFF ∷ 0xFF ∷ 0xFF ∷ 0xFF ∷ 0x00 ∷ 0x00 ∷ 0x00 ∷ 0x02 ∷ 0x00 ∷ 0x00 ∷ 0x00 ∷ 0x03 ∷ 0x00 ∷ 0x00 ∷ 0x01 ∷ 0x04
        ∷ []) ≡ record { min_lat = negsuc 0; min_lon = pos 2; max_lat = pos 3; max_lon = pos 260 } }
    ensures longest { header_length 6000000 (magic_word ++ big_endian 4 5000000) ≡ Ok 5000000 }
    ensures too_long { header_length 6000000 (magic_word ++ big_endian 4 5000001)
        ≡ Err (HeaderFault.At 20 HeaderKind.Size) }
{}

/// The tile of one bench, and its first fault.
#[tactic(auto, unfolding(crate::proofs::Compute::compute))]
pub fn benches_read()
    ensures right { read_tile_from world_corner bench_tags (world_tile 7).interval (drop 5 bench_sub_file)
        ≡ Ok (listed_bench ∷ []) }
    ensures way_offset { read_tile_from world_corner bench_tags (world_tile 7).interval
        (set (drop 5 bench_sub_file) 16 0x0D) ≡ Err (tile_fault_at 16 TileKind.Offset) }
    ensures layer { read_tile_from world_corner bench_tags (world_tile 7).interval (set (drop 5 bench_sub_file) 26 0xB1)
        ≡ Err (tile_fault_at 26 TileKind.Range) }
    ensures unknown_tag { read_tile_from world_corner bench_tags (world_tile 7).interval
        (set (drop 5 bench_sub_file) 27 0x01) ≡ Err (tile_fault_at 27 TileKind.Tag) }
    ensures left_over { read_tile_from world_corner bench_tags (world_tile 7).interval (drop 5 bench_sub_file
        ++ 0x00 ∷ []) ≡ Err (tile_fault_at 29 TileKind.Left) }
    ensures cut_at_layer { read_tile_from world_corner bench_tags (world_tile 7).interval
        (take 26 (drop 5 bench_sub_file)) ≡ Err (tile_fault_at 26 TileKind.Short) }
    ensures cut_in_longitude { read_tile_from world_corner bench_tags (world_tile 7).interval
        (take 25 (drop 5 bench_sub_file)) ≡ Err (tile_fault_at 21 TileKind.Vbe) }
    ensures number { read_tile_from world_corner (record bench_tags { poi = codes "capacity=%h" ∷ [] })
        (world_tile 21).interval (replicate 34 0 ++ 0x01 ∷ replicate 9 0 ++ 0x0E ∷ to_origin
        ++ 0x51 ∷ 0x00 ∷ 0x01 ∷ 0x2C ∷ 0x00 ∷ []) ≡ Ok (valued_bench (ShownTag.number (codes "capacity")
        (pos 300)) ∷ []) }
    ensures text { read_tile_from world_corner (record bench_tags { poi = codes "ref=%s" ∷ [] })
        (world_tile 21).interval (replicate 34 0 ++ 0x01 ∷ replicate 9 0 ++ 0x0F ∷ to_origin
        ++ 0x51 ∷ 0x00 ∷ 0x02 ∷ 0x41 ∷ 0x31 ∷ 0x00 ∷ []) ≡ Ok (valued_bench (ShownTag.text (codes "ref")
        (codes "A1")) ∷ []) }
    ensures empty { read_tile_from world_corner bench_tags (world_tile 7).interval [] ≡ Ok [] }
{}

/// The tile of the garden, and its first fault.
#[tactic(auto, unfolding(crate::proofs::Compute::compute))]
pub fn gardens_read()
    ensures right { read_tile_from world_corner garden_tags (world_tile 21).interval garden_tile
        ≡ Ok (way (listed_garden 0x0220) ∷ []) }
    ensures data_size { read_tile_from world_corner garden_tags (world_tile 21).interval (set garden_tile 45 0x1B)
        ≡ Err (tile_fault_at 45 TileKind.Size) }
    ensures no_ring { read_tile_from world_corner garden_tags (world_tile 21).interval (set garden_tile 53 0x00)
        ≡ Err (tile_fault_at 53 TileKind.Points) }
    ensures one_place { read_tile_from world_corner garden_tags (world_tile 21).interval (set garden_tile 54 0x01)
        ≡ Err (tile_fault_at 54 TileKind.Points) }
    ensures label { read_tile_from world_corner garden_tags (world_tile 21).interval
        (replicate 35 0 ++ 0x01 ∷ replicate 8 0
        ++ 0x00 ∷ 0x18 ∷ 0x02 ∷ 0x20 ∷ 0x51 ∷ 0x00 ∷ 0x10 ∷ 0x80 ∷ 0x80 ∷ 0x80 ∷ 0x80 ∷ 0x08 ∷ 0x00 ∷ 0x01 ∷ 0x02
        ∷ to_origin ++ 0x40 ∷ 0x00 ∷ []) ≡ Err (tile_fault_at 51 TileKind.Range) }
{}

/// An entry of the index is refused below that before it, before the index's end and past the sub-file's end.
#[tactic(auto, unfolding(crate::proofs::Compute::compute))]
pub fn index_read()
    ensures falls { tile_end two_tiles_file two_tiles 12 0 ≡ Err (ShowFault.index 5) }
    ensures next { tile_end two_tiles_file two_tiles 10 0 ≡ Ok 11 }
    ensures last { tile_end two_tiles_file two_tiles 10 1 ≡ Ok 13 }
{}

/// The tile of a map, and what is refused.
#[tactic(auto, using(crate::proofs::ListingRows::listing_rows), unfolding(crate::proofs::Compute::compute))]
pub fn listings()
    ensures one_bench { listing bench_map 0 0 0 ≡ Ok (listed_bench ∷ []) }
    ensures none { listing empty_map 0 0 0 ≡ Ok [] }
    ensures no_interval { show bench_map 1 0 0 ≡ Err ShowFault.no_interval }
    ensures no_tile { show bench_map 0 1 0 ≡ Err ShowFault.no_tile }
    ensures before_the_end_of_the_index { show (set bench_map 114 0x04) 0 0 0 ≡ Err (ShowFault.index 110) }
    ensures past_the_sub_file { show (set bench_map 114 0x23) 0 0 0 ≡ Err (ShowFault.index 110) }
    ensures wrong_offset { show (set bench_map 114 0x06) 0 0 0
        ≡ Err (ShowFault.tile (tile_fault_at 16 TileKind.Offset)) }
    ensures bad_way_offset { show (set bench_map 131 0x0D) 0 0 0
        ≡ Err (ShowFault.tile (tile_fault_at 16 TileKind.Offset)) }
    ensures map_cut_short { show (take 143 bench_map) 0 0 0
        ≡ Err (ShowFault.header (HeaderFault.At 28 HeaderKind.FileSize)) }
{}

/// What the lister says of a tile and of its records.
#[tactic(auto, unfolding(crate::proofs::Compute::compute))]
pub fn texts()
    ensures tile { tile_text 0 0 0 (record { water = false; records = listed_bench ∷ [] })
        ≡ codes "tile 0 0 0 water 0 pois 1 ways 0" ++ 10 ∷ codes "poi zoom 5 layer 0 at 0,0 tags \"amenity=bench\""
        ++ 10 ∷ [] }
    ensures water_and_way { tile_text 1 2 3 (record { water = true; records = way (listed_garden 0x0220) ∷ [] })
        ≡ codes "tile 1 2 3 water 1 pois 0 ways 1"
        ++ 10 ∷ codes "way zoom 17 layer 0 bits 0220 tags \"leisure=garden\" label 5,10 outer 0,0 0,20 10,20 10,0 0,0"
        ++ 10 ∷ [] }
    ensures blocks { way_line
        (record (listed_garden 0xABCD) {
          tags = ShownTag.number (codes "width") (negsuc 2) ∷ ShownTag.text (codes "a")
              (codes "b") ∷ [];
          name = Some (codes "N");
          house = Some (codes "7");
          reference = Some (codes
              "A1");
          label = None;
          blocks = (outer_ring ∷ inner_ring ∷ []) ∷ (take 2 eastward ∷ []) ∷ [];
        })
        ≡ codes "way zoom 17 layer 0 bits ABCD tags \"width=-3\" \"a=b\" name \"N\" house \"7\" ref \"A1\" outer 0,0 0,20 20,10 0,0 inner 3,8 3,12 6,10 3,8 outer 0,0 0,1000" ++ 10 ∷ [] }
    ensures in_quotes { quoted (31 ∷ 32 ∷ 126 ∷ 127 ∷ 128 ∷ []) ≡ codes "\"\\x1F ~\\x7F" ++ 128 ∷ 34 ∷ [] }
    ensures poi { poi_line (record {
      zoom = 5;
      layer = negsuc 0;
      place = at_place (negsuc 0) (pos 7);
      tags = [];
      name = Some (34 ∷ 92 ∷ 10 ∷ 127 ∷ 195 ∷ 164 ∷ []);
      house = Some (codes "1");
      height = Some (negsuc 11);
    })
        ≡ codes "poi zoom 5 layer -1 at -1,7 tags name \"\\x22\\x5C\\x0A\\x7F" ++ 195 ∷ 164 ∷ codes "\" house \"1\" ele -12" ++ 10 ∷ [] }
    ensures garden { way_line (listed_garden 0x0220)
        ≡ codes "way zoom 17 layer 0 bits 0220 tags \"leisure=garden\" label 5,10 outer 0,0 0,20 10,20 10,0 0,0"
        ++ 10 ∷ [] }
    ensures bits { take 32 (way_line (listed_garden 0x0221)) ≡ codes "way zoom 17 layer 0 bits 0221 ta" }
{}

/// What is said of each refusal.
#[tactic(auto, unfolding(crate::proofs::Compute::compute))]
pub fn refusals()
    ensures header { map (λ kind. show_fault_text (ShowFault.header (HeaderFault.At 28 kind)))
        (HeaderKind.Short ∷ HeaderKind.Magic ∷ HeaderKind.Size ∷ HeaderKind.Version ∷ HeaderKind.FileSize
        ∷ HeaderKind.Bounds ∷ HeaderKind.Projection ∷ HeaderKind.Debug ∷ HeaderKind.Text ∷ HeaderKind.Kind
        ∷ HeaderKind.Interval ∷ [])
        ≡ codes "header short at 28" ∷ codes "header magic at 28" ∷ codes "header size at 28" ∷ codes
        "header version at 28" ∷ codes "header filesize at 28" ∷ codes "header bounds at 28" ∷ codes
        "header projection at 28" ∷ codes "header debug at 28" ∷ codes "header text at 28" ∷ codes
        "header kind at 28" ∷ codes "header interval at 28" ∷ [] }
    ensures tile { map (λ kind. show_fault_text (ShowFault.tile (tile_fault_at 16 kind)))
        (TileKind.Vbe ∷ TileKind.Short ∷ TileKind.Tag ∷ TileKind.Text ∷ TileKind.Range ∷ TileKind.Points ∷ TileKind.Size
        ∷ TileKind.Offset ∷ TileKind.Left ∷ [])
        ≡ codes "tile vbe at 16" ∷ codes "tile short at 16" ∷ codes "tile tag at 16" ∷ codes "tile text at 16" ∷ codes
        "tile range at 16" ∷ codes "tile points at 16" ∷ codes "tile size at 16" ∷ codes "tile offset at 16" ∷ codes
        "tile left at 16" ∷ [] }
    ensures others { map show_fault_text (ShowFault.no_interval ∷ ShowFault.no_tile ∷ ShowFault.index 110 ∷ [])
        ≡ codes "no interval" ∷ codes "no tile" ∷ codes "index at 110" ∷ [] }
{}
