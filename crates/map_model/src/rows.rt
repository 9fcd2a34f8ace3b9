//! Worked rows: what the definitions give for small maps, byte by byte.

ghost use Rattle.std.specs.Prelude.{◌≡◌, set, ◌+◌, ◌++◌, [], ◌∷◌, map, length, take, drop, replicate, Some, None, true};
ghost use Rattle.std.specs.Prelude.{false, pos, negsuc, codes};
ghost use Rattle.mf_base.specs.declared.kind.EntityKind.{EntityKind};
ghost use Rattle.osm_model.specs.Input.{input_entities, known_box};
ghost use Rattle.osm_model.specs.Samples as extracts;
ghost use Rattle.feature_model.specs.Mapping.{KeptValue};
ghost use Rattle.feature_model.specs.declared.fault.LimitFault.{LimitFault};
ghost use Rattle.feature_model.specs.Samples.{benches, bench_with, paths, path, node_at, way_of as way_through, at};
ghost use Rattle.feature_model.specs.Samples.{forests, forest_of, outer, member_of};
ghost use Rattle.map_model.specs.Mercator.{root_of_scale, raw_lat, row, column, edge_lat, corner, corner_lat};
ghost use Rattle.map_model.specs.Intervals.{interval_tiles, are_intervals, effective_zoom};
ghost use Rattle.map_model.specs.IntervalWords.{read_intervals, default_intervals};
ghost use Rattle.map_model.specs.Members.{in_tile_order, members};
ghost use Rattle.map_model.specs.Rectangles.{origin, rect_of_places};
ghost use Rattle.map_model.specs.TileRects.{tile_rect, tiles_of, entry_place};
ghost use Rattle.map_model.specs.Bitmap.{rect_bits};
ghost use Rattle.map_model.specs.Labels.{label_place};
ghost use Rattle.map_model.specs.Layout.{coordinate_bytes};
ghost use Rattle.map_model.specs.TileBytes.{poi_bytes, way_bytes, is_double, tile_bytes};
ghost use Rattle.map_model.specs.SubFile.{water, index_bytes, sub_file_of, sub_file_size};
ghost use Rattle.map_model.specs.Header.{box_bytes, head_flags, header_size, header_bytes, sub_files};
ghost use Rattle.map_model.specs.MapFile.{limit_fault, map_file, tile_limit_fault, sub_file_limit_fault, shape_size};
ghost use Rattle.map_model.specs.MapFile.{job_size, report, report_line};
ghost use Rattle.map_model.specs.Samples.{zoom_range, numbered, zigzag, garden_tile, at_place, world_corner};
ghost use Rattle.map_model.specs.Samples.{world_tile, to_origin, bench, bench_with_value, way_of, area_of, garden};
ghost use Rattle.map_model.specs.Samples.{garden_bytes, eastward, outer_ring, inner_ring, lake, open_lake, lake_tile};
ghost use Rattle.map_model.specs.Samples.{middle_tile, content, settings_to, origin_box};
ghost use Rattle.map_model.specs.Samples.{origin_header, degree_box, bench_tags, bench_map, empty_map, bench_numbers};
ghost use Rattle.map_model.specs.Samples.{five_benches, late_benches};

/// Corners and edges near the pole, and the columns.
#[tactic(auto, unfolding(crate::proofs::Compute::latitudes))]
pub fn corners()
    ensures root { root_of_scale 1 ≡ 207879576350761909 }
    ensures north { raw_lat 131072 ≡ 85051128 }
    ensures zoom_2 { raw_lat 65536 ≡ 66513260 }
    ensures zoom_3 { raw_lat 98304 ≡ 79171334 }
    ensures zoom_3_below { raw_lat 32768 ≡ 40979898 }
    ensures zoom_4 { raw_lat 16384 ≡ 21943045 }
    ensures equator { raw_lat 0 ≡ 0 }
    ensures world { corner 0 0 0 ≡ world_corner }
    ensures towards_zero { corner 14 1 0 ≡ at_place (pos 85051128) (negsuc 179978026) }
    ensures last_row { corner_lat 18 262143 ≡ negsuc 85051009 }
    ensures last_edge { edge_lat 262143 ≡ negsuc 85051010 }
    ensures within { column 5 (pos 11250000) ≡ 17 }
    ensures last { column 5 (pos 180000000) ≡ 31 }
{}

/// Rows at the equator and at both ends.
#[tactic(auto, using(crate::proofs::LatitudeRows::latitude_rows))]
pub fn latitudes()
    ensures equator { row 1 (pos 0) ≡ 1 }
    ensures middle { corner 1 1 1 ≡ origin }
    ensures north { row 18 (pos 89000000) ≡ 0 }
    ensures last { row 18 (negsuc 85051010) ≡ 262143 }
    ensures last_but_one { row 18 (negsuc 85051009) ≡ 262142 }
    ensures south_bits { rect_bits (record {
      min_lat = negsuc 88999999;
      min_lon = negsuc 179999999;
      max_lat = negsuc 88999999;
      max_lon = pos 0;
    }) 0 0 0 ≡ 14 }
{}

/// Rectangles, and the order of their tiles.
#[tactic(auto, unfolding(crate::proofs::Compute::compute))]
pub fn rectangles()
    ensures of_places { rect_of_places (at_place (pos 1) (pos 5) ∷ at_place (negsuc 2) (pos 9) ∷ [])
        ≡ record { min_lat = negsuc 2; min_lon = pos 5; max_lat = pos 1; max_lon = pos 9 } }
    ensures first_column { (tile_rect (record {
      min_lat = pos 0;
      min_lon = pos 11250000;
      max_lat = pos 0;
      max_lon = pos 12000000;
    })
        5).first_x ≡ 17 }
    ensures last_column { (tile_rect (record {
      min_lat = pos 0;
      min_lon = pos 11250000;
      max_lat = pos 0;
      max_lon = pos 12000000;
    })
        5).last_x ≡ 17 }
    ensures in_tile_order { tiles_of (record { z = 1; first_x = 0; last_x = 1; first_y = 0; last_y = 1 })
        ≡ (0, 0) ∷ (1, 0) ∷ (0, 1) ∷ (1, 1) ∷ [] }
    ensures place { entry_place (record { z = 5; first_x = 16; last_x = 18; first_y = 14; last_y = 16 }) 17 15 ≡ 4 }
    ensures of_the_base { row 5 (pos 20000000) ≡ 14 → row 5 (negsuc 9999999) ≡ 16
        → interval_tiles (record {
          min_lat = negsuc 9999999;
          min_lon = pos 1000000;
          max_lat = pos 20000000;
          max_lon = pos 30000000;
        }) 0 (zoom_range 5 0 7)
        ≡ lake_tile 16 14 ∷ lake_tile 17 14 ∷ lake_tile 18 14 ∷ lake_tile 16 15 ∷ lake_tile 17 15 ∷ lake_tile 18
        15 ∷ lake_tile 16 16 ∷ lake_tile 17 16 ∷ lake_tile 18 16 ∷ [] }
    ensures label { label_place
        (record (way_of (at_place (negsuc 2) (pos 0) ∷ at_place (pos 0) (pos 1) ∷ at_place (negsuc 2) (pos 0) ∷ []))
        { label = true }) ≡ Some (at_place (negsuc 1) (pos 0)) }
    ensures label_of_all_rings { label_place
        (record (area_of ((inner_ring ∷ []) ∷ (outer_ring ∷ []) ∷ (eastward ∷ []) ∷ []))
        { label = true }) ≡ Some (at_place (pos 10) (pos 1500)) }
    ensures open_ring_first { label_place (record (area_of ((eastward ∷ []) ∷ (outer_ring ∷ []) ∷ [])) { label = true })
        ≡ None }
    ensures no_mark { label_place (way_of outer_ring) ≡ None }
    ensures bits { row 2 (pos 10) ≡ 1 → row 2 (pos 0) ≡ 2
        → rect_bits (record { min_lat = pos 0; min_lon = pos 0; max_lat = pos 10; max_lon = pos 20 }) 0 0 0 ≡ 0x0220 }
{}

/// Intervals that follow each other, and what breaks the rule.
#[tactic(auto, unfolding(crate::proofs::Compute::compute))]
pub fn intervals()
    ensures three { are_intervals default_intervals ≡ true }
    ensures one { are_intervals (zoom_range 0 0 21 ∷ []) ≡ true }
    ensures late { are_intervals (zoom_range 16 3 16 ∷ zoom_range 16 17 21 ∷ []) ≡ false }
    ensures broken { map are_intervals
        ([] ∷ (zoom_range 0 1 7 ∷ []) ∷ (zoom_range 8 0 7 ∷ []) ∷ (zoom_range 17 0 18 ∷ []) ∷ (zoom_range 5 0
        22 ∷ []) ∷ (zoom_range 5 0 7 ∷ zoom_range 10 9 11 ∷ []) ∷ (zoom_range 5 0 7 ∷ zoom_range 10 7 11 ∷ []) ∷ [])
        ≡ replicate 7 false }
    ensures eight { are_intervals (map (λ z. zoom_range z z z) (0 ∷ 1 ∷ 2 ∷ 3 ∷ 4 ∷ 5 ∷ 6 ∷ 7 ∷ [])) ≡ true }
    ensures nine { are_intervals (map (λ z. zoom_range z z z) (0 ∷ 1 ∷ 2 ∷ 3 ∷ 4 ∷ 5 ∷ 6 ∷ 7 ∷ 8 ∷ [])) ≡ false }
    ensures effective { map (λ zoom. effective_zoom zoom (zoom_range 10 8 11)) (5 ∷ 8 ∷ 11 ∷ 12 ∷ [])
        ≡ Some 8 ∷ Some 8 ∷ Some 11 ∷ None ∷ [] }
    ensures members_in_order { map (λ f. f.id)
        (in_tile_order (zoom_range 10 8 11) (numbered EntityKind.Node 1 11 ∷ numbered EntityKind.Node 2 5 ∷ numbered
        EntityKind.Node 3 8 ∷ numbered EntityKind.Way 4 9 ∷ numbered EntityKind.Relation 5 7 ∷ []))
        ≡ 2 ∷ 3 ∷ 1 ∷ 5 ∷ 4 ∷ [] }
{}

/// Intervals as words.
#[tactic(auto, unfolding(crate::proofs::Compute::compute))]
pub fn interval_words()
    ensures none_given { read_intervals (codes "5:0:7,10:8:11,14:12:21") ≡ Some default_intervals }
    ensures one { read_intervals (codes "0:0:7") ≡ Some (zoom_range 0 0 7 ∷ []) }
    ensures leading_zero { read_intervals (codes "016:3:21") ≡ Some (zoom_range 16 3 21 ∷ []) }
    ensures broken { map (λ word. read_intervals (codes word))
        ("" ∷ "0:1:7" ∷ "5:0:7,10:9:11" ∷ "5:0:7," ∷ "5:0" ∷ "5:0:7:8" ∷ "5:-0:7" ∷ "5:0:22" ∷ []) ≡ replicate 8 None }
{}

/// POIs of one bench, with a name, with a height, and with values in place of the bench.
#[tactic(auto, unfolding(crate::proofs::Compute::compute))]
pub fn pois()
    ensures bench { poi_bytes world_corner bench ≡ to_origin ++ 0x51 ∷ 0x00 ∷ 0x00 ∷ [] }
    ensures bench_with_name { poi_bytes world_corner (record bench { name = Some (codes "Spring") }) ≡ to_origin
        ++ 0x51 ∷ 0x00 ∷ 0x80 ∷ 0x06 ∷ 0x53 ∷ 0x70 ∷ 0x72 ∷ 0x69 ∷ 0x6E ∷ 0x67 ∷ [] }
    ensures bench_with_height { poi_bytes world_corner (record bench { height = Some (pos 12); layer = pos 2 })
        ≡ to_origin ++ 0x71 ∷ 0x00 ∷ 0x20 ∷ 0x0C ∷ [] }
    ensures one_byte_value { poi_bytes world_corner (bench_with_value (KeptValue.byte (negsuc 1))) ≡ to_origin
        ++ 0x51 ∷ 0x00 ∷ 0xFE ∷ 0x00 ∷ [] }
    ensures variable_number { poi_bytes world_corner (bench_with_value (KeptValue.short (pos 300))) ≡ to_origin
        ++ 0x51 ∷ 0x00 ∷ 0x01 ∷ 0x2C ∷ 0x00 ∷ [] }
    ensures text_value { poi_bytes world_corner (bench_with_value (KeptValue.text (codes "Alp"))) ≡ to_origin
        ++ 0x51 ∷ 0x00 ∷ 0x03 ∷ 0x41 ∷ 0x6C ∷ 0x70 ∷ 0x00 ∷ [] }
    ensures four_byte_value { poi_bytes world_corner (bench_with_value (KeptValue.int (negsuc 299))) ≡ to_origin
        ++ 0x51 ∷ 0x00 ∷ 0xFF ∷ 0xFF ∷ 0xFE ∷ 0xD4 ∷ 0x00 ∷ [] }
    ensures tags_before_values { poi_bytes world_corner
        (record bench {
          layer = negsuc 4;
          tags = record { tag = 1; value = KeptValue.byte (pos 7) } ∷ record {
            tag = 200;
            value = KeptValue.plain;
          } ∷ record { tag = 300; value = KeptValue.text (codes "x") } ∷ [];
        })
        ≡ to_origin ++ 0x03 ∷ 0x01 ∷ 0xC8 ∷ 0x01 ∷ 0xAC ∷ 0x02 ∷ 0x07 ∷ 0x01 ∷ 0x78 ∷ 0x00 ∷ [] }
    ensures all_fields { poi_bytes world_corner (record bench {
      name = Some (codes "N");
      house = Some (codes "7");
      height = Some (negsuc 63);
    }) ≡ to_origin ++ 0x51 ∷ 0x00 ∷ 0xE0 ∷ 0x01 ∷ 0x4E ∷ 0x01 ∷ 0x37 ∷ 0xC0 ∷ 0x40 ∷ [] }
{}

/// A way of three places, a closed way with a label, and ways of equal steps.
#[tactic(auto, unfolding(crate::proofs::Compute::compute))]
pub fn ways()
    ensures three_places { way_bytes world_corner 0x0220
        (way_of (at_place (pos 0) (pos 0) ∷ at_place (pos 0) (pos 5) ∷ at_place (pos 5)
        (pos 5) ∷ [])) ≡ 0x14 ∷ 0x02 ∷ 0x20 ∷ 0x51 ∷ 0x00 ∷ 0x00 ∷ 0x01 ∷ 0x03 ∷ to_origin
        ++ 0x00 ∷ 0x05 ∷ 0x05 ∷ 0x00 ∷ [] }
    ensures garden_with_label { way_bytes world_corner 0x0220 garden ≡ garden_bytes }
    ensures double_delta { way_bytes world_corner 0x0020 (way_of eastward)
        ≡ 0x17 ∷ 0x00 ∷ 0x20 ∷ 0x51 ∷ 0x00 ∷ 0x04 ∷ 0x01 ∷ 0x04 ∷ to_origin
        ++ 0x00 ∷ 0xE8 ∷ 0x07 ∷ 0x00 ∷ 0x00 ∷ 0x00 ∷ 0x00 ∷ [] }
    ensures single_steps { coordinate_bytes world_corner false eastward ≡ to_origin
        ++ 0x00 ∷ 0xE8 ∷ 0x07 ∷ 0x00 ∷ 0xE8 ∷ 0x07 ∷ 0x00 ∷ 0xE8 ∷ 0x07 ∷ [] }
    ensures tie_is_single { is_double world_corner (way_of (take 2 eastward)) ≡ false }
    ensures all_fields { way_bytes world_corner 0x8001 (record (way_of (take 2 eastward)) {
      name = Some (codes "N");
      house = Some (codes "7");
      reference = Some (codes
          "A1");
    }) ≡ 0x1A ∷ 0x80 ∷ 0x01 ∷ 0x51 ∷ 0x00 ∷ 0xE0 ∷ 0x01 ∷ 0x4E ∷ 0x01 ∷ 0x37 ∷ 0x02 ∷ 0x41 ∷ 0x31 ∷ 0x01
        ∷ 0x02 ∷ to_origin ++ 0x00 ∷ 0xE8 ∷ 0x07 ∷ [] }
    ensures all_rings_together { is_double world_corner (area_of ((eastward ∷ []) ∷ (zigzag ∷ []) ∷ [])) ≡ false }
    ensures two_places { way_bytes world_corner 0x0020 (way_of (take 2 eastward))
        ≡ 0x13 ∷ 0x00 ∷ 0x20 ∷ 0x51 ∷ 0x00 ∷ 0x00 ∷ 0x01 ∷ 0x02 ∷ to_origin ++ 0x00 ∷ 0xE8 ∷ 0x07 ∷ [] }
{}

/// One outer ring, one block of an outer and an inner ring, and two blocks.
#[tactic(auto, unfolding(crate::proofs::Compute::compute))]
pub fn blocks()
    ensures one_ring { way_bytes world_corner 0x0220 (area_of ((outer_ring ∷ []) ∷ []))
        ≡ 0x16 ∷ 0x02 ∷ 0x20 ∷ 0x51 ∷ 0x00 ∷ 0x00 ∷ 0x01 ∷ 0x04 ∷ to_origin
        ++ 0x00 ∷ 0x14 ∷ 0x14 ∷ 0x4A ∷ 0x54 ∷ 0x4A ∷ [] }
    ensures one_block { way_bytes world_corner 0x0220 (area_of ((outer_ring ∷ inner_ring ∷ []) ∷ []))
        ≡ 0x26 ∷ 0x02 ∷ 0x20 ∷ 0x51 ∷ 0x00 ∷ 0x00 ∷ 0x02 ∷ 0x04 ∷ to_origin ++ 0x00 ∷ 0x14 ∷ 0x14 ∷ 0x4A ∷ 0x54 ∷ 0x4A
        ∷ 0x04 ∷ 0xF5 ∷ 0x8D ∷ 0xC7 ∷ 0x68 ∷ 0x88 ∷ 0xAA ∷ 0xEA ∷ 0xD5 ∷ 0x00 ∷ 0x00 ∷ 0x04 ∷ 0x03 ∷ 0x42 ∷ 0x43 ∷ 0x42
        ∷ [] }
    ensures two_blocks { way_bytes world_corner 0x0220 (area_of ((outer_ring ∷ []) ∷ (inner_ring ∷ []) ∷ []))
        ≡ 0x28 ∷ 0x02 ∷ 0x20 ∷ 0x51 ∷ 0x00 ∷ 0x08 ∷ 0x02 ∷ 0x01 ∷ 0x04 ∷ to_origin
        ++ 0x00 ∷ 0x14 ∷ 0x14 ∷ 0x4A ∷ 0x54 ∷ 0x4A
        ∷ 0x01 ∷ 0x04 ∷ 0xF5 ∷ 0x8D ∷ 0xC7 ∷ 0x68 ∷ 0x88 ∷ 0xAA ∷ 0xEA ∷ 0xD5 ∷ 0x00 ∷ 0x00 ∷ 0x04 ∷ 0x03 ∷ 0x42 ∷ 0x43
        ∷ 0x42 ∷ [] }
{}

/// The index counts its own bytes, and its top bits are the water bits.
#[tactic(auto, unfolding(crate::proofs::Compute::compute))]
pub fn sub_file_bytes()
    ensures three { sub_file_of (content false (1 ∷ 2 ∷ []) ∷ content true [] ∷ content false (3 ∷ []) ∷ [])
        ≡ 0x00 ∷ 0x00 ∷ 0x00 ∷ 0x00 ∷ 0x0F ∷ 0x80 ∷ 0x00 ∷ 0x00 ∷ 0x00 ∷ 0x11 ∷ 0x00 ∷ 0x00 ∷ 0x00 ∷ 0x00 ∷ 0x11 ∷ 0x01
        ∷ 0x02 ∷ 0x03 ∷ [] }
    ensures nine { index_bytes
        (map (λ water. content water (replicate 53 0))
        (false ∷ false ∷ false ∷ false ∷ true ∷ false ∷ false ∷ false ∷ false ∷ []))
        ≡ 0x00 ∷ 0x00 ∷ 0x00 ∷ 0x00 ∷ 0x2D ∷ 0x00 ∷ 0x00 ∷ 0x00 ∷ 0x00 ∷ 0x62 ∷ 0x00 ∷ 0x00 ∷ 0x00 ∷ 0x00 ∷ 0x97 ∷ 0x00
        ∷ 0x00 ∷ 0x00 ∷ 0x00 ∷ 0xCC
        ∷ 0x80 ∷ 0x00 ∷ 0x00 ∷ 0x01 ∷ 0x01 ∷ 0x00 ∷ 0x00 ∷ 0x00 ∷ 0x01 ∷ 0x36 ∷ 0x00 ∷ 0x00 ∷ 0x00 ∷ 0x01 ∷ 0x6B ∷ 0x00
        ∷ 0x00 ∷ 0x00 ∷ 0x01 ∷ 0xA0 ∷ 0x00 ∷ 0x00 ∷ 0x00 ∷ 0x01 ∷ 0xD5 ∷ [] }
    ensures nine_size { sub_file_size
        (map (λ water. content water (replicate 53 0))
        (false ∷ false ∷ false ∷ false ∷ true ∷ false ∷ false ∷ false ∷ false ∷ [])) ≡ 522 }
{}

/// The header of the default intervals, without and with its optional fields.
#[tactic(auto, unfolding(crate::proofs::Compute::compute))]
pub fn headers()
    ensures sides { box_bytes (record { min_lat = negsuc 0; min_lon = pos 2; max_lat = pos 3; max_lon = pos 260 })
        ≡ 0xFF ∷ 0xFF ∷ 0xFF ∷ 0xFF ∷ 0x00 ∷ 0x00 ∷ 0x00 ∷ 0x02 ∷ 0x00 ∷ 0x00 ∷ 0x00 ∷ 0x03 ∷ 0x00 ∷ 0x00 ∷ 0x01 ∷ 0x04
        ∷ [] }
    ensures flags { map head_flags
        (settings_to 7 ∷ record (settings_to 7) { start = Some origin } ∷ record (settings_to 7)
        { start_zoom = Some 12 } ∷ record (settings_to 7) { language = Some (codes "en") } ∷ record (settings_to 7) {
          comment = Some (codes "c");
        } ∷ record (settings_to 7) { created_by = Some (codes "d") } ∷ [])
        ≡ 0x00 ∷ 0x40 ∷ 0x20 ∷ 0x10 ∷ 0x08 ∷ 0x04 ∷ [] }
    ensures sizes { map
        (λ options. header_size (record (settings_to 7) { intervals = default_intervals; language = options })
        bench_tags) (None ∷ Some (codes "en") ∷ []) ≡ 148 ∷ 151 ∷ [] }
    ensures default_intervals { header_bytes (record (settings_to 7) { intervals = default_intervals }) origin_box
        bench_tags (sub_files 148 (5 ∷ 5 ∷ 31 ∷ []))
        ≡ origin_header 0x7C 0xBD (0x00 ∷ []) 0x94 0x99 0x9E }
    ensures optional_fields { header_bytes (record (settings_to 7) {
      intervals = default_intervals;
      start = Some (at_place (pos 1) (negsuc 0));
      start_zoom = Some 12;
      language = Some (codes
          "en");
      comment = Some (codes "c");
      created_by = Some (codes "d");
    }) origin_box bench_tags
        (sub_files 164 (5 ∷ 5 ∷ 31 ∷ []))
        ≡ origin_header 0x8C 0xCD (0x7C ∷ 0x00 ∷ 0x00 ∷ 0x00 ∷ 0x01 ∷ 0xFF ∷ 0xFF ∷ 0xFF ∷ 0xFF ∷ 0x0C ∷ 0x02 ∷ codes
        "en" ++ 0x01 ∷ codes "c" ++ 0x01 ∷ codes "d") 0xA4 0xA9 0xAE }
{}

/// The whole map of one bench, and that of none.
#[tactic(auto, using(crate::proofs::MapRows::map_rows), unfolding(crate::proofs::Compute::compute))]
pub fn maps()
    ensures one_bench { map_file (settings_to 7) benches degree_box (bench_with []) ≡ bench_map }
    ensures one_bench_length { length bench_map ≡ 144 }
    ensures one_bench_extract { (known_box None extracts.one_bench ≡ Some degree_box)
        × (map_file (settings_to 7) benches degree_box (input_entities extracts.one_bench) ≡ bench_map) }
    ensures header_alone { map_file (settings_to 7) benches degree_box [] ≡ empty_map }
    ensures header_alone_length { length empty_map ≡ 115 }
    ensures zoom_above_maximum { map_file (settings_to 7) late_benches degree_box (bench_with []) ≡ empty_map }
    ensures box_of_the_words { take 16
        (drop 44 (map_file (settings_to 7) benches (record {
          min_lat = pos 0;
          min_lon = pos 0;
          max_lat = pos 10;
          max_lon = pos 10;
        }) (bench_with []))) ≡ replicate 11 0 ++ 0x0A ∷ 0x00 ∷ 0x00 ∷ 0x00 ∷ 0x0A ∷ [] }
    ensures at_the_maximum { members (record bench { zoom = 7 } ∷ []) (world_tile 7) ≡ record bench { zoom = 7 } ∷ [] }
    ensures above_it { members (record bench { zoom = 8 } ∷ []) (world_tile 7) ≡ [] }
    ensures garden { tile_bytes (world_tile 21) (record garden { coast = true } ∷ [])
        ≡ set (set garden_tile 46 0xFF) 47 0xFF }
    ensures third_interval { tile_bytes middle_tile (record bench { zoom = 12 } ∷ []) ≡ 0x01 ∷ 0x00 ∷ replicate 18 0
        ++ 0x05 ∷ 0x00 ∷ 0x00 ∷ 0x51 ∷ 0x00 ∷ 0x00 ∷ [] }
{}

/// What a run reports.
#[tactic(auto, using(crate::proofs::MapRows::report_rows), unfolding(crate::proofs::Compute::compute))]
pub fn reports()
    ensures one_bench { report (settings_to 7) benches degree_box (bench_with []) ≡ bench_numbers }
    ensures none { report (settings_to 7) benches degree_box [] ≡ record {
      nodes = 0;
      ways = 0;
      relations = 0;
      features = 0;
      skipped = 0;
      tiles = 0;
      water = 0;
      bytes = 115;
      largest = 0;
    } }
    ensures zoom_above_maximum { report (settings_to 7) late_benches degree_box (bench_with [])
        ≡ record {
          nodes = 1;
          ways = 0;
          relations = 0;
          features = 1;
          skipped = 0;
          tiles = 0;
          water = 0;
          bytes = 115;
          largest = 11;
        } }
    ensures five_benches { report (settings_to 7) benches degree_box five_benches
        ≡ record {
          nodes = 5;
          ways = 0;
          relations = 0;
          features = 5;
          skipped = 0;
          tiles = 1;
          water = 0;
          bytes = 192;
          largest = 55;
        } }
    ensures one_skipped { report (settings_to 7) paths degree_box
        (node_at 1 (at 0 0) [] ∷ way_through 1 (1 ∷ 2 ∷ 3 ∷ 4 ∷ []) path ∷ []) ≡ record {
          nodes = 1;
          ways = 1;
          relations = 0;
          features = 0;
          skipped = 1;
          tiles = 0;
          water = 0;
          bytes = 114;
          largest = 12;
        } }
    ensures text { report_line bench_numbers
        ≡ codes "nodes 1 ways 0 relations 0 features 1 skipped 0 tiles 1 water 0 bytes 144 largest 11" ++ 10 ∷ [] }
{}

/// The limit is passed above it and not at it, and what a job counts.
#[tactic(auto, using(crate::proofs::MapRows::limit_rows), unfolding(crate::proofs::Compute::compute))]
pub fn limits()
    ensures at_the_limit { tile_limit_fault 66 (settings_to 7) degree_box (replicate 6 bench) ≡ None }
    ensures over_the_limit { tile_limit_fault 64 (settings_to 7) degree_box (replicate 6 bench)
        ≡ Some (LimitFault.Tile 0 0 0 66) }
    ensures candidate_first { limit_fault 10 (settings_to 7) benches degree_box five_benches
        ≡ Some (LimitFault.Feature EntityKind.Node 1 11) }
    ensures then_tile { limit_fault 54 (settings_to 7) benches degree_box five_benches
        ≡ Some (LimitFault.Tile 0 0 0 55) }
    ensures none { limit_fault 55 (settings_to 7) benches degree_box five_benches ≡ None }
    ensures sub_file { sub_file_limit_fault (549755813887 ∷ 549755813888 ∷ [])
        ≡ Some (LimitFault.SubFile 1 549755813888) }
    ensures forest { shape_size forests (forest_of 3 3 (outer 1 ∷ outer 2 ∷ outer 3 ∷ member_of 4 (codes "inner") ∷ []))
        ≡ 6 + 10 + 4 + 24 }
    ensures forest_and_tile { job_size (settings_to 7) forests degree_box
        (forest_of 3 3 (outer 1 ∷ outer 2 ∷ outer 3 ∷ member_of 4 (codes "inner") ∷ [])) ≡ 44 + 1 + 24 }
{}

/// A closed water way covers the tile in its middle, and not the tiles that its sides meet; an open one covers none.
/// The rows of its sides are premises, since the table is too large to be computed here.
#[tactic(auto, unfolding(crate::proofs::Compute::compute))]
pub fn water_tile()
    ensures middle { row 5 (pos 16000000) ≡ 14 → row 5 (negsuc 4999999) ≡ 16
        → corner 5 17 15 ≡ at_place (pos 11178401) (pos 11250000)
        → water (lake_tile 17 15) (lake ∷ []) ≡ true }
    ensures north { row 5 (pos 16000000) ≡ 14 → water (lake_tile 17 14) (lake ∷ []) ≡ false }
    ensures east { row 5 (pos 16000000) ≡ 14 → row 5 (negsuc 4999999) ≡ 16
        → corner 5 18 15 ≡ at_place (pos 11178401) (pos 22500000)
        → water (lake_tile 18 15) (lake ∷ []) ≡ false }
    ensures outside { row 5 (pos 16000000) ≡ 14 → row 5 (negsuc 4999999) ≡ 16
        → corner 5 15 15 ≡ at_place (pos 11178401) (negsuc 11249999)
        → water (lake_tile 15 15) (lake ∷ []) ≡ false }
    ensures open { water (lake_tile 17 15) (open_lake ∷ []) ≡ false }
{}
