//! Worked inputs, and what they spell.

ghost use Rattle.std.specs.Prelude.{◌≡◌, [], ◌∷◌, ◌++◌, ◌-◌, ◌^◌, take, length, replicate, codes, pos, negsuc, Ok, Err};
ghost use Rattle.osm_model.specs.declared.faults.WireFault.TheVariants as wire_faults;
ghost use Rattle.osm_model.specs.declared.faults.MessageFault.TheVariants as message_faults;
ghost use Rattle.osm_model.specs.declared.faults.FrameFault.TheVariants as frame_faults;
ghost use Rattle.osm_model.specs.declared.faults.BlockFault.TheVariants as block_faults;
ghost use Rattle.osm_model.specs.declared.faults.EntityFault.TheVariants as entity_faults;
ghost use Rattle.osm_model.specs.Frames.{header, frames, next_known, frame_front};
ghost use Rattle.osm_model.specs.Input.{input_fault, input_entities, input_box, known_box};
ghost use Rattle.osm_model.specs.Samples.{hex, len_field, boxed, whole_earth, blob_of, header_blob, raw_blob};
ghost use Rattle.osm_model.specs.Samples.{string_field, least_number, half_of_range, in_frame, in_block, in_entity, at};
ghost use Rattle.osm_model.specs.Samples.{at_zero, square, one_degree, node_at, way_at, header_raw, header_alone};
ghost use Rattle.osm_model.specs.Samples.{data_blob, one_bench, with_byte, bench_tags, bench, bench_texts, plain_group};
ghost use Rattle.osm_model.specs.Samples.{node_group, way_group, twice_five, bench_with_name, dense_three};
ghost use Rattle.osm_model.specs.Samples.{dense_three_entities, ways_and_relation, ways_and_relation_entities};
ghost use Rattle.osm_model.specs.Samples.{missing_node, missing_node_entities, ring_of_three_ways, forest_entities};
ghost use Rattle.osm_model.specs.Samples.{water_tile, water_tile_entities, fault_before_limit};

/// One bench, and a box of one degree each way.
#[tactic(auto, unfolding(crate::proofs::Compute::compute))]
pub fn one_bench_row()
    ensures size { length one_bench ≡ 128 }
    ensures accepted { input_fault one_bench ≡ None }
    ensures entities { input_entities one_bench ≡ bench 1 ∷ [] }
    ensures bounds { input_box one_bench ≡ Some one_degree }
    ensures box_of_the_words { known_box (Some (square 10)) one_bench ≡ Some (square 10) }
    ensures box_of_the_input { known_box None one_bench ≡ Some one_degree }
    ensures spelled { one_bench ≡ hex "00 00 00 0D 0A 09" ++ codes "OSMHeader" ++ hex "18 38 0A 36" ++ header_raw
        ++ hex "00 00 00 0B 0A 07" ++ codes "OSMData" ++ hex "18 28 0A 26 0A 12 0A 00 0A 07" ++ codes "amenity"
        ++ hex "0A 05" ++ codes "bench" ++ hex "12 10 12 0E 0A 01 02 42 01 00 4A 01 00 52 03 01 02 00" }
{}

/// A header blob alone, and an input of nothing.
#[tactic(auto, unfolding(crate::proofs::Compute::compute))]
pub fn header_alone_row()
    ensures front { take 73 one_bench ≡ header_alone }
    ensures accepted { input_fault header_alone ≡ None }
    ensures entities { input_entities header_alone ≡ [] }
    ensures bounds { input_box header_alone ≡ Some one_degree }
    ensures empty_input { input_fault [] ≡ None }
    ensures empty_input_entities { input_entities [] ≡ [] }
    ensures empty_input_box { input_box [] ≡ None }
{}

/// An input that is cut in a length, and one with compressed data.
#[tactic(auto, unfolding(crate::proofs::Compute::compute))]
pub fn cut_and_compressed_rows()
    ensures cut_in_a_length { input_fault (take 76 one_bench) ≡ in_frame 73 (frame_faults.Truncated 3) }
    ensures cut_in_a_length_entities { input_entities (take 76 one_bench) ≡ [] }
    ensures compressed_blob { input_fault (one_bench ++ blob_of "OSMData" (len_field 3 []))
        ≡ in_frame 128 (frame_faults.Compressed 3) }
    ensures compressed_blob_entities { input_entities (one_bench ++ blob_of "OSMData" (len_field 3 [])) ≡ bench 1 ∷ [] }
    ensures first_compressed { input_fault (blob_of "OSMData" (len_field 4 [] ++ len_field 3 []))
        ≡ in_frame 0 (frame_faults.Compressed 4) }
    ensures last_compressed { input_fault (blob_of "OSMData" (len_field 7 []))
        ≡ in_frame 0 (frame_faults.Compressed 7) }
    ensures first_known { next_known (frames (take 76 one_bench))
        ≡ Ok (Some (record { at = 0; content = header header_raw })) }
    ensures first_cut { next_known (frames (hex "00")) ≡ Err (record { at = 0; fault = frame_faults.Truncated 1 }) }
{}

/// Why a BlobHeader is refused.
#[tactic(auto, unfolding(crate::proofs::Compute::compute))]
pub fn blob_header_rows()
    ensures long_header { input_fault (hex "00 01 00 00") ≡ in_frame 0 frame_faults.HeaderLength }
    ensures longest_header { input_fault (hex "00 00 FF FF") ≡ in_frame 0 (frame_faults.Truncated 0) }
    ensures cut_type { input_fault (hex "00 00 00 02 0A 05")
        ≡ in_frame 0 (frame_faults.HeaderWire (message_faults.Wire wire_faults.Length)) }
    ensures bad_type { input_fault (hex "00 00 00 01 0B")
        ≡ in_frame 0 (frame_faults.HeaderWire (message_faults.Wire wire_faults.Kind)) }
    ensures number_zero { input_fault (hex "00 00 00 02 00 80")
        ≡ in_frame 0 (frame_faults.HeaderWire (message_faults.Wire wire_faults.Kind)) }
    ensures bad_form { input_fault (hex "00 00 00 03 08 00 80")
        ≡ in_frame 0 (frame_faults.HeaderWire (message_faults.Form 1)) }
    ensures bad_varint { input_fault (hex "00 00 00 0B 18" ++ replicate 9 0x80 ++ hex "02")
        ≡ in_frame 0 (frame_faults.HeaderWire (message_faults.Wire wire_faults.Varint)) }
    ensures last_size { input_fault (hex "00 00 00 08 0A 01 58 18 FF 01 18 00") ≡ None }
    ensures longer_spelling { input_fault (hex "00 00 00 06 0A 01 58 18 80 00") ≡ None }
    ensures no_header { input_fault (hex "00 00 00 00") ≡ in_frame 0 frame_faults.NoKind }
    ensures untyped { input_fault (hex "00 00 00 02 18 00") ≡ in_frame 0 frame_faults.NoKind }
    ensures no_datasize { input_fault (hex "00 00 00 03 0A 01 78") ≡ in_frame 0 frame_faults.NoSize }
    ensures largest_blob { input_fault (hex "00 00 00 08 0A 01 58 18 80 80 80 10")
        ≡ in_frame 0 (frame_faults.Truncated 0) }
    ensures larger_blob { input_fault (hex "00 00 00 08 0A 01 58 18 81 80 80 10") ≡ in_frame 0 frame_faults.BlobSize }
    ensures endless { input_fault
        (hex "00 00 00 16" ++ len_field 1 (codes "OSMHeader") ++ hex "18" ++ replicate 9 0xFF ++ hex "01")
        ≡ in_frame 0 frame_faults.BlobSize }
    ensures cut_blob { input_fault (hex "00 00 00 05 0A 01 58 18 05 00 00 00") ≡ in_frame 0 (frame_faults.Truncated 3) }
    ensures nearest { frame_front (2 ^ 62 - 1) header_alone ≡ Ok (header header_raw, 73) }
    ensures far { frame_front (2 ^ 62) header_alone ≡ Err frame_faults.TooLong }
{}

/// Fields of messages: those that are passed over, their numbers and their spellings.
#[tactic(auto, unfolding(crate::proofs::Compute::compute))]
pub fn field_rows()
    ensures passed_over { input_fault (header_blob (hex "79 01 02 03 04 05 06 07 08 7D 01 02 03 04 78 80 00")) ≡ None }
    ensures cut_i64 { input_fault (header_blob (hex "79 01 02 03 04 05 06 07"))
        ≡ in_block 0 (block_faults.Wire (message_faults.Wire wire_faults.Length)) }
    ensures cut_i32 { input_fault (header_blob (hex "7D 01 02 03"))
        ≡ in_block 0 (block_faults.Wire (message_faults.Wire wire_faults.Length)) }
    ensures greatest_number { input_fault (header_blob (hex "F8 FF FF FF 0F 00")) ≡ None }
    ensures greater_number { input_fault (header_blob (hex "80 80 80 80 10 00"))
        ≡ in_block 0 (block_faults.Wire (message_faults.Wire wire_faults.Kind)) }
    ensures greatest_varint { input_fault (header_blob (hex "78" ++ replicate 9 0xFF ++ hex "01")) ≡ None }
    ensures eleven_bytes { input_fault (header_blob (hex "78" ++ replicate 10 0x80 ++ hex "00"))
        ≡ in_block 0 (block_faults.Wire (message_faults.Wire wire_faults.Varint)) }
    ensures other_form { input_fault (header_blob (hex "20 00"))
        ≡ in_block 0 (block_faults.Wire (message_faults.Form 4)) }
    ensures cut_packed { input_fault (data_blob (len_field 3 (hex "08 01 42 02 02 80")))
        ≡ in_entity 0 (entity_faults.Wire (message_faults.Wire wire_faults.Varint)) }
{}

/// Why a Blob is refused.
#[tactic(auto, unfolding(crate::proofs::Compute::compute))]
pub fn blob_rows()
    ensures no_raw { input_fault (blob_of "OSMData" []) ≡ in_frame 0 frame_faults.NoBytes }
    ensures wrong_size { input_fault (blob_of "OSMData" (len_field 1 (hex "0A 00") ++ hex "10 09"))
        ≡ in_frame 0 (frame_faults.RawSize 9 2) }
{}

/// The box and the required features of a header.
#[tactic(auto, unfolding(crate::proofs::Compute::compute))]
pub fn header_block_rows()
    ensures no_box { input_fault (header_blob []) ≡ None }
    ensures no_box_told { input_box (header_blob []) ≡ None }
    ensures zero_box { input_fault (boxed "00" "00" "00" "00") ≡ None }
    ensures zero_box_told { input_box (boxed "00" "00" "00" "00") ≡ Some (square 0) }
    ensures first_box { input_box (boxed "00" "00" "00" "00" ++ header_alone) ≡ Some (square 0) }
    ensures no_sides { input_fault (header_blob (len_field 1 [] ++ len_field 4 (codes "x")))
        ≡ in_block 0 block_faults.BadBox }
    ensures earth { input_box (boxed "FF 9F B0 8D BD 0A" "80 A0 B0 8D BD 0A" "80 90 D8 C6 9E 05" "FF 8F D8 C6 9E 05")
        ≡ Some whole_earth }
    ensures beyond_west { input_fault (boxed "81 A0 B0 8D BD 0A" "00" "00" "00") ≡ in_block 0 block_faults.BadBox }
    ensures beyond_east { input_fault (boxed "00" "82 A0 B0 8D BD 0A" "00" "00") ≡ in_block 0 block_faults.BadBox }
    ensures beyond_north { input_fault (boxed "00" "00" "82 90 D8 C6 9E 05" "00") ≡ in_block 0 block_faults.BadBox }
    ensures beyond_south { input_fault (boxed "00" "00" "00" "81 90 D8 C6 9E 05") ≡ in_block 0 block_faults.BadBox }
    ensures left_above_right { input_fault (boxed "0A" "08" "04" "04") ≡ in_block 0 block_faults.BadBox }
    ensures bottom_above_top { input_fault (boxed "00" "00" "04" "08") ≡ in_block 0 block_faults.BadBox }
    ensures two_boxes { input_fault (header_blob (len_field 1 [] ++ len_field 1 []))
        ≡ in_block 0 (block_faults.Wire (message_faults.Twice 1)) }
    ensures feature { input_fault (with_byte 60 0x37) ≡ in_block 0 block_faults.RequiredFeature }
{}

/// The head of a block.
#[tactic(auto, unfolding(crate::proofs::Compute::compute))]
pub fn block_rows()
    ensures untold { input_fault (raw_blob []) ≡ in_block 0 block_faults.NoStrings }
    ensures cut_field { input_fault (raw_blob (hex "12"))
        ≡ in_block 0 (block_faults.Wire (message_faults.Wire wire_faults.Varint)) }
    ensures text { input_fault (with_byte 96 0xFF) ≡ in_block 73 (block_faults.NotText 1) }
{}

/// The order of kinds, and of ids within a kind.
#[tactic(auto, unfolding(crate::proofs::Compute::compute))]
pub fn order_rows()
    ensures node_after_way { input_fault (header_alone ++ data_blob way_group ++ data_blob node_group)
        ≡ in_entity 116 entity_faults.KindOrder }
    ensures zero_after_way { input_fault (data_blob way_group ++ data_blob (len_field 1 (hex "08 00 40 00 48 00")))
        ≡ in_entity 43 entity_faults.KindOrder }
    ensures way_after_relation { input_fault
        (data_blob (len_field 4 (hex "08 05")) ++ data_blob (len_field 3 (hex "08 06")))
        ≡ in_entity 43 entity_faults.KindOrder }
    ensures id_twice { input_fault (header_alone ++ data_blob twice_five)
        ≡ in_entity 73 (entity_faults.OutOfOrder 5 (pos 5)) }
    ensures way_twice { input_fault (data_blob (len_field 3 (hex "08 05") ++ len_field 3 (hex "08 05")))
        ≡ in_entity 0 (entity_faults.OutOfOrder 5 (pos 5)) }
    ensures way_of_a_blob_before { input_fault
        (data_blob (len_field 3 (hex "08 05")) ++ data_blob (len_field 3 (hex "08 05")))
        ≡ in_entity 43 (entity_faults.OutOfOrder 5 (pos 5)) }
    ensures way_of_a_blob_long_before { input_fault
        (data_blob (len_field 3 (hex "08 05")) ++ header_alone ++ data_blob (len_field 3 (hex "08 05")))
        ≡ in_entity 116 (entity_faults.OutOfOrder 5 (pos 5)) }
    ensures third_way_falls { input_fault
        (data_blob (len_field 3 (hex "08 02") ++ len_field 3 (hex "08 05") ++ len_field 3 (hex "08 04")))
        ≡ in_entity 0 (entity_faults.OutOfOrder 5 (pos 4)) }
    ensures relation_falls { input_fault (data_blob (len_field 4 (hex "08 05") ++ len_field 4 (hex "08 04")))
        ≡ in_entity 0 (entity_faults.OutOfOrder 5 (pos 4)) }
    ensures id_zero { input_fault (with_byte 116 0x00) ≡ in_entity 73 (entity_faults.OutOfOrder 0 (pos 0)) }
    ensures way_below { input_fault (data_blob (len_field 3 (hex "08" ++ replicate 9 0xFF ++ hex "01")))
        ≡ in_entity 0 (entity_faults.OutOfOrder 0 (negsuc 0)) }
    ensures id_below { input_fault (with_byte 116 0x01) ≡ in_entity 73 (entity_faults.OutOfOrder 0 (negsuc 0)) }
{}

/// Places: microdegrees of nanodegrees, towards zero.
#[tactic(auto, unfolding(crate::proofs::Compute::compute))]
pub fn place_rows()
    ensures less_than_one { input_entities (with_byte 119 0x02) ≡ bench 1 ∷ [] }
    ensures one { input_entities (with_byte 119 0x14) ≡ node_at 1 (at (pos 1) (pos 0)) bench_tags ∷ [] }
    ensures above_minus_one { input_entities (with_byte 119 0x01) ≡ bench 1 ∷ [] }
    ensures minus_one { input_entities (with_byte 119 0x13) ≡ node_at 1 (at (negsuc 0) (pos 0)) bench_tags ∷ [] }
    ensures west { input_entities (data_blob (len_field 1 (hex "08 02 40 01 48 25")))
        ≡ node_at 1 (at (pos 0) (negsuc 0)) [] ∷ [] }
    ensures corner { input_entities (data_blob (len_field 1 (hex "08 02 40 80 A4 A7 DA 06 48 FF C7 CE B4 0D")))
        ≡ node_at 1 (at (pos 90000000) (negsuc 179999999)) [] ∷ [] }
    ensures beyond_south { input_fault (data_blob (len_field 1 (hex "08 02 40 81 A4 A7 DA 06 48 00")))
        ≡ in_entity 0 entity_faults.Coordinate }
    ensures beyond_north { input_fault (data_blob (len_field 1 (hex "08 02 40 82 A4 A7 DA 06 48 00")))
        ≡ in_entity 0 entity_faults.Coordinate }
    ensures nanodegree_north { input_fault
        (raw_blob (string_field bench_texts ++ len_field 2 (len_field 1 (hex "08 02 40 80 A4 A7 DA 06 48 00"))
        ++ hex "98 01 01")) ≡ in_entity 0 entity_faults.Coordinate }
    ensures nanodegree_east { input_fault
        (raw_blob (string_field bench_texts ++ len_field 2 (len_field 1 (hex "08 02 40 00 48 80 C8 CE B4 0D"))
        ++ hex "A0 01 01")) ≡ in_entity 0 entity_faults.Coordinate }
    ensures east { input_entities
        (raw_blob (string_field bench_texts ++ len_field 2 (len_field 1 (hex "08 02 40 00 48 80 C8 CE B4 0D"))))
        ≡ node_at 1 (at (pos 0) (pos 180000000)) [] ∷ [] }
    ensures before_tags { input_fault (data_blob (len_field 1 (hex "08 02 12 01 01 40 82 A4 A7 DA 06 48 00")))
        ≡ in_entity 0 entity_faults.Coordinate }
{}

/// Groups.
#[tactic(auto, unfolding(crate::proofs::Compute::compute))]
pub fn group_rows()
    ensures mixed { input_fault (data_blob (node_group ++ len_field 3 (hex "08 02 42 00")))
        ≡ in_entity 0 entity_faults.MixedGroup }
    ensures changesets_mixed { input_fault (data_blob (len_field 5 [] ++ way_group))
        ≡ in_entity 0 entity_faults.MixedGroup }
    ensures plain_and_dense { input_fault (data_blob (node_group ++ len_field 2 (hex "0A 01 04 42 01 00 4A 01 00")))
        ≡ in_entity 0 entity_faults.MixedGroup }
    ensures strange_field { input_fault (data_blob (len_field 6 [] ++ way_group)) ≡ None }
    ensures empty_group { input_fault (data_blob way_group ++ data_blob []) ≡ None }
    ensures changesets { input_fault (data_blob (len_field 5 (hex "FF"))) ≡ None }
    ensures dense_twice { input_fault
        (data_blob (len_field 2 (hex "0A 01 02 42 01 00 4A 01 00") ++ len_field 2 (hex "0A 01 04 42 01 00 4A 01 00")))
        ≡ in_entity 0 (entity_faults.Wire (message_faults.Twice 2)) }
    ensures keys_twice { input_fault (data_blob (len_field 3 (hex "08 01 12 00 12 01 80")))
        ≡ in_entity 0 (entity_faults.Wire (message_faults.Twice 2)) }
    ensures no_id { input_fault (data_blob (len_field 3 (hex "42 00"))) ≡ in_entity 0 entity_faults.Missing }
{}

/// Plain and dense nodes.
#[tactic(auto, unfolding(crate::proofs::Compute::compute))]
pub fn node_rows()
    ensures plain { input_fault (header_alone ++ data_blob plain_group) ≡ None }
    ensures plain_entities { input_entities (header_alone ++ data_blob plain_group) ≡ bench 1 ∷ [] }
    ensures dense { input_fault dense_three ≡ None }
    ensures dense_entities { input_entities dense_three ≡ dense_three_entities }
    ensures left_over { input_fault (data_blob (len_field 2 (hex "0A 01 04 42 01 02 4A 01 02 52 02 00 00")))
        ≡ in_entity 0 entity_faults.Columns }
    ensures unclosed { input_fault (data_blob (len_field 2 (hex "0A 01 04 42 01 02 4A 01 02 52 02 01 02")))
        ≡ in_entity 0 entity_faults.Columns }
    ensures one_run_of_two { input_fault
        (data_blob (len_field 2 (hex "0A 02 02 02 42 02 00 00 4A 02 00 00 52 01 00")))
        ≡ in_entity 0 entity_faults.Columns }
    ensures few_latitudes { input_fault (data_blob (len_field 2 (hex "0A 02 04 06 42 01 02 4A 02 02 02")))
        ≡ in_entity 0 entity_faults.Columns }
    ensures many_longitudes { input_fault (data_blob (len_field 2 (hex "0A 01 02 42 01 00 4A 02 00 00")))
        ≡ in_entity 0 entity_faults.Columns }
    ensures index { input_fault (with_byte 125 0x03) ≡ in_entity 73 entity_faults.StringIndex }
    ensures value_index { input_fault (data_blob (len_field 2 (hex "0A 01 02 42 01 00 4A 01 00 52 03 01 02 09")))
        ≡ in_entity 0 entity_faults.StringIndex }
    ensures no_value { input_fault (with_byte 127 0x01) ≡ in_entity 73 entity_faults.KeyWithoutValue }
    ensures lone_key_index { input_fault (data_blob (len_field 2 (hex "0A 01 02 42 01 00 4A 01 00 52 01 09")))
        ≡ in_entity 0 entity_faults.StringIndex }
    ensures zero_as_value { input_entities (data_blob (len_field 2 (hex "0A 01 02 42 01 00 4A 01 00 52 03 01 00 00")))
        ≡ node_at 1 at_zero ((codes "amenity", []) ∷ []) ∷ [] }
    ensures runs_without_nodes { input_fault (data_blob (len_field 2 (hex "52 01 00")))
        ≡ in_entity 0 entity_faults.Columns }
    ensures wide_id { input_fault
        (data_blob (len_field 2 (hex "0A 14" ++ half_of_range ++ half_of_range ++ hex "42 02 00 00 4A 02 00 00")))
        ≡ in_entity 0 entity_faults.Range }
    ensures wide_longitude { input_fault
        (raw_blob (string_field bench_texts
        ++ len_field 2 (len_field 2 (hex "0A 02 02 00 42 02 00 00 4A 14" ++ half_of_range ++ half_of_range))
        ++ hex "88 01 00")) ≡ in_entity 0 entity_faults.Range }
    ensures wide_latitude { input_fault
        (raw_blob (string_field bench_texts
        ++ len_field 2 (len_field 2 (hex "0A 02 02 00 42 14" ++ half_of_range ++ half_of_range ++ hex "4A 02 00 00"))
        ++ hex "88 01 00")) ≡ in_entity 0 entity_faults.Range }
{}

/// Ways and relations.
#[tactic(auto, unfolding(crate::proofs::Compute::compute))]
pub fn way_and_relation_rows()
    ensures ways { input_fault ways_and_relation ≡ None }
    ensures ways_entities { input_entities ways_and_relation ≡ ways_and_relation_entities }
    ensures least_ref { input_entities (data_blob (len_field 3 (hex "08 01 42 0A" ++ least_number)))
        ≡ way_at 1 (negsuc (2 ^ 63 - 1) ∷ []) [] ∷ [] }
    ensures below_least { input_fault (data_blob (len_field 3 (hex "08 01 42 0B" ++ least_number ++ hex "01")))
        ≡ in_entity 0 entity_faults.Range }
    ensures wide_sum { input_fault (data_blob (len_field 3 (hex "08 02 42 14" ++ half_of_range ++ half_of_range)))
        ≡ in_entity 0 entity_faults.Range }
    ensures no_values { input_fault (data_blob (len_field 3 (hex "08 02 12 01 01 42 01 02")))
        ≡ in_entity 0 entity_faults.KeyWithoutValue }
    ensures no_keys { input_fault (data_blob (len_field 3 (hex "08 01 1A 01 01")))
        ≡ in_entity 0 entity_faults.KeyWithoutValue }
    ensures tags_before_refs { input_fault
        (data_blob (len_field 3 (hex "08 01 12 01 01 42 14" ++ half_of_range ++ half_of_range)))
        ≡ in_entity 0 entity_faults.KeyWithoutValue }
    ensures tags_before_members { input_fault (data_blob (len_field 4 (hex "08 01 12 01 01 42 01 01")))
        ≡ in_entity 0 entity_faults.KeyWithoutValue }
    ensures wide_member { input_fault
        (data_blob (len_field 4
        (hex "08 01 42 02 01 01 4A 14" ++ half_of_range ++ half_of_range ++ hex "52 02 01 03")))
        ≡ in_entity 0 entity_faults.Range }
    ensures role_before_kind { input_fault (data_blob (len_field 4 (hex "08 01 42 01 09 4A 01 02 52 01 03")))
        ≡ in_entity 0 entity_faults.StringIndex }
    ensures strange_member { input_fault (data_blob (len_field 4 (hex "08 02 42 01 01 4A 01 02 52 01 03")))
        ≡ in_entity 0 entity_faults.MemberKind }
    ensures many_types { input_fault (data_blob (len_field 4 (hex "08 01 42 01 01 4A 01 02 52 02 00 00")))
        ≡ in_entity 0 entity_faults.Columns }
    ensures many_ids { input_fault (data_blob (len_field 4 (hex "08 01 42 01 01 4A 02 02 02 52 01 00")))
        ≡ in_entity 0 entity_faults.Columns }
{}

/// The entities of whole inputs.
#[tactic(auto, unfolding(crate::proofs::Compute::compute))]
pub fn worked_inputs()
    ensures bench_with_name { input_entities bench_with_name
        ≡ node_at 1 at_zero (bench_tags ++ (codes "name", codes "Spring") ∷ []) ∷ [] }
    ensures missing_node { input_entities missing_node ≡ missing_node_entities }
    ensures ring_of_three_ways { input_entities ring_of_three_ways ≡ forest_entities }
    ensures water_tile { input_entities water_tile ≡ water_tile_entities }
    ensures fault_before_limit { input_fault fault_before_limit ≡ in_entity 73 (entity_faults.OutOfOrder 5 (pos 5)) }
    ensures none_before_limit { input_entities fault_before_limit ≡ [] }
{}
