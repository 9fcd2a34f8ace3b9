//! The premises of the laws are met, by computed rows of one bench: a law that nothing meets would say nothing.

ghost use Rattle.std.specs.Prelude.{◌≡◌, [], ◌∷◌, drop, codes, pos, true, Ok, Err, Some, None};
ghost use Rattle.mf_base.specs.Spelling.{IsBytes};
ghost use Rattle.osm_model.specs.declared.tables.TheConstants.{PRIMITIVE_BLOCK};
ghost use Rattle.osm_model.specs.declared.faults.WireFault.TheVariants as wire_faults;
ghost use Rattle.osm_model.specs.declared.faults.MessageFault.TheVariants as message_faults;
ghost use Rattle.osm_model.specs.declared.faults.BlockFault.TheVariants as block_faults;
ghost use Rattle.osm_model.specs.declared.faults.EntityFault.TheVariants as entity_faults;
ghost use Rattle.osm_model.specs.declared.faults.InputCode.TheVariants as input_codes;
ghost use Rattle.osm_model.specs.Reading.{all_read, then_reads};
ghost use Rattle.osm_model.specs.Tables.{message};
ghost use Rattle.osm_model.specs.Frames.{known_at, PassesOver, LeadsTo};
ghost use Rattle.osm_model.specs.Blocks.{block, block_head, block_strings, header_box, is_coordinate};
ghost use Rattle.osm_model.specs.Objects.{HasKeys};
ghost use Rattle.osm_model.specs.Input.{content_fault, ReadsInput};
ghost use Rattle.osm_model.specs.Outcome.{AreSoundBlobs};
ghost use Rattle.osm_model.specs.Samples.{hex, one_bench, one_degree, bench, header_alone, header_frame, bench_frame};
ghost use Rattle.osm_model.specs.Samples.{blob_of, header_raw, bench_block, bench_texts, bench_group, usual_head};

/// The blobs of one bench, which are without a fault one behind the other; the second of them has one behind a bench.
#[tactic(auto, unfolding(crate::proofs::Compute::compute))]
pub fn premises_are_met()
    ensures bytes { IsBytes one_bench }
    ensures known { known_at 0 one_bench ≡ then_reads header_frame (then_reads bench_frame all_read) }
    ensures first_sound { content_fault [] header_frame.content ≡ None }
    ensures second_sound { content_fault [] bench_frame.content ≡ None }
    ensures twice { content_fault (bench 1 ∷ []) bench_frame.content
        ≡ Some (input_codes.Entity (entity_faults.OutOfOrder 1 (pos 1))) }
    ensures passes { PassesOver 0 (blob_of "OSMOther" []) }
    ensures leads { LeadsTo 0 header_alone header_frame }
    ensures leads_on { LeadsTo 73 (drop 73 one_bench) bench_frame }
    ensures blobs { AreSoundBlobs one_bench (bench 1 ∷ []) (Some one_degree) }
    ensures reads { ReadsInput one_bench (header_frame ∷ bench_frame ∷ []) None }
{}

/// The HeaderBlock and the PrimitiveBlock of one bench, and blocks with a fault.
#[tactic(auto, unfolding(crate::proofs::Compute::compute))]
pub fn premises_on_blocks_are_met()
    ensures box_of_the_header { header_box header_raw ≡ Ok (Some one_degree) }
    ensures head { block_head bench_block ≡ Ok usual_head }
    ensures strings { block_strings bench_block ≡ Ok bench_texts }
    ensures whole { block bench_block
        ≡ Ok (record { head = usual_head; strings = bench_texts; groups = bench_group ∷ [] }) }
    ensures no_strings { block_strings [] ≡ Err block_faults.NoStrings }
    ensures cut { message PRIMITIVE_BLOCK (hex "12") ≡ Err (message_faults.Wire wire_faults.Varint) }
    ensures north_east { is_coordinate usual_head (pos 900000000) (pos 1800000000) ≡ true }
    ensures keys { HasKeys ((1, 2) ∷ []) }
{}
