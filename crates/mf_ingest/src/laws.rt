//! How much the parts of an input can come to; a law on a function that does nothing.

ghost use Rattle.std.specs.Prelude.{◌*◌, ◌≤◌, ℕ, List, length};
ghost use Rattle.mf_edge.specs.Spill.{part_limit};
ghost use Rattle.osm_model.specs.Entities.{Entity};
ghost use Rattle.extract_pass.specs.EntitySizes.{entities_size};
ghost use Rattle.extract_pass.specs.EntityPass.{WereHanded};
ghost use Rattle.mf_ingest.specs.Ingesting.{most_of, most_per_byte};
ghost use Rattle.mf_ingest.specs.Ingest.{HasSmallParts};

/// Entities of an input that can have been handed on take no more bytes than it has, and each part has at most 65,536
/// bytes of them for each byte of the input. So an input of up to 2^46 bytes makes no store overrun.
pub fn parts_of_an_input()
    ensures taken { (bytes : List ℕ) (entities : List Entity) → WereHanded bytes entities
        → entities_size entities ≤ length bytes }
    ensures most { (bytes : List ℕ) (entities : List Entity) → WereHanded bytes entities
        → most_of entities ≤ most_per_byte * length bytes }
    ensures small { (bytes : List ℕ) → most_per_byte * length bytes ≤ part_limit → HasSmallParts bytes }
{}
