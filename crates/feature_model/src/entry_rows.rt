//! Entries of mappings on small inputs.

ghost use Rattle.std.specs.Prelude.{◌≡◌, map, Some, None, Ok, Err, true, false, codes, [], ◌∷◌, replicate};
ghost use Rattle.mf_base.specs.declared.kind.List as which;
ghost use Rattle.feature_model.specs.Mapping.{Entry};
ghost use Rattle.feature_model.specs.Entries.{entry_behind, mapping_told, one_poi};
ghost use Rattle.feature_model.specs.declared.fault.MappingFault.{MappingFault};
ghost use Rattle.feature_model.specs.Samples.{entry, poi_mapping, water};

/// One word: the key ends before the first `=`, and the zoom level begins after the last `@`.
#[tactic(auto, unfolding(crate::proofs::Compute::compute))]
pub fn one_word()
    ensures read { one_poi (codes "amenity=bench@5")
        ≡ Ok (poi_mapping (entry (codes "amenity") (codes "bench") 5 ∷ [])) }
    ensures last_at { one_poi (codes "a=b=@c@021") ≡ Ok (poi_mapping (entry (codes "a") (codes "b=@c") 21 ∷ [])) }
    ensures entry { map one_poi (codes "" ∷ codes "a" ∷ codes "a@5" ∷ codes "a@5=b" ∷ codes "=b@5" ∷ codes
        "a=@5" ∷ codes "a=b@" ∷ codes "a=b@22" ∷ codes "a=b@-0" ∷ [])
        ≡ replicate 9 (Err (MappingFault.Entry which.List.Poi 0)) }
    ensures kind { map one_poi (codes "a=%f@5" ∷ codes "a=%@5" ∷ codes "x:colour=%i@5" ∷ [])
        ≡ replicate 3 (Err (MappingFault.Kind which.List.Poi 0)) }
    ensures no_fault { map one_poi (codes "roof:colour=red@5" ∷ codes "roof:colour=%s@5" ∷ codes "a=%i@5" ∷ [])
        ≡ map (λ (e : Entry). Ok (poi_mapping (e ∷ [])))
        (entry (codes "roof:colour") (codes "red") 5 ∷ entry (codes "roof:colour") (codes "%s") 5 ∷ entry
        (codes "a") (codes "%i") 5 ∷ []) }
    ensures kinds { map one_poi (codes "a=%b@5" ∷ codes "a=%h@5" ∷ codes "a=%i@5" ∷ codes "a=%s@5" ∷ codes
        "a=b%@5" ∷ [])
        ≡ map (λ value. Ok (poi_mapping (entry (codes "a") value 5 ∷ [])))
        (codes "%b" ∷ codes "%h" ∷ codes "%i" ∷ codes "%s" ∷ codes "b%" ∷ []) }
    ensures digits { map one_poi (codes "a=b@00000000000000000005" ∷ codes "a=b@000000000000000000005" ∷ codes
        "a=b@+5" ∷ [])
        ≡ Ok (poi_mapping (entry (codes "a") (codes "b") 5 ∷ [])) ∷ Err (MappingFault.Entry which.List.Poi 0) ∷ Err
        (MappingFault.Entry which.List.Poi 0) ∷ [] }
{}

/// Keys and values of 255 and of 256 bytes and of none, a key with `=`, and zoom levels.
#[tactic(auto, unfolding(crate::proofs::Compute::compute))]
pub fn entry_rule()
    ensures fits { let e = entry (replicate 255 97) (replicate 255 98) 21 in
        mapping_told (Some e ∷ []) [] ≡ Ok (poi_mapping (e ∷ [])) }
    ensures key { mapping_told (Some (entry (replicate 256 97) (codes "b") 5) ∷ []) []
        ≡ Err (MappingFault.Entry which.List.Poi 0) }
    ensures value { mapping_told (Some (entry (codes "a") (replicate 256 98) 5) ∷ []) []
        ≡ Err (MappingFault.Entry which.List.Poi 0) }
    ensures broken { map (λ e. mapping_told [] (Some e ∷ []))
        (entry [] (codes "b") 5 ∷ entry (codes "a") [] 5 ∷ entry (codes "a=") (codes "b") 5 ∷ entry (codes "a")
        (codes "b") 22 ∷ [])
        ≡ replicate 4 (Err (MappingFault.Entry which.List.Way 0)) }
    ensures equals_in_value { let e = entry (codes "a") (codes "b=") 0 in
        mapping_told [] (Some e ∷ []) ≡ Ok (record { poi = []; way = e ∷ [] }) }
{}

/// Lists of 4,096 entries, and of one more: both lengths come before every entry, and `poi` comes first.
#[tactic(auto, unfolding(crate::proofs::Compute::compute))]
pub fn many_entries()
    ensures poi { mapping_told (replicate 4097 None) [] ≡ Err (MappingFault.TooMany which.List.Poi) }
    ensures way { mapping_told (None ∷ []) (replicate 4097 None) ≡ Err (MappingFault.TooMany which.List.Way) }
    ensures both { mapping_told (replicate 4097 None) (replicate 4097 None)
        ≡ Err (MappingFault.TooMany which.List.Poi) }
    ensures fits { mapping_told (replicate 4096 None) (replicate 4096 None)
        ≡ Err (MappingFault.Entry which.List.Poi 0) }
{}

/// The same key and value a second time in a list, and once in each list.
#[tactic(auto, unfolding(crate::proofs::Compute::compute))]
pub fn entry_twice()
    ensures twice { mapping_told
        (Some (entry (codes "amenity") (codes "bench") 9) ∷ Some
        (entry (codes "amenity") (codes "bench") 5) ∷ []) [] ≡ Err (MappingFault.Twice which.List.Poi 1) }
    ensures in_both { let e = entry (codes "amenity") (codes "bench") 9 in
        mapping_told (Some e ∷ []) (Some e ∷ []) ≡ Ok (record { poi = e ∷ []; way = e ∷ [] }) }
    ensures apart { let es = entry (codes "a") (codes "b") 9 ∷ entry (codes "a") (codes "c") 9 ∷ entry (codes "c")
        (codes "b") 9 ∷ [] in mapping_told (map Some es) [] ≡ Ok (poi_mapping es) }
{}

/// The order of the faults: of one entry, of the entries of a list, and of the two lists.
#[tactic(auto, unfolding(crate::proofs::Compute::compute))]
pub fn first_faults()
    ensures of_an_entry { let e = entry (codes "a") (codes "%f") 22 in
        map (entry_behind which.List.Way (e ∷ [])) (Some e ∷ Some (record e { zoom = 5 }) ∷ None ∷ [])
        ≡ Err (MappingFault.Entry which.List.Way 1) ∷ Err (MappingFault.Kind which.List.Way 1) ∷ Err
        (MappingFault.Entry which.List.Way 1) ∷ [] }
    ensures in_order { mapping_told
        (Some (entry (codes "a") (codes "b") 5) ∷ Some (entry (codes "a") (codes "b") 5) ∷ Some
        (entry (codes "a") (codes "%f") 5) ∷ None ∷ []) [] ≡ Err (MappingFault.Twice which.List.Poi 1) }
    ensures poi_first { mapping_told (Some (entry (codes "a") (codes "b") 5) ∷ None ∷ []) (None ∷ [])
        ≡ Err (MappingFault.Entry which.List.Poi 1) }
    ensures marks { map (λ e. mapping_told (Some e ∷ []) []) (water true false ∷ water false true ∷ [])
        ≡ replicate 2 (Err (MappingFault.Entry which.List.Poi 0)) }
    ensures way_marks { mapping_told [] (Some (water true true) ∷ [])
        ≡ Ok (record { poi = []; way = water true true ∷ [] }) }
{}
