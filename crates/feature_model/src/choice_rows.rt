//! Entries and choices on small inputs.

ghost use Rattle.std.specs.Prelude.{◌≡◌, map, Some, None, true, false, codes, pos, negsuc, [], ◌∷◌, ◌++◌, replicate};
ghost use Rattle.feature_model.specs.Mapping.{KeptValue, kept_by};
ghost use Rattle.feature_model.specs.Choice.{choice, layer_of};
ghost use Rattle.feature_model.specs.Proper.{has_zoom};
ghost use Rattle.feature_model.specs.Samples.{forest, tag, entry, benches, water};

/// A value that is literally the text of a kind does not match the kind, only the first pair of a key counts, and a
/// kind reads its range.
#[tactic(auto, unfolding(crate::proofs::Compute::compute))]
pub fn kinds_of_values()
    ensures literally { kept_by (entry (codes "a") (codes "%b") 5) (tag (codes "a") (codes "%b")) ≡ None }
    ensures literal_text { kept_by (entry (codes "a") (codes "%s") 5) (tag (codes "a") (codes "%s"))
        ≡ Some (KeptValue.text (codes "%s")) }
    ensures first_pair { kept_by (entry (codes "a") (codes "b") 5)
        ((codes "a", codes "c") ∷ (codes "a", codes "b") ∷ []) ≡ None }
    ensures bytes { map (λ v. kept_by (entry (codes "a") (codes "%b") 5) (tag (codes "a") v))
        (codes "-128" ∷ codes "-129" ∷ codes "127" ∷ codes "128" ∷ codes "1.0" ∷ [])
        ≡ Some (KeptValue.byte (negsuc 127)) ∷ None ∷ Some (KeptValue.byte (pos 127)) ∷ None ∷ None ∷ [] }
    ensures ints { map (λ v. kept_by (entry (codes "a") (codes "%i") 5) (tag (codes "a") v))
        (codes "-2147483648" ∷ codes "2147483648" ∷ codes "2147483647" ∷ [])
        ≡ Some (KeptValue.int (negsuc 2147483647)) ∷ None ∷ Some (KeptValue.int (pos 2147483647)) ∷ [] }
    ensures shorts { map (λ v. kept_by (entry (codes "a") (codes "%h") 5) (tag (codes "a") v))
        (codes "-32768" ∷ codes "-32769" ∷ codes "32767" ∷ codes "32768" ∷ [])
        ≡ Some (KeptValue.short (negsuc 32767)) ∷ None ∷ Some (KeptValue.short (pos 32767)) ∷ None ∷ [] }
    ensures least_int { kept_by (entry (codes "a") (codes "%i") 5) (tag (codes "a") (codes "-2147483649")) ≡ None }
    ensures empty { kept_by (entry (codes "a") (codes "%s") 5) (tag (codes "a") []) ≡ None }
{}

/// Fifteen ids are kept, and the zoom and the marks come from all sixteen.
#[tactic(auto, unfolding(crate::proofs::Compute::compute))]
pub fn sixteen_entries()
    ensures { choice (replicate 15 (entry (codes "a") (codes "%s") 9) ++ record {
      key = codes "natural";
      value = codes "coastline";
      zoom = 3;
      water = true;
      label = true;
    } ∷ [])
        ((codes "a", codes "x") ∷ (codes "natural", codes "coastline") ∷ (codes "layer", codes "2") ∷ [])
        ≡ Some (record {
          tags = map (λ i. record { tag = i; value = KeptValue.text (codes "x") })
              (0 ∷ 1 ∷ 2 ∷ 3 ∷ 4 ∷ 5 ∷ 6 ∷ 7 ∷ 8 ∷ 9 ∷ 10 ∷ 11 ∷ 12 ∷ 13 ∷ 14 ∷ []);
          zoom = 3;
          layer = pos 2;
          water =
              true;
          label = true;
          coast = true;
        }) }
{}

/// A mark of an entry is the mark of the choice, each for itself.
#[tactic(auto, unfolding(crate::proofs::Compute::compute))]
pub fn marks_of_entries()
    ensures water { choice (water true false ∷ []) (tag (codes "natural") (codes "water"))
        ≡ Some (record {
          tags = record { tag = 0; value = KeptValue.plain } ∷ [];
          zoom = 12;
          layer = pos 0;
          water = true;
          label = false;
          coast = false;
        }) }
    ensures label { choice (water false true ∷ []) (tag (codes "natural") (codes "water"))
        ≡ Some (record {
          tags = record { tag = 0; value = KeptValue.plain } ∷ [];
          zoom = 12;
          layer = pos 0;
          water = false;
          label = true;
          coast = false;
        }) }
    ensures coast { choice (entry (codes "natural") (codes "coastline") 12 ∷ [])
        (tag (codes "natural") (codes "coastline")) ≡ Some (record {
          tags = record { tag = 0; value = KeptValue.plain } ∷ [];
          zoom = 12;
          layer = pos 0;
          water = false;
          label = false;
          coast = true;
        }) }
    ensures no_coast { choice (entry (codes "place") (codes "coastline") 12 ∷ entry (codes "natural") (codes "coast")
        12 ∷ []) (tag (codes "place") (codes "coastline") ++ tag (codes "natural") (codes "coast"))
        ≡ Some (record {
          tags = record { tag = 0; value = KeptValue.plain } ∷ record {
            tag = 1;
            value = KeptValue.plain;
          } ∷ [];
          zoom = 12;
          layer = pos 0;
          water = false;
          label = false;
          coast = false;
        }) }
    ensures of_the_second { choice (entry (codes "landuse") (codes "forest") 12 ∷ water true true ∷ [])
        (forest ++ tag (codes "natural") (codes "water"))
        ≡ Some (record {
          tags = record { tag = 0; value = KeptValue.plain } ∷ record {
            tag = 1;
            value = KeptValue.plain;
          } ∷ [];
          zoom = 12;
          layer = pos 0;
          water = true;
          label = true;
          coast = false;
        }) }
{}

/// Layers and elevations of benches.
#[tactic(auto, unfolding(crate::proofs::Compute::compute))]
pub fn layers()
    ensures { map layer_of (tag (codes "layer") (codes "-1") ∷ tag (codes "layer") (codes "9") ∷ tag (codes "layer")
        (codes "-9") ∷ tag (codes "layer") (codes "+1") ∷ tag (codes "layer") (codes "2;3") ∷ tag (codes "layer") (codes
        "9999999999") ∷ [] ∷ [])
        ≡ negsuc 0 ∷ pos 5 ∷ negsuc 4 ∷ pos 0 ∷ pos 0 ∷ pos 5 ∷ pos 0 ∷ [] }
{}

/// A zoom level of entries is that of one of them.
#[tactic(auto, unfolding(crate::proofs::Compute::compute))]
pub fn zooms_of_entries()
    ensures { map (has_zoom (entry (codes "a") (codes "b") 5 ∷ entry (codes "a") (codes "c") 9 ∷ []))
        (0 ∷ 5 ∷ 7 ∷ 9 ∷ [])
        ≡ false ∷ true ∷ false ∷ true ∷ [] }
{}
