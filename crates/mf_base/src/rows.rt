//! The definitions on small inputs.

ghost use Rattle.std.specs.Prelude.{◌≡◌, ◌^◌, ◌*◌, ◌-◌, map, Some, None, Ok, Err, true, false, codes, pos, negsuc, []};
ghost use Rattle.std.specs.Prelude.{◌∷◌, ◌++◌, replicate};
ghost use Rattle.mf_base.specs.Spelling.{vbe_unsigned, vbe_signed, string, big_endian, zigzag_of, unzigzag_of};
ghost use Rattle.mf_base.specs.NumberReading.{varint_front, unsigned_front, signed_front};
ghost use Rattle.mf_base.specs.Ranges.{is_signed_32, is_signed_64, is_latitude, is_longitude, is_rect};
ghost use Rattle.mf_base.specs.Texts.{cut, cut_last, has_text};
ghost use Rattle.mf_base.specs.Tags.{value_of, text_of, present_text, readable_text};
ghost use Rattle.mf_base.specs.Numbers.{whole_number, height, zoom_number, whole_in, number_in};
ghost use Rattle.mf_base.specs.Words.{words_keep, word_of, names_in};
ghost use Rattle.mf_base.specs.Root.{isqrt};
ghost use Rattle.mf_base.specs.declared.number.VbeFault.TheVariants as vbe;
ghost use Rattle.mf_base.specs.declared.number.VarintFault.TheVariants as varint;

/// Numbers and their spellings in a map.
#[tactic(auto, unfolding(crate::proofs::Compute::compute))]
pub fn spellings()
    ensures unsigned { map vbe_unsigned (0 ∷ 127 ∷ 128 ∷ 16383 ∷ 16384 ∷ (2 ^ 63 - 1) ∷ [])
        ≡ (0x00 ∷ []) ∷ (0x7F ∷ []) ∷ (0x80 ∷ 0x01 ∷ []) ∷ (0xFF ∷ 0x7F ∷ []) ∷ (0x80 ∷ 0x80 ∷ 0x01 ∷ []) ∷ (replicate 8
        0xFF ++ 0x7F ∷ []) ∷ [] }
    ensures signed { map vbe_signed (pos 0 ∷ pos 63 ∷ pos 64 ∷ negsuc 0 ∷ negsuc 63 ∷ negsuc 62 ∷ negsuc 8191 ∷ [])
        ≡ (0x00 ∷ []) ∷ (0x3F ∷ []) ∷ (0xC0 ∷ 0x00 ∷ []) ∷ (0x41 ∷ []) ∷ (0xC0 ∷ 0x40 ∷ []) ∷ (0x7F ∷ [])
        ∷ (0x80 ∷ 0xC0 ∷ 0x40 ∷ []) ∷ [] }
    ensures text { string (codes "Alp") ≡ 0x03 ∷ 0x41 ∷ 0x6C ∷ 0x70 ∷ [] }
    ensures fixed { big_endian 4 86 ≡ 0x00 ∷ 0x00 ∷ 0x00 ∷ 0x56 ∷ [] }
    ensures zigzag { map zigzag_of (pos 0 ∷ negsuc 0 ∷ pos 1 ∷ negsuc 1 ∷ pos 2147483647 ∷ negsuc 2147483647 ∷ [])
        ≡ 0 ∷ 1 ∷ 2 ∷ 3 ∷ 4294967294 ∷ 4294967295 ∷ [] }
    ensures unzigzag { map unzigzag_of (0 ∷ 1 ∷ 2 ∷ 3 ∷ 4294967294 ∷ 4294967295 ∷ [])
        ≡ pos 0 ∷ negsuc 0 ∷ pos 1 ∷ negsuc 1 ∷ pos 2147483647 ∷ negsuc 2147483647 ∷ [] }
{}

/// What bytes are read as in a map, and why they are refused: the first cause that holds.
#[tactic(auto, unfolding(crate::proofs::Compute::compute))]
pub fn numbers_read()
    ensures unsigned { map unsigned_front
        ((0x7F ∷ 0xFF ∷ []) ∷ (0x80 ∷ 0x01 ∷ []) ∷ (replicate 8 0xFF ++ 0x7F ∷ []) ∷ []) ≡ Ok (127, 1) ∷ Ok (
          128,
          2,
        ) ∷ Ok (2 ^ 63 - 1, 9) ∷ [] }
    ensures unsigned_refused { map unsigned_front ([] ∷ (0x80 ∷ []) ∷ replicate 9 0x80 ∷ replicate 10 0x80 ∷ replicate
        11 0xFF ∷ (replicate 9 0x80 ++ 0x01 ∷ []) ∷ (replicate 9 0x80 ++ 0x00 ∷ []) ∷ (0x80 ∷ 0x00 ∷ []) ∷ [])
        ≡ Err vbe.Short ∷ Err vbe.Short ∷ Err vbe.Short ∷ Err vbe.Wide ∷ Err vbe.Wide ∷ Err vbe.Wide ∷ Err
        vbe.Long ∷ Err vbe.Long ∷ [] }
    ensures signed { map signed_front
        ((0x3F ∷ []) ∷ (0xC0 ∷ 0x00 ∷ []) ∷ (0x41 ∷ 0x00 ∷ []) ∷ (0xC0 ∷ 0x40 ∷ []) ∷ (replicate 9 0xFF
        ++ 0x40 ∷ []) ∷ []) ≡ Ok (pos 63, 1) ∷ Ok (pos 64, 2) ∷ Ok (negsuc 0, 1) ∷ Ok (negsuc 63, 2) ∷ Ok
        (negsuc (2 ^ 63 - 2), 10) ∷ [] }
    ensures signed_refused { map signed_front
        ((0x80 ∷ []) ∷ (replicate 9 0x80 ++ 0x01 ∷ []) ∷ (replicate 9 0x80
        ++ 0x80 ∷ 0x40 ∷ []) ∷ (0x40 ∷ []) ∷ (0x80 ∷ 0x40 ∷ []) ∷ (0x80 ∷ 0x00 ∷ []) ∷ (0xBF ∷ 0x40 ∷ []) ∷ [])
        ≡ Err vbe.Short ∷ Err vbe.Wide ∷ Err vbe.Wide ∷ Err vbe.NegativeZero ∷ Err vbe.NegativeZero ∷ Err vbe.Long ∷ Err
        vbe.Long ∷ [] }
{}

/// What bytes are read as in an extract: longer spellings of small numbers are taken.
#[tactic(auto, unfolding(crate::proofs::Compute::compute))]
pub fn varints_read()
    ensures read { map varint_front
        ((0x7F ∷ 0xFF ∷ []) ∷ (0x80 ∷ 0x00 ∷ []) ∷ (replicate 9 0x80 ++ 0x00 ∷ []) ∷ (replicate 9 0xFF
        ++ 0x01 ∷ []) ∷ []) ≡ Ok (127, 1) ∷ Ok (0, 2) ∷ Ok (0, 10) ∷ Ok (2 ^ 64 - 1, 10) ∷ [] }
    ensures refused { map varint_front ([] ∷ (0x80 ∷ []) ∷ replicate 9 0x80 ∷ replicate 10 0x80 ∷ (replicate 9 0x80
        ++ 0x02 ∷ []) ∷ []) ≡ Err varint.Short ∷ Err varint.Short ∷ Err varint.Short ∷ Err varint.Long ∷ Err
        varint.Long ∷ [] }
{}

/// The bounds of numbers and of the earth.
#[tactic(auto, unfolding(crate::proofs::Compute::compute))]
pub fn bounds()
    ensures small { map is_signed_32 (pos 2147483647 ∷ pos 2147483648 ∷ negsuc 2147483647 ∷ negsuc 2147483648 ∷ [])
        ≡ true ∷ false ∷ true ∷ false ∷ [] }
    ensures large { map is_signed_64 (pos 9223372036854775807 ∷ pos 9223372036854775808 ∷ negsuc
        9223372036854775807 ∷ negsuc 9223372036854775808 ∷ []) ≡ true ∷ false ∷ true ∷ false ∷ [] }
    ensures latitudes { map is_latitude (pos 90000000 ∷ pos 90000001 ∷ negsuc 89999999 ∷ negsuc 90000000 ∷ [])
        ≡ true ∷ false ∷ true ∷ false ∷ [] }
    ensures rects { map is_rect (record {
      min_lat = negsuc 89999999;
      min_lon = negsuc 179999999;
      max_lat = pos 90000000;
      max_lon = pos 180000000;
    } ∷ record { min_lat = pos 1; min_lon = pos 1; max_lat = pos 1; max_lon = pos 1 }
        ∷ record { min_lat = pos 2; min_lon = pos 1; max_lat = pos 1; max_lon = pos 1 } ∷ record {
          min_lat = pos 1;
          min_lon = pos 2;
          max_lat = pos 1;
          max_lon = pos 1;
        } ∷ record {
          min_lat = negsuc 90000000;
          min_lon =
              pos 1;
          max_lat = pos 1;
          max_lon = pos 1;
        } ∷ [])
        ≡ true ∷ true ∷ false ∷ false ∷ false ∷ [] }
    ensures longitudes { map is_longitude (pos 180000000 ∷ pos 180000001 ∷ negsuc 179999999 ∷ negsuc 180000000 ∷ [])
        ≡ true ∷ false ∷ true ∷ false ∷ [] }
{}

/// Readable whole numbers of tags.
#[tactic(auto, unfolding(crate::proofs::Compute::compute))]
pub fn whole_numbers_of_tags()
    ensures read { map whole_number (codes "-1" ∷ codes "-0" ∷ codes "0000000007" ∷ codes "9999999999" ∷ codes
        "-9999999999" ∷ [])
        ≡ Some (negsuc 0) ∷ Some (pos 0) ∷ Some (pos 7) ∷ Some (pos 9999999999) ∷ Some (negsuc 9999999998) ∷ [] }
    ensures refused { map whole_number (codes "" ∷ codes "-" ∷ codes "+1" ∷ codes " 1" ∷ codes "1 " ∷ codes
        "1.0" ∷ codes "00000000007" ∷ codes "--1" ∷ codes "1a" ∷ [])
        ≡ None ∷ None ∷ None ∷ None ∷ None ∷ None ∷ None ∷ None ∷ None ∷ [] }
{}

/// Elevations.
#[tactic(auto, unfolding(crate::proofs::Compute::compute))]
pub fn heights_of_tags()
    ensures read { map height (codes "+12.5" ∷ codes "-7" ∷ codes "12." ∷ codes "99999.999999999" ∷ codes "-0.9" ∷ codes
        "00012" ∷ [])
        ≡ Some (pos 12) ∷ Some (negsuc 6) ∷ Some (pos 12) ∷ Some (pos 99999) ∷ Some (pos 0) ∷ Some (pos 12) ∷ [] }
    ensures refused { map height (codes "" ∷ codes "." ∷ codes ".5" ∷ codes "123456" ∷ codes "1.2.3" ∷ codes
        "12m" ∷ codes "+-1" ∷ codes "-+1" ∷ codes "1,5" ∷ codes "12.5 m" ∷ [])
        ≡ None ∷ None ∷ None ∷ None ∷ None ∷ None ∷ None ∷ None ∷ None ∷ None ∷ [] }
{}

/// Numbers of the words.
#[tactic(auto, unfolding(crate::proofs::Compute::compute))]
pub fn numbers_of_words()
    ensures zooms { map zoom_number (codes "5" ∷ codes "21" ∷ codes "22" ∷ codes "00000000000000000005" ∷ codes
        "000000000000000000005" ∷ codes "-0" ∷ codes "" ∷ [])
        ≡ Some 5 ∷ Some 21 ∷ None ∷ Some 5 ∷ None ∷ None ∷ None ∷ [] }
    ensures seed { map (number_in 0 (2 ^ 64 - 1)) (codes "18446744073709551615" ∷ codes "18446744073709551616" ∷ [])
        ≡ Some 18446744073709551615 ∷ None ∷ [] }
    ensures unsigned { map (whole_in (pos 0) (pos 99))
        (codes "00000000000000000007" ∷ codes "000000000000000000007" ∷ codes "-7" ∷ codes "100" ∷ []) ≡ Some (pos
        7) ∷ None ∷ None ∷ None ∷ [] }
    ensures no_sign { map (number_in 0 9) (codes "-1" ∷ codes "9" ∷ codes "10" ∷ []) ≡ None ∷ Some 9 ∷ None ∷ [] }
    ensures signed { map (whole_in (negsuc 89999999) (pos 90000000))
        (codes "-90000000" ∷ codes "-90000001" ∷ codes "-0" ∷ codes "90000001" ∷ codes "-" ∷ codes
        "-00000000000000000001" ∷ codes "-000000000000000000001" ∷ [])
        ≡ Some (negsuc 89999999) ∷ None ∷ Some (pos 0) ∷ None ∷ None ∷ Some (negsuc 0) ∷ None ∷ [] }
{}

/// Where a text is cut, and what it has.
#[tactic(auto, unfolding(crate::proofs::Compute::compute))]
pub fn texts_cut()
    ensures first { cut 64 (codes "a@b@c") ≡ Some (codes "a", codes "b@c") }
    ensures last { cut_last 64 (codes "a@b@c") ≡ Some (codes "a@b", codes "c") }
    ensures none { map (cut_last 64) (codes "abc" ∷ [] ∷ []) ≡ None ∷ None ∷ [] }
    ensures part { map (has_text (codes ":colour")) (codes "roof:colour" ∷ codes "a:colour:b" ∷ codes "colour" ∷ codes
        ":colou" ∷ []) ≡ true ∷ true ∷ false ∷ false ∷ [] }
{}

/// The first pair of a key counts, and a text of 1,021 bytes counts as absent.
#[tactic(auto, unfolding(crate::proofs::Compute::compute))]
pub fn lookup_in_tags()
    ensures first { value_of (codes "b") ((codes "a", codes "1") ∷ (codes "b", codes "2") ∷ (codes "b", codes "3") ∷ [])
        ≡ Some (codes "2") }
    ensures absent { value_of (codes "c") ((codes "a", codes "1") ∷ []) ≡ None }
    ensures empty { text_of (codes "a") ((codes "a", []) ∷ (codes "a", codes "1") ∷ []) ≡ None }
    ensures longest { present_text (replicate 1020 97) ≡ Some (replicate 1020 97) }
    ensures utf8 { map readable_text ((233 ∷ []) ∷ (195 ∷ 169 ∷ []) ∷ (195 ∷ []) ∷ (255 ∷ []) ∷ [] ∷ [])
        ≡ None ∷ Some (195 ∷ 169 ∷ []) ∷ None ∷ None ∷ None ∷ [] }
    ensures too_long { present_text (replicate 1021 97) ≡ None }
{}

/// The words of a command line.
#[tactic(auto, unfolding(crate::proofs::Compute::compute))]
pub fn words_of_lines()
    ensures kept { map (words_keep (codes "poi" ∷ codes "rows" ∷ [])) ([]
        ∷ (codes "--" ∷ [])
        ∷ (codes "--poi=a=b@5" ∷ codes "--rows" ∷ codes "64" ∷ codes "--" ∷ [])
        ∷ (codes "--poi=-1" ∷ [])
        ∷ (codes "--poi==" ∷ []) ∷ [])
        ≡ true ∷ true ∷ true ∷ true ∷ true ∷ [] }
    ensures broken { map (words_keep (codes "poi" ∷ codes "rows" ∷ [])) (
        (codes "--poi" ∷ codes "--" ∷ [])
        ∷ (codes "--" ∷ codes "--" ∷ [])
        ∷ (codes "--" ∷ codes "--poi=a" ∷ [])
        ∷ (codes "--poi=a" ∷ codes "--poi=a" ∷ [])
        ∷ (codes "--poi=" ∷ [])
        ∷ (codes "--poi=-" ∷ [])
        ∷ (codes "--poi" ∷ codes "-1" ∷ [])
        ∷ (codes "--poi" ∷ [])
        ∷ (codes "--po=a" ∷ [])
        ∷ (codes "-poi=a" ∷ [])
        ∷ (codes "poi" ∷ [])
        ∷ (codes "" ∷ []) ∷ [])
        ≡ false ∷ false ∷ false ∷ false ∷ false ∷ false ∷ false ∷ false ∷ false ∷ false ∷ false ∷ false ∷ [] }
    ensures names { map names_in (codes "poi,rows" ∷ codes "" ∷ codes "a,,b" ∷ [])
        ≡ (codes "poi" ∷ codes "rows" ∷ []) ∷ [] ∷ (codes "a" ∷ codes "b" ∷ []) ∷ [] }
    ensures values { map (word_of (codes "--poi=a=b@5" ∷ codes "--rows" ∷ codes "64" ∷ []))
        (codes "poi" ∷ codes "rows" ∷ codes "box" ∷ [])
        ≡ Some (codes "a=b@5") ∷ Some (codes "64") ∷ None ∷ [] }
{}

/// Roots.
#[tactic(auto, unfolding(crate::proofs::Compute::compute))]
pub fn roots()
    ensures small { map isqrt (0 ∷ 1 ∷ 3 ∷ 4 ∷ 15 ∷ 16 ∷ []) ≡ 0 ∷ 1 ∷ 1 ∷ 2 ∷ 3 ∷ 4 ∷ [] }
    ensures large { isqrt (43213918263772250 * 10 ^ 18) ≡ 207879576350761909 }
{}
