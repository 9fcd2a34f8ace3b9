//! Laws of the units of heads and parts.

ghost use Rattle.std.specs.Prelude.{◌≡◌, ℕ, ◌^◌, ◌<◌, List, Some};
ghost use Rattle.std.specs.List.{AllByRecursion};
ghost use Rattle.mf_base.specs.declared.kind.Role.{Role};
ghost use Rattle.feature_model.specs.Points.{Part};
ghost use Rattle.std.specs.Prelude.{length, take, drop, map, [], ◌∷◌, ◌++◌, true};
ghost use Rattle.mf_rows.specs.Records.{Record, description_told};
ghost use Rattle.mf_rows.specs.RecordUnits.{AreWide, front_count, is_drawn, record_in, redrawn, units_of};
ghost use Rattle.mf_rows.specs.RecordUnits.{unit_count, text_bytes};
ghost use Rattle.mf_rows.specs.declared.head.Head.{Head};
ghost use Rattle.mf_rows.specs.declared.head_units.TextLengths.{TextLengths};
ghost use Rattle.mf_rows.specs.Heads.{head_unit, head_in};
ghost use Rattle.mf_rows.specs.FirstUnits.{IsHead, AreLengths, front_record, front_units};
ghost use Rattle.mf_rows.specs.Whole.{AreTexts, IsWhole};
ghost use Rattle.mf_rows.specs.Described.{head_of, texts_of, HasShortTexts};
ghost use Rattle.feature_model.specs.Descriptions.{Description, texts_length};
ghost use Rattle.mf_rows.specs.declared.head.TextSlot.{TextSlot};
ghost use Rattle.mf_base.specs.Texts.{Text};
ghost use Rattle.mf_rows.specs.Units.{Unit16, part_unit, part_in, parts_units, parts_in, IsPart};

/// The unit of a part tells its role and its number of points, and no other unit tells them.
pub fn part_unit_is_read_back()
    ensures only { (unit : Unit16) (role : Role) (points : ℕ) → part_in unit ≡ Some (role, points)
        → unit ≡ part_unit role points }
    ensures back { (role : Role) (points : ℕ) → points < 2 ^ 64
        → part_in (part_unit role points) ≡ Some (role, points) }
{}

/// The units of parts are read back as these parts.
pub fn parts_are_read_back()
    ensures { (parts : List Part) → AllByRecursion IsPart parts → parts_in (parts_units parts) ≡ Some parts }
{}

/// The ten units of a head are read again as this head, with the lengths of its texts.
pub fn a_head_is_read_back()
    ensures { (h : Head) (t : TextLengths) → IsHead h → AreLengths t
        → head_in (map (head_unit h t) (0 ∷ 1 ∷ 2 ∷ 3 ∷ 4 ∷ 5 ∷ 6 ∷ 7 ∷ 8 ∷ 9 ∷ []))
        ≡ Some (record { head = h; texts = t }) }
{}

/// Behind its head and texts stands what a record is drawn from, and other units there make another record of them.
pub fn what_a_record_is_drawn_from()
    ensures there { (units : List Unit16) (r : Record) → AreWide units → record_in units ≡ Some r
        → is_drawn r.head.kind (drop (front_count r) units) ≡ true }
    ensures same { (units : List Unit16) (r : Record) → AreWide units → record_in units ≡ Some r
        → redrawn r (drop (front_count r) units) ≡ r }
    ensures other { (units others : List Unit16) (r : Record) → AreWide units → record_in units ≡ Some r
        → is_drawn r.head.kind others ≡ true
        → record_in (take (front_count r) units ++ others) ≡ Some (redrawn r others) }
{}

/// The units of a record are read again as this record: those of its head and texts with any that draw it, and all of
/// them. What was read of units has the texts of its head, so its first units are read again too.
pub fn a_record_is_read_back()
    ensures front { (h : Head) (texts : List (TextSlot × Text)) (others : List Unit16) → IsHead h → AreTexts h texts
        → is_drawn h.kind others ≡ true
        → record_in (front_units (front_record h texts) ++ others) ≡ Some (redrawn (front_record h texts) others) }
    ensures whole { (r : Record) → IsWhole r → record_in (units_of r) ≡ Some r }
    ensures texts { (units : List Unit16) (r : Record) → AreWide units → record_in units ≡ Some r
        → AreTexts r.head r.texts }
    ensures again { (units others : List Unit16) (r : Record) → AreWide units → record_in units ≡ Some r
        → IsHead r.head → is_drawn r.head.kind others ≡ true
        → record_in (front_units r ++ others) ≡ Some (redrawn r others) }
{}

/// The head and the texts of a description tell it again, and are those that a record can have.
pub fn a_description_is_told_back()
    ensures told { (d : Description) → description_told (head_of d) (texts_of d) ≡ d }
    ensures texts { (d : Description) → HasShortTexts d → AreTexts (head_of d) (texts_of d) }
{}

/// How many units a record has, and how many bytes the texts of a description.
pub fn units_are_counted()
    ensures front { (r : Record) → length (front_units r) ≡ front_count r }
    ensures all { (r : Record) → IsWhole r → length (units_of r) ≡ unit_count r }
    ensures texts { (d : Description) → length (text_bytes (texts_of d)) ≡ texts_length d }
{}
