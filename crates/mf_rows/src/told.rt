//! Records, read of their units.

ghost use Rattle.std.specs.Prelude.{◌≡◌, ◌+◌, ◌*◌, ◌≤◌, ◌<◌, ◌∷◌, ◌++◌, ℕ, List, false, length, drop, is_some};
ghost use Rattle.std.specs.Prelude.{IfSome, IsNone, Some, None, [], take, unwrap_or};
ghost use Rattle.std.specs.List.{list_all};
ghost use Rattle.mf_base.specs.declared.kept.Kept.{Kept as KeptRead};
ghost use Rattle.mf_rows.specs.Units.{parts_in, FollowsPart};
ghost use Rattle.mf_rows.specs.Told.{IsTold, head_told};
ghost use Rattle.mf_rows.specs.declared.head.TextSlot.{TextSlot as SlotValue};
ghost use Rattle.arrayvec.specs.ArrayVec.{array_vec_len};
ghost use Rattle.mf_rows.specs.RecordUnits.{kept_size, slot_sizes, tag_sizes, sizes_total, spans_from};
ghost use Rattle.mf_rows.specs.RecordUnits.{is_size, are_sizes as fit_sizes};
ghost use Rattle.mf_rows.specs.RecordUnits.{are_zeros as only_zeros, is_line as spells_line, is_drawn, last_place};
ghost use Rattle.mf_rows.specs.RecordUnits.{units_for};
ghost use Rattle.mf_rows.specs.Records.{drawn_parts};
ghost use Rattle.mf_rows.specs.Heads.{head_in};
ghost use Rattle.mf_rows.specs.RecordUnits.{is_behind as stands_behind, record_behind, record_in, bytes_in};

use crate::head::{Head, TextSlot, TextSpan};
use crate::head_units::TextLengths;
use crate::heads::read_head;
use crate::units::{part_unit, read_part_unit};
use arrayvec::ArrayVec;
use mf_base::kept::{Kept as KeptTag, KeptValue};
use mf_base::kind::{EntityKind, Role};

/// What a desk keeps of a record: its head, the lengths of its texts, and how many units these take. Of the units that
/// it is drawn from, the one of the last part stands at `part`.
#[derive(Drop)]
pub struct Told {
    pub head: Head,
    pub lengths: TextLengths,
    pub texts: usize,
    pub part: usize,
}

/// The same, with the place of its first unit, and how many units it has.
#[derive(Drop)]
pub struct Kept {
    pub told: Told,
    pub first: usize,
    pub count: usize,
}

/// What units tell, where they spell a record.
pub fn read_record(units: &[[u8; 16]]) -> Option<Told>
    ensures none { IsNone result → record_in units.now ≡ None }
    ensures some { IfSome result (λ t. IsTold t (drop 10 units.now) (record_in units.now)) }
    ensures front { IfSome result (λ _. 10 ≤ length units.now) }
    ensures head { IfSome result (λ t. head_in (take 10 units.now) ≡ Some (head_told t)) }
{
    if units.len() < 10 {
        return None;
    }
    let (front, rest) = units.split_at(10);
    let (head, texts) = read_head(front)?;
    told_of(head, texts, rest)
}

// What a head and the units behind it tell.
fn told_of(head: Head, texts: TextLengths, units: &[[u8; 16]]) -> Option<Told>
    ensures none { IsNone result
        → record_behind units.now (Some (record { head = head; texts = texts })) ≡ None }
    ensures some { IfSome result
        (λ t. IsTold t units.now (record_behind units.now (Some (record { head = head; texts = texts })))) }
    ensures same { IfSome result (λ t. head_told t ≡ record { head = head; texts = texts }) }
{
    let size = laid_texts(&head, texts).size as usize;
    match last_behind(&head, texts, size, units) {
        Some(part) => Some(Told {
            head,
            lengths: texts,
            texts: (size + 15) / 16,
            part,
        }),
        None => None,
    }
}

// Where the unit of the last part stands behind those of texts, where units are those behind a head whose texts have so
// many bytes.
fn last_behind(head: &Head, texts: TextLengths, size: usize, units: &[[u8; 16]]) -> Option<usize>
    requires size { size ≡ sizes_total (slot_sizes (record { head = head.now; texts = texts })) }
    requires small { size ≤ 65535 * 18 }
    ensures there { is_some result ≡ stands_behind (record { head = head.now; texts = texts }) units.now }
    ensures place { IfSome result
        (λ n. n ≡ last_place (unwrap_or (drawn_parts head.now.kind (drop (units_for size) units.now)) [])) }
{
    let n = (size + 15) / 16;
    if are_sizes(head, texts) && n <= units.len() && are_zeros_from(&units[..n], size) {
        last_drawn(head.kind, units.split_at(n).1)
    } else {
        None
    }
}

// Whether the bytes of units are zeros, from this one on.
fn are_zeros_from(units: &[[u8; 16]], at: usize) -> bool
    requires { at ≤ 16 * length units.now }
    ensures { result ≡ only_zeros (drop at (bytes_in units.now)) }
{
    are_zeros(units.as_flattened().split_at(at).1)
}

// Whether bytes are zeros.
fn are_zeros(bytes: &[u8]) -> bool
    ensures { result ≡ only_zeros bytes.now }
{
    bytes.iter().all(|byte| *byte == 0)
}

// Whether units are those of one outer part, or none.
fn is_line(units: &[[u8; 16]]) -> bool
    ensures { result ≡ spells_line units.now }
{
    match units.split_first() {
        Some((first, points)) => *first == part_unit(Role::Outer, points.len() as u64),
        None => true,
    }
}

// Where the unit of the last part stands, where units are those of parts.
fn last_of(units: &[[u8; 16]]) -> Option<usize>
    ensures there { is_some result ≡ is_some (parts_in units.now) }
    ensures place { IfSome result (λ n. n ≡ last_place (unwrap_or (parts_in units.now) [])) }
{
    let mut left = units;
    let mut last = 0;
    while let Some((first, rest)) = left.split_first() {
        match behind(first, rest) {
            Some(more) => {
                last = units.len() - left.len();
                left = more;
            }
            None => return None,
        }
    }
    Some(last)
}

// The units behind a part, of its unit and the units behind that.
fn behind<'a>(first: &[u8; 16], rest: &'a [[u8; 16]]) -> Option<&'a [[u8; 16]]>
    ensures some { IfSome result (λ r. FollowsPart first.now rest.now r.now) }
    ensures less { IfSome result (λ r. length r.now ≤ length rest.now) }
    ensures none { IsNone result → is_some (parts_in (first.now ∷ rest.now)) ≡ false }
{
    let (_, points) = read_part_unit(first)?;
    if points > rest.len() as u64 {
        return None;
    }
    Some(rest.split_at(points as usize).1)
}

// Where the unit of the last part stands, where units tell what an object of this kind is drawn from, or the front of
// it.
fn last_drawn(kind: EntityKind, units: &[[u8; 16]]) -> Option<usize>
    ensures there { is_some result ≡ is_drawn kind units.now }
    ensures place { IfSome result (λ n. n ≡ last_place (unwrap_or (drawn_parts kind units.now) [])) }
{
    match kind {
        EntityKind::Node => (units.len() <= 1).then_some(0),
        EntityKind::Way => is_line(units).then_some(0),
        EntityKind::Relation => last_of(units),
    }
}

/// Where the texts of a record stand, and how many bytes they take.
#[derive(Drop)]
pub struct Laid {
    pub spans: ArrayVec<TextSpan, 18>,
    pub size: u32,
}

// Whether each text has a length that a text may have.
fn are_sizes(head: &Head, texts: TextLengths) -> bool
    ensures { result ≡ fit_sizes (record { head = head.now; texts = texts }) }
{
    texts.name <= 1020 && texts.house <= 1020 && texts.reference <= 1020 && tags_fit(&head.tags)
}

// The same of tags.
fn tags_fit(tags: &[KeptTag]) -> bool
    ensures { result ≡ list_all (λ (k : KeptRead). is_size k.value) tags.now }
{
    tags.iter().all(|kept| fits(kept.value))
}

// The same of a value.
fn fits(value: KeptValue) -> bool
    ensures { result ≡ is_size value }
{
    match value {
        KeptValue::Text { len } => 1 <= len && len <= 1020,
        KeptValue::Plain | KeptValue::Byte(_) | KeptValue::Short(_) | KeptValue::Int(_) => true,
    }
}

// The length of a value that is a text, and else 0.
fn size_of(value: KeptValue) -> u16
    ensures { result ≡ kept_size value }
{
    match value {
        KeptValue::Text { len } => len,
        KeptValue::Plain | KeptValue::Byte(_) | KeptValue::Short(_) | KeptValue::Int(_) => 0,
    }
}

// Puts the text of a slot behind the others, where there is one.
fn lay(laid: &mut Laid, slot: TextSlot, len: u16)
    requires room { array_vec_len laid.old.spans < 18 }
    requires small { laid.old.size ≤ 65535 * 17 }
    ensures spans { (more : List (SlotValue × ℕ)) → laid.new.spans.items ++ spans_from laid.new.size more
        ≡ laid.old.spans.items ++ spans_from laid.old.size ((slot, len) ∷ more) }
    ensures size { laid.new.size ≡ laid.old.size + len }
    ensures most { array_vec_len laid.new.spans ≤ array_vec_len laid.old.spans + 1 }
{
    if len > 0 {
        laid.spans.push(TextSpan {
            slot,
            start: laid.size,
            len: u32::from(len),
        });
    }
    laid.size += u32::from(len);
}

/// Where the texts of a head stand, one after another.
pub fn laid_texts(head: &Head, texts: TextLengths) -> Laid
    ensures spans { result.spans.items ≡ spans_from 0 (slot_sizes (record { head = head.now; texts = texts })) }
    ensures size { result.size ≡ sizes_total (slot_sizes (record { head = head.now; texts = texts })) }
    ensures most { result.size ≤ 65535 * 18 }
{
    let mut laid = Laid {
        spans: ArrayVec::new(),
        size: 0,
    };
    lay(&mut laid, TextSlot::Name, texts.name);
    lay(&mut laid, TextSlot::House, texts.house);
    lay(&mut laid, TextSlot::Reference, texts.reference);
    lay_tags(&mut laid, &head.tags);
    laid
}

// Puts the texts of tags behind the others.
fn lay_tags(laid: &mut Laid, tags: &[KeptTag])
    requires few { length tags.now ≤ 15 }
    requires room { array_vec_len laid.old.spans ≤ 3 }
    requires small { laid.old.size ≤ 65535 * 3 }
    ensures spans { laid.new.spans.items ≡ laid.old.spans.items ++ spans_from laid.old.size (tag_sizes 0 tags.now) }
    ensures size { laid.new.size ≡ laid.old.size + sizes_total (tag_sizes 0 tags.now) }
    ensures most { laid.new.size ≤ 65535 * 18 }
{
    for i in 0..tags.len() {
        lay(laid, TextSlot::Tag(i as u8), size_of(tags[i].value));
    }
}
