//! What is known of a record before its parts.

ghost use Rattle.std.specs.Prelude.{◌^◌, ◌<◌, FitsSigned};
ghost use Rattle.std.specs.Int.{w8, w32};
ghost use Rattle.std.specs.List.{AllByRecursion};
ghost use Rattle.mf_rows.specs.Heads.{height_number};
ghost use Rattle.mf_rows.specs.FirstUnits.{IsHead, IsKeptTag};

use arrayvec::ArrayVec;
use mf_base::kept::Kept;
use mf_base::kind::EntityKind;

/// The head of a record. `number` is that of the feature and `weight` is in rows; both are 0 until they are set. The
/// height is in metres. A kept text tells its length alone.
#[derive(Clone, Debug, Drop, PartialEq, Eq)]
pub struct Head {
    pub kind: EntityKind,
    pub id: u64,
    pub number: u64,
    pub weight: u64,
    pub zoom: u8,
    pub layer: i8,
    pub water: bool,
    pub label: bool,
    pub coast: bool,
    pub height: Option<i32>,
    pub tags: ArrayVec<Kept, 15>,
}

impl Head {
    /// A value of the type is a head.
    pub fn known(&self)
        ensures { IsHead self.now }
    {
        numbers_known(self.id, self.number, self.weight);
        smaller_known(self.zoom, self.layer, self.height);
        tags_known(&self.tags);
    }
}

// Numbers of eight bytes.
fn numbers_known(id: u64, number: u64, weight: u64)
    ensures id { id < 2 ^ 64 }
    ensures number { number < 2 ^ 64 }
    ensures weight { weight < 2 ^ 64 }
{}

// Zoom, layer and height.
fn smaller_known(zoom: u8, layer: i8, height: Option<i32>)
    ensures zoom { zoom < 2 ^ 8 }
    ensures layer { FitsSigned w8 layer }
    ensures height { FitsSigned w32 (height_number height) }
{}

// Kept tags are such.
fn tags_known(tags: &[Kept])
    ensures { AllByRecursion IsKeptTag tags.now }
{
    if let Some((first, rest)) = tags.split_first() {
        tag_known(*first);
        tags_known(rest);
    }
}

// A value of the type is a kept tag.
fn tag_known(kept: Kept)
    ensures { IsKeptTag kept }
{}

/// What a text is: a name, a house number, a reference, or the value of the kept tag of this place.
#[derive(Clone, Copy, Debug, Default, PartialEq, Eq)]
pub enum TextSlot {
    #[default]
    Name,
    House,
    Reference,
    Tag(u8),
}

/// A text in a block of bytes: its slot, its first byte, and its length in bytes.
#[derive(Clone, Copy, Debug, Default, PartialEq, Eq)]
pub struct TextSpan {
    pub slot: TextSlot,
    pub start: u32,
    pub len: u32,
}

/// The texts of one record, in the order of their slots.
#[derive(Clone, Debug, Drop)]
pub struct Texts<'a> {
    pub block: &'a [u8],
    pub spans: ArrayVec<TextSpan, 18>,
}
