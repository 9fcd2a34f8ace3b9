//! A record that is lent.

ghost use Rattle.std.specs.Prelude.{◌≡◌, Some, None, IsSome, IfSome, IsNone, length, take, drop, find, option_map};
ghost use Rattle.std.specs.List.{AllByRecursion};
ghost use Rattle.feature_model.specs.Points.{Point};
ghost use Rattle.mf_rows.specs.Records.{text_in, texts_told, same_slot, LiesIn, spot_in, drawn_parts};

use crate::cursors::{PointCursor, RingCursor};
use crate::head::{Head, TextSlot, TextSpan, Texts};
use mf_base::kind::EntityKind;
use mf_base::place::Place;
use std::marker::Model;

/// A record that is lent. Contracts see its head, its texts, the point of a node, and its parts with their points.
#[derive(Drop)]
pub struct View<'a> {
    head: &'a Head,
    texts: Texts<'a>,
    drawn: &'a [[u8; 16]],
}

impl<'a> Model for View<'a> {
    ghost use Rattle.std.specs.Prelude.{[], length, unwrap_or, IsSome};
    ghost use Rattle.std.specs.List.{AllByRecursion};
    ghost use Rattle.mf_rows.specs.Records.{Record, texts_told, LiesIn, spot_in, drawn_parts};

    ghost Value = { Record };

    ghost view = { λ v. record {
      head = v.head.now;
      texts = texts_told v.texts.block.now v.texts.spans.items;
      spot =
          spot_in v.head.now.kind v.drawn.now;
      parts = unwrap_or (drawn_parts v.head.now.kind v.drawn.now) [];
    } };

    ghost invariant = { λ v. AllByRecursion (LiesIn (length v.texts.block.now)) v.texts.spans.items
        × IsSome (drawn_parts v.head.now.kind v.drawn.now) };
}

impl<'a> View<'a> {
    /// A record of this head and these texts. `drawn` are the units of the point of a node, or else those of the parts.
    pub fn new(head: &'a Head, texts: Texts<'a>, drawn: &'a [[u8; 16]]) -> View<'a>
        requires texts { AllByRecursion (LiesIn (length texts.block.now)) texts.spans.items }
        requires drawn { IsSome (drawn_parts head.now.kind drawn.now) }
        ensures head { result.head ≡ head.now }
        ensures texts { result.texts ≡ texts_told texts.entry.block.now texts.entry.spans.items }
        ensures spot { result.spot ≡ spot_in head.now.kind drawn.now }
        ensures parts { Some result.parts ≡ drawn_parts head.now.kind drawn.now }
    {
        View { head, texts, drawn }
    }

    /// The head.
    pub fn head(&self) -> &'a Head
        ensures { result.now ≡ self.now.head }
    {
        self.head
    }

    /// The point of a node: its id, and its place. None of a way or a relation, and where the point is not there yet.
    pub fn point(&self) -> Option<(u64, Place)>
        ensures { result ≡ option_map (λ (p : Point). (p.node, p.place)) self.now.spot }
    {
        match self.head.kind {
            EntityKind::Node => PointCursor::new(self.drawn).next(),
            EntityKind::Way | EntityKind::Relation => None,
        }
    }

    /// The parts of a way or a relation, and none of a node.
    pub fn rings(&self) -> RingCursor<'a>
        ensures { result ≡ self.now.parts }
    {
        match self.head.kind {
            EntityKind::Node => RingCursor::none(),
            EntityKind::Way | EntityKind::Relation => RingCursor::new(self.drawn),
        }
    }
    /// The text in a slot, where there is one.
    pub fn text(&self, slot: TextSlot) -> Option<&'a [u8]>
        ensures some { IfSome result (λ text. text_in self.now.texts slot ≡ Some text.now) }
        ensures none { IsNone result → text_in self.now.texts slot ≡ None }
    {
        match span_of(&self.texts.spans, slot) {
            Some(span) => Some(text_at(self.texts.block, span)),
            None => None,
        }
    }
}

// The text that a span names.
fn text_at(block: &[u8], span: TextSpan) -> &[u8]
    requires { LiesIn (length block.now) span }
    ensures { result.now ≡ take span.len (drop span.start block.now) }
{
    let start = span.start as usize;
    &block[start..start + span.len as usize]
}

// The first span of a slot.
pub(crate) fn span_of(spans: &[TextSpan], slot: TextSlot) -> Option<TextSpan>
    ensures { result ≡ find (λ (s : TextSpan). same_slot s.slot slot) spans.now }
{
    let (first, rest) = spans.split_first()?;
    if is_slot(first.slot, slot) {
        Some(*first)
    } else {
        span_of(rest, slot)
    }
}

// Whether two slots are one.
fn is_slot(a: TextSlot, b: TextSlot) -> bool
    ensures { result ≡ same_slot a b }
{
    match (a, b) {
        (TextSlot::Name, TextSlot::Name)
        | (TextSlot::House, TextSlot::House)
        | (TextSlot::Reference, TextSlot::Reference) => true,
        (TextSlot::Tag(i), TextSlot::Tag(j)) => i == j,
        _ => false,
    }
}
