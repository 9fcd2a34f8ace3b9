//! What is looked up in tags.

ghost use Rattle.std.specs.Prelude.{◌≡◌, option_map, unwrap_or, pos, negsuc};
ghost use Rattle.std.specs.Int.{int_min, int_max};
ghost use Rattle.mf_base.specs.Tags.{value_of as value_in};
ghost use Rattle.mf_base.specs.TagCursor.{tags_left};
ghost use Rattle.feature_model.specs.Choice.{layer_of as layer_in};

use mf_base::decimal::read_whole;
use mf_base::tag_cursor::TagCursor;

/// The value of the first tag with this key among those that a cursor has left.
pub(crate) fn value_of<'a>(tags: TagCursor<'a>, key: &[u8]) -> Option<&'a [u8]>
    ensures { option_map (λ found. found.now) result ≡ value_in key.now (tags_left tags.entry) }
{
    let mut left = tags;
    while let Some((at, value)) = left.next() {
        if at == key {
            return Some(value);
        }
    }
    None
}

/// The layer that tags tell, -5 to 5.
#[tactic(auto, unfolding(feature_model::specs::Choice::layer_of))]
pub(crate) fn layer_of(tags: TagCursor) -> i8
    ensures { result ≡ layer_in (tags_left tags.entry) }
{
    match value_of(tags, b"layer") {
        Some(value) => clamped_layer(read_whole(value)),
        None => 0,
    }
}

// The layer of a number, where there is one.
fn clamped_layer(number: Option<i64>) -> i8
    ensures { result ≡ int_max (negsuc 4) (int_min (pos 5) (unwrap_or number (pos 0))) }
{
    number.unwrap_or(0).clamp(-5, 5) as i8
}
