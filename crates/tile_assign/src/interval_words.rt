//! Zoom intervals as words.

ghost use Rattle.std.specs.Prelude.{◌≡◌, ◌⊎◌, ◌≤◌, ◌++◌, ◌∷◌, ◌==◌, ◌&&◌, [], suc, nat_le, true, false, Some, None};
ghost use Rattle.std.specs.Prelude.{option_map, zip, drop, length};
ghost use Rattle.std.specs.List.{list_all};
ghost use Rattle.map_model.specs.Intervals as spec;
ghost use Rattle.map_model.specs.Intervals.{is_zoom_range};
ghost use Rattle.mf_base.specs.declared.tile.Interval.{Interval};
ghost use Rattle.mf_base.specs.Numbers.{zoom_number};
ghost use Rattle.map_model.specs.IntervalWords as words;
ghost use Rattle.tile_assign.specs.ListedIntervals.{IsListed};

use arrayvec::ArrayVec;
use mf_base::decimal::read_number;
use mf_base::texts::cut_bytes;
use mf_base::tile::Interval;

/// Reads 1 to 8 intervals, each `BASE:MIN:MAX` and joined by commas, where each next one goes on from the one before.
pub fn read_intervals(word: &str) -> Option<ArrayVec<Interval, 8>>
    ensures { option_map (λ all. all.items) result ≡ words.read_intervals word.now }
{
    let all = listed(word.as_bytes())?;
    if are_intervals(&all) { Some(all) } else { None }
}

// The intervals of the texts between commas, where they are at most eight.
fn listed(text: &[u8]) -> Option<ArrayVec<Interval, 8>>
    ensures { IsListed (option_map (λ all. all.items) result) text.now }
{
    let mut all = ArrayVec::new();
    let mut rest = text;
    while let Some((first, more)) = cut_bytes(rest, b',') {
        if !push_interval(&mut all, first) {
            return None;
        }
        rest = more;
    }
    if push_interval(&mut all, rest) {
        Some(all)
    } else {
        None
    }
}

// Puts the interval of a text behind the others, where it is one and there is room.
fn push_interval(all: &mut ArrayVec<Interval, 8>, text: &[u8]) -> bool
    ensures pushed { result ≡ true
        → (i : Interval) × (words.read_interval text.now ≡ Some i) × (all.new.items ≡ all.old.items ++ i ∷ [])
        × (length (all.old.items ++ i ∷ []) ≤ 8) }
    ensures refused { result ≡ false → (words.read_interval text.now ≡ None) ⊎ (length all.old.items ≡ 8) }
{
    match read_interval(text) {
        Some(interval) if !all.is_full() => {
            all.push(interval);
            true
        }
        _ => false,
    }
}

// The interval of `BASE:MIN:MAX`.
fn read_interval(text: &[u8]) -> Option<Interval>
    ensures { result ≡ words.read_interval text.now }
{
    let (base, rest) = cut_bytes(text, b':')?;
    let (min, max) = cut_bytes(rest, b':')?;
    interval_of(base, min, max)
}

// The interval of the texts of three zoom levels.
fn interval_of(base: &[u8], min: &[u8], max: &[u8]) -> Option<Interval>
    ensures { result ≡ words.interval_of base.now min.now max.now }
{
    let base = zoom_level(base)?;
    let min = zoom_level(min)?;
    let max = zoom_level(max)?;
    Some(Interval { base, min, max })
}

// A zoom level.
fn zoom_level(text: &[u8]) -> Option<u8>
    ensures { result ≡ zoom_number text.now }
{
    let level = read_number(text, 0, 21)?;
    Some(level as u8)
}

// Whether intervals are those of a map.
fn are_intervals(all: &[Interval]) -> bool
    ensures { result ≡ spec.are_intervals all.now }
{
    are_some_of_eight(all) && are_ranges(all) && follow(all)
}

// Whether there are 1 to 8 intervals.
fn are_some_of_eight(all: &[Interval]) -> bool
    ensures { result ≡ (nat_le 1 (length all.now) && nat_le (length all.now) 8) }
{
    !all.is_empty() && all.len() <= 8
}

// Whether each interval is a range of zoom levels.
fn are_ranges(all: &[Interval]) -> bool
    ensures { result ≡ list_all is_zoom_range all.now }
{
    all.iter().all(is_interval)
}

// Whether the minimum is at most the base, the base at most the maximum and 16, and the maximum at most 21.
fn is_interval(interval: &Interval) -> bool
    ensures { result ≡ is_zoom_range interval.now }
{
    interval.min <= interval.base
        && interval.base <= interval.max
        && interval.base <= 16
        && interval.max <= 21
}

// Whether each minimum but the first is the maximum before plus 1.
fn follow(all: &[Interval]) -> bool
    ensures { result ≡ list_all (λ at. at.1.min == suc at.0.max) (zip all.now (drop 1 all.now)) }
{
    if all.len() < 2 {
        return true;
    }
    goes_on(all[0].max, all[1].min) && follow(&all[1..])
}

// Whether a minimum is the maximum before plus 1.
fn goes_on(max: u8, min: u8) -> bool
    ensures { result ≡ (min == suc max) }
{
    u16::from(min) == u16::from(max) + 1
}

#[cfg(test)]
mod tests {
    use super::*;

    // A word, and how many intervals it tells.
    const WORDS: [(&str, Option<usize>); 14] = [
        ("5:0:7,10:8:11,14:12:21", Some(3)),
        ("0:0:0,1:1:1,2:2:2,3:3:3,4:4:4,5:5:5,6:6:6,7:7:7", Some(8)),
        (
            "0:0:0,1:1:1,2:2:2,3:3:3,4:4:4,5:5:5,6:6:6,7:7:7,8:8:8",
            None,
        ),
        ("016:3:21", Some(1)),
        ("0:1:7", None),
        ("8:0:7", None),
        ("17:0:21", None),
        ("5:0:22", None),
        ("5:0:7,10:9:11", None),
        ("5:0:7,", None),
        ("", None),
        ("5:0", None),
        ("5:0:7:8", None),
        ("5:-0:7", None),
    ];

    #[test]
    fn intervals_of_words(rt: HostRuntime) {
        for (word, count) in WORDS {
            let all = read_intervals(word);
            assert_eq!(rt; all.map(|all| all.len()), count, "in {word}");
        }
    }
}
