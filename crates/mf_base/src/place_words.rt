//! Places and rectangles as words, in microdegrees.

ghost use Rattle.std.specs.Prelude.{◌≡◌};
ghost use Rattle.mf_base.specs.PlaceWords as spec;

use crate::decimal::read_signed;
use crate::place::{Place, Rect};
use crate::texts::cut_bytes;

/// Reads a place on the earth, `LAT,LON`.
pub fn read_place(text: &[u8]) -> Option<Place>
    ensures { result ≡ spec.read_place text.now }
{
    let (lat, lon) = cut_bytes(text, b',')?;
    place_of(lat, lon)
}

/// Reads a rectangle on the earth, `MINLAT,MINLON,MAXLAT,MAXLON`, whose least sides are at most its greatest.
pub fn read_rect(text: &[u8]) -> Option<Rect>
    ensures { result ≡ spec.read_rect text.now }
{
    let (lat, rest) = cut_bytes(text, b',')?;
    let (lon, high) = cut_bytes(rest, b',')?;
    rect_of(lat, lon, high)
}

// The place of a latitude and a longitude.
fn place_of(lat: &[u8], lon: &[u8]) -> Option<Place>
    ensures { result ≡ spec.place_of lat.now lon.now }
{
    let lat = read_signed(lat, -90000000, 90000000)?;
    let lon = read_signed(lon, -180000000, 180000000)?;
    Some(Place { lat, lon })
}

// The rectangle of the texts of two places.
fn rect_of(lat: &[u8], lon: &[u8], high: &[u8]) -> Option<Rect>
    ensures { result ≡ spec.rect_of lat.now lon.now high.now }
{
    let low = place_of(lat, lon)?;
    let high = read_place(high)?;
    rect_between(low, high)
}

// The rectangle from a place to another, where the first has the least sides.
fn rect_between(low: Place, high: Place) -> Option<Rect>
    ensures { result ≡ spec.rect_between low high }
{
    if low.lat <= high.lat && low.lon <= high.lon {
        Some(Rect {
            min_lat: low.lat,
            min_lon: low.lon,
            max_lat: high.lat,
            max_lon: high.lon,
        })
    } else {
        None
    }
}

#[cfg(test)]
mod tests {
    use super::*;

    // A word, and whether it is a place or a rectangle.
    const WORDS: [(&str, bool, bool); 12] = [
        ("90000000,-180000000", true, false),
        ("90000001,0", false, false),
        ("0,180000001", false, false),
        ("1,2,", false, false),
        ("1", false, false),
        (" 1,2", false, false),
        ("-1,-2,3,4", false, true),
        ("0,0,0,0", false, true),
        ("3,0,2,0", false, false),
        ("0,3,0,2", false, false),
        ("0,0,0", false, false),
        ("0,0,0,0,0", false, false),
    ];

    #[test]
    fn places_and_rectangles(rt: HostRuntime) {
        for (word, place, rect) in WORDS {
            assert_eq!(rt; read_place(word.as_bytes()).is_some(), place, "in {word}");
            assert_eq!(rt; read_rect(word.as_bytes()).is_some(), rect, "in {word}");
        }
    }
}
