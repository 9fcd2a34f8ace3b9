//! Places and rectangles on the earth.

/// A place, in microdegrees.
#[derive(Clone, Copy, Debug, PartialEq, Eq)]
pub struct Place {
    pub lat: i32,
    pub lon: i32,
}

/// A rectangle, in microdegrees: its least and its greatest sides.
#[derive(Clone, Copy, Debug, PartialEq, Eq)]
pub struct Rect {
    pub min_lat: i32,
    pub min_lon: i32,
    pub max_lat: i32,
    pub max_lon: i32,
}
