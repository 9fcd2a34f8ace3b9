//! The zoom level at which a feature is shown in an interval.

ghost use Rattle.std.specs.Prelude.{◌≡◌};
ghost use Rattle.map_model.specs.Intervals.{effective_zoom};

use mf_base::tile::Interval;

/// The effective zoom of a feature's zoom: that of the interval's zooms at which the feature comes first. None comes
/// exactly where the zoom is above the interval's maximum.
pub fn effective_zoom(zoom: u8, interval: &Interval) -> Option<u8>
    ensures { result ≡ effective_zoom zoom interval.now }
{
    if zoom <= interval.max {
        Some(zoom.max(interval.min))
    } else {
        None
    }
}

#[cfg(test)]
mod tests {
    use super::*;

    #[test]
    fn zooms_shown(rt: HostRuntime) {
        let interval = Interval {
            base: 10,
            min: 8,
            max: 11,
        };
        for (zoom, shown) in [
            (0, Some(8)),
            (8, Some(8)),
            (9, Some(9)),
            (11, Some(11)),
            (12, None),
        ] {
            assert_eq!(rt; effective_zoom(zoom, &interval), shown, "{zoom}");
        }
    }
}
