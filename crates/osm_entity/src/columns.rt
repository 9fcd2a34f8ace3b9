//! The columns of dense nodes: the OpenStreetMap wiki, "PBF Format", on DenseNodes.

ghost use Rattle.std.specs.Prelude.{◌≡◌, true, length};
ghost use Rattle.mf_base.specs.Packed.{are_varints, packed_numbers};

use crate::node_numbers::NodeNumbers;
use mf_base::packed::first_packed;
use mf_base::zigzag::unzigzag;

// The differences of ids, latitudes and longitudes that are left: as many of each.
#[derive(Clone, Copy, Debug, PartialEq, Eq)]
pub(crate) struct Columns<'a> {
    pub ids: &'a [u8],
    pub lats: &'a [u8],
    pub lons: &'a [u8],
    pub ghost whole_ids: { are_varints ids.now ≡ true },
    pub ghost whole_lats: { are_varints lats.now ≡ true },
    pub ghost whole_lons: { are_varints lons.now ≡ true },
    pub ghost as_many_lats: { length (packed_numbers ids.now) ≡ length (packed_numbers lats.now) },
    pub ghost as_many_lons: { length (packed_numbers ids.now) ≡ length (packed_numbers lons.now) },
}

impl<'a> Columns<'a> {
    ghost use Rattle.std.specs.Prelude.{MatchOption};
    ghost use Rattle.osm_entity.specs.DenseColumns.{AreUsedUp, BeginWith};

    // The differences of the next node, and the columns behind it.
    pub fn first(self) -> Option<(NodeNumbers, Columns<'a>)>
        ensures { MatchOption result (AreUsedUp self.entry) (λ first. BeginWith self.entry first.0 first.1) }
    {
        let (id, ids) = first_packed(self.ids)?;
        let (lat, lats) = first_packed(self.lats)?;
        let (lon, lons) = first_packed(self.lons)?;
        let differences = NodeNumbers {
            id: unzigzag(id),
            lat: unzigzag(lat),
            lon: unzigzag(lon),
        };
        Some((differences, Columns { ids, lats, lons }))
    }
}
