//! The numbers of dense nodes and their differences.

ghost use Rattle.std.specs.Prelude.{◌≡◌};
ghost use Rattle.osm_entity.specs.Answers.{answer_as};
ghost use Rattle.osm_entity.specs.DenseColumns.{numbers_shown, checked_sums};

use crate::sums::checked_sum;
use osm_model::faults::EntityFault;

// An id, a latitude and a longitude, as they are stored, or their differences to those of the node before.
#[derive(Clone, Copy, Debug, PartialEq, Eq)]
pub(crate) struct NodeNumbers {
    pub id: i64,
    pub lat: i64,
    pub lon: i64,
}

impl NodeNumbers {
    // The sums with these differences, where each is one of signed 64 bits.
    pub fn plus(self, differences: NodeNumbers) -> Result<NodeNumbers, EntityFault>
        ensures { answer_as numbers_shown result
            ≡ checked_sums (numbers_shown self) (numbers_shown differences) }
    {
        let id = checked_sum(self.id, differences.id);
        let lat = checked_sum(self.lat, differences.lat);
        let lon = checked_sum(self.lon, differences.lon);
        match (id, lat, lon) {
            (Some(id), Some(lat), Some(lon)) => Ok(NodeNumbers { id, lat, lon }),
            _ => Err(EntityFault::Range),
        }
    }
}
