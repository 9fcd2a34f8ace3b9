//! The reader of a DenseNodes message: the OpenStreetMap wiki, "PBF Format", on DenseNodes.

ghost use Rattle.std.specs.Prelude.{◌≡◌, true};
ghost use Rattle.mf_base.specs.Packed.{are_varints, packed_numbers};
ghost use Rattle.osm_model.specs.Blocks.{PrimitiveBlock};
ghost use Rattle.osm_model.specs.Objects.{dense_objects, dense_columns};
ghost use Rattle.osm_entity.specs.DenseColumns.{signed_in};
ghost use Rattle.osm_entity.specs.Dense.{GivesDense};

use crate::columns::Columns;
use crate::dense::Dense;
use crate::parts::packed_at;
use osm_model::faults::EntityFault;
use osm_model::tables::DENSE_NODES;
use pbf_wire::message::read_message;
use pbf_wire::packed::Packed;

// The nodes of a DenseNodes message, or the fault of the message or that its columns differ in length.
pub(crate) fn read_dense(bytes: &[u8]) -> Result<Dense<'_>, EntityFault>
    ensures { (b : PrimitiveBlock) → GivesDense b (dense_objects b bytes.now) result }
{
    match read_message(bytes, &DENSE_NODES) {
        Err(fault) => Err(EntityFault::Wire(fault)),
        Ok(all) => {
            let ids = packed_at(all[0], bytes);
            let lats = packed_at(all[1], bytes);
            let lons = packed_at(all[2], bytes);
            dense_of(ids, lats, lons, packed_at(all[3], bytes))
        }
    }
}

// The nodes of three columns and of keys and values, or that the columns differ in length.
fn dense_of<'a>(
    ids: &'a [u8],
    lats: &'a [u8],
    lons: &'a [u8],
    keys_vals: &'a [u8],
) -> Result<Dense<'a>, EntityFault>
    requires ids { are_varints ids.now ≡ true }
    requires lats { are_varints lats.now ≡ true }
    requires lons { are_varints lons.now ≡ true }
    requires keys_vals { are_varints keys_vals.now ≡ true }
    ensures { (b : PrimitiveBlock) → GivesDense b (dense_columns b (signed_in ids.now) (signed_in lats.now)
        (signed_in lons.now) (packed_numbers keys_vals.now)) result }
{
    let count = Packed::new(ids).count();
    if Packed::new(lats).count() != count {
        return Err(EntityFault::Columns);
    }
    if Packed::new(lons).count() != count {
        return Err(EntityFault::Columns);
    }
    Ok(Dense::new(Columns { ids, lats, lons }, keys_vals))
}
