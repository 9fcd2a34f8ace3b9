//! The reader of nodes: the OpenStreetMap wiki, "PBF Format", on Node.

ghost use Rattle.std.specs.Prelude.{◌≡◌, true, List, IfOk};
ghost use Rattle.mf_base.specs.Packed.{are_varints, packed_numbers};
ghost use Rattle.osm_model.specs.Entities.{Entity};
ghost use Rattle.osm_model.specs.Objects.{node_object, indexed_tags};
ghost use Rattle.osm_model.specs.Order.{entity_behind};
ghost use Rattle.pbf_block.specs.Head.{head_told};
ghost use Rattle.osm_entity.specs.Answers.{answer_as, placed};
ghost use Rattle.osm_entity.specs.InBlock.{block_shown};
ghost use Rattle.osm_entity.specs.Order.{StandsBehind};
ghost use Rattle.osm_entity.specs.Node.{node_told, node_block, node_front, node_at, stored_object};

use crate::in_block::InBlock;
use crate::node_view::NodeView;
use crate::order::Order;
use crate::parts::packed_at;
use crate::place::place_at;
use crate::tags::read_tags;
use mf_base::kind::EntityKind;
use mf_base::place::Place;
use mf_base::zigzag::unzigzag;
use osm_model::faults::EntityFault;
use osm_model::tables::NODE;
use pbf_block::head::BlockHead;
use pbf_wire::message::read_message;

// The node of a Node message behind the entities of an order, or its first fault.
pub(crate) fn read_node<'a>(
    bytes: &'a [u8],
    in_block: InBlock<'a>,
    order: &Order,
) -> Result<NodeView<'a>, EntityFault>
    ensures told { (before : List Entity) → StandsBehind before order.now
        → answer_as node_told result ≡ placed before (node_object (block_shown in_block.entry) bytes.now) }
    ensures lent { IfOk result (λ view. node_block view ≡ in_block.entry.block.now) }
{
    match read_message(bytes, &NODE) {
        Err(fault) => Err(EntityFault::Wire(fault)),
        Ok(all) => {
            let keys = packed_at(all[1], bytes);
            let vals = packed_at(all[2], bytes);
            stored_node(
                all[0].number,
                all[3].number,
                all[4].number,
                keys,
                vals,
                in_block,
                order,
            )
        }
    }
}

// The node of numbers as they are stored, where they are there, and of these indices of keys and values.
fn stored_node<'a>(
    id: Option<u64>,
    lat: Option<u64>,
    lon: Option<u64>,
    keys: &'a [u8],
    vals: &'a [u8],
    in_block: InBlock<'a>,
    order: &Order,
) -> Result<NodeView<'a>, EntityFault>
    requires keys { are_varints keys.now ≡ true }
    requires vals { are_varints vals.now ≡ true }
    ensures told { (before : List Entity) → StandsBehind before order.now
        → answer_as node_told result ≡ placed before (stored_object (block_shown in_block.entry) id lat lon
        (packed_numbers keys.now) (packed_numbers vals.now)) }
    ensures lent { IfOk result (λ view. node_block view ≡ in_block.entry.block.now) }
{
    let (Some(id), Some(lat), Some(lon)) = (id, lat, lon) else {
        return Err(EntityFault::Missing);
    };
    tagged_node(
        unzigzag(id),
        unzigzag(lat),
        unzigzag(lon),
        keys,
        vals,
        in_block,
        order,
    )
}

// The node of this id, of these stored numbers and of these indices of keys and values.
fn tagged_node<'a>(
    id: i64,
    lat: i64,
    lon: i64,
    keys: &'a [u8],
    vals: &'a [u8],
    in_block: InBlock<'a>,
    order: &Order,
) -> Result<NodeView<'a>, EntityFault>
    requires keys { are_varints keys.now ≡ true }
    requires vals { are_varints vals.now ≡ true }
    ensures told { (before : List Entity) → StandsBehind before order.now
        → answer_as node_told result ≡ entity_behind before (node_at (block_shown in_block.entry) id lat lon
        (indexed_tags (block_shown in_block.entry).strings (packed_numbers keys.now) (packed_numbers vals.now))) }
    ensures lent { IfOk result (λ view. node_block view ≡ in_block.entry.block.now) }
{
    let (id, place) = check_node(id, lat, lon, in_block.head, order)?;
    let tags = read_tags(keys, vals, in_block)?;
    Ok(NodeView::new(id, place, tags))
}

// The id and the place of a node of this id and these stored numbers behind the entities of an order, or its first
// fault.
pub(crate) fn check_node(
    id: i64,
    lat: i64,
    lon: i64,
    head: BlockHead,
    order: &Order,
) -> Result<(u64, Place), EntityFault>
    ensures { (before : List Entity) → StandsBehind before order.now
        → result ≡ node_front before (head_told head) id lat lon }
{
    let id = order.check(EntityKind::Node, id)?;
    let place = place_at(lat, lon, head)?;
    Ok((id, place))
}
