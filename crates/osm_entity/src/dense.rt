//! Dense nodes, one after another: the OpenStreetMap wiki, "PBF Format", on DenseNodes.

ghost use Rattle.std.specs.Prelude.{◌≡◌, true, option_map};
ghost use Rattle.osm_entity.specs.TagRun.{are_whole};

use crate::columns::Columns;
use crate::in_block::InBlock;
use crate::node::check_node;
use crate::node_numbers::NodeNumbers;
use crate::node_view::NodeView;
use crate::order::Order;
use crate::tag_run::{read_run, some_list};
use mf_base::packed::first_packed;
use osm_model::faults::EntityFault;

// What is left of DenseNodes: the columns, the numbers of the node before, and the keys and values, where there is a
// list of them. It is plain data.
#[derive(Clone, Copy, Debug, PartialEq, Eq)]
pub(crate) struct Dense<'a> {
    columns: Columns<'a>,
    before: NodeNumbers,
    keys_vals: Option<&'a [u8]>,
    ghost whole: { are_whole (option_map (λ list. list.now) keys_vals) ≡ true },
}

impl<'a> Dense<'a> {
    ghost use Rattle.std.specs.Prelude.{◌≡◌, true, ℕ, List, [], IfOk, IfSome, pos};
    ghost use Rattle.mf_base.specs.Packed.{are_varints, packed_numbers};
    ghost use Rattle.osm_model.specs.Blocks.{PrimitiveBlock};
    ghost use Rattle.osm_model.specs.Entities.{Entity};
    ghost use Rattle.osm_model.specs.Objects.{runs_of, dense_from, dense_node, next_run};
    ghost use Rattle.osm_entity.specs.Answers.{answer_as, placed};
    ghost use Rattle.osm_entity.specs.InBlock.{block_shown};
    ghost use Rattle.osm_entity.specs.Order.{StandsBehind};
    ghost use Rattle.osm_entity.specs.Node.{node_told, node_block};
    ghost use Rattle.osm_entity.specs.DenseColumns.{numbers_shown, sums_of, signed_in};
    ghost use Rattle.osm_entity.specs.Dense.{dense_left, runs_left, IsBehind, GivesNode};

    // All nodes of these columns and these keys and values, of which there is no list where it is empty.
    pub fn new(columns: Columns<'a>, keys_vals: &'a [u8]) -> Dense<'a>
        requires whole { are_varints keys_vals.now ≡ true }
        ensures { (b : PrimitiveBlock) → dense_left b result ≡ dense_from b (pos 0, pos 0, pos 0)
            (signed_in columns.entry.ids.now) (signed_in columns.entry.lats.now) (signed_in columns.entry.lons.now)
            (runs_of (packed_numbers keys_vals.now)) }
    {
        let before = NodeNumbers {
            id: 0,
            lat: 0,
            lon: 0,
        };
        Dense {
            columns,
            before,
            keys_vals: some_list(keys_vals),
        }
    }

    // The next node behind the entities of an order, None behind the last, or the first fault.
    pub fn next(
        &mut self,
        in_block: InBlock<'a>,
        order: &Order,
    ) -> Result<Option<NodeView<'a>>, EntityFault>
        ensures gives { (before : List Entity) → StandsBehind before order.now
            → GivesNode before (dense_left (block_shown in_block.entry) self.old) result
            (dense_left (block_shown in_block.entry) self.new) }
        ensures lent { IfOk result (λ next. IfSome next (λ view. node_block view ≡ in_block.entry.block.now)) }
    {
        match self.columns.first() {
            None => self.end(),
            Some((differences, columns)) => {
                let (view, behind) = self.node(differences, columns, in_block, order)?;
                *self = behind;
                Ok(Some(view))
            }
        }
    }

    // The node of these differences behind the entities of an order, and what is left behind it, or its first fault.
    fn node(
        &self,
        differences: NodeNumbers,
        columns: Columns<'a>,
        in_block: InBlock<'a>,
        order: &Order,
    ) -> Result<(NodeView<'a>, Dense<'a>), EntityFault>
        ensures told { (before : List Entity) → StandsBehind before order.now
            → answer_as (λ found. node_told found.0) result
            ≡ placed before (dense_node (block_shown in_block.entry)
            (sums_of (numbers_shown self.now.before) (numbers_shown differences)) (next_run (runs_left self.now))) }
        ensures behind { IfOk result (λ found. IsBehind self.now differences columns.entry found.1) }
        ensures lent { IfOk result (λ found. node_block found.0 ≡ in_block.entry.block.now) }
    {
        let numbers = self.before.plus(differences)?;
        let (id, place) = check_node(numbers.id, numbers.lat, numbers.lon, in_block.head, order)?;
        let (tags, keys_vals) = read_run(self.keys_vals, in_block)?;
        let view = NodeView::new(id, place, tags);
        let behind = Dense {
            columns,
            before: numbers,
            keys_vals,
        };
        Ok((view, behind))
    }

    // The end of the nodes, or that keys and values are left.
    fn end(&self) -> Result<Option<NodeView<'a>>, EntityFault>
        ensures lent { (block : List ℕ) → IfOk result (λ next. IfSome next (λ view. node_block view ≡ block)) }
        ensures gives { (before : List Entity) (b : PrimitiveBlock)
            → GivesNode before (dense_from b (numbers_shown self.now.before) [] [] [] (runs_left self.now)) result
            (dense_from b (numbers_shown self.now.before) [] [] [] (runs_left self.now)) }
    {
        match self.keys_vals {
            None => Ok(None),
            Some(list) => match first_packed(list) {
                None => Ok(None),
                Some(_) => Err(EntityFault::Columns),
            },
        }
    }
}
