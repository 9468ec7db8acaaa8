// The plan of a flowsheet: who reaches whom, the blocks in their order, and each block's own order and torn streams.
ghost use Rattle.std.specs.Prelude.{◌≡◌, [], map, ◌+◌, ◌*◌, ◌^◌, ◌≤◌, ◌<◌, length};
ghost use Rattle.blocks.specs.Blocks.{members_of};
ghost use Rattle.blocks.specs.Order.{order_of};
ghost use Rattle.flowsheet.specs.Good.{GoodSheet};
ghost use Rattle.words.specs.Words.{cleared};
ghost use Rattle.planner.specs.Plan.{units_in, ordered_of, torn_of, any_over, plan_of};
ghost use Rattle.planner.specs.Tables.{with_block, plan_value};
ghost use Rattle.planner.specs.Answer.{planned, planned_of, work_after, Spent, Sorted};

use crate::block::Block;
use crate::{Numbers, Plan, Refusal, block, links};
use blocks::Reach;
use flowsheet::{Flowsheet, Stream};

// A plan of no blocks.
#[tactic(auto, unfolding(crate::specs::Tables::plan_value, crate::specs::Tables::block_table))]
pub fn no_plan() -> Plan
    ensures { result ≡ plan_value [] }
{
    Plan {
        blocks: Numbers::new(),
        order: Numbers::new(),
        torn: Numbers::new(),
    }
}

// Adds a block to the plan, whose units stand in this order.
#[tactic(auto, unfolding(crate::specs::Tables::with_block))]
fn add_block(plan: &mut Plan, block: &Block, streams: &[Stream])
    requires units { length plan.old.order + length block.now ≤ 256 }
    requires blocks { length plan.old.blocks + 4 ≤ 256 }
    requires torn { length plan.old.torn + length (torn_of block.now streams.now) ≤ 256 }
    ensures { plan.new ≡ with_block plan.old (record { units = block.now; torn = torn_of block.now streams.now }) }
{
    let order = block.items();
    let first = plan.order.items().len() as u16;
    let earlier = plan.torn.items().len() as u16;
    let units = order.len() as u16;
    block::add_torn(&mut plan.torn, order, streams);
    plan.order.extend(order);
    let torn = plan.torn.items().len() as u16 - earlier;
    plan.blocks.extend(&[first, units, earlier, torn]);
}

// The units of a place's block, in the block's order. Of the memory it leaves zero four bytes for each set of them; the rest stay.
#[tactic(auto, using(crate::proofs::Orders::ordered_length))]
fn block_order(sheet: &Flowsheet, reach: &Reach, place: usize, memory: &mut [u8; 65536]) -> Block
    requires places { (reach.now.places ≡ length sheet.now.units) × (place < reach.now.places) }
    requires small { length (members_of reach.now.rows reach.now.places place) ≤ 12 }
    ensures units { result ≡ ordered_of (units_in sheet.now.units (members_of reach.now.rows reach.now.places place)) sheet.now.streams }
    ensures work { memory.new ≡ cleared memory.old (4 * 2 ^ length result) }
{
    let members = reach.members(place);
    let block = block::units_in(sheet.units.items(), members.items());
    block::ordered(&block, &sheet.streams, memory)
}

// Whether some block has more than 12 units.
#[tactic(auto, using(crate::proofs::Sorting::place_in, crate::proofs::Sorting::over_here, crate::proofs::Sorting::over_next, crate::proofs::Sorting::over_none))]
fn any_large(reach: &Reach, order: &[u8]) -> bool
    requires { order.now ≡ order_of reach.now.rows reach.now.places }
    ensures { result ≡ any_over (map (members_of reach.now.rows reach.now.places) order.now) }
{
    // Not `any`: the proof did not close that its closure may ask for each place of the order.
    for place in order {
        if 12 < reach.members(usize::from(*place)).items().len() {
            return true;
        }
    }
    false
}

// The plan of a flowsheet whose blocks stand in this order.
#[tactic(auto, using(crate::proofs::Sorting::block_small, crate::proofs::Sorting::units_fit, crate::proofs::Sorting::torn_fits, crate::proofs::Sorting::plan_next))]
fn plan_blocks(sheet: &Flowsheet, reach: &Reach, order: &[u8], memory: &mut [u8; 65536]) -> Plan
    requires { Sorted sheet.now reach.now order.now }
    ensures { result ≡ plan_value (plan_of sheet.now.units sheet.now.streams) }
{
    let mut plan = no_plan();
    for place in order {
        let block = block_order(sheet, reach, usize::from(*place), memory);
        add_block(&mut plan, &block, sheet.streams.items());
    }
    plan
}

// The plan of a flowsheet, or 11, or 12 where the working memory is short. It leaves the memory uncleared.
#[tactic(auto, using(crate::proofs::Answers::planned_large, crate::proofs::Answers::planned_short))]
pub(crate) fn planned(sheet: &Flowsheet, work: &mut [u8]) -> Result<Plan, Refusal>
    requires { GoodSheet sheet.now }
    ensures answer { planned result ≡ planned_of sheet.now.units sheet.now.streams (length work.old) }
    ensures work { Spent work.old work.new }
{
    let reach = Reach::of(links::links_of(sheet), sheet.units.items().len());
    let order = reach.order();
    if any_large(&reach, order.items()) {
        return Err(Refusal::LargeBlock);
    }
    if work.len() < 65536 {
        return Err(Refusal::NoRoom);
    }
    // The blocks are ordered in these bytes alone; what is left in them is for `clear_work`.
    let memory = <&mut [u8; 65536]>::try_from(&mut work[..65536]).unwrap();
    Ok(plan_blocks(sheet, &reach, order.items(), memory))
}

// Clears the first 65,536 bytes of a working memory that has as many; a shorter one stays as it was.
#[tactic(auto, using(crate::proofs::Memory::work_long, crate::proofs::Memory::work_short))]
pub fn clear_work(work: &mut [u8])
    ensures { work.new ≡ work_after work.old }
{
    if 65536 <= work.len() {
        words::clear_front(work, 65536);
    }
}

// Plans a flowsheet that could have been read: the plan, or 11, or 12 where the working memory is under 65,536 bytes. The
// memory is left as rule 5 says.
pub fn plan_of(sheet: &Flowsheet, work: &mut [u8]) -> Result<Plan, Refusal>
    requires { GoodSheet sheet.now }
    ensures answer { planned result ≡ planned_of sheet.now.units sheet.now.streams (length work.old) }
    ensures work { work.new ≡ work_after work.old }
{
    let answer = planned(sheet, work);
    clear_work(work);
    answer
}
