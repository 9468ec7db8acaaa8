// One block: its units, the weights between them, the order that tears least, and its torn streams.
ghost use Rattle.std.specs.Prelude.{◌≡◌, ℕ, ◌+◌, ◌*◌, ◌^◌, ◌≤◌, ◌<◌, length, get_or, set, ◌++◌};
ghost use Rattle.tearing.specs.Row.{total};
ghost use Rattle.words.specs.Words.{cleared};
ghost use Rattle.planner.specs.Plan.{units_in, charged, row_of, ordered_of, is_torn, torn_of};

use crate::Numbers;
use flowsheet::{Stream, Streams};
use rows::Row;
use tearing::Weights;

// The units of a block, of which there are at most 12.
pub(crate) type Block = Row<u16, 12>;

// The units in these places, in the places' order.
#[tactic(auto, using(crate::proofs::Turns::map_more), unfolding(crate::specs::Plan::units_in))]
pub(crate) fn units_in(units: &[u16], places: &[u8]) -> Block
    requires { (length places.now ≤ 12) × ((k : ℕ) → k < length places.now → get_or places.now k 0 < length units.now) }
    ensures { result ≡ units_in units.now places.now }
{
    let mut chosen = Block::new();
    for place in places {
        chosen.push(units[usize::from(*place)]);
    }
    chosen
}

// Adds a weight to one number of a row. It takes the weight by value: of a number behind a reference no bound is known.
#[tactic(auto, using(crate::proofs::Turns::element_most, tearing::proofs::Total::total_add))]
fn add_weight(row: &mut [u32; 144], at: usize, weight: u16)
    requires { (at < 144) × (total row.old + 65536 ≤ 2 ^ 32) }
    ensures row { row.new ≡ set row.old at (get_or row.old at 0 + weight) }
    ensures total { total row.new ≤ total row.old + 65535 }
{
    row[at] += u32::from(weight);
}

// Adds a stream's weight between its two ends, where both are in the block.
#[tactic(auto, using(crate::proofs::Ends::ends_held, crate::proofs::Ends::charge_both, crate::proofs::Ends::charge_apart))]
fn charge(row: &mut [u32; 144], block: &Block, stream: &Stream)
    requires { total row.old + 65536 ≤ 2 ^ 32 }
    ensures row { row.new ≡ charged block.now row.old stream.now }
    ensures total { total row.new ≤ total row.old + 65535 }
{
    if let Some((from, to)) = flowsheet::ends(block.items(), stream) {
        add_weight(row, from * 12 + to, stream.weight);
    }
}

// The weights between the units of a block, twelve by twelve.
fn weights_of(block: &Block, streams: &Streams) -> Weights
    ensures { result.row ≡ row_of block.now streams.now }
{
    let mut row = [0; 144];
    for stream in streams.items() {
        charge(&mut row, block, stream);
    }
    Weights { row }
}

// The block's units in the order that tears least and, of those, comes first. Of the memory it leaves zero what tearing used, four bytes
// for each set of the units; the rest stay.
pub(crate) fn ordered(block: &Block, streams: &Streams, memory: &mut [u8; 65536]) -> Block
    ensures units { result ≡ ordered_of block.now streams.now }
    ensures work { memory.new ≡ cleared memory.old (4 * 2 ^ length block.now) }
{
    let weights = weights_of(block, streams);
    let units = block.items();
    let order = tearing::order(&weights, units.len(), memory);
    units_in(units, order.items())
}

// Whether a stream is torn in this order of a block's units: both its ends are in the block, and its source doesn't stand
// before its receiver.
#[tactic(auto, using(crate::proofs::Ends::torn_both, crate::proofs::Ends::torn_apart))]
fn is_torn(order: &[u16], stream: &Stream) -> bool
    ensures { result ≡ is_torn order.now stream.now }
{
    match flowsheet::ends(order, stream) {
        Some((from, to)) => to <= from,
        None => false,
    }
}

// Adds the block's torn streams to the table.
#[tactic(auto, using(crate::proofs::Append::torn_next, crate::proofs::Append::torn_same, crate::proofs::Append::torn_room), unfolding(crate::specs::Plan::torn_of))]
pub(crate) fn add_torn(table: &mut Numbers, order: &[u16], streams: &[Stream])
    requires { length table.old + length (torn_of order.now streams.now) ≤ 256 }
    ensures { table.new ≡ table.old ++ torn_of order.now streams.now }
{
    for stream in streams {
        if is_torn(order, stream) {
            table.push(stream.number);
        }
    }
}
