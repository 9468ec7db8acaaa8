// The part of the order row or of the torn row that a screen asks for. The rows are lent as they came, of any length and content: a
// block's record is read only where it lies wholly in its row, and spans are added up as `usize`, where two numbers of 16 bits never wrap.
ghost use Rattle.std.specs.Prelude.{◌≡◌, ◌<◌};
ghost use Rattle.planner.specs.Part.{Spanned, Handed};

use crate::Asked;

// The part of a row that starts at `first` and has `count` numbers, or the empty front of the order row where it runs beyond the row.
fn span<'a>(order: &'a [u16], row: &'a [u16], first: u16, count: u16) -> &'a [u16]
    ensures { Spanned order.entry row.entry first count result }
{
    let start = usize::from(first);
    let end = start + usize::from(count);
    if end <= row.len() {
        &row[start..end]
    } else {
        &order[..0]
    }
}

// One block's units, or its torn streams, by the block's place (from 0): that part of the order row or of the torn row. The empty front
// of the order row where the block's record doesn't lie wholly in the block row, or where its span runs beyond its row.
pub fn part<'a>(
    blocks: &[u16],
    order: &'a [u16],
    torn: &'a [u16],
    place: u16,
    asked: Asked,
) -> &'a [u16]
    ensures { Handed asked blocks.entry order.entry torn.entry place result }
{
    let at = 4 * usize::from(place);
    if blocks.len() < at + 4 {
        return &order[..0];
    }
    // A `match`, since what is asked for is data that a screen hands in: a closure in its place would have to be made from it.
    match asked {
        Asked::Units => span(order, order, blocks[at], blocks[at + 1]),
        Asked::Tears => span(order, torn, blocks[at + 2], blocks[at + 3]),
    }
}
