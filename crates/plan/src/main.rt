// Reads a flowsheet image on standard input and lists its plan: the counts, then a line for each block with its place, its
// units in order, a bar, and its torn streams or a hyphen for none. A refused image prints `refused` and the number.
#![tactic(auto)]

ghost use Rattle.std.specs.Prelude.{◌≤◌, IfOk, length};

use planner::{Asked, Plan};
use std::io::Read;
use std::{fmt, io};

// Reads until the row is full or the input ends: how many bytes at its front were read. A `while`, since how often the
// input has to be asked isn't known before.
fn read_full(input: &mut impl Read, row: &mut [u8]) -> io::Result<usize>
    ensures { IfOk result (λ n. n ≤ length row.new) }
{
    let mut done: usize = 0;
    while done < row.len() {
        let count = input.read(&mut row[done..])?;
        if count == 0 {
            break;
        }
        done += count;
    }
    Ok(done)
}

// The numbers of a row with a space before each.
#[derive(Clone, Copy)]
struct Spaced<'a>(&'a [u16]);

impl fmt::Display for Spaced<'_> {
    fn fmt<W: fmt::Write>(&self, f: &mut fmt::Formatter<W>) -> fmt::Result {
        for number in self.0 {
            write!(f, " {number}")?;
        }
        Ok(())
    }
}

// The line of the block in that place.
fn write_block(rt: &impl Print, plan: &Plan, place: u16) -> io::Result<()> {
    let blocks = plan.blocks.items();
    let order = plan.order.items();
    let torn = plan.torn.items();
    let number = u32::from(place) + 1;
    let units = Spaced(planner::part(blocks, order, torn, place, Asked::Units));
    let tears = Spaced(planner::part(blocks, order, torn, place, Asked::Tears));
    if tears.0.is_empty() {
        println!(rt; "{number}:{units} | -")
    } else {
        println!(rt; "{number}:{units} |{tears}")
    }
}

// How many units, blocks and torn streams there are, then the lines of the blocks. Four numbers of the block table are one block.
fn write_plan(rt: &impl Print, plan: &Plan) -> io::Result<()> {
    let units = plan.order.items().len();
    let blocks = plan.blocks.items().len() / 4;
    let torn = plan.torn.items().len();
    println!(rt; "units {units} blocks {blocks} torn {torn}")?;
    for place in 0..blocks as u16 {
        write_block(rt, plan, place)?;
    }
    Ok(())
}

// An image has at most 2,192 bytes, and whatever is longer is refused by its first 16 bytes or under 5: so one byte more is
// read, and no more.
fn main(rt: HostRuntime) -> io::Result<()> {
    let mut image = [0u8; 2193];
    let count = read_full(&mut rt.reader(), &mut image)?;
    let mut work = [0u8; 65536];
    match planner::plan_read(&image[..count], &mut work) {
        Ok(plan) => write_plan(&rt, &plan),
        Err(refusal) => println!(rt; "refused {}", u32::from(refusal)),
    }
}
