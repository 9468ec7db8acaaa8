// Who reaches whom among at most 64 places, which of them share a block, and the order of the blocks. A table has a row of 64 bits
// for each place: bit j of row i says that a link, or a path, leads from place i to place j. A set of places is such a row too. A place is a
// plain `usize` below 64, since it also counts loops and indexes rows: a type of its own would be opened and made again at each.

#![tactic(auto)]

ghost use Rattle.std.specs.Prelude.{◌≡◌, ℕ, ◌<◌, ◌≤◌, get_or};
ghost use Rattle.blocks.specs.Links.{linked};
ghost use Rattle.blocks.specs.Reach.{round_of, reach_of};
ghost use Rattle.blocks.specs.Blocks.{column_of, block_in, members_of};
ghost use Rattle.blocks.specs.Order.{free_in, free_at, First, order_of};

use rows::Row;
use sets::{has, one};

// Adds the link from one place to another to a table of links.
pub fn link(table: &mut [u64; 64], from: usize, to: usize)
    requires { (from < 64) × (to < 64) }
    ensures { table.new ≡ linked table.old from to }
{
    table[from] |= one(to);
}

// Who reaches whom among so many places: bit j of row i says that a path leads from place i to place j. All 64 rows are here and none is blank,
// since `reach_of` speaks of all of them; the number says how many places there are.
#[derive(Clone, Copy)]
pub struct Reach {
    pub rows: [u64; 64],
    pub places: usize,
    ghost within: { places ≤ 64 },
}

impl Reach {
    // From the direct links, who reaches whom among so many places: by a path of one or more links.
    pub fn of(links: [u64; 64], places: usize) -> Reach
        requires { places ≤ 64 }
        ensures rows { result.rows ≡ reach_of links }
        ensures places { result.places ≡ places }
    {
        let mut rows = links;
        for k in 0..64 {
            round(&mut rows, k);
        }
        Reach { rows, places }
    }

    // The places that share the block of a place, rising.
    pub fn members(&self, place: usize) -> Row<u8, 64>
        requires { place < self.now.places }
        ensures { result ≡ members_of self.now.rows self.now.places place }
    {
        let set = block_set(self.rows[place], self.column(place), place);
        let mut members = Row::new();
        for j in 0..self.places {
            if has(set, j) {
                members.push(j as u8);
            }
        }
        members
    }

    // The blocks in their order, each by its lowest place: among blocks not yet placed whose incoming links from other blocks all
    // come from placed blocks, the one that holds the lowest place comes next.
    pub fn order(&self) -> Row<u8, 64>
        ensures { result ≡ order_of self.now.rows self.now.places }
    {
        let columns = self.columns();
        let mut order = Row::new();
        let mut placed: u64 = 0;
        for _ in 0..self.places {
            let Some(i) = self.lowest_free(&columns, placed) else {
                return order;
            };
            order.push(i as u8);
            placed |= block_set(self.rows[i], columns[i], i);
        }
        order
    }

    // The set of the places that reach a place.
    fn column(&self, place: usize) -> u64
        requires { place < 64 }
        ensures { result ≡ column_of self.now.rows self.now.places place }
    {
        let mut set: u64 = 0;
        for (k, row) in self.rows[..self.places].iter().enumerate() {
            if has(*row, place) {
                set |= one(k);
            }
        }
        set
    }

    // For each place the set of the places that reach it.
    fn columns(&self) -> [u64; 64]
        ensures { (i : ℕ) → i < self.now.places → get_or result i 0 ≡ column_of self.now.rows self.now.places i }
    {
        let mut sets: [u64; 64] = [0; 64];
        for (place, set) in sets[..self.places].iter_mut().enumerate() {
            *set = self.column(place);
        }
        sets
    }

    // The lowest free place, from what `columns` gave.
    fn lowest_free(&self, columns: &[u64; 64], placed: u64) -> Option<usize>
        ensures { First (free_at self.now.rows columns.now placed) self.now.places result }
    {
        (0..self.places).find(|i| is_free(self.rows[*i], columns[*i], placed, *i))
    }
}

// Round k: whoever reaches k reaches what k reaches. Where that is nothing, as at each place beyond the units, no row is looked at.
#[tactic(auto, using(crate::proofs::Turns::round_stays))]
fn round(rows: &mut [u64; 64], k: usize)
    requires { k < 64 }
    ensures { rows.new ≡ round_of k rows.old }
{
    let onward = rows[k];
    if onward == 0 {
        return;
    }
    for row in rows.iter_mut() {
        if has(*row, k) {
            *row |= onward;
        }
    }
}

// The set of a place's block, of what the place reaches and what reaches it.
fn block_set(row: u64, column: u64, place: usize) -> u64
    requires { place < 64 }
    ensures { result ≡ block_in row column place }
{
    (row & column) | one(place)
}

// Whether a place isn't placed, and whoever reaches it is placed or of its block.
fn is_free(row: u64, column: u64, placed: u64, place: usize) -> bool
    requires { place < 64 }
    ensures { result ≡ free_in row column placed place }
{
    let known = row | placed;
    !has(placed, place) && (column | known) == known
}
