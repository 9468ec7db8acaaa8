// The order of a block's units that tears least: rules 2, 3 and 5. A unit is its place in the block, from 0 to at most 11, and the weights
// are a row of twelve by twelve numbers, whatever they stand for. A table in the working memory holds, for each set of the places, the least that
// an order of that set tears; it is filled in the sets' order, and the best order is read off it from the whole set down.
#![tactic(auto)]

ghost use Rattle.std.specs.Prelude.{◌≡◌, ℕ, ◌+◌, ◌*◌, ◌-◌, ◌^◌, ◌%◌, ◌<◌, ◌≤◌, length, get_or, drop};
ghost use Rattle.sets.specs.Sets.{bit};
ghost use Rattle.tearing.specs.Row.{weights as weights_of, total};
ghost use Rattle.tearing.specs.Best.{best};
ghost use Rattle.tearing.specs.Table.{between, Summed, Doubled, Sums, Filled, via, Room, First};
ghost use Rattle.tearing.specs.Answer.{Ordered};

use rows::Row;
use words::Word;

// What the streams between the places of a block weigh: at 12 * i + j those from place i to place j. Together they fit 32 bits.
#[derive(Clone, Copy)]
pub struct Weights {
    pub row: [u32; 144],
    ghost small: { total row < 2 ^ 32 },
}

// Adds to the first numbers of a table of sums as many again: those of the same sets with one place more.
fn double(weights: &[u32; 144], place: usize, size: usize, sums: &mut [u32; 768])
    requires room { (place < 12) × (size ≤ 384) }
    requires fits { (k : ℕ) → k < size → get_or sums.old k 0 + get_or weights.now (place * 12 + k % 12) 0 < 2 ^ 32 }
    ensures { Doubled weights.now place size size sums.old sums.new }
{
    // By index: of one number both where it stands and where its sum goes are named by it, which two rows zipped would hide.
    for k in 0..size {
        sums[size + k] = sums[k] + weights[place * 12 + k % 12];
    }
}

// What the streams into each place weigh together from each set of the places from `from` up to `to`. The table has the empty set's, which
// are zero, already. It is written in place: handed back by value it is copied three times, which was tried and is slower.
fn half(weights: &Weights, from: usize, to: usize, sums: &mut [u32; 768])
    requires places { (from ≤ 6) × (to ≤ from + 6) }
    requires empty_set { Summed (weights_of weights.now.row) from sums.old 12 }
    ensures { Summed (weights_of weights.now.row) from sums.new (12 * 2 ^ (to - from)) }
{
    let mut size: usize = 12;
    for place in from..to {
        double(&weights.row, place, size, sums);
        size *= 2;
    }
}

// What the streams between the places of a block weigh: for each set of the places and each place, those from the set into the place together.
// The tables are lent: a struct that held them would be copied as it is handed back, which takes longer than a small block's order.
#[derive(Clone, Copy)]
struct Flows<'a> {
    // of the sets of the low six places, and of the high six
    low: &'a [u32; 768],
    high: &'a [u32; 768],
    places: usize,
    ghost few: { places ≤ 12 },
    ghost sums: { Sums (between low.now high.now) places low.now high.now },
}

impl Flows<'_> {
    // What an order of a set tears at least that begins with u: the streams into u from the set, and the least of the rest.
    fn begun(&self, work: &[u8], set: u64, u: usize) -> u32
        requires within { (u < 12) × (set < 4096) × (bit u set ≡ 1) × (4 * set + 4 ≤ length work.now) }
        requires fits { via self.now.low.now self.now.high.now work.now set u < 2 ^ 32 }
        ensures { result ≡ via self.now.low.now self.now.high.now work.now set u }
    {
        let whole = set as usize;
        let rest = (set - sets::one(u)) as usize;
        self.low[whole % 64 * 12 + u] + self.high[whole / 64 * 12 + u] + u32::at(work, 4 * rest)
    }

    // The first place of a set with which an order of the set begins that tears least, and what that order tears.
    fn lightest(&self, work: &[u8], set: u64) -> (usize, u32)
        requires { Room (via self.now.low.now self.now.high.now work.now set) self.now.places set work.now }
        ensures first { First (via self.now.low.now self.now.high.now work.now set) self.now.places set result.0 }
        ensures torn { result.1 ≡ via self.now.low.now self.now.high.now work.now set result.0 }
    {
        // more than any order tears: a set has a member, so it never stays
        let mut lightest: u64 = 4294967296;
        let mut begin: usize = 0;
        for u in 0..self.places {
            if sets::has(set, u) {
                let torn = u64::from(self.begun(work, set, u));
                if torn < lightest {
                    lightest = torn;
                    begin = u;
                }
            }
        }
        (begin, lightest as u32)
    }

    // Fills the table, in the sets' order. What lies beyond its four bytes a set stays.
    fn fill(&self, work: &mut [u8])
        requires { 4 * 2 ^ self.now.places ≤ length work.old }
        ensures filled { Filled (between self.now.low.now self.now.high.now) self.now.places work.new (2 ^ self.now.places) }
        ensures beyond { drop (4 * 2 ^ self.now.places) work.new ≡ drop (4 * 2 ^ self.now.places) work.old }
    {
        0u32.put(work, 0);
        let end = sets::one(self.places);
        for set in 1..end {
            let (_, torn) = self.lightest(work, set);
            torn.put(work, 4 * set as usize);
        }
    }

    // Reads the best order off the table once it is filled.
    fn read_off(&self, work: &[u8]) -> Row<u8, 12>
        requires room { 4 * 2 ^ self.now.places ≤ length work.now }
        requires filled { Filled (between self.now.low.now self.now.high.now) self.now.places work.now (2 ^ self.now.places) }
        ensures { result ≡ best (between self.now.low.now self.now.high.now) self.now.places }
    {
        let mut order = Row::new();
        let mut left = sets::one(self.places) - 1;
        for _ in 0..self.places {
            let (u, _) = self.lightest(work, left);
            order.push(u as u8);
            left -= sets::one(u);
        }
        order
    }
}

// The order of the places below n whose torn streams weigh least together, and of those the first. The table takes the front of the working
// memory, four bytes for each set of the places, and leaves it zero; the rest stay.
pub fn order(weights: &Weights, n: usize, work: &mut [u8; 65536]) -> Row<u8, 12>
    requires { n ≤ 12 }
    ensures { Ordered weights.now.row n work.old work.new result }
{
    let mut low = [0; 768];
    half(weights, 0, n.min(6), &mut low);
    let mut high = [0; 768];
    half(weights, 6, n, &mut high);
    let flows = Flows {
        low: &low,
        high: &high,
        places: n,
    };
    flows.fill(work);
    let order = flows.read_off(work);
    words::clear_front(work, 4 * sets::one(n) as usize);
    order
}
