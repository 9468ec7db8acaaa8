// Orders of twelve places that tear least, compared with orders that were found without tearing's table: by trying all, or by the rules.
ghost use Rattle.std.specs.Prelude.{◌≡◌, ℕ, ◌*◌, ◌/◌, ◌%◌, ◌^◌, ◌<◌, ◌≤◌, length, get_or};
ghost use Rattle.rows.specs.Rows.{table};
ghost use Rattle.tearing.specs.Row.{weights as weights_of};
ghost use Rattle.tearing.specs.Weight.{into, weight};
ghost use Rattle.cases.specs.Orders.{weight_of};

use crate::report::{self, Listed};
use std::{fmt, io};
use tearing::Weights;

// What the streams between two places weigh together.
#[derive(Clone, Copy, PartialEq, Eq)]
enum Rule {
    // From 1 to 1,000, with no pattern to the eye.
    Dense,
    // 7 between any two, and nothing from a place to itself.
    Equal,
}

// What the streams from place i to place j weigh by a rule.
fn weight_by(rule: Rule, i: u32, j: u32) -> u32
    requires { (i < 12) × (j < 12) }
    ensures is { result ≡ weight_of rule i j }
    ensures small { result ≤ 1000 }
{
    match rule {
        Rule::Dense => 1 + (37 * i + 61 * j + 213 * i * j) % 1000,
        Rule::Equal => if i == j { 0 } else { 7 },
    }
}

// The weights between twelve places by a rule.
fn weights_by(rule: Rule) -> Weights
    ensures { result.row ≡ table (λ k. weight_of rule (k / 12) (k % 12)) 144 }
{
    let mut row = [0; 144];
    for k in 0..144u8 {
        let place = u32::from(k);
        row[usize::from(k)] = weight_by(rule, place / 12, place % 12);
    }
    Weights { row }
}

// What the streams into place u from these places weigh.
#[tactic(auto, using(crate::proofs::Weights::weight_small))]
fn torn_into(weights: &Weights, u: u8, places: &[u8]) -> u64
    requires few { (u < 12) × (length places.now ≤ 12) }
    requires places { (k : ℕ) → k < length places.now → get_or places.now k 0 < 12 }
    ensures is { result ≡ into (weights_of weights.now.row) u places.now }
    ensures small { result ≤ 12 * 2 ^ 32 }
{
    let mut torn = 0;
    for place in places {
        torn += u64::from(weights.row[usize::from(*place) * 12 + usize::from(u)]);
    }
    torn
}

// What an order tears: at each place the streams into it from itself and from those that stand after it.
fn torn_by(weights: &Weights, order: &[u8]) -> u64
    requires few { length order.now ≤ 12 }
    requires places { (k : ℕ) → k < length order.now → get_or order.now k 0 < 12 }
    ensures { result ≡ weight (weights_of weights.now.row) order.now }
{
    let mut torn = 0;
    for (i, u) in order.iter().enumerate() {
        torn += torn_into(weights, *u, &order[i..]);
    }
    torn
}

// An order, and what it tears.
#[derive(Clone, Copy)]
struct Found<'a> {
    order: &'a [u8],
    torn: u64,
}

impl fmt::Display for Found<'_> {
    fn fmt<W: fmt::Write>(&self, f: &mut fmt::Formatter<W>) -> fmt::Result {
        let order = Listed(self.order);
        let torn = self.torn;
        write!(f, "{order}, torn {torn}")
    }
}

// The case of the twelve places with weights by a rule.
fn ordered(rt: &impl Print, name: &str, rule: Rule, wanted: Found) -> io::Result<()> {
    let weights = weights_by(rule);
    let mut memory = [255; 65536];
    let order = tearing::order(&weights, 12, &mut memory);
    let order = order.items();
    let torn = torn_by(&weights, order);
    let right = order == wanted.order && torn == wanted.torn;
    report::line(rt, name, right, &Found { order, torn }, &wanted)
}

pub(crate) fn run(rt: &impl Print) -> io::Result<()> {
    // By host/orders.c, which tries all 479,001,600 orders: the first of the two that tear least.
    let dense = Found {
        order: &[0, 4, 2, 5, 6, 11, 1, 7, 10, 3, 8, 9],
        torn: 31003,
    };
    ordered(rt, "twelve places, dense weights", Rule::Dense, dense)?;
    // Of the two ways between each two of 66 pairs every order tears one, so all orders tear 66 times 7, and the first of all is the order.
    let equal = Found {
        order: &[0, 1, 2, 3, 4, 5, 6, 7, 8, 9, 10, 11],
        torn: 462,
    };
    ordered(rt, "twelve places, equal weights", Rule::Equal, equal)
}
