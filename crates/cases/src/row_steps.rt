// Steps of rows: both sides of each bound of refusal 30, rows of unequal length, and each verdict.
ghost use Rattle.std.specs.Prelude.{◌≡◌, ◌≤◌, length};

use crate::outcome::Outcome;
use crate::report;
use crate::steps::{PAST, TERMS};
use converge::{History, Refusal, Terms, Verdict};
use std::io;

// What a step of a row is asked with.
#[derive(Clone, Copy)]
struct Asked<'a> {
    x: &'a [f64],
    y: &'a [f64],
    past: &'a [History],
    count: u16,
    terms: Terms,
}

// The case of a step of a row of at most 17 values, and the outcome that is wanted.
fn step(rt: &impl Print, name: &str, asked: Asked, wanted: Outcome) -> io::Result<()>
    requires { (length asked.x.now ≤ 17) × (length asked.past.now ≤ 17) }
{
    let mut x = [0.0; 17];
    let x = &mut x[..asked.x.len()];
    x.copy_from_slice(asked.x);
    let mut past = [PAST; 17];
    let past = &mut past[..asked.past.len()];
    past.copy_from_slice(asked.past);
    let mut count = asked.count;
    let verdict = converge::step_history(x, asked.y, past, &mut count, asked.terms);
    let came = Outcome {
        verdict,
        x,
        past,
        count,
    };
    report::line(rt, name, came.is_same(&wanted), &came, &wanted)
}

// A case with another verdict than Moved, at which all stays.
fn kept(rt: &impl Print, name: &str, asked: Asked, verdict: Verdict) -> io::Result<()>
    requires { (length asked.x.now ≤ 17) × (length asked.past.now ≤ 17) }
{
    let wanted = Outcome {
        verdict,
        x: asked.x,
        past: asked.past,
        count: asked.count,
    };
    step(rt, name, asked, wanted)
}

// Doubles of which each is one more than the one before it.
const FROM_ONE: [f64; 18] = [
    1.0, 2.0, 3.0, 4.0, 5.0, 6.0, 7.0, 8.0, 9.0, 10.0, 11.0, 12.0, 13.0, 14.0, 15.0, 16.0, 17.0,
    18.0,
];

// A first step of rows of so many values: x is 1, 2, .., and y is 2, 3, ..
fn rising(x: usize, y: usize, past: usize) -> Asked<'static>
    requires { (x ≤ 17) × (y ≤ 17) × (past ≤ 17) }
    ensures { (length result.x.now ≡ x) × (length result.past.now ≡ past) }
{
    Asked {
        x: &FROM_ONE[..x],
        y: &FROM_ONE[1..y + 1],
        past: &[PAST; 17][..past],
        count: 0,
        terms: TERMS,
    }
}

// The case of such rows that are Moved: the nexts are y, and each record holds its x and y.
fn rising_moved(rt: &impl Print, name: &str, values: usize) -> io::Result<()>
    requires { values ≤ 17 }
{
    let mut past = [PAST; 17];
    for (i, record) in past.iter_mut().enumerate() {
        *record = History {
            x: FROM_ONE[i],
            y: FROM_ONE[i + 1],
        };
    }
    let wanted = Outcome {
        verdict: Verdict::Moved(1.0),
        x: &FROM_ONE[1..values + 1],
        past: &past[..values],
        count: 1,
    };
    step(rt, name, rising(values, values, values), wanted)
}

fn lengths(rt: &impl Print) -> io::Result<()> {
    let refused = Verdict::Refused(Refusal::Rows);
    kept(rt, "no values", rising(0, 0, 0), refused)?;
    rising_moved(rt, "1 value", 1)?;
    rising_moved(rt, "16 values", 16)?;
    kept(rt, "17 values", rising(17, 17, 17), refused)?;
    kept(rt, "x of 1, y and records of 2", rising(1, 2, 2), refused)?;
    kept(rt, "y of 1, x and records of 2", rising(2, 1, 2), refused)?;
    kept(rt, "records of 1, x and y of 2", rising(2, 2, 1), refused)
}

fn settled_or_spent(rt: &impl Print) -> io::Result<()> {
    let terms = Terms {
        tolerance: 0.0625,
        limit: 3,
        ..TERMS
    };
    let close = Asked {
        x: &[16.0, 100.0],
        y: &[16.25, 101.0],
        past: &[PAST; 2],
        count: 3,
        terms,
    };
    let far = Asked {
        y: &[16.25, 110.0],
        ..close
    };
    kept(rt, "two close", close, Verdict::Settled(1.0))?;
    kept(rt, "one not close, at the limit", far, Verdict::Spent(10.0))
}

// Each q is -1, so the nexts are 120, 1.6e12 and 1.8e12.
fn strayed(rt: &impl Print) -> io::Result<()> {
    let second = History { x: -2e11, y: 7e11 };
    let third = History { x: -2e11, y: 8e11 };
    let asked = Asked {
        x: &[110.0, 0.0, 0.0],
        y: &[115.0, 8e11, 9e11],
        past: &[PAST, second, third],
        count: 1,
        terms: TERMS,
    };
    kept(rt, "two nexts beyond 1e12", asked, Verdict::Strayed(1.6e12))
}

fn moved(rt: &impl Print) -> io::Result<()> {
    let asked = Asked {
        x: &[110.0, 110.0, 110.0],
        y: &[115.0, 119.0, 120.0],
        past: &[PAST; 3],
        count: 1,
        terms: TERMS,
    };
    let wanted = Outcome {
        verdict: Verdict::Moved(10.0),
        x: &[120.0, 164.0, 120.0],
        past: &[
            History { x: 110.0, y: 115.0 },
            History { x: 110.0, y: 119.0 },
            History { x: 110.0, y: 120.0 },
        ],
        count: 2,
    };
    step(rt, "J, K and L in one row", asked, wanted)
}

pub(crate) fn run(rt: &impl Print) -> io::Result<()> {
    lengths(rt)?;
    settled_or_spent(rt)?;
    strayed(rt)?;
    moved(rt)
}
