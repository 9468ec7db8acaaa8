// Steps of one value: the cases that were worked out on paper, and both sides of each bound of the refusals 31 to 34.
use crate::outcome::Outcome;
use crate::report;
use converge::{History, Refusal, Step, Terms, Verdict};
use std::io;

// What a step of one value is asked with.
#[derive(Clone, Copy)]
struct Asked {
    x: f64,
    y: f64,
    past: History,
    count: u16,
    terms: Terms,
}

// The case of a step of one value, and the outcome that is wanted: its verdict, and x, record and count as they stand after it.
fn step(rt: &impl Print, name: &str, asked: Asked, wanted: Step) -> io::Result<()> {
    let came = converge::step_value(asked.x, asked.y, asked.past, asked.count, asked.terms);
    let came = Outcome {
        verdict: came.verdict,
        x: &[came.x],
        past: &[came.past],
        count: came.count,
    };
    let wanted = Outcome {
        verdict: wanted.verdict,
        x: &[wanted.x],
        past: &[wanted.past],
        count: wanted.count,
    };
    report::line(rt, name, came.is_same(&wanted), &came, &wanted)
}

// A case that is Moved: the largest |y - x| is `gap`, the next stands in x, the record holds this x and y, and the count is one more.
fn moved(rt: &impl Print, name: &str, asked: Asked, gap: f64, next: f64) -> io::Result<()> {
    let wanted = Step {
        verdict: Verdict::Moved(gap),
        x: next,
        past: History {
            x: asked.x,
            y: asked.y,
        },
        count: asked.count.saturating_add(1),
    };
    step(rt, name, asked, wanted)
}

// A case with another verdict, at which all stays.
fn kept(rt: &impl Print, name: &str, asked: Asked, verdict: Verdict) -> io::Result<()> {
    let wanted = Step {
        verdict,
        x: asked.x,
        past: asked.past,
        count: asked.count,
    };
    step(rt, name, asked, wanted)
}

// The terms of the cases, but for what a case changes.
pub(crate) const TERMS: Terms = Terms {
    method: 2,
    tolerance: 0.001,
    limit: 500,
};

// The record of the cases worked out on paper.
pub(crate) const PAST: History = History { x: 100.0, y: 110.0 };

// The step at x 110 and this y, after one move.
fn at(y: f64) -> Asked {
    Asked {
        x: 110.0,
        y,
        past: PAST,
        count: 1,
        terms: TERMS,
    }
}

fn on_paper(rt: &impl Print) -> io::Result<()> {
    moved(rt, "J", at(115.0), 5.0, 120.0)?;
    moved(rt, "K", at(119.0), 9.0, 164.0)?;
    moved(rt, "L, d zero", at(120.0), 10.0, 120.0)?;
    moved(rt, "L, q 3", at(125.0), 15.0, 125.0)?;
    let close = Asked {
        x: 16.0,
        y: 17.0,
        terms: Terms {
            tolerance: 0.0625,
            ..TERMS
        },
        count: 0,
        past: PAST,
    };
    kept(rt, "M, y 17", close, Verdict::Settled(1.0))?;
    moved(rt, "M, y 17.5", Asked { y: 17.5, ..close }, 1.5, 17.5)
}

// J with another tolerance.
fn tolerance(tolerance: f64) -> Asked {
    Asked {
        terms: Terms { tolerance, ..TERMS },
        ..at(115.0)
    }
}

fn tolerances(rt: &impl Print) -> io::Result<()> {
    let refused = Verdict::Refused(Refusal::Tolerance);
    let below = 1e-12f64.next_down();
    let above = 0.1f64.next_up();
    moved(rt, "tolerance 1e-12", tolerance(1e-12), 5.0, 120.0)?;
    kept(rt, "tolerance below 1e-12", tolerance(below), refused)?;
    kept(rt, "tolerance 0.1", tolerance(0.1), Verdict::Settled(5.0))?;
    kept(rt, "tolerance above 0.1", tolerance(above), refused)?;
    kept(rt, "tolerance NaN", tolerance(f64::NAN), refused)
}

// J with another method and limit.
fn by(method: u32, limit: u32) -> Asked {
    let terms = Terms {
        method,
        limit,
        ..TERMS
    };
    Asked { terms, ..at(115.0) }
}

fn limits(rt: &impl Print) -> io::Result<()> {
    let refused = Verdict::Refused(Refusal::Limit);
    kept(rt, "limit 0", by(2, 0), refused)?;
    kept(rt, "limit 1", by(2, 1), Verdict::Spent(5.0))?;
    moved(rt, "limit 500", by(2, 500), 5.0, 120.0)?;
    kept(rt, "limit 501", by(2, 501), refused)?;
    kept(rt, "method 0", by(0, 500), refused)?;
    moved(rt, "method 1", by(1, 500), 5.0, 115.0)?;
    moved(rt, "method 2", by(2, 500), 5.0, 120.0)?;
    kept(rt, "method 3", by(3, 500), refused)
}

// A first step, at this x and y.
fn first(x: f64, y: f64) -> Asked {
    Asked {
        x,
        count: 0,
        ..at(y)
    }
}

fn values(rt: &impl Print) -> io::Result<()> {
    let refused = Verdict::Refused(Refusal::Values);
    let above = 1e12f64.next_up();
    moved(rt, "x 1e12", first(1e12, 115.0), 999999999885.0, 115.0)?;
    kept(rt, "x above 1e12", first(above, 115.0), refused)?;
    moved(rt, "x -1e12", first(-1e12, 115.0), 1000000000115.0, 115.0)?;
    kept(rt, "x below -1e12", first(-above, 115.0), refused)?;
    kept(rt, "x infinite", first(f64::INFINITY, 115.0), refused)?;
    kept(rt, "x NaN", first(f64::NAN, 115.0), refused)?;
    moved(rt, "y 1e12", first(110.0, 1e12), 999999999890.0, 1e12)?;
    kept(rt, "y above 1e12", first(110.0, above), refused)?;
    moved(rt, "y -1e12", first(110.0, -1e12), 1000000000110.0, -1e12)?;
    kept(rt, "y below -1e12", first(110.0, -above), refused)?;
    kept(rt, "y infinite", first(110.0, f64::INFINITY), refused)?;
    kept(rt, "y NaN", first(110.0, f64::NAN), refused)
}

// J with another count and limit.
fn after(count: u16, limit: u32) -> Asked {
    Asked {
        count,
        ..by(2, limit)
    }
}

fn counts(rt: &impl Print) -> io::Result<()> {
    let refused = Verdict::Refused(Refusal::Records);
    kept(rt, "count 1 of 1", after(1, 1), Verdict::Spent(5.0))?;
    kept(rt, "count 2 of 1", after(2, 1), refused)?;
    moved(rt, "count 499 of 500", after(499, 500), 5.0, 120.0)?;
    kept(rt, "count 500 of 500", after(500, 500), Verdict::Spent(5.0))?;
    kept(rt, "count 501 of 500", after(501, 500), refused)
}

// J with another record and count.
fn since(x: f64, y: f64, count: u16) -> Asked {
    Asked {
        past: History { x, y },
        count,
        ..at(115.0)
    }
}

// x' and y' are the record's.
fn records(rt: &impl Print) -> io::Result<()> {
    let refused = Verdict::Refused(Refusal::Records);
    let above = 1e12f64.next_up();
    let nan = f64::NAN;
    let infinite = f64::INFINITY;
    moved(rt, "x' NaN at count 0", since(nan, 110.0, 0), 5.0, 115.0)?;
    kept(rt, "x' NaN at count 1", since(nan, 110.0, 1), refused)?;
    moved(rt, "x' 1e12", since(1e12, 110.0, 1), 5.0, 115.0)?;
    kept(rt, "x' above 1e12", since(above, 110.0, 1), refused)?;
    kept(rt, "x' infinite", since(infinite, 110.0, 1), refused)?;
    moved(rt, "y' NaN at count 0", since(100.0, nan, 0), 5.0, 115.0)?;
    kept(rt, "y' NaN at count 1", since(100.0, nan, 1), refused)?;
    moved(rt, "y' 1e12", since(100.0, 1e12, 1), 5.0, 115.0)?;
    kept(rt, "y' above 1e12", since(100.0, above, 1), refused)?;
    kept(rt, "y' infinite", since(100.0, infinite, 1), refused)
}

pub(crate) fn run(rt: &impl Print) -> io::Result<()> {
    on_paper(rt)?;
    tolerances(rt)?;
    limits(rt)?;
    values(rt)?;
    counts(rt)?;
    records(rt)
}
