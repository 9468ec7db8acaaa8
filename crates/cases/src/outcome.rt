// What a step answers and leaves, of one value or of a row: how it is written, and when it is as wanted.
use crate::report::Listed;
use converge::{History, Verdict};
use std::fmt;

// What a step answers and leaves, of one value or of a row.
#[derive(Clone, Copy)]
pub(crate) struct Outcome<'a> {
    pub(crate) verdict: Verdict,
    pub(crate) x: &'a [f64],
    pub(crate) past: &'a [History],
    pub(crate) count: u16,
}

// The verdict's name and the double that it carries, or the refusal's number.
#[derive(Clone, Copy)]
struct Said(Verdict);

impl fmt::Display for Said {
    fn fmt<W: fmt::Write>(&self, f: &mut fmt::Formatter<W>) -> fmt::Result {
        match self.0 {
            Verdict::Settled(gap) => write!(f, "Settled {gap}"),
            Verdict::Spent(gap) => write!(f, "Spent {gap}"),
            Verdict::Strayed(next) => write!(f, "Strayed {next}"),
            Verdict::Moved(gap) => write!(f, "Moved {gap}"),
            Verdict::Refused(refusal) => write!(f, "{}", u32::from(refusal)),
        }
    }
}

impl fmt::Display for Outcome<'_> {
    fn fmt<W: fmt::Write>(&self, f: &mut fmt::Formatter<W>) -> fmt::Result {
        let said = Said(self.verdict);
        let x = Listed(self.x);
        write!(f, "{said}; x {x}, record")?;
        if self.past.is_empty() {
            write!(f, " -")?;
        }
        for past in self.past {
            let History { x, y } = *past;
            write!(f, " ({x}, {y})")?;
        }
        let count = self.count;
        write!(f, ", count {count}")
    }
}

// Whether two doubles are equal, or neither is a number.
fn is_same(a: f64, b: f64) -> bool {
    a == b || (a.is_nan() && b.is_nan())
}

impl Outcome<'_> {
    // Whether it is this other one, in every place.
    pub(crate) fn is_same(&self, other: &Outcome) -> bool {
        self.verdict == other.verdict
            && self.count == other.count
            && self.x.len() == other.x.len()
            && self.x.iter().zip(other.x).all(|(a, b)| is_same(*a, *b))
            && self.past.len() == other.past.len()
            && self
                .past
                .iter()
                .zip(other.past)
                .all(|(a, b)| is_same(a.x, b.x) && is_same(a.y, b.y))
    }
}
