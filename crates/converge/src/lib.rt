// Convergence steps for one torn stream of 1 to 16 values: successive substitution and bounded Wegstein, in doubles,
// with one rounding for each operation in the order written. What a step decides is told by `judge` before anything is
// written; the steps of one value, of a row with its records lent as a row of structs, and of one with records as two
// plain rows stand over it, and each writes at Moved alone.
#![tactic(auto)]

ghost use Rattle.std.specs.Prelude.{◌≡◌, true, [], ◌∷◌, ◌<◌, ◌≤◌, cond, map, length, find};
ghost use Rattle.std.specs.Float.Ieee.{le};
ghost use Rattle.converge.specs.declared.History.{History};
ghost use Rattle.converge.specs.Doubles.{zero64, lowest, larger, mag, usable, beyond};
ghost use Rattle.converge.specs.Answer.{number_of, method_number, Decodes, Accepts};
ghost use Rattle.converge.specs.Promise.{ValueStep, RowStep, HistoryStep, Decides, value_stepped, rows_stepped};
ghost use Rattle.converge.specs.Row.{records_of, largest_of, all_close, nexts_of, usable_row, usable_records, rows_wrong, tolerance_wrong, limit_wrong, records_wrong, refused_or, Settles, stepped};
ghost use Rattle.converge.specs.Value.{gap_of, close, factor_of, next_of, usable_record};

use rows::{Blank, Row};

// The x and y of a value's last accepted move.
#[derive(Clone, Copy, Debug, PartialEq)]
#[repr(C)]
pub struct History {
    pub x: f64,
    pub y: f64,
}

// What stands in a place beyond a row's records.
impl Blank for History {
    ghost blank = { record { x = zero64; y = zero64 } };

    fn blank() -> History {
        History { x: 0.0, y: 0.0 }
    }
}

// How a row is stepped, as the host gives it: any numbers. The method is one too, since a step answers an unknown one with 32.
#[derive(Clone, Copy, Debug, PartialEq)]
pub struct Terms {
    pub method: u32,
    pub tolerance: f64,
    pub limit: u32,
}

// Why a step is refused.
#[derive(Clone, Copy, Debug, PartialEq, Eq)]
pub enum Refusal {
    // Rows of unequal length, empty or over 16.
    Rows = 30,
    // Tolerance not from 1e-12 to 0.1.
    Tolerance = 31,
    // Limit not 1 to 500, or method unknown.
    Limit = 32,
    // An x or y not finite or beyond 1e12 in size.
    Values = 33,
    // Count over limit, or at count over 0 a record value not finite or beyond 1e12.
    Records = 34,
}

// The number of a refusal, 30 to 34.
impl From<Refusal> for u32 {
    ghost from_gives = { λ r n. n ≡ number_of r };

    fn from(refusal: Refusal) -> u32 {
        refusal as u32
    }
}

// How the next value is worked out.
#[derive(Clone, Copy, PartialEq, Eq)]
enum Method {
    Substitution,
    Wegstein,
}

impl TryFrom<u32> for Method {
    type Error = Refusal;

    ghost try_from_gives = { Decodes };

    fn try_from(number: u32) -> Result<Method, Refusal> {
        match number {
            1 => Ok(Method::Substitution),
            2 => Ok(Method::Wegstein),
            _ => Err(Refusal::Limit),
        }
    }
}

// What a step answers. Settled, Spent and Moved carry the largest |y - x|, Strayed the first next value beyond 1e12.
// One enum of five cases and no `Result`: a caller matches all five, and the promises of the three steps speak of it so.
#[derive(Clone, Copy, Debug, PartialEq)]
pub enum Verdict {
    Settled(f64),
    Spent(f64),
    Strayed(f64),
    Moved(f64),
    Refused(Refusal),
}

// The verdict for one value, with its x, record and count as they stand after it.
#[derive(Clone, Copy, Debug, PartialEq)]
pub struct Step {
    pub verdict: Verdict,
    pub x: f64,
    pub past: History,
    pub count: u16,
}

// Whether v is finite and not beyond 1e12 in size.
#[tactic(auto, using(crate::proofs::Sizes::usable_above, crate::proofs::Sizes::usable_below))]
fn fit(v: f64) -> bool
    ensures { result ≡ usable v }
{
    -1e12 <= v && v <= 1e12
}

// Whether the size of v is beyond 1e12.
#[tactic(auto, using(crate::proofs::Sizes::beyond_above, crate::proofs::Sizes::beyond_below))]
fn is_beyond(v: f64) -> bool
    ensures { result ≡ beyond v }
{
    v > 1e12 || v < -1e12
}

// Whether both values of a record are finite and not beyond 1e12 in size.
#[tactic(auto, unfolding(crate::specs::Value::usable_record))]
fn fit_record(past: History) -> bool
    ensures { result ≡ usable_record past }
{
    fit(past.x) && fit(past.y)
}

// The larger of two. (`f64::max` would pass over what is no number.)
fn larger_of(a: f64, b: f64) -> f64
    ensures { result ≡ larger a b }
{
    if a < b { b } else { a }
}

// |y - x|
#[tactic(auto, using(crate::proofs::Sizes::mag_is), unfolding(crate::specs::Value::gap_of))]
fn gap(x: f64, y: f64) -> f64
    ensures { result ≡ gap_of x y }
{
    (y - x).abs()
}

// Whether |y - x| is at most the tolerance times the larger of |x| and 1.
#[tactic(auto, using(crate::proofs::Sizes::mag_is), unfolding(crate::specs::Value::close))]
fn is_close(x: f64, y: f64, tolerance: f64) -> bool
    ensures { result ≡ close x y tolerance }
{
    gap(x, y) <= tolerance * larger_of(x.abs(), 1.0)
}

// The Wegstein factor, from -5 to 0: 0 where d is zero, and nothing is divided there. (`f64::clamp` would hand on a
// quotient that is no number.)
#[tactic(auto, using(crate::proofs::Sizes::lowest_le, crate::proofs::Sizes::ends), unfolding(crate::specs::Value::factor_of))]
fn factor(x: f64, y: f64, past: History) -> f64
    ensures exact { result ≡ factor_of x y past }
    ensures within { (le lowest result ≡ true) × (le result zero64 ≡ true) }
{
    let dx = x - past.x;
    let dy = y - past.y;
    let d = dy - dx;
    if d == 0.0 {
        return 0.0;
    }
    let q = dy / d;
    if q < -5.0 {
        return -5.0;
    }
    if q <= 0.0 { q } else { 0.0 }
}

// The next value: y by substitution and at count 0; by Wegstein (q * x) + ((1 - q) * y), or y where q is zero. The method is
// tested and no closure handed in, since the host gives it as a number for each call.
#[tactic(auto, unfolding(crate::specs::Value::next_of))]
fn next_value(x: f64, y: f64, past: History, count: u16, method: Method) -> f64
    ensures { result ≡ next_of x y past count (method_number method) }
{
    if method == Method::Substitution || count == 0 {
        return y;
    }
    let q = factor(x, y, past);
    if q == 0.0 {
        return y;
    }
    (q * x) + ((1.0 - q) * y)
}

// 30: whether the lengths of the rows differ, or are 0 or over 16.
#[tactic(auto, unfolding(crate::specs::Row::rows_wrong))]
fn rows_wrong(x: usize, y: usize, past: usize) -> bool
    ensures { result ≡ rows_wrong x y past }
{
    x != y || x != past || x == 0 || 16 < x
}

// 31: whether the tolerance is not from 1e-12 to 0.1.
#[tactic(auto, unfolding(crate::specs::Row::tolerance_wrong))]
fn tolerance_wrong(tolerance: f64) -> bool
    ensures { result ≡ tolerance_wrong tolerance }
{
    !(1e-12 <= tolerance && tolerance <= 0.1)
}

// 32: the method, where it is known and the limit is 1 to 500.
#[tactic(auto, unfolding(crate::specs::Row::limit_wrong))]
fn method_of(terms: Terms) -> Result<Method, Refusal>
    ensures { Accepts (cond (limit_wrong terms.limit terms.method) 32 0) terms.method result }
{
    if terms.limit == 0 || 500 < terms.limit {
        return Err(Refusal::Limit);
    }
    Method::try_from(terms.method)
}

// Whether every value of a row is finite and not beyond 1e12 in size, which 33 asks of x and of y.
fn all_fit(row: &[f64]) -> bool
    ensures { result ≡ usable_row row.now }
{
    row.iter().all(|v| fit(*v))
}

// Whether every record has both its values so, which 34 asks. Beside `all_fit`: one line each over the library's `all`.
fn all_fit_records(history: &[History]) -> bool
    ensures { result ≡ usable_records history.now }
{
    history.iter().all(|past| fit_record(*past))
}

// 34: whether the count is over the limit, or is over 0 and some record has a value that isn't fit.
#[tactic(auto, unfolding(crate::specs::Row::records_wrong))]
fn records_wrong(history: &[History], count: u16, limit: u32) -> bool
    ensures { result ≡ records_wrong history.now count limit }
{
    limit < u32::from(count) || (0 < count && !all_fit_records(history))
}

// The method of a step that isn't refused by 30 to 33, which are tried in order. Of the records it is asked how many there are.
#[tactic(auto, unfolding(crate::specs::Row::values_wrong))]
fn accept(x: &[f64], y: &[f64], records: usize, terms: Terms) -> Result<Method, Refusal>
    ensures { Accepts (refused_or x.now y.now records terms.method terms.tolerance terms.limit 0) terms.method result }
{
    if rows_wrong(x.len(), y.len(), records) {
        return Err(Refusal::Rows);
    }
    if tolerance_wrong(terms.tolerance) {
        return Err(Refusal::Tolerance);
    }
    let method = method_of(terms)?;
    if !all_fit(x) || !all_fit(y) {
        return Err(Refusal::Values);
    }
    Ok(method)
}

// Whether every value of two rows is close.
fn all_close(x: &[f64], y: &[f64], tolerance: f64) -> bool
    ensures { result ≡ all_close x.now y.now tolerance }
{
    x.iter().zip(y).all(|(x, y)| is_close(*x, *y, tolerance))
}

// The largest |y - x| of two rows.
fn largest_gap(x: &[f64], y: &[f64]) -> f64
    ensures { result ≡ largest_of x.now y.now }
{
    x.iter()
        .zip(y)
        .map(|(x, y)| gap(*x, *y))
        .reduce(larger_of)
        .unwrap_or(0.0)
}

// Each value's next, into a row of none: handed back by value it would be copied twice on its way.
fn push_nexts(
    x: &[f64],
    y: &[f64],
    history: &[History],
    count: u16,
    method: Method,
    nexts: &mut Row<f64, 16>,
)
    requires { (length x.now ≤ 16) × (nexts.old ≡ []) }
    ensures { nexts.new ≡ nexts_of x.now y.now history.now count (method_number method) }
{
    for ((x, y), past) in x.iter().zip(y).zip(history) {
        nexts.push(next_value(*x, *y, *past, count, method));
    }
}

// The first next value beyond 1e12 in size.
fn first_stray(nexts: &[f64]) -> Option<f64>
    ensures { result ≡ find beyond nexts.now }
{
    nexts.iter().copied().find(|next| is_beyond(*next))
}

// The verdict that needs no next value, Settled or Spent, where there is one. `top` is the largest |y - x|.
fn settle(x: &[f64], y: &[f64], count: u16, terms: Terms, top: f64) -> Option<Verdict>
    ensures { Settles x.now y.now count terms.tolerance terms.limit top result }
{
    if all_close(x, y, terms.tolerance) {
        return Some(Verdict::Settled(top));
    }
    if u32::from(count) == terms.limit {
        return Some(Verdict::Spent(top));
    }
    None
}

// Writes the records of two rows, of x and of y. These go by index, since of what is written through a zip nothing is known
// after it.
fn write_records(x: &[f64], y: &[f64], history: &mut [History])
    requires { (length x.now ≡ length history.old) × (length y.now ≡ length history.old) }
    ensures { history.new ≡ records_of x.now y.now }
{
    for (i, past) in history.iter_mut().enumerate() {
        *past = History { x: x[i], y: y[i] };
    }
}

// The step of a row that 30 to 33 don't refuse, before anything of it is written: what Moved carries, with the next values in
// `nexts`, or the verdict at which all stays. 34 is tried here, since it reads the records. It is taken into each step, so that
// at one value its rows and loops fall away in a program that steps rows too.
#[inline(always)]
fn judge(
    x: &[f64],
    y: &[f64],
    history: &[History],
    count: u16,
    terms: Terms,
    method: Method,
    nexts: &mut Row<f64, 16>,
) -> Result<f64, Verdict>
    requires accepted { Accepts (refused_or x.now y.now (length history.now) terms.method terms.tolerance terms.limit 0) terms.method (Ok method) }
    requires empty { nexts.old ≡ [] }
    ensures { Decides x.now y.now history.now count terms.method terms.tolerance terms.limit nexts.new result }
{
    if records_wrong(history, count, terms.limit) {
        return Err(Verdict::Refused(Refusal::Records));
    }
    let top = largest_gap(x, y);
    if let Some(verdict) = settle(x, y, count, terms, top) {
        return Err(verdict);
    }
    push_nexts(x, y, history, count, method, nexts);
    if let Some(next) = first_stray(nexts.items()) {
        return Err(Verdict::Strayed(next));
    }
    Ok(top)
}

// The same from 30 on, with the records lent as they are.
#[inline(always)]
#[tactic(auto, using(crate::proofs::Lent::decided_early))]
fn decide(
    x: &[f64],
    y: &[f64],
    history: &[History],
    count: u16,
    terms: Terms,
    nexts: &mut Row<f64, 16>,
) -> Result<f64, Verdict>
    requires { nexts.old ≡ [] }
    ensures { Decides x.now y.now history.now count terms.method terms.tolerance terms.limit nexts.new result }
{
    match accept(x, y, history.len(), terms) {
        Ok(method) => judge(x, y, history, count, terms, method, nexts),
        Err(refusal) => Err(Verdict::Refused(refusal)),
    }
}

// The step of one value, as rows of one: its verdict, and x, record and count as they stand after it. Refuses by 31 to 34.
pub fn step_value(x: f64, y: f64, past: History, count: u16, terms: Terms) -> Step
    ensures { ValueStep (value_stepped x y past count terms.method terms.tolerance terms.limit) result }
{
    let mut nexts = Row::new();
    let top = match decide(&[x], &[y], &[past], count, terms, &mut nexts) {
        Ok(top) => top,
        Err(verdict) => {
            return Step {
                verdict,
                x,
                past,
                count,
            };
        }
    };
    Step {
        verdict: Verdict::Moved(top),
        x: nexts.items()[0],
        past: History { x, y },
        count: count + 1,
    }
}

// The step of a row of 1 to 16 values, with one record for each value: on Moved the next values stand in x, the records
// hold this x and y and the count is one more; at every other verdict all stays. Refuses by 30 to 34.
pub fn step_history(
    x: &mut [f64],
    y: &[f64],
    history: &mut [History],
    count: &mut u16,
    terms: Terms,
) -> Verdict
    ensures { HistoryStep (stepped x.old y.now history.old count.old terms.method terms.tolerance terms.limit) result x.new history.new count.new }
{
    let mut nexts = Row::new();
    let top = match decide(x, y, history, *count, terms, &mut nexts) {
        Ok(top) => top,
        Err(verdict) => return verdict,
    };
    write_records(x, y, history);
    x.copy_from_slice(nexts.items());
    *count += 1;
    Verdict::Moved(top)
}

// The same step, with the records as two plain rows, of x and of y: two rows are what this function promises its callers.
#[tactic(auto, using(crate::proofs::Records::rows_early, crate::proofs::Records::rows_stay))]
pub fn step_row(
    x: &mut [f64],
    y: &[f64],
    past_x: &mut [f64],
    past_y: &mut [f64],
    count: &mut u16,
    terms: Terms,
) -> Verdict
    ensures { RowStep (rows_stepped x.old y.now past_x.old past_y.old count.old terms.method terms.tolerance terms.limit) result x.new past_x.new past_y.new count.new }
{
    if past_x.len() != past_y.len() {
        return Verdict::Refused(Refusal::Rows);
    }
    let method = match accept(x, y, past_x.len(), terms) {
        Ok(method) => method,
        Err(refusal) => return Verdict::Refused(refusal),
    };
    let mut places = [History::blank(); 16];
    let history = &mut places[..past_x.len()];
    write_records(past_x, past_y, history);
    let mut nexts = Row::new();
    let top = match judge(x, y, history, *count, terms, method, &mut nexts) {
        Ok(top) => top,
        Err(verdict) => return verdict,
    };
    past_x.copy_from_slice(x);
    past_y.copy_from_slice(y);
    x.copy_from_slice(nexts.items());
    *count += 1;
    Verdict::Moved(top)
}
