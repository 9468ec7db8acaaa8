// What the plant's C program calls, and nothing else: each function takes numbers and rows of bytes, reads them, asks the
// crate that knows, and writes what it answers. include/najmudhil.h declares them for C.
#![tactic(auto)]

ghost use Rattle.std.specs.Prelude.{◌≡◌, [], ◌∷◌, ◌+◌, ◌≤◌, length, set};
ghost use Rattle.std.specs.Float.{binary64};
ghost use Rattle.std.specs.Float.Ieee.{of_bits, to_bits};
ghost use Rattle.words.specs.Words.{with_number};
ghost use Rattle.planner.specs.Answer.{Planning};
ghost use Rattle.converge.specs.Promise.{ValueStep};
ghost use Rattle.najmudhil.specs.Step.{double_at, values_of, with_doubles, lengths_wrong, held_step, bytes_stepped, BytesStep};

use converge::{History, Refusal, Step, Terms, Verdict};
use words::Word;

// The double of a bit pattern. A NaN's pattern is never read as a number: all of them are one.
fn of_pattern(bits: u64) -> f64
    ensures { result ≡ of_bits binary64 bits }
{
    if bits % 0x8000_0000_0000_0000 > 0x7ff0_0000_0000_0000 {
        return 0.0 / 0.0;
    }
    f64::from_bits(bits)
}

// The bit pattern of a double, of a NaN the one named here.
fn pattern(v: f64) -> u64
    ensures { result ≡ to_bits binary64 v }
{
    if v.is_nan() {
        return 0x7ff8_0000_0000_0000;
    }
    f64::to_bits(v)
}

// The double in the 8 bytes at `at`.
#[tactic(auto, unfolding(crate::specs::Step::double_at))]
fn double_at(row: &[u8], at: usize) -> f64
    requires { at + 8 ≤ length row.now }
    ensures { result ≡ double_at row.now at }
{
    of_pattern(u64::at(row, at))
}

// Writes a double into the 8 bytes at `at`; every other byte stays.
fn put_double(row: &mut [u8], at: usize, v: f64)
    requires { at + 8 ≤ length row.old }
    ensures { row.new ≡ with_doubles row.old at (v ∷ []) }
{
    pattern(v).put(row, at);
}

// Whether one of the lengths isn't the one agreed on.
#[tactic(auto, unfolding(crate::specs::Step::lengths_wrong))]
fn lengths_wrong(x: usize, past: usize, count: usize, answer: usize) -> bool
    ensures { result ≡ lengths_wrong x past count answer }
{
    x != 8 || past != 16 || count != 2 || answer != 9
}

// The step of what the bytes hold.
fn held_step(x: &[u8], y: f64, past: &[u8], count: &[u8], terms: Terms) -> Step
    requires { (8 ≤ length x.now) × (16 ≤ length past.now) × (2 ≤ length count.now) }
    ensures { ValueStep (held_step x.now y past.now count.now terms.method terms.tolerance terms.limit) result }
{
    let record = History {
        x: double_at(past, 0),
        y: double_at(past, 8),
    };
    converge::step_value(double_at(x, 0), y, record, u16::at(count, 0), terms)
}

// Writes an answer: its number, then the double that it carries.
fn put_answer(answer: &mut [u8], number: u8, carried: f64)
    requires { 9 ≤ length answer.old }
    ensures { answer.new ≡ with_doubles (set answer.old 0 number) 1 (carried ∷ []) }
{
    answer[0] = number;
    put_double(answer, 1, carried);
}

// x, past and count stay rows with a clause on their lengths, here and above: of what is written through an array made of a lent row, std says
// nothing afterwards (tried).
//
// Writes what Moved changes: x takes the next value, the record its x and then its y, and the count the new one. The record's x is
// written from the double: an accepted x is a number, whose pattern is the 8 bytes that it was read from.
fn put_moved(x: &mut [u8], past: &mut [u8], count: &mut [u8], step: Step)
    requires { (8 ≤ length x.old) × (16 ≤ length past.old) × (2 ≤ length count.old) }
    ensures x { x.new ≡ with_doubles x.old 0 (step.x ∷ []) }
    ensures past { past.new ≡ with_doubles past.old 0 (values_of (step.past ∷ [])) }
    ensures count { count.new ≡ with_number 2 count.old 0 step.count }
{
    put_double(x, 0, step.x);
    put_double(past, 0, step.past.x);
    put_double(past, 8, step.past.y);
    step.count.put(count, 0);
}

// The step of one value, in plain numbers and rows of bytes and with a number for each verdict and refusal, as the C interface
// has them: x lent as 8 bytes, the record `past` as 16 (x, then y), the count as 2, the answer as 9 (the verdict's number,
// then the carried double), all little-endian. Returns 0, or a refusal from 30 to 34 with all of these unchanged.
#[unsafe(no_mangle)]
#[tactic(auto, using(crate::proofs::Lent::lengths_right))]
pub extern "C" fn najmudhil_step(
    x: &mut [u8],
    y: f64,
    past: &mut [u8],
    count: &mut [u8],
    method: u32,
    tolerance: f64,
    limit: u32,
    answer: &mut [u8],
) -> u32
    ensures { BytesStep (bytes_stepped x.old y past.old count.old method tolerance limit answer.old) result x.new past.new count.new answer.new }
{
    if lengths_wrong(x.len(), past.len(), count.len(), answer.len()) {
        return u32::from(Refusal::Rows);
    }
    let terms = Terms {
        method,
        tolerance,
        limit,
    };
    let step = held_step(x, y, past, count, terms);
    match step.verdict {
        Verdict::Settled(gap) => put_answer(answer, 1, gap),
        Verdict::Spent(gap) => put_answer(answer, 2, gap),
        Verdict::Strayed(next) => put_answer(answer, 3, next),
        Verdict::Moved(gap) => {
            put_answer(answer, 4, gap);
            put_moved(x, past, count, step);
        }
        Verdict::Refused(refusal) => return u32::from(refusal),
    }
    0
}

// Plans the flowsheet in `image` and writes the plan's image to the front of `plan`: 0, or the first of 1 to 12 that the
// table gives, with `plan` as it stood. The working memory is left as rule 5 says.
#[unsafe(no_mangle)]
pub extern "C" fn najmudhil_plan(image: &[u8], plan: &mut [u8], work: &mut [u8]) -> u32
    ensures { Planning image.now plan.old work.old result plan.new work.new }
{
    match planner::plan_image(image, plan, work) {
        Ok(()) => 0,
        Err(refusal) => u32::from(refusal),
    }
}
