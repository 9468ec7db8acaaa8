// Runs the cases that are not proved, and compares: a line for each, with what came out and what should have.
#![tactic(auto)]

mod edits;
mod images;
mod orders;
mod outcome;
mod plans;
mod readings;
mod report;
mod row_steps;
mod steps;

use std::io;

fn main(rt: HostRuntime) -> io::Result<()> {
    println!(rt; "Images read: 0 or the refusal's number")?;
    readings::run(&rt)?;
    println!(rt; "Images planned: 0 or the refusal's number; the plan; the memory")?;
    plans::run(&rt)?;
    println!(rt; "Sessions edited: the plan, or 0 or the refusal's number")?;
    edits::run(&rt)?;
    println!(rt; "Places ordered: the order, and what it tears")?;
    orders::run(&rt)?;
    println!(rt; "Values stepped: the verdict or the refusal's number; what stands")?;
    steps::run(&rt)?;
    println!(rt; "Rows stepped: the same")?;
    row_steps::run(&rt)
}
