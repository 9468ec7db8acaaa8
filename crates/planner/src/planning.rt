// Planning on an image: reading it, planning the flowsheet, and writing the plan's image.
ghost use Rattle.std.specs.Prelude.{◌≡◌, cond, leb, length};
ghost use Rattle.planner.specs.Answer.{planned, planned_image, Spent, work_after, code_of, buffer_from, Planning};
ghost use Rattle.planner.specs.Image.{plan_length};

use crate::{Plan, Refusal, sheet, written};

// The plan of an image's flowsheet, or the first refusal of reading, then 11, then 12 where the working memory is short.
// It leaves the memory uncleared.
#[tactic(auto, using(crate::proofs::Answers::image_refused, crate::proofs::Answers::image_planned, crate::proofs::Answers::image_good))]
fn planned_image(image: &[u8], work: &mut [u8]) -> Result<Plan, Refusal>
    ensures answer { planned result ≡ planned_image image.now (length work.old) }
    ensures work { Spent work.old work.new }
{
    let flowsheet = flowsheet::read(image)?;
    sheet::planned(&flowsheet, work)
}

// Plans the flowsheet of an image: the plan by value, or the first refusal of 1 to 12 that the table gives, where 12 is the
// working memory's alone. The memory is left as rule 5 says on every way out.
pub fn plan_read(image: &[u8], work: &mut [u8]) -> Result<Plan, Refusal>
    ensures answer { planned result ≡ planned_image image.now (length work.old) }
    ensures work { work.new ≡ work_after work.old }
{
    let answer = planned_image(image, work);
    sheet::clear_work(work);
    answer
}

// Writes a plan's image to the front of a buffer, or refuses where it is longer than the buffer, which then stays.
fn write_plan(plan: &Plan, buffer: &mut [u8]) -> Result<(), Refusal>
    ensures number { code_of result ≡ cond (leb (plan_length plan.now) (length buffer.old)) 0 12 }
    ensures written { buffer.new ≡ buffer_from (code_of result) (record { number = 0; plan = plan.now }) buffer.old }
{
    if buffer.len() < written::image_length(plan) {
        return Err(Refusal::NoRoom);
    }
    written::put_plan(plan, buffer);
    Ok(())
}

// Plans the flowsheet of an image and writes the plan's image into `plan`, or gives the first refusal of 1 to 12 that the table
// gives. A refusal leaves `plan` as it stood; the working memory is left as rule 5 says on every way out.
pub fn plan_image(image: &[u8], plan: &mut [u8], work: &mut [u8]) -> Result<(), Refusal>
    ensures { Planning image.now plan.old work.old (code_of result) plan.new work.new }
{
    let made = plan_read(image, work)?;
    write_plan(&made, plan)
}
