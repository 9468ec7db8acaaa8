// The plan's image, written into a lent buffer: a header of eight numbers and the three tables, one number of 16 bits after the other.
ghost use Rattle.std.specs.Prelude.{◌≡◌, ◌+◌, ◌*◌, ◌≤◌, length};
ghost use Rattle.planner.specs.Image.{plan_header, plan_bytes, plan_length, laid_over};

use crate::Plan;

// The header's eight numbers, of a plan with so many numbers in its tables.
#[tactic(auto, unfolding(crate::specs::Image::plan_header))]
fn header(blocks: usize, order: usize, torn: usize) -> [u16; 8]
    requires { (blocks ≤ 256) × (order ≤ 256) × (torn ≤ 256) }
    ensures { result ≡ plan_header blocks order torn }
{
    let order_at = 16 + 2 * blocks;
    let torn_at = order_at + 2 * order;
    let total = torn_at + 2 * torn;
    [
        1,
        order as u16,
        (blocks / 4) as u16,
        torn as u16,
        16,
        order_at as u16,
        torn_at as u16,
        total as u16,
    ]
}

// How many bytes the image of a plan has.
pub(crate) fn image_length(plan: &Plan) -> usize
    ensures { result ≡ plan_length plan.now }
{
    let blocks = plan.blocks.items();
    let order = plan.order.items();
    let torn = plan.torn.items();
    16 + 2 * blocks.len() + 2 * order.len() + 2 * torn.len()
}

// Writes the image of a plan to the front of a buffer that is long enough; the bytes beyond it stay.
#[tactic(auto, using(crate::proofs::Image::all_written))]
pub(crate) fn put_plan(plan: &Plan, buffer: &mut [u8])
    requires { plan_length plan.now ≤ length buffer.old }
    ensures { buffer.new ≡ laid_over (plan_bytes plan.now) buffer.old }
{
    let blocks = plan.blocks.items();
    let order = plan.order.items();
    let torn = plan.torn.items();
    let order_at = 16 + 2 * blocks.len();
    let torn_at = order_at + 2 * order.len();
    let front = header(blocks.len(), order.len(), torn.len());
    words::put_numbers(buffer, 0, &front);
    words::put_numbers(buffer, 16, blocks);
    words::put_numbers(buffer, order_at, order);
    words::put_numbers(buffer, torn_at, torn);
}
