// Edits of a session: those of the flowsheet A that were worked out on paper, and each refusal of an edit, at both sides of its bound where it has
// one. 25 has no row: no edit of a session that calls could have left is refused with it.
ghost use Rattle.std.specs.Prelude.{◌≤◌, ◌<◌};

use crate::images::{self, Numbers};
use crate::plans;
use crate::report::{self, Listed};
use flowsheet::Stream;
use planner::Plan;
use session::{Edit, Session};
use std::{fmt, io};

// A plan's tables.
#[derive(Clone, Copy)]
struct Tables<'a> {
    blocks: &'a [u16],
    order: &'a [u16],
    torn: &'a [u16],
}

impl Tables<'_> {
    fn are(&self, plan: &Plan) -> bool {
        self.blocks == plan.blocks.items()
            && self.order == plan.order.items()
            && self.torn == plan.torn.items()
    }
}

impl fmt::Display for Tables<'_> {
    fn fmt<W: fmt::Write>(&self, f: &mut fmt::Formatter<W>) -> fmt::Result {
        let blocks = Listed(self.blocks);
        let order = Listed(self.order);
        let torn = Listed(self.torn);
        write!(f, "blocks {blocks}, order {order}, torn {torn}")
    }
}

// A session, and the number that was answered when it was made or edited.
#[derive(Clone, Copy)]
struct Answered {
    number: u32,
    session: Session,
}

// An image, opened over an empty session with so many bytes of working memory.
fn opened_in(numbers: &Numbers, work: usize) -> Answered
    requires { work ≤ 65536 }
{
    let numbers = numbers.items();
    let image = images::lent(numbers);
    let mut session = Session::empty();
    let mut memory = [255; 65536];
    let number = match session.open(&image[..2 * numbers.len()], &mut memory[..work]) {
        Ok(()) => 0,
        Err(refusal) => u32::from(refusal),
    };
    Answered { number, session }
}

// The same with enough memory.
fn opened(numbers: &Numbers) -> Answered {
    opened_in(numbers, 65536)
}

// A session after an edit, with so many bytes of working memory.
fn edited(before: &Session, edit: Edit, work: usize) -> Answered
    requires { work ≤ 65536 }
{
    let mut session = *before;
    let mut memory = [255; 65536];
    let number = match session.edit(edit, &mut memory[..work]) {
        Ok(()) => 0,
        Err(refusal) => u32::from(refusal),
    };
    Answered { number, session }
}

// The case of a session whose plan is wanted.
fn planned(rt: &impl Print, name: &str, came: &Answered, wanted: Tables) -> io::Result<()> {
    let plan = &came.session.plan;
    let right = came.number == 0 && wanted.are(plan);
    let tables = Tables {
        blocks: plan.blocks.items(),
        order: plan.order.items(),
        torn: plan.torn.items(),
    };
    report::line(rt, name, right, &tables, &wanted)
}

// The case of an opening whose number is wanted: 0, or a refusal's, and then the empty session stays.
fn opening(rt: &impl Print, name: &str, image: &Numbers, work: usize, wanted: u32) -> io::Result<()>
    requires { work ≤ 65536 }
{
    let came = opened_in(image, work);
    let stayed = came.number == 0 || came.session == Session::empty();
    let right = came.number == wanted && stayed;
    report::line(rt, name, right, &came.number, &wanted)
}

// The case of an edit whose number is wanted: 0, or a refusal's, and then the session stays.
fn numbered(
    rt: &impl Print,
    name: &str,
    before: &Session,
    edit: Edit,
    work: usize,
    wanted: u32,
) -> io::Result<()>
    requires { work ≤ 65536 }
{
    let came = edited(before, edit, work);
    let stayed = came.number == 0 || came.session == *before;
    let right = came.number == wanted && stayed;
    report::line(rt, name, right, &came.number, &wanted)
}

// The same with enough memory.
fn tried(rt: &impl Print, name: &str, before: &Session, edit: Edit, wanted: u32) -> io::Result<()> {
    numbered(rt, name, before, edit, 65536, wanted)
}

// The edit that adds a stream.
fn stream(number: u16, source: u16, receiver: u16, weight: u16) -> Edit {
    Edit::AddStream(Stream {
        number,
        source,
        receiver,
        weight,
    })
}

// A, E and D. The block of unit 5 is the first one of E, and as it was in A.
fn on_paper(rt: &impl Print, a: &Answered) -> io::Result<()> {
    let plan_a = Tables {
        blocks: &[0, 1, 0, 0, 1, 1, 0, 0, 2, 4, 0, 1, 6, 1, 1, 0],
        order: &[1, 5, 2, 3, 7, 6, 4],
        torn: &[6],
    };
    planned(rt, "A opened", a, plan_a)?;
    let plan_e = Tables {
        blocks: &[0, 1, 0, 0, 1, 6, 0, 1],
        order: &[5, 3, 4, 1, 7, 6, 2],
        torn: &[2],
    };
    let e = edited(&a.session, stream(8, 4, 1, 1), 65536);
    planned(rt, "A with stream 8 from 4 to 1", &e, plan_e)?;
    let back = edited(&e.session, Edit::RemoveStream(8), 65536);
    planned(rt, "and without it again", &back, plan_a)?;
    let plan_d = Tables {
        blocks: &[
            0, 1, 0, 0, 1, 1, 0, 0, 2, 1, 0, 0, 3, 1, 0, 0, 4, 1, 0, 0, 5, 1, 0, 0, 6, 1, 0, 0,
        ],
        order: &[1, 2, 3, 4, 5, 7, 6],
        torn: &[],
    };
    let d = edited(&a.session, Edit::RemoveStream(6), 65536);
    planned(rt, "A without stream 6", &d, plan_d)
}

fn openings(rt: &impl Print) -> io::Result<()> {
    let a = plans::case_a();
    opening(rt, "A opened in 65535 bytes of memory", &a, 65535, 12)?;
    opening(rt, "A opened in 65536 bytes of memory", &a, 65536, 0)?;
    opening(rt, "ring of 12 opened", &plans::ring(12), 65536, 0)?;
    opening(rt, "ring of 13 opened", &plans::ring(13), 65536, 11)
}

fn memories(rt: &impl Print, a: &Session) -> io::Result<()> {
    numbered(rt, "65535 bytes of memory", a, Edit::AddUnit(8), 65535, 12)?;
    numbered(rt, "65536 bytes of memory", a, Edit::AddUnit(8), 65536, 0)?;
    let other = Session {
        plan: Session::empty().plan,
        ..*a
    };
    tried(rt, "A with another plan", &other, Edit::AddUnit(8), 26)
}

fn numbers(rt: &impl Print, a: &Session) -> io::Result<()> {
    let empty = Session::empty();
    tried(rt, "unit 0 added", a, Edit::AddUnit(0), 20)?;
    tried(rt, "unit 1 added", &empty, Edit::AddUnit(1), 0)?;
    tried(rt, "unit 9999 added", a, Edit::AddUnit(9999), 0)?;
    tried(rt, "unit 10000 added", a, Edit::AddUnit(10000), 20)?;
    tried(rt, "unit 7 added, which is held", a, Edit::AddUnit(7), 21)?;
    let one = edited(&empty, Edit::AddUnit(1), 65536).session;
    tried(rt, "stream 0 added", a, stream(0, 4, 1, 1), 20)?;
    tried(rt, "stream 1 added", &one, stream(1, 1, 0, 1), 0)?;
    tried(rt, "stream 9999 added", a, stream(9999, 4, 1, 1), 0)?;
    tried(rt, "stream 10000 added", a, stream(10000, 4, 1, 1), 20)?;
    let held = stream(7, 4, 1, 1);
    tried(rt, "stream 7 added, which is held", a, held, 21)
}

fn rooms(rt: &impl Print) -> io::Result<()> {
    for (name, count, wanted) in [("64th unit", 63, 0), ("65th unit", 64, 22)] {
        let image = images::image_of(images::first_units(count).items(), &[]);
        tried(
            rt,
            name,
            &opened(&image).session,
            Edit::AddUnit(count + 1),
            wanted,
        )?;
    }
    for (name, count, wanted) in [("256th stream", 255, 0), ("257th stream", 256, 22)] {
        let image = images::image_of(&[1], images::outward(count).items());
        let more = stream(count + 1, 1, 0, 1);
        tried(rt, name, &opened(&image).session, more, wanted)?;
    }
    Ok(())
}

fn absent(rt: &impl Print, a: &Session) -> io::Result<()> {
    tried(
        rt,
        "unit 8 removed, which isn't held",
        a,
        Edit::RemoveUnit(8),
        23,
    )?;
    tried(
        rt,
        "stream 8 removed, which isn't held",
        a,
        Edit::RemoveStream(8),
        23,
    )?;
    let weight = Edit::SetWeight {
        stream: 8,
        weight: 1,
    };
    tried(rt, "weight of stream 8, which isn't held", a, weight, 23)?;
    tried(
        rt,
        "unit 1 removed, which has a stream",
        a,
        Edit::RemoveUnit(1),
        24,
    )?;
    let more = edited(a, Edit::AddUnit(8), 65536).session;
    tried(
        rt,
        "unit 8 removed, which has none",
        &more,
        Edit::RemoveUnit(8),
        0,
    )
}

fn streams(rt: &impl Print, a: &Session) -> io::Result<()> {
    tried(rt, "source 8 of 7 units", a, stream(8, 8, 1, 1), 8)?;
    tried(rt, "receiver 8 of 7 units", a, stream(8, 1, 8, 1), 8)?;
    tried(rt, "both ends outside", a, stream(8, 0, 0, 1), 9)?;
    tried(rt, "one end outside", a, stream(8, 4, 0, 1), 0)?;
    tried(rt, "weight 0", a, stream(8, 4, 0, 0), 10)?;
    tried(rt, "weight 1000", a, stream(8, 4, 0, 1000), 0)?;
    tried(rt, "weight 1001", a, stream(8, 4, 0, 1001), 10)
}

fn weights(rt: &impl Print, a: &Session) -> io::Result<()> {
    for (name, weight, wanted) in [
        ("stream 6 weighs 0", 0, 10),
        ("stream 6 weighs 1, as before", 1, 0),
        ("stream 6 weighs 1000", 1000, 0),
        ("stream 6 weighs 1001", 1001, 10),
    ] {
        let edit = Edit::SetWeight { stream: 6, weight };
        tried(rt, name, a, edit, wanted)?;
    }
    Ok(())
}

// A chain of units that is closed to a ring.
fn closed(rt: &impl Print, name: &str, count: u16, wanted: u32) -> io::Result<()>
    requires { (0 < count) × (count ≤ 65) }
{
    let chain = images::image_of(
        images::first_units(count).items(),
        images::ring(count, count - 1).items(),
    );
    let last = stream(count, count, 1, 1);
    tried(rt, name, &opened(&chain).session, last, wanted)
}

pub(crate) fn run(rt: &impl Print) -> io::Result<()> {
    let a = opened(&plans::case_a());
    on_paper(rt, &a)?;
    openings(rt)?;
    memories(rt, &a.session)?;
    numbers(rt, &a.session)?;
    rooms(rt)?;
    absent(rt, &a.session)?;
    streams(rt, &a.session)?;
    weights(rt, &a.session)?;
    closed(rt, "ring of 12 closed", 12, 0)?;
    closed(rt, "ring of 13 closed", 13, 11)
}
