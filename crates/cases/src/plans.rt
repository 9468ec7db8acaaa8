// Plans of images: what planning answers, the plan's image in the lent buffer, and what is left of the buffer and of the working memory.
// Both are lent full of 255, which no byte of these plans' images is.
ghost use Rattle.std.specs.Prelude.{◌≤◌, ◌<◌, length, IfOk};

use crate::images::{self, Numbers};
use crate::report::{self, Listed};
use flowsheet::Stream;
use std::{fmt, io};
use words::Word;

// A plan buffer as long as the longest plan's image.
type Buffer = [u8; 1168];

// A working memory with a byte more than tearing takes.
type Memory = [u8; 65537];

// What planning answers, 0 or a refusal's number, and what it leaves.
#[derive(Clone, Copy, PartialEq)]
struct Outcome {
    number: u32,
    buffer: Buffer,
    memory: Left,
}

// What is left of a lent memory.
#[derive(Clone, Copy, PartialEq)]
enum Left {
    // Its first 65,536 bytes are zero, and the rest as they were lent.
    Cleared,
    // All as it was lent.
    Kept,
    Otherwise,
}

impl Left {
    fn of(memory: &Memory) -> Left {
        let cleared = memory[..65536].iter().all(|byte| *byte == 0);
        let kept = memory[..65536].iter().all(|byte| *byte == 255);
        match (cleared, kept, memory[65536]) {
            (true, _, 255) => Left::Cleared,
            (_, true, 255) => Left::Kept,
            _ => Left::Otherwise,
        }
    }
}

impl fmt::Display for Left {
    fn fmt<W: fmt::Write>(&self, f: &mut fmt::Formatter<W>) -> fmt::Result {
        match self {
            Left::Cleared => write!(f, "memory cleared"),
            Left::Kept => write!(f, "memory kept"),
            Left::Otherwise => write!(f, "memory neither cleared nor kept"),
        }
    }
}

// How many bytes of a buffer were written.
fn written(buffer: &Buffer) -> usize {
    match buffer.iter().rposition(|byte| *byte != 255) {
        Some(last) => last + 1,
        None => 0,
    }
}

// The numbers of 16 bits of a buffer.
fn numbers_in(buffer: &Buffer) -> [u16; 584] {
    let mut numbers = [0; 584];
    for (i, number) in numbers.iter_mut().enumerate() {
        *number = u16::at(buffer, 2 * i);
    }
    numbers
}

// The numbers from one byte offset to another, or none where they don't lie in the row.
fn table(numbers: &[u16], from: u16, to: u16) -> Listed<'_, u16> {
    let places = usize::from(from) / 2..usize::from(to) / 2;
    Listed(numbers.get(places).unwrap_or(&[]))
}

// A plan buffer: how many bytes were written, the header's numbers, and the tables by its offsets.
#[derive(Clone, Copy)]
struct Image<'a>(&'a Buffer);

impl fmt::Display for Image<'_> {
    fn fmt<W: fmt::Write>(&self, f: &mut fmt::Formatter<W>) -> fmt::Result {
        let bytes = written(self.0);
        if bytes == 0 {
            return write!(f, "buffer kept");
        }
        let numbers = numbers_in(self.0);
        let [_, _, _, _, blocks_at, order_at, torn_at, end, ..] = numbers;
        let header = table(&numbers, 0, 16);
        let blocks = table(&numbers, blocks_at, order_at);
        let order = table(&numbers, order_at, torn_at);
        let torn = table(&numbers, torn_at, end);
        write!(
            f,
            "{bytes} bytes: header {header}, blocks {blocks}, order {order}, torn {torn}"
        )
    }
}

impl fmt::Display for Outcome {
    fn fmt<W: fmt::Write>(&self, f: &mut fmt::Formatter<W>) -> fmt::Result {
        let number = self.number;
        let image = Image(&self.buffer);
        let memory = self.memory;
        write!(f, "{number}; {image}; {memory}")
    }
}

impl Outcome {
    // The plan of these numbers at the front of the buffer, or a refusal that leaves the buffer. A working memory of `work` bytes is cleared
    // where it is long enough.
    fn of(answer: Result<&[u16], u32>, work: usize) -> Outcome
        requires { IfOk answer (λ plan. length plan.now ≤ 584) }
    {
        let mut buffer = [255; 1168];
        let number = match answer {
            Ok(plan) => {
                words::put_numbers(&mut buffer, 0, plan);
                0
            }
            Err(number) => number,
        };
        let memory = if work < 65536 {
            Left::Kept
        } else {
            Left::Cleared
        };
        Outcome {
            number,
            buffer,
            memory,
        }
    }
}

// The case of an image, planned with a plan buffer of `room` bytes and `work` bytes of working memory: the numbers of the plan's image,
// or the number that is refused with.
fn planned(
    rt: &impl Print,
    name: &str,
    image: &Numbers,
    room: usize,
    work: usize,
    wanted: Result<&[u16], u32>,
) -> io::Result<()>
    requires lent { (room ≤ 1168) × (work ≤ 65537) }
    requires fits { IfOk wanted (λ plan. length plan.now ≤ 584) }
{
    let numbers = image.items();
    let image = images::lent(numbers);
    let image = &image[..2 * numbers.len()];
    let mut buffer = [255; 1168];
    let mut memory = [255; 65537];
    let number = match planner::plan_image(image, &mut buffer[..room], &mut memory[..work]) {
        Ok(()) => 0,
        Err(refusal) => u32::from(refusal),
    };
    let came = Outcome {
        number,
        buffer,
        memory: Left::of(&memory),
    };
    let wanted = Outcome::of(wanted, work);
    report::line(rt, name, came == wanted, &came, &wanted)
}

// The image of a ring of units.
pub(crate) fn ring(count: u16) -> Numbers
    requires { (0 < count) × (count ≤ 65) }
{
    images::image_of(
        images::first_units(count).items(),
        images::ring(count, count).items(),
    )
}

fn rings(rt: &impl Print) -> io::Result<()> {
    let plan = [
        1, 12, 1, 1, 16, 24, 48, 50, 0, 12, 0, 1, 1, 2, 3, 4, 5, 6, 7, 8, 9, 10, 11, 12, 12,
    ];
    planned(rt, "G, ring of 12", &ring(12), 1168, 65537, Ok(&plan))?;
    planned(rt, "G, ring of 13", &ring(13), 1168, 65537, Err(11))
}

fn empty(rt: &impl Print) -> io::Result<()> {
    let image = images::image_of(&[], &[]);
    let plan = [1, 0, 0, 0, 16, 16, 16, 16];
    planned(rt, "I, empty flowsheet", &image, 1168, 65537, Ok(&plan))
}

// A stream of weight 1.
fn stream(number: u16, source: u16, receiver: u16) -> Stream {
    Stream {
        number,
        source,
        receiver,
        weight: 1,
    }
}

// The image of case A.
pub(crate) fn case_a() -> Numbers {
    let streams = [
        stream(1, 1, 2),
        stream(2, 2, 3),
        stream(3, 3, 4),
        stream(4, 3, 7),
        stream(5, 5, 6),
        stream(6, 6, 2),
        stream(7, 7, 6),
    ];
    images::image_of(images::first_units(7).items(), &streams)
}

// A's plan has 64 bytes: a header of 16, four blocks of 8, seven units of 2 and one torn stream of 2.
fn rooms(rt: &impl Print) -> io::Result<()> {
    let image = case_a();
    let plan = [
        1, 7, 4, 1, 16, 48, 62, 64, 0, 1, 0, 0, 1, 1, 0, 0, 2, 4, 0, 1, 6, 1, 1, 0, 1, 5, 2, 3, 7,
        6, 4, 6,
    ];
    planned(rt, "64 bytes for A's plan", &image, 64, 65537, Ok(&plan))?;
    planned(rt, "63 bytes for A's plan", &image, 63, 65537, Err(12))?;
    planned(rt, "65536 bytes of memory", &image, 64, 65536, Ok(&plan))?;
    planned(rt, "65535 bytes of memory", &image, 64, 65535, Err(12))
}

pub(crate) fn run(rt: &impl Print) -> io::Result<()> {
    rings(rt)?;
    empty(rt)?;
    rooms(rt)
}
