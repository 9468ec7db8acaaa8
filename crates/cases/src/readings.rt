// Images at both sides of each bound of the refusals 1 to 10. Each is the image of some units and streams in which one number is
// changed, lent with its own length or another.
ghost use Rattle.std.specs.Prelude.{◌≤◌, IfSome};

use crate::{images, report};
use std::io;
use words::Word;

// A number of an image, by its place among the image's numbers, and what it is changed to.
type Change = (usize, u16);

// The case of the image of so many units and streams, each stream from unit 1 to outside, lent with `length` bytes: what reading it
// answers, 0 or a refusal's number.
fn read(
    rt: &impl Print,
    name: &str,
    counts: (u16, u16),
    change: Option<Change>,
    length: usize,
    wanted: u32,
) -> io::Result<()>
    requires counts { (counts.0 ≤ 65) × (counts.1 ≤ 257) }
    requires inside { (length ≤ 2202) × IfSome change (λ c. c.0 ≤ 1100) }
{
    let units = images::first_units(counts.0);
    let streams = images::outward(counts.1);
    let mut image = images::lent(images::image_of(units.items(), streams.items()).items());
    if let Some((place, number)) = change {
        number.put(&mut image, 2 * place);
    }
    let came = match flowsheet::read(&image[..length]) {
        Ok(_) => 0,
        Err(refusal) => u32::from(refusal),
    };
    report::line(rt, name, came == wanted, &came, &wanted)
}

fn headers(rt: &impl Print) -> io::Result<()> {
    read(rt, "no bytes", (0, 0), None, 0, 1)?;
    read(rt, "15 bytes", (0, 0), None, 15, 1)?;
    read(rt, "16 bytes, nothing held", (0, 0), None, 16, 0)?;
    read(rt, "edition 0", (2, 2), Some((0, 0)), 36, 2)?;
    read(rt, "edition 2", (2, 2), Some((0, 2)), 36, 2)?;
    read(rt, "edition 1", (2, 2), Some((0, 1)), 36, 0)?;
    read(rt, "first spare byte 1", (2, 2), Some((6, 1)), 36, 3)?;
    read(rt, "last spare byte 1", (2, 2), Some((7, 256)), 36, 3)?;
    read(rt, "spare bytes zero", (2, 2), Some((7, 0)), 36, 0)
}

fn counts(rt: &impl Print) -> io::Result<()> {
    read(rt, "65 units", (65, 0), None, 146, 4)?;
    read(rt, "64 units", (64, 0), None, 144, 0)?;
    read(rt, "257 streams", (1, 257), None, 2074, 4)?;
    read(rt, "256 streams", (1, 256), None, 2066, 0)?;
    read(rt, "64 units and 256 streams", (64, 256), None, 2192, 0)
}

fn layouts(rt: &impl Print) -> io::Result<()> {
    read(rt, "units at 15", (2, 2), Some((3, 15)), 36, 5)?;
    read(rt, "units at 17", (2, 2), Some((3, 17)), 36, 5)?;
    read(rt, "streams at 19", (2, 2), Some((4, 19)), 36, 5)?;
    read(rt, "streams at 21", (2, 2), Some((4, 21)), 36, 5)?;
    read(rt, "total 35", (2, 2), Some((5, 35)), 36, 5)?;
    read(rt, "total 37", (2, 2), Some((5, 37)), 36, 5)?;
    read(rt, "lent 35 of 36", (2, 2), None, 35, 5)?;
    read(rt, "lent 37 of 36", (2, 2), None, 37, 5)?;
    read(rt, "lent 36 of 36", (2, 2), None, 36, 0)
}

fn unit_numbers(rt: &impl Print) -> io::Result<()> {
    read(rt, "unit 0", (2, 2), Some((8, 0)), 36, 6)?;
    read(rt, "unit 9999", (2, 0), Some((9, 9999)), 20, 0)?;
    read(rt, "unit 10000", (2, 0), Some((9, 10000)), 20, 6)?;
    read(rt, "unit 1 after unit 1", (2, 2), Some((9, 1)), 36, 6)?;
    read(rt, "unit 2 after unit 1", (2, 2), Some((9, 2)), 36, 0)
}

fn stream_numbers(rt: &impl Print) -> io::Result<()> {
    read(rt, "stream 0", (2, 2), Some((10, 0)), 36, 7)?;
    read(rt, "stream 9999", (2, 2), Some((14, 9999)), 36, 0)?;
    read(rt, "stream 10000", (2, 2), Some((14, 10000)), 36, 7)?;
    read(rt, "stream 1 after stream 1", (2, 2), Some((14, 1)), 36, 7)?;
    read(rt, "stream 2 after stream 1", (2, 2), Some((14, 2)), 36, 0)
}

fn ends(rt: &impl Print) -> io::Result<()> {
    read(rt, "source 3 of 2 units", (2, 2), Some((11, 3)), 36, 8)?;
    read(rt, "source 2 of 2 units", (2, 2), Some((11, 2)), 36, 0)?;
    read(rt, "receiver 3 of 2 units", (2, 2), Some((12, 3)), 36, 8)?;
    read(rt, "receiver 2 of 2 units", (2, 2), Some((12, 2)), 36, 0)?;
    read(rt, "receiver above 9999", (2, 2), Some((12, 65535)), 36, 8)?;
    read(rt, "unit 1 to itself", (2, 2), Some((12, 1)), 36, 0)?;
    read(rt, "both ends outside", (2, 2), Some((11, 0)), 36, 9)
}

fn weights(rt: &impl Print) -> io::Result<()> {
    read(rt, "weight 0", (2, 2), Some((13, 0)), 36, 10)?;
    read(rt, "weight 1", (2, 2), Some((13, 1)), 36, 0)?;
    read(rt, "weight 1000", (2, 2), Some((13, 1000)), 36, 0)?;
    read(rt, "weight 1001", (2, 2), Some((13, 1001)), 36, 10)
}

pub(crate) fn run(rt: &impl Print) -> io::Result<()> {
    headers(rt)?;
    counts(rt)?;
    layouts(rt)?;
    unit_numbers(rt)?;
    stream_numbers(rt)?;
    ends(rt)?;
    weights(rt)
}
