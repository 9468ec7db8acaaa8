// Flowsheets' images with any counts, also over the bounds: the numbers of 16 bits that an image is, its bytes as they are lent, and the
// units and streams that the cases are made of.
ghost use Rattle.std.specs.Prelude.{◌≡◌, ◌+◌, ◌<◌, ◌≤◌, length};
ghost use Rattle.rows.specs.Rows.{table};
ghost use Rattle.cases.specs.Images.{numbers_of, lent_of, outward_stream, ring_stream};

use flowsheet::Stream;
use rows::Row;

// The numbers of an image: the header's eight, those of up to 65 units, and four for each of up to 257 streams.
pub(crate) type Numbers = Row<u16, 1101>;

// The numbers of the image of these units and streams.
#[tactic(auto, unfolding(crate::specs::Images::numbers_of))]
pub(crate) fn image_of(units: &[u16], streams: &[Stream]) -> Numbers
    requires { (length units.now ≤ 65) × (length streams.now ≤ 257) }
    ensures { result ≡ numbers_of units.now streams.now }
{
    let streams_at = 16 + 2 * units.len();
    let total = streams_at + 8 * streams.len();
    let mut numbers = Numbers::new();
    numbers.extend(&[1, units.len() as u16, streams.len() as u16]);
    numbers.extend(&[16, streams_at as u16, total as u16, 0, 0]);
    numbers.extend(units);
    for stream in streams {
        numbers.extend(&[stream.number, stream.source, stream.receiver, stream.weight]);
    }
    numbers
}

// The bytes of numbers at the front of a row, and zero beyond them.
#[tactic(auto, unfolding(crate::specs::Images::lent_of))]
pub(crate) fn lent(numbers: &[u16]) -> [u8; 2202]
    requires { length numbers.now ≤ 1101 }
    ensures { result ≡ lent_of numbers.now }
{
    let mut bytes = [0; 2202];
    words::put_numbers(&mut bytes, 0, numbers);
    bytes
}

// The units 1 to `count`.
#[tactic(auto, using(rows::proofs::Rows::table_more), unfolding(rows::specs::Rows::table))]
pub(crate) fn first_units(count: u16) -> Row<u16, 65>
    requires { count ≤ 65 }
    ensures { result ≡ table (λ i. i + 1) count }
{
    let mut units = Row::new();
    for i in 0..count {
        units.push(i + 1);
    }
    units
}

// The streams 1 to `count`, each from unit 1 to outside.
#[tactic(auto, using(rows::proofs::Rows::table_more), unfolding(rows::specs::Rows::table))]
pub(crate) fn outward(count: u16) -> Row<Stream, 257>
    requires { count ≤ 257 }
    ensures { result ≡ table outward_stream count }
{
    let mut streams = Row::new();
    for i in 0..count {
        streams.push(Stream {
            number: i + 1,
            source: 1,
            receiver: 0,
            weight: 1,
        });
    }
    streams
}

// The first `count` streams of a ring of units, each from the unit of its number to the next, and that of the last unit to unit 1.
#[tactic(auto, using(rows::proofs::Rows::table_more), unfolding(rows::specs::Rows::table))]
pub(crate) fn ring(units: u16, count: u16) -> Row<Stream, 257>
    requires { (0 < units) × (units ≤ 65) × (count ≤ units) }
    ensures { result ≡ table (ring_stream units) count }
{
    let mut streams = Row::new();
    for i in 0..count {
        streams.push(Stream {
            number: i + 1,
            source: i + 1,
            receiver: (i + 1) % units + 1,
            weight: 1,
        });
    }
    streams
}
