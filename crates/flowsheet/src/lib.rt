// A flowsheet as a value, and reading its image: the flowsheet, or exactly one of the refusals 1 to 10.
#![tactic(auto)]

ghost use Rattle.std.specs.Prelude.{◌≡◌, ◌↔◌, true, ℕ, List, ◌+◌, ◌*◌, ◌≤◌, length, take, [], Some, None, if◌then◌else◌};
ghost use Rattle.std.specs.Result.{result_map_both};
ghost use Rattle.words.specs.Words.{number_at};
ghost use Rattle.flowsheet.specs.Sheet.{no_stream, sheet_of, place_of, ends_of, known_end, in_turn, weight_fault, stream_fault};
ghost use Rattle.flowsheet.specs.Answers.{number_of, fault_of, numbered, reading};
ghost use Rattle.flowsheet.specs.Good.{GoodSheet, rows_good, is_good};
ghost use Rattle.flowsheet.specs.Image.{header_of, laid_out, stream_held, fault_at, table_read, reading_of};

use rows::{Blank, Row};
use std::marker::Model;
use words::Word;

// A stream: its number, the unit that it leaves and the unit that it enters, and its weight. An end is 0 for outside, as in the image and in
// `stream_fault`.
#[derive(Clone, Copy, Debug, PartialEq, Eq)]
pub struct Stream {
    pub number: u16,
    pub source: u16,
    pub receiver: u16,
    pub weight: u16,
}

// What stands in a place beyond the streams.
impl Blank for Stream {
    ghost blank = { no_stream };

    fn blank() -> Stream {
        Stream {
            number: 0,
            source: 0,
            receiver: 0,
            weight: 0,
        }
    }
}

// Units, by number.
pub type Units = Row<u16, 64>;

// Streams, in the order of their numbers.
pub type Streams = Row<Stream, 256>;

#[derive(Clone, Copy, PartialEq)]
pub struct Flowsheet {
    pub units: Units,
    pub streams: Streams,
}

// A clause sees the two tables as they stand. That they are a value of their own lets a flowsheet be used again after it was handed on by value.
impl Model for Flowsheet {
    ghost use Rattle.flowsheet.specs.Tables.{Tables};

    ghost Value = { Tables };

    ghost view = { λ sheet. record { units = sheet.units; streams = sheet.streams } };

    ghost inverse = { λ tables. record { units = tables.units; streams = tables.streams } };
}

// Why an image is refused.
#[derive(Clone, Copy, Debug, PartialEq, Eq)]
pub enum Refusal {
    // 1: fewer than 16 bytes
    Short = 1,
    // 2: edition not 1
    Edition = 2,
    // 3: a spare byte not zero
    Spare = 3,
    // 4: U over 64 or S over 256
    Counts = 4,
    // 5: offsets, total or lent length differ from the counts
    Layout = 5,
    // 6: unit number out of range or not rising
    UnitNumber = 6,
    // 7: stream number out of range or not rising
    StreamNumber = 7,
    // 8: an end that is neither 0 nor a known unit
    End = 8,
    // 9: both ends 0
    Outside = 9,
    // 10: weight out of range
    Weight = 10,
}

impl From<Refusal> for u32 {
    ghost from_gives = { λ refusal number. number ≡ number_of refusal };

    fn from(refusal: Refusal) -> u32 {
        refusal as u32
    }
}

// How many units at the front are passed by, eight by eight, since none of them has that number. (What is left is searched one by one.)
fn passed(units: &[u16], number: u16) -> usize
    ensures few { result ≤ length units.now }
    ensures none { place_of (take result units.now) number ≡ None }
{
    for i in 0..units.len() / 8 {
        if units[8 * i..8 * i + 8].contains(&number) {
            return 8 * i;
        }
    }
    units.len() / 8 * 8
}

// The place of the unit of that number, searched one by one.
#[tactic(auto, unfolding(crate::specs::Sheet::place_of))]
fn searched(units: &[u16], number: u16) -> Option<usize>
    ensures { result ≡ place_of units.now number }
{
    units.iter().position(|unit| *unit == number)
}

// The place of the unit of that number in the unit table.
#[tactic(auto, using(crate::proofs::Places::past_within))]
pub fn place_of(units: &[u16], number: u16) -> Option<usize>
    ensures { result ≡ place_of units.now number }
{
    let before = passed(units, number);
    let place = searched(&units[before..], number)?;
    Some(before + place)
}

// The places of a stream's source and receiver, where both are units.
#[tactic(auto, unfolding(crate::specs::Sheet::ends_of))]
pub fn ends(units: &[u16], stream: &Stream) -> Option<(usize, usize)>
    ensures { result ≡ ends_of units.now stream.now }
{
    let source = place_of(units, stream.source)?;
    let receiver = place_of(units, stream.receiver)?;
    Some((source, receiver))
}

// Whether an end is outside, or a unit of the table.
#[tactic(auto, unfolding(crate::specs::Sheet::known_end))]
fn known_end(units: &[u16], end: u16) -> bool
    ensures { result ≡ known_end units.now end }
{
    end == 0 || place_of(units, end).is_some()
}

// Whether a number is 1 to 9,999 and above the one before it.
fn in_turn(number: u16, last: u16) -> bool
    ensures { result ≡ in_turn number last }
{
    1 <= number && number <= 9999 && last < number
}

// Nothing where a weight is in range, else `Refusal::Weight`.
#[tactic(auto, unfolding(crate::specs::Sheet::weight_fault))]
pub fn check_weight(weight: u16) -> Result<(), Refusal>
    ensures { fault_of result ≡ weight_fault weight }
{
    if weight < 1 || 1000 < weight {
        return Err(Refusal::Weight);
    }
    Ok(())
}

// Nothing where a stream's ends and weight are good, else `Refusal::End`, `Outside` or `Weight`, the first that holds.
#[tactic(auto, unfolding(crate::specs::Sheet::stream_fault))]
pub fn check_stream(units: &[u16], stream: &Stream) -> Result<(), Refusal>
    ensures { fault_of result ≡ stream_fault units.now stream.now }
{
    if !known_end(units, stream.source) || !known_end(units, stream.receiver) {
        return Err(Refusal::End);
    }
    if stream.source == 0 && stream.receiver == 0 {
        return Err(Refusal::Outside);
    }
    check_weight(stream.weight)
}

// How many units and streams follow a header.
#[derive(Clone, Copy)]
struct Header {
    units: usize,
    streams: usize,
}

// Whether the offsets, the total and the lent length are those of the counts.
#[tactic(auto, unfolding(crate::specs::Image::laid_out))]
fn laid_out(image: &[u8], units: usize, streams: usize) -> bool
    requires { (16 ≤ length image.now) × (units ≤ 64) × (streams ≤ 256) }
    ensures { result ≡ laid_out image.now units streams }
{
    let streams_at = 16 + 2 * units;
    let total = streams_at + 8 * streams;
    usize::from(u16::at(image, 6)) == 16
        && usize::from(u16::at(image, 8)) == streams_at
        && usize::from(u16::at(image, 10)) == total
        && image.len() == total
}

// The header of an image: its counts, or the first of 1 to 5.
#[tactic(auto, unfolding(crate::specs::Image::header_of, crate::specs::Image::header_number))]
fn read_header(image: &[u8]) -> Result<Header, Refusal>
    ensures { numbered result ≡ header_of image.now }
{
    if image.len() < 16 {
        return Err(Refusal::Short);
    }
    if u16::at(image, 0) != 1 {
        return Err(Refusal::Edition);
    }
    if u32::at(image, 12) != 0 {
        return Err(Refusal::Spare);
    }
    let units = usize::from(u16::at(image, 2));
    let streams = usize::from(u16::at(image, 4));
    if 64 < units || 256 < streams {
        return Err(Refusal::Counts);
    }
    if !laid_out(image, units, streams) {
        return Err(Refusal::Layout);
    }
    Ok(Header { units, streams })
}

// A record of one of the two tables.
trait Record: Blank {
    ghost WIDTH: { ℕ };

    ghost OUT_OF_TURN: { ℕ };

    ghost held: { List ℕ → ℕ → Self };

    ghost number: { Self → ℕ };

    ghost fault: { List ℕ → Self → ℕ };

    // How many bytes it has.
    const WIDTH: usize;

    // The record whose bytes begin at `at`.
    fn read(image: &[u8], at: usize) -> Self
        requires { at + WIDTH ≤ length image.now }
        ensures { result ≡ held image.now at };

    fn number(self) -> u16
        ensures { result ≡ number self };

    // The refusal of a number that is out of range or not rising.
    fn out_of_turn() -> Refusal
        ensures { number_of result ≡ OUT_OF_TURN };

    // Whether all else is good.
    fn check(self, units: &[u16]) -> Result<(), Refusal>
        ensures { fault_of result ≡ fault units.now self };
}

// A unit record is its number.
impl Record for u16 {
    ghost WIDTH = { 2 };

    ghost OUT_OF_TURN = { 6 };

    ghost held = { number_at 2 };

    ghost number = { λ unit. unit };

    ghost fault = { λ units unit. 0 };

    const WIDTH: usize = 2;

    fn read(image: &[u8], at: usize) -> u16 {
        u16::at(image, at)
    }

    fn number(self) -> u16 {
        self
    }

    fn out_of_turn() -> Refusal {
        Refusal::UnitNumber
    }

    fn check(self, _units: &[u16]) -> Result<(), Refusal> {
        Ok(())
    }
}

// A stream record is number, source, receiver, weight.
impl Record for Stream {
    ghost WIDTH = { 8 };

    ghost OUT_OF_TURN = { 7 };

    ghost held = { stream_held };

    ghost number = { λ stream. stream.number };

    ghost fault = { stream_fault };

    const WIDTH: usize = 8;

    #[tactic(auto, unfolding(crate::specs::Image::stream_held))]
    fn read(image: &[u8], at: usize) -> Stream {
        Stream {
            number: u16::at(image, at),
            source: u16::at(image, at + 2),
            receiver: u16::at(image, at + 4),
            weight: u16::at(image, at + 6),
        }
    }

    fn number(self) -> u16 {
        self.number
    }

    fn out_of_turn() -> Refusal {
        Refusal::StreamNumber
    }

    fn check(self, units: &[u16]) -> Result<(), Refusal> {
        check_stream(units, &self)
    }
}

// The record at `at`, where its number is in turn after the number `last`.
fn read_record<R: Record>(image: &[u8], at: usize, last: u16) -> Option<R>
    requires { at + R.WIDTH ≤ length image.now }
    ensures { let record_there = R.held image.now at in
        result ≡ (if in_turn (R.number record_there) last then Some record_there else None) }
{
    let record = R::read(image, at);
    if in_turn(record.number(), last) {
        Some(record)
    } else {
        None
    }
}

// Reads the records of a table in order into a row that has none; it stops at the first that is refused. (A row that is handed back in a `Result`
// is blanked once more and copied at each `?`.)
fn read_table<R: Record, const N: usize>(
    image: &[u8],
    start: usize,
    count: usize,
    units: &[u16],
    records: &mut Row<R, N>,
) -> Result<(), Refusal>
    requires room { count ≤ N }
    requires inside { start + R.WIDTH * count ≤ length image.now }
    requires none { records.old ≡ [] }
    ensures { let at = λ (i : ℕ). R.held image.now (start + R.WIDTH * i) in
        let read = result_map_both (λ done. records.new) number_of result in
        read ≡ table_read (fault_at R.number R.OUT_OF_TURN (R.fault units.now) at) at count }
{
    // below every number that is in turn, as `before` of the definitions has it
    let mut last = 0;
    for i in 0..count {
        let Some(record) = read_record::<R>(image, start + R::WIDTH * i, last) else {
            return Err(R::out_of_turn());
        };
        record.check(units)?;
        last = record.number();
        records.push(record);
    }
    Ok(())
}

// Whether the numbers of a table's records are in turn and all else in them is good.
fn all_good<R: Record>(records: &[R], units: &[u16]) -> bool
    ensures { result ≡ rows_good R.number (R.fault units.now) 0 records.now }
{
    // below every number that is in turn, as in `read_table`
    let mut last = 0;
    for record in records {
        if !in_turn(record.number(), last) || record.check(units).is_err() {
            return false;
        }
        last = record.number();
    }
    true
}

// Whether a flowsheet could have been read: its image would be accepted.
pub fn is_good(sheet: &Flowsheet) -> bool
    ensures tested { result ≡ is_good sheet.now.units sheet.now.streams }
    ensures exactly { (result ≡ true) ↔ GoodSheet sheet.now }
{
    let units = sheet.units.items();
    let streams = sheet.streams.items();
    all_good(units, &[]) && all_good(streams, units)
}

// A flowsheet of no units and no streams.
#[tactic(auto, unfolding(crate::specs::Sheet::sheet_of))]
pub fn empty() -> Flowsheet
    ensures { result ≡ sheet_of [] [] }
{
    Flowsheet {
        units: Row::new(),
        streams: Row::new(),
    }
}

// Reads an image: the flowsheet, or the first of the refusals 1 to 10 that the table gives. Every row of bytes is
// answered, and the image stays as it stood.
pub fn read(image: &[u8]) -> Result<Flowsheet, Refusal>
    ensures { reading result ≡ reading_of image.now }
{
    let header = read_header(image)?;
    let mut units = Units::new();
    read_table(image, 16, header.units, &[], &mut units)?;
    let mut streams = Streams::new();
    read_table(
        image,
        16 + 2 * header.units,
        header.streams,
        units.items(),
        &mut streams,
    )?;
    Ok(Flowsheet { units, streams })
}
