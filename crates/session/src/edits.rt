// The edits of a flowsheet by itself: what each is refused with for the flowsheet's sake, and the flowsheet after it.
ghost use Rattle.std.specs.Prelude.{◌≡◌, OnOk, OnErr};
ghost use Rattle.session.specs.Answer.{number_of, code_of, large_number};
ghost use Rattle.session.specs.Edited.{edited, stream_place, unit_turn, stream_turn};
ghost use Rattle.session.specs.Refused.{add_fault, ends_at, touched, fault_of};
ghost use Rattle.session.specs.declared.Edit.TheVariants.{AddUnit, RemoveUnit, AddStream, RemoveStream, SetWeight};

use crate::{Edit, Refusal};
use flowsheet::{Flowsheet, Stream};

// The place of the stream of that number.
#[tactic(auto, unfolding(crate::specs::Edited::stream_place))]
fn stream_place(streams: &[Stream], number: u16) -> Option<usize>
    ensures { result ≡ stream_place streams.now number }
{
    streams.iter().position(|stream| stream.number == number)
}

// The place where a unit of that number goes: before the first whose number is above it, or behind them all.
#[tactic(auto, using(crate::proofs::Places::first_or_end), unfolding(crate::specs::Edited::unit_turn))]
fn unit_turn(units: &[u16], number: u16) -> usize
    ensures { result ≡ unit_turn units.now number }
{
    units
        .iter()
        .position(|unit| number < *unit)
        .unwrap_or(units.len())
}

// The place where a stream of that number goes.
#[tactic(auto, using(crate::proofs::Places::first_or_end), unfolding(crate::specs::Edited::stream_turn))]
fn stream_turn(streams: &[Stream], number: u16) -> usize
    ensures { result ≡ stream_turn streams.now number }
{
    streams
        .iter()
        .position(|stream| number < stream.number)
        .unwrap_or(streams.len())
}

// Whether a stream leaves or enters the unit of that number.
fn ends_at(stream: &Stream, number: u16) -> bool
    ensures { result ≡ ends_at number stream.now }
{
    stream.source == number || stream.receiver == number
}

// Whether some stream does.
#[tactic(auto, unfolding(crate::specs::Refused::touched))]
fn touched(streams: &[Stream], number: u16) -> bool
    ensures { result ≡ touched streams.now number }
{
    streams.iter().any(|stream| ends_at(stream, number))
}

// What is asked of the number of a unit or a stream to be added: 1 to 9,999, not yet held, and room for it.
#[tactic(auto, unfolding(crate::specs::Refused::add_fault))]
fn check_number(number: u16, held: bool, count: usize, most: usize) -> Result<(), Refusal>
    ensures { code_of result ≡ add_fault number held count most }
{
    if number < 1 || 9999 < number {
        return Err(Refusal::Number);
    }
    if held {
        return Err(Refusal::Held);
    }
    if most <= count {
        return Err(Refusal::Full);
    }
    Ok(())
}

#[tactic(auto, using(crate::proofs::Places::unit_turn_most, crate::proofs::Refused::add_room), unfolding(crate::specs::Refused::fault_of, crate::specs::Edited::edited))]
fn add_unit(sheet: &mut Flowsheet, number: u16) -> Result<(), Refusal>
    ensures number { code_of result ≡ fault_of (AddUnit number) sheet.old }
    ensures sheet { OnOk result (sheet.new ≡ edited (AddUnit number) sheet.old) }
    ensures stays { OnErr result (sheet.new ≡ sheet.old) }
{
    let units = sheet.units.items();
    let held = flowsheet::place_of(units, number).is_some();
    check_number(number, held, units.len(), 64)?;
    let at = unit_turn(units, number);
    sheet.units.insert(at, number);
    Ok(())
}

#[tactic(auto, using(crate::proofs::Places::unit_below), unfolding(crate::specs::Refused::fault_of, crate::specs::Edited::edited))]
fn remove_unit(sheet: &mut Flowsheet, number: u16) -> Result<(), Refusal>
    ensures number { code_of result ≡ fault_of (RemoveUnit number) sheet.old }
    ensures sheet { OnOk result (sheet.new ≡ edited (RemoveUnit number) sheet.old) }
    ensures stays { OnErr result (sheet.new ≡ sheet.old) }
{
    let Some(at) = flowsheet::place_of(sheet.units.items(), number) else {
        return Err(Refusal::NotHeld);
    };
    if touched(sheet.streams.items(), number) {
        return Err(Refusal::InUse);
    }
    sheet.units.remove(at);
    Ok(())
}

#[tactic(auto, using(crate::proofs::Places::stream_turn_most, crate::proofs::Refused::add_room), unfolding(crate::specs::Refused::fault_of, crate::specs::Edited::edited))]
fn add_stream(sheet: &mut Flowsheet, stream: Stream) -> Result<(), Refusal>
    ensures number { code_of result ≡ fault_of (AddStream stream) sheet.old }
    ensures sheet { OnOk result (sheet.new ≡ edited (AddStream stream) sheet.old) }
    ensures stays { OnErr result (sheet.new ≡ sheet.old) }
{
    let streams = sheet.streams.items();
    let held = stream_place(streams, stream.number).is_some();
    check_number(stream.number, held, streams.len(), 256)?;
    flowsheet::check_stream(sheet.units.items(), &stream)?;
    let at = stream_turn(streams, stream.number);
    sheet.streams.insert(at, stream);
    Ok(())
}

#[tactic(auto, using(crate::proofs::Places::stream_below), unfolding(crate::specs::Refused::fault_of, crate::specs::Edited::edited))]
fn remove_stream(sheet: &mut Flowsheet, number: u16) -> Result<(), Refusal>
    ensures number { code_of result ≡ fault_of (RemoveStream number) sheet.old }
    ensures sheet { OnOk result (sheet.new ≡ edited (RemoveStream number) sheet.old) }
    ensures stays { OnErr result (sheet.new ≡ sheet.old) }
{
    let Some(at) = stream_place(sheet.streams.items(), number) else {
        return Err(Refusal::NotHeld);
    };
    sheet.streams.remove(at);
    Ok(())
}

#[tactic(auto, using(crate::proofs::Places::stream_below), unfolding(crate::specs::Refused::fault_of, crate::specs::Edited::edited))]
fn set_weight(sheet: &mut Flowsheet, number: u16, weight: u16) -> Result<(), Refusal>
    ensures number { code_of result ≡ fault_of (SetWeight number weight) sheet.old }
    ensures sheet { OnOk result (sheet.new ≡ edited (SetWeight number weight) sheet.old) }
    ensures stays { OnErr result (sheet.new ≡ sheet.old) }
{
    let streams = sheet.streams.items();
    let Some(at) = stream_place(streams, number) else {
        return Err(Refusal::NotHeld);
    };
    flowsheet::check_weight(weight)?;
    let stream = streams[at];
    sheet.streams.set(at, Stream { weight, ..stream });
    Ok(())
}

// Makes an edit of a flowsheet, or gives the first number that refuses it for the flowsheet's sake: all but 11 and 25.
pub(crate) fn edit(sheet: &mut Flowsheet, edit: Edit) -> Result<(), Refusal>
    ensures number { code_of result ≡ fault_of edit sheet.old }
    ensures sheet { OnOk result (sheet.new ≡ edited edit sheet.old) }
    ensures stays { OnErr result (sheet.new ≡ sheet.old) }
{
    match edit {
        Edit::AddUnit(number) => add_unit(sheet, number),
        Edit::RemoveUnit(number) => remove_unit(sheet, number),
        Edit::AddStream(stream) => add_stream(sheet, stream),
        Edit::RemoveStream(number) => remove_stream(sheet, number),
        Edit::SetWeight { stream, weight } => set_weight(sheet, stream, weight),
    }
}

// The refusal of an edit after which a block has over 12 units: 11, or 25 where it adds no stream.
pub(crate) fn large(edit: Edit) -> Refusal
    ensures { number_of result ≡ large_number edit }
{
    match edit {
        Edit::AddStream(_) => Refusal::LargeBlock,
        _ => Refusal::LargeAfter,
    }
}
