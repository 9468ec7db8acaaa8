// The table of direct links between the units of a flowsheet, by their places in the unit table.
ghost use Rattle.std.specs.Prelude.{◌≡◌};
ghost use Rattle.planner.specs.Links.{links_of};

use flowsheet::Flowsheet;

// The links of all the streams. A stream from or to outside has none.
#[tactic(auto, using(crate::proofs::Ends::ends_held, crate::proofs::Ends::link_both, crate::proofs::Ends::link_apart, crate::proofs::Turns::links_more), unfolding(crate::specs::Links::links_of))]
pub(crate) fn links_of(sheet: &Flowsheet) -> [u64; 64]
    ensures { result ≡ links_of sheet.now.units sheet.now.streams }
{
    let units = sheet.units.items();
    let mut table = [0; 64];
    for stream in sheet.streams.items() {
        if let Some((from, to)) = flowsheet::ends(units, stream) {
            blocks::link(&mut table, from, to);
        }
    }
    table
}
