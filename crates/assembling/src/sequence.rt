// All operators, in order.
ghost use Rattle.std.specs.Prelude.{◌≤◌, length, take};
ghost use Rattle.assembling.specs.Inner.Assembles.{assembled_in, ForTwins, Assembles, Twinned, AssembledAll};

use crate::operator::{Recorded, assemble_operator};
use formula_builder::read_row;
use rule_writer::{Frame, NoRoom, find_places};

// Writes the rules and the rows of the first count operators into tables that are all 0, the places of the twins being known; stops at the
// first operator whose rules have no room. Answers how many effect rows stand. Nothing is built: one step for each change that was recorded.
fn assemble_placed(
    recorded: &Recorded<'_>,
    operators: &[u16],
    count: usize,
    out: &mut [u16],
    written: &mut [u16],
) -> Result<usize, NoRoom>
    requires { Assembles recorded.now.frame operators.now recorded.now.records.now count out.old written.old × (recorded.now.frame.variables ≤ length recorded.now.places.now) }
    ensures { ForTwins recorded.now.frame recorded.now.places.now (λ twins. AssembledAll (assembled_in recorded.now.frame.variables twins operators.now recorded.now.records.now count) recorded.now.frame.room count out.new written.new result) }
{
    let mut rows = 1;
    let mut k = 0;
    for o in 0..count {
        let w = read_row(recorded.records, o);
        rows = assemble_operator(recorded, operators, w, o, k, rows, out, written)?;
        k = w.a as usize;
    }
    Ok(rows)
}

// The same, once the places of the twins are found. V + W steps more.
pub fn assemble_operators(
    operators: &[u16],
    records: &[u16],
    originals: &[u16],
    count: usize,
    frame: Frame,
    out: &mut [u16],
    written: &mut [u16],
) -> Result<usize, NoRoom>
    requires { Assembles frame operators.now records.now count out.old written.old × Twinned frame originals.now }
    ensures { AssembledAll (assembled_in frame.variables (take frame.twins originals.now) operators.now records.now count) frame.room count out.new written.new result }
{
    let mut places = [0u16; 512];
    find_places(originals, &mut places, frame.variables, frame.twins);
    let recorded = Recorded {
        records,
        places: &places,
        frame,
    };
    assemble_placed(&recorded, operators, count, out, written)
}
