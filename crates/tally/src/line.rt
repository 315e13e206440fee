// The taking of one line, and what is written of it.
ghost use Rattle.std.specs.Prelude.{◌≡◌, ℕ, ◌+◌, ◌<◌, List, ◌++◌, length, IfOk, Err, string_bytes};
ghost use Rattle.reading.specs.Line.{most_left};
ghost use Rattle.tally.specs.Desks.{desk_of};
ghost use Rattle.tally.specs.Taking.{Taken, Written};

use crate::answer::Answer;
use crate::desk::Desk;
use crate::fault::SheetFault;
use crate::memory::NoMemory;
use forms::judge;
use reading::Reader;
use std::alloc::Global;

// A line is read whole, then judged, then run.
pub(crate) fn take_line(
    desk: &mut Desk,
    reader: &mut Reader<'_>,
    heap: Global,
) -> Result<Answer, SheetFault>
    ensures taken { Taken (desk_of desk.old) reader.old.line reader.old.rest.now result (desk_of desk.new) reader.new.line reader.new.rest.now }
    ensures long { most_left < reader.old.line + length reader.old.rest.now → result ≡ Err SheetFault.TooLong }
{
    let tokens = reader.read_line(heap)?;
    let order = judge(tokens.as_slice())?;
    Ok(desk.follow(order)?)
}

// Writes what a line came to, and says whether the sheet goes on.
pub(crate) fn put_taken(
    out: &mut String,
    line: u32,
    taken: &Result<Answer, SheetFault>,
) -> Result<bool, NoMemory>
    ensures { IfOk result (λ goes. (text : List ℕ) × (string_bytes out.new ≡ string_bytes out.old ++ text) × Written line taken.now text goes) }
{
    match taken {
        Ok(answer) => {
            write!(out, "{answer}")?;
            Ok(true)
        }
        Err(fault) => {
            let told = fault.told(line).ok_or(NoMemory)?;
            write!(out, "{told}")?;
            Ok(fault.goes_on())
        }
    }
}
