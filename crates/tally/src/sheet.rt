// The whole sheet.
ghost use Rattle.std.specs.Prelude.{◌≡◌, IfOk, string_bytes};
ghost use Rattle.tally.specs.Sheets.{sheet_text};

use crate::desk::Desk;
use crate::line::{put_taken, take_line};
use crate::memory::NoMemory;
use reading::Reader;
use std::alloc::Global;

// The text that a sheet writes, for bytes of any number and any kind.
pub fn write_up(sheet: &[u8], heap: Global) -> Result<String, NoMemory>
    ensures { IfOk result (λ text. string_bytes text ≡ sheet_text sheet.now) }
{
    let mut out = String::new(heap);
    let mut reader = Reader::new(sheet);
    let mut desk = Desk::Bare;
    while let Some(line) = reader.next_line() {
        let taken = take_line(&mut desk, &mut reader, heap);
        if !put_taken(&mut out, line, &taken)? {
            break;
        }
    }
    Ok(out)
}
