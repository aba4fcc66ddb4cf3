// A whole text: a sum up to the end, its clauses on a sheet of this call's own, and then packed in front of the bytes
// that are lent. So a refused text has touched none of them.
ghost use Rattle.std.specs.Prelude.{◌≡◌, ◌*◌, take};
ghost use Rattle.packing.specs.Packing.{bytes_of};
ghost use Rattle.promises.specs.Faults.{in_front};
ghost use Rattle.formula.specs.Says.{TextSays};
ghost use Rattle.formula.specs.Sheets.{IsBlank};
ghost use Rattle.formula.specs.Texts.{ReadsText, CanPack};

use crate::parts::sum;
use crate::sheet::Sheet;
use crate::text::Stop;
use faults::Fault;
use packing::pack;
use tape::{CLAUSE_BYTES, CLAUSE_NUMBERS, FIRST_CLAUSES, FIRST_SLOTS, HEAD_BYTES};

// "The lent buffer has 10,248 bytes, else 14 comes first."
const TAPE_ROOM: usize = 10248;

// A sum, and the end of the text.
fn whole(text: &[u8], sheet: &mut Sheet) -> Result<(), Stop>
    requires { IsBlank sheet.old }
    ensures { ReadsText text.now sheet.new result }
{
    let end = sum(text, sheet, 0, 0, 0)?;
    if end < text.len() {
        return Err(Stop::Breaks(end));
    }
    Ok(())
}

// The clauses are accepted, so that packing refuses none. The bytes after the tape stay.
fn write_tape(sheet: &Sheet, out: &mut [u8])
    requires { CanPack sheet.now out.old }
    ensures { out.new
        ≡ in_front (bytes_of sheet.now.slots (take (5 * sheet.now.count) sheet.now.list)) out.old }
{
    let numbers = CLAUSE_NUMBERS * sheet.count;
    let length = HEAD_BYTES + CLAUSE_BYTES * sheet.count;
    let slots = sheet.slots as u32;
    let _ = pack(slots, &sheet.list[..numbers], &mut out[..length]);
}

// 14, then 17 or 18, then 19.
pub fn read_text(text: &[u8], out: &mut [u8]) -> Result<(), Fault>
    ensures { TextSays text.now out.old out.new result }
{
    if out.len() != TAPE_ROOM {
        return Err(Fault::OutputLength);
    }
    let mut sheet = Sheet::blank();
    whole(text, &mut sheet)?;
    if FIRST_CLAUSES < sheet.count || FIRST_SLOTS < sheet.slots {
        return Err(Fault::LongFormula);
    }
    write_tape(&sheet, out);
    Ok(())
}
