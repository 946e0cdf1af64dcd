// The reader (01, "Refused, and where"; 02, #102 and #105): the checks of a card and a sheet in their order. It writes nothing.
#![tactic(auto)]

ghost use Rattle.reader.specs.Read.{told_read, Reading, AcceptsExactly};

use card::Refusal;
use card::format::byte;
use card::sound::Card;

// 12, then 13, 17, 18 and 19, then 14. The steps and the marks are read where they stand in the sheet.
fn read_sheet(card: &Card<'_>, sheet: &[u8]) -> Result<u8, Refusal>
    ensures { Reading card.now sheet.now (told_read result) }
{
    let bytes = card.bytes();
    sheet_front::front_check(bytes, sheet)?;
    let k = byte(sheet, 3);
    let steps = &sheet[5..5 + k];
    let sure = trace::steps_check(bytes, steps, k)?;
    marks::marks_check(bytes, steps, sure, &sheet[5 + k..])?;
    Ok(k as u8)
}

// Reads a sheet against a card: the first that applies of 1 to 9, 12, 13 with 17 and 18, 19 and 14, or how many steps it holds.
pub fn read(card: &[u8], sheet: &[u8]) -> Result<u8, Refusal>
    ensures reading { Reading card.now sheet.now (told_read result) }
    ensures accepts_exactly { AcceptsExactly card.now sheet.now (told_read result) }
{
    let card = checks::sound_card(card)?;
    read_sheet(&card, sheet)
}
