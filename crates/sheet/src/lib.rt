// The sheet (01, "The sheet"): a step list with the card's marks, as bytes.
#![tactic(auto)]

ghost use Rattle.std.specs.Prelude.{◌≡◌, ◌∷◌, ◌++◌, ◌+◌, ◌≤◌, length, drop};
ghost use Rattle.card.specs.Format.{line_count};
ghost use Rattle.card.specs.Inner.Checks.{Framed};
ghost use Rattle.card.specs.Sheet.{word, sheet_of};
ghost use Rattle.scope.specs.Inner.Sets.{word_items};

use card::format::byte;
use lines::LineWord;

// The five bytes before the steps.
fn write_front(k: usize, t: usize, sheet: &mut [u8])
    requires few_steps { k ≤ 255 }
    requires few_lines { t ≤ 64 }
    requires room { 5 ≤ length sheet.old }
    ensures { sheet.new ≡ word (5 + k + t) ++ (1 ∷ k ∷ t ∷ drop 5 sheet.old) }
{
    let long = (5 + k + t) as u16;
    let [high, low] = long.to_be_bytes();
    sheet[..5].copy_from_slice(&[high, low, 1, k as u8, t as u8]);
}

// Writes the sheet of the list, where the lines of `sure` are surely used. Bytes past the sheet keep what they held.
pub fn write(card: &[u8], list: &[u8], sure: LineWord, sheet: &mut [u8])
    requires framed { Framed card.now }
    requires few_steps { length list.now ≤ 255 }
    requires room { 5 + length list.now + line_count card.now ≤ length sheet.old }
    ensures { sheet.new
        ≡ sheet_of card.now (word_items card.now sure) list.now
        ++ drop (5 + length list.now + line_count card.now) sheet.old }
{
    let start = 5 + list.len();
    write_front(list.len(), byte(card, 4), sheet);
    sheet[5..start].copy_from_slice(list);
    marks::write_marks(card, list, sure, &mut sheet[start..]);
}
