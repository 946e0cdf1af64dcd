// The marks (01, "The sheet"; 02, #105): what each line's mark is, and those of a sheet written and checked.
#![tactic(auto)]

ghost use Rattle.std.specs.Prelude.{◌≡◌, List, [], ◌∷◌, ◌++◌, ℕ, ◌≤◌, ◌<◌, length, drop};
ghost use Rattle.card.specs.Format.{line_count};
ghost use Rattle.card.specs.Verdict.{told, first_of};
ghost use Rattle.card.specs.Inner.Checks.{Framed};
ghost use Rattle.card.specs.Sheet.{marks_of};
ghost use Rattle.scope.specs.Inner.Sets.{word_items};
ghost use Rattle.marks.specs.Marks.{mark_fault};
ghost use Rattle.marks.specs.Inner.Used.{Gathers, mark_by};

use card::format::{byte, line_byte};
use card::{Fault, Place, Refusal, refuse};
use lines::LineWord;

// The set with the line that the step is. A rule is none; an item past the word's 64 (a choice, a lent clause) is left out.
fn with_line(set: LineWord, rules: usize, step: usize) -> LineWord
    ensures { (l : List ℕ) → Gathers l rules set → Gathers (l ++ (step ∷ [])) rules result }
{
    if step < rules {
        set
    } else {
        set.add(step - rules)
    }
}

// The lines that stand in the list: item i for entry rules + i. What is no line has an item past the lines, or none.
fn listed(list: &[u8], rules: usize) -> LineWord
    ensures { Gathers list.now rules result }
{
    let mut used = LineWord::empty();
    for step in list {
        used = with_line(used, rules, usize::from(*step));
    }
    used
}

// The mark of line i, where the lines used stand in the list and those of `sure` are surely used.
fn mark(card: &[u8], used: LineWord, sure: LineWord, i: usize) -> u8
    requires framed { Framed card.now }
    requires a_line { i < line_count card.now }
    ensures { result ≡ mark_by card.now used sure i }
{
    let must = line_byte(card, i) == 1;
    if used.has(i) {
        if sure.has(i) { 1 } else { 3 }
    } else if must {
        2
    } else {
        0
    }
}

// The marks of all lines, where those of `sure` are surely used.
pub fn write_marks(card: &[u8], list: &[u8], sure: LineWord, marks: &mut [u8])
    requires framed { Framed card.now }
    requires room { line_count card.now ≤ length marks.old }
    ensures { marks.new
        ≡ marks_of card.now (word_items card.now sure) list.now
        ++ drop (line_count card.now) marks.old }
{
    let used = listed(list, byte(card, 3));
    for i in 0..byte(card, 4) {
        marks[i] = mark(card, used, sure, i);
    }
}

// 14, by rising index: a mark that is not the true one, where the lines of `sure` are surely used.
pub fn marks_check(card: &[u8], list: &[u8], sure: LineWord, marks: &[u8]) -> Result<(), Refusal>
    requires framed { Framed card.now }
    requires marked { line_count card.now ≤ length marks.now }
    ensures { told result
        ≡ first_of (line_count card.now)
        (mark_fault card.now (word_items card.now sure) list.now marks.now) }
{
    let used = listed(list, byte(card, 3));
    for i in 0..byte(card, 4) {
        let asked = mark(card, used, sure, i);
        refuse(marks[i] != asked, Fault::Mark, Place::Mark(i as u16))?;
    }
    Ok(())
}
