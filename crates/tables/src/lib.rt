// The table of bounds of a card: filled in, and checked before it is used. Only the check is relied on.
#![tactic(auto)]

mod check;
mod fill;

ghost use Rattle.std.specs.Prelude.{◌≡◌, true, ◌↔◌};
ghost use Rattle.bounds.specs.Inner.Table.{TableHeld, Settled};

// Fills the table of the card in. Whether it is settled, and so may be used. What stands in the three arrays afterwards is free but for that:
// the search asks a settled table alone, and whichever it is, no answer changes.
pub fn prepare(
    card: &[u8],
    names: &mut [u16; 1577],
    table: &mut [u8; 66177],
    masks: &mut [u64; 64],
) -> bool
    requires { TableHeld card.now names.old table.old }
    ensures settled { (result ≡ true) ↔ Settled card.now names.new table.new masks.new }
    ensures held { TableHeld card.now names.new table.new }
{
    fill::build(card, names, table, masks);
    check::settled(card, names, table, masks)
}
