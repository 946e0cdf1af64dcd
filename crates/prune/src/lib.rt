// Prunings: what the engine asks before it searches a branch, and what it tells of a dead end. The table of bounds says which agendas are
// hopeless, the memory which were found dead. A first run has neither: it counts its dead ends and gives up after so many.
#![tactic(auto)]

ghost use Rattle.std.specs.Prelude.{ℕ, List, ◌≡◌, ◌-◌, true, ◌↔◌, ⊤, IfSome};
ghost use Rattle.card.specs.Fault.{Sound};
ghost use Rattle.entries.specs.Inner.Entries.{scope_in};
ghost use Rattle.dead.specs.Inner.Barren.{BarrenIn};
ghost use Rattle.prune.specs.Inner.Prune.{job_count, PruneAsks, SettledTable, StockedWith, Doom};

use branch::Branch;
use card::format::byte;

// What prunes a search.
pub trait Prune {
    // what it is stocked with, of the card
    ghost stocked: { Self → List ℕ → Type 0 };

    // that a run may give up
    ghost gives_up: { Type 0 };

    // Whether nothing is to be found for the agenda. `false` is free: it claims nothing of the agenda.
    fn doomed(&self, card: &[u8], nodes: &[u16; 256], agenda: &[u16; 104], b: Branch) -> bool
        requires prune_asks { PruneAsks card.now nodes.now agenda.now b }
        requires stocked { stocked self.now card.now }
        ensures { result ≡ true → Doom card.now nodes.now agenda.now b };

    // A dead end, on which no floor bore if it is open. Whether the search gives up.
    fn dead_end(
        &mut self,
        card: &[u8],
        nodes: &[u16; 256],
        agenda: &[u16; 104],
        open: bool,
        b: Branch,
    ) -> bool
        requires prune_asks { PruneAsks card.now nodes.now agenda.now b }
        requires stocked { stocked self.old card.now }
        requires barren_in { «open» ≡ true → BarrenIn card.now (scope_in card.now nodes.now b.count) agenda.now b }
        ensures stocked { stocked self.new card.now }
        ensures first_run { result ≡ true → gives_up };
}

// Whether nothing is lent: the scope is the job's.
fn unlent(card: &[u8], count: usize) -> bool
    requires { Sound card.now }
    ensures { (result ≡ true) ↔ (count ≡ job_count card.now) }
{
    count == byte(card, 3) + byte(card, 4)
}

// A first run, with neither table nor memory: it gives up after so many dead ends.
#[derive(Drop)]
pub struct Patience {
    pub left: u64,
}

impl Patience {
    // One dead end more: whether no more are put up with.
    fn tired(&mut self) -> bool
        ensures tired { (result ≡ true) ↔ (self.old.left ≡ 0) }
        ensures counted { self.new.left ≡ self.old.left - 1 }
    {
        let left = self.left;
        self.left = left.saturating_sub(1);
        left == 0
    }
}

impl Prune for Patience {
    ghost stocked = { λ s card. ⊤ };

    ghost gives_up = { ⊤ };

    fn doomed(&self, _card: &[u8], _nodes: &[u16; 256], _agenda: &[u16; 104], _b: Branch) -> bool {
        false
    }

    fn dead_end(
        &mut self,
        _card: &[u8],
        _nodes: &[u16; 256],
        _agenda: &[u16; 104],
        _open: bool,
        _b: Branch,
    ) -> bool {
        self.tired()
    }
}

// A table of bounds that is settled: where its names begin, its cells, and the lines of each class.
#[derive(Clone, Copy)]
pub struct Table<'a> {
    pub names: &'a [u16; 1577],
    pub cells: &'a [u8; 66177],
    pub masks: &'a [u64; 64],
}

impl<'a> Table<'a> {
    // Whether it tells that nothing is to be found.
    #[inline(always)]
    fn hopeless(self, card: &[u8], nodes: &[u16; 256], agenda: &[u16; 104], b: Branch) -> bool
        requires prune_asks { PruneAsks card.now nodes.now agenda.now b }
        requires settled { SettledTable card.now self }
        ensures { result ≡ true → Doom card.now nodes.now agenda.now b }
    {
        let names = self.names;
        let cells = self.cells;
        let masks = self.masks;
        let room = b.limit - b.at;
        bounds::hopeless(
            true, card, names, cells, masks, nodes, agenda, b.len, b.count, b.strict, b.lax, room,
        )
    }
}

// A later run: a table of bounds, where there is one, and a memory of dead states, which is of the job's scope alone. It does not give up.
#[derive(Drop)]
pub struct Stock<'a> {
    pub table: Option<Table<'a>>,
    pub codes: [u16; 16384],
    pub words: [u64; 9216],
}

impl<'a> Stock<'a> {
    // Whether the table, where there is one, tells that nothing is to be found.
    #[inline(always)]
    fn hopeless(&self, card: &[u8], nodes: &[u16; 256], agenda: &[u16; 104], b: Branch) -> bool
        requires prune_asks { PruneAsks card.now nodes.now agenda.now b }
        requires settled { IfSome self.now.table (SettledTable card.now) }
        ensures { result ≡ true → Doom card.now nodes.now agenda.now b }
    {
        let Some(table) = self.table else {
            return false;
        };
        table.hopeless(card, nodes, agenda, b)
    }
}

impl<'a> Prune for Stock<'a> {
    ghost stocked = { λ s card. StockedWith card s.table s.codes s.words };

    ghost gives_up = { ⊥ };

    #[inline(always)]
    fn doomed(&self, card: &[u8], nodes: &[u16; 256], agenda: &[u16; 104], b: Branch) -> bool {
        self.hopeless(card, nodes, agenda, b)
            || (unlent(card, b.count) && dead::known(&self.codes, &self.words, agenda, b))
    }

    fn dead_end(
        &mut self,
        card: &[u8],
        nodes: &[u16; 256],
        agenda: &[u16; 104],
        open: bool,
        b: Branch,
    ) -> bool {
        if open && unlent(card, b.count) {
            dead::remember(&mut self.codes, &mut self.words, agenda, b);
        }
        false
    }
}
