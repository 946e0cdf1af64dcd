// The agenda as an array of tasks, each a goal's node and the nesting left to it; the next task is the last.
ghost use Rattle.std.specs.Prelude.{◌≡◌, true, ◌+◌, ◌*◌, ◌≤◌, ◌<◌, ◌/◌, get_or, set};
ghost use Rattle.card.specs.Format.{node_count};
ghost use Rattle.card.specs.Fault.{Sound, clause_part, height_at};
ghost use Rattle.branch.specs.Inner.Values.{Counted};
ghost use Rattle.segment.specs.Inner.Tasks.{node_of, nest_of, Laid, Splitting, halves, Unwound, Opened, Pushing};

use branch::Branch;
use card::format::{left, right};
use card::kinds::{Kind, kind_of};

// Place i: the goal's node and the nesting left.
pub fn put(agenda: &mut [u16; 104], i: usize, node: usize, nest: usize)
    requires { (i < 104) × ((node < 512) × (nest < 32)) }
    ensures { agenda.new ≡ set agenda.old i (node * 32 + nest) }
{
    agenda[i] = (node * 32 + nest) as u16;
}

// The node of the goal at place i.
#[tactic(auto, unfolding(crate::specs::Inner::Tasks::node_of))]
pub fn node(agenda: &[u16; 104], i: usize) -> usize
    requires { i < 104 }
    ensures { result ≡ node_of (get_or agenda.now i 0) }
{
    agenda[i] as usize / 32
}

// The nesting left to the goal at place i.
#[tactic(auto, unfolding(crate::specs::Inner::Tasks::nest_of))]
pub fn nest(agenda: &[u16; 104], i: usize) -> usize
    requires { i < 104 }
    ensures { result ≡ nest_of (get_or agenda.now i 0) }
{
    agenda[i] as usize % 32
}

// ⊗ at place i: its right part there, its left part behind.
fn split(card: &[u8], agenda: &mut [u16; 104], i: usize)
    requires sound { Sound card.now }
    requires splitting { Splitting card.now agenda.old i }
    ensures { agenda.new ≡ halves card.now agenda.old i }
{
    let g = node(agenda, i);
    let n = nest(agenda, i);
    let l = left(card, g);
    let r = right(card, g);
    put(agenda, i, r, n);
    put(agenda, i + 1, l, n);
}

// The agenda, until its next task is a name, &, ⊸, ⊕ or 0: past each ⊤ and 1, and each ⊗ parted.
#[inline(always)]
pub fn unwind(card: &[u8], agenda: &mut [u16; 104], b: Branch) -> Branch
    requires sound { Sound card.now }
    requires laid { Laid card.now agenda.old b.len b.count }
    requires counted { Counted b }
    ensures unwound { Unwound card.now agenda.old agenda.new b result }
    ensures opened { Opened card.now agenda.new result }
{
    let mut c = b;
    while 0 < c.len {
        match kind_of(card, node(agenda, c.len - 1)) {
            Kind::Top => c = c.eased(),
            Kind::One => c.len -= 1,
            Kind::Tensor => {
                split(card, agenda, c.len - 1);
                c.len += 1;
            }
            _ => return c,
        }
    }
    c
}

// What there is once a clause's conditions are put: how many tasks, and the clause's core, which is a head or a menu.
#[derive(Clone, Copy)]
pub struct Pushed {
    pub len: usize,
    pub core: usize,
}

// The conditions of the clause at the node, put behind the first len tasks, the one nearest the head last, up to its core.
pub fn push(card: &[u8], agenda: &mut [u16; 104], len: usize, clause: usize, nest: usize) -> Pushed
    requires sound { Sound card.now }
    requires a_clause { clause_part card.now (node_count card.now) clause ≡ true }
    requires nest_bound { nest < 32 }
    requires room { len + height_at card.now clause ≤ 105 }
    ensures { Pushing card.now agenda.old agenda.new len clause nest result }
{
    let mut at = clause;
    let mut n = len;
    while let Kind::Recipe = kind_of(card, at) {
        put(agenda, n, left(card, at), nest);
        n += 1;
        at = right(card, at);
    }
    Pushed { len: n, core: at }
}
