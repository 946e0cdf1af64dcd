// The choice at a name: which entry is tried next, and where the given steps bear on it.
#![tactic(auto)]

ghost use Rattle.std.specs.Prelude.{◌≡◌, ◌+◌, ◌-◌, ◌≤◌, ◌<◌, length, true};
ghost use Rattle.card.specs.Format.{node_count, rule_count, line_count};
ghost use Rattle.card.specs.Fault.{Sound, clause_part};
ghost use Rattle.entries.specs.Inner.Entries.{code_fits};
ghost use Rattle.choice.specs.Inner.Choice.{at_hand_by, open_to, takable_by, Testing, Passes};
ghost use Rattle.choice.specs.Inner.Choice.{HandFrom, Reaches, Reached, Seeks, FirstEntry, keeps_by, open_by, gives};

use branch::{Branch, Floor, Outcome};
use card::format::byte;
use lines::{LineSet, LineWord};

// The entry is a rule or an item at hand.
pub fn at_hand(rules: usize, e: usize, b: Branch) -> bool
    ensures { result ≡ at_hand_by rules e b }
{
    e < rules || b.strict.has(e - rules) || b.lax.has(e - rules)
}

// Some head of the code is the name.
#[tactic(auto, unfolding(entries::specs::Inner::Entries::code_fits))]
fn fits(card: &[u8], code: usize, name: usize) -> bool
    requires sound { Sound card.now }
    requires a_menu { 1001 ≤ code → clause_part card.now (node_count card.now) (code - 1001) ≡ true }
    ensures { result ≡ code_fits card.now code name }
{
    if code < 1001 {
        code == name
    } else {
        scope::usable(card, code - 1001, name)
    }
}

// The entry is at hand, and the lines that it waits for are seen.
#[inline(always)]
fn open(card: &[u8], waits: &[u64; 64], b: Branch, e: usize) -> bool
    requires { Sound card.now }
    ensures { result ≡ open_to card.now waits.now b e }
{
    let rules = byte(card, 3);
    at_hand(rules, e, b) && entries::ready(rules, byte(card, 4), waits, b.seen, e)
}

// The entry can be used for the name.
#[tactic(auto, unfolding(crate::specs::Inner::Choice::takable_by))]
pub fn usable(
    card: &[u8],
    waits: &[u64; 64],
    heads: &[u16; 256],
    b: Branch,
    name: usize,
    e: usize,
) -> bool
    requires { Testing card.now waits.now heads.now b }
    ensures { result ≡ takable_by card.now waits.now heads.now b name e }
{
    e < b.count && fits(card, heads[e] as usize, name) && open(card, waits, b, e)
}

// The entry cannot be used for the name; where it has a menu, that is not asked.
#[inline(always)]
fn passes(card: &[u8], waits: &[u64; 64], b: Branch, name: usize, code: usize, e: usize) -> bool
    requires { Sound card.now }
    ensures { Passes card.now waits.now b name code e result }
{
    code <= 1000 && (code != name || !open(card, waits, b, e))
}

// The least of the entries from one on and below the end that is not passed.
#[inline(always)]
fn reach(
    card: &[u8],
    waits: &[u64; 64],
    heads: &[u16; 256],
    b: Branch,
    name: usize,
    from: usize,
    end: usize,
) -> Option<usize>
    requires testing { Testing card.now waits.now heads.now b }
    requires within { end ≤ b.count }
    ensures { Reaches card.now waits.now heads.now b name from end result }
{
    for e in from..end {
        if !passes(card, waits, b, name, heads[e] as usize, e) {
            return Some(e);
        }
    }
    None
}

// The lines at hand from line i on.
fn hand_from(b: Branch, i: usize) -> LineWord
    requires { i < 64 }
    ensures { HandFrom b i result }
{
    let hand = b.strict.join(b.lax);
    hand.cut(LineSet::full(i)).lines()
}

// The least line from an entry on, which is no rule, that is not passed. Only those at hand are looked at, the lowest first.
fn reach_line(
    card: &[u8],
    waits: &[u64; 64],
    heads: &[u16; 256],
    b: Branch,
    name: usize,
    from: usize,
) -> Option<usize>
    requires testing { Testing card.now waits.now heads.now b }
    requires past_rules { rule_count card.now ≤ from }
    ensures { let bs = card.now in
        Reaches bs waits.now heads.now b name from (rule_count bs + line_count bs) result }
{
    let rules = byte(card, 3);
    let end = rules + byte(card, 4);
    if end <= from {
        return None;
    }
    let mut hand = hand_from(b, from - rules);
    while !hand.is_empty() {
        let e = rules + hand.lowest();
        if end <= e {
            return None;
        }
        if !passes(card, waits, b, name, heads[e] as usize, e) {
            return Some(e);
        }
        hand = hand.without_lowest();
    }
    None
}

// The least usable entry from one with a menu on.
fn seek_on(
    card: &[u8],
    waits: &[u64; 64],
    heads: &[u16; 256],
    b: Branch,
    name: usize,
    from: usize,
) -> Option<usize>
    requires { Testing card.now waits.now heads.now b }
    ensures { Seeks card.now waits.now heads.now b name from result }
{
    for e in from..b.count {
        if usable(card, waits, heads, b, name, e) {
            return Some(e);
        }
    }
    None
}

// The entry itself, where it has no menu, and so is usable; else the least usable one from it on.
fn found(
    card: &[u8],
    waits: &[u64; 64],
    heads: &[u16; 256],
    b: Branch,
    name: usize,
    e: usize,
) -> Option<usize>
    requires testing { Testing card.now waits.now heads.now b }
    requires reached { Reached card.now waits.now heads.now b name e }
    ensures { Seeks card.now waits.now heads.now b name e result }
{
    if heads[e] < 1001 {
        Some(e)
    } else {
        seek_on(card, waits, heads, b, name, e)
    }
}

// The least usable entry from the given one on: a rule, a line, or a lent clause.
#[inline(always)]
pub fn seek(
    card: &[u8],
    waits: &[u64; 64],
    heads: &[u16; 256],
    b: Branch,
    name: usize,
    from: usize,
) -> Option<usize>
    requires { Testing card.now waits.now heads.now b }
    ensures { Seeks card.now waits.now heads.now b name from result }
{
    let rules = byte(card, 3);
    let scope = rules + byte(card, 4);
    if let Some(e) = reach(card, waits, heads, b, name, from, rules) {
        return found(card, waits, heads, b, name, e);
    }
    if let Some(e) = reach_line(card, waits, heads, b, name, from.max(rules)) {
        return found(card, waits, heads, b, name, e);
    }
    let e = reach(card, waits, heads, b, name, from.max(scope), b.count)?;
    found(card, waits, heads, b, name, e)
}

// The least entry to be taken at a place: the given step, or the least after the given ones.
#[tactic(auto, unfolding(crate::specs::Inner::Choice::first_at, crate::specs::Inner::Choice::from_at))]
pub fn first_at(tape: &[u8], f: Floor, at: usize) -> usize
    requires { (f.fixed ≤ 255) × (length tape.now ≡ 255) }
    ensures { FirstEntry f at tape.now result }
{
    if at < f.fixed {
        byte(tape, at)
    } else if at == f.fixed {
        f.from
    } else {
        0
    }
}

// The entry is a given step.
#[tactic(auto, unfolding(crate::specs::Inner::Choice::keeps_by))]
pub fn keeps(f: Floor, at: usize, first: usize, e: usize) -> bool
    ensures { result ≡ keeps_by f at first e }
{
    at < f.fixed && e == first
}

// No floor bears on the place.
#[tactic(auto, unfolding(crate::specs::Inner::Choice::open_by))]
pub fn unfloored(f: Floor, at: usize, first: usize) -> bool
    ensures { result ≡ open_by f at first }
{
    f.fixed <= at && first == 0
}

// Nothing is found, or the search gives up.
#[tactic(auto, unfolding(crate::specs::Inner::Choice::gives))]
pub fn given_up(tired: bool) -> Outcome
    ensures { result ≡ gives tired }
{
    if tired {
        Outcome::Tired
    } else {
        Outcome::Stuck
    }
}
