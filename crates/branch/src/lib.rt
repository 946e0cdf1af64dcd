// Where a search stands in its segment, and how what it has found changes that.
#![tactic(auto)]

ghost use Rattle.std.specs.Prelude.{◌≡◌, ◌≤◌, ◌<◌, false};
ghost use Rattle.lines.specs.Set.{member, Words};
ghost use Rattle.branch.specs.Inner.Values.{dropped_b, longer_b, sized_b, chose_b, freed_b, eased_b, lead_b, own_b, past_tensor_b, past_with_b, lent_b, using_b, spent_b, item_of};
ghost use Rattle.branch.specs.Inner.Values.{Counted, answer_in, Awake, closed_a, joined_w, beside_w, without_w, following_w, past_f};

use lines::{LineSet, LineWord};

// A branch, by value: the place on the tape, how many entries stand in scope, how many tasks on the agenda, the step limit, how many items
// are due, which are the strict ones; the free items, strict and lax apart; what the segment has used so far, and whether some ⊤ in it takes
// more; the lines in the list so far.
#[derive(Clone, Copy)]
pub struct Branch {
    pub at: usize,
    pub count: usize,
    pub len: usize,
    pub limit: usize,
    pub due: usize,
    pub strict: LineSet,
    pub lax: LineSet,
    pub used: LineSet,
    pub seen: LineWord,
    pub slack: bool,
}

// A way found: the place reached on the tape, the items used, the lines in the list, whether some ⊤ takes more, and whether the list
// keeps to the given steps of the floor.
#[derive(Clone, Copy)]
pub struct Way {
    pub at: usize,
    pub used: LineSet,
    pub seen: LineWord,
    pub slack: bool,
    pub kept: bool,
}

// What a search answers. A way found is written to a place that the caller lends. Tired: it has met too many dead ends, and says nothing.
#[derive(Clone, Copy)]
pub enum Outcome {
    Solved,
    Stuck,
    Tired,
}

// The least list to be looked at: so many given steps on the tape, and the least entry to be taken after them.
#[derive(Clone, Copy)]
pub struct Floor {
    pub fixed: usize,
    pub from: usize,
}

impl Floor {
    // The floor past a list.
    #[tactic(auto, unfolding(crate::specs::Inner::Values::past_f))]
    pub fn past(self, kept: bool) -> Floor
        ensures { result ≡ past_f self kept }
    {
        if kept {
            return self;
        }
        Floor { fixed: 0, from: 0 }
    }
}

// The item of an entry; past all items for a rule, which is none.
#[tactic(auto, unfolding(crate::specs::Inner::Values::item_of))]
fn item_of(rules: usize, e: usize) -> usize
    ensures { result ≡ item_of rules e }
{
    if rules <= e {
        return e - rules;
    }
    LineSet::LIMIT
}

impl Branch {
    // 1: the task is done.
    pub fn dropped(self) -> Branch
        requires not_empty { 1 ≤ self.len }
        requires counted { Counted self }
        ensures value { result ≡ dropped_b self }
        ensures counted { Counted result }
    {
        let mut b = self;
        b.len -= 1;
        b
    }

    // ⊗: two tasks where one was.
    pub fn longer(self) -> Branch
        requires len_bound { self.len < 104 }
        requires counted { Counted self }
        ensures value { result ≡ longer_b self }
        ensures counted { Counted result }
    {
        let mut b = self;
        b.len += 1;
        b
    }

    // With so many tasks.
    pub fn sized(self, len: usize) -> Branch
        requires { Counted self }
        ensures value { result ≡ sized_b self len }
        ensures counted { Counted result }
    {
        let mut b = self;
        b.len = len;
        b
    }

    // Past a choice.
    pub fn chose(self) -> Branch
        requires room { self.at < 255 }
        requires counted { Counted self }
        ensures value { result ≡ chose_b self }
        ensures counted { Counted result }
    {
        let mut b = self;
        b.at += 1;
        b
    }

    // Any item may be used, none has to be.
    #[tactic(auto, using(lines::proofs::CountLaws::count_empty))]
    fn freed(self) -> Branch
        requires { Counted self }
        ensures value { result ≡ freed_b self }
        ensures counted { Counted result }
    {
        let mut b = self;
        b.strict = LineSet::empty();
        b.lax = self.strict.join(self.lax);
        b.due = 0;
        b
    }

    // ⊤ takes whatever is left: nothing has to be used any more.
    pub fn eased(self) -> Branch
        requires not_empty { 1 ≤ self.len }
        requires counted { Counted self }
        ensures value { result ≡ eased_b self }
        ensures counted { Counted result }
    {
        let mut b = self.freed();
        b.len -= 1;
        b.slack = true;
        b
    }

    // A segment of its own in the same window.
    pub fn own(self) -> Branch
        requires { Counted self }
        ensures value { result ≡ own_b self }
        ensures counted { Counted result }
    {
        let mut b = self;
        b.len = 1;
        b.used = LineSet::empty();
        b.slack = false;
        b
    }

    // A part with more behind it: any item may be used, none has to be.
    pub fn lead(self) -> Branch
        requires { Counted self }
        ensures value { result ≡ lead_b self }
        ensures counted { Counted result }
    {
        self.freed().own()
    }

    // The rest of the segment past a part.
    #[tactic(auto, unfolding(crate::specs::Inner::Values::past_tensor_b))]
    pub fn past_tensor(self, w: Way) -> Branch
        requires not_empty { 1 ≤ self.len }
        requires counted { Counted self }
        ensures value { result ≡ past_tensor_b self w }
        ensures counted { Counted result }
    {
        let gone = w.used;
        let mut b = self;
        b.at = w.at;
        b.len -= 1;
        b.used = self.used.join(gone);
        b.seen = w.seen;
        b.slack = self.slack || w.slack;
        if w.slack {
            b = b.freed();
            b.lax = b.lax.cut(gone);
            return b;
        }
        b.strict = self.strict.cut(gone);
        b.lax = self.lax.cut(gone);
        b.due = b.strict.count();
        b
    }

    // The right part of a &, a segment of its own.
    #[tactic(auto, unfolding(crate::specs::Inner::Values::past_with_b))]
    pub fn past_with(self, w: Way) -> Branch
        requires { Counted self }
        ensures value { result ≡ past_with_b self w }
        ensures counted { Counted result }
    {
        let gone = w.used;
        let mut b = self.own();
        b.at = w.at;
        b.seen = w.seen;
        if w.slack {
            b.strict = self.strict.join(gone);
            b.lax = self.lax.cut(gone);
            b.due = b.strict.count();
            return b;
        }
        b.strict = gone;
        b.lax = LineSet::empty();
        b.due = gone.count();
        b
    }

    // The goal of a ⊸: the lent clause is one more item, and strict.
    #[tactic(auto, using(crate::proofs::CountsKept::counted_lent, lines::proofs::CountLaws::count_most))]
    pub fn lent(self, item: usize) -> Branch
        requires few_entries { self.count < 1000 }
        requires item_in_bounds { item < 192 }
        requires item_new { member self.strict item ≡ false }
        requires counted { Counted self }
        ensures value { result ≡ lent_b self item }
        ensures counted { Counted result }
    {
        let mut b = self;
        b.count += 1;
        b.len = 1;
        b.due += 1;
        b.strict = self.strict.add(item);
        b
    }

    // How many strict items are left once the item is used: one fewer where it is strict.
    #[tactic(auto, using(crate::proofs::CountsKept::some_due), unfolding(crate::specs::Inner::Values::spent_b))]
    fn spent(self, item: usize) -> usize
        requires { Counted self }
        ensures { result ≡ spent_b self item }
    {
        if self.strict.has(item) {
            return self.due - 1;
        }
        self.due
    }

    // Past the use of entry e, with so many tasks: one step further; a rule stays, an item is gone; a line, one of at most 64, stands in
    // the list.
    pub fn using(self, rules: usize, lines: usize, e: usize, len: usize) -> Branch
        requires room { self.at < 255 }
        requires few_lines { lines ≤ 64 }
        requires counted { Counted self }
        ensures value { result ≡ using_b self rules lines e len }
        ensures counted { Counted result }
    {
        let item = item_of(rules, e);
        let seen = if item < lines {
            self.seen.add(item)
        } else {
            self.seen
        };
        let mut b = self.chose();
        b.len = len;
        b.due = self.spent(item);
        b.strict = self.strict.take(item);
        b.lax = self.lax.take(item);
        b.used = self.used.add(item);
        b.seen = seen;
        b
    }

    // The agenda is empty: no strict item may be left, which the count tells. The words of the sets are those of the machine.
    #[tactic(auto, using(crate::proofs::CountsKept::none_due, crate::proofs::CountsKept::one_due), unfolding(crate::specs::Inner::Values::closed_a, crate::specs::Inner::Values::answer_in, crate::specs::Inner::Values::Awake))]
    pub fn closed(self, way: &mut Way) -> Outcome
        requires { Counted self }
        ensures answer { answer_in result way.new ≡ closed_a self }
        ensures words { Words self.strict }
        ensures awake { Awake result }
    {
        if self.due == 0 {
            *way = Way {
                at: self.at,
                used: self.used,
                seen: self.seen,
                slack: self.slack,
                kept: true,
            };
            return Outcome::Solved;
        }
        Outcome::Stuck
    }

    // The whole segment, whose last part is w.
    pub fn joined(self, w: Way) -> Way
        ensures { result ≡ joined_w self w }
    {
        Way {
            used: self.used.join(w.used),
            slack: self.slack || w.slack,
            ..w
        }
    }
}

impl Way {
    // Behind a list that keeps to the given steps or not.
    pub fn follow(&mut self, kept: bool)
        ensures { self.new ≡ following_w self.old kept }
    {
        self.kept = self.kept && kept;
    }

    // Both parts of a &.
    pub fn beside(self, w: Way) -> Way
        ensures { result ≡ beside_w self w }
    {
        Way {
            used: self.used.join(w.used),
            slack: self.slack && w.slack,
            ..w
        }
    }

    // Out of a ⊸: the lent clause is no item outside.
    pub fn without(self, item: usize) -> Way
        ensures { result ≡ without_w self item }
    {
        Way {
            used: self.used.take(item),
            ..self
        }
    }
}
