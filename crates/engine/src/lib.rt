// The engine: what a segment still has to do is an agenda, handed on by value. A name goes on at once with the conditions of the entry that
// serves it before the rest, ⊕ with the side taken; & and ⊸ are segments of their own, raised in place where the rest finds nothing behind
// them. Nothing is ever given back: each try goes on with a branch and an agenda of its own.
#![tactic(auto)]

ghost use Rattle.std.specs.Prelude.{◌≡◌};
ghost use Rattle.card.specs.Format.{kind_at, left_at};
ghost use Rattle.segment.specs.Inner.Tasks.{Laid};
ghost use Rattle.branch.specs.Inner.Values.{answer_in, floor_of};
ghost use Rattle.choice.specs.Inner.Choice.{FirstEntry};
ghost use Rattle.engine.specs.Count.{CountIsScan};
ghost use Rattle.engine.specs.Inner.Engine.{Ready, NameNext, NameOpen, CanUse, PartNext, GoalReady, Fresh, Solving, Alone, Using};
ghost use Rattle.engine.specs.Inner.Engine.{top_node, OneOfNext, PartReady, ChoiceReady, ChoiceStep, Entering, Siding, Equipped, Stays};

use branch::{Branch, Floor, Outcome, Way};
use card::format::{byte, left};
use card::kinds::{Kind, kind_of};
use choice::{first_at, given_up, keeps, seek, unfloored};
use moves::{inner, left_alone, raise, right_alone, shut};
use prune::Prune;
use segment::tasks::{nest, node, push, put, unwind};

// What a search is over: the card, and the lines that each line waits for.
#[derive(Clone, Copy)]
pub struct Job<'a> {
    pub card: &'a [u8],
    pub waits: &'a [u64; 64],
}

// What a search writes: the list so far, the entries in scope and their heads, the way found last, and what prunes it.
#[derive(Drop)]
pub struct Search<P> {
    pub tape: [u8; 255],
    pub nodes: [u16; 256],
    pub heads: [u16; 256],
    pub way: Way,
    pub prune: P,
}

impl<P: Prune> Search<P> {
    // The agenda in the branch, its lists not below the floor. The floor is handed over by its numbers: as a struct it would be laid down in memory at
    // every step.
    // What the lent agenda holds afterwards is free: 104 places as before, and no caller looks at them.
    #[cycle(engine_search)]
    pub fn solve(
        &mut self,
        job: &Job<'_>,
        agenda: &mut [u16; 104],
        fixed: usize,
        from: usize,
        b: Branch,
    ) -> Outcome
        requires ready { Ready job.now.card.now job.now.waits.now self.old.tape self.old.nodes self.old.heads (floor_of fixed from) b }
        requires laid { Laid job.now.card.now agenda.old b.len b.count }
        requires equipped { Equipped job.now.card.now self.old.nodes b.count (P.stocked self.old.prune job.now.card.now) }
        requires count_is_scan { CountIsScan job.now.card.now b }
        ensures solving { Solving job.now.card.now agenda.old (floor_of fixed from) b self.old.tape self.new.tape
            self.old.nodes self.new.nodes self.old.heads self.new.heads
            (answer_in result self.new.way) }
        ensures stays { Stays (P.stocked self.new.prune job.now.card.now) P.gives_up result }
    {
        let f = Floor { fixed, from };
        let c = unwind(job.card, agenda, b);
        if c.len == 0 {
            return c.closed(&mut self.way);
        }
        match kind_of(job.card, node(agenda, c.len - 1)) {
            Kind::Atom => self.need(job, agenda, f, c),
            Kind::With | Kind::Lend => self.behind(job, agenda, f, c),
            Kind::Oplus | Kind::Zero => self.one_of(job, agenda, f, c),
            // `unwind` leaves none of ⊤, 1 and ⊗ on top, and the others are no goals.
            Kind::Top | Kind::One | Kind::Tensor | Kind::Recipe | Kind::Menu | Kind::Unknown =>
                unreachable!(),
        }
    }

    // The next task is a name.
    #[inline(always)]
    #[cycle(engine_search)]
    fn need(&mut self, job: &Job<'_>, agenda: &[u16; 104], f: Floor, b: Branch) -> Outcome
        requires ready { Ready job.now.card.now job.now.waits.now self.old.tape self.old.nodes self.old.heads f b }
        requires name_next { NameNext job.now.card.now agenda.now b }
        requires equipped { Equipped job.now.card.now self.old.nodes b.count (P.stocked self.old.prune job.now.card.now) }
        ensures solving { Solving job.now.card.now agenda.now f b self.old.tape self.new.tape
            self.old.nodes self.new.nodes self.old.heads self.new.heads
            (answer_in result self.new.way) }
        ensures stays { Stays (P.stocked self.new.prune job.now.card.now) P.gives_up result }
    {
        let n = nest(agenda, b.len - 1);
        if n == 0 {
            return Outcome::Stuck;
        }
        if b.limit <= b.at {
            return Outcome::Stuck;
        }
        let dead = self.prune.doomed(job.card, &self.nodes, agenda, b);
        if dead {
            return Outcome::Stuck;
        }
        let first = first_at(&self.tape, f, b.at);
        self.others(job, agenda, first, f, b)
    }

    // The entries from the given one on. The given step goes on with the floor, and those above it with none.
    #[inline(always)]
    #[cycle(engine_search)]
    fn others(
        &mut self,
        job: &Job<'_>,
        agenda: &[u16; 104],
        first: usize,
        f: Floor,
        b: Branch,
    ) -> Outcome
        requires ready { Ready job.now.card.now job.now.waits.now self.old.tape self.old.nodes self.old.heads f b }
        requires name_open { NameOpen job.now.card.now agenda.now b × FirstEntry f b.at self.old.tape first }
        requires equipped { Equipped job.now.card.now self.old.nodes b.count (P.stocked self.old.prune job.now.card.now) }
        ensures solving { Solving job.now.card.now agenda.now f b self.old.tape self.new.tape
            self.old.nodes self.new.nodes self.old.heads self.new.heads
            (answer_in result self.new.way) }
        ensures stays { Stays (P.stocked self.new.prune job.now.card.now) P.gives_up result }
    {
        let name = left(job.card, node(agenda, b.len - 1));
        let mut from = first;
        loop {
            let next = seek(job.card, job.waits, &self.heads, b, name, from);
            let Some(e) = next else {
                let tired = self.prune.dead_end(
                    job.card,
                    &self.nodes,
                    agenda,
                    unfloored(f, b.at, first),
                    b,
                );
                return given_up(tired);
            };
            let same = keeps(f, b.at, first, e);
            let r = self.use_clause(job, agenda, name, e, f.past(same), b);
            match r {
                Outcome::Solved => {
                    self.way.follow(same);
                    return Outcome::Solved;
                }
                Outcome::Stuck => {
                    from = e + 1;
                }
                Outcome::Tired => return Outcome::Tired,
            }
        }
    }

    // The next task is ⊕ or 0.
    #[cycle(engine_search)]
    fn one_of(&mut self, job: &Job<'_>, agenda: &[u16; 104], f: Floor, b: Branch) -> Outcome
        requires ready { Ready job.now.card.now job.now.waits.now self.old.tape self.old.nodes self.old.heads f b }
        requires one_of_next { OneOfNext job.now.card.now agenda.now b }
        requires equipped { Equipped job.now.card.now self.old.nodes b.count (P.stocked self.old.prune job.now.card.now) }
        ensures solving { Solving job.now.card.now agenda.now f b self.old.tape self.new.tape
            self.old.nodes self.new.nodes self.old.heads self.new.heads
            (answer_in result self.new.way) }
        ensures stays { Stays (P.stocked self.new.prune job.now.card.now) P.gives_up result }
    {
        let top = b.len - 1;
        let goal = node(agenda, top);
        let n = nest(agenda, top);
        match kind_of(job.card, goal) {
            Kind::Oplus => self.choose(job, agenda, false, goal, 0, n, f, b.dropped()),
            Kind::Zero => Outcome::Stuck,
            // The task is ⊕ or 0.
            Kind::Atom
            | Kind::Top
            | Kind::One
            | Kind::Tensor
            | Kind::With
            | Kind::Lend
            | Kind::Recipe
            | Kind::Menu
            | Kind::Unknown => unreachable!(),
        }
    }

    // The use of an entry: what is left of its clause, with one nesting less, before the rest.
    #[cycle(engine_search)]
    fn use_clause(
        &mut self,
        job: &Job<'_>,
        agenda: &[u16; 104],
        name: usize,
        e: usize,
        f: Floor,
        b: Branch,
    ) -> Outcome
        requires ready { Ready job.now.card.now job.now.waits.now self.old.tape self.old.nodes self.old.heads f b }
        requires can_use { CanUse job.now.card.now job.now.waits.now self.old.heads agenda.now b e
            × (name ≡ left_at job.now.card.now (top_node agenda.now b)) }
        requires equipped { Equipped job.now.card.now self.old.nodes b.count (P.stocked self.old.prune job.now.card.now) }
        ensures using { Using job.now.card.now agenda.now e f b self.old.tape self.new.tape
            self.old.nodes self.new.nodes self.old.heads self.new.heads
            (answer_in result self.new.way) }
        ensures stays { Stays (P.stocked self.new.prune job.now.card.now) P.gives_up result }
    {
        let at = b.at;
        self.tape[at] = e as u8;
        let top = b.len - 1;
        let clause = self.nodes[e] as usize;
        let n = inner(agenda, top);
        let mut rest = *agenda;
        let p = push(job.card, &mut rest, top, clause, n);
        let c = b.using(byte(job.card, 3), byte(job.card, 4), e, p.len);
        match kind_of(job.card, p.core) {
            Kind::Menu => self.choose(job, &rest, true, p.core, name, n, f, c),
            Kind::Atom => self.solve(job, &mut rest, f.fixed, f.from, c),
            // Past its recipes, a clause is a head or a menu.
            Kind::Top
            | Kind::One
            | Kind::Tensor
            | Kind::With
            | Kind::Lend
            | Kind::Recipe
            | Kind::Oplus
            | Kind::Zero
            | Kind::Unknown => unreachable!(),
        }
    }

    // A part before the tasks of the agenda: a goal, or what is left of a clause that is used for the name.
    #[cycle(engine_search)]
    fn enter(
        &mut self,
        job: &Job<'_>,
        agenda: &mut [u16; 104],
        meets: bool,
        part: usize,
        name: usize,
        n: usize,
        f: Floor,
        b: Branch,
    ) -> Outcome
        requires ready { Ready job.now.card.now job.now.waits.now self.old.tape self.old.nodes self.old.heads f b }
        requires part_ready { PartReady job.now.card.now agenda.old meets part name n b }
        requires equipped { Equipped job.now.card.now self.old.nodes b.count (P.stocked self.old.prune job.now.card.now) }
        ensures entering { Entering job.now.card.now agenda.old meets part name n f b self.old.tape
            self.new.tape self.old.nodes self.new.nodes self.old.heads self.new.heads
            (answer_in result self.new.way) }
        ensures stays { Stays (P.stocked self.new.prune job.now.card.now) P.gives_up result }
    {
        if meets {
            let p = push(job.card, agenda, b.len, part, n);
            let c = b.sized(p.len);
            return match kind_of(job.card, p.core) {
                Kind::Menu => self.choose(job, agenda, true, p.core, name, n, f, c),
                Kind::Atom => self.solve(job, agenda, f.fixed, f.from, c),
                // As in `use_clause`.
                Kind::Top
                | Kind::One
                | Kind::Tensor
                | Kind::With
                | Kind::Lend
                | Kind::Recipe
                | Kind::Oplus
                | Kind::Zero
                | Kind::Unknown => unreachable!(),
            };
        }
        put(agenda, b.len, part, n);
        self.solve(job, agenda, f.fixed, f.from, b.longer())
    }

    // ⊕, or a menu that is used for the name, before the tasks of the agenda: its left side; where that finds nothing, its right side.
    #[cycle(engine_search)]
    fn choose(
        &mut self,
        job: &Job<'_>,
        agenda: &[u16; 104],
        meets: bool,
        node: usize,
        name: usize,
        n: usize,
        f: Floor,
        b: Branch,
    ) -> Outcome
        requires ready { Ready job.now.card.now job.now.waits.now self.old.tape self.old.nodes self.old.heads f b }
        requires choice_ready { ChoiceReady job.now.card.now agenda.now meets node name n b }
        requires equipped { Equipped job.now.card.now self.old.nodes b.count (P.stocked self.old.prune job.now.card.now) }
        ensures entering { Entering job.now.card.now agenda.now meets node name n f b self.old.tape
            self.new.tape self.old.nodes self.new.nodes self.old.heads self.new.heads
            (answer_in result self.new.way) }
        ensures stays { Stays (P.stocked self.new.prune job.now.card.now) P.gives_up result }
    {
        if b.at >= b.limit {
            return Outcome::Stuck;
        }
        let first = first_at(&self.tape, f, b.at);
        let r = self.side(job, agenda, meets, node, name, n, 254, first, f, b);
        let Outcome::Stuck = r else {
            return r;
        };
        self.side(job, agenda, meets, node, name, n, 255, first, f, b)
    }

    // One side, by its choice: none below the given step, and none that is shut.
    #[cycle(engine_search)]
    fn side(
        &mut self,
        job: &Job<'_>,
        agenda: &[u16; 104],
        meets: bool,
        node: usize,
        name: usize,
        n: usize,
        choice: usize,
        first: usize,
        f: Floor,
        b: Branch,
    ) -> Outcome
        requires ready { Ready job.now.card.now job.now.waits.now self.old.tape self.old.nodes self.old.heads f b }
        requires choice_ready { ChoiceReady job.now.card.now agenda.now meets node name n b × ChoiceStep choice b }
        requires equipped { Equipped job.now.card.now self.old.nodes b.count (P.stocked self.old.prune job.now.card.now) }
        ensures siding { Siding job.now.card.now agenda.now meets node name n choice first f b
            self.old.tape self.new.tape self.old.nodes self.new.nodes self.old.heads
            self.new.heads (answer_in result self.new.way) }
        ensures stays { Stays (P.stocked self.new.prune job.now.card.now) P.gives_up result }
    {
        if choice < first {
            return Outcome::Stuck;
        }
        let at = b.at;
        self.tape[at] = choice as u8;
        let part = moves::side(job.card, node, choice);
        if shut(job.card, meets, name, part) {
            return Outcome::Stuck;
        }
        let same = keeps(f, at, first, choice);
        let mut rest = *agenda;
        let r = self.enter(
            job,
            &mut rest,
            meets,
            part,
            name,
            n,
            f.past(same),
            b.chose(),
        );
        let Outcome::Solved = r else {
            return r;
        };
        self.way.follow(same);
        Outcome::Solved
    }

    // The next task is & or ⊸, a segment of its own: the rest behind its first list; where that finds nothing, behind its next.
    #[inline(always)]
    #[cycle(engine_search)]
    fn behind(&mut self, job: &Job<'_>, agenda: &[u16; 104], f: Floor, b: Branch) -> Outcome
        requires ready { Ready job.now.card.now job.now.waits.now self.old.tape self.old.nodes self.old.heads f b }
        requires part_next { PartNext job.now.card.now agenda.now b }
        requires equipped { Equipped job.now.card.now self.old.nodes b.count (P.stocked self.old.prune job.now.card.now) }
        ensures solving { Solving job.now.card.now agenda.now f b self.old.tape self.new.tape
            self.old.nodes self.new.nodes self.old.heads self.new.heads
            (answer_in result self.new.way) }
        ensures stays { Stays (P.stocked self.new.prune job.now.card.now) P.gives_up result }
    {
        let top = b.len - 1;
        let goal = node(agenda, top);
        let n = nest(agenda, top);
        if top == 0 {
            return self.last(job, goal, n, f, b);
        }
        let mut g = f;
        let mut fresh = true;
        loop {
            let r = self.part(job, goal, n, g, b.lead());
            let Outcome::Solved = r else {
                return r;
            };
            let w = self.way;
            let h = g.past(w.kept);
            let mut rest = *agenda;
            let s = self.solve(job, &mut rest, h.fixed, h.from, b.past_tensor(w));
            match s {
                Outcome::Solved => {
                    self.way.follow(w.kept && fresh);
                    return Outcome::Solved;
                }
                Outcome::Stuck => {
                    if w.at == b.at {
                        return Outcome::Stuck;
                    }
                    g = raise(&self.tape, w.at);
                    fresh = false;
                }
                Outcome::Tired => return Outcome::Tired,
            }
        }
    }

    // The last task of the agenda is & or ⊸.
    #[cycle(engine_search)]
    fn last(&mut self, job: &Job<'_>, goal: usize, n: usize, f: Floor, b: Branch) -> Outcome
        requires ready { Ready job.now.card.now job.now.waits.now self.old.tape self.old.nodes self.old.heads f b }
        requires goal_ready { GoalReady job.now.card.now goal n b }
        requires equipped { Equipped job.now.card.now self.old.nodes b.count (P.stocked self.old.prune job.now.card.now) }
        ensures alone { Alone job.now.card.now goal n f b self.old.tape self.new.tape
            self.old.nodes self.new.nodes self.old.heads self.new.heads
            (answer_in result self.new.way) }
        ensures stays { Stays (P.stocked self.new.prune job.now.card.now) P.gives_up result }
    {
        let r = self.part(job, goal, n, f, b.own());
        let Outcome::Solved = r else {
            return r;
        };
        self.way = b.joined(self.way);
        Outcome::Solved
    }

    // & or ⊸ in a segment of its own.
    #[cycle(engine_search)]
    fn part(&mut self, job: &Job<'_>, goal: usize, n: usize, f: Floor, b: Branch) -> Outcome
        requires ready { Ready job.now.card.now job.now.waits.now self.old.tape self.old.nodes self.old.heads f b }
        requires goal_ready { GoalReady job.now.card.now goal n b × Fresh b }
        requires equipped { Equipped job.now.card.now self.old.nodes b.count (P.stocked self.old.prune job.now.card.now) }
        ensures alone { Alone job.now.card.now goal n f b self.old.tape self.new.tape
            self.old.nodes self.new.nodes self.old.heads self.new.heads
            (answer_in result self.new.way) }
        ensures stays { Stays (P.stocked self.new.prune job.now.card.now) P.gives_up result }
    {
        match kind_of(job.card, goal) {
            Kind::With => self.both_ways(job, goal, n, f, b),
            Kind::Lend => self.lent(job, goal, n, f, b),
            // The goal is & or ⊸.
            Kind::Atom
            | Kind::Top
            | Kind::One
            | Kind::Tensor
            | Kind::Recipe
            | Kind::Oplus
            | Kind::Zero
            | Kind::Menu
            | Kind::Unknown => unreachable!(),
        }
    }

    // G & H: H behind the first list of G; where that finds nothing, behind its next.
    #[cycle(engine_search)]
    fn both_ways(&mut self, job: &Job<'_>, goal: usize, n: usize, f: Floor, b: Branch) -> Outcome
        requires ready { Ready job.now.card.now job.now.waits.now self.old.tape self.old.nodes self.old.heads f b }
        requires goal_ready { (GoalReady job.now.card.now goal n b × Fresh b) × (kind_at job.now.card.now goal ≡ 5) }
        requires equipped { Equipped job.now.card.now self.old.nodes b.count (P.stocked self.old.prune job.now.card.now) }
        ensures alone { Alone job.now.card.now goal n f b self.old.tape self.new.tape
            self.old.nodes self.new.nodes self.old.heads self.new.heads
            (answer_in result self.new.way) }
        ensures stays { Stays (P.stocked self.new.prune job.now.card.now) P.gives_up result }
    {
        let mut g = f;
        let mut fresh = true;
        loop {
            let mut agenda = [0u16; 104];
            left_alone(job.card, &mut agenda, goal, n);
            let first = self.solve(job, &mut agenda, g.fixed, g.from, b);
            let Outcome::Solved = first else {
                return first;
            };
            let w = self.way;
            let h = g.past(w.kept);
            let mut other = [0u16; 104];
            right_alone(job.card, &mut other, goal, n);
            let second = self.solve(job, &mut other, h.fixed, h.from, b.past_with(w));
            match second {
                Outcome::Solved => {
                    self.way = w.beside(self.way);
                    self.way.follow(w.kept && fresh);
                    return Outcome::Solved;
                }
                Outcome::Stuck => {
                    if w.at == b.at {
                        return Outcome::Stuck;
                    }
                    g = raise(&self.tape, w.at);
                    fresh = false;
                }
                Outcome::Tired => return Outcome::Tired,
            }
        }
    }

    // A part with a scope or window of its own.
    #[cycle(engine_search)]
    fn lent(&mut self, job: &Job<'_>, goal: usize, n: usize, f: Floor, b: Branch) -> Outcome
        requires ready { Ready job.now.card.now job.now.waits.now self.old.tape self.old.nodes self.old.heads f b }
        requires goal_ready { (GoalReady job.now.card.now goal n b × Fresh b) × (kind_at job.now.card.now goal ≡ 6) }
        requires equipped { Equipped job.now.card.now self.old.nodes b.count (P.stocked self.old.prune job.now.card.now) }
        ensures alone { Alone job.now.card.now goal n f b self.old.tape self.new.tape
            self.old.nodes self.new.nodes self.old.heads self.new.heads
            (answer_in result self.new.way) }
        ensures stays { Stays (P.stocked self.new.prune job.now.card.now) P.gives_up result }
    {
        let count = b.count;
        let mut agenda = [0u16; 104];
        let c = inside::open(
            job.card,
            &mut self.nodes,
            &mut self.heads,
            &mut agenda,
            goal,
            n,
            b,
        );
        let r = self.solve(job, &mut agenda, f.fixed, f.from, c);
        let Outcome::Solved = r else {
            return r;
        };
        inside::close(job.card, &mut self.way, goal, count);
        Outcome::Solved
    }
}
