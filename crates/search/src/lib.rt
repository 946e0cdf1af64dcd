// The search: the first list of a sound card (01, "Steps, nesting, order, marks").
#![tactic(auto)]

ghost use Rattle.std.specs.Prelude.{◌≡◌, ◌+◌, length, IfSome};
ghost use Rattle.card.specs.Format.{rule_count, line_count};
ghost use Rattle.card.specs.Fault.{Sound};
ghost use Rattle.card.specs.Decode.{job_of};
ghost use Rattle.entries.specs.Inner.Entries.{Entered, scope_in};
ghost use Rattle.entries.specs.Inner.Masks.{Waiting};
ghost use Rattle.branch.specs.Inner.Values.{answer_in, Awake};
ghost use Rattle.prune.specs.Inner.Prune.{SettledTable};
ghost use Rattle.engine.specs.Inner.Engine.{Weary};
ghost use Rattle.search.specs.Inner.Found.{Finds, Ran, FoundSays, Starts};

use branch::{Outcome, Way};
use engine::{Job, Search};
use lines::{LineSet, LineWord};
use prune::{Patience, Prune, Stock, Table};

// A search at its start: the job's entries stand in scope.
fn at_start<P: Prune>(card: &[u8], prune: P) -> Search<P>
    requires { Sound card.now }
    ensures entered { Entered card.now result.nodes result.heads (rule_count card.now + line_count card.now) }
    ensures scope { scope_in card.now result.nodes (rule_count card.now + line_count card.now) ≡ (job_of card.now).scope }
    ensures tape_room { length result.tape ≡ 255 }
    ensures stock { result.prune ≡ prune }
{
    let mut nodes = [0u16; 256];
    let mut heads = [0u16; 256];
    entries::enter(card, &mut nodes, &mut heads);
    Search {
        tape: [0; 255],
        nodes,
        heads,
        way: Way {
            at: 0,
            used: LineSet::empty(),
            seen: LineWord::empty(),
            slack: false,
            kept: false,
        },
        prune,
    }
}

// The search from the card's goal.
fn run<P: Prune>(search: &mut Search<P>, job: &Job<'_>) -> Outcome
    requires starts { Starts job.now.card.now job.now.waits.now search.old.tape search.old.nodes search.old.heads }
    requires stocked { P.stocked search.old.prune job.now.card.now }
    ensures ran { Ran job.now.card.now search.new.tape (answer_in result search.new.way) }
    ensures starts { Starts job.now.card.now job.now.waits.now search.new.tape search.new.nodes search.new.heads }
    ensures weary { Weary result P.gives_up }
{
    let card = job.card;
    let mut agenda = [0u16; 104];
    let goal = card::format::word(card, 7);
    let depth = card::format::byte(card, 9);
    segment::tasks::put(&mut agenda, 0, goal, depth);
    let b = moves::start(card);
    search.solve(job, &mut agenda, 0, 0, b)
}

// What a run found.
#[tactic(auto, unfolding(crate::specs::Inner::Found::FoundSays, branch::specs::Inner::Values::Awake))]
fn list_of(way: &Way, r: Outcome) -> Option<usize>
    requires { Awake r }
    ensures { FoundSays way.now r result }
{
    match r {
        Outcome::Solved => Some(way.at),
        Outcome::Stuck | Outcome::Tired => None,
    }
}

// A run with a memory of dead states, which is empty at first, and with the table, where there is one.
fn remembering(job: &Job<'_>, tape: &mut [u8; 255], table: Option<Table<'_>>) -> Option<usize>
    requires sound { Sound job.now.card.now }
    requires waiting { Waiting job.now.card.now job.now.waits.now }
    requires settled { IfSome table (SettledTable job.now.card.now) }
    ensures { Finds job.now.card.now tape.new result }
{
    let stock = Stock {
        table,
        codes: [0; 16384],
        words: [0; 9216],
    };
    let mut search = at_start(job.card, stock);
    let r = run(&mut search, job);
    *tape = search.tape;
    list_of(&search.way, r)
}

// A run with the table of bounds, if it is asked for and settled, and a memory. It calls itself where the table is not settled. It is not merged
// into its caller, so the room for its arrays is not taken up by a first run that answers.
#[inline(never)]
fn pruned(job: &Job<'_>, tape: &mut [u8; 255], bounded: bool) -> Option<usize>
    requires sound { Sound job.now.card.now }
    requires waiting { Waiting job.now.card.now job.now.waits.now }
    ensures { Finds job.now.card.now tape.new result }
{
    let mut names = [0u16; 1577];
    let mut cells = [0u8; 66177];
    let mut masks = [0u64; 64];
    if !bounded {
        return remembering(job, tape, None);
    }
    let settled = tables::prepare(job.card, &mut names, &mut cells, &mut masks);
    if !settled {
        return pruned(job, tape, false);
    }
    let table = Table {
        names: &names,
        cells: &cells,
        masks: &masks,
    };
    remembering(job, tape, Some(table))
}

// The first list, as the first steps of the tape, if there is one. A first run, which has neither table nor memory, gives up after 100 dead
// ends; only then are they set up. The tape is free behind the list, and all of it where there is none: it holds what the search left there.
pub fn first_list(card: &[u8], tape: &mut [u8; 255]) -> Option<usize>
    requires { Sound card.now }
    ensures { Finds card.now tape.new result }
{
    let waits = entries::waits(card);
    let job = Job {
        card,
        waits: &waits,
    };
    let mut search = at_start(card, Patience { left: 100 });
    let r = run(&mut search, &job);
    let Outcome::Tired = r else {
        *tape = search.tape;
        return list_of(&search.way, r);
    };
    pruned(&job, tape, true)
}
