// The calls for C and Rust: each answer in one number (include/kit_planner.h).
#![tactic(auto)]

ghost use Rattle.std.specs.Prelude.{◌≡◌};
ghost use Rattle.planning.specs.Plan.{Planning};
ghost use Rattle.reader.specs.Read.{Reading, AcceptsExactly};
ghost use Rattle.numbers.specs.Numbers.{card_in, Plain, plan_in, read_in};
ghost use Rattle.bench.specs.Bench.{Joining, source_of};
ghost use Rattle.bench_numbers.specs.BenchNumbers.{join_in, source_in, Carded, Uncarded};

// Plans the card into the lent buffer: planner::plan, its answer as a number that reads as the outcome.
#[unsafe(no_mangle)]
pub extern "C" fn kit_plan(card: &[u8], sheet: &mut [u8]) -> u32
    ensures planning { Planning card.now sheet.old (plan_in result) sheet.new }
    ensures plain { Plain result }
    ensures no_card { card_in result ≡ 0 }
{
    let answer = planner::plan(card, sheet);
    numbers::packed_numbered(answer)
}

// Reads the sheet against the card: reader::read, its answer as a number that reads as the outcome.
#[unsafe(no_mangle)]
pub extern "C" fn kit_read(card: &[u8], sheet: &[u8]) -> u32
    ensures reading { Reading card.now sheet.now (read_in result) }
    ensures accepts_exactly { AcceptsExactly card.now sheet.now (read_in result) }
    ensures plain { Plain result }
    ensures no_card { card_in result ≡ 0 }
{
    let answer = reader::read(card, sheet);
    numbers::packed_numbered(answer)
}

// Joins two cards into the lent buffer: bench::join, its answer as a number that reads as the outcome.
#[unsafe(no_mangle)]
pub extern "C" fn kit_join(first: &[u8], second: &[u8], joined: &mut [u8]) -> u32
    ensures joining { Joining first.now second.now joined.old
        (join_in result) joined.new }
    ensures plain { Plain result }
    ensures carded { Carded result }
    ensures uncarded { Uncarded result }
{
    let answer = bench::join(first, second, joined);
    bench_numbers::packed_numbered_join(answer)
}

// Which card holds joined line i, and where its three bytes begin there: bench::locate, its answer as a number that reads as the outcome.
#[unsafe(no_mangle)]
pub extern "C" fn kit_source(first: &[u8], second: &[u8], i: u16) -> u32
    ensures source { source_in result ≡ source_of first.now second.now i }
    ensures plain { Plain result }
    ensures carded { Carded result }
{
    let answer = bench::locate(first, second, i);
    bench_numbers::packed_numbered_source(answer)
}
