// The joined card written into a buffer (02, #101).
#![tactic(auto)]

ghost use Rattle.std.specs.Prelude.{◌≡◌, ◌++◌, ◌+◌, ◌*◌, ◌≤◌, length, drop};
ghost use Rattle.joined.specs.Joined.{joined_rules, joined_lines, joined_nodes, joined_length, joined_counts, joined_limits, joined_front};
ghost use Rattle.joined.specs.Joined.{all_nodes, all_rules, all_lines, joined_card};
ghost use Rattle.joined.specs.Inner.Written.{Written};

use card::sound::Card;
use fields::{depth, joined_length, put_both, steps};
use moved::{put_lines, put_nodes, put_rules, put_word};

// Bytes 2 to 4: the version, P and T.
fn put_counts(first: &Card<'_>, second: &Card<'_>, out: &mut [u8])
    requires front { 11 ≤ length out.old }
    ensures { Written out.old out.new 2
        (joined_counts first.now second.now) }
{
    let rules = first.rules() + second.rules();
    let lines = first.lines() + second.lines();
    out[2..5].copy_from_slice(&[1, rules as u8, lines as u8]);
}

// Bytes 9 and 10: d and s.
fn put_limits(first: &Card<'_>, second: &Card<'_>, out: &mut [u8])
    requires front { 11 ≤ length out.old }
    ensures { Written out.old out.new 9
        (joined_limits first.now second.now) }
{
    out[9..11].copy_from_slice(&[depth(first, second), steps(first, second)]);
}

// Bytes 0 to 10.
fn put_front(first: &Card<'_>, second: &Card<'_>, out: &mut [u8])
    requires front { 11 ≤ length out.old }
    ensures { Written out.old out.new 0
        (joined_front first.now second.now) }
{
    let goal = first.nodes() + second.nodes();
    put_word(joined_length(first, second), out, 0);
    put_counts(first, second, out);
    put_word(goal + 1, out, 5);
    put_word(goal, out, 7);
    put_limits(first, second, out);
}

// The nodes: the first's, the second's shifted, and both of the two goals.
fn put_all_nodes(first: &Card<'_>, second: &Card<'_>, out: &mut [u8])
    requires room { 11 + 5 * joined_nodes first.now second.now ≤ length out.old }
    ensures { Written out.old out.new 11
        (all_nodes first.now second.now) }
{
    let n = first.nodes();
    let m = second.nodes();
    put_nodes(first, 0, out, 11);
    put_nodes(second, n, out, 11 + 5 * n);
    put_both(first, second, out, 11 + 5 * n + 5 * m);
}

// The rules, from this place on: the first's, and the second's shifted.
fn put_all_rules(first: &Card<'_>, second: &Card<'_>, out: &mut [u8], at: usize)
    requires room { at + 2 * joined_rules first.now second.now ≤ length out.old }
    ensures { Written out.old out.new at
        (all_rules first.now second.now) }
{
    let n = first.nodes();
    put_rules(first, 0, out, at);
    put_rules(second, n, out, at + 2 * first.rules());
}

// The lines, from this place on: the first's, and the second's shifted.
fn put_all_lines(first: &Card<'_>, second: &Card<'_>, out: &mut [u8], at: usize)
    requires room { at + 3 * joined_lines first.now second.now ≤ length out.old }
    ensures { Written out.old out.new at
        (all_lines first.now second.now) }
{
    let n = first.nodes();
    put_lines(first, 0, out, at);
    put_lines(second, n, out, at + 3 * first.lines());
}

// The whole joined card. Bytes past it keep what they held.
pub fn put_joined(first: &Card<'_>, second: &Card<'_>, out: &mut [u8])
    requires room { joined_length first.now second.now ≤ length out.old }
    ensures { out.new
        ≡ joined_card first.now second.now
        ++ drop (joined_length first.now second.now) out.old }
{
    let nodes = first.nodes() + second.nodes() + 1;
    let rules = first.rules() + second.rules();
    let at = 11 + 5 * nodes;
    put_front(first, second, out);
    put_all_nodes(first, second, out);
    put_all_rules(first, second, out, at);
    put_all_lines(first, second, out, at + 2 * rules);
}
