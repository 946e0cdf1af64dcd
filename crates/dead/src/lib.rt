// Dead states: what the search remembers of agendas for which nothing is readable. A row is a key and a room: the tasks, how many they
// are, the free items, strict and lax apart, the lines seen; and within how many steps there is nothing. The scope is no part of the key:
// one memory is for one scope. A row is overwritten by the next key that falls on it. A row without tasks is free.
#![tactic(auto)]

ghost use Rattle.std.specs.Prelude.{◌≡◌, ◌+◌, true, ◌↔◌, ◌≤◌, ◌<◌, length};
ghost use Rattle.dead.specs.Inner.Rows.{mix, key_row, row_count, row_width, Put, Stored, Recorded};
ghost use Rattle.dead.specs.Inner.Barren.{Asking};

use branch::Branch;
use keys::words_of;

// Codes and words of a row; there are 1,024 rows. An agenda that is longer is not remembered.
const WIDTH: usize = 16;

const WORDS: usize = 9;

// One more number in the sum that picks a row.
#[tactic(auto, unfolding(crate::specs::Inner::Rows::mix))]
fn mixed(sum: u64, x: u64) -> u64
    ensures { result ≡ mix sum x }
{
    let p = ((sum ^ x ^ (x >> 32)) & 0xffff_ffff) * 2_654_435_769;
    p ^ (p >> 32)
}

// The row where a key is kept.
fn row_of(agenda: &[u16; 104], b: Branch) -> usize
    requires { b.len ≤ row_width }
    ensures { (result ≡ key_row agenda.now b) × (result < row_count) }
{
    let mut sum = mixed(mixed(mixed(0, b.strict.low), b.lax.low), b.seen.bits);
    for i in 0..b.len {
        sum = mixed(sum, agenda[i] as u64);
    }
    (sum & 1023) as usize
}

// The first n codes of the agenda, put from a place on. One by one: a copy of so many at once would ask an archive for C for `memmove`.
fn put_codes(codes: &mut [u16], at: usize, agenda: &[u16; 104], n: usize)
    requires inside { at + n ≤ length codes.old }
    requires from_inside { n ≤ 104 }
    ensures { Put codes.old codes.new at agenda.now n }
{
    for i in 0..n {
        codes[at + i] = agenda[i];
    }
}

// Whether it is remembered, with as much room, that nothing is readable for the agenda in this branch. Where it is not, nothing is said of the
// agenda.
pub fn known(codes: &[u16], words: &[u64], agenda: &[u16; 104], b: Branch) -> bool
    requires { Asking codes.now words.now agenda.now b }
    ensures { (result ≡ true) ↔ Stored codes.now words.now agenda.now b }
{
    if WIDTH < b.len {
        return false;
    }
    let row = row_of(agenda, b);
    let at = row * WORDS;
    let room = (b.limit - b.at) as u64;
    if words[at + 8] < room {
        return false;
    }
    let key = words_of(b);
    let first = row * WIDTH;
    words[at..at + 8] == key[..8] && codes[first..first + b.len] == agenda[..b.len]
}

// Nothing is readable for the agenda in this branch: that is remembered. An agenda that is too long is not.
pub fn remember(codes: &mut [u16], words: &mut [u64], agenda: &[u16; 104], b: Branch)
    requires { Asking codes.old words.old agenda.now b }
    ensures { Recorded codes.old words.old codes.new words.new
        agenda.now b }
{
    if WIDTH < b.len {
        return;
    }
    let row = row_of(agenda, b);
    put_codes(codes, row * WIDTH, agenda, b.len);
    let at = row * WORDS;
    words[at..at + WORDS].copy_from_slice(&words_of(b));
}
