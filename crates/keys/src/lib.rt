// The key of a dead state, and its room, as words: the free items, strict and lax apart, the lines seen, how many tasks there are, and the
// steps left.
#![tactic(auto)]

ghost use Rattle.std.specs.Prelude.{◌≡◌, ◌≤◌};
ghost use Rattle.keys.specs.Inner.Keys.{key_words};

use branch::Branch;

// The words of a branch's row.
pub fn words_of(b: Branch) -> [u64; 9]
    requires { b.at ≤ b.limit }
    ensures { result ≡ key_words b }
{
    [
        b.strict.low,
        b.strict.mid,
        b.strict.high,
        b.lax.low,
        b.lax.mid,
        b.lax.high,
        b.seen.bits,
        b.len as u64,
        (b.limit - b.at) as u64,
    ]
}
