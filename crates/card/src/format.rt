// Access to the card's bytes.
ghost use Rattle.std.specs.Prelude.{◌≡◌, ◌+◌, ◌*◌, ◌≤◌, ◌<◌, length};
ghost use Rattle.card.specs.Format.{byte_at, word_at, kind_at, left_at, right_at, rule_start, rule_node, line_start, line_node, line_byte};

// A byte as a number.
pub fn byte(s: &[u8], at: usize) -> usize
    requires { at < length s.now }
    ensures { (result ≡ byte_at s.now at) × (result < 256) }
{
    s[at] as usize
}

// A number of two bytes.
pub fn word(s: &[u8], at: usize) -> usize
    requires { at + 1 < length s.now }
    ensures { (result ≡ word_at s.now at) × (result < 65536) }
{
    byte(s, at) * 256 + byte(s, at + 1)
}

pub fn kind(card: &[u8], i: usize) -> usize
    requires { 16 + 5 * i ≤ length card.now }
    ensures { (result ≡ kind_at card.now i) × (result < 256) }
{
    byte(card, 11 + 5 * i)
}

pub fn left(card: &[u8], i: usize) -> usize
    requires { 16 + 5 * i ≤ length card.now }
    ensures { (result ≡ left_at card.now i) × (result < 65536) }
{
    word(card, 11 + 5 * i + 1)
}

pub fn right(card: &[u8], i: usize) -> usize
    requires { 16 + 5 * i ≤ length card.now }
    ensures { (result ≡ right_at card.now i) × (result < 65536) }
{
    word(card, 11 + 5 * i + 3)
}

// Where the rules begin.
fn rules_start(card: &[u8]) -> usize
    requires { 11 ≤ length card.now }
    ensures { (result ≡ 11 + 5 * word_at card.now 5) × (result < 400000) }
{
    11 + 5 * word(card, 5)
}

// Where the lines begin.
fn lines_start(card: &[u8]) -> usize
    requires { 11 ≤ length card.now }
    ensures { (result ≡ 11 + 5 * word_at card.now 5 + 2 * byte_at card.now 3) × (result < 500000) }
{
    rules_start(card) + 2 * byte(card, 3)
}

// The node of rule i.
pub fn rule_node(card: &[u8], i: usize) -> usize
    requires { rule_start card.now i + 2 ≤ length card.now }
    ensures { (result ≡ rule_node card.now i) × (result < 65536) }
{
    word(card, rules_start(card) + 2 * i)
}

// The node of line i.
pub fn line_node(card: &[u8], i: usize) -> usize
    requires { line_start card.now i + 3 ≤ length card.now }
    ensures { (result ≡ line_node card.now i) × (result < 65536) }
{
    word(card, lines_start(card) + 3 * i)
}

// The must/may byte of line i.
pub fn line_byte(card: &[u8], i: usize) -> usize
    requires { line_start card.now i + 3 ≤ length card.now }
    ensures { (result ≡ line_byte card.now i) × (result < 256) }
{
    byte(card, lines_start(card) + 3 * i + 2)
}
