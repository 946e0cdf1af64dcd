// The cells of the table.
ghost use Rattle.std.specs.Prelude.{◌≡◌, ◌<◌, ◌≤◌};
ghost use Rattle.bounds.specs.Inner.Table.{NameCells, TableCells, takes_in, head_at, row_of, class_at, classes as classesOf};
ghost use Rattle.bounds.specs.Inner.Table.{low_at, high_at, least_at};

// A class has a column in each of the table's rows; there is room for so many.
pub const MOST_CLASSES: usize = 64;

// The row of a name of no node, behind those of the nodes.
pub const NO_NODE: usize = 512;

// Where the names have each part: from 0 the head of each node, then the row of each name, the code of each class, and how many there are.
pub const ROWS: usize = 512;

pub const CLASS_CODES: usize = 1512;

pub const CLASS_COUNT: usize = 1576;

// How many names there are.
pub const NAMES: usize = 1000;

// Codes that are no names: no head, and the class of all clauses.
pub const NO_HEAD: usize = 1000;

pub const ALL: usize = 1001;

// Where the table has each part: from 0 the least numbers of items, then the greatest, then the least steps.
pub const HIGHS: usize = 32832;

pub const LEASTS: usize = 65664;

// The head of the clause at node i.
pub fn head(names: &[u16], i: usize) -> usize
    requires { (i < 512) × NameCells names.now }
    ensures { (result ≡ head_at names.now i) × (result < 65536) }
{
    names[i] as usize
}

// The row of a name.
pub fn row(names: &[u16], name: usize) -> usize
    requires { (name < 1000) × NameCells names.now }
    ensures { (result ≡ row_of names.now name) × (result ≤ 512) }
{
    (names[ROWS + name] as usize).min(NO_NODE)
}

// The code of class c.
pub fn class(names: &[u16], c: usize) -> usize
    requires { (c < 64) × NameCells names.now }
    ensures { (result ≡ class_at names.now c) × (result < 65536) }
{
    names[CLASS_CODES + c] as usize
}

// Whether the class with this code takes in the clauses with the head.
pub fn of_head(class: usize, head: usize) -> bool
    ensures { result ≡ takes_in class head }
{
    class == ALL || head == class
}

// How many classes there are.
pub fn classes(names: &[u16]) -> usize
    requires { NameCells names.now }
    ensures { (result ≡ classesOf names.now) × (result ≤ 64) }
{
    (names[CLASS_COUNT] as usize).min(MOST_CLASSES)
}

// The least and the greatest number of items of class c, and the least steps, at row i.
pub fn low(table: &[u8], i: usize, c: usize) -> usize
    requires { (i ≤ 512) × ((c < 64) × TableCells table.now) }
    ensures { (result ≡ low_at table.now i c) × (result < 256) }
{
    table[i * MOST_CLASSES + c] as usize
}

pub fn high(table: &[u8], i: usize, c: usize) -> usize
    requires { (i ≤ 512) × ((c < 64) × TableCells table.now) }
    ensures { (result ≡ high_at table.now i c) × (result < 256) }
{
    table[HIGHS + (i * MOST_CLASSES + c)] as usize
}

pub fn least(table: &[u8], i: usize) -> usize
    requires { (i ≤ 512) × TableCells table.now }
    ensures { (result ≡ least_at table.now i) × (result < 256) }
{
    table[LEASTS + i] as usize
}
