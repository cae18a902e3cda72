#![tactic(auto)]
// The lines of a sheet: a line buffer starts empty, then fields are stored over it, each at the right end of its cell.
ghost use Rattle.std.specs.Prelude.{◌≡◌, [], ◌∷◌, map, ℕ, ◌-◌, ◌^◌, ◌≤◌, ◌<◌, length};
ghost use Rattle.decimal.specs.Stored.{Stored};
ghost use Rattle.plan.specs.Form.{most_width};
ghost use Rattle.page.specs.Page.{line_columns, ended, value_columns, cells, in_cells, heading, rule, mark_of, row_of};
ghost use Rattle.page.specs.Words.{fit_cells};

use plan::form;

// The characters of a line.
pub const COLUMNS: usize = 80;

// The bytes of a line: its line feed is one of them.
pub const LINE_BYTES: usize = COLUMNS + 1;

// The column behind each cell; behind the last one the line ends.
const AFTER_BEGIN: usize = 7;

const AFTER_READER: usize = 19;

const AFTER_END: usize = 28;

const AFTER_VALUE: usize = 42;

const AFTER_NUMBER: usize = 54;

const AFTER_COUNT: usize = 66;

// How many cells a line has, and the column behind each in their order.
const CELLS: usize = 7;

const AFTER: [usize; CELLS] = [
    AFTER_BEGIN,
    AFTER_READER,
    AFTER_END,
    AFTER_VALUE,
    AFTER_NUMBER,
    AFTER_COUNT,
    COLUMNS,
];

// How wide a value of form one is, and one of form two.
const VALUE_COLUMNS: usize = 5;

const WIDE_COLUMNS: usize = 8;

// What the line of a read says.
#[derive(Clone, Copy)]
pub struct Row {
    pub begin: u8,
    pub reader: u8,
    pub end: u16,
    pub value: u32,
    pub number: u8,
    pub count: u8,
    pub marked: bool,
}

// A word whose last character stands before column `end`.
fn put_word(line: &mut [u8], end: usize, word: &[u8])
    requires { (length word.now ≤ end) × (end ≤ line_columns) }
    ensures { Stored line.old (end - length word.now) word.now line.new end }
{
    decimal::put_all(line, end - word.len(), word);
}

// A line of words, each in its cell.
fn words(words: &[&[u8]; CELLS]) -> [u8; COLUMNS]
    requires { fit_cells cells (map (λ word. word.now) words.now) }
    ensures { result ≡ in_cells cells (map (λ word. word.now) words.now) }
{
    let mut line = [32u8; 80];
    for (cell, word) in words.iter().enumerate() {
        put_word(&mut line, AFTER[cell], word);
    }
    line
}

#[tactic(auto, unfolding(crate::specs::Page::heading))]
pub fn heading() -> [u8; COLUMNS]
    ensures { result ≡ heading }
{
    words(&[
        b"begin", b"screen", b"end", b"cue", b"number", b"count", b"writing",
    ])
}

fn value_columns(width: u8) -> usize
    ensures { result ≡ value_columns width }
{
    if width <= form::width(form::ONE) {
        VALUE_COLUMNS
    } else {
        WIDE_COLUMNS
    }
}

// The rule under the heading: a dash for each column of a field.
pub fn rule(width: u8) -> [u8; COLUMNS]
    ensures { result ≡ rule width }
{
    let dashes = [b'-'; WIDE_COLUMNS];
    let value = value_columns(width);
    words(&[b"---", b"-", b"---", &dashes[..value], b"---", b"--", b"-"])
}

// The mark of a read with which a write is concurrent.
fn mark(marked: bool) -> u8
    ensures { result ∷ [] ≡ mark_of marked }
{
    if marked { b'*' } else { b' ' }
}

// The line of a read.
pub fn read_line(x: Row) -> [u8; COLUMNS]
    requires { (x.reader < 10) × (x.end < 1000) × (x.count < 100) }
    ensures { (w : ℕ) → w ≤ most_width → x.value < 2 ^ w
        → result ≡ row_of w (x.begin ∷ x.reader ∷ x.end ∷ x.value ∷ x.number ∷ x.count ∷ []) x.marked }
{
    let mut line = [32u8; 80];
    decimal::put_right(&mut line, AFTER_BEGIN, u64::from(x.begin));
    decimal::put_right(&mut line, AFTER_READER, u64::from(x.reader));
    decimal::put_right(&mut line, AFTER_END, u64::from(x.end));
    decimal::put_right(&mut line, AFTER_VALUE, u64::from(x.value));
    decimal::put_right(&mut line, AFTER_NUMBER, u64::from(x.number));
    decimal::put_right(&mut line, AFTER_COUNT, u64::from(x.count));
    decimal::put_byte(&mut line, COLUMNS - 1, mark(x.marked));
    line
}

// A line and its line feed from place `at` on, and the place behind them.
pub fn put_line(page: &mut [u8], at: usize, line: &[u8]) -> usize
    requires { (at < 2 ^ 32) × (length line.now ≤ line_columns) }
    ensures { Stored page.old at (ended line.now) page.new result }
{
    let next = decimal::put_all(page, at, line);
    decimal::put_byte(page, next, b'\n')
}
