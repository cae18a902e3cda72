// The requests that follow a plan: an operation with lent bytes of some length, a server and a tick, or altered answers.
use super::{shown, sizes};
use plan::form;
use report::{kept, lent, word};
use std::io;
use std::io::Write;

// A letter and twelve bytes of numbers.
pub const BYTES: usize = 13;

const LETTER_BITS: usize = 8;

// Of a length, a server or a tick.
const NUMBER_BITS: usize = 32;

// Of the length of a page, and of answers that are printed on it.
const SHORT_BITS: usize = 16;

// Of the index of a replaced answer; its bytes stand behind that.
const INDEX_AT: usize = LETTER_BITS + NUMBER_BITS;

const INDEX_BITS: usize = 16;

const REPLACED_AT: usize = 7;

// Play: the lengths of the answer buffer and of the workspace.
fn play<W: Write>(
    to: &mut W,
    form: usize,
    plan: &[u8],
    room: usize,
    space: usize,
) -> io::Result<()> {
    let mut answers = [lent::FILLER; sizes::ANSWERS];
    let mut work = [lent::FILLER; sizes::WORKSPACE];
    let played = play::play(
        form,
        plan,
        lent::first_mut(&mut answers, room),
        lent::first_mut(&mut work, space),
    );
    word(to, b"play ")?;
    shown::outcome(to, codes::of_outcome(played))?;
    kept(to, &answers)?;
    kept(to, &work)
}

// Look: the length of the workspace, the server and the tick.
fn look<W: Write>(
    to: &mut W,
    form: usize,
    plan: &[u8],
    space: usize,
    server: usize,
    tick: usize,
) -> io::Result<()> {
    let mut pairs = [lent::FILLER; sizes::PAIRS];
    let mut work = [lent::FILLER; sizes::WORKSPACE];
    let code = capi_look::look(
        form,
        plan,
        lent::first_mut(&mut work, space),
        server,
        tick,
        &mut pairs,
    );
    word(to, b"look ")?;
    shown::seen(to, code, &pairs)?;
    kept(to, &work)?;
    kept(to, &pairs)
}

// The answers, one of them replaced: which, and its bytes.
fn altered(
    form: usize,
    mut answers: [u8; sizes::ANSWERS],
    request: [u8; BYTES],
) -> [u8; sizes::ANSWERS] {
    let i = bits::field(&request, INDEX_AT, INDEX_BITS) as usize;
    let replaced = lent::first(&request[REPLACED_AT..], sizes::answer_bytes(form));
    decimal::put_all(&mut answers, sizes::answer_at(form, i), replaced);
    answers
}

// Judge: how many bytes of the answers, and what is replaced in them.
fn judge<W: Write>(
    to: &mut W,
    form: usize,
    plan: &[u8],
    answers: [u8; sizes::ANSWERS],
    request: [u8; BYTES],
) -> io::Result<()> {
    let length = bits::field(&request, LETTER_BITS, NUMBER_BITS) as usize;
    let given = altered(form, answers, request);
    let judged = judge::judge(form, plan, lent::first(&given, length));
    word(to, b"judge ")?;
    shown::verdict(to, codes::of_judge(judged))
}

// Sheet: the length of the page, how many bytes of the answers, and what is replaced in them.
fn sheet<W: Write>(
    to: &mut W,
    form: usize,
    plan: &[u8],
    answers: [u8; sizes::ANSWERS],
    request: [u8; BYTES],
) -> io::Result<()> {
    let room = bits::field(&request, LETTER_BITS, SHORT_BITS) as usize;
    let length = bits::field(&request, LETTER_BITS + SHORT_BITS, SHORT_BITS) as usize;
    let given = altered(form, answers, request);
    let mut page = [lent::FILLER; sizes::PAGE];
    let written = sheet::sheet(
        form,
        plan,
        lent::first(&given, length),
        lent::first_mut(&mut page, room),
    );
    word(to, b"sheet ")?;
    shown::page(to, codes::of_outcome(written), &page)
}

// From the plan's form to the other one.
fn carried(form: usize, plan: &[u8], out: &mut [u8]) -> usize {
    codes::of_outcome(if form == form::TWO {
        carry::carry_back(plan, out)
    } else {
        carry::carry(plan, out)
    })
}

// Carry: the length of the buffer.
fn carry<W: Write>(to: &mut W, form: usize, plan: &[u8], room: usize) -> io::Result<()> {
    let mut out = [lent::FILLER; lent::PLAN];
    let code = carried(form, plan, lent::first_mut(&mut out, room));
    word(to, b"carry ")?;
    report::written(to, code, &out)
}

// One request about a plan and Play's answers to it.
pub fn run<W: Write>(
    to: &mut W,
    form: usize,
    plan: &[u8],
    answers: [u8; sizes::ANSWERS],
    request: [u8; BYTES],
) -> io::Result<()> {
    let a = bits::field(&request, LETTER_BITS, NUMBER_BITS) as usize;
    let b = bits::field(&request, LETTER_BITS + NUMBER_BITS, NUMBER_BITS) as usize;
    let c = bits::field(&request, LETTER_BITS + 2 * NUMBER_BITS, NUMBER_BITS) as usize;
    match request[0] {
        b'p' => play(to, form, plan, a, b)?,
        b'l' => look(to, form, plan, a, b, c)?,
        b'j' => judge(to, form, plan, answers, request)?,
        b's' => sheet(to, form, plan, answers, request)?,
        b'c' => carry(to, form, plan, a)?,
        _ => {}
    }
    word(to, b"\n")
}
