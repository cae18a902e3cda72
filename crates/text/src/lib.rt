#![tactic(auto)]
// The text that the program prints for a plan, written into a lent buffer: `reads` and the count with a line for each read, or `refused` and the
// number.
ghost use Rattle.std.specs.Prelude.{◌≡◌, ◌≤◌};
ghost use Rattle.lines.specs.Text.{program_width, text_of, written_over};

use lines::{put_first, put_lines};
use plan::form;
use plan::header::Shape;

// The longest first line, `reads 168`, and the longest line of a read: numbers of 3, 1, 3, 5, 3 and 2 digits. Each with its line feed.
const FIRST_BYTES: usize = 10;

const LINE_BYTES: usize = 23;

// The longest text.
pub const MOST_BYTES: usize = FIRST_BYTES + LINE_BYTES * Shape::MOST_READS;

// Writes the text for a plan, as much of it as fits, and returns its length. A buffer of MOST_BYTES holds every text.
pub fn write(plan: &[u8], out: &mut [u8]) -> usize
    ensures out_after { record { size = result; bytes = out.new } ≡ written_over (text_of program_width plan.now) out.old }
    ensures upper_bound { result ≤ MOST_BYTES }
{
    let mut answers = [0u8; answers::MOST_SIZE * Shape::MOST_READS];
    let mut work = [0u8; Shape::WORKSPACE_BYTES];
    match play::play(lines::FORM, plan, &mut answers, &mut work) {
        Err(why) => put_first(out, b"refused ", codes::number(why) as u64),
        Ok(reads) => {
            let start = put_first(out, b"reads ", reads as u64);
            let end = answers::size(form::width(lines::FORM)) * reads;
            put_lines(out, start, plan, &answers[..end], reads)
        }
    }
}
