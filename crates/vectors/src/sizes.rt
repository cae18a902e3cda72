// The sizes of what an operation is lent, and where answers stand in it.
ghost use Rattle.std.specs.Prelude.{◌≡◌, ◌*◌, ◌^◌, ◌≤◌, ◌<◌};
ghost use Rattle.plan.specs.Form.{width_of};
ghost use Rattle.answers.specs.Answers.{answer_size};

use limits::DEPTH;
use plan::form;

// Room for more answers than a plan has reads.
pub const ANSWERS: usize = 1300;

// Room for more than the workspace.
pub const WORKSPACE: usize = 60010;

// Room for more than a sheet.
pub const PAGE: usize = 14000;

// Room for all pairs of a server.
pub const PAIRS: usize = codes::pairs::PAIR_BYTES * DEPTH;

// The bytes of an answer in a form.
pub fn answer_bytes(form: usize) -> usize
    ensures { (result ≤ 6) × (result ≡ answer_size (width_of form)) }
{
    answers::size(form::width(form))
}

// The first byte of answer i.
pub fn answer_at(form: usize, i: usize) -> usize
    requires { i < 2 ^ 16 }
    ensures { (result ≤ 6 * 2 ^ 16) × (result ≡ answer_size (width_of form) * i) }
{
    answer_bytes(form) * i
}
