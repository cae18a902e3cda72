#![tactic(auto)]
// A plan's bytes from a file or from standard input.
ghost use Rattle.std.specs.Prelude.{◌≡◌, ◌-◌, ◌≤◌};
ghost use Rattle.input.specs.Taken.{Moved, Within, next_of};

use std::io;
use std::io::Read;
use std::ops::ControlFlow;

// What comes after a read that answered `got`, with `done` bytes of the buffer's `room` taken before it: reading stops with so many bytes, or goes on
// with so many.
fn after(got: io::Result<usize>, done: usize, room: usize) -> io::Result<ControlFlow<usize, usize>>
    requires { (done ≤ room) × Moved (room - done) got }
    ensures { result ≡ next_of got done }
{
    let more = got?;
    if more == 0 {
        return Ok(ControlFlow::Break(done));
    }
    Ok(ControlFlow::Continue(done + more))
}

// Reads until the input ends, the buffer is full or a read fails: how many bytes there are at the start of the buffer, or the system's reason.
pub fn take<R: Read>(input: &mut R, bytes: &mut [u8]) -> io::Result<usize>
    ensures { Within result bytes.new }
{
    let mut done: usize = 0;
    // Each read says how far it came, so this counts no range.
    while done < bytes.len() {
        let got = input.read(&mut bytes[done..]);
        match after(got, done, bytes.len())? {
            ControlFlow::Break(all) => return Ok(all),
            ControlFlow::Continue(all) => done = all,
        }
    }
    Ok(done)
}
