// The stages of one server's tick.
ghost use Rattle.std.specs.Prelude.{◌≡◌, false, cond, ◌≤◌, ◌<◌};
ghost use Rattle.register.specs.Server.{is_faulty};
ghost use Rattle.limits.specs.Limits.{most_servers, places};
ghost use Rattle.serving.specs.Stored.{status_of, server, Becomes};
ghost use Rattle.stores.specs.Stores.{Valued};
ghost use Rattle.serving.specs.Stages.{with_write};
ghost use Rattle.serving.specs.Settled.{Settled};
ghost use Rattle.serving.specs.Methods.{Reachable, DeliveredTo, MovedTo};

use super::{Server, Status, Turn, servers};
use calendar::Stamped;
use limits::PLACES;
use tallies::CELLS;

// A server after stage 1, and the readers to which it sends its pairs then.
#[derive(Clone, Copy)]
pub struct Delivered {
    pub server: Server,
    pub readers: u8,
}

// The readers that get a reply in stage 1.
fn replied(correct: bool, same: bool, asks: u8, pending: u8) -> u8
    ensures { result ≡ cond correct (cond same asks pending) 0 }
{
    match (correct, same) {
        (false, _) => 0,
        (true, true) => asks,
        (true, false) => pending,
    }
}

impl Server {
    // The WRITE's pair, if it is a known one.
    fn take_write(self, wrote: u8, values: &[u32; PLACES], m: usize) -> Self
        requires { m ≤ places }
        ensures { Becomes (with_write m wrote) self result × (Valued values.now self.kept → Valued values.now result.kept) }
    {
        let at = usize::from(wrote);
        if at < m {
            return self.write(Stamped {
                number: wrote,
                value: values[at],
            });
        }
        self
    }

    // Stage 1 at a server that is not faulty.
    pub fn deliver(
        self,
        sets: &mut [u16; CELLS],
        work: &[u8],
        values: &[u32; PLACES],
        turn: Turn,
    ) -> Delivered
        requires { Reachable work.now sets.old values.now turn × (is_faulty (status_of self.status) ≡ false)
            × Settled turn.m turn.rules.echo turn.rules.reply (server turn.m sets.old turn.server self) }
        ensures { DeliveredTo work.now values.now turn self result sets.old sets.new }
    {
        let written = self.take_write(turn.wrote, values, turn.m);
        let mut server = written.vote(sets, work, values, turn);
        server.pending = (self.pending & turn.live) | turn.asks;
        let readers = replied(
            servers::is_correct(self.status),
            stores::is_same(self.kept, server.kept),
            turn.asks,
            server.pending,
        );
        Delivered { server, readers }
    }

    // Stage 3 at server b, where the placement makes it faulty or not; its new voting period has begun.
    pub fn moved(self, sets: &mut [u16; CELLS], b: usize, faulty: bool, t: u8) -> Self
        requires { b < most_servers }
        ensures { MovedTo b faulty t self result sets.old sets.new }
    {
        if faulty {
            return Server {
                status: Status::Faulty,
                ..self.wipe(sets, b, t)
            };
        }
        if servers::is_faulty(self.status) {
            return self.wipe(sets, b, t);
        }
        self
    }
}
