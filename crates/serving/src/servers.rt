// A server by value: each method takes it and hands it back. Its votes stand in the tallies, which are lent.
ghost use Rattle.std.specs.Prelude.{◌≡◌, List, ℕ, ◌<◌, ◌≤◌};
ghost use Rattle.register.specs.Server.{is_faulty, is_correct, cured_at};
ghost use Rattle.limits.specs.Bits.{bit};
ghost use Rattle.limits.specs.Limits.{most_servers, no_pair};
ghost use Rattle.tallies.specs.Tallies.{recent_at};
ghost use Rattle.serving.specs.Stored.{status_of, Becomes};
ghost use Rattle.stores.specs.Stores.{Faithful, Valued};
ghost use Rattle.serving.specs.Stages.{quorate, written, cure_ended};
ghost use Rattle.serving.specs.Methods.{Reachable, Heard, Voted, Reset};

use super::{Server, Status, Turn};
use calendar::Stamped;
use limits::PLACES;
use tables::Rules;
use tallies::{CELLS, RECENT};

pub fn is_faulty(s: Status) -> bool
    ensures { result ≡ is_faulty (status_of s) }
{
    matches!(s, Status::Faulty)
}

pub fn is_correct(s: Status) -> bool
    ensures { result ≡ is_correct (status_of s) }
{
    matches!(s, Status::Correct)
}

// 'A box curing since δ ticks ago.'
pub fn is_cured_at(s: Status, t: u8, delta: u8) -> bool
    ensures { result ≡ cured_at delta t (status_of s) }
{
    matches!(s, Status::Cured(since) if u16::from(since) + u16::from(delta) == u16::from(t))
}

// Do the voters of the present period and those of the last k periods make a quorum.
fn is_quorate(fresh: u16, recent: u16, rules: Rules) -> bool
    ensures { result ≡ quorate rules.echo rules.reply (λ i. bit i fresh) (λ i. bit i recent) }
{
    rules.echo <= fresh.count_ones() || rules.reply <= recent.count_ones()
}

impl Server {
    // Takes in the pair of a WRITE.
    pub fn write(mut self, p: Stamped) -> Self
        requires { p.number < no_pair }
        ensures { Becomes (written p.number) self result × ((values : List ℕ) → Valued values self.kept → Faithful values p → Valued values result.kept) }
    {
        self.kept = stores::insert(self.kept, p);
        self
    }

    // Notes a vote by each of these servers for a pair, whose cell is `at`, and takes the pair in if it has a quorum then.
    fn heard(self, sets: &mut [u16; CELLS], at: usize, got: u16, p: Stamped, rules: Rules) -> Self
        requires { (at < recent_at) × (p.number < no_pair) }
        ensures { Heard rules at got p self result sets.old sets.new }
    {
        let fresh = sets[at];
        let recent = sets[RECENT + at];
        tallies::join(sets, at, got);
        tallies::join(sets, RECENT + at, got);
        if is_quorate(fresh | got, recent | got, rules) {
            return self.write(p);
        }
        self
    }

    // Notes the votes that arrive, forged or not, and takes in each pair that has a quorum then. Only pairs that arrive are touched.
    pub fn vote(
        mut self,
        sets: &mut [u16; CELLS],
        work: &[u8],
        values: &[u32; PLACES],
        turn: Turn,
    ) -> Self
        requires { Reachable work.now sets.old values.now turn }
        ensures { Voted work.now values.now turn self result sets.old sets.new }
    {
        let from = tallies::of_server(turn.server);
        let end = calendar::high(work, turn.row).min(turn.m);
        for j in calendar::low(work, turn.row)..end {
            let got = calendar::senders(work, turn.row, j);
            let p = Stamped {
                number: j as u8,
                value: values[j],
            };
            self = self.heard(sets, from + j, got, p, turn.rules);
        }
        self
    }

    // Server b is wiped, and cures from tick t on.
    pub fn wipe(mut self, sets: &mut [u16; CELLS], b: usize, t: u8) -> Self
        requires { b < most_servers }
        ensures { Reset b t result sets.old sets.new }
    {
        let at = tallies::of_server(b);
        tallies::empty(sets, at);
        tallies::empty(sets, RECENT + at);
        self.status = Status::Cured(t);
        self.kept = stores::none();
        self.pending = 0;
        self
    }

    // Becomes correct if it was cured δ ticks ago.
    pub fn cure_end(mut self, t: u8, delta: u8) -> Self
        ensures { Becomes (cure_ended delta t) self result × (result.kept ≡ self.kept) }
    {
        if is_cured_at(self.status, t, delta) {
            self.status = Status::Correct;
        }
        self
    }
}
