#![tactic(auto)]
// What the regular register allows as an answer to one read, and whether a write is concurrent with it.
ghost use Rattle.std.specs.Prelude.{◌≡◌, List, ℕ, ◌+◌, ◌*◌, ◌^◌, ◌≤◌, ◌<◌, leb, get_or};
ghost use Rattle.register.specs.Lists.{any};
ghost use Rattle.register.specs.Plan.{Plan, Read, Write, stamped};
ghost use Rattle.register.specs.Regular.{finished, concurrent, allowed};
ghost use Rattle.regular.specs.Tables.{Tables, Last};

use tables::operations::Writes;

// The writes of a plan by number, and δ: how long one lasts.
#[derive(Clone, Copy)]
pub struct Times {
    pub writes: Writes,
    pub delta: u8,
    // There is the initial pair.
    pub ghost some: { 1 ≤ writes.known.m },
}

// Did a write begun in tick `begun` finish before a read begun in tick `read`?
fn is_finished(begun: u8, delta: u8, read: u8) -> bool
    ensures { (P : Plan) (x : Read) (w : Write) → P.delta ≡ delta → x.begun ≡ read → w.begun ≡ begun → result ≡ finished P x w }
{
    u16::from(begun) + u16::from(delta) <= u16::from(read)
}

// Did a write begun in tick `begun` begin by the end of a read begun in tick `read`?
fn is_begun_by_end(begun: u8, delta: u8, read: u8) -> bool
    ensures { result ≡ leb begun (read + 2 * delta) }
{
    u16::from(begun) <= u16::from(read) + 2 * u16::from(delta)
}

impl Times {
    // The highest number of a write that finished before the read; 0, the initial pair's, if none did.
    fn last_finished(&self, read: u8) -> usize
        ensures { (result < self.now.writes.known.m) × ((P : Plan) (x : Read) (w : ℕ → Write) → P.delta ≡ self.now.delta → x.begun ≡ read
            → ((j : ℕ) → (w j).begun ≡ get_or self.now.writes.begun j 0) → Last (λ j. finished P x (w j)) self.now.writes.known.m result) }
    {
        let mut last: usize = 0;
        for j in 1..self.writes.known.m {
            if is_finished(self.writes.begun[j], self.delta, read) {
                last = j;
            }
        }
        last
    }

    // Is some write concurrent with a read begun in tick `read`: did the first one that had not finished before it begin by its end?
    pub fn has_concurrent(&self, read: u8) -> bool
        ensures { (w : ℕ) (P : Plan) (x : Read) (values : List ℕ) → Tables w P values self.now.writes.begun self.now.writes.known.m
            → P.delta ≡ self.now.delta → x.begun ≡ read → result ≡ any (concurrent P x) P.writes }
    {
        let next = self.last_finished(read) + 1;
        next < self.writes.known.m && is_begun_by_end(self.writes.begun[next], self.delta, read)
    }

    // Does the regular register allow this value and number as an answer to a read begun in tick `read`?
    pub fn is_allowed(&self, read: u8, value: u32, number: u8) -> bool
        ensures { (w : ℕ) (P : Plan) (x : Read) → value < 2 ^ w → Tables w P self.now.writes.known.values self.now.writes.begun self.now.writes.known.m
            → P.delta ≡ self.now.delta → x.begun ≡ read → result ≡ allowed P x (stamped w value number) }
    {
        let last = self.last_finished(read);
        let j = usize::from(number);
        j < self.writes.known.m
            && self.writes.known.values[j] == value
            && (j == last || last < j && is_begun_by_end(self.writes.begun[j], self.delta, read))
    }
}
