// The winning bids of a nest, and what they come to.
ghost use Rattle.std.specs.Prelude.{◌≡◌, ℕ, ◌≤◌, length, vec_len};
ghost use Rattle.contest.specs.Contest.{award as award_in, sum_over};
ghost use Rattle.contest.specs.Descent.{flag, Marks};
ghost use Rattle.nest.specs.Contests.{contest_of_nest};
ghost use Rattle.nest.specs.Choosing.{worth_by};
ghost use Rattle.nest.specs.Asking.{Askable, Answers};
ghost use Rattle.nest.specs.Awards.{Awarded};

use crate::choices::Choices;
use crate::fault::AwardFault;
use crate::nest::Nest;
use bids::Bid;
use bids::limits::{MAX_BIDS, MAX_PACKAGES};
use scales::tied::Tied;

// For each bid of a nest whether it wins. An array, since what is asked of a nest does not fail for want of memory.
#[derive(Drop)]
pub(crate) struct Winners<'a> {
    nest: &'a Nest,
    wins: [bool; MAX_BIDS],
    ghost are_award: { (k : ℕ) → 1 ≤ k → k ≤ vec_len nest.now.bids → flag wins k ≡ award_in (contest_of_nest nest.now) k },
}

impl<'a> Winners<'a> {
    // A bid wins if its package is open, and no lower number is in a best choice there.
    pub(crate) fn of(nest: &'a Nest) -> Winners<'a>
        ensures { result.nest.now ≡ nest.now }
    {
        let mut best = [Tied::Nothing; MAX_PACKAGES];
        let choices = Choices::of(nest, &mut best);
        let opened = choices.opened();
        let mut wins = [false; MAX_BIDS];
        for (i, bid) in nest.bids.iter().enumerate() {
            wins[i] = opened[bid.package - 1] && choices.lowest_in(bid.package) == Some(i + 1);
        }
        Winners { nest, wins }
    }

    // The sum over the winning bids of `value`, which is asked about each with its number.
    pub(crate) fn sum<F: Fn(usize, Bid) -> u32>(&self, value: F) -> u64
        requires { Askable (F.pre value) self.now.nest.now.bids.items }
        ensures { let c = contest_of_nest self.now.nest.now in (at : ℕ → Bid → ℕ) → Answers (λ v. v) (F.post value) self.now.nest.now.bids.items at → result ≡ sum_over c.count (award_in c) (worth_by (λ v. v) at self.now.nest.now.bids.items) }
    {
        let mut sum = 0;
        for (i, bid) in self.nest.bids.iter().enumerate() {
            // Every bid is asked for its value, so that the loop need not branch on which bids win.
            let all = u64::from(value(i + 1, *bid));
            sum += if self.wins[i] { all } else { 0 };
        }
        sum
    }

    // Writes 1 for each winning bid and 0 for each other, and leaves later bytes: by the rules an award is a list of bytes. Bytes and
    // flags have the same numbers, those of the bids; zipping them would say no more.
    fn write(&self, out: &mut [u8])
        requires { vec_len self.now.nest.now.bids ≤ length out.old }
        ensures { let c = contest_of_nest self.now.nest.now in Marks c.count (award_in c) out.old out.new }
    {
        for (i, byte) in out[..self.nest.bids.len()].iter_mut().enumerate() {
            *byte = u8::from(self.wins[i]);
        }
    }
}

impl Nest {
    // Writes 1 for each winning bid and 0 for each other, bid 1 first, and answers the revenue and the number of winning bids.
    pub fn award(&self, out: &mut [u8]) -> Result<(u64, usize), AwardFault>
        ensures { Awarded (contest_of_nest self.now) out.old out.new result }
    {
        if out.len() < self.bids.len() {
            return Err(AwardFault::TooShort);
        }
        let winners = Winners::of(self);
        winners.write(out);
        Ok((
            winners.sum(|_, bid| bid.price),
            winners.sum(|_, _| 1) as usize,
        ))
    }
}
