// Runs of lots.
ghost use Rattle.std.specs.Prelude.{◌≡◌};
ghost use Rattle.packages.specs.Lots.{run_lots, highest_run_lot, within, apart};
ghost use Rattle.packages.specs.Runs.{run_has};

use crate::package::Package;
use crate::relation::Relation;

// The lots from `first` to `last`; none where `last` is below `first`.
#[derive(Clone, Copy, PartialEq, Eq, Debug)]
pub struct Run {
    pub first: u16,
    pub last: u16,
}

impl Run {
    // Whether each lot of this run is one of the other; a run without lots is within every run.
    fn within(&self, other: &Run) -> bool
        ensures { result ≡ within (run_lots self.now.first self.now.last) (run_lots other.now.first other.now.last) }
    {
        self.last < self.first || (other.first <= self.first && self.last <= other.last)
    }

    // Whether no lot is in both: what they share would end before it begins.
    fn apart(&self, other: &Run) -> bool
        ensures { result ≡ apart (run_lots self.now.first self.now.last) (run_lots other.now.first other.now.last) }
    {
        self.first.max(other.first) > self.last.min(other.last)
    }
}

impl Package for Run {
    const HIGHEST: u32 = 65_535;

    ghost HIGHEST = { highest_run_lot };

    ghost meaning = { λ r. run_lots r.first r.last };

    ghost bounded = { λ p k e. (run_has p.first p.last k e).2 };

    fn fits(&self, lots: u32) -> bool {
        1 <= self.first && self.first <= self.last && u32::from(self.last) <= lots
    }

    fn compare(&self, other: &Run) -> Relation {
        Relation::first_true(self.within(other), other.within(self), self.apart(other))
    }

    fn size(&self) -> u32 {
        (u32::from(self.last) + 1).saturating_sub(u32::from(self.first))
    }
}
