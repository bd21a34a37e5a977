// Theorems about packages, on the contracts of functions.
ghost use Rattle.std.specs.Prelude.{◌≡◌};
ghost use Rattle.packages.specs.Examples.{MasksWorked};
ghost use Rattle.packages.specs.Lots.{highest_run_lot, highest_mask_lot};
ghost use Rattle.packages.specs.Places.{PlaceRight};
ghost use Rattle.packages.specs.Sets.{Exact, TrueAnswers};

use crate::mask::Mask;
use crate::package::Package;
use crate::relation::Relation;
use crate::run::Run;

// The definitions that contracts cite mean what their words say, for all sets of lots,
// and give what the rules say of the masks 5, 4, 6 and 7.
pub fn tests_are_exact()
    ensures sets { Exact }
    ensures place { PlaceRight }
    ensures masks { MasksWorked }
{}

// Whether a package fits among `lots` lots, and how it stands to another.
// The contract holds for every kind by the trait alone. So a kind that turned everything away,
// or called all sets apart, would not meet the trait.
pub fn answers<P: Package>(one: &P, other: &P, lots: u32) -> (bool, Relation)
    ensures { TrueAnswers lots (P.Package.meaning one.now) (P.Package.meaning other.now) result.0 result.1 }
{
    (one.fits(lots), one.compare(other))
}

// The highest lots of runs and of masks, as their constants name them.
pub fn highest_lots() -> (u32, u32)
    ensures runs { result.0 ≡ highest_run_lot }
    ensures masks { result.1 ≡ highest_mask_lot }
{
    (Run::HIGHEST, Mask::HIGHEST)
}
