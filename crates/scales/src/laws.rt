// What holds of the scales beyond their laws. Theorems only.
ghost use Rattle.scales.specs.Best.{KeepsGreatest, OnlyGreatest};
ghost use Rattle.scales.specs.BestThree.{best_of};
ghost use Rattle.scales.specs.Count.{count_of};
ghost use Rattle.scales.specs.Lowest.{lowest_of};
ghost use Rattle.scales.specs.Meanings.{revenue_from, count_from, best_from, lowest_from, MeansBack, TiedMeansBack};
ghost use Rattle.scales.specs.Revenue.{revenue_of};
ghost use Rattle.scales.specs.Tells.{OneToFour, TellsApart};
ghost use Rattle.scales.specs.Worked.{RevenueWorked, CountWorked, BestWorked, TiedWorked, LowestWorked};

use crate::Scale;

// Every meaning of a scale is that of a value.
pub fn meanings_are_values()
    ensures revenue { MeansBack revenue_from revenue_of }
    ensures count { MeansBack count_from count_of }
    ensures best { MeansBack best_from best_of }
    ensures lowest { MeansBack lowest_from lowest_of }
{}

// So is every meaning of Tied, over any scale of which that holds.
pub fn tied_meanings_are_values<S: Scale>()
    ensures { TiedMeansBack S.Scale.meaning }
{}

// The amounts that are kept of a list are its greatest: of them as many reach any threshold as of the whole list, up to k,
// and no other value has that.
pub fn greatest_are_kept()
    ensures keeps { KeepsGreatest }
    ensures only { OnlyGreatest }
{}

// Count is not trivial: so many ones added differ from any other number of ones.
pub fn counts_differ()
    ensures four { OneToFour }
    ensures apart { TellsApart }
{}

// Worked values, shown of the definitions themselves.
pub fn worked_values()
    ensures revenue { RevenueWorked }
    ensures count { CountWorked }
    ensures best { BestWorked }
    ensures tied { TiedWorked }
    ensures lowest { LowestWorked }
{}
