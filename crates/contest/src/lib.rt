// Contests of bids that stand and clash: their totals, awards and charges. Theorems only.
#![tactic(auto)]

ghost use Rattle.contest.specs.Nest.{Splits};
ghost use Rattle.contest.specs.Lots.{NestIsSets};
ghost use Rattle.contest.specs.Appraised.{WaysCounted, TopFetched};
ghost use Rattle.contest.specs.Coded.{TotalsTell};
ghost use Rattle.contest.specs.Telling.{SameAgree, AgreeSame};
ghost use Rattle.contest.specs.Theorems.{TotalKeeps, AlwaysOneAward, ChargesWhole, TruthAlwaysPays, DescentAwards, TotalChooses, ChoicesTotal, RevenueTotal, WithoutTotal, NoughtDrops, AlikeSame};

use scales::Scale;

// In a nest a package's total is the product over its children and the sum of its own worths, for every lawful scale.
pub fn nest_splits<S: Scale>()
    ensures { Splits S.Scale.ring }
{}

// In a nest of sets of lots two packages share a lot exactly where one is the other or lies inside it.
pub fn nest_is_sets()
    ensures { NestIsSets }
{}

// The same contests have the same totals, in every lawful scale, and bids of worth nought count as if they did not stand.
pub fn same_contests_agree<S: Scale>()
    ensures same { SameAgree S.Scale.ring }
    ensures nought { NoughtDrops S.Scale.Meaning }
{}

// Contests with the same counts are the same.
pub fn counts_tell_contests()
    ensures counts { AgreeSame }
    ensures coded { TotalsTell }
{}

// There is one award, charges are whole, and truth pays.
pub fn awards_and_charges()
    ensures award { AlwaysOneAward }
    ensures charge { ChargesWhole }
    ensures truth { TruthAlwaysPays }
    ensures alike { AlikeSame }
{}

// What a total sums over are the clash-free sets.
pub fn totals_go_over_clash_free_sets()
    ensures { TotalKeeps }
{}

// A total of prices has the best revenue: alone, without the bids of one buyer, or with the lowest bid number in any best set.
pub fn totals_are_best<S: Scale>()
    ensures scale { TotalChooses S.Scale.Meaning }
    ensures choices { ChoicesTotal }
    ensures revenue { RevenueTotal }
    ensures without { WithoutTotal }
{}

// The award is found by one way down the nest, from the lowest numbers in any best set inside each package.
pub fn descent_awards()
    ensures { DescentAwards }
{}

// In Tied over Count a total of prices is the best revenue with the number of clash-free sets that fetch it, and in Best three it is
// the three greatest revenues of such sets.
pub fn appraisals_count_choices()
    ensures ways { WaysCounted }
    ensures top { TopFetched }
{}
