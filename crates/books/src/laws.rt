// What holds of the books of all histories.
ghost use Rattle.books.specs.Loading.{AlwaysLoads, Replays};
ghost use Rattle.books.specs.Nested.{AlwaysSound};
ghost use Rattle.books.specs.Appraisals.{AlwaysSums};
ghost use Rattle.books.specs.Examples.{WorkedOut};
ghost use Rattle.books.specs.Sold.{SoldSizes};
ghost use Rattle.books.specs.Worked.{WorkedFiles, WorkedRuns};

// In every book that a history reaches the packages form a nest and the bids are within their limits.
pub fn books_are_sound()
    ensures { AlwaysSound }
{}

// What load answers and writes is what the rules say of the file, and an accepted load
// gives the book of a sale in which each package is permitted and each bid lodged.
pub fn loads_are_replayed()
    ensures loads { AlwaysLoads }
    ensures replays { Replays }
{}

// The lots that clash-free bids sell are as many as their packages have together.
pub fn lots_are_sold_once()
    ensures { SoldSizes }
{}

// Appraisals give the award's revenue, how many clash-free sets fetch as much, and the greatest revenues of such sets.
pub fn appraisals_count_choices()
    ensures { AlwaysSums }
{}

// Worked sales, calls and files come out as the rules say.
pub fn worked_sales()
    ensures sales { WorkedOut }
    ensures runs { WorkedRuns }
    ensures files { WorkedFiles }
{}
