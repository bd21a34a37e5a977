// What is shown of files: their outcomes are unique, orderly and computed.
ghost use Rattle.salefile.specs.Reading.{Exact};
ghost use Rattle.salefile.specs.Orderly.{AllOrderly, AllNested};
ghost use Rattle.salefile.specs.Unique.{Unique};

// Each file has one outcome.
pub fn outcome_is_unique()
    ensures { Unique }
{}

// The packages and bids of an accepted file can be taken up in their order.
pub fn contents_are_orderly()
    ensures runs { AllOrderly }
    ensures nest { AllNested }
{}

// The computed reading of a file is the one outcome that the rules define.
pub fn reading_is_exact()
    ensures { Exact }
{}
