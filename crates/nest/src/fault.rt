// Why a call is refused.
ghost use Rattle.std.specs.Prelude.{◌≡◌};
ghost use Rattle.nest.specs.Totals.{total_refusal};
ghost use Rattle.nest.specs.Awards.{award_refusal};
ghost use Rattle.nest.specs.Charges.{charge_refusal};

#[derive(Clone, Copy, PartialEq, Eq, Debug)]
pub enum TotalFault {
    // The worths are not exactly one for each numbered bid.
    Worths,
    // The workspace is shorter than the packages.
    Workspace,
}

impl TotalFault {
    // The refusal's number and its place: the rules number the refusals.
    pub fn refusal(self) -> (u8, usize)
        ensures { result ≡ total_refusal self }
    {
        match self {
            TotalFault::Worths => (14, 0),
            TotalFault::Workspace => (15, 0),
        }
    }
}

#[derive(Clone, Copy, PartialEq, Eq, Debug)]
pub enum AwardFault {
    // The list is shorter than the numbered bids.
    TooShort,
}

impl AwardFault {
    // The refusal's number and its place: the rules number the refusals.
    pub fn refusal(self) -> (u8, usize)
        ensures { result ≡ award_refusal self }
    {
        match self {
            AwardFault::TooShort => (16, 0),
        }
    }
}

#[derive(Clone, Copy, PartialEq, Eq, Debug)]
pub enum ChargeFault {
    // No buyer has this number.
    Buyer,
    // The buyer has no numbered bid.
    NoBid,
}

impl ChargeFault {
    // The refusal's number and its place: the rules number the refusals.
    pub fn refusal(self) -> (u8, usize)
        ensures { result ≡ charge_refusal self }
    {
        match self {
            ChargeFault::Buyer => (12, 0),
            ChargeFault::NoBid => (32, 0),
        }
    }
}
