// A bid, as files and sales hold it.
ghost use Rattle.std.specs.Prelude.{◌≡◌};
ghost use Rattle.bids.specs.Bids.{new_bid, marked};

// A buyer's price for a package, by the package's number from 1. A withdrawn bid keeps its number.
#[derive(Clone, Copy, PartialEq, Eq, Debug)]
pub struct Bid {
    pub buyer: u32,
    pub price: u32,
    pub package: usize,
    pub withdrawn: bool,
}

impl Bid {
    // A bid that stands.
    pub fn new(buyer: u32, price: u32, package: usize) -> Bid
        ensures { result ≡ new_bid buyer price «package» }
    {
        Bid {
            buyer,
            price,
            package,
            withdrawn: false,
        }
    }

    // The same bid, withdrawn.
    pub fn marked_withdrawn(self) -> Bid
        ensures { result ≡ marked self }
    {
        Bid {
            withdrawn: true,
            ..self
        }
    }
}
