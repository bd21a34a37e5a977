// The limits that the rules set for a sale.
ghost use Rattle.std.specs.Prelude.{◌≡◌};
ghost use Rattle.bids.specs.Limits.{is_buyer, is_price};

// The most packages of a sale.
pub const MAX_PACKAGES: usize = 256;

// The most numbered bids of a sale, the withdrawn ones among them.
pub const MAX_BIDS: usize = 512;

// Buyers are numbered from 1.
pub const HIGHEST_BUYER: u64 = 999;

// Prices are whole crowns, from 1.
pub const HIGHEST_PRICE: u64 = 1_000_000_000;

// Whether a buyer may have this number.
pub fn is_buyer(number: u64) -> bool
    ensures { result ≡ is_buyer number }
{
    (1..=HIGHEST_BUYER).contains(&number)
}

// Whether a bid may have this price.
pub fn is_price(crowns: u64) -> bool
    ensures { result ≡ is_price crowns }
{
    (1..=HIGHEST_PRICE).contains(&crowns)
}
