// What a report says of a sale.

// A bid of the award.
#[derive(Clone, Copy, Debug, Drop)]
pub struct Winner {
    pub number: usize,
    pub buyer: u32,
    pub price: u32,
}

// What a buyer with a winning bid is charged.
#[derive(Clone, Copy, Debug, Drop)]
pub struct Payment {
    pub buyer: u32,
    pub amount: u64,
}

// The award's revenue, its bids by number, what the buyers with a winning bid pay, in rising order of buyer, in how many ways the
// revenue is reached, and up to three of the greatest amounts that clash-free sets of bids fetch.
#[derive(Drop)]
pub struct Summary {
    pub revenue: u64,
    pub winners: Vec<Winner>,
    pub payments: Vec<Payment>,
    pub ways: u64,
    pub top: [Option<u64>; 3],
}
