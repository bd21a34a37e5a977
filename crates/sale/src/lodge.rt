// Lodging and withdrawing bids.
ghost use Rattle.std.specs.Prelude.{◌≡◌, false, is_ok};
ghost use Rattle.books.specs.Book.{lodge as lodge_call, withdraw as withdraw_call};
ghost use Rattle.sale.specs.Holds.{Obeys};
ghost use Rattle.sale.specs.Refusals.{reply, lodge_refusal, withdraw_refusal};

use crate::fault::{LodgeFault, WithdrawFault};
use crate::state::Sale;
use bids::Bid;
use bids::limits::{MAX_BIDS, is_buyer, is_price};
use packages::Package;

impl<P: Package> Sale<P> {
    // Lodges a bid, and answers its number.
    pub fn lodge(&mut self, buyer: u32, price: u32, package: usize) -> Result<usize, LodgeFault>
        ensures rules { Obeys P.Package.meaning self.old self.new (lodge_call buyer price «package») (reply lodge_refusal result) }
        ensures table { self.new.table ≡ self.old.table }
        ensures refused { is_ok result ≡ false → self.new ≡ self.old }
    {
        if !is_buyer(u64::from(buyer)) {
            return Err(LodgeFault::NotBuyer);
        }
        if !is_price(u64::from(price)) {
            return Err(LodgeFault::NotPrice);
        }
        if package < 1 || self.nest.parents.len() < package {
            return Err(LodgeFault::NoPackage);
        }
        if self.nest.bids.len() >= MAX_BIDS {
            return Err(LodgeFault::Full);
        }
        self.nest
            .bids
            .push_reserved(Bid::new(buyer, price, package));
        Ok(self.nest.bids.len())
    }

    // Withdraws the bid numbered `number`, and answers its price.
    pub fn withdraw(&mut self, number: usize) -> Result<u32, WithdrawFault>
        ensures rules { Obeys P.Package.meaning self.old self.new (withdraw_call number) (reply withdraw_refusal result) }
        ensures table { self.new.table ≡ self.old.table }
        ensures refused { is_ok result ≡ false → self.new ≡ self.old }
    {
        if number < 1 || self.nest.bids.len() < number {
            return Err(WithdrawFault::NoBid);
        }
        let bid = self.nest.bids[number - 1];
        if bid.withdrawn {
            return Err(WithdrawFault::AlreadyWithdrawn);
        }
        self.nest.bids[number - 1] = bid.marked_withdrawn();
        Ok(bid.price)
    }
}
