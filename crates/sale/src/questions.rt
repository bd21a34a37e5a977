// Questions about a sale.
ghost use Rattle.std.specs.Prelude.{◌≡◌, min, map, None, vec_len};
ghost use Rattle.std.specs.Option.{option_map};
ghost use Rattle.bids.specs.Limits.{max_packages};
ghost use Rattle.packages.specs.Places.{Numbered};
ghost use Rattle.books.specs.Nested.{Parent};
ghost use Rattle.sale.specs.Holds.{permitted};
ghost use Rattle.sale.specs.Questions.{ByBook, numbered};

use crate::state::Sale;
use bids::Bid;
use bids::limits::MAX_PACKAGES;
use packages::Package;

// The entry with this number, counted from 1, if there is one.
fn numbered<T: Copy>(entries: &[T], number: usize) -> Option<T>
    ensures { result ≡ numbered entries.now number }
{
    entries.get(number.checked_sub(1)?).copied()
}

impl<P: Package> Sale<P> {
    // The number of lots.
    pub fn lots(&self) -> u32
        ensures { ByBook P.Package.meaning self.now (λ b. result ≡ b.lots) }
    {
        self.lots
    }

    // How many packages the sale can have.
    pub fn package_space(&self) -> usize
        ensures places { result ≡ min max_packages (vec_len self.now.table) }
        ensures book { ByBook P.Package.meaning self.now (λ b. result ≡ b.space) }
    {
        MAX_PACKAGES.min(self.table.len())
    }

    // The permitted packages, the first numbered 1.
    pub fn packages(&self) -> &[P]
        ensures stored { result.now ≡ permitted self.now }
        ensures book { ByBook P.Package.meaning self.now (λ b. map P.Package.meaning result.now ≡ b.packages) }
    {
        &self.table.as_slice()[0..self.nest.parents.len()]
    }

    // The numbered bids, the first numbered 1.
    pub fn bids(&self) -> &[Bid]
        ensures { ByBook P.Package.meaning self.now (λ b. result.now ≡ b.bids) }
    {
        self.nest.bids.as_slice()
    }

    // The package with this number, if there is one.
    pub fn package(&self, number: usize) -> Option<P>
        ensures stored { result ≡ numbered (permitted self.now) number }
        ensures book { ByBook P.Package.meaning self.now (λ b. option_map P.Package.meaning result ≡ numbered b.packages number) }
    {
        numbered(self.packages(), number)
    }

    // The bid with this number, if there is one.
    pub fn bid(&self, number: usize) -> Option<Bid>
        ensures { ByBook P.Package.meaning self.now (λ b. result ≡ numbered b.bids number) }
    {
        numbered(self.bids(), number)
    }

    // The number of the innermost package around package `number`, if there is one.
    pub fn parent(&self, number: usize) -> Option<usize>
        ensures innermost { ByBook P.Package.meaning self.now (λ b. Numbered b.packages number → Parent b.packages number result) }
        ensures beyond { ByBook P.Package.meaning self.now (λ b. (Numbered b.packages number → ⊥) → result ≡ None) }
    {
        numbered(self.nest.parents.as_slice(), number).flatten()
    }
}
