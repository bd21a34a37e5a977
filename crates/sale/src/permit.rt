// Permitting packages.
ghost use Rattle.std.specs.Prelude.{◌≡◌, false, is_ok, if◌then◌else◌, vec_len, slice_set};
ghost use Rattle.books.specs.Book.{permit as permit_call};
ghost use Rattle.sale.specs.Holds.{Obeys};
ghost use Rattle.sale.specs.Refusals.{reply, permit_refusal};

use crate::fault::PermitFault;
use crate::state::Sale;
use packages::Package;
use packages::place::place;

impl<P: Package> Sale<P> {
    // Permits `package`, and answers its number.
    pub fn permit(&mut self, package: P) -> Result<usize, PermitFault>
        ensures rules { Obeys P.Package.meaning self.old self.new (permit_call (P.Package.meaning «package»)) (reply permit_refusal result) }
        ensures table { self.new.table.items ≡ (if is_ok result then slice_set self.old.table.items (vec_len self.old.nest.parents) «package» else self.old.table.items) }
        ensures refused { is_ok result ≡ false → self.new ≡ self.old }
    {
        if !package.fits(self.lots) {
            return Err(PermitFault::DoesNotFit);
        }
        let count = self.nest.parents.len();
        if self.package_space() <= count {
            return Err(PermitFault::NoSpace);
        }
        let parent = place(self.packages(), &package)?;
        self.table[count] = package;
        self.nest.parents.push_reserved(parent);
        Ok(count + 1)
    }
}
