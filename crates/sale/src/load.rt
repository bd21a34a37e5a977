// Loading a file into a sale of runs.
ghost use Rattle.std.specs.Prelude.{◌≡◌, min, false, ◌++◌, drop, IfSome, is_ok, vec_len};
ghost use Rattle.bids.specs.Limits.{max_packages};
ghost use Rattle.salefile.specs.FileContents.{contents_of, run_set};
ghost use Rattle.salefile.specs.Orderly.{Orderly};
ghost use Rattle.books.specs.Book.{load as load_call, file_book};
ghost use Rattle.books.specs.Loading.{Standing};
ghost use Rattle.sale.specs.Holds.{Holds, Obeys};
ghost use Rattle.sale.specs.Loaded.{Stored};
ghost use Rattle.sale.specs.Refusals.{load_reply};

use crate::fault::LoadFault;
use crate::state::Sale;
use packages::Run;
use salefile::contents::Contents;
use salefile::fault::{Fault, ReadFault};
use salefile::limits::MAX_BYTES;
use salefile::read::read;
use std::alloc::Global;

impl Sale<Run> {
    // Takes up what a file says. Its packages and bids are never refused.
    fn take_up(&mut self, contents: &Contents)
        requires no_packages { vec_len self.old.nest.parents ≡ 0 }
        requires no_bids { vec_len self.old.nest.bids ≡ 0 }
        requires orderly { Orderly (min max_packages (vec_len self.old.table)) (contents_of contents.now) }
        requires standing { Standing contents.now.bids.items }
        ensures holds { Holds run_set self.new (file_book (contents_of contents.now) (min max_packages (vec_len self.old.table))) }
        ensures table { self.new.table.items ≡ contents.now.packages.items ++ drop (vec_len contents.now.packages) self.old.table.items }
    {
        self.lots = u32::from(contents.lots);
        for run in &contents.packages {
            self.permit(*run).unwrap();
        }
        for bid in &contents.bids {
            self.lodge(bid.buyer, bid.price, bid.package).unwrap();
        }
    }

    // Loads a file, and answers the number of its bids.
    pub fn load(&mut self, heap: Global, file: &[u8]) -> Result<usize, LoadFault>
        ensures rules { IfSome (load_reply result) (λ a. Obeys run_set self.old self.new (load_call file.now) a) }
        ensures table { Stored file.now self.old.table.items result self.new.table.items }
        ensures refused { is_ok result ≡ false → self.new ≡ self.old }
    {
        // The one refusal that comes before that of a sale with packages or bids; no call answers it, so there is none to convert.
        if file.len() > MAX_BYTES {
            return Err(LoadFault::Read(ReadFault::File(Fault::TooLong)));
        }
        if self.nest.parents.len() != 0 || self.nest.bids.len() != 0 {
            return Err(LoadFault::NotEmpty);
        }
        let contents = read(heap, file, self.table.len())?;
        self.take_up(&contents);
        Ok(contents.bids.len())
    }
}
