// How a file is read into a draft, line by line.
ghost use Rattle.std.specs.Prelude.{◌≡◌, ◌+◌, ◌<◌, ◌≤◌, [], ◌∷◌, IfOk, ◌≢◌};
ghost use Rattle.lines.specs.Kinds.{ending, header, opening, closing, bid as bid_line};
ghost use Rattle.lines.specs.Reader.{kind_of};
ghost use Rattle.bids.specs.Limits.{max_packages};
ghost use Rattle.salefile.specs.Draft.{Finishes, Keeps, Step};

use crate::contents::Contents;
use crate::draft::{Draft, Opened};
use crate::fault::Fault;
use bids::Bid;
use bids::limits::{MAX_BIDS, MAX_PACKAGES, is_buyer, is_price};
use lines::{Line, Number, Numbered, Unreadable};
use packages::Run;
use std::alloc::{AllocError, Global};

impl Draft {
    // The draft after the header.
    pub(crate) fn new(heap: Global, space: usize) -> Result<Draft, AllocError>
        requires { space ≤ max_packages }
        ensures { IfOk result (λ d. (d.space ≡ space) × Keeps (header ∷ []) d) }
    {
        let packages = Vec::with_capacity(heap, MAX_PACKAGES)?;
        let unclosed = Vec::with_capacity(heap, MAX_PACKAGES)?;
        let bids = Vec::with_capacity(heap, MAX_BIDS)?;
        Ok(Draft {
            space,
            lots: 0,
            packages,
            unclosed,
            bids,
        })
    }

    fn open(&mut self, line: usize) -> Result<(), Fault>
        requires { self.old.lots < 65535 }
        ensures { Step line opening self.old result self.new }
    {
        let package = self.packages.len();
        if package >= self.space {
            return Err(Fault::NoSpace { line });
        }
        let first = self.lots + 1;
        // The package has its number from here on; its last lot is written when it closes, before anyone reads it.
        self.packages.push_reserved(Run { first, last: 0 });
        self.unclosed.push_reserved(Opened {
            package,
            line,
            first,
        });
        Ok(())
    }

    fn close(&mut self, line: usize) -> Result<(), Fault>
        ensures { Step line closing self.old result self.new }
    {
        let Some(top) = self.unclosed.pop() else {
            return Err(Fault::NoneOpen { line });
        };
        let run = Run {
            first: top.first,
            last: self.lots,
        };
        if run.last < run.first {
            return Err(Fault::NoLots { line });
        }
        if self.packages[top.package + 1..].contains(&run) {
            return Err(Fault::SameLots { line });
        }
        self.packages[top.package] = run;
        Ok(())
    }

    fn bid(&mut self, line: usize, buyer: Number, price: Number) -> Result<(), Fault>
        ensures { Step line (bid_line buyer.entry.part.bytes.now price.entry.part.bytes.now) self.old result self.new }
    {
        let Some(top) = self.unclosed.last() else {
            return Err(Fault::NoneOpen { line });
        };
        let package = top.package + 1;
        let buyer = buyer.value();
        let price = price.value();
        if !is_buyer(buyer) || !is_price(price) {
            return Err(Fault::OutOfRange { line });
        }
        if self.bids.len() >= MAX_BIDS {
            return Err(Fault::TooManyBids { line });
        }
        self.bids
            .push_reserved(Bid::new(buyer as u32, price as u32, package));
        Ok(())
    }

    // One line of the body, which is any line but the end. That the count of lots has room for one more is no invariant of a draft: it
    // follows from the length of the file.
    pub(crate) fn add(&mut self, next: Numbered) -> Result<(), Fault>
        requires { self.old.lots < 65535 }
        ensures { (kind_of next.entry.line ≢ ending) → Step next.entry.number (kind_of next.entry.line) self.old result self.new }
    {
        let number = next.number;
        match next.line {
            Line::Open => self.open(number),
            Line::Close => self.close(number),
            Line::Lot => {
                self.lots += 1;
                Ok(())
            }
            Line::Bid { buyer, price } => self.bid(number, buyer, price),
            Line::Remark(_) => Ok(()),
            Line::Header | Line::End => Err(Fault::BadLine(Unreadable { line: number })),
        }
    }

    // What the file says, once its end is read.
    pub(crate) fn finish(self) -> Result<Contents, Fault>
        ensures { Finishes self result }
    {
        if let Some(top) = self.unclosed.last() {
            return Err(Fault::Unclosed { line: top.line });
        }
        let Draft {
            lots,
            packages,
            bids,
            ..
        } = self;
        Ok(Contents {
            lots,
            packages,
            bids,
        })
    }
}
