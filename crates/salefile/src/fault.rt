// Why a file is refused, and why reading it fails.
ghost use Rattle.std.specs.Prelude.{◌≡◌};
ghost use Rattle.salefile.specs.Refusals.{refusal as refusal_of, read_refusal};
ghost use Rattle.salefile.specs.declared.fault.Fault.TheVariants.{BadLine};
ghost use Rattle.salefile.specs.declared.fault.ReadFault.TheVariants.{NoMemory, File};

use lines::Unreadable;
use std::alloc::AllocError;

// Why a file is refused; `line` is the place.
#[derive(Clone, Copy, PartialEq, Debug)]
pub enum Fault {
    // more bytes than a file may have
    TooLong,
    // the first line is not the header
    NoHeader,
    // none of the known lines, or not ended, or a second header
    BadLine(Unreadable),
    // a buyer or a price beyond the limits
    OutOfRange { line: usize },
    // a closing or a bid with no package open
    NoneOpen { line: usize },
    // a package without lots
    NoLots { line: usize },
    // a package with the lots of one inside it
    SameLots { line: usize },
    // the innermost package that the end leaves open
    Unclosed { line: usize },
    // the file stops without its last line
    NoEnd { line: usize },
    // bytes after the last line
    AfterEnd { line: usize },
    // more packages than there is space for
    NoSpace { line: usize },
    // more bids than a sale may have
    TooManyBids { line: usize },
}

impl Fault {
    // The number of the refusal and its place: the rules number the refusals.
    pub fn refusal(self) -> (u8, usize)
        ensures { result ≡ refusal_of self }
    {
        match self {
            Fault::TooLong => (1, 0),
            Fault::NoHeader => (2, 1),
            Fault::BadLine(Unreadable { line }) => (3, line),
            Fault::OutOfRange { line } => (4, line),
            Fault::NoneOpen { line } => (5, line),
            Fault::NoLots { line } => (6, line),
            Fault::SameLots { line } => (7, line),
            Fault::Unclosed { line } => (8, line),
            Fault::NoEnd { line } => (9, line),
            Fault::AfterEnd { line } => (10, line),
            Fault::NoSpace { line } => (22, line),
            Fault::TooManyBids { line } => (23, line),
        }
    }
}

impl From<Unreadable> for Fault {
    ghost from_gives = { λ e r. r ≡ BadLine e };

    fn from(e: Unreadable) -> Fault {
        Fault::BadLine(e)
    }
}

// Why reading a file fails.
#[derive(Clone, Copy, PartialEq, Debug)]
pub enum ReadFault {
    // there is no memory for what a file may say; the file was not looked at
    NoMemory,
    // the file is refused
    File(Fault),
}

impl ReadFault {
    // The number of the refusal and its place, by the rules; want of memory has none.
    pub fn refusal(self) -> Option<(u8, usize)>
        ensures { result ≡ read_refusal self }
    {
        match self {
            ReadFault::NoMemory => None,
            ReadFault::File(fault) => Some(fault.refusal()),
        }
    }
}

impl From<AllocError> for ReadFault {
    ghost from_gives = { λ _ r. r ≡ NoMemory };

    fn from(_e: AllocError) -> ReadFault {
        ReadFault::NoMemory
    }
}

impl From<Fault> for ReadFault {
    ghost from_gives = { λ e r. r ≡ File e };

    fn from(e: Fault) -> ReadFault {
        ReadFault::File(e)
    }
}
