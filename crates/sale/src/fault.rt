// Why a call is refused. The rules number the refusals, so each fault says its number and its place too.
ghost use Rattle.std.specs.Prelude.{◌≡◌};
ghost use Rattle.sale.specs.Refusals.{permit_refusal, lodge_refusal, withdraw_refusal, load_refusal};
ghost use Rattle.sale.specs.declared.fault.LoadFault.TheVariants.{Read};
ghost use Rattle.sale.specs.declared.fault.PermitFault.TheVariants.{Conflict};

use packages::Conflict;
use salefile::fault::ReadFault;

#[derive(Clone, Copy, PartialEq, Eq, Debug)]
pub enum PermitFault {
    DoesNotFit,
    NoSpace,
    // An earlier package is equal to it, crosses it or is inside it.
    Conflict(Conflict),
}

#[derive(Clone, Copy, PartialEq, Eq, Debug)]
pub enum LodgeFault {
    NotBuyer,
    NotPrice,
    NoPackage,
    // As many bids are numbered as a sale may have.
    Full,
}

#[derive(Clone, Copy, PartialEq, Eq, Debug)]
pub enum WithdrawFault {
    NoBid,
    AlreadyWithdrawn,
}

#[derive(Clone, Copy, PartialEq, Debug)]
pub enum LoadFault {
    // The sale has packages or numbered bids.
    NotEmpty,
    // The file is refused, or there is no memory to read it.
    Read(ReadFault),
}

impl PermitFault {
    // The number of the refusal and its place.
    pub fn refusal(self) -> (u8, usize)
        ensures { result ≡ permit_refusal self }
    {
        match self {
            PermitFault::DoesNotFit => (11, 0),
            PermitFault::NoSpace => (24, 0),
            PermitFault::Conflict(Conflict::Equal(package)) => (25, package),
            PermitFault::Conflict(Conflict::Crossing(package)) => (26, package),
            PermitFault::Conflict(Conflict::Around(package)) => (27, package),
        }
    }
}

impl From<Conflict> for PermitFault {
    ghost from_gives = { λ e r. r ≡ Conflict e };

    fn from(e: Conflict) -> PermitFault {
        PermitFault::Conflict(e)
    }
}

impl LodgeFault {
    // The number of the refusal and its place.
    pub fn refusal(self) -> (u8, usize)
        ensures { result ≡ lodge_refusal self }
    {
        match self {
            LodgeFault::NotBuyer => (12, 0),
            LodgeFault::NotPrice => (13, 0),
            LodgeFault::NoPackage => (28, 0),
            LodgeFault::Full => (29, 0),
        }
    }
}

impl WithdrawFault {
    // The number of the refusal and its place.
    pub fn refusal(self) -> (u8, usize)
        ensures { result ≡ withdraw_refusal self }
    {
        match self {
            WithdrawFault::NoBid => (30, 0),
            WithdrawFault::AlreadyWithdrawn => (31, 0),
        }
    }
}

impl LoadFault {
    // The number of the refusal and its place; want of memory has none.
    pub fn refusal(self) -> Option<(u8, usize)>
        ensures { result ≡ load_refusal self }
    {
        match self {
            LoadFault::NotEmpty => Some((21, 0)),
            LoadFault::Read(fault) => fault.refusal(),
        }
    }
}

impl From<ReadFault> for LoadFault {
    ghost from_gives = { λ e r. r ≡ Read e };

    fn from(e: ReadFault) -> LoadFault {
        LoadFault::Read(e)
    }
}
