// The place of a package in a nest of packages.
ghost use Rattle.std.specs.Prelude.{◌≡◌, map};
ghost use Rattle.packages.specs.Nest.{place_of};
ghost use Rattle.packages.specs.Places.{Placed, ContainerRight, NestGrows};

use crate::package::Package;
use crate::relation::Relation;

// Why a package has no place in a nest: how it stands to an earlier package, with that package's number.
#[derive(Clone, Copy, PartialEq, Eq, Debug)]
pub enum Conflict {
    Equal(usize),
    Crossing(usize),
    Around(usize),
}

// The place of `new` after `packages`, which are numbered from 1: the lowest package that it is
// equal to, crosses or is around; or else the innermost package around it, if any.
// The last package around `new` is the innermost, since in a nest containers come first (clause `nest`);
// and a package that is accepted keeps it so (clause `grows`).
pub fn place<P: Package>(packages: &[P], new: &P) -> Result<Option<usize>, Conflict>
    ensures defined { result ≡ place_of (P.Package.meaning new.now) (map P.Package.meaning packages.now) }
    ensures words { Placed (P.Package.meaning new.now) (map P.Package.meaning packages.now) result }
    ensures nest { ContainerRight (P.Package.meaning new.now) (map P.Package.meaning packages.now) result }
    ensures grows { NestGrows (P.Package.meaning new.now) (map P.Package.meaning packages.now) result }
{
    // A `for` is as plain as a `try_fold` here, which would hand `innermost` on at each arm.
    let mut innermost = None;
    for (i, earlier) in packages.iter().enumerate() {
        match new.compare(earlier) {
            Relation::Equal => return Err(Conflict::Equal(i + 1)),
            Relation::Crossing => return Err(Conflict::Crossing(i + 1)),
            Relation::Around => return Err(Conflict::Around(i + 1)),
            Relation::Inside => innermost = Some(i + 1),
            Relation::Apart => {}
        }
    }
    Ok(innermost)
}
