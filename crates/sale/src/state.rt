// What a sale holds.
ghost use Rattle.std.specs.Prelude.{◌≤◌, vec_len};

use nest::Nest;
use packages::Package;

// A sale of packages of the kind `P`.
#[derive(Drop)]
pub struct Sale<P: Package> {
    pub(crate) lots: u32,
    // The permitted packages come first; later places mean nothing, and stay as they came, as the rules ask. So the table is no list of
    // the permitted packages alone: the nest has their number.
    pub(crate) table: Vec<P>,
    // The parents stand apart from the packages, so that what is proved of a nest holds for every kind of package.
    pub(crate) nest: Nest,
    ghost packages_within: { vec_len nest.parents ≤ vec_len table },
}
