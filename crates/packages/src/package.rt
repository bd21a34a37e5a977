// What every kind of package answers.
ghost use Rattle.std.specs.Prelude.{◌≡◌, ℕ, ◌≤◌, true};
ghost use Rattle.packages.specs.Lots.{Lots, has, fits_in, size_of};
ghost use Rattle.packages.specs.Nest.{relation_of};

use crate::relation::Relation;

// A kind of package: its values mean sets of lots, and it answers questions about these sets.
// The contracts speak of the sets alone, so code over all kinds is proved once.
pub trait Package: Copy {
    // The highest lot that a package of this kind can have.
    const HIGHEST: u32;

    // The same number, for clauses.
    ghost HIGHEST: { ℕ };

    // Answers `HIGHEST`, for code that asks a kind by a call.
    fn highest_lot() -> u32
        ensures { result ≡ HIGHEST }
    {
        Self::HIGHEST
    }

    // The set of lots that a package means.
    ghost meaning: { Self → Lots };

    // Whether the set is non-empty and its lots lie from 1 to `lots`.
    fn fits(&self, lots: u32) -> bool
        ensures { result ≡ fits_in lots (meaning self.now) };

    // How this set stands to the other.
    fn compare(&self, other: &Self) -> Relation
        ensures { result ≡ relation_of (meaning self.now) (meaning other.now) };

    // The number of lots.
    fn size(&self) -> u32
        ensures { result ≡ size_of (meaning self.now) };

    // A law, which each kind proves: no lot of a package is above the highest.
    ghost bounded: { (p : Self) (k : ℕ) → has (meaning p) k ≡ true → k ≤ HIGHEST };
}
