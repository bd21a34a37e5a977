// How one set of lots stands to another.
ghost use Rattle.std.specs.Prelude.{◌≡◌};
ghost use Rattle.packages.specs.Nest.{first_true};

// The first of these that is true of one set against another.
#[derive(Clone, Copy, PartialEq, Eq, Debug)]
pub enum Relation {
    Equal,
    Inside,
    Around,
    Apart,
    Crossing,
}

impl Relation {
    // The relation of one set to another, from three answers: whether it is within the other,
    // whether the other is within it, and whether they share no lot.
    pub(crate) fn first_true(within: bool, around: bool, apart: bool) -> Relation
        ensures { result ≡ first_true within around apart }
    {
        match (within, around) {
            (true, true) => Relation::Equal,
            (true, false) => Relation::Inside,
            (false, true) => Relation::Around,
            (false, false) if apart => Relation::Apart,
            (false, false) => Relation::Crossing,
        }
    }
}
