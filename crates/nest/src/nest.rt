// What is kept of a nest of packages and of the bids on them.
ghost use Rattle.std.specs.Prelude.{◌≤◌, vec_len, vec_capacity};
ghost use Rattle.bids.specs.Limits.{max_packages, max_bids};
ghost use Rattle.nest.specs.Placed.{Lower, Placed};

use bids::Bid;

// Packages and bids, each numbered from 1 in the order of its list. There is room for as many as a sale may have. The nest is a list of
// parents by number and no tree of boxes, since the rules number packages, answer by number, and go over them in that order.
#[derive(Drop)]
pub struct Nest {
    // For each package the number of the innermost package around it.
    pub parents: Vec<Option<usize>>,
    pub bids: Vec<Bid>,
    ghost packages_few: { vec_len parents ≤ max_packages },
    ghost bids_few: { vec_len bids ≤ max_bids },
    ghost parents_room: { max_packages ≤ vec_capacity parents },
    ghost bids_room: { max_bids ≤ vec_capacity bids },
    ghost parents_lower: { Lower parents.items },
    ghost bids_placed: { Placed (vec_len parents) bids.items },
}
