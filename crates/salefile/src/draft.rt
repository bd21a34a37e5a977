// What is kept of a file while it is read.
ghost use Rattle.std.specs.Prelude.{ℕ, ◌≤◌, ◌<◌, vec_len, vec_capacity, slice_index_or};
ghost use Rattle.bids.specs.Limits.{max_packages, max_bids};
ghost use Rattle.salefile.specs.declared.draft.Opened.{Opened};

use bids::Bid;
use packages::Run;

// A package that is open: its index, the line of its opening and its first lot.
#[derive(Clone, Copy)]
pub struct Opened {
    pub package: usize,
    pub line: usize,
    pub first: u16,
}

// What a file has said so far, in a sale with space for so many packages. There is room for all that a file may say.
#[derive(Drop)]
pub struct Draft {
    pub space: usize,
    pub lots: u16,
    pub packages: Vec<Run>,
    pub unclosed: Vec<Opened>,
    pub bids: Vec<Bid>,
    ghost space_few: { space ≤ max_packages },
    ghost unclosed_few: { vec_len unclosed ≤ vec_len packages },
    ghost unclosed_inside: { (k : ℕ) (d : Opened) → k < vec_len unclosed → (slice_index_or unclosed.items k d).«package» < vec_len packages },
    ghost packages_room: { max_packages ≤ vec_capacity packages },
    ghost unclosed_room: { max_packages ≤ vec_capacity unclosed },
    ghost bids_room: { max_bids ≤ vec_capacity bids },
}
