// The report on a file.
ghost use Rattle.std.specs.Prelude.{◌≡◌, Ok, Err, IfOk, MatchOption, string_bytes, alloc_error};
ghost use Rattle.salefile.specs.FileContents.{run_set};
ghost use Rattle.books.specs.History.{book_of};
ghost use Rattle.sale.specs.Holds.{Holds};
ghost use Rattle.sale.specs.Refusals.{load_refusal};
ghost use Rattle.summary.specs.Worked.{WorkedTexts};
ghost use Rattle.summary.specs.FileText.{Reported, new_sale, file_answer, file_book};
ghost use Rattle.summary.specs.Text.{printed_text};

use crate::contents::Summary;
use crate::text::refusal_text;
use bids::limits::MAX_PACKAGES;
use packages::Run;
use sale::{LoadFault, Sale};
use std::alloc::{AllocError, Global};

// The number and the line of a refusal.
#[derive(Clone, Copy, PartialEq, Eq, Debug)]
pub struct Refusal {
    pub number: u8,
    pub line: usize,
}

// Want of memory refuses no file, so it is an error still.
impl TryFrom<LoadFault> for Refusal {
    type Error = AllocError;

    ghost try_from_gives = { λ fault r. MatchOption (load_refusal fault) (r ≡ Err alloc_error) (λ p. r ≡ Ok (record { number = p.0; line = p.1 })) };

    fn try_from(fault: LoadFault) -> Result<Refusal, AllocError> {
        let (number, line) = fault.refusal().ok_or(AllocError)?;
        Ok(Refusal { number, line })
    }
}

// What a sale that has taken up the file comes to, or why the file is refused.
#[derive(Drop)]
pub enum FileReport {
    Accepted(Summary),
    Refused(Refusal),
}

impl FileReport {
    // The lines that are printed. Only want of memory is an error.
    pub fn text(&self, heap: Global) -> Result<String, AllocError>
        ensures { IfOk result (λ t. string_bytes t ≡ printed_text self.now) }
    {
        match self {
            FileReport::Accepted(summary) => summary.text(heap),
            FileReport::Refused(refusal) => refusal_text(heap, refusal.number, refusal.line),
        }
    }
}

// A sale of no lots, with room for as many packages as a sale may have.
fn new_sale(heap: Global) -> Result<Sale<Run>, AllocError>
    ensures { IfOk result (λ s. Holds run_set s (book_of new_sale)) }
{
    let table = vec![in heap; Run { first: 0, last: 0 }; MAX_PACKAGES]?;
    Sale::new(heap, 0, table).map_err(|_| AllocError)
}

// Loads the file into a new sale of runs, and reports on the sale, or why the file is refused. Only want of memory is an error.
pub fn report(heap: Global, file: &[u8]) -> Result<FileReport, AllocError>
    ensures { IfOk result (λ r. Reported (file_book file.now) (file_answer file.now) r) }
{
    let mut sale = new_sale(heap)?;
    match sale.load(heap, file) {
        Ok(_) => Ok(FileReport::Accepted(Summary::of(heap, &sale)?)),
        Err(fault) => Ok(FileReport::Refused(Refusal::try_from(fault)?)),
    }
}

// The worked texts, of the definitions themselves.
pub fn worked_texts()
    ensures { WorkedTexts }
{}
