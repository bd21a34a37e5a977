// A whole file, read from its first line to its last.
ghost use Rattle.std.specs.Prelude.{◌≡◌, ℕ, ◌+◌, ◌≤◌, min, List, [], ◌∷◌, length, Err, MatchResult, ◌≢◌};
ghost use Rattle.salefile.specs.declared.fault.Fault.TheVariants.{AfterEnd};
ghost use Rattle.lines.specs.Kinds.{Kind, header as header_line};
ghost use Rattle.salefile.specs.Files.{Outcome, ReadOutcome, BeginsWith, Item, Sound, over as nothing};
ghost use Rattle.bids.specs.Limits.{max_packages};
ghost use Rattle.salefile.specs.Limits.{max_bytes};
ghost use Rattle.salefile.specs.Draft.{Ending, Keeps, Loading, Reached};

use crate::contents::Contents;
use crate::draft::Draft;
use crate::fault::{Fault, ReadFault};
use crate::limits::MAX_BYTES;
use bids::limits::MAX_PACKAGES;
use lines::{Line, LineReader};
use std::alloc::Global;

// The first line, which is the header.
fn header(lines: &mut LineReader) -> Result<(), Fault>
    ensures { (file : List ℕ) (space : ℕ) → Reached file [] lines.old → length file ≤ max_bytes → MatchResult result (λ _. Reached file (header_line ∷ []) lines.new × Sound space (header_line ∷ [])) (λ f. Outcome file space (Err f)) }
{
    match lines.next() {
        Ok(Some(first)) if matches!(first.line, Line::Header) => Ok(()),
        _ => Err(Fault::NoHeader),
    }
}

// The lines up to the end.
fn body(lines: &mut LineReader, draft: &mut Draft) -> Result<(), Fault>
    requires { Loading lines.old.file.now draft.old.space lines.old draft.old }
    ensures { MatchResult result (λ _. Ending lines.old.file.now draft.old.space lines.new draft.new) (λ f. Outcome lines.old.file.now draft.old.space (Err f)) }
{
    while let Some(next) = lines.next()? {
        if let Line::End = next.line {
            return Ok(());
        }
        draft.add(next)?;
    }
    Err(Fault::NoEnd {
        line: lines.lines_read() + 1,
    })
}

// Nothing stands after the end.
fn over(lines: &mut LineReader) -> Result<(), Fault>
    ensures { (file : List ℕ) (ks : List Kind) → Reached file ks lines.old → MatchResult result (λ _. BeginsWith file ks nothing) (λ f. (x : Item) × BeginsWith file ks x × (x ≢ nothing) × (f ≡ AfterEnd (length ks + 1))) }
{
    let line = lines.lines_read() + 1;
    match lines.next() {
        Ok(None) => Ok(()),
        _ => Err(Fault::AfterEnd { line }),
    }
}

// What the file says, all read into the draft.
fn fill(mut draft: Draft, file: &[u8]) -> Result<Contents, Fault>
    requires { Keeps (header_line ∷ []) draft }
    ensures { Outcome file.now draft.space result }
{
    if file.len() > MAX_BYTES {
        return Err(Fault::TooLong);
    }
    let mut lines = LineReader::new(file);
    header(&mut lines)?;
    body(&mut lines, &mut draft)?;
    let contents = draft.finish()?;
    over(&mut lines)?;
    Ok(contents)
}

// What the file says, in a sale with a table of so many places. Memory is wanting, if at all, before the file is looked at.
pub fn read(heap: Global, file: &[u8], places: usize) -> Result<Contents, ReadFault>
    ensures { ReadOutcome file.now (min max_packages places) result }
{
    let draft = Draft::new(heap, MAX_PACKAGES.min(places))?;
    Ok(fill(draft, file)?)
}
