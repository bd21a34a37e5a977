// Reads a sale file from standard input and prints the report of the sale, or why the file is refused.
#![tactic(auto)]

use salefile::limits::MAX_BYTES;
use std::alloc::Global;
use std::io::Read;
use std::process::ExitCode;
use summary::report::{FileReport, report};

// The bytes of the input. Of a longer one no more is read than shows that it is too long.
fn read_input<R: Read + Drop>(heap: Global, input: R) -> anyhow::Result<Vec<u8>> {
    let mut file = Vec::new(heap);
    input.take(MAX_BYTES as u64 + 1).read_to_end(&mut file)?;
    Ok(file)
}

// Prints the report on the input. After a refusal the program ends with status 1, so that a script can tell.
fn main(rt: HostRuntime) -> anyhow::Result<ExitCode> {
    let file = read_input(rt.alloc(), rt.stdin())?;
    let report = report(rt.alloc(), file.as_slice())?;
    rt.print(report.text(rt.alloc())?.as_str())?;
    Ok(match report {
        FileReport::Accepted(_) => ExitCode::SUCCESS,
        FileReport::Refused(_) => ExitCode::FAILURE,
    })
}

#[cfg(test)]
mod tests {
    use crate::read_input;
    use salefile::limits::MAX_BYTES;
    use std::test::Fail;

    // How long an input is, and how much of it is read.
    const CASES: [(usize, usize); 5] = [
        (0, 0),
        (MAX_BYTES, MAX_BYTES),
        (MAX_BYTES + 1, MAX_BYTES + 1),
        (MAX_BYTES + 2, MAX_BYTES + 1),
        (4 * MAX_BYTES, MAX_BYTES + 1),
    ];

    #[test]
    fn input_is_read_one_byte_too_far(rt: HostRuntime) -> Result<(), Fail> {
        let heap = rt.alloc();
        for (length, expected) in CASES {
            let input = vec![in heap; b'*'; length]?;
            let file = read_input(heap, input.as_slice())?;
            assert_eq!(rt; file.len(), expected);
        }
        Ok(())
    }
}
