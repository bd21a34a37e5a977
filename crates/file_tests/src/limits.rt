// Files at a limit, and one step beyond it.
use crate::refused::refusal;
use bids::limits::{MAX_BIDS, MAX_PACKAGES};
use salefile::limits::MAX_BYTES;
use salefile::read::read;
use std::alloc::{AllocError, Global};
use std::test::Fail;

// A file with `part` so many times between its front and its back.
fn repeated(
    heap: Global,
    front: &str,
    part: &str,
    times: usize,
    back: &str,
) -> Result<String, AllocError> {
    let parts = part.repeat(heap, times)?;
    format!(in heap; "{front}{parts}{back}")
}

#[test]
fn a_file_has_at_most_16384_bytes(rt: HostRuntime) -> Result<(), Fail> {
    // 8 bytes of the first line, 2 of the remark and 4 of the last line
    let full = repeated(rt.alloc(), "SALE 94\n*", "x", MAX_BYTES - 14, "\nEND\n")?;
    assert_eq!(rt; full.len(), 16_384);
    assert_eq!(rt; refusal(&rt, full.as_str(), 0), None);
    let over = repeated(rt.alloc(), "SALE 94\n*", "x", MAX_BYTES - 13, "\nEND\n")?;
    assert_eq!(rt; over.len(), 16_385);
    assert_eq!(rt; refusal(&rt, over.as_str(), 0), Some((1, 0)));
    // length comes first, whatever the file says
    let wrong = repeated(rt.alloc(), "", "x", MAX_BYTES + 1, "")?;
    assert_eq!(rt; refusal(&rt, wrong.as_str(), 0), Some((1, 0)));
    Ok(())
}

#[test]
fn a_sale_has_at_most_256_packages(rt: HostRuntime) -> Result<(), Fail> {
    let full = repeated(rt.alloc(), "SALE 94\n", "G\nL\nE\n", MAX_PACKAGES, "END\n")?;
    assert_eq!(rt; read(rt.alloc(), full.as_bytes(), 256)?.packages.len(), 256);
    assert_eq!(rt; refusal(&rt, full.as_str(), 255), Some((22, 767)));
    let over = repeated(
        rt.alloc(),
        "SALE 94\n",
        "G\nL\nE\n",
        MAX_PACKAGES + 1,
        "END\n",
    )?;
    assert_eq!(rt; refusal(&rt, over.as_str(), 256), Some((22, 770)));
    assert_eq!(rt; refusal(&rt, over.as_str(), 1000), Some((22, 770)));
    Ok(())
}

#[test]
fn at_most_256_packages_are_open_at_a_time(rt: HostRuntime) -> Result<(), Fail> {
    let open = repeated(rt.alloc(), "SALE 94\n", "G\nL\n", MAX_PACKAGES, "")?;
    assert_eq!(rt; refusal(&rt, open.as_str(), 256), Some((9, 514)));
    let deep = repeated(rt.alloc(), open.as_str(), "E\n", MAX_PACKAGES, "END\n")?;
    assert_eq!(rt; read(rt.alloc(), deep.as_bytes(), 256)?.packages.len(), 256);
    Ok(())
}

#[test]
fn a_sale_has_at_most_512_bids(rt: HostRuntime) -> Result<(), Fail> {
    let front = "SALE 94\nG\nL\n";
    let full = repeated(rt.alloc(), front, "B 1 1\n", MAX_BIDS, "E\nEND\n")?;
    assert_eq!(rt; read(rt.alloc(), full.as_bytes(), 1)?.bids.len(), 512);
    let over = repeated(rt.alloc(), front, "B 1 1\n", MAX_BIDS + 1, "E\nEND\n")?;
    assert_eq!(rt; refusal(&rt, over.as_str(), 1), Some((23, 516)));
    // a price beyond its limit is found before the bid is one too many
    let priced = repeated(rt.alloc(), front, "B 1 1\n", MAX_BIDS, "B 1 0\nE\nEND\n")?;
    assert_eq!(rt; refusal(&rt, priced.as_str(), 1), Some((4, 516)));
    Ok(())
}
