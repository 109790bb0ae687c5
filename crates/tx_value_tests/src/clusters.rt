// Clusters of the longest texts.
use std::alloc::Global;
use std::test::Fail;
use tx_text::clusters;
use tx_tree::Text;

// The number of the clusters of a text of so many pieces, the end of the last one, and the bytes of its characters.
fn cut_of_many(
    alloc: Global,
    first: &[u8],
    piece: &[u8],
    count: usize,
) -> Option<(usize, u32, usize)> {
    let mut bytes = Vec::from_slice(alloc, first).ok()?;
    for _ in 0..count {
        bytes.extend_from_slice(piece).ok()?;
    }
    let text = Text::new(alloc, &bytes).ok()?;
    let found = clusters(alloc, &text).ok()?;
    let last = found.last()?;
    Some((
        found.len(),
        last.start.checked_add(last.len)?,
        last.glyphs.bytes().len(),
    ))
}

#[test]
fn long_texts_are_cut(rt: HostRuntime) -> Result<(), Fail> {
    let alloc = rt.alloc();
    assert!(rt; cut_of_many(alloc, b"", b"a", 1_048_575) == Some((1_048_575, 1_048_575, 1)));
    assert!(rt; cut_of_many(alloc, b"abc", b"<#4E2D>", 149_796) == Some((149_799, 1_048_575, 3)));
    assert!(rt; cut_of_many(alloc, b"eee", b"<#301>", 174_762) == Some((3, 1_048_575, 349_525)));
    Ok(())
}
