// Whole documents of a few paragraphs, and the largest ones by their lengths and sums.
use std::alloc::Global;
use tx_base::Memory;
use tx_generated::generated;

// A number, a count of paragraphs, and the document.
const DOCUMENTS: &[(u32, u32, &str)] = &[
    (
        1,
        3,
        "<assign|v|tree>

<value|v> line page tree path style macro

<em|line> cell value macro style path

<assign|v|path>path style macro value cell line",
    ),
    (
        0,
        1,
        "<assign|v|tree>

tree path style macro value cell",
    ),
    (
        0,
        5,
        "<assign|v|tree>

tree path style macro value cell

<value|v> value macro style path tree page

value cell line page tree path

<em|cell> line page tree path style

<assign|v|style>style cell tree macro line path",
    ),
    (
        2_147_483_647,
        5,
        "<assign|v|tree>

path tree page line cell value

path tree page line cell value

<assign|v|line>line page tree path style macro

<em|line> cell value macro style path

path value page style cell tree",
    ),
];

// A number, a count of paragraphs, how many bytes the document has, and their sum.
const LARGE: &[(u32, u32, usize, u64)] = &[
    (1, 60_000, 2_451_972, 224_407_693),
    (0, 60_000, 2_450_829, 224_296_759),
    (2_147_483_647, 60_000, 2_451_146, 224_352_721),
];

// The document, or none where the row isn't within the bounds.
fn document(alloc: Global, number: u32, count: u32) -> Result<Vec<u8>, Memory> {
    if number >= 2_147_483_648 || count < 1 || count > 60_000 {
        return Ok(Vec::new(alloc));
    }
    generated(alloc, number, count)
}

// Whether the row's document is this one.
fn is_document(alloc: Global, row: (u32, u32, &str)) -> Result<bool, Memory> {
    let text = document(alloc, row.0, row.1)?;
    Ok(text.as_slice() == row.2.as_bytes())
}

// Whether the row's document has so many bytes, and this sum.
fn is_large(alloc: Global, row: (u32, u32, usize, u64)) -> Result<bool, Memory> {
    let text = document(alloc, row.0, row.1)?;
    let mut sum = 0u64;
    for byte in &text {
        sum = sum.wrapping_add(u64::from(*byte));
    }
    Ok(text.len() == row.2 && sum == row.3)
}

// The number of the first row with another document.
fn first_wrong(alloc: Global, rows: &[(u32, u32, &str)]) -> Option<usize> {
    rows.iter()
        .position(|row| is_document(alloc, *row) != Ok(true))
}

// The number of the first row with another length or sum.
fn first_wrong_sum(alloc: Global, rows: &[(u32, u32, usize, u64)]) -> Option<usize> {
    rows.iter()
        .position(|row| is_large(alloc, *row) != Ok(true))
}

#[test]
fn documents_of_few_paragraphs(rt: HostRuntime) {
    assert_eq!(rt; first_wrong(rt.alloc(), DOCUMENTS), None);
}

#[test]
fn documents_of_60000_paragraphs(rt: HostRuntime) {
    assert_eq!(rt; first_wrong_sum(rt.alloc(), LARGE), None);
}
