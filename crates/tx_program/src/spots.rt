// Lines and columns of a file.
use tx_tree::ReadFault;

/// A place in a text: the number of its line, and of its byte in this line, both from 1 on.
#[derive(Clone, Copy)]
pub(crate) struct Spot {
    pub(crate) line: u64,
    pub(crate) column: u64,
}

/// Where this byte is. A line ends at byte 10.
pub(crate) fn spot_of(bytes: &[u8], at: usize) -> Spot {
    let mut line = 1u64;
    let mut column = 1u64;
    for byte in bytes.iter().take(at) {
        if *byte == b'\n' {
            line = line.saturating_add(1);
            column = 1;
        } else {
            column = column.saturating_add(1);
        }
    }
    Spot { line, column }
}

/// Where the fault is, if it is at a place.
pub(crate) fn place_of(fault: ReadFault) -> Option<usize> {
    match fault {
        ReadFault::Unclosed(at)
        | ReadFault::Stray(at)
        | ReadFault::BadEscape(at)
        | ReadFault::BadLabel(at)
        | ReadFault::BadText(at)
        | ReadFault::Mismatch(_, at)
        | ReadFault::After(at) => Some(at),
        ReadFault::Limit(..) | ReadFault::Memory => None,
    }
}
