// A row of characters that is cut at a width.
ghost use Rattle.std.specs.Prelude.{◌≡◌, ◌≤◌, length, take};
ghost use Rattle.tx_page.specs.Texts.{fitting};

use tx_terminal::{Character, Row};

// How many characters of a row, from the first on, fit into a width. Each takes a cell at least.
fn count_fitting(row: &[Character], width: u32) -> usize
    ensures fitting { take result row.now ≡ fitting width row.now }
    ensures within { result ≤ length row.now }
{
    match row {
        [] => 0,
        [first, rest @ ..] => {
            let cells = u32::from(first.cells());
            if cells > width {
                return 0;
            }
            let count = count_fitting(rest, width - cells);
            1 + count
        }
    }
}

/// The first characters of a row, as many as fit into a width, in cells.
pub fn cut_row(row: Row, width: u32) -> Row
    ensures { result ≡ fitting width row }
{
    let mut characters = row.into_vec();
    let count = count_fitting(&characters, width);
    characters.truncate(count);
    Row::new(characters)
}
