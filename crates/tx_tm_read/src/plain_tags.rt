// Arguments at the front that are words alone, which are taken at once.
ghost use Rattle.std.specs.Prelude.{◌≡◌, ◌≤◌, length, IfOk, IfSome};
ghost use Rattle.tx_tm_read.specs.PlainTags.{HasArguments};

use std::alloc::Global;
use tx_base::Memory;
use tx_tm_content::{make_leaf, make_room};
use tx_tm_words::words_len;
use tx_tree::{MOST_TEXT, Tree};

/// The trees of the arguments of a short tag, and how many bytes these have with `>` after the last one, where each is
/// words alone. None where one isn't.
pub(crate) fn plain_arguments(
    alloc: Global,
    bytes: &[u8],
) -> Result<Option<(Vec<Tree>, usize)>, Memory>
    ensures { IfOk result (λ found. IfSome found (λ f. HasArguments bytes.now f.0.items f.1)) }
{
    let mut children = Vec::new(alloc);
    let mut at = 0;
    while at < bytes.len() {
        let count = words_len(&bytes[at..bytes.len()]);
        if count == 0 {
            return Ok(None);
        }
        if count > MOST_TEXT {
            return Ok(None);
        }
        let end = at + count;
        if end == bytes.len() {
            return Ok(None);
        }
        make_room(&mut children)?;
        children.push(make_leaf(alloc, &bytes[at..end])?)?;
        if bytes[end] == b'>' {
            children.shrink_to_fit();
            return Ok(Some((children, end + 1)));
        }
        if bytes[end] != b'|' {
            return Ok(None);
        }
        at = end + 1;
    }
    Ok(None)
}
