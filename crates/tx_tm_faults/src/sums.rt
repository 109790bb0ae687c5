// Measures of content that grows.
//
// What is added up fits 64 bits: each function requires it, by a bound of what it is given (`specs/Bounds.antt`). The
// bounds rise by at most 3 for each 2 bytes, and a slice has fewer than 2^63.
ghost use Rattle.std.specs.Prelude.{◌≡◌, ◌+◌, max, ◌==◌, ◌&&◌, if◌then◌else◌, true, false, Some, None};
ghost use Rattle.tx_tm_form.specs.Growing.{longer};
ghost use Rattle.tx_tm_form.specs.Measures.{no_sums, both, leaf_sums, node_sums, concat_sums, no_line, ended_line};
ghost use Rattle.tx_tm_form.specs.Measures.{line_sums, grow_line, no_block, first_stage_of, ended_sums};
ghost use Rattle.tx_tm_form.specs.Measures.{resumed_line, white_block, part_block, widen_block, block_sums_at};
ghost use Rattle.tx_tm_form.specs.Measures.{block_sums, put_sums, body_sums, long_sums, body_behind, opening_sums};
ghost use Rattle.tx_tm_faults.specs.Bounds.{IsSmallCount, most_of, most_in_line, most_in_part};
ghost use Rattle.tx_tm_faults.specs.Bounds.{of_run, most_in_block, most_in_content};

use tx_tm_form::{BlockSums, ContentSums, LineSums, PartSums, Stage, Sums, TagPlace, White};
use tx_tm_words::longer;

pub(crate) fn no_sums() -> Sums
    ensures { result ≡ no_sums }
{
    Sums {
        count: 0,
        text: 0,
        arity: 0,
        depth: 0,
        size: 0,
    }
}

// Of all these trees.
pub(crate) fn both(one: Sums, other: Sums) -> Sums
    requires { IsSmallCount (most_of one + most_of other) }
    ensures { result ≡ both one other }
{
    Sums {
        count: one.count + other.count,
        text: one.text.max(other.text),
        arity: one.arity.max(other.arity),
        depth: one.depth.max(other.depth),
        size: one.size + other.size,
    }
}

// Of a leaf of so many bytes.
pub(crate) fn leaf_sums(length: u64) -> Sums
    requires { IsSmallCount length }
    ensures { result ≡ leaf_sums length }
{
    Sums {
        count: 1,
        text: length,
        arity: 0,
        depth: 1,
        size: 1 + length,
    }
}

// Of a node with these children.
pub(crate) fn node_sums(children: Sums) -> Sums
    requires { IsSmallCount (most_of children) }
    ensures { result ≡ node_sums children }
{
    Sums {
        count: 1,
        text: children.text,
        arity: children.count.max(children.arity),
        depth: 1 + children.depth,
        size: 1 + children.size,
    }
}

// Of the one tree, or the empty text, or a concat.
fn concat_sums(sums: Sums) -> Sums
    requires { IsSmallCount (most_of sums) }
    ensures { result ≡ concat_sums sums }
{
    match sums.count {
        0 => leaf_sums(0),
        1 => sums,
        _ => node_sums(sums),
    }
}

fn no_line() -> LineSums
    ensures { result ≡ no_line }
{
    LineSums {
        done: no_sums(),
        length: 0,
        in_run: false,
    }
}

// Of the trees of a line, the text at its end included.
fn ended_line(line: LineSums) -> Sums
    requires { IsSmallCount (most_in_line line) }
    ensures { result ≡ ended_line line }
{
    if line.length == 0 {
        return line.done;
    }
    both(line.done, leaf_sums(line.length))
}

// Of the tree of a line.
pub(crate) fn line_sums(line: LineSums) -> Sums
    requires { IsSmallCount (most_in_line line) }
    ensures { result ≡ line_sums line }
{
    concat_sums(ended_line(line))
}

fn gap_line(line: LineSums) -> u64
    requires { IsSmallCount line.length }
    ensures { result ≡ (if line.in_run then line.length else line.length + 1) }
{
    if line.in_run {
        return line.length;
    }
    line.length + 1
}

fn grow_line(line: LineSums, part: PartSums) -> LineSums
    requires { IsSmallCount (most_in_line line + most_in_part part) }
    ensures { result ≡ grow_line line part }
{
    match part {
        PartSums::Gap(_) => LineSums {
            done: line.done,
            length: gap_line(line),
            in_run: true,
        },
        PartSums::Text(length) => LineSums {
            done: line.done,
            length: line.length + length,
            in_run: false,
        },
        PartSums::Tag(_, sums) => LineSums {
            done: both(ended_line(line), sums),
            length: 0,
            in_run: false,
        },
    }
}

fn no_block() -> BlockSums
    ensures { result ≡ no_block }
{
    BlockSums {
        full: no_sums(),
        now: no_line(),
        run: None,
        stage: Stage::Empty,
    }
}

fn first_stage_of(part: PartSums) -> Stage
    ensures { result ≡ first_stage_of part }
{
    match part {
        PartSums::Tag(true, _) => Stage::Alone,
        _ => Stage::Ordinary,
    }
}

// Of the paragraphs that have ended before a part after the run.
fn ended_sums(run: Option<White>, full: Sums, now: LineSums) -> Sums
    requires { IsSmallCount (most_of full + most_in_line now) }
    ensures { result ≡ ended_sums run full now }
{
    match run {
        Some(White::Break) => both(full, line_sums(now)),
        Some(White::Spaces | White::Line) | None => full,
    }
}

// Of the line that this part continues.
fn resumed_line(run: Option<White>, now: LineSums) -> LineSums
    requires { IsSmallCount (most_in_line now + of_run run) }
    ensures { result ≡ resumed_line run now }
{
    match run {
        None => now,
        Some(White::Break) => no_line(),
        Some(White::Spaces) => grow_line(now, PartSums::Gap(White::Spaces)),
        Some(White::Line) => grow_line(now, PartSums::Gap(White::Line)),
    }
}

fn white_block(block: BlockSums, white: White) -> BlockSums
    ensures { result ≡ white_block block.stage block white }
{
    match block.stage {
        Stage::Empty => block,
        Stage::Alone | Stage::Ordinary => BlockSums {
            full: block.full,
            now: block.now,
            run: Some(longer(block.run, white)),
            stage: block.stage,
        },
    }
}

fn later_block(block: BlockSums, part: PartSums) -> BlockSums
    requires { IsSmallCount (most_in_block block + most_in_part part) }
    ensures { result ≡ part_block Stage.Ordinary block part }
{
    BlockSums {
        full: ended_sums(block.run, block.full, block.now),
        now: grow_line(resumed_line(block.run, block.now), part),
        run: None,
        stage: Stage::Ordinary,
    }
}

fn part_block(block: BlockSums, part: PartSums) -> BlockSums
    requires { IsSmallCount (most_in_block block + most_in_part part) }
    ensures { result ≡ part_block block.stage block part }
{
    match block.stage {
        Stage::Empty => BlockSums {
            full: no_sums(),
            now: grow_line(no_line(), part),
            run: None,
            stage: first_stage_of(part),
        },
        Stage::Alone | Stage::Ordinary => later_block(block, part),
    }
}

fn widen_block(block: BlockSums, part: PartSums) -> BlockSums
    requires { IsSmallCount (most_in_block block + most_in_part part) }
    ensures { result ≡ widen_block block part }
{
    match part {
        PartSums::Gap(white) => white_block(block, white),
        PartSums::Text(_) | PartSums::Tag(_, _) => part_block(block, part),
    }
}

// Of the tree of a block.
fn block_sums(block: BlockSums) -> Sums
    requires { IsSmallCount (most_in_block block) }
    ensures { result ≡ block_sums block }
{
    match block.stage {
        Stage::Empty => node_sums(leaf_sums(0)),
        Stage::Alone => line_sums(block.now),
        Stage::Ordinary => node_sums(both(block.full, line_sums(block.now))),
    }
}

fn put_tags(tags: Sums, block: BlockSums, part: PartSums) -> ContentSums
    requires { IsSmallCount (most_in_content (ContentSums.Tags tags block) + most_in_part part) }
    ensures { result ≡ put_sums (ContentSums.Tags tags block) part }
{
    let widened = widen_block(block, part);
    match part {
        PartSums::Gap(_) => ContentSums::Tags(tags, widened),
        PartSums::Tag(_, sums) => ContentSums::Tags(both(tags, sums), widened),
        PartSums::Text(_) => ContentSums::Block(widened),
    }
}

pub(crate) fn put_sums(here: ContentSums, part: PartSums) -> ContentSums
    requires { IsSmallCount (most_in_content here + most_in_part part) }
    ensures { result ≡ put_sums here part }
{
    match here {
        ContentSums::Argument(place, line) => {
            ContentSums::Argument(place, grow_line(line, part))
        }
        ContentSums::Block(block) => ContentSums::Block(widen_block(block, part)),
        ContentSums::Tags(tags, block) => put_tags(tags, block, part),
    }
}

// Of the tree of content that is a block.
pub(crate) fn body_sums(here: ContentSums) -> Sums
    requires { IsSmallCount (most_in_content here) }
    ensures { result ≡ body_sums here }
{
    match here {
        ContentSums::Argument(_, _) => leaf_sums(0),
        ContentSums::Block(block) => block_sums(block),
        ContentSums::Tags(_, block) => block_sums(block),
    }
}

// Of a long tag with one block, after these children.
pub(crate) fn long_sums(children: Sums, here: ContentSums) -> PartSums
    requires { IsSmallCount (most_of children + most_in_content here) }
    ensures { result ≡ long_sums children here }
{
    match here {
        ContentSums::Tags(tags, _) => PartSums::Tag(true, node_sums(tags)),
        ContentSums::Argument(_, _) | ContentSums::Block(_) => PartSums::Tag(
            false,
            node_sums(both(children, body_sums(here))),
        ),
    }
}

fn body_behind(collects: bool, children: Sums) -> ContentSums
    ensures { result ≡ body_behind collects children }
{
    if collects && children.count == 0 {
        ContentSums::Tags(no_sums(), no_block())
    } else {
        ContentSums::Block(no_block())
    }
}

// Of what is open next of a tag with these children.
pub(crate) fn opening_sums(inner: Option<TagPlace>, collects: bool, children: Sums) -> ContentSums
    ensures { result ≡ opening_sums inner collects children }
{
    match inner {
        Some(place) => ContentSums::Argument(place, no_line()),
        None => body_behind(collects, children),
    }
}

/// Of a file that begins.
pub(crate) fn empty_file() -> ContentSums
    ensures { result ≡ ContentSums.Block no_block }
{
    ContentSums::Block(no_block())
}
