// Lines of commands that a key plans.
ghost use Rattle.std.specs.Prelude.{◌≡◌, [], ◌∷◌, IfOk, IfSome, Option, None};
ghost use Rattle.std.specs.List.{AllByRecursion};
ghost use Rattle.tx_screen.specs.Keys.{IsMove};

use std::alloc::Global;
use std::marker::Model;
use tx_base::Memory;
use tx_telling::go_line;
use tx_tree::Place;

/// A line of a script. Contracts see its bytes.
#[derive(Drop)]
pub(crate) struct Line {
    kept: Vec<u8>,
}

impl Model for Line {
    ghost use Rattle.std.specs.Prelude.{List, ℕ};

    ghost Value = { List ℕ };

    ghost view = { λ l. l.kept.items };
}

impl Line {
    pub(crate) fn new(bytes: Vec<u8>) -> Line
        ensures { result ≡ bytes.items }
    {
        Line { kept: bytes }
    }

    pub(crate) fn bytes(&self) -> &[u8]
        ensures { result.now ≡ self.now }
    {
        &self.kept
    }
}

// No lines.
pub(crate) fn no_lines(alloc: Global) -> Result<Vec<Line>, Memory>
    ensures { IfOk result (λ lines. lines.items ≡ []) }
{
    Ok(Vec::new(alloc))
}

// One line.
pub(crate) fn one_line(alloc: Global, line: &[u8]) -> Result<Vec<Line>, Memory>
    ensures { IfOk result (λ lines. lines.items ≡ line.now ∷ []) }
{
    let mut lines = Vec::new(alloc);
    lines.push(Line::new(Vec::from_slice(alloc, line)?))?;
    Ok(lines)
}

// The line, if there is one.
pub(crate) fn line_or_none(alloc: Global, line: Option<Vec<u8>>) -> Result<Vec<Line>, Memory>
    ensures none { line ≡ None → IfOk result (λ lines. lines.items ≡ []) }
    ensures one { IfSome line (λ it. IfOk result (λ lines. lines.items ≡ it.items ∷ [])) }
{
    let mut lines = Vec::new(alloc);
    if let Some(line) = line {
        lines.push(Line::new(line))?;
    }
    Ok(lines)
}

// These three lines.
pub(crate) fn three_lines(
    alloc: Global,
    first: Vec<u8>,
    second: Vec<u8>,
    third: Vec<u8>,
) -> Result<Vec<Line>, Memory>
    ensures { IfOk result (λ lines. lines.items ≡ first.items ∷ second.items ∷ third.items ∷ []) }
{
    let mut lines = Vec::new(alloc);
    lines.push(Line::new(first))?;
    lines.push(Line::new(second))?;
    lines.push(Line::new(third))?;
    Ok(lines)
}

// The line by which the cursor goes to a place, if there is one.
pub(crate) fn go_lines(alloc: Global, place: Option<Place>) -> Result<Vec<Line>, Memory>
    ensures { IfOk result (λ lines. AllByRecursion IsMove lines.items) }
{
    match place {
        Some(at) => line_or_none(alloc, go_line(alloc, &at)?),
        None => no_lines(alloc),
    }
}
