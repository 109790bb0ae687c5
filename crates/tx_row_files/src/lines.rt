// What the lines of a file of rows say.

// The mark that begins a line: `|` for what there is before, `>` for what is asked, `<` for what is wanted.
#[derive(Clone, Copy, PartialEq, Eq)]
pub enum Mark {
    Given,
    Asked,
    Wanted,
}

// How a line spells its text: as it is, with escapes, or with escapes and so many times, joined to the line before.
#[derive(Clone, Copy)]
pub enum Spelling {
    Plain,
    Escaped,
    Repeated(u32),
}

// A line: an empty one, a comment, a text, a word with what follows it, or none of these.
#[derive(Clone, Copy)]
pub enum Line<'a> {
    Empty,
    Comment,
    Text(Mark, &'a str, Spelling),
    Head(&'a str, &'a str),
    Faulty,
}

// A number, a space and a text that is repeated so many times.
fn repeated_line<'a>(mark: Mark, rest: &'a str) -> Line<'a> {
    let Some((count, text)) = rest.split_once(' ') else {
        return Line::Faulty;
    };
    match count.parse::<u32>() {
        Ok(count) => Line::Text(mark, text, Spelling::Repeated(count)),
        Err(_) => Line::Faulty,
    }
}

// What follows a mark: nothing; a space and the text; a backslash, a space and the text with escapes; or a star, a
// number, a space and the text with escapes.
fn text_line<'a>(mark: Mark, rest: &'a str) -> Line<'a> {
    if rest.is_empty() {
        return Line::Text(mark, rest, Spelling::Plain);
    }
    if let Some(text) = rest.strip_prefix(' ') {
        return Line::Text(mark, text, Spelling::Plain);
    }
    if let Some(text) = rest.strip_prefix("\\ ") {
        return Line::Text(mark, text, Spelling::Escaped);
    }
    match rest.strip_prefix('*') {
        Some(rest) => repeated_line(mark, rest),
        None => Line::Faulty,
    }
}

fn head_line<'a>(line: &'a str) -> Line<'a> {
    match line.split_once(' ') {
        Some((word, rest)) => Line::Head(word, rest),
        None => Line::Head(line, ""),
    }
}

pub fn line_of<'a>(line: &'a str) -> Line<'a> {
    if line.is_empty() {
        return Line::Empty;
    }
    if line.starts_with('#') {
        return Line::Comment;
    }
    if let Some(rest) = line.strip_prefix('|') {
        return text_line(Mark::Given, rest);
    }
    if let Some(rest) = line.strip_prefix('>') {
        return text_line(Mark::Asked, rest);
    }
    match line.strip_prefix('<') {
        Some(rest) => text_line(Mark::Wanted, rest),
        None => head_line(line),
    }
}
