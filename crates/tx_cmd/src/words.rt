// The first words of commands, and the arguments that are after each.
ghost use Rattle.std.specs.Prelude.{◌≡◌, MatchOption, find};
ghost use Rattle.std.specs.Str.{bytes_eq};
ghost use Rattle.tx_cmd.specs.Words.{mod_text, word_text, arguments_of, IsKnown};

/// What is after a command's first word.
#[derive(Clone, Copy)]
pub enum ArgumentKind {
    /// A path.
    Path,
    /// A number of one to ten digits, at most 4,294,967,295.
    Number,
    /// A label.
    Label,
    /// A name of 1 to 255 bytes, each from `!` to `~`.
    Name,
    /// A tree in Scheme syntax: all that is left of the line.
    Tree,
    /// A text, as a tree in Scheme syntax: all that is left of the line.
    Text,
}

/// The first word of a modification.
#[derive(Clone, Copy)]
pub enum ModWord {
    /// `assign`
    Assign,
    /// `insert`
    Insert,
    /// `remove`
    Remove,
    /// `split`
    Split,
    /// `join`
    Join,
    /// `assign-node`
    AssignNode,
    /// `insert-node`
    InsertNode,
    /// `remove-node`
    RemoveNode,
}

/// The first word of a command.
#[derive(Clone, Copy)]
pub enum Word {
    /// That of a modification.
    Change(ModWord),
    /// `undo`
    Undo,
    /// `undo-at`
    UndoAt,
    /// `redo`
    Redo,
    /// `at`
    At,
    /// `go`
    Go,
    /// `click`
    Click,
    /// `left`
    Left,
    /// `right`
    Right,
    /// `type`
    Typed,
    /// `backspace`
    Backspace,
    /// `enter`
    Enter,
    /// `show`
    Show,
    /// `page`
    Page,
    /// `errors`
    Errors,
    /// `where`
    Where,
    /// `cursor`
    Cursor,
    /// `attrs`
    Attrs,
    /// `work`
    Work,
    /// `tree`
    Tree,
    /// `save`
    Save,
    /// `quit`
    Quit,
}

// All words.
const WORDS: [Word; 29] = [
    Word::Change(ModWord::Assign),
    Word::Change(ModWord::Insert),
    Word::Change(ModWord::Remove),
    Word::Change(ModWord::Split),
    Word::Change(ModWord::Join),
    Word::Change(ModWord::AssignNode),
    Word::Change(ModWord::InsertNode),
    Word::Change(ModWord::RemoveNode),
    Word::Undo,
    Word::UndoAt,
    Word::Redo,
    Word::At,
    Word::Go,
    Word::Click,
    Word::Left,
    Word::Right,
    Word::Typed,
    Word::Backspace,
    Word::Enter,
    Word::Show,
    Word::Page,
    Word::Errors,
    Word::Where,
    Word::Cursor,
    Word::Attrs,
    Word::Work,
    Word::Tree,
    Word::Save,
    Word::Quit,
];

// The first of the words that the bytes are.
fn find_word(all: &[Word], bytes: &[u8]) -> Option<Word>
    ensures { result ≡ find (λ w. bytes_eq (word_text w) bytes.now) all.now }
{
    for word in all {
        if word.text() == bytes {
            return Some(*word);
        }
    }
    None
}

// The word that the bytes are, or None where they are none.
pub(crate) fn known_word(bytes: &[u8]) -> Option<Word>
    ensures { MatchOption result (¬ IsKnown bytes.now) (λ w. bytes.now ≡ word_text w) }
{
    find_word(&WORDS, bytes)
}

impl ModWord {
    // As it is written.
    fn text(self) -> &'static [u8]
        ensures { result.now ≡ mod_text self }
    {
        match self {
            ModWord::Assign => b"assign",
            ModWord::Insert => b"insert",
            ModWord::Remove => b"remove",
            ModWord::Split => b"split",
            ModWord::Join => b"join",
            ModWord::AssignNode => b"assign-node",
            ModWord::InsertNode => b"insert-node",
            ModWord::RemoveNode => b"remove-node",
        }
    }
}

impl Word {
    // As it is written.
    fn text(self) -> &'static [u8]
        ensures { result.now ≡ word_text self }
    {
        match self {
            Word::Change(word) => word.text(),
            Word::Undo => b"undo",
            Word::UndoAt => b"undo-at",
            Word::Redo => b"redo",
            Word::At => b"at",
            Word::Go => b"go",
            Word::Click => b"click",
            Word::Left => b"left",
            Word::Right => b"right",
            Word::Typed => b"type",
            Word::Backspace => b"backspace",
            Word::Enter => b"enter",
            Word::Show => b"show",
            Word::Page => b"page",
            Word::Errors => b"errors",
            Word::Where => b"where",
            Word::Cursor => b"cursor",
            Word::Attrs => b"attrs",
            Word::Work => b"work",
            Word::Tree => b"tree",
            Word::Save => b"save",
            Word::Quit => b"quit",
        }
    }

    // What is after the word, in order.
    pub(crate) fn arguments(self) -> &'static [ArgumentKind]
        ensures { result.now ≡ arguments_of self }
    {
        match self {
            Word::Change(ModWord::Assign) => &[ArgumentKind::Path, ArgumentKind::Tree],
            Word::Change(ModWord::Insert | ModWord::InsertNode) => {
                &[ArgumentKind::Path, ArgumentKind::Number, ArgumentKind::Tree]
            }
            Word::Change(ModWord::Remove | ModWord::Split) => {
                &[
                    ArgumentKind::Path,
                    ArgumentKind::Number,
                    ArgumentKind::Number,
                ]
            }
            Word::Change(ModWord::Join | ModWord::RemoveNode) => &[
                ArgumentKind::Path,
                ArgumentKind::Number,
            ],
            Word::Change(ModWord::AssignNode) => &[ArgumentKind::Path, ArgumentKind::Label],
            Word::Go => &[ArgumentKind::Path],
            Word::At | Word::Save => &[ArgumentKind::Name],
            Word::Typed => &[ArgumentKind::Text],
            Word::Click | Word::Where => &[ArgumentKind::Number, ArgumentKind::Number],
            Word::Page | Word::Attrs | Word::UndoAt => &[ArgumentKind::Number],
            Word::Undo | Word::Redo | Word::Left | Word::Right | Word::Backspace | Word::Enter => {
                &[]
            }
            Word::Show | Word::Errors | Word::Cursor | Word::Work | Word::Tree | Word::Quit => &[],
        }
    }
}
