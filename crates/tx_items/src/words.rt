// The texts that the rules make by themselves.
ghost use Rattle.std.specs.Prelude.{◌≡◌, IfOk};
ghost use Rattle.tx_items.specs.Words.{word_bytes};

use std::alloc::Global;
use tx_base::Memory;
use tx_prim::known_text;
use tx_tree::Text;

// A text that the rules make.
#[derive(Clone, Copy)]
pub(crate) enum Word {
    // what is before the kind of an error
    ErrorFront,
    // what is before the label of a tag that nothing says how to show
    TagFront,
    // what ends both
    End,
    // what is before each part of such a tag
    Bar,
    // what is before the detail of an error
    Blank,
    // the kind of the error of a tag whose parts aren't as its rule wants
    Bad,
    // the kind of the error of a tag that nothing says how to show
    UndefinedTag,
    // the series, the shape, the colour and the mode where nothing else is set
    Medium,
    Right,
    Black,
    Left,
}

impl Word {
    // The bytes of the text.
    fn bytes(self) -> &'static [u8]
        ensures { result.now ≡ word_bytes self }
    {
        match self {
            Word::ErrorFront => b"<less>!",
            Word::TagFront => b"<less>",
            Word::End => b"<gtr>",
            Word::Bar => b"|",
            Word::Blank => b" ",
            Word::Bad => b"bad",
            Word::UndefinedTag => b"undefined-tag",
            Word::Medium => b"medium",
            Word::Right => b"right",
            Word::Black => b"black",
            Word::Left => b"left",
        }
    }

    // The text.
    #[tactic(auto, using(crate::proofs::Wording::words, std::proofs::lemmas::Grind::common_steps))]
    pub(crate) fn text(self, alloc: Global) -> Result<Text, Memory>
        ensures { IfOk result (λ t. t ≡ word_bytes self) }
    {
        known_text(alloc, self.bytes())
    }
}
