// Labels by the rule that shows them.
ghost use Rattle.std.specs.Prelude.{◌≡◌};
ghost use Rattle.tx_items.specs.Rows.{rule_in};
ghost use Rattle.tx_items.specs.Rules.{rule_of};

// The rule by which a node shows.
#[derive(Clone, Copy)]
pub(crate) enum Row {
    // the parts side by side
    Concat,
    // the parts as paragraphs
    Document,
    // the last part, with the attributes that the others set
    With,
    // an attribute
    Assign,
    // nothing
    Silent,
    // the end of a line
    NextLine,
    // the end of a page
    NewPage,
    // free cells
    Hspace,
    // empty lines
    Vspace,
    // an error
    Error,
    // a table
    Tabular,
    // a tag that nothing says how to show
    Other,
}

// The rule of a label.
#[tactic(auto, unfolding(crate::specs::Rules::rule_of))]
pub(crate) fn row_of(label: &[u8]) -> Row
    ensures { rule_in result ≡ rule_of label.now }
{
    if label == b"concat".as_slice() {
        Row::Concat
    } else if label == b"document".as_slice() {
        Row::Document
    } else if label == b"with".as_slice() {
        Row::With
    } else if label == b"assign".as_slice() {
        Row::Assign
    } else if label == b"macro".as_slice() {
        Row::Silent
    } else if label == b"xmacro".as_slice() {
        Row::Silent
    } else if label == b"next-line".as_slice() {
        Row::NextLine
    } else if label == b"new-page".as_slice() {
        Row::NewPage
    } else if label == b"hspace".as_slice() {
        Row::Hspace
    } else if label == b"vspace".as_slice() {
        Row::Vspace
    } else if label == b"error".as_slice() {
        Row::Error
    } else if label == b"tabular".as_slice() {
        Row::Tabular
    } else {
        Row::Other
    }
}
