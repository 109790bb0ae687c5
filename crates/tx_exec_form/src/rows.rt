// The row of the table of evaluation that a label has.
ghost use Rattle.std.specs.Prelude.{◌≡◌};
ghost use Rattle.tx_exec_form.specs.Words.{is_same_row, is_refused, name_row_of, row_of};

/// A row of the table of evaluation.
#[derive(Clone, Copy, Debug, PartialEq, Eq)]
pub enum Row {
    /// The same node of evaluated children.
    Same,
    /// A tag that is never run.
    Refused,
    /// `raw-data`
    RawData,
    /// `drd-props`
    DrdProps,
    /// `assign`
    Assign,
    /// `with`
    With,
    /// `value`
    Value,
    /// `provides`
    Provides,
    /// `eval`
    Eval,
    /// `macro`
    Macro,
    /// `xmacro`
    XMacro,
    /// `quote`
    Quote,
    /// `arg`
    Arg,
    /// `quote-arg`
    QuoteArg,
    /// `map-args`
    MapArgs,
    /// `if`
    If,
    /// `case`
    Case,
    /// `while`
    While,
    /// The name of a primitive, or any other tag.
    Tag,
}

/// A row that has one child, whose value it goes on with.
#[derive(Clone, Copy, Debug, PartialEq, Eq)]
pub enum Unary {
    /// The value names a tree.
    Value,
    /// The value names a tree or none.
    Provides,
    /// The value is evaluated again.
    Eval,
}

/// What becomes of an argument that was found.
#[derive(Clone, Copy, Debug, PartialEq, Eq)]
pub enum Taking {
    /// It is evaluated in the frame of the caller.
    Evaluated,
    /// It is taken unevaluated.
    Quoted,
}

fn is_same_row(label: &[u8]) -> bool
    ensures { result ≡ is_same_row label.now }
{
    label == b"concat".as_slice()
        || label == b"document".as_slice()
        || label == b"tuple".as_slice()
        || label == b"error".as_slice()
        || label == b"next-line".as_slice()
        || label == b"new-page".as_slice()
        || label == b"hspace".as_slice()
        || label == b"vspace".as_slice()
}

fn is_refused(label: &[u8]) -> bool
    ensures { result ≡ is_refused label.now }
{
    label == b"extern".as_slice()
        || label == b"include".as_slice()
        || label == b"use-module".as_slice()
        || label == b"action".as_slice()
}

// The row that names variables or keeps trees, or that of any other tag.
fn name_row(label: &[u8]) -> Row
    ensures { result ≡ name_row_of label.now }
{
    if label == b"assign".as_slice() {
        return Row::Assign;
    }
    if label == b"with".as_slice() {
        return Row::With;
    }
    if label == b"value".as_slice() {
        return Row::Value;
    }
    if label == b"provides".as_slice() {
        return Row::Provides;
    }
    if label == b"macro".as_slice() {
        return Row::Macro;
    }
    if label == b"xmacro".as_slice() {
        return Row::XMacro;
    }
    if label == b"quote".as_slice() {
        return Row::Quote;
    }
    if label == b"eval".as_slice() {
        return Row::Eval;
    }
    Row::Tag
}

/// The row of this label.
pub fn row_for(label: &[u8]) -> Row
    ensures { result ≡ row_of label.now }
{
    if is_same_row(label) {
        return Row::Same;
    }
    if is_refused(label) {
        return Row::Refused;
    }
    if label == b"raw-data".as_slice() {
        return Row::RawData;
    }
    if label == b"drd-props".as_slice() {
        return Row::DrdProps;
    }
    if label == b"arg".as_slice() {
        return Row::Arg;
    }
    if label == b"quote-arg".as_slice() {
        return Row::QuoteArg;
    }
    if label == b"map-args".as_slice() {
        return Row::MapArgs;
    }
    if label == b"if".as_slice() {
        return Row::If;
    }
    if label == b"case".as_slice() {
        return Row::Case;
    }
    if label == b"while".as_slice() {
        return Row::While;
    }
    name_row(label)
}
