// The syntax of a file.
ghost use Rattle.std.specs.Prelude.{◌≡◌};
ghost use Rattle.tx_doc.specs.Forms.{form_of};

/// The two syntaxes of a tree in a file.
#[derive(Clone, Copy, Debug, PartialEq, Eq)]
pub enum Form {
    /// The TM format.
    Tm,
    /// The Scheme syntax.
    Scheme,
}

/// The syntax of a file of this name: Scheme exactly where the name ends in `.scm` or `.stm`.
pub fn form_of(name: &[u8]) -> Form
    ensures { result ≡ form_of name.now }
{
    if name.ends_with(b".scm") || name.ends_with(b".stm") {
        Form::Scheme
    } else {
        Form::Tm
    }
}
