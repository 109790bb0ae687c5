// The tables of what is shown: bytes, and symbols by name.
ghost use Rattle.std.specs.Prelude.{◌≡◌, map};
ghost use Rattle.tx_text.specs.Tables.{byte_code, code_among, named_code};

// The bytes 0 to 31, of which 9, 10 and 13 are in no text.
const FIRST: [char; 32] = [
    '\u{60}', '\u{b4}', '\u{2c6}', '\u{2dc}', '\u{a8}', '\u{2dd}', '\u{2da}', '\u{2c7}', '\u{2d8}',
    '\u{9}', '\u{a}', '\u{b8}', '\u{2db}', '\u{d}', '\u{2039}', '\u{203a}', '\u{201c}', '\u{201d}',
    '\u{201e}', '\u{ab}', '\u{bb}', '\u{2013}', '\u{2014}', '\u{fffd}', '\u{2080}', '\u{131}',
    '\u{237}', '\u{fb00}', '\u{fb01}', '\u{fb02}', '\u{fb03}', '\u{fb04}',
];

// The bytes 127 to 191.
const MIDDLE: [char; 65] = [
    '\u{2010}', '\u{102}', '\u{104}', '\u{106}', '\u{10c}', '\u{10e}', '\u{11a}', '\u{118}',
    '\u{11e}', '\u{139}', '\u{13d}', '\u{141}', '\u{143}', '\u{147}', '\u{14a}', '\u{150}',
    '\u{154}', '\u{158}', '\u{15a}', '\u{160}', '\u{15e}', '\u{164}', '\u{162}', '\u{170}',
    '\u{16e}', '\u{178}', '\u{179}', '\u{17d}', '\u{17b}', '\u{132}', '\u{130}', '\u{111}',
    '\u{a7}', '\u{103}', '\u{105}', '\u{107}', '\u{10d}', '\u{10f}', '\u{11b}', '\u{119}',
    '\u{11f}', '\u{13a}', '\u{13e}', '\u{142}', '\u{144}', '\u{148}', '\u{14b}', '\u{151}',
    '\u{155}', '\u{159}', '\u{15b}', '\u{161}', '\u{15f}', '\u{165}', '\u{163}', '\u{171}',
    '\u{16f}', '\u{ff}', '\u{17a}', '\u{17e}', '\u{17c}', '\u{133}', '\u{a1}', '\u{bf}', '\u{a3}',
];

// The symbols that show as one character by their name.
const NAMED: [(&str, char); 51] = [
    ("alpha", '\u{3b1}'),
    ("beta", '\u{3b2}'),
    ("gamma", '\u{3b3}'),
    ("delta", '\u{3b4}'),
    ("epsilon", '\u{3b5}'),
    ("zeta", '\u{3b6}'),
    ("eta", '\u{3b7}'),
    ("theta", '\u{3b8}'),
    ("iota", '\u{3b9}'),
    ("kappa", '\u{3ba}'),
    ("lambda", '\u{3bb}'),
    ("mu", '\u{3bc}'),
    ("nu", '\u{3bd}'),
    ("xi", '\u{3be}'),
    ("omicron", '\u{3bf}'),
    ("pi", '\u{3c0}'),
    ("rho", '\u{3c1}'),
    ("sigma", '\u{3c3}'),
    ("tau", '\u{3c4}'),
    ("upsilon", '\u{3c5}'),
    ("phi", '\u{3c6}'),
    ("chi", '\u{3c7}'),
    ("psi", '\u{3c8}'),
    ("omega", '\u{3c9}'),
    ("Gamma", '\u{393}'),
    ("Delta", '\u{394}'),
    ("Theta", '\u{398}'),
    ("Lambda", '\u{39b}'),
    ("Xi", '\u{39e}'),
    ("Pi", '\u{3a0}'),
    ("Sigma", '\u{3a3}'),
    ("Upsilon", '\u{3a5}'),
    ("Phi", '\u{3a6}'),
    ("Psi", '\u{3a8}'),
    ("Omega", '\u{3a9}'),
    ("less", '\u{3c}'),
    ("gtr", '\u{3e}'),
    ("leq", '\u{2264}'),
    ("geq", '\u{2265}'),
    ("neq", '\u{2260}'),
    ("in", '\u{2208}'),
    ("infty", '\u{221e}'),
    ("rightarrow", '\u{2192}'),
    ("leftarrow", '\u{2190}'),
    ("times", '\u{d7}'),
    ("cdot", '\u{22c5}'),
    ("ldots", '\u{2026}'),
    ("forall", '\u{2200}'),
    ("exists", '\u{2203}'),
    ("pm", '\u{b1}'),
    ("nbsp", '\u{a0}'),
];

/// The character that a byte shows as.
pub fn byte_char(byte: u8) -> char
    ensures { result ≡ byte_code byte }
{
    match byte {
        0..=31 => FIRST[usize::from(byte)],
        32..=126 => char::from(byte),
        127..=191 => MIDDLE[usize::from(byte) - 127],
        215 => '\u{152}',
        223 => '\u{1e9e}',
        247 => '\u{153}',
        255 => '\u{df}',
        _ => char::from(byte),
    }
}

// The character of the first row with this name.
fn char_among(rows: &[(&str, char)], name: &[u8]) -> Option<char>
    ensures { result ≡ code_among (map (λ row. (row.0.now, row.1)) rows.now) name.now }
{
    for row in rows {
        if name == row.0.as_bytes() {
            return Some(row.1);
        }
    }
    None
}

/// The character that a symbol shows as by its name, or None where the table lacks it.
pub fn named_char(name: &[u8]) -> Option<char>
    ensures { result ≡ named_code name.now }
{
    char_among(&NAMED, name)
}
