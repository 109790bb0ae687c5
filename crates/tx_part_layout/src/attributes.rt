// Whether attributes are the same.
ghost use Rattle.std.specs.Prelude.{◌≡◌, ◌&&◌};
ghost use Rattle.std.specs.Ordering.{int_eq};
ghost use Rattle.std.specs.Str.{bytes_eq};
ghost use Rattle.tx_part_layout.specs.LaidParts.{same_attrs};

use tx_items::Attrs;

// Both have the same lengths.
fn same_lengths(one: &Attrs, other: &Attrs) -> bool
    ensures { result ≡ (int_eq one.now.left other.now.left && int_eq one.now.right other.now.right
        && int_eq one.now.first other.now.first) }
{
    one.left == other.left && one.right == other.right && one.first == other.first
}

// Both have the same texts.
fn same_texts(one: &Attrs, other: &Attrs) -> bool
    ensures { result ≡ (bytes_eq one.now.series other.now.series && bytes_eq one.now.shape other.now.shape
        && bytes_eq one.now.color other.now.color && bytes_eq one.now.mode other.now.mode) }
{
    one.series.bytes() == other.series.bytes()
        && one.shape.bytes() == other.shape.bytes()
        && one.color.bytes() == other.color.bytes()
        && one.mode.bytes() == other.mode.bytes()
}

/// Whether both are the same attributes.
pub fn same_attrs(one: &Attrs, other: &Attrs) -> bool
    ensures { result ≡ same_attrs one.now other.now }
{
    if same_lengths(one, other) {
        return same_texts(one, other);
    }
    false
}
