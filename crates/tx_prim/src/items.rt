// The items of a text by their numbers.
ghost use Rattle.std.specs.Prelude.{◌≡◌, ◌≤◌, ◌-◌, length, take, drop};
ghost use Rattle.std.specs.List.{AllByRecursion, flat_map};
ghost use Rattle.std.specs.Prelude.{List, map};
ghost use Rattle.tx_tree.specs.Texts.{Item, IsItem, item_bytes};
ghost use Rattle.tx_prim.specs.Items.{text_items, joined_lists};

// The number of items of the bytes.
pub(crate) fn item_count(bytes: &[u8]) -> usize
    ensures value { result ≡ length (text_items bytes.now) }
    ensures within { result ≤ length bytes.now }
{
    let mut count = 0usize;
    let mut in_symbol = false;
    for byte in bytes {
        if in_symbol {
            in_symbol = *byte != b'>';
        } else {
            in_symbol = *byte == b'<';
            count += 1;
        }
    }
    count
}

// The number of the bytes of so many items.
pub(crate) fn bytes_of_items(bytes: &[u8], items: usize) -> usize
    ensures value { result ≡ length (joined_lists (take items (text_items bytes.now))) }
    ensures within { result ≤ length bytes.now }
{
    let mut left = items;
    let mut in_symbol = false;
    for (i, byte) in bytes.iter().enumerate() {
        if in_symbol {
            in_symbol = *byte != b'>';
        } else if left == 0 {
            return i;
        } else {
            left -= 1;
            in_symbol = *byte == b'<';
        }
    }
    bytes.len()
}

// The bytes of the items from place i to before j.
#[tactic(auto, using(crate::proofs::ItemRuns::between, std::proofs::lemmas::Grind::common_steps))]
pub(crate) fn items_between(bytes: &[u8], i: usize, j: usize) -> &[u8]
    requires { i ≤ j }
    ensures items { result.now ≡ joined_lists (take (j - i) (drop i (text_items bytes.now))) }
    ensures within { length result.now ≤ length bytes.now }
{
    let start = bytes_of_items(bytes, i);
    let end = bytes_of_items(bytes, j);
    &bytes[start..end]
}

/// The items of a text, counted by where symbols begin and end, are those that it is made of.
pub fn item_laws()
    ensures { (items : List Item) → AllByRecursion IsItem items
        → text_items (flat_map item_bytes items) ≡ map item_bytes items }
{}
