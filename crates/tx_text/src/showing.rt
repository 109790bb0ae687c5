// The display text of one item, without memory.
ghost use Rattle.std.specs.Prelude.{◌≡◌, ◌≤◌, ◌<◌, ◌+◌, ◌==◌, ◌++◌, ◌↔◌, not, length, drop, encode_utf8, IfSome};
ghost use Rattle.std.specs.List.{flat_map, take_while};
ghost use Rattle.tx_tree.specs.Texts.{IsCut, IsName, item_bytes, symbol as Symbol};
ghost use Rattle.tx_text.specs.Displays.{item_text, display_text};
ghost use Rattle.tx_text.specs.Clusters.{item_beginning_at, items_of};

use crate::displays::symbol_char;
use crate::tables::byte_char;
use tx_tree::Text;

// Puts a character at the start of a buffer, and returns how many bytes it takes.
fn put_char(shown: char, into: &mut [u8]) -> usize
    requires { 4 ≤ length into.old }
    ensures count { result ≡ length (encode_utf8 shown) }
    ensures short { result ≤ 4 }
    ensures put { into.new ≡ encode_utf8 shown ++ drop result into.old }
{
    let mut encoded = [0; 4];
    let bytes = shown.encode_utf8(&mut encoded).as_bytes();
    let count = bytes.len();
    into[..count].copy_from_slice(bytes);
    count
}

// Puts a symbol's display text at the start of a buffer, and returns how many bytes it takes.
fn put_symbol(name: &[u8], into: &mut [u8]) -> usize
    requires name { IsName name.now }
    requires room { 257 ≤ length into.old }
    ensures count { result ≡ length (item_text (Symbol name.now)) }
    ensures short { result ≤ 257 }
    ensures put { into.new ≡ item_text (Symbol name.now) ++ drop result into.old }
{
    match symbol_char(name) {
        Some(shown) => put_char(shown, into),
        None => {
            let end = name.len() + 1;
            into[0] = b'<';
            into[1..end].copy_from_slice(name);
            into[end] = b'>';
            end + 1
        }
    }
}

// The length of the name of a symbol, which begins here.
fn name_len(bytes: &[u8]) -> usize
    ensures { result ≡ length (take_while (λ b. not (b == 62)) bytes.now) }
{
    bytes.iter().take_while(|byte| **byte != b'>').count()
}

// That name.
fn name_of(bytes: &[u8]) -> &[u8]
    ensures { result.now ≡ take_while (λ b. not (b == 62)) bytes.now }
{
    &bytes[..name_len(bytes)]
}

/// Puts the display text of the item that begins at a cut of a text at the start of a buffer, in UTF-8, and returns the
/// number of its bytes, at most 257, and the cut after the item. None comes exactly at the end of the text, and the
/// buffer is then as before. It takes no memory.
pub fn show_item(text: &Text, at: usize, into: &mut [u8]) -> Option<(usize, usize)>
    requires cut { IsCut text.now at }
    requires room { 300 ≤ length into.old }
    ensures at_end { (result ≡ None) ↔ (at ≡ length text.now) }
    ensures untouched { result ≡ None → into.new ≡ into.old }
    ensures shown { IfSome result (λ (count, next). into.new
        ≡ display_text (item_beginning_at text.now at) ++ drop count into.old) }
    ensures count { IfSome result (λ (count, next). count ≡ length (display_text (item_beginning_at text.now at))) }
    ensures short { IfSome result (λ (count, next). count ≤ 257) }
    ensures next { IfSome result (λ (count, next). next
        ≡ at + length (flat_map item_bytes (item_beginning_at text.now at))) }
    ensures further { IfSome result (λ (count, next). at < next) }
    ensures next_cut { IfSome result (λ (count, next). IsCut text.now next) }
    ensures rest { IfSome result (λ (count, next). items_of (drop at text.now)
        ≡ item_beginning_at text.now at ++ items_of (drop next text.now)) }
{
    let bytes = text.bytes();
    if at == bytes.len() {
        return None;
    }
    if bytes[at] == b'<' {
        let name = name_of(&bytes[at + 1..]);
        let count = put_symbol(name, into);
        Some((count, at + name.len() + 2))
    } else {
        let count = put_char(byte_char(bytes[at]), into);
        Some((count, at + 1))
    }
}
