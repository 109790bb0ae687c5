// Labels of brackets.
ghost use Rattle.std.specs.Prelude.{◌≡◌, ◌≤◌, ◌<◌, All, true, false, length, take, get_or};
ghost use Rattle.tx_tree.specs.Labels.{is_label_byte};

use tx_tree::is_label_byte;

// How many of the bytes at the front a label may have.
pub(crate) fn letters_len(bytes: &[u8]) -> usize
    ensures within { result ≤ length bytes.now }
    ensures each { All (λ b. is_label_byte b ≡ true) (take result bytes.now) }
    ensures stop { result < length bytes.now → is_label_byte (get_or bytes.now result 0) ≡ false }
{
    for i in 0..bytes.len() {
        if !is_label_byte(bytes[i]) {
            return i;
        }
    }
    bytes.len()
}
