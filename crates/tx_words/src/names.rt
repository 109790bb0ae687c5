// The names of buffers.
ghost use Rattle.std.specs.Prelude.{◌≡◌, ◌≤◌, ◌-◌, ◌==◌, not, length};
ghost use Rattle.std.specs.List.{suffix_len};
ghost use Rattle.tx_words.specs.Names.{buffer_name};

// The place after the last such byte, or 0 where there is none.
fn behind_last(bytes: &[u8], byte: u8) -> usize
    ensures within { result ≤ length bytes.now }
    ensures value { result ≡ length bytes.now - suffix_len (λ b. not (b == byte)) bytes.now }
{
    let mut end = bytes.len();
    while end > 0 && bytes[end - 1] != byte {
        end -= 1;
    }
    end
}

/// The name of the buffer that is read from this path: the part after the last `/`, up to its last dot, or whole where
/// it has no dot or only one at its start.
pub fn buffer_name(path: &[u8]) -> &[u8]
    ensures { result.now ≡ buffer_name path.now }
{
    let base = &path[behind_last(path, b'/')..];
    let end = behind_last(base, b'.');
    if end > 1 { &base[..end - 1] } else { base }
}
