// Reading a file.
ghost use Rattle.std.specs.Prelude.{◌≡◌, ◌≢◌, ◌≤◌, ◌<◌, [], length, IfSome, IfErr, OnOk, IsErrOf};
ghost use Rattle.std.specs.Io.KnownBytes.{IsAtEnd};

use std::io::Read;
use tx_outside::{LoadFault, MOST_FILE};

// How many bytes are asked for at a time.
const PIECE: usize = 16_384;

/// Appends what the file holds, up to `MOST_FILE` bytes, to `out`, which is empty. After a fault `out` may hold a
/// part of it.
#[tactic(auto, using(crate::proofs::Known::read_rules))]
pub fn read_to_limit<F: Read>(file: &mut F, out: &mut Vec<u8>) -> Result<(), LoadFault>
    requires { out.old.items ≡ [] }
    ensures all { OnOk result (IfSome (F.remaining file.old) (λ bytes. out.new.items ≡ bytes)) }
    ensures end { OnOk result (IsAtEnd (F.remaining file.new)) }
    ensures within { OnOk result (length out.new.items ≤ MOST_FILE) }
    ensures too_long { IsErrOf result LoadFault.TooLong
        → IfSome (F.remaining file.old) (λ bytes. MOST_FILE < length bytes) }
    ensures there { IfErr result (λ fault. fault ≢ LoadFault.Missing) }
{
    let mut piece = [0u8; PIECE];
    for _ in 0..u64::MAX {
        let count = match file.read(&mut piece) {
            Ok(count) => count,
            Err(_) => return Err(LoadFault::Failed),
        };
        if count == 0 {
            return Ok(());
        }
        if count > MOST_FILE - out.len() {
            return Err(LoadFault::TooLong);
        }
        out.extend_from_slice(&piece[..count])?;
    }
    Err(LoadFault::Failed)
}
