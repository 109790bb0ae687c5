// Where files are stored.
ghost use Rattle.std.specs.Prelude.{◌≡◌, ◌≤◌, ℕ, List, [], Some, Result};
ghost use Rattle.std.specs.Prelude.{length, OnOk, OnErr, IfSome, IsErrOf};
ghost use Rattle.tx_outside.specs.Counts.{Rose};
ghost use Rattle.tx_outside.specs.Files.{IsAbsent, IsTooLong, NamesDiffer, OthersKept, WithFile, file_of};
ghost use Rattle.tx_outside.specs.Known.{WhereKnown};
ghost use Rattle.tx_outside.specs.Outside.{StoreGoesOn, StoreSeen};

use crate::{LoadFault, SaveFault};

/// How many bytes a file has at most: 2^24.
pub const MOST_FILE: usize = 16_777_216;

/// A store of files, which are known by their names.
pub trait Store {
    ghost use Rattle.tx_outside.specs.declared.faults.LoadFault.{LoadFault};

    /// The name and the bytes of each file, where the store reports them; no two names are equal. How often the store
    /// has failed, how often a file that was asked for wasn't there, and how often one was too long: numbers up to
    /// 2^64 - 1 that never fall.
    ghost seen: { Self → StoreSeen };

    /// What a call of `load` leaves: asked for this name it returned this, and made the second store of the first. So a
    /// function over any store tells by a chain of such steps which files it asked for, and in which order.
    ghost load_leaves: { List ℕ → Result (Unit {0}) LoadFault → Self → Self → Type 0 };

    /// Puts the bytes of the file of that name, at most `MOST_FILE`, into `out`, which is empty. After
    /// every fault it is empty again. No file changes.
    fn load(&mut self, name: &[u8], out: &mut Vec<u8>) -> Result<(), LoadFault>
        requires { out.old.items ≡ [] }
        ensures loaded { OnOk result (IfSome (seen self.old).files (λ all. file_of all name.now ≡ Some out.new.items)) }
        ensures within_limit { OnOk result (length out.new.items ≤ MOST_FILE) }
        ensures fault_empties { OnErr result (out.new.items ≡ []) }
        ensures leaves { load_leaves name.now result self.old self.new }

        // Each fault but `Memory` has a count that rose, and two say something of the stored files.
        ensures missing_rose { IsErrOf result LoadFault.Missing → Rose (seen self.old).misses (seen self.new).misses }
        ensures missing_absent { IsErrOf result LoadFault.Missing → IfSome (seen self.old).files (IsAbsent name.now) }
        ensures failed_rose { IsErrOf result LoadFault.Failed → Rose (seen self.old).faults (seen self.new).faults }
        ensures too_long_rose { IsErrOf result LoadFault.TooLong → Rose (seen self.old).longs (seen self.new).longs }
        ensures too_long_there { IsErrOf result LoadFault.TooLong → IfSome (seen self.old).files (IsTooLong name.now) }

        // What doesn't change.
        ensures files_kept { (seen self.new).files ≡ (seen self.old).files }
        ensures names_differ { IfSome (seen self.new).files NamesDiffer }
        ensures goes_on { StoreGoesOn (seen self.old) (seen self.new) };

    /// Stores the bytes under the name, in place of those that were there. After `Failed` the other files are as
    /// before, and the file of this name is left open. After `Memory` all files are as before.
    fn save(&mut self, name: &[u8], bytes: &[u8]) -> Result<(), SaveFault>
        ensures saved { OnOk result
            (WhereKnown (WithFile name.now bytes.now) (seen self.old).files (seen self.new).files) }
        ensures failed_rose { IsErrOf result SaveFault.Failed → Rose (seen self.old).faults (seen self.new).faults }
        ensures failed_others { IsErrOf result SaveFault.Failed
            → WhereKnown (OthersKept name.now) (seen self.old).files (seen self.new).files }
        ensures memory_keeps { IsErrOf result SaveFault.Memory → (seen self.new).files ≡ (seen self.old).files }

        // What holds of the store after each call.
        ensures names_differ { IfSome (seen self.new).files NamesDiffer }
        ensures goes_on { StoreGoesOn (seen self.old) (seen self.new) };
}
