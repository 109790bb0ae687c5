// A store without files.
ghost use Rattle.std.specs.Prelude.{◌≡◌, Err};
ghost use Rattle.tx_outside.specs.declared.faults.LoadFault.TheVariants.{Memory as out_of_memory};
ghost use Rattle.tx_session.specs.Runs.{no_files};

use tx_outside::{LoadFault, SaveFault, Store};

/// A store for a session that saves nothing: it holds no file, and takes none.
#[derive(Drop)]
pub(crate) struct NoFiles;

impl Store for NoFiles {
    ghost seen = { λ _. no_files };

    ghost load_leaves = { λ _ result old new. (result ≡ Err out_of_memory) × (new ≡ old) };

    fn load(&mut self, _name: &[u8], _out: &mut Vec<u8>) -> Result<(), LoadFault> {
        Err(LoadFault::Memory)
    }

    fn save(&mut self, _name: &[u8], _bytes: &[u8]) -> Result<(), SaveFault> {
        Err(SaveFault::Memory)
    }
}
