// Lists of modifications.
ghost use Rattle.std.specs.Prelude.{◌≡◌, IfOk};

use crate::mods::Mod;
use std::alloc::Global;
use std::marker::Model;
use tx_base::Memory;

/// Modifications in the order in which they are applied. Contracts see their list.
#[derive(Drop)]
pub struct ModList {
    mods: Vec<Mod>,
}

impl Model for ModList {
    ghost use Rattle.std.specs.Prelude.{List};
    ghost use Rattle.std.specs.Coded.{coded_list};
    ghost use Rattle.tx_mod.specs.declared.mods.Mod.{Mod};
    ghost use Rattle.tx_mod.specs.contracts.mods.Mod as one_mod;

    ghost Value = { List Mod };

    ghost coded = { coded_list one_mod.the_row.coded };

    ghost view = { λ m. m.mods.items };
}

impl ModList {
    /// The modifications, in order.
    pub fn as_slice(&self) -> &[Mod]
        ensures { result.now ≡ self.now }
    {
        &self.mods
    }

    /// A copy of the modifications, which shares trees and labels.
    pub fn copy(&self, alloc: Global) -> Result<ModList, Memory>
        ensures { IfOk result (λ list. list ≡ self.now) }
    {
        let mut mods = Vec::new(alloc);
        for m in &self.mods {
            mods.push(m.copy(alloc)?)?;
        }
        Ok(ModList { mods })
    }
}

impl From<Vec<Mod>> for ModList {
    ghost use Rattle.std.specs.Prelude.{◌≡◌};

    ghost from_gives = { λ mods list. list ≡ mods.items };

    fn from(mods: Vec<Mod>) -> ModList {
        ModList { mods }
    }
}
