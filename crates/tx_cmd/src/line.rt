// The command of a line.
ghost use Rattle.std.specs.Prelude.{◌≡◌, ◌+◌, ◌≤◌, IfOk, IfErr, Err};
ghost use Rattle.tx_cmd.specs.Words.{up_to_space, TakesMemory};
ghost use Rattle.tx_cmd.specs.Values.{nodes_in_values};
ghost use Rattle.tx_cmd.specs.Commands.{IsCommand, values_of};
ghost use Rattle.tx_cmd.specs.Refusals.{IsCmdFault};

use crate::pieces::{first_word, misfit};
use crate::reading::command;
use crate::words::known_word;
use crate::{CmdFault, Command, MOST_LINE};
use std::alloc::Global;
use std::sync::ledger::Ledger;
use tx_base::Steps;

/// The command that the line spells. The line has neither the newline that ends it nor the one return before
/// that.
///
/// Faults are the first that holds of `Long`, `Unknown`, `Args`, `Path` and `Tree` (docs/DECISIONS.md), and `Memory`,
/// which comes only where commands with the line's first word hold a path, a label, a name, a tree or a text. Where it
/// returns a command, the steps rise by at most the nodes of the line's tree that aren't leaves.
pub fn parse<L: Ledger>(
    alloc: Global,
    line: &[u8],
    steps: &mut Steps<L>,
) -> Result<Command, CmdFault>
    ensures ok { IfOk result (IsCommand line.now) }
    ensures refused { IfErr result (IsCmdFault line.now) }
    ensures memory { result ≡ Err CmdFault.Memory → TakesMemory (up_to_space line.now) }
    ensures counted { IfOk result (λ c. steps.new ≤ steps.old + nodes_in_values (values_of c)) }
    ensures rises { steps.old ≤ steps.new }
{
    if line.len() > MOST_LINE {
        return Err(CmdFault::Long(line.len() as u64));
    }
    let first = first_word(line);
    let Some(word) = known_word(first) else {
        return Err(CmdFault::Unknown);
    };
    let rest = &line[first.len()..];
    if let Some(place) = misfit(alloc, word.arguments(), rest)? {
        return Err(CmdFault::Args(first.len() + place));
    }
    command(alloc, word, rest, first.len(), steps)
}
