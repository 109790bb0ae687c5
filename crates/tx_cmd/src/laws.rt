// What holds of all lines.
ghost use Rattle.std.specs.Prelude.{◌≡◌, ◌≢◌, ◌⊎◌, ℕ, List};
ghost use Rattle.tx_cmd.specs.Commands.{IsCommand};
ghost use Rattle.tx_cmd.specs.Refusals.{IsCmdFault};
ghost use Rattle.tx_cmd.specs.declared.command.Command.{Command};
ghost use Rattle.tx_cmd.specs.declared.command.CmdFault.{CmdFault};

/// A line is at most one command.
pub fn one_command()
    ensures { (line : List ℕ) (c d : Command) → IsCommand line c → IsCommand line d → c ≡ d }
{}

/// A line has at most one cause that makes it no command, `Memory` apart, and a command has none. Each line is a
/// command or has such a cause, however much memory there is.
pub fn one_answer()
    ensures cause { (line : List ℕ) (f g : CmdFault) → f ≢ CmdFault.Memory → g ≢ CmdFault.Memory → IsCmdFault line f
        → IsCmdFault line g → f ≡ g }
    ensures command { (line : List ℕ) (c : Command) (f : CmdFault) → f ≢ CmdFault.Memory → IsCommand line c
        → ¬ IsCmdFault line f }
    ensures some { (line : List ℕ) → ((c : Command) × IsCommand line c)
        ⊎ ((f : CmdFault) × (f ≢ CmdFault.Memory) × IsCmdFault line f) }
{}
