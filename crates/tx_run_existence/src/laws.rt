// Laws of existence.
ghost use Rattle.std.specs.Prelude.{◌≡◌, ℕ, List, Some};
ghost use Rattle.tx_outside.specs.Files.{Files};
ghost use Rattle.tx_open.specs.Outcomes.{ComesTo, IsDecided, OpenOutcome};
ghost use Rattle.tx_run_existence.specs.UnfailingRuns.{IsUnfailingRun};
ghost use Rattle.tx_session.specs.Runs.{Outside};
ghost use Rattle.tx_session.specs.Worlds.{LineMark};
ghost use Rattle.tx_session.specs.declared.status.Status.{Status};

use tx_generated::document_laws;

/// A law: words and known files have an outcome of opening, without a fault of the store and with memory that suffices.
pub fn some_outcome()
    ensures { (words : List (List ℕ)) (told : Files) →
        (o : OpenOutcome) × ComesTo words (Some told) o × IsDecided o }
{
    document_laws();
}

/// A law: words, known files and a known script have a run in which no device fails and memory suffices at each line.
pub fn some_run()
    ensures { (words : List (List ℕ)) (before : Outside) (files : Files) (script : List ℕ) →
        before.store.files ≡ Some files → before.input.left ≡ Some script →
        (after : Outside) × (marks : List LineMark) × (status : Status) × (text : List ℕ)
        × IsUnfailingRun words files before after marks status text }
{
    document_laws();
}
