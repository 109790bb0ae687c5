// The words as `clap` takes them.
ghost use Rattle.std.specs.Prelude.{◌≡◌, ◌≢◌, true, false, map, IfOk, IsErrOf};
ghost use Rattle.std.specs.String.{string_bytes};
ghost use Rattle.clap.specs.Words.{app_of, found_of, matches_of, rows_of, rule_of, takes};
ghost use Rattle.tx_words.specs.Words.{document_rule, option, styles, tmx};

use crate::faults::WordsFault;
use clap::error::{Error, ErrorKind};
use clap::{Arg, ArgAction, ArgMatches, Command};
use std::alloc::Global;
use tx_base::Memory;

// An option with one value.
fn option<'a>(alloc: Global, name: &'a str) -> Arg<'a>
    ensures rule { rule_of result ≡ option name.entry.now }
    ensures local { result.global ≡ false }
{
    Arg::new(alloc, name).long(name).action(ArgAction::Set)
}

// The document's file, which has to be there.
fn document<'a>(alloc: Global) -> Arg<'a>
    ensures rule { rule_of result ≡ document_rule }
    ensures local { result.global ≡ false }
{
    Arg::new(alloc, "FILE")
        .required(true)
        .action(ArgAction::Set)
}

// The files of styles, any number of them.
fn styles<'a>(alloc: Global) -> Arg<'a>
    ensures rule { rule_of result ≡ styles }
    ensures local { result.global ≡ false }
{
    Arg::new(alloc, "STYLE").action(ArgAction::Append)
}

// The command.
fn tmx<'a>(alloc: Global) -> Result<Command<'a>, Memory>
    ensures { IfOk result (λ command. app_of command ≡ tmx) }
{
    let command = Command::new(alloc, "tmx")
        .arg(option(alloc, "width"))?
        .arg(option(alloc, "height"))?
        .arg(document(alloc))?
        .arg(styles(alloc))?;
    Ok(command)
}

/// What the command finds in the words, or what `clap` says against them.
pub(crate) fn tried<'a>(
    alloc: Global,
    words: &'a [String],
) -> Result<Result<ArgMatches<'a>, Error>, Memory> {
    Ok(tmx(alloc)?.try_get_matches_from(words))
}

/// What the command finds in the words.
pub(crate) fn parse<'a>(alloc: Global, words: &'a [String]) -> Result<ArgMatches<'a>, WordsFault>
    ensures taken { IfOk result (λ _. takes tmx (map string_bytes words.now) ≡ true) }
    ensures found { IfOk result (λ matches. rows_of (found_of matches) ≡ matches_of tmx (map string_bytes words.now)) }
    ensures faulty { IsErrOf result WordsFault.Faulty → takes tmx (map string_bytes words.now) ≢ true }
{
    match tmx(alloc)?.try_get_matches_from(words) {
        Ok(matches) => Ok(matches),
        Err(error) if error.kind() == ErrorKind::OutOfMemory => Err(WordsFault::Memory),
        Err(_) => Err(WordsFault::Faulty),
    }
}
