// The program.
ghost use Rattle.std.specs.Prelude.{◌≡◌};
ghost use Rattle.std.specs.Process.{exit_status};
ghost use Rattle.tx_screen.specs.Endings.{ending_number};
ghost use Rattle.tx_screen.specs.declared.ending.Ending.{Ending as HowItEnds};

use std::alloc::AllocError;
use std::io;
use std::marker::Brand;
use std::process::ExitCode;
use std::rt::{Env, Files};
use std::sync::ledger::{Blank, Ledger};
use tx_base::{Memory, Steps};
use tx_program::{refused_because, unopened_because, words};
use tx_screen::{Ending, Size, run_screen};
use tx_system::{FileStore, StandardInput, StandardOutput};

// How the program is called.
const USAGE: &str = "usage: tmx_screen COLUMNS ROWS [--width N] [--height N] FILE [STYLE]...";

// The number of columns or of rows that a word writes, from 1 on.
fn count_in(word: &str) -> Option<u16> {
    match word.parse::<u16>() {
        Ok(0) => None,
        Ok(count) => Some(count),
        Err(_) => None,
    }
}

// The size of the terminal, which the first two words after the program's name say.
fn size_in(words: &[String]) -> Option<Size> {
    let columns = count_in(words.get(1)?)?;
    let rows = count_in(words.get(2)?)?;
    Some(Size { columns, rows })
}

// The words as `tmx` takes them: those after the size. The last one before them is in place of the program's name.
fn words_after_size(words: &[String]) -> &[String] {
    if words.len() > 2 { &words[2..] } else { words }
}

// Runs the screen, with a count of steps that nobody asks for.
fn run_counted<R: Files + Print + Input + AllocGlobal, L: Ledger>(
    rt: &R,
    size: Size,
    words: &[String],
    blank: Blank,
) -> Ending
    requires name { blank.name ≡ L.name }
    requires parts { blank.parts ≡ L.parts }
    requires whole { blank.parts ≡ 1 }
{
    let mut steps = Steps::<L>::new(blank);
    let mut store = FileStore::new(rt.alloc(), rt);
    let mut input = StandardInput::new(rt.reader());
    let mut output = StandardOutput::new(io::writer(rt));
    run_screen(
        rt.alloc(),
        size,
        words_after_size(words),
        &mut store,
        &mut input,
        &mut output,
        &mut steps,
    )
}

// Why the words or a file were refused, where the run ended so.
fn reason<R: Files + AllocGlobal, L: Ledger>(
    rt: &R,
    words: &[String],
    ending: Ending,
    blank: Blank,
) -> Result<Option<String>, Memory>
    requires name { blank.name ≡ L.name }
    requires parts { blank.parts ≡ L.parts }
    requires whole { blank.parts ≡ 1 }
{
    match ending {
        Ending::Words => refused_because(rt.alloc(), words),
        Ending::Missing | Ending::Refused | Ending::StoreFault => {
            let mut steps = Steps::<L>::new(blank);
            let mut store = FileStore::new(rt.alloc(), rt);
            unopened_because(rt.alloc(), words, &mut store, &mut steps)
        }
        _ => Ok(None),
    }
}

// Says on the standard error why the words or a file were refused, where the run ended so.
fn explain<R: Files + Eprint + AllocGlobal>(rt: &R, words: &[String], ending: Ending) {
    if let Ok(Some(text)) = reason::<R, Brand>(rt, words, ending, Blank::new(1)) {
        let _ = eprintln!(rt; "tmx-edit: {text}");
    }
}

// Runs the screen over the words of the command line.
fn run_words<R: Files + Print + Eprint + Input + AllocGlobal>(rt: &R, words: &[String]) -> Ending {
    let Some(size) = size_in(words) else {
        let _ = eprintln!(rt; "{USAGE}");
        return Ending::Words;
    };
    let ending = run_counted::<R, Brand>(rt, size, words, Blank::new(1));
    explain(rt, words_after_size(words), ending);
    ending
}

/// The code with which the program ends.
pub fn exit_code(ending: Ending) -> ExitCode
    ensures { exit_status result ≡ ending_number ending }
{
    ExitCode::from(ending.number())
}

/// Runs the program over the words of its command line, the files, the standard input and the standard output: the
/// columns and rows of the terminal, each from 1 to 65,535, and then the words of `tmx`, as `run_screen` of `tx_screen`
/// says. Where words or a file are refused, it says why on the standard error. It ends with the number of the ending.
pub fn run_screen_program<R: Env + Files + Print + Eprint + Input + AllocGlobal>(rt: &R) -> ExitCode
    ensures { (ending : HowItEnds) × (exit_status result ≡ ending_number ending) }
{
    let ending = match words(rt) {
        Ok(words) => run_words(rt, &words),
        Err(AllocError) => Ending::NoMemory,
    };
    exit_code(ending)
}
