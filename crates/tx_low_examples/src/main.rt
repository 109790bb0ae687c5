//! Examples of use: one function for each library below the view that is of use alone. `main` prints what each one
//! returns, and the READMEs of these libraries quote the functions. `tx_examples` has those of the view and of sessions.
#![tactic(auto)]

ghost use Rattle.std.specs.Prelude.{◌≡◌};

use std::alloc::Global;
use std::marker::Brand;
use std::process::ExitCode;
use std::sync::ledger::{Blank, Ledger};
use tx_base::Steps;
use tx_env::Env;
use tx_exec::{Outcome, eval};
use tx_mod::{Mod, apply, apply_and_inverse};
use tx_origin::Tagged;
use tx_tree::{Label, Path, Text, Tree, text_of};

// `tx_tree`: makes the tree `(em "two")`, and looks at it.
fn made<L: Ledger>(alloc: Global, steps: &mut Steps<L>) -> Option<String> {
    let two = Tree::leaf(alloc, Text::new(alloc, b"two").ok()?).ok()?;
    let em = Label::new(alloc, b"em").ok()?;
    let tree = Tree::node(alloc, em, vec![in alloc; two].ok()?, steps).ok()?;
    let path = Path::parse(alloc, b"/0").ok()?;
    let two = tree.at(&path)?.size();
    let (size, depth) = (tree.size(), tree.depth());
    format!(in alloc; "size {size}, depth {depth}; the subtree at {path} has size {two}").ok()
}

// The canonical Scheme text of a tree.
fn scheme_text(alloc: Global, tree: &Tree) -> Option<String> {
    let mut text = Vec::new(alloc);
    tx_scm::write(tree, &mut text).ok()?;
    String::from_utf8(text).ok()
}

// `tx_scm`: reads a tree in Scheme syntax, and writes its canonical text.
fn read_scheme<L: Ledger>(alloc: Global, steps: &mut Steps<L>) -> Option<String> {
    let tree = tx_scm::read(alloc, b"( document\"one\" (em \"two\") )", steps).ok()?;
    scheme_text(alloc, &tree)
}

// `tx_tm_read`: reads a TM document, and gives the place of a fault in another one.
fn read_tm<L: Ledger>(alloc: Global, steps: &mut Steps<L>) -> Option<String> {
    let tree = tx_tm_read::read(alloc, b"one <em|two>", steps).ok()?;
    let text = scheme_text(alloc, &tree)?;
    let fault = tx_tm_read::read(alloc, b"<em|two", steps).err()?;
    format!(in alloc; "{text}; {fault}").ok()
}

// `tx_mod`: takes seven bytes out of a text, and puts them back by the inverse.
fn taken_out<L: Ledger>(alloc: Global, steps: &mut Steps<L>) -> Option<String> {
    let before = tx_scm::read(alloc, b"(document \"one\" \"twenty-two\")", steps).ok()?;
    let remove = Mod::Remove(Path::parse(alloc, b"/1").ok()?, 0, 7);
    let (after, inverse) = apply_and_inverse(alloc, &before, &remove, steps).ok()?;
    put_back(alloc, &after, &inverse, steps)
}

// A tree, and what a modification makes of it.
fn put_back<L: Ledger>(
    alloc: Global,
    after: &Tree,
    inverse: &Mod,
    steps: &mut Steps<L>,
) -> Option<String> {
    let back = apply(alloc, after, inverse, steps).ok()?;
    let text = scheme_text(alloc, after)?;
    format!(in alloc; "{text}, and back {}", scheme_text(alloc, &back)?).ok()
}

// An environment in which `hi` is a macro.
fn greetings<L: Ledger>(alloc: Global, steps: &mut Steps<L>) -> Option<Env> {
    let hi = tx_scm::read(alloc, b"(macro \"x\" (concat \"Hi \" (arg \"x\")))", steps).ok()?;
    let mut env = Env::new(alloc);
    env.set(text_of(alloc, b"hi").ok()?, hi).ok()?;
    Some(env)
}

// `tx_exec`: evaluates a call of the macro `hi`.
fn greeted<L: Ledger>(alloc: Global, steps: &mut Steps<L>) -> Option<String> {
    let mut env = greetings(alloc, steps)?;
    let tree = tx_scm::read(alloc, b"(hi \"you\")", steps).ok()?;
    match eval(alloc, &Tagged { tree, at: None }, &mut env, 1000, steps).ok()? {
        Outcome::Done(trace) => scheme_text(alloc, &trace.value.plain(alloc, steps).ok()?),
        Outcome::Over => None,
    }
}

// Prints what an example returned. False where it returned nothing, or the output failed.
fn printed<R: Print>(rt: &R, name: &str, returned: &Option<String>) -> bool {
    match returned {
        Some(text) => println!(rt; "{name}: {text}").is_ok(),
        None => false,
    }
}

// Prints all examples.
fn print_all<R: Print + AllocGlobal, L: Ledger>(rt: &R, blank: Blank) -> bool
    requires name { blank.name ≡ L.name }
    requires parts { blank.parts ≡ L.parts }
    requires whole { blank.parts ≡ 1 }
{
    let alloc = rt.alloc();
    let mut steps = Steps::<L>::new(blank);
    printed(rt, "tx_tree", &made(alloc, &mut steps))
        && printed(rt, "tx_scm", &read_scheme(alloc, &mut steps))
        && printed(rt, "tx_tm_read", &read_tm(alloc, &mut steps))
        && printed(rt, "tx_mod", &taken_out(alloc, &mut steps))
        && printed(rt, "tx_exec", &greeted(alloc, &mut steps))
}

fn main(rt: HostRuntime) -> ExitCode {
    if print_all::<HostRuntime, Brand>(&rt, Blank::new(1)) {
        ExitCode::from(0)
    } else {
        ExitCode::from(1)
    }
}
