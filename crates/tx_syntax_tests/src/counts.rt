// Out of memory in words, and a count that is made and raised.
ghost use Rattle.std.specs.Prelude.{◌≡◌};

use std::alloc::AllocError;
use std::marker::Brand;
use std::sync::ledger::{Blank, Ledger};
use std::test::Fail;
use tx_base::{Memory, Steps};

fn wanting() -> Result<(), Memory> {
    Err(AllocError)?;
    Ok(())
}

// Three steps and four, which the clauses of the calls add up.
fn seven_steps<L: Ledger>(blank: Blank)
    requires name { blank.name ≡ L.name }
    requires parts { blank.parts ≡ L.parts }
    requires whole { blank.parts ≡ 1 }
{
    let mut steps = Steps::<L>::new(blank);
    for _ in 0..3 {
        steps.tick();
    }
    steps.add(4);
}

#[test]
fn memory_has_its_words(rt: HostRuntime) -> Result<(), Fail> {
    seven_steps::<Brand>(Blank::new(1));
    assert_eq!(rt; wanting(), Err(Memory));
    let words = format!(in rt.alloc(); "{Memory}")?;
    assert_eq!(rt; words.as_str(), "out of memory");
    Ok(())
}
