// The calls of one object in memory: which of them fail, and how many were made and failed.
ghost use Rattle.std.specs.Prelude.{◌≡◌, ◌↔◌, IsTrue};
ghost use Rattle.tx_outside.specs.Counts.{NeverFalls, Rose, raised};
ghost use Rattle.tx_outside.specs.InMemory.{NextFails, no_calls, one_more};

use std::marker::Model;

/// The numbers of the calls that fail, the number of the next call, and how many calls failed.
#[derive(Drop)]
pub struct Calls {
    failing: Vec<u64>,
    next: u64,
    faults: u64,
}

impl Model for Calls {
    ghost use Rattle.tx_outside.specs.InMemory.{CallsMade};

    ghost Value = { CallsMade };

    ghost view = { λ c. record { failing = c.failing.items; next = c.next; faults = c.faults } };
}

impl Calls {
    pub fn new(failing: Vec<u64>) -> Calls
        ensures { result ≡ no_calls failing.items }
    {
        Calls {
            failing,
            next: 0,
            faults: 0,
        }
    }

    /// Takes the number of a call, and returns whether that call is to fail.
    pub fn take_number(&mut self) -> bool
        ensures listed { IsTrue result ↔ NextFails self.old }
        ensures numbered { self.new ≡ one_more self.old }
    {
        let listed = self.failing.contains(&self.next);
        self.next = self.next.saturating_add(1);
        listed
    }

    /// Counts a call that failed.
    pub fn count_fault(&mut self)
        ensures counted { self.new ≡ record self.old { faults = raised self.old.faults } }
        ensures rises { Rose self.old.faults self.new.faults }
        ensures never_falls { NeverFalls self.old.faults self.new.faults }
    {
        self.faults = self.faults.saturating_add(1);
    }
}
