// Each call of the output fails in turn, up to the first one that a run doesn't make: what is written is a front of what
// is written where nothing fails.
use crate::outside::{Ended, OF_A, Setup, ran};
use std::alloc::Global;
use std::marker::Brand;
use std::sync::ledger::{Blank, Ledger};
use tx_base::Steps;
use tx_samples::{Row, first_untrue};
use tx_session::Status;

// A run, the status and what is written where no call of the output fails, and how many calls there are at least.
struct FrontsRow(Setup, Status, &'static str, u64);

const FRONTS: &[FrontsRow] = &[
    FrontsRow(
        Setup {
            files: &[("d.scm", "(document \"a\")")],
            words: "tmx|d.scm",
            script: "tree\nsave o.scm\ntree",
            ..OF_A
        },
        Status::Ok,
        "(document \"a\")\nsaved 15\n(document \"a\")\n",
        3,
    ),
    FrontsRow(
        Setup {
            words: "tmx|no.scm",
            ..OF_A
        },
        Status::Missing,
        "missing no.scm\n",
        1,
    ),
    FrontsRow(
        Setup {
            script: "tree\nshow\nfoo\n",
            input_failing: Some(1),
            ..OF_A
        },
        Status::InputFault,
        "(f)\npages 1 rows 1\npage 1\n<f>\nno unknown\ninput\n",
        4,
    ),
];

// How a run ends whose output fails at a call.
#[derive(Clone, Copy)]
enum End {
    // as one whose output doesn't fail
    Whole,
    // with a fault of the output, and a front is written
    Cut,
    Wrong,
}

impl FrontsRow {
    fn end_of(&self, ended: &Ended) -> End {
        let written = ended.written.as_slice();
        let wanted = self.2.as_bytes();
        if ended.status == self.1 && written == wanted {
            return End::Whole;
        }
        if ended.status == Status::OutputFault && wanted.starts_with(written) && written != wanted {
            return End::Cut;
        }
        End::Wrong
    }

    // How the run ends where this call of the output fails.
    fn end_at<L: Ledger>(&self, alloc: Global, call: u64, steps: &mut Steps<L>) -> Option<End> {
        let setup = Setup {
            sink_failing: Some(call),
            ..self.0
        };
        let ended = ran(alloc, &setup, "", steps).ok()?;
        Some(self.end_of(&ended))
    }
}

impl Row for FrontsRow {
    fn holds<L: Ledger>(&self, alloc: Global, steps: &mut Steps<L>) -> Option<bool> {
        for call in 0..100u64 {
            match self.end_at(alloc, call, steps)? {
                End::Cut => {}
                End::Whole => return Some(call >= self.3),
                End::Wrong => return Some(false),
            }
        }
        Some(false)
    }
}

#[test]
fn an_output_fails_at_each_call(rt: HostRuntime) {
    let wrong = first_untrue::<Brand, _>(rt.alloc(), FRONTS, Blank::new(1));
    assert_eq!(rt; wrong, None);
}
