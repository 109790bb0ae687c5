// Runs whose input gives a byte a call.
use crate::ends::EndsRow;
use crate::outside::{OF_A, Setup, ran};
use std::alloc::Global;
use std::marker::Brand;
use std::sync::ledger::{Blank, Ledger};
use tx_base::Steps;
use tx_samples::{Row, first_untrue};
use tx_session::Status;

// An input that gives a byte a call.
const SLOW: Setup = Setup {
    slowly: true,
    ..OF_A
};

// Lines of each form, and calls that fail.
const CUTS: &[EndsRow] = &[
    EndsRow(
        Setup {
            script: "tree\nquit\ntree\n",
            input_failing: Some(0),
            ..SLOW
        },
        0,
        Status::InputFault,
        "input\n",
        ("", "none"),
    ),
    EndsRow(
        Setup {
            script: "tree\nquit\ntree\n",
            input_failing: Some(4),
            ..SLOW
        },
        0,
        Status::InputFault,
        "input\n",
        ("", "none"),
    ),
    EndsRow(
        Setup {
            script: "tree\nquit\ntree\n",
            input_failing: Some(5),
            ..SLOW
        },
        0,
        Status::InputFault,
        "(f)\ninput\n",
        ("", "none"),
    ),
    EndsRow(
        Setup {
            script: "tree\nquit\ntree\n",
            input_failing: Some(9),
            ..SLOW
        },
        0,
        Status::InputFault,
        "(f)\ninput\n",
        ("", "none"),
    ),
    EndsRow(
        Setup {
            script: "tree\nquit\ntree\n",
            input_failing: Some(10),
            ..SLOW
        },
        0,
        Status::Ok,
        "(f)\n",
        ("", "none"),
    ),
    EndsRow(
        Setup {
            script: "foo\ntree",
            input_failing: Some(4),
            ..SLOW
        },
        0,
        Status::InputFault,
        "no unknown\ninput\n",
        ("", "none"),
    ),
    EndsRow(
        Setup {
            script: "foo\ntree",
            input_failing: Some(7),
            ..SLOW
        },
        0,
        Status::InputFault,
        "no unknown\ninput\n",
        ("", "none"),
    ),
    EndsRow(
        Setup {
            script: "foo\ntree",
            input_failing: Some(8),
            ..SLOW
        },
        0,
        Status::InputFault,
        "no unknown\ninput\n",
        ("", "none"),
    ),
    EndsRow(
        Setup {
            script: "foo\ntree",
            input_failing: Some(9),
            ..SLOW
        },
        0,
        Status::Ok,
        "no unknown\n(f)\n",
        ("", "none"),
    ),
    EndsRow(
        Setup {
            script: "",
            input_failing: Some(0),
            ..SLOW
        },
        0,
        Status::InputFault,
        "input\n",
        ("", "none"),
    ),
    EndsRow(
        Setup {
            script: "",
            input_failing: Some(1),
            ..SLOW
        },
        0,
        Status::Ok,
        "",
        ("", "none"),
    ),
    EndsRow(
        Setup {
            script: "foo\ntree\n",
            ..SLOW
        },
        0,
        Status::Ok,
        "no unknown\n(f)\n",
        ("", "none"),
    ),
    EndsRow(
        Setup {
            script: "quit\ntree\n",
            ..SLOW
        },
        0,
        Status::Ok,
        "",
        ("", "none"),
    ),
    EndsRow(
        Setup {
            script: "tree\nquit\r\nfoo\n",
            ..SLOW
        },
        0,
        Status::Ok,
        "(f)\n",
        ("", "none"),
    ),
    EndsRow(
        Setup {
            script: "\n\n\r\n\r\n",
            ..SLOW
        },
        0,
        Status::Ok,
        "",
        ("", "none"),
    ),
    EndsRow(
        Setup {
            script: "\ntree\n\n\ntree\n\n",
            ..SLOW
        },
        0,
        Status::Ok,
        "(f)\n(f)\n",
        ("", "none"),
    ),
    EndsRow(
        Setup {
            script: "tree\r\n\r\ntree\r\n",
            ..SLOW
        },
        0,
        Status::Ok,
        "(f)\n(f)\n",
        ("", "none"),
    ),
    EndsRow(
        Setup {
            script: "tree\r\r",
            ..SLOW
        },
        0,
        Status::Ok,
        "no unknown\n",
        ("", "none"),
    ),
    EndsRow(
        Setup {
            script: "\rtree\n\r\r\n",
            ..SLOW
        },
        0,
        Status::Ok,
        "no unknown\nno unknown\n",
        ("", "none"),
    ),
];

// How often an input is read that gives a byte a call, where the reply to this first line can't be written.
struct ReadsRow(&'static str, usize);

// No byte after the line has been asked for.
const READS: &[ReadsRow] = &[ReadsRow("tree\ntree\n", 5)];

impl Row for ReadsRow {
    fn holds<L: Ledger>(&self, alloc: Global, steps: &mut Steps<L>) -> Option<bool> {
        let setup = Setup {
            script: self.0,
            room: 0,
            ..SLOW
        };
        let ended = ran(alloc, &setup, "", steps).ok()?;
        Some(ended.status == Status::OutputFault && ended.reads == self.1)
    }
}

#[test]
fn a_slow_input_is_answered_alike(rt: HostRuntime) {
    let wrong = first_untrue::<Brand, _>(rt.alloc(), CUTS, Blank::new(1));
    assert_eq!(rt; wrong, None);
}

#[test]
fn a_line_is_answered_before_more_is_read(rt: HostRuntime) {
    let wrong = first_untrue::<Brand, _>(rt.alloc(), READS, Blank::new(1));
    assert_eq!(rt; wrong, None);
}
