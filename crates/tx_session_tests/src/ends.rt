// Runs of which one call of the store, the input or the output fails.
use crate::outside::{Ended, OF_A, Setup, ran};
use std::alloc::Global;
use std::marker::Brand;
use std::sync::ledger::{Blank, Ledger};
use tx_base::Steps;
use tx_samples::{Row, first_untrue};
use tx_session::Status;

// A run, how many calls of its input after the one that fails fail alike, the status, what is written, and a file with
// what it then holds.
pub(crate) struct EndsRow(
    pub(crate) Setup,
    pub(crate) u64,
    pub(crate) Status,
    pub(crate) &'static str,
    pub(crate) (&'static str, &'static str),
);

// Calls of each device, and too little room for the output.
const FAULTS: &[EndsRow] = &[
    EndsRow(
        Setup {
            script: "tree",
            store_failing: Some(0),
            ..OF_A
        },
        0,
        Status::StoreFault,
        "store a.scm\n",
        ("", "none"),
    ),
    EndsRow(
        Setup {
            script: "tree",
            store_failing: Some(1),
            ..OF_A
        },
        0,
        Status::Ok,
        "(f)\n",
        ("", "none"),
    ),
    EndsRow(
        Setup {
            script: "tree",
            store_failing: Some(0),
            input_failing: Some(0),
            ..OF_A
        },
        0,
        Status::StoreFault,
        "store a.scm\n",
        ("", "none"),
    ),
    EndsRow(
        Setup {
            script: "tree",
            store_failing: Some(0),
            sink_failing: Some(0),
            ..OF_A
        },
        0,
        Status::OutputFault,
        "",
        ("", "none"),
    ),
    EndsRow(
        Setup {
            script: "tree",
            store_failing: Some(0),
            room: 5,
            ..OF_A
        },
        0,
        Status::OutputFault,
        "store",
        ("", "none"),
    ),
    EndsRow(
        Setup {
            script: "tree",
            input_failing: Some(0),
            ..OF_A
        },
        0,
        Status::InputFault,
        "input\n",
        ("", "none"),
    ),
    EndsRow(
        Setup {
            script: "tree",
            input_failing: Some(1),
            ..OF_A
        },
        0,
        Status::InputFault,
        "input\n",
        ("", "none"),
    ),
    EndsRow(
        Setup {
            script: "tree\n",
            input_failing: Some(1),
            ..OF_A
        },
        0,
        Status::InputFault,
        "(f)\ninput\n",
        ("", "none"),
    ),
    EndsRow(
        Setup {
            script: "quit\n",
            input_failing: Some(1),
            ..OF_A
        },
        0,
        Status::Ok,
        "",
        ("", "none"),
    ),
    EndsRow(
        Setup {
            script: "tree",
            input_failing: Some(0),
            sink_failing: Some(0),
            ..OF_A
        },
        0,
        Status::OutputFault,
        "",
        ("", "none"),
    ),
    EndsRow(
        Setup {
            script: "tree\n",
            input_failing: Some(1),
            room: 7,
            ..OF_A
        },
        0,
        Status::OutputFault,
        "(f)\ninp",
        ("", "none"),
    ),
    EndsRow(
        Setup {
            script: "tree",
            room: 0,
            ..OF_A
        },
        0,
        Status::OutputFault,
        "",
        ("", "none"),
    ),
    EndsRow(
        Setup {
            script: "tree",
            room: 3,
            ..OF_A
        },
        0,
        Status::OutputFault,
        "(f)",
        ("", "none"),
    ),
    EndsRow(
        Setup {
            script: "tree\nfoo\n",
            room: 10,
            ..OF_A
        },
        0,
        Status::OutputFault,
        "(f)\nno unk",
        ("", "none"),
    ),
    EndsRow(
        Setup {
            script: "\nquit\ntree",
            sink_failing: Some(0),
            room: 0,
            ..OF_A
        },
        0,
        Status::Ok,
        "",
        ("", "none"),
    ),
];

// Saves that fail.
const UNSAVED: &[EndsRow] = &[
    EndsRow(
        Setup {
            script: "save o.scm\ntree",
            store_failing: Some(1),
            ..OF_A
        },
        0,
        Status::Ok,
        "no store\n(f)\n",
        ("o.scm", "none"),
    ),
    EndsRow(
        Setup {
            script: "save o.scm\nsave o.scm",
            store_failing: Some(1),
            ..OF_A
        },
        0,
        Status::Ok,
        "no store\nsaved 4\n",
        ("o.scm", "(f)\n"),
    ),
    EndsRow(
        Setup {
            script: "save o.scm\nassign / (g)\nsave o.scm\ntree",
            store_failing: Some(2),
            ..OF_A
        },
        0,
        Status::Ok,
        "saved 4\nok\nno store\n(g)\n",
        ("o.scm", "(f)\n"),
    ),
    EndsRow(
        Setup {
            script: "save o.tm\nsave p.scm",
            store_failing: Some(1),
            ..OF_A
        },
        0,
        Status::Ok,
        "no form\nno store\n",
        ("o.scm", "none"),
    ),
];

// A document, a style, and a file that is none.
const OF_STYLES: Setup = Setup {
    files: &[
        (
            "d.scm",
            "(document (style \"s\") (body (document (hi \"x\"))))",
        ),
        (
            "s.scm",
            "(document (assign \"hi\" (macro \"x\" (concat \"Hi \" (arg \"x\")))))",
        ),
        ("bad.scm", "(document"),
    ],
    ..OF_A
};

// Loads that fail.
const UNOPENED: &[EndsRow] = &[
    EndsRow(
        Setup {
            words: "tmx|d.scm|s.scm",
            script: "tree",
            store_failing: Some(0),
            ..OF_STYLES
        },
        0,
        Status::StoreFault,
        "store d.scm\n",
        ("", "none"),
    ),
    EndsRow(
        Setup {
            words: "tmx|d.scm|s.scm|bad.scm",
            script: "tree",
            store_failing: Some(1),
            ..OF_STYLES
        },
        0,
        Status::StoreFault,
        "store s.scm\n",
        ("", "none"),
    ),
    EndsRow(
        Setup {
            words: "tmx|d.scm|s.scm",
            script: "page 1\nsave d2.scm\nsave d2.scm",
            store_failing: Some(2),
            ..OF_STYLES
        },
        0,
        Status::Ok,
        "page 1\nHi x\nno store\nsaved 50\n",
        ("", "none"),
    ),
    EndsRow(
        Setup {
            words: "tmx|gen:1:3",
            script: "tree",
            store_failing: Some(0),
            input_failing: Some(0),
            ..OF_STYLES
        },
        0,
        Status::Ok,
        "no page 1\nno cell 4 80\nerrors 0\nok\nno page 1\nok\nno page 1\npage 1\n\ntree line page tree path style macro\nline cell value macro style path\npath style macro value cell line\n/0/0/0\n",
        ("", "none"),
    ),
    EndsRow(
        Setup {
            words: "tmx|gen:1:0",
            script: "tree",
            store_failing: Some(0),
            input_failing: Some(0),
            ..OF_STYLES
        },
        0,
        Status::Words,
        "usage: tmx [--width N] [--height N] FILE [STYLE]...\n",
        ("", "none"),
    ),
    EndsRow(
        Setup {
            words: "tmx|gen:x:3",
            script: "tree",
            store_failing: Some(0),
            input_failing: Some(0),
            ..OF_STYLES
        },
        0,
        Status::Words,
        "usage: tmx [--width N] [--height N] FILE [STYLE]...\n",
        ("", "none"),
    ),
    EndsRow(
        Setup {
            words: "tmx|gen:1:3|s.scm",
            script: "tree",
            store_failing: Some(0),
            input_failing: Some(0),
            ..OF_STYLES
        },
        0,
        Status::Words,
        "usage: tmx [--width N] [--height N] FILE [STYLE]...\n",
        ("", "none"),
    ),
    EndsRow(
        Setup {
            words: "tmx|a.scm|d/a.tm",
            files: &[("a.scm", "(f)"), ("d/a.tm", "x")],
            script: "tree",
            store_failing: Some(0),
            ..OF_A
        },
        0,
        Status::Words,
        "usage: tmx [--width N] [--height N] FILE [STYLE]...\n",
        ("", "none"),
    ),
    EndsRow(
        Setup {
            words: "tmx|a.scm|b.tm|c.tm",
            files: &[("a.scm", "(f)"), ("b.tm", "x")],
            script: "tree",
            store_failing: Some(1),
            ..OF_A
        },
        0,
        Status::StoreFault,
        "store b.tm\n",
        ("", "none"),
    ),
    EndsRow(
        Setup {
            words: "tmx|a.scm|b.scm",
            files: &[("b.scm", "(f")],
            script: "tree",
            store_failing: Some(1),
            ..OF_A
        },
        0,
        Status::Missing,
        "missing a.scm\n",
        ("", "none"),
    ),
    EndsRow(
        Setup {
            words: "tmx|a.scm|b.scm",
            files: &[("b.scm", "(f")],
            script: "tree",
            store_failing: Some(0),
            ..OF_A
        },
        0,
        Status::StoreFault,
        "store a.scm\n",
        ("", "none"),
    ),
    EndsRow(
        Setup {
            words: "tmx|a.scm|b.tm",
            files: &[("a.scm", "(f)"), ("b.tm", "x")],
            script: "tree",
            store_failing: Some(2),
            ..OF_A
        },
        0,
        Status::Ok,
        "(f)\n",
        ("", "none"),
    ),
];

// Two trees and a save between them, the last line without its end.
const OF_D: Setup = Setup {
    files: &[("d.scm", "(document \"a\")")],
    words: "tmx|d.scm",
    script: "tree\nsave o.scm\ntree",
    ..OF_A
};

// Each call of each device in turn, up to the first one that the run doesn't make.
const CALLS: &[EndsRow] = &[
    EndsRow(
        Setup {
            store_failing: Some(0),
            ..OF_D
        },
        0,
        Status::StoreFault,
        "store d.scm\n",
        ("o.scm", "none"),
    ),
    EndsRow(
        Setup {
            store_failing: Some(1),
            ..OF_D
        },
        0,
        Status::Ok,
        "(document \"a\")\nno store\n(document \"a\")\n",
        ("", "none"),
    ),
    EndsRow(
        Setup {
            store_failing: Some(2),
            ..OF_D
        },
        0,
        Status::Ok,
        "(document \"a\")\nsaved 15\n(document \"a\")\n",
        ("o.scm", "(document \"a\")\n"),
    ),
    EndsRow(
        Setup {
            input_failing: Some(0),
            ..OF_D
        },
        0,
        Status::InputFault,
        "input\n",
        ("o.scm", "none"),
    ),
    EndsRow(
        Setup {
            input_failing: Some(1),
            ..OF_D
        },
        0,
        Status::InputFault,
        "(document \"a\")\nsaved 15\ninput\n",
        ("o.scm", "(document \"a\")\n"),
    ),
    EndsRow(
        Setup {
            input_failing: Some(2),
            ..OF_D
        },
        0,
        Status::Ok,
        "(document \"a\")\nsaved 15\n(document \"a\")\n",
        ("o.scm", "(document \"a\")\n"),
    ),
    EndsRow(
        Setup {
            input_failing: Some(0),
            slowly: true,
            ..OF_D
        },
        4,
        Status::InputFault,
        "input\n",
        ("o.scm", "none"),
    ),
    EndsRow(
        Setup {
            input_failing: Some(5),
            slowly: true,
            ..OF_D
        },
        10,
        Status::InputFault,
        "(document \"a\")\ninput\n",
        ("o.scm", "none"),
    ),
    EndsRow(
        Setup {
            input_failing: Some(16),
            slowly: true,
            ..OF_D
        },
        4,
        Status::InputFault,
        "(document \"a\")\nsaved 15\ninput\n",
        ("o.scm", "(document \"a\")\n"),
    ),
    EndsRow(
        Setup {
            input_failing: Some(21),
            slowly: true,
            ..OF_D
        },
        0,
        Status::Ok,
        "(document \"a\")\nsaved 15\n(document \"a\")\n",
        ("o.scm", "(document \"a\")\n"),
    ),
];

impl EndsRow {
    fn is_end(&self, ended: &Ended) -> bool {
        ended.status == self.2
            && ended.written.as_slice() == self.3.as_bytes()
            && ended.file.as_slice() == self.4.1.as_bytes()
    }

    // Whether the run ends as the row says where the input fails so many calls later.
    fn ends<L: Ledger>(&self, alloc: Global, later: u64, steps: &mut Steps<L>) -> Option<bool> {
        let input_failing = match self.0.input_failing {
            Some(call) => Some(call.saturating_add(later)),
            None => None,
        };
        let setup = Setup {
            input_failing,
            ..self.0
        };
        let ended = ran(alloc, &setup, self.4.0, steps).ok()?;
        Some(self.is_end(&ended))
    }
}

impl Row for EndsRow {
    fn holds<L: Ledger>(&self, alloc: Global, steps: &mut Steps<L>) -> Option<bool> {
        for later in 0..self.1.saturating_add(1) {
            if !self.ends(alloc, later, steps)? {
                return Some(false);
            }
        }
        Some(true)
    }
}

#[test]
fn devices_fail_at_calls(rt: HostRuntime) {
    for (name, rows) in [
        ("a device", FAULTS),
        ("a save", UNSAVED),
        ("a load", UNOPENED),
        ("each call", CALLS),
    ] {
        let wrong = first_untrue::<Brand, _>(rt.alloc(), rows, Blank::new(1));
        assert_eq!(rt; wrong, None, "{name}");
    }
}
