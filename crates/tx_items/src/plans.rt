// Which parts of a value show as lists of paragraphs, found before anything is shown.
ghost use Rattle.std.specs.Prelude.{◌≡◌, not, get_or, IfOk};
ghost use Rattle.std.specs.List.{list_any};
ghost use Rattle.tx_tree.specs.WideTree.{forest, is_leaf};
ghost use Rattle.tx_origin.specs.Values.{vals, value_parts};
ghost use Rattle.tx_items.specs.Plans.{plan_of, plans_of, last_plan, joint_plan, part_plan, some_list};
ghost use Rattle.tx_items.specs.Plans.{line_plan, list_plan, table_plan};
ghost use Rattle.tx_items.specs.Flat.{shows_table};

use crate::flat::shows_table;
use crate::rows::{Row, row_of};
use std::alloc::Global;
use std::marker::Model;
use tx_base::Memory;
use tx_origin::Value;

// Which parts of a value show as lists.
#[cycle(plan)]
#[derive(Drop)]
pub(crate) struct Plan {
    form: Form,
}

#[cycle(plan)]
#[derive(Drop)]
enum Form {
    Line,
    // with the plans of the parts
    List(Vec<Plan>),
}

impl Model for Plan {
    ghost use Rattle.tx_tree.specs.WideTree.{WideTree, coded_WideTree, depth_of};

    ghost Value = { WideTree };

    ghost coded = { coded_WideTree };

    ghost use Rattle.tx_items.specs.PlanView.{plan_view};

    ghost view = { λ p. plan_view p.form };

    ghost size = { depth_of };

    ghost use Rattle.tx_items.specs.PlanFalls.{plan_falls};

    ghost size_decreases = { λ p h. plan_falls p.form };
}

impl Plan {
    // In a line.
    pub(crate) fn line() -> Plan
        ensures { result ≡ line_plan }
    {
        Plan { form: Form::Line }
    }

    // A list.
    fn list(parts: Vec<Plan>) -> Plan
        ensures { result ≡ list_plan (forest parts.items) }
    {
        Plan {
            form: Form::List(parts),
        }
    }

    // Whether the value shows as a list.
    pub(crate) fn is_list(&self) -> bool
        ensures { result ≡ not (is_leaf self.now) }
    {
        match &self.form {
            Form::Line => false,
            Form::List(_) => true,
        }
    }

    // The plan of a part: that of a value in a line is its own.
    pub(crate) fn part(&self, i: usize) -> &Plan
        ensures { result.now ≡ part_plan self.now i }
    {
        match &self.form {
            Form::Line => self,
            Form::List(parts) => item_or(parts, i, self),
        }
    }

    // The plan of a value.
    #[tactic(auto, using(crate::proofs::Planning::making, std::proofs::lemmas::Grind::common_steps))]
    #[cycle(plan_of)]
    pub(crate) fn of(alloc: Global, value: &Value) -> Result<Plan, Memory>
        ensures { IfOk result (λ p. p ≡ plan_of value.now) }
    {
        let Some(label) = value.label() else {
            return Ok(Plan::line());
        };
        match row_of(label.bytes()) {
            Row::Concat => Plan::joint(alloc, value),
            Row::Document => Ok(Plan::list(Plan::all(alloc, value)?)),
            Row::With => Plan::last(alloc, value),
            Row::Assign => Ok(Plan::line()),
            Row::Silent => Ok(Plan::line()),
            Row::NextLine => Ok(Plan::line()),
            Row::NewPage => Ok(Plan::line()),
            Row::Hspace => Ok(Plan::line()),
            Row::Vspace => Ok(Plan::line()),
            Row::Error => Ok(Plan::line()),
            Row::Tabular => Plan::table(alloc, value),
            Row::Other => Plan::joint(alloc, value),
        }
    }

    // The plan of a `tabular`: its cells are in a line each.
    fn table(alloc: Global, value: &Value) -> Result<Plan, Memory>
        ensures { IfOk result (λ p. p ≡ table_plan (shows_table value.now)) }
    {
        if shows_table(alloc, value)? {
            Ok(Plan::list(Vec::new(alloc)))
        } else {
            Ok(Plan::line())
        }
    }

    // The plans of the parts.
    #[tactic(auto, using(crate::proofs::Planning::making, std::proofs::lemmas::Grind::common_steps))]
    #[cycle(plan_of)]
    fn all(alloc: Global, value: &Value) -> Result<Vec<Plan>, Memory>
        ensures { IfOk result (λ ps. forest ps.items ≡ plans_of (vals (value_parts value.now))) }
    {
        let mut plans = Vec::new(alloc);
        for part in value.parts() {
            plans.push(Plan::of(alloc, part)?)?;
        }
        Ok(plans)
    }

    // The plan where the parts are side by side.
    #[cycle(plan_of)]
    fn joint(alloc: Global, value: &Value) -> Result<Plan, Memory>
        ensures { IfOk result (λ p. p ≡ joint_plan (plans_of (vals (value_parts value.now)))) }
    {
        let plans = Plan::all(alloc, value)?;
        if some_list(&plans) {
            Ok(Plan::list(plans))
        } else {
            Ok(Plan::line())
        }
    }

    // The plan of the last part after pairs.
    #[tactic(auto, using(crate::proofs::Planning::making, std::proofs::lemmas::Grind::common_steps))]
    #[cycle(plan_of)]
    fn last(alloc: Global, value: &Value) -> Result<Plan, Memory>
        ensures { IfOk result (λ p. p ≡ last_plan (vals (value_parts value.now))) }
    {
        let parts = value.parts();
        if parts.len() % 2 == 0 {
            return Ok(Plan::line());
        }
        Plan::of(alloc, &parts[parts.len() - 1])
    }
}

// The plan at i, or another one where there is none.
#[tactic(auto, using(crate::proofs::Planning::items, std::proofs::lemmas::Grind::common_steps))]
fn item_or<'a>(plans: &'a [Plan], i: usize, otherwise: &'a Plan) -> &'a Plan
    ensures { result.now ≡ get_or plans.now i otherwise.now }
{
    match plans.get(i) {
        Some(plan) => plan,
        None => otherwise,
    }
}

// Whether one of the plans is that of a list.
fn some_list(plans: &[Plan]) -> bool
    ensures { result ≡ some_list (forest plans.now) }
{
    any_list(plans)
}

fn any_list(plans: &[Plan]) -> bool
    ensures { result ≡ list_any (λ p. not (is_leaf p)) plans.now }
{
    plans.iter().any(|plan| plan.is_list())
}
