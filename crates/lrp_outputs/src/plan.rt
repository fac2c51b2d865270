// The plan of a question as it is written.
ghost use Rattle.std.specs.List.{AllByRecursion};
ghost use Rattle.lrp_print.specs.Writable.{StepHasPeriods};
ghost use Rattle.lrp_outputs.specs.Carried.{steps_prop};

use lrp_io::{Failed, Sink, Text};
use lrp_model::{Plan, Query};
use lrp_print::write_plan;

/// A plan whose text can be written: the points of its `in` tests have periods.
///
/// The query that it is of is let go with it, after the text: that of a file of 16 MB takes most of a second.
#[derive(Drop)]
pub struct WritablePlan {
    pub plan: Plan,
    pub query: Query,
    ghost writable: { AllByRecursion StepHasPeriods plan.steps } by { steps_prop plan.steps },
}

impl Text for WritablePlan {
    ghost use Rattle.lrp_model.specs.PrintedPlans.{plan_bytes};

    ghost text = { λ s. plan_bytes s.plan };

    fn write_to<S: Sink>(&self, out: &mut S) -> Result<(), Failed> {
        write_plan(out, &self.plan)
    }
}
