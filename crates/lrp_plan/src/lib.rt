//! The plan of a query: the steps by which it is answered, with their periods and reaches.
#![tactic(auto)]

pub mod domains;
pub mod drafts;
mod elements;
mod laws;
pub mod leaves;
mod naming;
mod planner;
pub mod planning;
pub mod sorts;
pub mod sources;
mod splits;
pub mod taking;
mod waiting;
mod wholes;

pub use laws::kept_queries_have_periods;
pub use lrp_model::{Plan, Step, StepKind};
pub use lrp_plan_laws::{
    core_form_is_sound, drops_are_guarded, periods_are_least, plan_is_sound, plan_rises,
    settled_queries_have_sound_plans, sorted_queries_are_settled, steps_are_made, steps_are_narrow,
};
pub use lrp_print::write_plan;
pub use planning::{PlanFault, plan};
