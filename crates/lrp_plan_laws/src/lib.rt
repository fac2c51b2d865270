//! Laws of plans: what every plan's steps are, and what a well-sorted query gives them. Each law is the contract of a function that does nothing.
#![tactic(auto)]

mod laws;

pub use laws::{
    core_form_is_sound, drops_are_guarded, periods_are_least, plan_is_sound, plan_rises,
    settled_queries_have_sound_plans, sorted_queries_are_settled, steps_are_made, steps_are_narrow,
};
