// What the steps of a plan share.
use lrp_model::Domain;
use std::alloc::Global;

/// Where memory comes from, the constants, and how many cells a step may have.
#[derive(Drop)]
pub struct Setting<'a> {
    pub alloc: Global,
    pub domain: &'a Domain,
    pub cap: u32,
}
