// Two data columns of one text.
ghost use Rattle.std.specs.Prelude.{◌<◌};

use lrp_model::{Copies, Memory};
use std::alloc::Global;

/// Two data columns, counted from 0.
#[derive(Clone, Copy)]
pub struct TextPair {
    pub left: usize,
    pub right: usize,
    ghost left_low: { left < 8 },
    ghost right_low: { right < 8 },
}

impl Copies for TextPair {
    fn copy(&self, _alloc: Global) -> Result<Self, Memory> {
        Ok(*self)
    }
}
