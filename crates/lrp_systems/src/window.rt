// Windows of numbers modulo a step.

/// The numbers that are `start`, or up to `width` more, modulo `step`.
#[derive(Clone, Copy)]
pub struct ResidueWindow {
    pub start: u64,
    pub width: u64,
    pub step: u64,
}
