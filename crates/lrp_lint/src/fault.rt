// Why nothing is told of a database.

use lrp_model::Memory;

/// Why nothing is told: memory was refused.
#[derive(Clone, Copy)]
pub enum LintFault {
    Memory,
}

impl From<Memory> for LintFault {
    ghost use Rattle.std.specs.Prelude.{◌≡◌};
    ghost use Rattle.lrp_lint.specs.declared.fault.LintFault.TheVariants.{Memory as MemoryFault};

    ghost from_gives = { λ _ fault. fault ≡ MemoryFault };

    fn from(_: Memory) -> LintFault {
        LintFault::Memory
    }
}
