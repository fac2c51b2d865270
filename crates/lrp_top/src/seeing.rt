// What is seen of a shelf and of a sink from one state to a later one.
use lrp_io::{Shelf, Sink};

/// A shelf over a run: each shelf is one, and a clause names all that is seen of it by one word.
pub trait Watched {
    ghost use Rattle.lrp_top.specs.Seen.{ShelfSeen};

    /// What is seen of it from a state to a later one.
    ghost seen: { Self → Self → ShelfSeen };
}

impl<F: Shelf> Watched for F {
    ghost use Rattle.lrp_top.specs.Seen.{ShelfSeen};

    ghost seen = { λ old new. record { files = F.files old; faults_before = F.faults old; faults = F.faults new; given = F.given new; may_be = F.may_be new } };
}

/// A sink over a run, as each sink is.
pub trait Filled {
    ghost use Rattle.lrp_top.specs.Seen.{SinkSeen};

    /// What it took from a state to a later one.
    ghost taken: { Self → Self → SinkSeen };
}

impl<S: Sink> Filled for S {
    ghost use Rattle.lrp_top.specs.Seen.{SinkSeen};

    ghost taken = { λ old new. record { bytes_before = S.written old; bytes = S.written new; faults_before = S.faults old; faults = S.faults new } };
}
