// How a run ends.
ghost use Rattle.std.specs.Prelude.{◌≡◌};
ghost use Rattle.lrp_outputs.specs.Statuses.{status_number};

/// How a run ended. The program ends with the status's number.
#[derive(Clone, Copy, PartialEq, Eq)]
pub enum Status {
    /// The output was written whole.
    Done,
    /// The words are no command.
    Usage,
    /// The database is too long, or is no database.
    Database,
    /// The query is too long, is no query, or has a token that doesn't belong to it.
    Query,
    /// A limit on periods, bounds or cells.
    Limit,
    /// A file could not be read.
    Read,
    /// The output could not be written.
    Write,
    /// Memory was refused.
    Memory,
}

impl Status {
    /// The number with which the program ends.
    pub fn code(&self) -> u8
        ensures { result ≡ status_number self.now }
    {
        match self {
            Status::Done => 0,
            Status::Usage => 2,
            Status::Database => 3,
            Status::Query => 4,
            Status::Limit => 5,
            Status::Read => 6,
            Status::Write => 7,
            Status::Memory => 8,
        }
    }
}
