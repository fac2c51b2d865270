// Databases as they are written out.
ghost use Rattle.lrp_io.specs.Causes.{HasCause};
ghost use Rattle.lrp_io.specs.Pieces.{IsWritten};
ghost use Rattle.lrp_model.specs.Printed.{database_bytes};
ghost use Rattle.lrp_print.specs.ReadBack.{ReadsBack};

use lrp_database::Database;
use lrp_io::{Failed, Sink};
use lrp_print::write_relations;

/// The text of a database: that of each of its relations, in order. After a failure a front of it was written.
pub fn write_database<S: Sink>(out: &mut S, database: &Database) -> Result<(), Failed>
    ensures text { IsWritten (S.written out.old) (S.written out.new)
        (database_bytes database.now) result }
    ensures cause { HasCause (S.faults out.old) (S.faults out.new) result }

    // The whole text is that of a database with the same relations: one by one they hold the same.
    ensures reads_back { ReadsBack database.now }
{
    write_relations(out, database.as_slice())
}
