// The two texts of the sample.
ghost use Rattle.std.specs.Prelude.{◌≡◌, ◌≤◌, ◌<◌, ◌++◌, length, IfOk};
ghost use Rattle.std.specs.String.{string_bytes};
ghost use Rattle.lrp_sample.specs.Texts.{trip_line, sample_database, sample_query};
ghost use Rattle.lrp_model.specs.Limits.{most_bytes};

use lrp_model::{Copies, List, Memory};
use std::alloc::Global;

/// The text of a database of trips, and that of a query.
#[derive(Drop)]
pub struct Texts {
    pub database: List<u8>,
    pub query: List<u8>,
}

impl Copies for Texts {
    fn copy(&self, alloc: Global) -> Result<Self, Memory> {
        Ok(Texts {
            database: self.database.copy_bytes(alloc)?,
            query: self.query.copy_bytes(alloc)?,
        })
    }
}

// The departures after whose arrival no trip leaves within 15 minutes.
const QUERY: &str =
    "{ t: time, l: data | exists u: time (trip(t, u, l) and not exists v: time exists w: time exists k: data (trip(v, w, k) and v >= u and v <= u + 15)) }\n";

// The line of a trip, after the lines of those before it.
fn write_trip(text: &mut String, seed: u32, i: u32) -> Result<(), Memory>
    requires seed { seed ≤ 1000000 }
    requires number { i < 500 }
    ensures { IfOk result (λ _. string_bytes text.new ≡ string_bytes text.old ++ trip_line seed i) }
{
    let duration = 10 + i % 50;
    let departure = (seed + 37 * i) % 1440;
    let arrival = (departure + duration) % 1440;
    let line = i % 10;
    writeln!(
        text,
        "  ({departure}+1440n, {arrival}+1440n, \"L{line}\") where arr = dep + {duration};"
    )?;
    Ok(())
}

// The relation of the trips, one on each line.
fn database_text(alloc: Global, seed: u32, size: u32) -> Result<String, Memory>
    requires seed { seed ≤ 1000000 }
    requires size { size ≤ 500 }
    ensures { IfOk result (λ text. string_bytes text ≡ sample_database seed size) }
{
    let mut text = String::from_str(alloc, "relation trip(dep: time, arr: time, line: data) {\n")?;
    for i in 0..size {
        write_trip(&mut text, seed, i)?;
    }
    text.push_str("}\n")?;
    Ok(text)
}

/// The two texts of the sample that a seed and a size give.
///
/// # Errors
///
/// Memory was refused.
pub fn sample_texts(alloc: Global, seed: u32, size: u32) -> Result<Texts, Memory>
    requires seed { seed ≤ 1000000 }
    requires size { size ≤ 500 }
    ensures database { IfOk result (λ texts. texts.database ≡ sample_database seed size) }
    ensures query { IfOk result (λ texts. texts.query ≡ sample_query) }
    // Both are within the limit on a file's bytes.
    ensures database_short { IfOk result (λ texts. length texts.database ≤ most_bytes) }
    ensures query_short { IfOk result (λ texts. length texts.query ≤ most_bytes) }
{
    let database = database_text(alloc, seed, size)?;
    let query = String::from_str(alloc, QUERY)?;
    Ok(Texts {
        database: List::from_vec(database.into_bytes()),
        query: List::from_vec(query.into_bytes()),
    })
}
