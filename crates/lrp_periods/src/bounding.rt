// How many cells tables can have at another period.
ghost use Rattle.std.specs.Prelude.{◌≡◌, ◌⊎◌, ◌*◌, ◌≤◌, ◌<◌, ◌+ℤ◌, ◌<ℤ◌, [], Some, IfSome, IsTrue, Contains, length, pos};
ghost use Rattle.lrp_theory.specs.Divides.{Divides};
ghost use Rattle.lrp_zone.specs.Zones.{IsZone, columns_of};
ghost use Rattle.lrp_store.specs.Stores.{IsStore};
ghost use Rattle.lrp_tables.specs.declared.table.Table.{Table as TableOf};
ghost use Rattle.lrp_periods.specs.Windows.{AreWays, IsMostOver, IsWaysLeft, IsWindowBetween};
ghost use Rattle.lrp_periods.specs.Bounding.{HaveFewCells, TableHasFewCells};
ghost use Rattle.lrp_periods.specs.Parts.{part_texts, part_times};

use lrp_store::Store;
use lrp_tables::Table;
use lrp_zone::Zone;

/// A number of cells of this period, at most the cap, than which the parts' assignments inhabit no more.
pub fn cells_at_most(parts: &[Table], period: u64, cap: u32) -> Option<u32>
    requires low { 0 < period }
    requires multiples { (part : TableOf) → Contains parts.now part
        → Divides (pos part.store.period) (pos period) }
    ensures within { IfSome result (λ count. count ≤ cap) }
    ensures few { IfSome result (λ count. HaveFewCells count period parts.now) }
    ensures capped { IfSome result (λ _. HaveFewCells cap period parts.now) }
{
    let together = cells_together(parts, period, cap);
    lesser(together, cells_of_line(parts, period, cap))
}

// The lesser of the numbers, or the one that there is.
fn lesser(count: Option<u32>, other: Option<u32>) -> Option<u32>
    ensures { IfSome result (λ least. (count ≡ Some least) ⊎ (other ≡ Some least)) }
{
    match (count, other) {
        (Some(a), Some(b)) if b < a => other,
        (Some(_), _) => count,
        (None, _) => other,
    }
}

// The sum of what each part has.
fn cells_together(parts: &[Table], period: u64, cap: u32) -> Option<u32>
    requires low { 0 < period }
    requires multiples { (part : TableOf) → Contains parts.now part
        → Divides (pos part.store.period) (pos period) }
    ensures within { IfSome result (λ count. count ≤ cap) }
    ensures few { IfSome result (λ count. HaveFewCells count period parts.now) }
{
    let mut total = 0;
    for part in parts {
        match cells_of_table(part, period, cap - total) {
            Some(more) => total += more,
            None => return None,
        }
    }
    Some(total)
}

// As many as there are residues, where the parts have one time column and no other.
fn cells_of_line(parts: &[Table], period: u64, cap: u32) -> Option<u32>
    requires low { 0 < period }
    ensures within { IfSome result (λ count. count ≤ cap) }
    ensures few { IfSome result (λ count. HaveFewCells count period parts.now) }
{
    if is_line(parts) && period <= u64::from(cap) {
        Some(period as u32)
    } else {
        None
    }
}

/// Whether the parts have one time column and no other.
pub fn is_line(parts: &[Table]) -> bool
    ensures times { IsTrue result → length (part_times parts.now) ≡ 1 }
    ensures texts { IsTrue result → part_texts parts.now ≡ [] }
{
    match parts {
        [part, ..] => part.vars.times.len() == 1 && part.vars.texts.len() == 0,
        [] => false,
    }
}

/// A number of cells of this period, at most the cap, than which the table's assignments inhabit no more.
pub fn cells_of_table(table: &Table, period: u64, cap: u32) -> Option<u32>
    requires low { 0 < period }
    requires multiple { Divides (pos table.now.store.period) (pos period) }
    ensures within { IfSome result (λ count. count ≤ cap) }
    ensures few { IfSome result (λ count. TableHasFewCells count period table.now) }
    ensures capped { IfSome result (λ _. TableHasFewCells cap period table.now) }
{
    match cells_by_cells(table, period, cap) {
        Some(count) => Some(count),
        None => cells_by_zones(table, period, cap),
    }
}

// Each cell of the period lies in one of the table's, and as many in each: one for each choice of residues of its columns.
fn cells_by_cells(table: &Table, period: u64, cap: u32) -> Option<u32>
    requires low { 0 < period }
    requires multiple { Divides (pos table.now.store.period) (pos period) }
    ensures within { IfSome result (λ count. count ≤ cap) }
    ensures few { IfSome result (λ count. TableHasFewCells count period table.now) }
{
    let shape = table.store.shape();
    let ways = ways_of(&table.store, period);
    let mut bound = table.store.len();
    for turn in 0..shape.times {
        match product_within(bound, ways, cap) {
            Some(product) => bound = product,
            None => return None,
        }
    }
    if bound <= cap { Some(bound) } else { None }
}

// Each cell of the period that a zone inhabits is one choice of residues of its columns, of which some leave little to others.
fn cells_by_zones(table: &Table, period: u64, cap: u32) -> Option<u32>
    requires low { 0 < period }
    requires multiple { Divides (pos table.now.store.period) (pos period) }
    ensures within { IfSome result (λ count. count ≤ cap) }
    ensures few { IfSome result (λ count. TableHasFewCells count period table.now) }
{
    table.store.shape();
    let ways = ways_of(&table.store, period);
    let mut total = 0;
    for (_cell, zones) in table.store.entries() {
        for zone in zones {
            match cells_of_zone(&zone, ways, cap - total) {
                Some(more) => total += more,
                None => return None,
            }
        }
    }
    Some(total)
}

// How many choices of residues the columns of a zone have, one after another, where that is at most the cap.
fn cells_of_zone(zone: &Zone, ways: u64, cap: u32) -> Option<u32>
    ensures within { IfSome result (λ count. count ≤ cap) }
    ensures ways { IfSome result (AreWays zone.now ways (columns_of zone.now)) }
    ensures valid { IsZone zone.now }
{
    let columns = zone.columns();
    let mut count = 1;
    for turn in 0..columns {
        match product_within(count, ways_left(zone, turn + 1, ways), cap) {
            Some(product) => count = product,
            None => return None,
        }
    }
    if count <= cap { Some(count) } else { None }
}

// How many residues a column has where those of zero and of the columns before it are known. The last of them is looked at
// first, and none where one residue is left.
fn ways_left(zone: &Zone, column: usize, ways: u64) -> u64
    requires { column ≤ columns_of zone.now }
    ensures { IsWaysLeft zone.now ways column result }
{
    let mut least = ways;
    for turn in 0..column {
        if least == 1 {
            return least;
        }
        least = fewer(window(zone, column, column - turn - 1), least);
    }
    least
}

// The lesser of the two numbers, where there are two.
fn fewer(count: Option<u64>, least: u64) -> u64
    ensures { (result ≡ least) ⊎ (count ≡ Some result) }
{
    match count {
        Some(count) if count < least => count,
        _ => least,
    }
}

// How many values a column has where that of another one is known, if it is bounded from both sides.
fn window(zone: &Zone, column: usize, other: usize) -> Option<u64>
    requires column { column ≤ columns_of zone.now }
    requires other { other ≤ columns_of zone.now }
    ensures { IfSome result (IsWindowBetween zone.now column other) }
{
    zone.columns();
    let above = most_over(zone, column, other)?;
    let below = most_over(zone, other, column)?;
    steps_within(width_of(above, below), zone.period() as u64)
}

// How far a column may be over another one: as far as the stored bound says, or less by those of both beside a third.
fn most_over(zone: &Zone, column: usize, other: usize) -> Option<i64>
    requires column { column ≤ columns_of zone.now }
    requires other { other ≤ columns_of zone.now }
    ensures { IfSome result (IsMostOver zone.now column other) }
{
    let columns = zone.columns();
    let mut least = zone.bound(column, other);
    for middle in 0..columns + 1 {
        least = nearer(least, through(zone, column, middle, other));
    }
    least
}

// How far a column may be over another one by the stored bounds of both beside a third. Neither of them is a third one.
fn through(zone: &Zone, column: usize, middle: usize, other: usize) -> Option<i64>
    requires column { column ≤ columns_of zone.now }
    requires middle { middle ≤ columns_of zone.now }
    requires other { other ≤ columns_of zone.now }
    ensures { IfSome result (IsMostOver zone.now column other) }
{
    if middle == column || middle == other {
        return None;
    }
    let first = zone.bound(column, middle)?;
    let second = zone.bound(middle, other)?;
    first.checked_add(second)
}

// The lesser of the bounds, or the one that there is.
fn nearer(bound: Option<i64>, other: Option<i64>) -> Option<i64>
    ensures { (result ≡ bound) ⊎ (result ≡ other) }
{
    match (bound, other) {
        (Some(a), Some(b)) if b < a => other,
        (Some(_), _) => bound,
        (None, _) => other,
    }
}

// How far two bounds leave a difference open.
fn width_of(above: i64, below: i64) -> i128
    ensures { result ≡ above +ℤ below }
{
    i128::from(above) + i128::from(below)
}

// A number of periods that is more than a width.
fn steps_within(width: i128, period: u64) -> Option<u64>
    requires { 0 < period }
    ensures { IfSome result (λ count. width <ℤ pos (count * period)) }
{
    if width < 0 {
        return None;
    }
    let steps = width.unsigned_abs() / u128::from(period);
    if steps < 1 << 62 {
        Some(steps as u64 + 1)
    } else {
        None
    }
}

// How many residues modulo the period agree with one of the store.
fn ways_of(store: &Store, period: u64) -> u64
    requires valid { IsStore store.now }
    requires low { 0 < period }
    requires multiple { Divides (pos store.now.period) (pos period) }
    ensures value { result * store.now.period ≡ period }
    ensures some { 0 < result }
{
    period / store.period() as u64
}

/// The product, where it is at most the cap.
pub fn product_within(count: u32, ways: u64, cap: u32) -> Option<u32>
    ensures { IfSome result (λ product. (product ≡ count * ways) × (product ≤ cap)) }
{
    let product = u128::from(count) * u128::from(ways);
    if product <= u128::from(cap) {
        Some(product as u32)
    } else {
        None
    }
}
