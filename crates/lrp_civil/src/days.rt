// Weekdays at the front of some bytes, and the bytes after them.
ghost use Rattle.lrp_civil.specs.CivilValues.{day_name, is_weekday};
ghost use Rattle.lrp_calendar.specs.Parts.{Finds, SpellsValue};

// The number of a weekday, from 0 for Monday.
fn weekday(name: &[u8]) -> Option<u8>
    ensures { SpellsValue is_weekday day_name name.now result }
{
    let day = match name {
        b"mon" => 0,
        b"tue" => 1,
        b"wed" => 2,
        b"thu" => 3,
        b"fri" => 4,
        b"sat" => 5,
        b"sun" => 6,
        _ => return None,
    };
    Some(day)
}

/// The name of a weekday, as its number from 0 for Monday.
pub fn weekday_at(bytes: &[u8]) -> Option<(u8, &[u8])>
    ensures { Finds is_weekday day_name bytes.now result }
{
    let (name, rest) = bytes.split_at_checked(3)?;
    Some((weekday(name)?, rest))
}
