// The INFO column. The column lent is the field's text: a `.` comes as the empty text.
ghost use Rattle.std.specs.Prelude.{Ok};
ghost use Rattle.info.specs.Paper.{step_paper};
ghost use Rattle.exports.specs.Told.{Tells};
ghost use Rattle.exports.specs.Promises.{TakesInfoStep, FindsInfo, PlacesInfoValue, CountsInfo};

use crate::told::{VALUES, tell, tell_place};
use info::count::count;
use info::find::{find, value_place};
use info::step::{Entry, NoEntry, step_at};

// The next place, the key's place, and the value's where it has one.
fn tell_entry(entry: Entry, next: usize, values: &mut [u64; VALUES]) -> u64
    ensures { Tells (step_paper (Ok (entry, next))) values.old result values.new }
{
    let key = entry.key;
    match entry.value {
        None => tell(0, &[next, key.start, key.len], values),
        Some(value) => tell(
            0,
            &[next, key.start, key.len, value.start, value.len],
            values,
        ),
    }
}

fn tell_step(step: Result<(Entry, usize), NoEntry>, values: &mut [u64; VALUES]) -> u64
    ensures { Tells (step_paper step) values.old result values.new }
{
    match step {
        Ok((entry, next)) => tell_entry(entry, next, values),
        Err(NoEntry::Beyond(next)) => tell(6, &[next], values),
        Err(NoEntry::AfterKey(next)) => tell(7, &[next], values),
        Err(NoEntry::NoKey(next)) => tell(8, &[next], values),
        Err(NoEntry::AfterValue(next)) => tell(9, &[next], values),
        Err(NoEntry::Nothing(next)) => tell(10, &[next], values),
    }
}

// The entry at the place `at`: 0, or 6 to 10. Five values at most: the next place, and of an entry the key's start and length, and
// the value's start and length where it has one.
#[unsafe(no_mangle)]
pub extern "C" fn bruncadorza_info_step(column: &[u8], at: usize, values: &mut [u64; VALUES]) -> u64
    ensures { TakesInfoStep column.now at values.old result values.new }
{
    tell_step(step_at(column, at), values)
}

// The first entry whose key is equal, or the first refusal before it, or 10 with the column's length. Five values at most, as of a
// step.
#[unsafe(no_mangle)]
pub extern "C" fn bruncadorza_info_find(
    column: &[u8],
    key: &[u8],
    values: &mut [u64; VALUES],
) -> u64
    ensures { FindsInfo column.now key.now values.old result values.new }
{
    tell_step(find(column, key), values)
}

// The place in the column of the value of the first entry whose key is equal: 0, with two values, its start and length. Where
// there is no value to show, the empty place at the column's end: `bruncadorza_info_find` tells an absent value, an empty one and a
// refusal apart.
#[unsafe(no_mangle)]
pub extern "C" fn bruncadorza_info_value(
    column: &[u8],
    key: &[u8],
    values: &mut [u64; VALUES],
) -> u64
    ensures { PlacesInfoValue column.now key.now values.old result values.new }
{
    tell_place(0, value_place(column, key), values)
}

// How many entries the column claims: the count itself.
#[unsafe(no_mangle)]
pub extern "C" fn bruncadorza_info_count(column: &[u8]) -> u64
    ensures { CountsInfo column.now result }
{
    count(column) as u64
}
