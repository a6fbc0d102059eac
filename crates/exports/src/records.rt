// The two forms of a line's record.
ghost use Rattle.std.specs.Prelude.{Ok};
ghost use Rattle.forms.specs.Paper.{widened_paper, narrowed_paper};
ghost use Rattle.exports.specs.Told.{Tells};
ghost use Rattle.exports.specs.Promises.{WidensRecord, NarrowsWide};

use crate::told::{LINE_VALUES, tell};
use forms::turn::{NotMade, narrow, widen};
use forms::wide::Wide;
use record::ending::Ending;
use record::place::Record;

// The ending and the ten places of an old form.
fn tell_wide(wide: Wide, values: &mut [u64; LINE_VALUES]) -> u64
    ensures { Tells (widened_paper (Ok wide)) values.old result values.new }
{
    let ending = wide.ending().size();
    let p = wide.places();
    let vs = [
        ending, p[0], p[1], p[2], p[3], p[4], p[5], p[6], p[7], p[8], p[9], p[10], p[11], p[12],
        p[13], p[14], p[15], p[16], p[17], p[18], p[19],
    ];
    tell(0, &vs, values)
}

// The ending and the eleven numbers of a record.
fn tell_record(line: Record, values: &mut [u64; LINE_VALUES]) -> u64
    ensures { Tells (narrowed_paper (Ok line)) values.old result values.new }
{
    let ending = line.ending().size();
    let n = line.numbers();
    let vs = [
        ending, n[0], n[1], n[2], n[3], n[4], n[5], n[6], n[7], n[8], n[9], n[10],
    ];
    tell(0, &vs, values)
}

fn tell_widened(widened: Result<Wide, NotMade>, values: &mut [u64; LINE_VALUES]) -> u64
    ensures { Tells (widened_paper widened) values.old result values.new }
{
    match widened {
        Ok(wide) => tell_wide(wide, values),
        Err(_) => tell(32, &[], values),
    }
}

fn tell_narrowed(narrowed: Result<Record, NotMade>, values: &mut [u64; LINE_VALUES]) -> u64
    ensures { Tells (narrowed_paper narrowed) values.old result values.new }
{
    match narrowed {
        Ok(line) => tell_record(line, values),
        Err(_) => tell(32, &[], values),
    }
}

// The old form of the record with the ending of this number, 0, 1 or 2, and these numbers: where the line starts, where each of its
// first nine fields ends, and where its text ends. 0, or 32 where the line reader can make it on no input. 21 values at most: the
// ending, and the start and the length of each of the ten fields.
#[unsafe(no_mangle)]
pub extern "C" fn bruncadorza_widen(
    ending: u64,
    numbers: &[usize; 11],
    values: &mut [u64; LINE_VALUES],
) -> u64
    ensures { WidensRecord ending numbers.now values.old result values.new }
{
    if ending > 2 {
        return tell(32, &[], values);
    }
    let line = Record::new(Ending::by_size(ending as usize), *numbers);
    tell_widened(widen(line), values)
}

// The record of the old form with the ending of this number, 0, 1 or 2, and these starts and lengths of ten fields. 0, or 32 where
// the line reader can make it on no input. 12 values at most: the ending, and the eleven numbers that `bruncadorza_widen` takes.
#[unsafe(no_mangle)]
pub extern "C" fn bruncadorza_narrow(
    ending: u64,
    places: &[usize; 20],
    values: &mut [u64; LINE_VALUES],
) -> u64
    ensures { NarrowsWide ending places.now values.old result values.new }
{
    if ending > 2 {
        return tell(32, &[], values);
    }
    let wide = Wide::new(Ending::by_size(ending as usize), *places);
    tell_narrowed(narrow(wide), values)
}
