// Samples, their subfields, and the keys of FORMAT.
ghost use Rattle.pieces.specs.Paper.{step_paper, nth_paper};
ghost use Rattle.samples.specs.Paper.{key_paper};
ghost use Rattle.exports.specs.Told.{Tells};
ghost use Rattle.exports.specs.Promises.{CountsSamples, VisitsSample, GivesSample, GivesSubfield, FindsKey};

use crate::told::{VALUES, tell, tell_place};
use pieces::step::{NoPiece, Piece};
use samples::columns::{count, sample, sample_at, subfield};
use samples::keys::key_index;
use text::range::Range;

// How many samples there are: the count itself.
#[unsafe(no_mangle)]
pub extern "C" fn bruncadorza_samples_count(samples: &[u8]) -> u64
    ensures { CountsSamples samples.now result }
{
    count(samples) as u64
}

fn tell_step(step: Result<Piece, NoPiece>, values: &mut [u64; VALUES]) -> u64
    ensures { Tells (step_paper step) values.old result values.new }
{
    match step {
        Ok(Piece::More(place, next)) => tell(0, &[place.start, place.len, next], values),
        Ok(Piece::Last(place)) => tell_place(0, place, values),
        Err(NoPiece::Nothing) => tell(10, &[], values),
        Err(NoPiece::Beyond) => tell(6, &[], values),
    }
}

// The sample at the place `at`: 0, or 10 where there is none, or 6. Three values at most: its start and length, and the next place
// where it is not the last.
#[unsafe(no_mangle)]
pub extern "C" fn bruncadorza_sample_at(
    samples: &[u8],
    at: usize,
    values: &mut [u64; VALUES],
) -> u64
    ensures { VisitsSample samples.now at values.old result values.new }
{
    tell_step(sample_at(samples, at), values)
}

fn tell_nth(nth: Option<Range>, values: &mut [u64; VALUES]) -> u64
    ensures { Tells (nth_paper nth) values.old result values.new }
{
    match nth {
        Some(place) => tell_place(0, place, values),
        None => tell(10, &[], values),
    }
}

// Sample n, counted from 0: 0, or 10. Two values at most: its start and length.
#[unsafe(no_mangle)]
pub extern "C" fn bruncadorza_sample(samples: &[u8], n: usize, values: &mut [u64; VALUES]) -> u64
    ensures { GivesSample samples.now n values.old result values.new }
{
    tell_nth(sample(samples, n), values)
}

// Subfield n of a sample's text, counted from 0: 0, or 10. Two values at most: its start and length.
#[unsafe(no_mangle)]
pub extern "C" fn bruncadorza_subfield(sample: &[u8], n: usize, values: &mut [u64; VALUES]) -> u64
    ensures { GivesSubfield sample.now n values.old result values.new }
{
    tell_nth(subfield(sample, n), values)
}

fn tell_key(key: Option<usize>, values: &mut [u64; VALUES]) -> u64
    ensures { Tells (key_paper key) values.old result values.new }
{
    match key {
        Some(i) => tell(0, &[i], values),
        None => tell(10, &[], values),
    }
}

// The first key of FORMAT that is equal: 0, or 10. One value at most: its index, from 0.
#[unsafe(no_mangle)]
pub extern "C" fn bruncadorza_key_index(
    format: &[u8],
    key: &[u8],
    values: &mut [u64; VALUES],
) -> u64
    ensures { FindsKey format.now key.now values.old result values.new }
{
    tell_key(key_index(format, key), values)
}
