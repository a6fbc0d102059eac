// Samples are the pieces of their text between tabs; a sample's subfields are its pieces between colons.
ghost use Rattle.samples.specs.Promises.{CountsSamples, VisitsSample, GivesSample, GivesSubfield};

use pieces::count::count_pieces;
use pieces::nth::piece_nth;
use pieces::step::{NoPiece, Piece, piece_at};
use text::range::Range;
use words::word::find_byte;

// How many samples there are.
#[tactic(auto, unfolding(crate::specs::Samples::samples_of))]
pub fn count(samples: &[u8]) -> usize
    ensures { CountsSamples samples.now result }
{
    count_pieces(samples, b'\t')
}

// The sample that starts at the place `at`. From place 0 on, the steps visit every sample once, in one pass.
// Kept beside `piece_at`, which misses the speed bar (docs/SPEED.md): most samples end in the first words of eight bytes.
pub fn sample_at(samples: &[u8], at: usize) -> Result<Piece, NoPiece>
    ensures { VisitsSample samples.now at result }
{
    if at > samples.len() {
        return Err(NoPiece::Beyond);
    }
    if samples.is_empty() {
        return Err(NoPiece::Nothing);
    }
    let end = find_byte(samples, b'\t', at);
    let range = Range {
        start: at,
        len: end - at,
    };
    if end == samples.len() {
        Ok(Piece::Last(range))
    } else {
        Ok(Piece::More(range, end + 1))
    }
}

// Sample n, counted from 0.
#[tactic(auto, unfolding(crate::specs::Samples::sample_answer))]
pub fn sample(samples: &[u8], n: usize) -> Option<Range>
    ensures { GivesSample samples.now n result }
{
    piece_nth(samples, b'\t', n)
}

// The first subfield of a sample.
// Kept by itself: by `piece_nth` it misses the speed bar (docs/SPEED.md).
fn first_subfield(sample: &[u8]) -> Option<Range>
    ensures { GivesSubfield sample.now 0 result }
{
    match piece_at(sample, b':', 0) {
        Ok(Piece::More(range, _) | Piece::Last(range)) => Some(range),
        Err(_) => None,
    }
}

// Subfield n of a sample, counted from 0. Trailing ones may be absent.
#[tactic(auto, unfolding(crate::specs::Samples::subfield_answer))]
pub fn subfield(sample: &[u8], n: usize) -> Option<Range>
    ensures { GivesSubfield sample.now n result }
{
    if n == 0 {
        return first_subfield(sample);
    }
    piece_nth(sample, b':', n)
}
