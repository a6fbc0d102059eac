// One turn over a window of the input: at most one line is read, or passed over.
ghost use Rattle.std.specs.Prelude.{◌≡◌, ◌||◌, ◌≤◌, length, drop, []};
ghost use Rattle.text.specs.Pick.{pick};
ghost use Rattle.text.specs.Answer.{says};
ghost use Rattle.line.specs.Line.{line_of, read_answer};
ghost use Rattle.listing.specs.Listing.{columns_of, infos_in, counts_of};
ghost use Rattle.listing.specs.Turn.{pass_move, lead_move, line_move, read_move, gives};
ghost use Rattle.listing.specs.Paper.{refusal_number, row_paper, turn_paper};
ghost use Rattle.listing.specs.Inner.{Reaches, Known, ReadAt, TakesTurn};
ghost use Rattle.listing.specs.declared.turn.Phase.TheVariants.{Lines, Rest};

use fields::field::field;
use info::count::count as count_infos;
use line::extent::line_at;
use line::read::{Refusal as Unread, read_line};
use record::ending::Ending;
use record::place::{Name, Record};
use samples::columns::count as count_samples;

const LONGEST: usize = 65536;

// Where the input stands at a place.
#[derive(Clone, Copy)]
pub enum Phase {
    // At the start of a line; only lines that begin with `#` came before.
    Lead,
    // In such a line.
    Comment,
    // At a place to read from.
    Lines,
    // In a line that is refused as too long.
    Rest,
}

// Why a line is refused.
#[derive(Clone, Copy, Debug, PartialEq, Eq)]
pub enum Refusal {
    // 2
    Empty,
    // 3
    Fed,
    // 4
    Cut,
    // 5
    NotUtf8,
    // 22
    Long,
}

impl Refusal {
    #[tactic(auto, unfolding(crate::specs::Paper::refusal_number))]
    pub(crate) fn number(self) -> u64
        ensures { result ≡ refusal_number self }
    {
        match self {
            Refusal::Empty => 2,
            Refusal::Fed => 3,
            Refusal::Cut => 4,
            Refusal::NotUtf8 => 5,
            Refusal::Long => 22,
        }
    }
}

// What is printed of a line that was read: how many columns it has, its INFO count, and how many samples.
#[derive(Clone, Copy)]
pub struct ReadRow {
    pub columns: usize,
    pub infos: usize,
    pub samples: usize,
}

// What a turn does. Where it goes on, the next phase and place are given.
#[derive(Clone, Copy)]
pub enum Turn {
    // 6: the place lies beyond the window.
    Beyond,
    // The window ends too soon: the same turn is to be taken again with more of the input.
    More,
    // 1: the place is the end of the input.
    End,
    // Nothing to print.
    On(Phase, usize),
    // A row to print.
    Found(Result<ReadRow, Refusal>, Phase, usize),
}

// How far the line at a place reaches in the window: past its LF, or to the window's end.
#[derive(Clone, Copy)]
pub(crate) struct Reach {
    pub(crate) end: usize,
    pub(crate) fed: bool,
}

impl Reach {
    // Looks for the end of the line at a place.
    fn of(w: &[u8], at: usize) -> Reach
        requires { at ≤ length w.now }
        ensures { Reaches w.now at result }
    {
        let line = line_at(w, at).unwrap();
        Reach {
            end: line.next,
            fed: !matches!(line.ending, Ending::Nothing),
        }
    }

    // How far the line at a place further on reaches: its LF is looked for only where this one's end is passed.
    pub(crate) fn moved(self, w: &[u8], at: usize) -> Reach
        requires at_in_bounds { at ≤ length w.now }
        requires known { Known w.now at self }
        ensures { Reaches w.now at result }
    {
        if at < self.end {
            return self;
        }
        Reach::of(w, at)
    }

    // Whether the line is whole: an LF ends it, or the window is all that is left of the input.
    fn is_whole(self, last: bool) -> bool
        ensures { result ≡ (self.fed || last) }
    {
        self.fed || last
    }
}

// Passes over the rest of a line.
fn pass(w: &[u8], last: bool, at: usize, reach: Reach, within: Phase, after: Phase) -> Turn
    requires { Reaches w.now at reach }
    ensures { turn_paper result ≡ pass_move last within after at (line_of (drop at w.now)) }
{
    if reach.is_whole(last) {
        return Turn::On(after, reach.end);
    }
    if reach.end == at {
        return Turn::More;
    }
    Turn::On(within, reach.end)
}

// At the start of a line, where only leading lines came before.
fn lead(w: &[u8], last: bool, at: usize, reach: Reach) -> Turn
    requires { Reaches w.now at reach }
    ensures { turn_paper result ≡ lead_move last at (drop at w.now) }
{
    if at == w.len() {
        if last {
            return Turn::On(Phase::Lines, at);
        }
        return Turn::More;
    }
    if w[at] == b'#' {
        return pass(w, last, at, reach, Phase::Comment, Phase::Lead);
    }
    Turn::On(Phase::Lines, at)
}

// How many entries the INFO column of a line claims.
fn infos_of(w: &[u8], line: Record, at: usize, next: usize) -> usize
    requires { ReadAt w.now at next line }
    ensures { result ≡ infos_in (columns_of (line_of (drop at w.now))) }
{
    match field(w, line, Name::Info) {
        Ok(Some(range)) => count_infos(&w[range.start..range.start + range.len]),
        Ok(None) | Err(_) => 0,
    }
}

// How many samples a line has.
fn samples_of(w: &[u8], line: Record, at: usize, next: usize) -> usize
    requires { ReadAt w.now at next line }
    ensures { result ≡ length (drop 9 (columns_of (line_of (drop at w.now)))) }
{
    let range = line.place(Name::Samples);
    count_samples(&w[range.start..range.start + range.len])
}

// The row of a line that was read.
fn row_of(w: &[u8], line: Record, at: usize, next: usize) -> ReadRow
    requires { ReadAt w.now at next line }
    ensures { row_paper (Ok result) ≡ says 0 (counts_of (columns_of (line_of (drop at w.now)))) }
{
    let infos = infos_of(w, line, at, next);
    let samples = samples_of(w, line, at, next);
    let columns = if samples == 0 { 8 } else { 9 + samples };
    ReadRow {
        columns,
        infos,
        samples,
    }
}

// Reads the line at a place, which is whole.
fn read_whole(w: &[u8], at: usize) -> Turn
    requires { at ≤ length w.now }
    ensures { turn_paper result ≡ read_move (line_of (drop at w.now)) (read_answer w.now at) }
{
    match read_line(w, at) {
        Ok((line, next)) => Turn::Found(Ok(row_of(w, line, at, next)), Phase::Lines, next),
        Err(Unread::End(_)) => Turn::End,
        Err(Unread::Empty(next)) => Turn::Found(Err(Refusal::Empty), Phase::Lines, next),
        Err(Unread::Fed(next)) => Turn::Found(Err(Refusal::Fed), Phase::Lines, next),
        Err(Unread::Cut(next)) => Turn::Found(Err(Refusal::Cut), Phase::Lines, next),
        Err(Unread::NotUtf8(next)) => Turn::Found(Err(Refusal::NotUtf8), Phase::Lines, next),
        Err(Unread::Beyond(_)) => Turn::Beyond,
    }
}

// A line of which the window holds more bytes than are read: it is refused, and passed over.
fn too_long(whole: bool, next: usize) -> Turn
    ensures { turn_paper result ≡ gives (says 22 []) (pick whole Lines Rest) next }
{
    let then = if whole { Phase::Lines } else { Phase::Rest };
    Turn::Found(Err(Refusal::Long), then, next)
}

// Reads the line at a place.
fn read_at(w: &[u8], last: bool, at: usize, reach: Reach) -> Turn
    requires { Reaches w.now at reach }
    ensures { turn_paper result ≡ line_move last w.now at (line_of (drop at w.now)) }
{
    let whole = reach.is_whole(last);
    if reach.end - at > LONGEST {
        return too_long(whole, reach.end);
    }
    if whole {
        return read_whole(w, at);
    }
    Turn::More
}

// One turn from a place of the window, where it is known how far the line there reaches; `last` says that the window is all that
// is left of the input.
pub(crate) fn turn_at(w: &[u8], last: bool, phase: Phase, at: usize, reach: Reach) -> Turn
    requires { Reaches w.now at reach }
    ensures { TakesTurn w.now last phase at result }
{
    match phase {
        Phase::Lead => lead(w, last, at, reach),
        Phase::Comment => pass(w, last, at, reach, Phase::Comment, Phase::Lead),
        Phase::Lines => read_at(w, last, at, reach),
        Phase::Rest => pass(w, last, at, reach, Phase::Rest, Phase::Lines),
    }
}
