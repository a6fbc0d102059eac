// Turns over one window, one after another, and their rows put into lent output.
ghost use Rattle.listing.specs.Inner.{Reaches, Takes};
ghost use Rattle.listing.specs.Drive.{Drives};
ghost use Rattle.listing.specs.Promises.{BeginsListing};

use crate::print::{Totals, print_row};
use crate::turn::{Phase, Reach, Turn, turn_at};
use text::copy::NoRoom;

// The phase and the place of the next turn; how many bytes the output holds; what was counted.
#[derive(Clone, Copy)]
pub struct State {
    pub phase: Phase,
    pub at: usize,
    pub put: usize,
    pub totals: Totals,
}

// Why no further turn is taken.
#[derive(Clone, Copy, Debug, PartialEq, Eq)]
pub enum Why {
    // 6: the place lies beyond the window.
    Beyond,
    // The window ends too soon: more of the input is wanted.
    More,
    // The output has no room for the next row.
    Full,
    // The input ends here.
    Done,
}

// Where the turns end, and why there.
#[derive(Clone, Copy)]
pub struct Driven {
    pub why: Why,
    pub state: State,
}

impl State {
    // Nothing read, printed or counted yet.
    pub fn first() -> State
        ensures { BeginsListing result }
    {
        State {
            phase: Phase::Lead,
            at: 0,
            put: 0,
            totals: Totals {
                read: 0,
                refused: 0,
            },
        }
    }

    // Takes one turn, and puts its row into the output behind what that holds: the next state, or why no turn is taken.
    fn take_turn(self, w: &[u8], last: bool, reach: Reach, out: &mut [u8]) -> Result<State, Why>
        requires { Reaches w.now self.at reach }
        ensures { Takes last w.now self out.old result out.new }
    {
        match turn_at(w, last, self.phase, self.at, reach) {
            Turn::Beyond => Err(Why::Beyond),
            Turn::More => Err(Why::More),
            Turn::End => Err(Why::Done),
            Turn::On(then, next) => Ok(State {
                phase: then,
                at: next,
                ..self
            }),
            Turn::Found(row, then, next) => match print_row(row, out, self.put) {
                Ok(len) => Ok(State {
                    phase: then,
                    at: next,
                    put: len,
                    totals: self.totals.count(row),
                }),
                Err(NoRoom) => Err(Why::Full),
            },
        }
    }

    // Takes turns over a window, and puts their rows into the output behind what it holds, until the window is used up, the output
    // has no room for the next row, or the input ends. `last` says that the window is all that is left of the input.
    pub fn drive(self, w: &[u8], last: bool, out: &mut [u8]) -> Driven
        ensures { Drives last w.now self out.old result out.new }
    {
        let mut now = self;
        let mut reach = Reach { end: 0, fed: false };
        loop {
            if now.at > w.len() {
                return Driven {
                    why: Why::Beyond,
                    state: now,
                };
            }
            reach = reach.moved(w, now.at);
            match now.take_turn(w, last, reach, out) {
                Ok(next) => now = next,
                Err(why) => return Driven { why, state: now },
            }
        }
    }
}
