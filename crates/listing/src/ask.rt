// What a program that lists is to do next: all that is left to it is to read and to write.
ghost use Rattle.std.specs.Prelude.{◌≡◌};
ghost use Rattle.listing.specs.Inner.{Stopped};
ghost use Rattle.listing.specs.Ask.{at_front, written_out, Wants, Asks};

use crate::drive::{Driven, State, Why};
use crate::keep::keep_rest;
use text::copy::NoRoom;

// What is to be done.
#[derive(Clone, Copy)]
pub enum Ask {
    // Read more of the input behind the first so many bytes of the buffer, and ask again from the state.
    Read(usize, State),
    // Write out so many bytes of the output, and ask again from the state.
    Write(usize, State),
    // Write out so many bytes of the output: they are the last.
    Last(usize),
}

// 6: these are no places of the buffer and the output.
#[derive(Clone, Copy, Debug, PartialEq, Eq)]
pub struct Beyond;

impl State {
    // After the output was written out.
    fn written_out(self) -> State
        ensures { result ≡ written_out self }
    {
        State { put: 0, ..self }
    }

    // At the start of another window.
    fn at_front(self) -> State
        ensures { result ≡ at_front self }
    {
        State { at: 0, ..self }
    }
}

// What is asked for where the turns stop.
fn ask_where(driven: Driven, buffer: &mut [u8], end: usize, out: &mut [u8]) -> Ask
    requires { Stopped end driven buffer.old }
    ensures { Wants end driven.state buffer.old out.old result buffer.new out.new driven.why }
{
    let state = driven.state;
    match driven.why {
        Why::Beyond => unreachable!(),
        Why::More => {
            let kept = keep_rest(buffer, state.at, end);
            Ask::Read(kept, state.at_front())
        }
        Why::Full => Ask::Write(state.put, state.written_out()),
        Why::Done => match state.totals.print(out, state.put) {
            Ok(len) => Ask::Last(len),
            Err(NoRoom) => Ask::Write(state.put, state.written_out()),
        },
    }
}

// Lists what the first `end` bytes of the buffer hold, from a state on; `last` says that they are all that is left of the input.
pub fn ask_next(
    buffer: &mut [u8],
    end: usize,
    last: bool,
    state: State,
    out: &mut [u8],
) -> Result<Ask, Beyond>
    ensures { Asks last end state buffer.old out.old result buffer.new out.new }
{
    if end > buffer.len() || state.at > end || state.put > out.len() {
        return Err(Beyond);
    }
    let driven = state.drive(&buffer[..end], last, out);
    Ok(ask_where(driven, buffer, end, out))
}
