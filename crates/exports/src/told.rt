// How an answer's values go to a lent array.
ghost use Rattle.std.specs.Prelude.{◌≡◌, [], ◌∷◌, ◌<◌, length};
ghost use Rattle.text.specs.Answer.{says};
ghost use Rattle.exports.specs.Told.{Tells};

use text::range::Range;

// How long the lent arrays are: more than any answer needs today, so that a caller's need not grow with each new value.
pub(crate) const VALUES: usize = 8;

pub(crate) const LINE_VALUES: usize = 24;

// Tells a number and values, which fit behind their count.
pub(crate) fn tell(number: u64, vs: &[usize], values: &mut [u64]) -> u64
    requires { length vs.now < length values.old }
    ensures { Tells (says number vs.now) values.old result values.new }
{
    values[0] = vs.len() as u64;
    for i in 0..vs.len() {
        values[i + 1] = vs[i] as u64;
    }
    number
}

// A place is two values: where it starts, and how many bytes long it is.
pub(crate) fn tell_place(number: u64, place: Range, values: &mut [u64]) -> u64
    requires { 2 < length values.old }
    ensures { Tells (says number (place.start ∷ place.len ∷ [])) values.old result values.new }
{
    tell(number, &[place.start, place.len], values)
}
