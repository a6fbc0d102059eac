// Whether a line reader can make a form on some input, by its ending and its ten places. Only differences are taken, so that no
// numbers are too large.
ghost use Rattle.std.specs.Prelude.{◌≡◌, ◌+◌, ◌*◌, ◌<◌, ◌≤◌, length, take, leb};
ghost use Rattle.record.specs.Ending.{ending_bytes};
ghost use Rattle.record.specs.Paper.{ending_of};
ghost use Rattle.forms.specs.Form.{chained, bare, end_at, limit, ten_fields, made};
ghost use Rattle.forms.specs.Inner.{follows};

use record::ending::Ending;

// The most bytes that a slice can have.
const MOST: usize = 9223372036854775807;

// Whether field i is not empty, and the next one starts past one tab after its end.
fn is_followed(places: &[usize; 20], i: usize) -> bool
    requires { i < 9 }
    ensures { result ≡ follows places.now i }
{
    let start = places[2 * i];
    let len = places[2 * i + 1];
    let next = places[2 * i + 2];
    len > 0 && next > start && next - start - 1 == len
}

// Whether none of the first n fields is empty, and each starts past one tab after the end of the one before.
fn is_chained(places: &[usize; 20], n: usize) -> bool
    requires { (1 ≤ n) × (n ≤ 10) }
    ensures { result ≡ chained (take (2 * n) places.now) }
{
    for i in 0..n - 1 {
        if !is_followed(places, i) {
            return false;
        }
    }
    places[2 * n - 1] > 0
}

// Whether FORMAT and the samples are empty at INFO's end.
fn is_bare(places: &[usize; 20]) -> bool
    ensures { result ≡ bare places.now }
{
    let end = places[16];
    places[17] == 0
        && places[18] == end
        && places[19] == 0
        && end >= places[14]
        && end - places[14] == places[15]
}

// Whether the text's end, where the samples end, and the ending behind it lie in an input.
fn is_within(ending: Ending, places: &[usize; 20]) -> bool
    ensures { result ≡ leb (end_at places.now 9 + length (ending_bytes (ending_of ending))) limit }
{
    let room = MOST - ending.size();
    places[18] <= room && places[19] <= room - places[18]
}

// Whether there are ten fields, or eight and a bare end.
fn is_ten(places: &[usize; 20]) -> bool
    ensures { result ≡ ten_fields places.now }
{
    is_chained(places, 10) || (is_chained(places, 8) && is_bare(places))
}

// Whether the line reader answers this ending and these places on some input.
pub(crate) fn is_made(ending: Ending, places: &[usize; 20]) -> bool
    ensures { result ≡ made (ending_of ending) places.now }
{
    is_within(ending, places) && is_ten(places)
}
