// The columns of a line by blocks of 64 bytes. A line with an empty column, or that no LF ends, is left to the reader by columns.
ghost use Rattle.std.specs.Prelude.{◌≡◌, ◌+◌, ◌≤◌, IfSome, length, set};
ghost use Rattle.line.specs.Inner.{Unset};
ghost use Rattle.line.specs.Scan.{More, HasEmpty, Entered, Meets, Further, Swept, Scanned, Whole, Feeds, WholeEnd, Bounded};

use crate::ending::text_end;
use crate::flags::{ascii64, calm64, quiet64};
use crate::runs::past64;
use masks::mask::{low, mask, rest};

// What a block has.
#[derive(Clone, Copy)]
enum Met {
    // The LF that ends the line: how many tabs are kept, and its place.
    Feed(usize, usize),
    // Tabs at most: how many are kept.
    Past(usize),
}

// How far a line was gone through: the next place; how many tabs are kept; whether a column starts at that place; whether all bytes
// before it are known to be below 80 hex.
#[derive(Clone, Copy)]
struct Sweep {
    i: usize,
    k: usize,
    fresh: bool,
    plain: bool,
}

// A line up to its LF: how many tabs are kept; the LF's place; whether all bytes before it are known to be below 80 hex.
#[derive(Clone, Copy)]
struct Found {
    k: usize,
    feed: usize,
    plain: bool,
}

// A line whose columns are in order: where its text ends; the next place; whether its text is known to be below 80 hex.
#[derive(Clone, Copy)]
pub(crate) struct Bounds {
    pub(crate) end: usize,
    pub(crate) next: usize,
    pub(crate) plain: bool,
}

// Keeps the place of a tab, where there is room for it: how many are kept then.
fn keep_tab(tabs: &mut [usize], k: usize, tab: usize) -> usize
    requires { (k ≤ 9) × (length tabs.old ≡ 9) }
    ensures tabs_after { tabs.new ≡ set tabs.old k tab }
    ensures more { More k result }
{
    if k >= 9 {
        return k;
    }
    tabs[k] = tab;
    k + 1
}

// Whether two marks of a block stand side by side, or the first byte is one where a column starts.
fn has_empty(m: u64, fresh: bool) -> bool
    ensures { HasEmpty m fresh result }
{
    m & (m / 2) != 0 || fresh & (m % 2 == 1)
}

// Goes through the tabs and LF of one block by its mask.
fn block(s: &[u8], at: usize, i: usize, m0: u64, k0: usize, tabs: &mut [usize]) -> Met
    requires { Entered s.now at i m0 k0 tabs.old }
    ensures { Meets s.now at (i + 64) result tabs.new }
{
    let mut m = m0;
    let mut k = k0;
    while m != 0 {
        let p = i + low(m);
        if s[p] == b'\n' {
            return Met::Feed(k, p);
        }
        k = keep_tab(tabs, k, p);
        m = rest(m);
    }
    Met::Past(k)
}

// Past a block: behind nine tabs by blocks without LF and empty column, behind a block without a mark by such blocks.
fn further(s: &[u8], cur: usize, k: usize, none: bool) -> usize
    requires { (1 ≤ cur) × (cur ≤ length s.now) }
    ensures { Further s.now cur k result }
{
    if k == 9 {
        return past64(s, cur, |i| calm64(s, i));
    }
    if none {
        return past64(s, cur, |i| quiet64(s, i));
    }
    cur
}

// The last bytes of the input, one by one.
fn tail(s: &[u8], at: usize, sweep: Sweep, tabs: &mut [usize]) -> Option<Found>
    requires { Swept s.now at sweep.i sweep.k sweep.fresh sweep.plain tabs.old }
    ensures { IfSome result (λ f. Scanned s.now at f.k f.feed f.plain tabs.new) }
{
    let mut k = sweep.k;
    let mut fresh = sweep.fresh;
    let mut plain = sweep.plain;
    for i in sweep.i..s.len() {
        let b = s[i];
        if b == b'\n' {
            if fresh {
                return None;
            }
            return Some(Found { k, feed: i, plain });
        }
        if b == b'\t' {
            if fresh {
                return None;
            }
            k = keep_tab(tabs, k, i);
            fresh = true;
        } else {
            plain = plain & (b < 128);
            fresh = false;
        }
    }
    None
}

// Goes through the line at a place up to its LF, and keeps the places of the first nine tabs.
fn scan(s: &[u8], at: usize, tabs: &mut [usize]) -> Option<Found>
    requires at_in_bounds { at ≤ length s.now }
    requires unset { Unset tabs.old }
    ensures { IfSome result (λ f. Scanned s.now at f.k f.feed f.plain tabs.new) }
{
    let mut i = at;
    let mut k = 0;
    let mut fresh = true;
    let mut plain = true;
    while s.len() - i >= 64 {
        plain = plain & ascii64(s, i);
        let m = mask(s, b'\t', b'\n', i);
        if has_empty(m, fresh) {
            return None;
        }
        match block(s, at, i, m, k, tabs) {
            Met::Feed(kept, feed) => {
                return Some(Found {
                    k: kept,
                    feed,
                    plain,
                });
            }
            Met::Past(kept) => {
                i = further(s, i + 64, kept, m == 0);
                k = kept;
                fresh = s[i - 1] == b'\t';
            }
        }
    }
    let sweep = Sweep { i, k, fresh, plain };
    tail(s, at, sweep, tabs)
}

// Whether so many tabs are those of eight columns, or of ten and more.
fn is_whole(k: usize) -> bool
    ensures { Whole k result }
{
    k == 7 || k == 9
}

// The text's end before the LF, where the columns are as many as they may be and the last is not empty.
fn whole_end(s: &[u8], at: usize, found: Found) -> Option<usize>
    requires { Feeds s.now at found.k found.feed }
    ensures { IfSome result (λ end. WholeEnd s.now at found.k found.feed end) }
{
    if !is_whole(found.k) {
        return None;
    }
    let end = text_end(s, at, found.feed);
    if s[end - 1] == b'\t' {
        return None;
    }
    Some(end)
}

// The line at a place, where its blocks tell that its columns are in order: its bounds, and the places of its first nine tabs.
pub(crate) fn line_by_blocks(s: &[u8], at: usize, tabs: &mut [usize]) -> Option<Bounds>
    requires at_in_bounds { at ≤ length s.now }
    requires unset { Unset tabs.old }
    ensures { IfSome result (λ b. Bounded s.now at b tabs.new) }
{
    let found = scan(s, at, tabs)?;
    let end = whole_end(s, at, found)?;
    Some(Bounds {
        end,
        next: found.feed + 1,
        plain: found.plain,
    })
}
