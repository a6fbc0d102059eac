// Reading a line: where its columns end, whether they are in order, and the places of its fields.
ghost use Rattle.std.specs.Prelude.{◌≡◌, ◌-◌, ◌≤◌, length, take, drop, set};
ghost use Rattle.line.specs.Line.{required, line_of, line_answer};
ghost use Rattle.line.specs.Paper.{read_paper};
ghost use Rattle.line.specs.Promises.{ReadsLine, KeepsNumbers};
ghost use Rattle.line.specs.Scan.{Bounded};
ghost use Rattle.line.specs.Inner.{StopsAt, Stopped, Clear, judgement_of, judged_paper, Unset, Marks, Told, record_by, Fields, InOrder};

use crate::ending::text_end;
use crate::scan::{Bounds, line_by_blocks};
use pieces::either::{find_either, near_end};
use record::ending::Ending;
use record::place::Record;
use text::utf8::check_utf8;

// Why no line was read at a place. Each has the next place.
#[derive(Clone, Copy, Debug, PartialEq, Eq)]
pub enum Refusal {
    // 1: the place is the end of the input.
    End(usize),
    // 2: an empty column.
    Empty(usize),
    // 3: a column ended by LF that must be ended by a tab.
    Fed(usize),
    // 4: a column cut by the end of the input.
    Cut(usize),
    // 5: a column that is not UTF-8.
    NotUtf8(usize),
    // 6: the place lies beyond the input.
    Beyond(usize),
}

// What ends a column, and where.
#[derive(Clone, Copy)]
enum Stop {
    Tab(usize),
    Feed(usize),
    Input,
}

// Stops at the first tab or LF. Behind 32 bytes it is sought by blocks.
fn column_end(s: &[u8], from: usize) -> Stop
    requires { from ≤ length s.now }
    ensures { StopsAt s.now from result }
{
    let near = near_end(from, s.len());
    'search: {
        for i in from..near {
            match s[i] {
                b'\t' => break 'search Stop::Tab(i),
                b'\n' => break 'search Stop::Feed(i),
                _ => {}
            }
        }
        far_end(s, near)
    }
}

// The same, by blocks.
fn far_end(s: &[u8], from: usize) -> Stop
    requires { from ≤ length s.now }
    ensures { StopsAt s.now from result }
{
    let i = find_either(s, b'\t', b'\n', from);
    if i >= s.len() {
        return Stop::Input;
    }
    if s[i] == b'\t' {
        Stop::Tab(i)
    } else {
        Stop::Feed(i)
    }
}

// Columns 1 to 7 and FORMAT must be ended by a tab.
#[tactic(auto, unfolding(crate::specs::Line::required))]
fn is_required(k: usize) -> bool
    ensures { result ≡ required k }
{
    k <= 7 || k == 9
}

// The last column of a line, number k, which an LF ends. Where it is in order: where the text ends, and the next place.
fn judge_fed(s: &[u8], k: usize, start: usize, feed: usize) -> Result<(usize, usize), Refusal>
    requires { Stopped s.now start feed 10 }
    ensures { judged_paper result ≡ judgement_of k start (line_of (drop start s.now)) }
{
    let next = feed + 1;
    if is_required(k) {
        return Err(Refusal::Fed(next));
    }
    let end = text_end(s, start, feed);
    if end == start {
        return Err(Refusal::Empty(next));
    }
    Ok((end, next))
}

// The same of one that the end of the input ends.
fn judge_cut(s: &[u8], k: usize, start: usize) -> Result<(usize, usize), Refusal>
    requires start_in_bounds { start ≤ length s.now }
    requires clear { Clear s.now start (length s.now) }
    ensures { judged_paper result ≡ judgement_of k start (line_of (drop start s.now)) }
{
    if is_required(k) {
        return Err(Refusal::Cut(s.len()));
    }
    if start == s.len() {
        return Err(Refusal::Cut(start));
    }
    let end = text_end(s, start, s.len());
    Ok((end, s.len()))
}

// Keeps the place of the tab that ends column k, where there is room for it: the first nine have some.
fn keep(tabs: &mut [usize], k: usize, tab: usize)
    requires { 1 ≤ k }
    ensures { tabs.new ≡ set tabs.old (k - 1) tab }
{
    if k <= tabs.len() {
        tabs[k - 1] = tab;
    }
}

// Judges the columns of the line at a place, from the left, and keeps the places of the first nine tabs. Answers as its last column.
fn judge(s: &[u8], at: usize, tabs: &mut [usize]) -> Result<(usize, usize), Refusal>
    requires at_in_bounds { at ≤ length s.now }
    requires unset { Unset tabs.old }
    ensures result_value { judged_paper result ≡ judgement_of 1 at (line_of (drop at s.now)) }
    ensures marks { Marks s.now at result tabs.new }
{
    // Kept: k counts the columns that are found; the place moves by what is found.
    let mut k = 1;
    let mut start = at;
    'columns: loop {
        match column_end(s, start) {
            Stop::Tab(tab) => {
                let next = tab + 1;
                if tab == start {
                    break 'columns Err(Refusal::Empty(next));
                }
                keep(tabs, k, tab);
                start = next;
                k += 1;
            }
            Stop::Feed(feed) => break 'columns judge_fed(s, k, start, feed),
            Stop::Input => break 'columns judge_cut(s, k, start),
        }
    }
}

// The record by the tabs that end the first seven fields, and by where the last three end.
fn record_of(
    ending: Ending,
    at: usize,
    tabs: &[usize],
    info: usize,
    format: usize,
    end: usize,
) -> Record
    requires { length tabs.now ≡ 9 }
    ensures { result ≡ record_by ending at tabs.now info format end }
{
    let numbers = [
        at, tabs[0], tabs[1], tabs[2], tabs[3], tabs[4], tabs[5], tabs[6], info, format, end,
    ];
    Record::new(ending, numbers)
}

// The record of the line that starts at `at` in t and whose text ends where t ends, by its first tabs and its ending.
fn fields_of(t: &[u8], at: usize, tabs: &[usize], ending: Ending) -> Record
    requires { Told t.now at tabs.now }
    ensures { Fields t.now at ending result }
{
    let end = t.len();
    // Kept: 0 for a tab that is not there. An array of options is no plainer: nine numbers are what the record is made of.
    if tabs[7] == 0 {
        return record_of(ending, at, tabs, end, end, end);
    }
    record_of(ending, at, tabs, tabs[7], tabs[8], end)
}

// A line whose columns are in order: all that is left to judge is UTF-8.
fn finish(s: &[u8], at: usize, bounds: Bounds, tabs: &[usize]) -> Result<(Record, usize), Refusal>
    requires { Bounded s.now at bounds tabs.now }
    ensures result_value { read_paper result ≡ line_answer at (line_of (drop at s.now)) }
    ensures keeps_numbers { KeepsNumbers result }
{
    let Bounds { end, next, plain } = bounds;
    if !plain && check_utf8(&s[at..end]).is_err() {
        return Err(Refusal::NotUtf8(next));
    }
    let ending = Ending::by_size(next - end);
    Ok((fields_of(&s[..end], at, tabs, ending), next))
}

// Reads the line at a place: by blocks, and where they do not tell, column by column.
pub fn read_line(s: &[u8], at: usize) -> Result<(Record, usize), Refusal>
    ensures reads_line { ReadsLine s.now at result }
    ensures keeps_numbers { KeepsNumbers result }
{
    if at > s.len() {
        return Err(Refusal::Beyond(at));
    }
    if at == s.len() {
        return Err(Refusal::End(at));
    }
    let mut tabs = [0usize; 9];
    let bounds = match line_by_blocks(s, at, &mut tabs) {
        Some(bounds) => bounds,
        None => {
            tabs = [0; 9];
            let (end, next) = judge(s, at, &mut tabs)?;
            Bounds {
                end,
                next,
                plain: false,
            }
        }
    };
    finish(s, at, bounds, &tabs)
}
