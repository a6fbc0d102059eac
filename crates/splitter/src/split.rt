// A line of VCF, split in three plain steps, a function each: where the line ends, where its tabs stand, and whether its columns
// are in order. The reader of the crate `line` gives the same answers, faster. What stands behind `requires`, `ensures` and `ghost`
// is what is proved of the code: it can be passed over.
//
// A line is columns with one tab between each two: CHROM, POS, ID, REF, ALT, QUAL, FILTER, INFO, and then, if there are samples,
// FORMAT and a column for each sample. It ends in LF, in CR LF, or where the input ends.
ghost use Rattle.std.specs.Prelude.{◌≡◌, ◌≤◌, MatchOption, length, drop};
ghost use Rattle.line.specs.Line.{required};
ghost use Rattle.line.specs.Demands.{FirstFeed, NoFeed};
ghost use Rattle.line.specs.Promises.{FindsLine, ReadsLine, KeepsNumbers};
ghost use Rattle.splitter.specs.Inner.{tabs_from, Keeps, Seen, HasEnds};

use line::extent::{Beyond, Extent};
use line::read::Refusal;
use record::ending::Ending;
use record::place::Record;
use text::utf8::check_utf8;

// The first LF from `at` on.
fn find_feed(s: &[u8], at: usize) -> Option<usize>
    ensures { MatchOption result (NoFeed s.now at) (λ feed. FirstFeed s.now at feed) }
{
    // Kept: by `find` over the range the whole split takes a third to two thirds more time.
    for i in at..s.len() {
        if s[i] == b'\n' {
            return Some(i);
        }
    }
    None
}

// Step 1: the end of the line that starts at `at`: where its text ends, how it ended, and where the next line starts. It ends at
// the first LF, or at the end of the input. A CR right before the LF belongs to the ending, not to the text.
fn find_end(s: &[u8], at: usize) -> Result<Extent, Beyond>
    ensures { FindsLine s.now at result }
{
    if at > s.len() {
        return Err(Beyond);
    }
    let Some(feed) = find_feed(s, at) else {
        return Ok(Extent {
            end: s.len(),
            ending: Ending::Nothing,
            next: s.len(),
        });
    };
    let next = feed + 1;
    if feed > at && s[feed - 1] == b'\r' {
        return Ok(Extent {
            end: feed - 1,
            ending: Ending::ReturnFeed,
            next,
        });
    }
    Ok(Extent {
        end: feed,
        ending: Ending::Feed,
        next,
    })
}

// What step 2 keeps of a line's tabs. A line may have any number of them, so it does not keep them all.
#[derive(Clone, Copy)]
struct Tabs {
    // How many there are.
    count: usize,
    // Where each of the first nine stands; the end of the text for each that is not there.
    ends: [usize; 9],
    // The first one with an empty column before it; the end of the text if there is none.
    gap: usize,
    // Where the last column starts: past the last tab, or where the line does.
    last: usize,
}

// Step 2: all tabs of the line that starts at `at` and whose text ends where t ends.
fn find_tabs(t: &[u8], at: usize) -> Tabs
    requires { at ≤ length t.now }
    ensures { Keeps (tabs_from at (drop at t.now)) at (length t.now) result }
{
    let end = t.len();
    let mut count = 0;
    let mut ends = [end; 9];
    let mut gap = end;
    let mut start = at;
    for i in at..end {
        if t[i] == b'\t' {
            if count < 9 {
                ends[count] = i;
            }
            if i == start && gap == end {
                gap = i;
            }
            count += 1;
            start = i + 1;
        }
    }
    Tabs {
        count,
        ends,
        gap,
        last: start,
    }
}

// Step 3: the columns, judged from left to right.
fn judge(s: &[u8], at: usize, line: Extent, tabs: Tabs) -> Result<(Record, usize), Refusal>
    requires { Seen s.now at line tabs }
    ensures reads_line { ReadsLine s.now at result }
    ensures keeps_numbers { KeepsNumbers result }
{
    let Extent { end, ending, next } = line;
    // 2: a column that a tab ends is empty.
    if tabs.gap < end {
        return Err(Refusal::Empty(tabs.gap + 1));
    }
    // 4 or 3: the last column, whose number is one more than there are tabs, is one that needs a tab behind it.
    if needs_tab(tabs.count + 1) {
        return match ending {
            Ending::Nothing => Err(Refusal::Cut(next)),
            Ending::Feed | Ending::ReturnFeed => Err(Refusal::Fed(next)),
        };
    }
    // 4 or 2: it is empty.
    if tabs.last == end {
        return match ending {
            Ending::Nothing => Err(Refusal::Cut(next)),
            Ending::Feed | Ending::ReturnFeed => Err(Refusal::Empty(next)),
        };
    }
    // 5 or 0: all columns are in order, and only UTF-8 is left to judge.
    if check_utf8(&s[at..end]).is_err() {
        return Err(Refusal::NotUtf8(next));
    }
    Ok((record_of(at, end, ending, tabs), next))
}

// Columns 1 to 7, and column 9, which is FORMAT, must be ended by a tab.
// Kept beside the reader's own test: this crate calls nothing of the reader, so that it can be read by itself (docs/DECISIONS.md).
fn needs_tab(number: usize) -> bool
    ensures { result ≡ required number }
{
    number <= 7 || number == 9
}

// The record of a line: its start, where the first nine fields end, and where the text ends. Without FORMAT both INFO and FORMAT
// end with the text, since for each tab that is not there step 2 kept the text's end.
fn record_of(at: usize, end: usize, ending: Ending, tabs: Tabs) -> Record
    ensures { HasEnds at end ending tabs result }
{
    let numbers = [
        at,
        tabs.ends[0],
        tabs.ends[1],
        tabs.ends[2],
        tabs.ends[3],
        tabs.ends[4],
        tabs.ends[5],
        tabs.ends[6],
        tabs.ends[7],
        tabs.ends[8],
        end,
    ];
    Record::new(ending, numbers)
}

// Splits the line at a place: one step after the other.
pub fn split_line(s: &[u8], at: usize) -> Result<(Record, usize), Refusal>
    ensures reads_line { ReadsLine s.now at result }
    ensures keeps_numbers { KeepsNumbers result }
{
    if at == s.len() {
        return Err(Refusal::End(at));
    }
    let Ok(line) = find_end(s, at) else {
        return Err(Refusal::Beyond(at));
    };
    let tabs = find_tabs(&s[..line.end], at);
    judge(s, at, line, tabs)
}
