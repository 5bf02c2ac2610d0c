// One member's month, minute by minute, and one of its days run by run.
use crate::member::{member_given, refuse_member, tell};
use crate::outputs::{part, read_file, series_room};
use book::header_of;
use clerk::args::{byte_at, first, path};
use clerk::print;
use clerk::shelf::open;
use clerk::wrong::tell_no_day;
use daily::{month_text, run_text};
use day_runs::runs::DayRun;
use day_runs::{DayReckoned, MOST_RUNS, reckon_day};
use pay::Member;
use say::Terminal;
use score::answer::Score;
use units::calendar::days_of;
use units::{Fen, Grains};

// The argument that says the day.
const DAY: usize = 7;

// A run, on a page.
fn put_run(terminal: &Terminal, page: &mut [u8], at: usize, run: DayRun) -> usize {
    let mut line = io::buffer();
    let n = run_text(run, &mut line);
    say::add(terminal, page, at, &line[..n])
}

// The first runs, on a page.
fn put_runs(
    terminal: &Terminal,
    page: &mut [u8],
    runs: [DayRun; MOST_RUNS],
    count: usize,
) -> usize {
    let mut at: usize = 0;
    for run in runs.iter().take(count) {
        at = put_run(terminal, page, at, *run);
    }
    at
}

// What the month pays, behind the runs on a page.
fn tell_month(terminal: &Terminal, page: &mut [u8], at: usize, grains: Grains, fen: Fen) {
    let mut lines = io::buffer();
    let n = month_text(grains, fen, &mut lines);
    let end = say::add(terminal, page, at, &lines[..n]);
    print::finish(terminal, page, end);
}

// The runs of the day, then what the month pays, or why it is refused.
fn tell_day(terminal: &Terminal, member: Member, d: DayReckoned, book: &[u8], series: &[u8]) {
    let mut page = io::large_buffer();
    let runs = d.runs;
    let at = put_runs(terminal, &mut page, runs, d.count);
    let grains = d.grains;
    let fen = d.fen;
    if d.number == 0 {
        tell_month(terminal, &mut page, at, grains, fen);
        return;
    }
    let r = Score {
        number: d.number,
        place: d.place,
        grains,
        fen,
    };
    tell(terminal, member, r, book, series, &mut page, at);
}

// The day and the month over a book and the series in a file.
fn reckon_with(terminal: &Terminal, member: Member, book: &[u8], path: &[u8], day: u8) {
    let mut series = series_room();
    if let Some(n) = read_file(terminal, path, &mut series) {
        let d = reckon_day(member, book, part(&series, 0, n), u32::from(day));
        tell_day(terminal, member, d, book, path);
    }
}

// Whether the month of a sound book has the day; where not, one line has said so.
fn has_day(terminal: &Terminal, book: &[u8], day: u8) -> bool {
    let o = header_of(book);
    let header = o.header;
    let days = days_of(header.year, header.month);
    if (1 <= day) & (u32::from(day) <= days) {
        return true;
    }
    tell_no_day(terminal, DAY, days);
    false
}

// The book and the series that arguments 5 and 6 name.
fn reckon_of(terminal: &Terminal, member: Member, day: u8) {
    let mut book = io::large_buffer();
    let Some(n) = open(terminal, 5, &mut book) else {
        return;
    };
    if !has_day(terminal, first(&book, n), day) {
        return;
    }
    let mut series = io::buffer();
    let Some(m) = path(terminal, 6, &mut series) else {
        return;
    };
    reckon_with(terminal, member, first(&book, n), first(&series, m), day);
}

// The member first, then the book, the day, the series.
pub fn reckon_member(terminal: &Terminal) {
    let Some(member) = member_given(terminal) else {
        return;
    };
    let Some(day) = byte_at(terminal, DAY) else {
        return;
    };
    if !member.is_sound() {
        refuse_member(terminal, member);
        return;
    }
    reckon_of(terminal, member, day);
}
