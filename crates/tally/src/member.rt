// One member's score.
use crate::away::tell_away;
use crate::outputs::{part, read_file, series_room};
use crate::wrong::tell_series;
use clerk::args::{first, kind_at, long_at, path, short_at};
use clerk::print;
use clerk::shelf::{open, refused_at};
use clerk::wrong::tell_member;
use pay::Member;
use say::Terminal;
use score::answer::Score;
use units::Kw;

// The member that the arguments say is no register line.
pub fn refuse_member(terminal: &Terminal, member: Member) {
    tell_member(terminal, member);
    print::refused(terminal, 10, 0, b"member");
}

// The score behind what stands on a page, or its refusal in one line. Of a call that is refused by 12, 13 or 14 the lines before it say which it is and why, of a series what is
// wrong with it.
pub fn tell(
    terminal: &Terminal,
    member: Member,
    r: Score,
    book: &[u8],
    series: &[u8],
    page: &mut [u8],
    at: usize,
) {
    if r.number == 0 {
        let end = print::put_score(terminal, page, at, r.grains, r.fen);
        print::finish(terminal, page, end);
        return;
    }
    if r.number == 10 {
        refuse_member(terminal, member);
        return;
    }
    if r.number == 11 {
        tell_series(terminal, series, r.place, book);
        print::refused(terminal, r.number, r.place, series);
        return;
    }
    if 11 < r.number {
        tell_away(terminal, book, r.place, r.number, member);
    }
    refused_at(terminal, r.number, r.place, 5);
}

// The member's score over a book and the series in a file.
fn score_with(terminal: &Terminal, member: Member, book: &[u8], path: &[u8]) {
    let mut series = series_room();
    if let Some(n) = read_file(terminal, path, &mut series) {
        let r = score::score(member, book, part(&series, 0, n));
        let mut page = io::buffer();
        tell(terminal, member, r, book, path, &mut page, 0);
    }
}

// The member's score over the book and the series that arguments 5 and 6 name.
fn score_of(terminal: &Terminal, member: Member) {
    let mut book = io::large_buffer();
    let Some(n) = open(terminal, 5, &mut book) else {
        return;
    };
    let mut series = io::buffer();
    let Some(m) = path(terminal, 6, &mut series) else {
        return;
    };
    score_with(terminal, member, first(&book, n), first(&series, m));
}

// The member that arguments 2, 3 and 4 say; or none, and one line has said why.
pub fn member_given(terminal: &Terminal) -> Option<Member> {
    let number = short_at(terminal, 2)?;
    let kind = kind_at(terminal, 3)?;
    let rated = Kw(long_at(terminal, 4)?);
    Some(Member {
        number,
        kind,
        rated,
    })
}

// The paper's order: the member first, then the book, then the series.
pub fn score_member(terminal: &Terminal) {
    let Some(member) = member_given(terminal) else {
        return;
    };
    if !member.is_sound() {
        refuse_member(terminal, member);
        return;
    }
    score_of(terminal, member);
}
