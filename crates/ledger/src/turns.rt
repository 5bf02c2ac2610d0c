// The turns of the joins, kept until the joined book is written, and then told. A join takes a turn for each different call of its two books, so that along the arguments the turns
// never fall, and are at most 2,000. So it is enough to keep, for each number of turns, the last argument whose join took so many; there may be any number of books.
ghost use Rattle.std.specs.Prelude.{◌≡◌, ◌<◌, length};

use book::MOST_RECORDS;
use clerk::print;
use clerk::shelf::put_turns_at;
use say::Terminal;

// The numbers of turns that a join may take: none, and up to one for each record of a book.
const NUMBERS: usize = MOST_RECORDS + 1;

// How far the telling has come: so many bytes stand on the page; the turns of the join before, and of all so far.
#[derive(Clone, Copy)]
struct Telling {
    at: usize,
    turns: usize,
    all: usize,
}

// Room for the last argument by each number of turns, where no join was made yet: 0, the program's own name.
pub fn no_turns() -> [usize; NUMBERS]
    ensures { 2001 ≡ length result }
{
    [0; NUMBERS]
}

// The join of the book that argument i names took so many turns.
pub fn keep_turns(lasts: &mut [usize], i: usize, turns: usize) {
    if turns < lasts.len() {
        lasts[turns] = i;
    }
}

// The turns of the join of argument i, where that before it took `from`: the lowest number from there on that a join took which is not before it.
fn turns_of(lasts: &[usize], i: usize, from: usize) -> usize {
    for turns in from..lasts.len() {
        if i <= lasts[turns] {
            return turns;
        }
    }
    from.max(lasts.len())
}

// The turns of the join of argument i, on a page.
fn put_next(
    terminal: &Terminal,
    page: &mut [u8],
    lasts: &[usize],
    i: usize,
    before: Telling,
) -> Telling {
    let turns = turns_of(lasts, i, before.turns);
    let at = put_turns_at(terminal, page, before.at, i, turns);
    let all = before.all.saturating_add(turns);
    Telling { at, turns, all }
}

// What all joins took together, on a page, where there are several.
fn put_all(terminal: &Terminal, page: &mut [u8], several: bool, told: Telling) -> usize {
    if several {
        return print::put_turns(terminal, page, told.at, b"all", told.all);
    }
    told.at
}

// The turns of each join of the books that are named from argument `from` on, and of all together, at the start of a page.
pub fn put_turns(terminal: &Terminal, page: &mut [u8], from: usize, lasts: &[usize]) -> usize
    requires { from < 10 }
{
    let count = say::arguments(terminal);
    let mut told = Telling {
        at: 0,
        turns: 0,
        all: 0,
    };
    for i in from + 1..count {
        told = put_next(terminal, page, lasts, i, told);
    }
    put_all(terminal, page, from + 2 < count, told)
}
