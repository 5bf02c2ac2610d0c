// Books that add nothing: gone through from the last to the first, one is listed where the others not yet listed give what stands against each of its calls.
use crate::books::{Mark, all_stay, join_others, leave, lost_at, mark_of, take_book};
use clerk::args::first;
use clerk::shelf::note_at;
use drawer::nothing::adds_nothing;
use node::{Node, node_of};
use say::Terminal;

// Whether the book that argument i names adds nothing to those that are not left out.
fn is_spare(terminal: &Terminal, from: usize, i: usize, left: &mut [Mark]) -> bool {
    let mut book = io::large_buffer();
    let Some(m) = take_book(terminal, i, left, &mut book) else {
        return false;
    };
    let mut all = io::large_buffer();
    let n = join_others(terminal, from, Some(i), left, &mut all);
    if n == 0 {
        return false;
    }
    adds_nothing(first(&all, n), first(&book, m))
}

// Its turn: where it is listed, it is left out.
fn spare_turn(terminal: &Terminal, from: usize, i: usize, left: &mut [Mark]) {
    if is_spare(terminal, from, i, left) {
        leave(left, i, Mark::Spare);
    }
}

// The turns, from the last to the first.
fn turn_back(terminal: &Terminal, from: usize, left: &mut [Mark]) {
    for i in (from..say::arguments(terminal)).rev() {
        spare_turn(terminal, from, i, left);
    }
}

// What the system says of the file that argument i names. Of a book that was read, that it is not there is not known to be so: it is lost.
fn node_at(terminal: &Terminal, i: usize, left: &mut [Mark]) -> Node {
    let mut name = io::buffer();
    let n = say::word(terminal, i, &mut name);
    let node = node_of(terminal.system(), &name[..n]);
    if !node.is_there() {
        leave(left, i, Mark::Lost);
    }
    node
}

// Whether argument j names another book with this mark, and it is the same file as that of argument i.
fn is_twin(terminal: &Terminal, i: usize, j: usize, mark: Mark, left: &mut [Mark]) -> bool {
    if (i == j) | (mark_of(left, j) != mark) {
        return false;
    }
    let one = node_at(terminal, i, left);
    one.is_same(node_at(terminal, j, left))
}

// Whether a book with this mark, named from argument `from` on, is the same file as that of argument i.
fn has_twin(terminal: &Terminal, from: usize, i: usize, mark: Mark, left: &mut [Mark]) -> bool {
    (from..say::arguments(terminal)).any(|j| is_twin(terminal, i, j, mark, left))
}

// That the book of argument i, which is listed, adds nothing, and one more. Who names one file twice must not put it away where it stays by the other name; where neither
// stays, it is told once. Nothing is told where a book is lost meanwhile.
fn tell_listed(
    terminal: &Terminal,
    from: usize,
    i: usize,
    left: &mut [Mark],
    spare: usize,
) -> usize {
    if mark_of(left, i) != Mark::Spare {
        return spare;
    }
    let stays = has_twin(terminal, from, i, Mark::Stays, left);
    let is_told = has_twin(terminal, i.saturating_add(1), i, Mark::Spare, left);
    if lost_at(terminal, from, left).is_some() {
        return spare;
    }
    if stays {
        note_at(
            terminal,
            i,
            b"is the same file as another book that is named: keep it",
        );
        return spare.saturating_add(1);
    }
    if is_told {
        return spare;
    }
    note_at(terminal, i, b"adds nothing to the other books that stay");
    spare.saturating_add(1)
}

// All that are listed, from the last to the first: how many are told.
fn tell_back(terminal: &Terminal, from: usize, left: &mut [Mark]) -> usize {
    let mut spare: usize = 0;
    for i in (from..say::arguments(terminal)).rev() {
        spare = tell_listed(terminal, from, i, left, spare);
    }
    spare
}

// How many of the books that are named from argument `from` on and not left out add nothing. Where one is lost meanwhile, that is marked.
pub fn tell_spare(terminal: &Terminal, from: usize, left: &mut [Mark]) -> usize {
    let mut listed = all_stay();
    if listed.len() < left.len() {
        return 0;
    }
    listed[..left.len()].copy_from_slice(left);
    turn_back(terminal, from, &mut listed);
    let spare = tell_back(terminal, from, &mut listed);
    if let Some(lost) = lost_at(terminal, from, &listed) {
        leave(left, lost, Mark::Lost);
    }
    spare
}
