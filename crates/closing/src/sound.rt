// A register without its bad lines: what is in the way of the other lines' members is told all the same. Where the numbers of the lines that are left do not
// rise, the fewest of them are left out as well, so that one slip does not hide the lines behind it.
use clerk::args::first;
use faults::{Table, Walk, Wrong};
use register::MOST_ENTRIES;
use tables::roll::{Register, read_register};

// By the number that it begins with, the longest run of rising numbers so far; and the longest of all.
#[derive(Clone, Copy)]
pub struct Best {
    pub each: [u8; MOST_ENTRIES],
    pub most: u8,
}

// What was kept of a text: how many bytes, how many lines are still to come, and the number of the last one.
#[derive(Clone, Copy)]
pub struct Kept {
    pub size: usize,
    pub want: u8,
    pub number: u8,
}

// Whether a line is bad by itself, and not only against the number before it.
fn is_alone(wrong: Wrong) -> bool {
    !matches!(wrong, Wrong::NotAbove(_, _))
}

// The number of the member of a line that is not bad by itself; of a heading and of a blank line it is 0.
// Stays a flag: the numbers of all lines stand in one buffer of bytes, in which 0 is no member's.
fn number_of(line: &[u8]) -> u8 {
    let own = read_register(line);
    if own.count != 1 {
        return 0;
    }
    match u8::try_from(own.entries[0].member.number) {
        Ok(n) if n <= 64 => n,
        _ => 0,
    }
}

fn byte_at(bytes: &[u8], i: usize) -> u8 {
    bytes.get(i).copied().unwrap_or(0)
}

fn put(bytes: &mut [u8], i: usize, n: u8) {
    if let Some(own) = bytes.get_mut(i) {
        *own = n;
    }
}

// The number of each line of a text in the first bytes of `numbers`, which are 0, and of one that is bad by itself 0; and how many lines there are.
fn number_lines(text: &[u8], numbers: &mut [u8]) -> usize {
    let mut told = Walk::start(Table::Register, text).next_fault(text);
    let mut count: usize = 0;
    for line in text.split_inclusive(|b| *b == b'\n') {
        let at = count;
        count = count.saturating_add(1);
        match told.found {
            Some(found) if found.line == count => {
                if !is_alone(found.wrong) {
                    put(numbers, at, number_of(line));
                }
                told = told.walk.next_fault(text);
            }
            _ => put(numbers, at, number_of(line)),
        }
    }
    count
}

// The longest run that begins with a number above n.
fn best_above(best: &Best, n: u8) -> u8 {
    let mut most: u8 = 0;
    for run in best.each.iter().skip(usize::from(n)) {
        most = most.max(*run);
    }
    most
}

// A run that begins with the number n, which is not 0, and is so long.
fn with_run(best: &mut Best, n: u8, run: u8) {
    if let Some(own) = best.each.get_mut(usize::from(n).wrapping_sub(1)) {
        *own = run.max(*own);
    }
    best.most = best.most.max(run);
}

// The longest run that begins at a line with the number n; none at a line without one.
fn measure_line(n: u8, line: usize, runs: &mut [u8], best: &mut Best) {
    if n == 0 {
        return;
    }
    let above = best_above(best, n);
    if 64 <= above {
        return;
    }
    let run = above + 1;
    put(runs, line, run);
    with_run(best, n, run);
}

// The longest run of rising numbers that begins at each of so many lines, in the bytes of `runs`, which are 0; and the longest of all.
fn measure_runs(numbers: &[u8], count: usize, runs: &mut [u8]) -> u8 {
    let mut best = Best {
        each: [0; MOST_ENTRIES],
        most: 0,
    };
    for i in (0..count).rev() {
        measure_line(byte_at(numbers, i), i, runs, &mut best);
    }
    best.most
}

// Bytes behind the first n of a buffer, if there is room.
fn append(piece: &[u8], out: &mut [u8], n: usize) -> usize {
    let end = n.saturating_add(piece.len());
    let Some(room) = out.get_mut(n..end) else {
        return n;
    };
    room.copy_from_slice(piece);
    end
}

// Whether the rest of the longest run, which is so long, begins with a line that has the number n and begins such a run.
fn is_next(run: u8, n: u8, before: Kept) -> bool {
    (run == before.want) & (before.number < n)
}

// The lines of the first longest run in the first bytes of `out`: how many bytes.
fn keep_lines(text: &[u8], numbers: &[u8], runs: &[u8], longest: u8, out: &mut [u8]) -> usize {
    let mut kept = Kept {
        size: 0,
        want: longest,
        number: 0,
    };
    for (i, line) in text.split_inclusive(|b| *b == b'\n').enumerate() {
        let n = byte_at(numbers, i);
        if is_next(byte_at(runs, i), n, kept) {
            kept = Kept {
                size: append(line, out, kept.size),
                want: kept.want.wrapping_sub(1),
                number: n,
            };
        }
    }
    kept.size
}

// The register of the lines that are not bad by themselves, or, where their numbers do not rise, of the longest rising run of them: of several, the one whose
// lines come first, so that of two lines the one stays that no fault is told of.
pub fn sound_register(text: &[u8]) -> Register {
    let mut numbers = io::large_buffer();
    let count = number_lines(text, &mut numbers);
    let mut runs = io::large_buffer();
    let longest = measure_runs(&numbers, count, &mut runs);
    let mut out = io::large_buffer();
    let n = keep_lines(text, &numbers, &runs, longest, &mut out);
    read_register(first(&out, n))
}
