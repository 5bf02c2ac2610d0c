// The year at the desk: the statements that `desk month` wrote, taken one by one in the order of the months, and the table of the year.
#![tactic(auto)]

use annual::year_text;
use clerk::args::first;
use clerk::print;
use clerk::shelf::{load_at, note_at, refused_at};
use intake::Intake;
use intake::told::reason_text;
use say::Terminal;

// The argument that names the first statement.
const STATEMENTS: usize = 2;

// Why the statement that argument i names is not taken behind those before it, in words, and its refusal.
fn tell_reason(terminal: &Terminal, i: usize, before: Intake, text: &[u8], place: usize) {
    let year = before.year;
    let mut why = io::buffer();
    let reason = before.reason(text);
    let n = reason_text(before.area, year.year, year.month, reason, &mut why);
    note_at(terminal, i, first(&why, n));
    refused_at(terminal, 10, place, i);
}

// The statement that argument i names, behind those before it; none where it could not be read or was refused, and that was told.
fn next(terminal: &Terminal, i: usize, before: Intake) -> Option<Intake> {
    let mut text = io::large_buffer();
    let n = load_at(terminal, i, &mut text)?;
    let intake = before.with(first(&text, n));
    let year = intake.year;
    if year.number != 0 {
        tell_reason(terminal, i, before, first(&text, n), year.place);
        return None;
    }
    Some(intake)
}

// All statements that are named; none where there is no more to say of them.
fn take_all(terminal: &Terminal) -> Option<Intake> {
    let mut intake = Intake::start();
    for i in STATEMENTS..say::arguments(terminal) {
        intake = next(terminal, i, intake)?;
    }
    Some(intake)
}

// The year of the statements that the arguments name.
pub fn tell_year(terminal: &Terminal) {
    let Some(taken) = take_all(terminal) else {
        return;
    };
    let year = taken.year;
    let mut text = io::large_buffer();
    let n = year_text(taken.area, year, &mut text);
    let mut page = io::large_buffer();
    let end = say::add(terminal, &mut page, 0, first(&text, n));
    print::finish(terminal, &mut page, end);
}
