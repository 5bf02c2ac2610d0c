// What came out, on standard output.
use call::{CONTESTED, Call, LIVE, WITHDRAWN};
use say::Terminal;
use score::answer::Score;

// A refusal is told apart from a score of nothing.
pub fn score(terminal: &Terminal, name: &[u8], s: Score) {
    say::text(terminal, name);
    if s.number != 0 {
        say::text(terminal, b": refused ");
        say::number(terminal, s.number as u64);
        say::text(terminal, b"\n");
        return;
    }
    say::text(terminal, b": ");
    say::number(terminal, s.grains.0);
    say::text(terminal, b" grains, ");
    say::number(terminal, s.fen.0);
    say::text(terminal, b" fen\n");
}

fn state(terminal: &Terminal, x: Call) {
    match x.state {
        LIVE => say::text(terminal, b": live at "),
        CONTESTED => say::text(terminal, b": contested at "),
        WITHDRAWN => say::text(terminal, b": withdrawn at "),
        _ => say::text(terminal, b": unknown at "),
    }
}

pub fn record(terminal: &Terminal, name: &[u8], x: Call) {
    say::text(terminal, name);
    state(terminal, x);
    say::number(terminal, x.revision as u64);
    say::text(terminal, b"\n");
}
