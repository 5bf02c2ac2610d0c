// The sums that the paper works through. The program runs each through the exported operations and prints what came out. Those that the paper
// marks are proved too: they stand as one table in specs/Worked.antt, beside two books that have too many keys together (specs/Crowded.antt).
#![tactic(auto)]

mod joins;
mod scores;
mod shares;
mod tell;

use say::Terminal;
use std::rt::HostRuntime;

fn main(rt: HostRuntime) {
    let terminal = Terminal::new(rt);
    scores::windows(&terminal);
    scores::rates(&terminal);
    scores::wind(&terminal);
    scores::events(&terminal);
    joins::all(&terminal);
    shares::grains(&terminal, 29_999);
    shares::grains(&terminal, 30_000);
    shares::three_equal(&terminal);
    shares::statement(&terminal);
    shares::parts(&terminal);
}
