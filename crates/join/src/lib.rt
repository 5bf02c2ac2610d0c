// Joining two books: straight from two books of bytes into a third.
#![tactic(auto)]

ghost use Rattle.std.specs.Prelude.{◌≡◌, List, ℕ, ◌+◌, ◌-◌, ◌<◌, ◌≤◌, length};
ghost use Rattle.le.specs.Le.{Stores};
ghost use Rattle.call.specs.Layout.{record_size, call_at, call_bytes};
ghost use Rattle.book.specs.Book.{most_keys, size_of, place_of};
ghost use Rattle.rule.specs.Standing.{given};
ghost use Rattle.pair.specs.Screening.{IsAccepted};
ghost use Rattle.join.specs.Turns.{turns_run, begun, ran};
ghost use Rattle.join.specs.Joining.{join_outcome, join_refused, keys_of_both, overflow, pair_version, joined_book, join_sound, joining};
ghost use Rattle.join.specs.Steps.{RecordLies, Spells, word_bytes, KeyCounted, ReadTo, TurnTaken, TurnsTaken, LastTurn, LastTurns, over};

use book::write::put_header;
use book::{
    FIRST_VERSION, HEADER_SIZE, MOST_RECORDS, SECOND_VERSION, Verdict, count_at, header_at,
    most_records, refused, size_of, version_at,
};
use call::RECORD_SIZE;
use call::layout::{call_at, put_call};
use le::{put_u64, u64_at};
use pair::{precedes, screen};
use rule::{Decision, decide_at};

// A refusal's number and place, or zeros, the length of the joined book, and the turns that the join took.
#[derive(Clone, Copy)]
pub struct Joined {
    pub number: u32,
    pub place: usize,
    pub length: usize,
    pub turns: usize,
}

// The places of the next records in both books.
#[derive(Clone, Copy)]
pub struct Next {
    pub first: usize,
    pub second: usize,
}

// Behind the lower key, or behind both where they are equal.
fn next_from(first: &[u8], a: usize, second: &[u8], b: usize) -> Next
    requires record_size_in_bounds { a + record_size ≤ length first.now }
    requires record_size_in_bounds_2 { b + record_size ≤ length second.now }
    ensures { KeyCounted first.now a second.now b result }
{
    let lower = precedes(first, a, second, b);
    if lower {
        let p = a + RECORD_SIZE;
        return Next {
            first: p,
            second: b,
        };
    }
    let upper = precedes(second, b, first, a);
    if upper {
        let q = b + RECORD_SIZE;
        return Next {
            first: a,
            second: q,
        };
    }
    let p = a + RECORD_SIZE;
    let q = b + RECORD_SIZE;
    Next {
        first: p,
        second: q,
    }
}

// How many different keys the books have: a step for each key while both books have records, and then the rest of one book.
fn keys_of_both(first: &[u8], second: &[u8]) -> usize
    requires accepted { IsAccepted first.now }
    requires accepted_2 { IsAccepted second.now }
    ensures { result ≡ keys_of_both first.now second.now }
{
    let e = size_of(count_at(first));
    let f = size_of(count_at(second));
    let mut a = HEADER_SIZE;
    let mut b = HEADER_SIZE;
    let mut k = 0;
    // Stays a while: a step goes on in one book or in both, by their keys.
    while (a < e) & (b < f) {
        let s = next_from(first, a, second, b);
        a = s.first;
        b = s.second;
        k += 1;
    }
    k + (e - a) / RECORD_SIZE + (f - b) / RECORD_SIZE
}

// The 32 bytes of a record, eight at a time, since a join copies every record.
// Stays by hand: `copy_from_slice` takes 13 instructions more for each record, a fifth of a join of two books that have no key in common.
#[derive(Clone, Copy)]
pub struct Words {
    pub who: u64,
    pub time: u64,
    pub terms: u64,
    pub rest: u64,
}

fn words_at(s: &[u8], at: usize) -> Words
    requires { at + record_size ≤ length s.now }
    ensures { Spells s.now at result }
{
    let who = u64_at(s, at);
    let time = u64_at(s, at + 8);
    let terms = u64_at(s, at + 16);
    let rest = u64_at(s, at + 24);
    Words {
        who,
        time,
        terms,
        rest,
    }
}

fn put_words(out: &mut [u8], at: usize, w: Words)
    requires { at + record_size ≤ length out.old }
    ensures { Stores out.old at (word_bytes w) out.new }
{
    put_u64(out, at, w.who);
    put_u64(out, at + 8, w.time);
    put_u64(out, at + 16, w.terms);
    put_u64(out, at + 24, w.rest);
}

// The 32 bytes of a sound record as they lie: they are the record's one encoding.
fn copy_record(s: &[u8], from: usize, out: &mut [u8], at: usize)
    requires record_lies { RecordLies s.now from }
    requires record_size_in_bounds { at + record_size ≤ length out.old }
    ensures { Stores out.old at (call_bytes (call_at s.now from)) out.new }
{
    let w = words_at(s, from);
    put_words(out, at, w);
}

// The record that a decision gives.
fn put_given(
    decision: Decision,
    first: &[u8],
    a: usize,
    second: &[u8],
    b: usize,
    out: &mut [u8],
    at: usize,
)
    requires record_lies { RecordLies first.now a }
    requires record_lies_2 { RecordLies second.now b }
    requires record_size_in_bounds { at + record_size ≤ length out.old }
    ensures { Stores out.old at
        (call_bytes (given decision (call_at first.now a) (call_at second.now b)))
        out.new }
{
    match decision {
        Decision::First => copy_record(first, a, out, at),
        Decision::Second => copy_record(second, b, out, at),
        Decision::Struck => put_call(out, at, call_at(first, a).contested()),
    }
}

// How far a join has come: the places of the next records of both books, and how many turns it has taken.
#[derive(Clone, Copy)]
pub struct Reached {
    pub first: usize,
    pub second: usize,
    pub turns: usize,
}

// A turn while both books have records: the record of the lower key, or of the key that both have, to its place behind those written.
fn put_next(first: &[u8], a: usize, second: &[u8], b: usize, out: &mut [u8], t: usize) -> Reached
    requires read_to { ReadTo first.now a }
    requires read_to_2 { ReadTo second.now b }
    requires a_in_bounds { a < length first.now }
    requires b_in_bounds { b < length second.now }
    requires record_size_in_bounds { place_of t + record_size ≤ length out.old }
    ensures { TurnTaken first.now a second.now b out.old t result out.new }
{
    let at = HEADER_SIZE + RECORD_SIZE * t;
    let turns = t + 1;
    let lower = precedes(first, a, second, b);
    if lower {
        copy_record(first, a, out, at);
        return Reached {
            first: a + RECORD_SIZE,
            second: b,
            turns,
        };
    }
    let upper = precedes(second, b, first, a);
    if upper {
        copy_record(second, b, out, at);
        return Reached {
            first: a,
            second: b + RECORD_SIZE,
            turns,
        };
    }
    let decision = decide_at(first, a, second, b);
    put_given(decision, first, a, second, b, out, at);
    Reached {
        first: a + RECORD_SIZE,
        second: b + RECORD_SIZE,
        turns,
    }
}

// Turn by turn while both books have records.
fn put_both(first: &[u8], second: &[u8], out: &mut [u8]) -> Reached
    requires accepted { IsAccepted first.now }
    requires accepted_2 { IsAccepted second.now }
    requires second_in_bounds { size_of (keys_of_both first.now second.now) ≤ length out.old }
    ensures { TurnsTaken first.now second.now out.old result out.new }
{
    let n = count_at(first);
    let e = size_of(n);
    let m = count_at(second);
    let f = size_of(m);
    let mut a = HEADER_SIZE;
    let mut b = HEADER_SIZE;
    let mut turns = 0;
    // Stays a while: a turn takes from one book or from both, by their keys.
    while (a < e) & (b < f) {
        let s = put_next(first, a, second, b, out, turns);
        a = s.first;
        b = s.second;
        turns = s.turns;
    }
    Reached {
        first: a,
        second: b,
        turns,
    }
}

// A turn where the other book is used up: no key is compared, and the next record goes to its place. Answers with the turns so far.
fn put_last(s: &[u8], a: usize, out: &mut [u8], turns: usize) -> usize
    requires read_to { ReadTo s.now a }
    requires a_in_bounds { a < length s.now }
    requires record_size_in_bounds { place_of turns + record_size ≤ length out.old }
    ensures { LastTurn s.now a out.old turns result out.new }
{
    copy_record(s, a, out, HEADER_SIZE + RECORD_SIZE * turns);
    turns + 1
}

// Turn by turn through the rest of a book, from a place on, where the other is used up. Answers with the turns so far.
fn put_rest(s: &[u8], from: usize, out: &mut [u8], before: usize) -> usize
    requires read_to { ReadTo s.now from }
    requires from_in_bounds { place_of before + (length s.now - from) ≤ length out.old }
    ensures { LastTurns s.now from out.old before (length s.now) result out.new }
{
    let e = size_of(count_at(s));
    let mut a = from;
    let mut turns = before;
    // Stays a while: a step is a record's 32 bytes, and must-fail/writes_nothing quotes it.
    while a < e {
        turns = put_last(s, a, out, turns);
        a += RECORD_SIZE;
    }
    turns
}

// Turn by turn until no key is left. Answers with how many turns it took.
fn put_records(first: &[u8], second: &[u8], out: &mut [u8]) -> usize
    requires accepted { IsAccepted first.now }
    requires accepted_2 { IsAccepted second.now }
    requires second_in_bounds { size_of (keys_of_both first.now second.now) ≤ length out.old }
    ensures { turns_run result (begun first.now second.now out.old) ≡ over out.new result }
{
    let b = put_both(first, second, out);
    let i = b.first;
    let j = b.second;
    let turns = put_rest(first, i, out, b.turns);
    put_rest(second, j, out, turns)
}

// The version of what books of two versions give together, with so many keys.
fn pair_version(first: u16, second: u16, keys: usize) -> u16
    ensures { result ≡ pair_version first second keys }
{
    if (first == FIRST_VERSION)
        & (second == FIRST_VERSION)
        & (keys <= most_records(FIRST_VERSION))
    {
        return FIRST_VERSION;
    }
    SECOND_VERSION
}

// The joined book: its records, turn by turn, and then the header, which has their number. Answers with the turns.
fn put_book(first: &[u8], second: &[u8], out: &mut [u8]) -> usize
    requires accepted { IsAccepted first.now }
    requires accepted_2 { IsAccepted second.now }
    requires second_bound { keys_of_both first.now second.now ≤ most_keys }
    requires second_in_bounds { size_of (keys_of_both first.now second.now) ≤ length out.old }
    ensures { (result ≡ (ran first.now second.now out.old).turns)
        × Stores out.old 0 (joined_book first.now second.now) out.new }
{
    let turns = put_records(first, second, out);
    let version = pair_version(version_at(first), version_at(second), turns);
    let count = turns as u16;
    put_header(out, version, header_at(first), count);
    turns
}

// 8 and 9. The keys are counted only where the records of both books together are too many, or too long for the output.
pub fn overflow(first: &[u8], second: &[u8], room: usize) -> Verdict
    requires accepted { IsAccepted first.now }
    requires accepted_2 { IsAccepted second.now }
    ensures { result ≡ overflow (keys_of_both first.now second.now) room }
{
    let n = count_at(first);
    let m = count_at(second);
    let most = n + m;
    if most <= MOST_RECORDS {
        if size_of(most) <= room {
            return refused(0, 0);
        }
    }
    let keys = keys_of_both(first, second);
    if MOST_RECORDS < keys {
        return refused(8, 0);
    }
    if room < size_of(keys) {
        return refused(9, 0);
    }
    refused(0, 0)
}

pub fn join_refused(v: Verdict) -> Joined
    ensures { (out : List ℕ) → join_outcome result out ≡ join_refused v out }
{
    Joined {
        number: v.number,
        place: v.place,
        length: 0,
        turns: 0,
    }
}

// Two books that were found sound and of one month and area, joined into the output: 8, 9, or the joined book at its start.
pub fn join_sound(first: &[u8], second: &[u8], out: &mut [u8]) -> Joined
    requires accepted { IsAccepted first.now }
    requires accepted_2 { IsAccepted second.now }
    ensures { join_outcome result out.new ≡ join_sound first.now second.now out.old }
{
    let w = overflow(first, second, out.len());
    if w.number != 0 {
        return join_refused(w);
    }
    let turns = put_book(first, second, out);
    let size = size_of(turns);
    Joined {
        number: 0,
        place: 0,
        length: size,
        turns,
    }
}

// Any two books joined into the output: refused by number and place, or the joined book at its start.
pub fn join(first: &[u8], second: &[u8], out: &mut [u8]) -> Joined
    ensures { join_outcome result out.new ≡ joining first.now second.now out.old }
{
    let v = screen(first, second);
    if v.number != 0 {
        return join_refused(v);
    }
    join_sound(first, second, out)
}
