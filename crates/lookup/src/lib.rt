// One key in two books: the record that stands, as it lies in the first or the second book.
#![tactic(auto)]

ghost use Rattle.std.specs.Prelude.{◌≡◌, ◌<◌};
ghost use Rattle.call.specs.Key.{key_of, call_key};
ghost use Rattle.book.specs.Book.{count_at, record_at};
ghost use Rattle.pair.specs.Screening.{IsAccepted};
ghost use Rattle.lookup.specs.Lookup.{index_of, stands_at, choose, which, Found};
ghost use Rattle.lookup.specs.Inner.{HasIndex, Parts};

use book::{count_at, place_of};
use call::RECORD_SIZE;
use call::layout::{call_number_at, participant_at};
use pair::screen;
use rule::{Decision, decide_at};

// Where a record lies: in neither book, or at an index of the first or the second.
// Stays an enum: the three are told side by side, and an Option of a second enum would have two layers for them.
#[derive(Clone, Copy)]
pub enum Place {
    Nowhere,
    InFirst(usize),
    InSecond(usize),
}

// Participant and call number as one number, by which books are searched.
pub fn key_of(participant: u16, number: u32) -> u64
    ensures { result ≡ key_of participant number }
{
    u64::from(participant) * 0x1_0000_0000 + u64::from(number)
}

// The key of record i.
fn key_at(b: &[u8], i: usize) -> u64
    requires accepted { IsAccepted b.now }
    requires i_bound { i < count_at b.now }
    ensures { result ≡ call_key (record_at b.now i) }
{
    let at = place_of(i);
    let participant = participant_at(b, at);
    let number = call_number_at(b, at);
    key_of(participant, number)
}

// How many records of a book have a lower key, by halving: keys rise.
fn lower_than(key: u64, b: &[u8]) -> usize
    requires { IsAccepted b.now }
    ensures { Parts b.now key result result }
{
    let mut low = 0;
    let mut high = count_at(b);
    // Stays a while: the part that is left is halved, so that no step is one.
    while low < high {
        let middle = low + (high - low) / 2;
        if key_at(b, middle) < key {
            low = middle + 1;
        } else {
            high = middle;
        }
    }
    low
}

// The index of the record with a key: that behind all lower ones, if it has it.
pub fn index_of(key: u64, b: &[u8]) -> Option<usize>
    requires { IsAccepted b.now }
    ensures { result ≡ index_of key b.now }
{
    let i = lower_than(key, b);
    if i < count_at(b) {
        if key_at(b, i) == key {
            return Some(i);
        }
    }
    None
}

fn stands_at(decision: Decision, i: usize, j: usize) -> Place
    ensures { result ≡ stands_at decision i j }
{
    match decision {
        Decision::First => Place::InFirst(i),
        Decision::Second => Place::InSecond(j),
        Decision::Struck => Place::Nowhere,
    }
}

fn choose(first: &[u8], i: Option<usize>, second: &[u8], j: Option<usize>) -> Place
    requires accepted { IsAccepted first.now }
    requires accepted_2 { IsAccepted second.now }
    requires has_index { HasIndex first.now i }
    requires has_index_2 { HasIndex second.now j }
    ensures { result ≡ choose first.now i second.now j }
{
    match (i, j) {
        (None, None) => Place::Nowhere,
        (Some(p), None) => Place::InFirst(p),
        (None, Some(q)) => Place::InSecond(q),
        (Some(p), Some(q)) => stands_at(decide_at(first, place_of(p), second, place_of(q)), p, q),
    }
}

// In which book, and at which index, the record that stands lies. Both books are checked whole first.
pub fn which(first: &[u8], second: &[u8], participant: u16, number: u32) -> Place
    ensures { result ≡ which first.now second.now participant number }
{
    let v = screen(first, second);
    if v.number != 0 {
        return Place::Nowhere;
    }
    let key = key_of(participant, number);
    let i = index_of(key, first);
    let j = index_of(key, second);
    choose(first, i, second, j)
}

// The 32 bytes of the record that stands, where they lie, or an empty part.
pub fn find<'a>(first: &'a [u8], second: &'a [u8], participant: u16, number: u32) -> &'a [u8]
    ensures { Found first.entry second.entry participant number result }
{
    match which(first, second, participant, number) {
        Place::Nowhere => &first[0..0],
        Place::InFirst(i) => {
            let a = place_of(i);
            let e = a + RECORD_SIZE;
            &first[a..e]
        }
        Place::InSecond(j) => {
            let a = place_of(j);
            let e = a + RECORD_SIZE;
            &second[a..e]
        }
    }
}
