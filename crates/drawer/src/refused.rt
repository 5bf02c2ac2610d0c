// A member's records that scoring would refuse: 14, 12 and 13, all of them.
ghost use Rattle.std.specs.Prelude.{◌≡◌, ◌≤◌, length};
ghost use Rattle.call.specs.Revising.{withdrawn};
ghost use Rattle.book.specs.Book.{HasRecord, size_of, record_at};
ghost use Rattle.book.specs.Check.{check, accepted};
ghost use Rattle.score.specs.Refusing.{refusal_at};
ghost use Rattle.score.specs.Scoring.{month_at};
ghost use Rattle.score.specs.Inner.{NoneBefore};
ghost use Rattle.drawer.specs.Refused.{first_against, refused_at, refused_of, first_refusal, next_refused};

use book::{check, count_at, header_at, record_at};
use call::{Call, LIVE};
use pay::Member;
use pay::open::Month;
use score::refusal::{clashes, first_own, idle_refusal, refusal_at};

// A record that scoring would refuse: its index, the number, and the index of the first earlier call that stands against it, or its own
// where none does.
#[derive(Clone, Copy)]
pub struct RefusedRecord {
    pub place: usize,
    pub number: u32,
    pub against: usize,
}

// The next such record; none; or a book that its check refuses, by number and place.
#[derive(Clone, Copy)]
pub enum NextRefused {
    BadBook(u32, usize),
    NoneLeft,
    Next(RefusedRecord),
}

// The first record before record i that stands against x, or i.
// Stays two functions: `against::clash_place` is asked of any bytes and of the record's own member, this one of a sound book and a member that is given.
fn first_against(b: &[u8], i: usize, number: u16, x: Call) -> usize
    requires { size_of i ≤ length b.now }
    ensures { result ≡ first_against number x (record_at b.now) i }
{
    for j in 0..i {
        if clashes(number, x, record_at(b, j)) {
            return j;
        }
    }
    i
}

// The refusal of record i, or 0; no record before `first` is the member's.
fn refusal_of(month: Month, member: Member, b: &[u8], first: usize, i: usize) -> u32
    requires has_record { HasRecord b.now i }
    requires i_bound { (record_at b.now i).state ≤ withdrawn }
    requires none_before { NoneBefore member.number (record_at b.now) first }
    ensures { result ≡ refusal_at month member (record_at b.now) i }
{
    let x = record_at(b, i);
    if (x.participant == member.number) & (x.state == LIVE) {
        return refusal_at(month, member, b, first, i, x);
    }
    idle_refusal(member.number, x)
}

// What is told of record i, which is refused with a number.
fn refused_at(member: Member, b: &[u8], i: usize, number: u32) -> RefusedRecord
    requires has_record { HasRecord b.now i }
    requires number_value { number ≡ refusal_at (month_at b.now) member (record_at b.now) i }
    ensures { result ≡ refused_at member b.now i }
{
    let x = record_at(b, i);
    let against = first_against(b, i, member.number, x);
    RefusedRecord {
        place: i,
        number,
        against,
    }
}

// The next one from record i on, of a sound book.
fn refused_from(member: Member, b: &[u8], i: usize) -> NextRefused
    requires { check b.now ≡ accepted }
    ensures { result ≡ first_refusal (refused_of member b.now i) }
{
    let h = header_at(b);
    let month = Month {
        year: h.year,
        month: h.month,
    };
    let n = count_at(b);
    let first = first_own(b, n, member.number);
    for at in i..n {
        let number = refusal_of(month, member, b, first, at);
        if number != 0 {
            let told = refused_at(member, b, at, number);
            return NextRefused::Next(told);
        }
    }
    NextRefused::NoneLeft
}

// The member's next record, from record i on, that scoring would refuse. The book is checked whole first.
pub fn next_refused(member: Member, b: &[u8], i: usize) -> NextRefused
    ensures { result ≡ next_refused member b.now i }
{
    let v = check(b);
    let number = v.number;
    if number != 0 {
        return NextRefused::BadBook(number, v.place);
    }
    refused_from(member, b, i)
}
