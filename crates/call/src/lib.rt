// A call of the book: its fields, its key, and what may become of it.
#![tactic(auto)]

ghost use Rattle.std.specs.Prelude.{◌≡◌};
ghost use Rattle.call.specs.Key.{call_key};
ghost use Rattle.call.specs.Revising.{call_revised, call_withdrawn, call_contested, call_struck};

pub mod layout;
pub mod service;

// The states of a record.
pub const LIVE: u8 = 0;

pub const CONTESTED: u8 = 1;

pub const WITHDRAWN: u8 = 2;

// Participants are numbered from 1 to 64.
pub const MOST_PARTICIPANT: u16 = 64;

// The bytes of a record.
pub const RECORD_SIZE: usize = 32;

// The fields in the order of the record's bytes.
#[derive(Clone, Copy, PartialEq, Eq)]
pub struct Call {
    pub participant: u16,
    pub service: u8,
    pub state: u8,
    pub number: u32,
    pub revision: u32,
    pub start: u16,
    pub length: u16,
    pub a: i32,
    pub b: u32,
    pub c: u32,
}

// What a call asks for, apart from its key, its state and its revision.
#[derive(Clone, Copy)]
pub struct Content {
    pub service: u8,
    pub start: u16,
    pub length: u16,
    pub a: i32,
    pub b: u32,
    pub c: u32,
}

impl Call {
    // Participant and call number as one number: keys then compare as numbers do.
    pub fn key(self) -> u64
        ensures { result ≡ call_key self }
    {
        (self.participant as u64) * 0x1_0000_0000 + (self.number as u64)
    }

    // The call with a new revision and new content, live.
    pub fn revised(self, revision: u32, content: Content) -> Call
        ensures { result ≡ call_revised self revision content }
    {
        Call {
            participant: self.participant,
            service: content.service,
            state: LIVE,
            number: self.number,
            revision,
            start: content.start,
            length: content.length,
            a: content.a,
            b: content.b,
            c: content.c,
        }
    }

    // Key and revision alone, withdrawn.
    pub fn withdrawn(self) -> Call
        ensures { result ≡ call_withdrawn self }
    {
        self.struck(WITHDRAWN)
    }

    // Key and revision alone, contested.
    pub fn contested(self) -> Call
        ensures { result ≡ call_contested self }
    {
        self.struck(CONTESTED)
    }

    fn struck(self, state: u8) -> Call
        ensures { result ≡ call_struck state self }
    {
        Call {
            participant: self.participant,
            service: 0,
            state,
            number: self.number,
            revision: self.revision,
            start: 0,
            length: 0,
            a: 0,
            b: 0,
            c: 0,
        }
    }
}
