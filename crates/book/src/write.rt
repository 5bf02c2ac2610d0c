// Writing a book of none or of one: 4, 5, 9, else the book at the start of the output; bytes behind it stay.
ghost use Rattle.std.specs.Prelude.{◌≡◌, [], ◌∷◌};
ghost use Rattle.le.specs.Le.{Stores};
ghost use Rattle.call.specs.Layout.{call_bytes};
ghost use Rattle.call.specs.Limits.{call_is_sound};
ghost use Rattle.book.specs.Book.{header_size, HasHeader, HasRecord, mark_bytes, date_bytes, count_bytes, head_bytes};
ghost use Rattle.book.specs.Write.{fault, book_outcome, writing};

use crate::{FIRST_VERSION, HEADER_SIZE, Header, check_records, size_of};
use call::Call;
use call::layout::put_call;
use le::{put_u8, put_u16, put_u32};
use units::calendar::minutes_of;

// What a writer answers: a refusal's number and place, and zero; or zeros, and the length of the book.
#[derive(Clone, Copy)]
pub struct Written {
    pub number: u32,
    pub place: usize,
    pub length: usize,
}

fn put_mark(out: &mut [u8], h: Header)
    requires { HasHeader out.old }
    ensures { Stores out.old 0 (mark_bytes h) out.new }
{
    put_u8(out, 0, b'N');
    put_u8(out, 1, b'W');
    put_u8(out, 2, b'B');
    put_u8(out, 3, h.area);
}

fn put_date(out: &mut [u8], version: u16, h: Header)
    requires { HasHeader out.old }
    ensures { Stores out.old 4 (date_bytes version h) out.new }
{
    put_u16(out, 4, version);
    put_u16(out, 6, h.year);
    put_u8(out, 8, h.month);
    put_u8(out, 9, 0);
}

fn put_count(out: &mut [u8], n: u16)
    requires { HasHeader out.old }
    ensures { Stores out.old 10 (count_bytes n) out.new }
{
    put_u16(out, 10, n);
    put_u32(out, 12, 0);
}

// The sixteen header bytes.
pub fn put_header(out: &mut [u8], version: u16, h: Header, n: u16)
    requires { HasHeader out.old }
    ensures { Stores out.old 0 (head_bytes version h n) out.new }
{
    put_mark(out, h);
    put_date(out, version, h);
    put_count(out, n);
}

// The record behind the header: the part of the output from byte 16 on is lent to the record writer.
fn put_first(out: &mut [u8], x: Call)
    requires { HasRecord out.old 0 }
    ensures { Stores out.old header_size (call_bytes x) out.new }
{
    put_call(&mut out[HEADER_SIZE..], 0, x);
}

fn fault(h: Header, sound: bool, size: usize, room: usize) -> u32
    ensures { result ≡ fault h sound size room }
{
    if !h.is_sound() {
        return 4;
    }
    if !sound {
        return 5;
    }
    if room < size {
        return 9;
    }
    0
}

// A book of none.
pub fn write_none(h: Header, out: &mut [u8]) -> Written
    ensures { book_outcome result out.new ≡ writing h [] out.old }
{
    let number = fault(h, true, HEADER_SIZE, out.len());
    if number != 0 {
        return Written {
            number,
            place: 0,
            length: 0,
        };
    }
    put_header(out, FIRST_VERSION, h, 0);
    Written {
        number: 0,
        place: 0,
        length: HEADER_SIZE,
    }
}

// Whether a call is sound, judged as a record of a book is: by its bytes, on a page of its own. The table of services is then asked in one
// place, and the compiler sets it into the loop of the check.
fn is_sound_written(x: Call, minutes: u32) -> bool
    ensures { result ≡ call_is_sound minutes x }
{
    let mut page = [0u8; 48];
    put_first(&mut page[..], x);
    let v = check_records(&page[..], 1, minutes);
    v.number == 0
}

// A book of one.
pub fn write_one(h: Header, x: Call, out: &mut [u8]) -> Written
    ensures { book_outcome result out.new ≡ writing h (x ∷ []) out.old }
{
    let sound = is_sound_written(x, minutes_of(h.year, h.month));
    let size = size_of(1);
    let refusal = fault(h, sound, size, out.len());
    if refusal != 0 {
        return Written {
            number: refusal,
            place: 0,
            length: 0,
        };
    }
    put_header(out, FIRST_VERSION, h, 1);
    put_first(out, x);
    Written {
        number: 0,
        place: 0,
        length: size,
    }
}
