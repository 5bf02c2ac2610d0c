// Why scoring turns a call away, in words.
ghost use Rattle.std.specs.Prelude.{◌≡◌, ◌<◌};
ghost use Rattle.book.specs.Book.{count_at};
ghost use Rattle.book.specs.Check.{accepted, check};

use against::clash_place;
use book::{Header, call_of, header_of};
use call::Call;
use clerk::print;
use pay::Member;
use say::Terminal;

// The earlier call that stands against x, call i of a sound book.
fn tell_clash(terminal: &Terminal, book: &[u8], i: usize, x: Call)
    requires book_value { check book.now ≡ accepted }
    requires i_bound { i < count_at book.now }
{
    let j = clash_place(book, i);
    if j < i {
        print::clash(terminal, x, call_of(book, j));
    }
}

// Call i of a sound book, and why it is refused with 12, 13 or 14 for a member.
fn tell_call(terminal: &Terminal, book: &[u8], i: usize, number: u32, m: Member, h: Header)
    requires book_value { check book.now ≡ accepted }
    requires i_bound { i < count_at book.now }
{
    let x = call_of(book, i);
    print::call(terminal, x);
    match number {
        12 => print::not_open(terminal, x, m.kind, m.rated, h),
        13 => tell_clash(terminal, book, i, x),
        14 => print::contested(terminal, x),
        _ => {}
    }
}

// The same of a call of any book: nothing, where the book is not sound or has no such call.
pub fn tell_away(terminal: &Terminal, book: &[u8], i: usize, number: u32, m: Member) {
    let o = header_of(book);
    if o.number != 0 {
        return;
    }
    if i < o.calls {
        tell_call(terminal, book, i, number, m, o.header);
    }
}
