// How a case spells its text on one line: `/` is a line feed, `%` and two hexadecimal digits any byte, and every other byte itself.
ghost use Rattle.std.specs.Prelude.{◌≡◌, ◌+◌, ◌≤◌, ◌<◌, length};

// A byte, and where the next one is spelled.
#[derive(Clone, Copy)]
pub struct Spelled {
    pub byte: u8,
    pub next: usize,
}

// What a hexadecimal digit is worth, in lower case.
fn worth(text: &[u8], at: usize) -> u8
    ensures { result < 16 }
{
    match text.get(at).copied() {
        Some(b) => if b < b'a' { b % 16 } else { (b % 16 + 9) % 16 },
        None => 0,
    }
}

fn byte_at(text: &[u8], at: usize) -> Spelled
    requires { at < length text.now }
    ensures { (at < result.next) × (result.next ≤ at + 3) }
{
    let b = text[at];
    if b == b'%' {
        return Spelled {
            byte: worth(text, at + 1) * 16 + worth(text, at + 2),
            next: at + 3,
        };
    }
    Spelled {
        byte: if b == b'/' { 10 } else { b },
        next: at + 1,
    }
}

// The text that a case spells from a place on, as far as there is room: how many bytes.
pub fn spell(text: &[u8], from: usize, out: &mut [u8]) -> usize
    ensures { (result ≤ length out.new) × (length out.new ≡ length out.old) }
{
    let mut i = from;
    let mut n = 0;
    // Stays a while: one byte of the text is spelled by one or by three.
    while i < text.len() {
        if n == out.len() {
            return n;
        }
        let s = byte_at(text, i);
        out[n] = s.byte;
        n += 1;
        i = s.next;
    }
    n
}
