// A line of a table, read as its numbers. What follows a `#` is a remark, and every other byte only parts numbers.
ghost use Rattle.std.specs.Prelude.{◌≤◌, length};

// Its numbers, 32 at the most; and the digits that are read of one that has not ended, with a minus or without.
// Stays a flag: the minus stands in front of the first digit, where no number is read yet.
#[derive(Clone, Copy)]
pub struct Numbers {
    pub count: usize,
    values: [u64; 32],
    minus: bool,
    digits: Option<u64>,
}

// How many bytes stand in front of the first b, or how many there are.
pub fn before(text: &[u8], b: u8) -> usize
    ensures { result ≤ length text.now }
{
    text.iter().position(|x| *x == b).unwrap_or(text.len())
}

// A number below zero is its 64 bits, and the lowest 32 of them are those that spell it in a record.
fn signed(minus: bool, value: u64) -> u64 {
    if minus { value.wrapping_neg() } else { value }
}

impl Numbers {
    fn start() -> Numbers {
        Numbers {
            count: 0,
            values: [0; 32],
            minus: false,
            digits: None,
        }
    }

    // Digits past the nineteenth are left out.
    fn with_digit(mut self, digit: u8) -> Numbers {
        let value = self.digits.unwrap_or(0);
        let most = 1_000_000_000_000_000_000;
        self.digits = Some(if value < most {
            value * 10 + u64::from(digit)
        } else {
            value
        });
        self
    }

    // With the number that has just ended among its numbers.
    fn ended(mut self) -> Numbers {
        if let Some(value) = self.digits {
            if self.count < 32 {
                self.values[self.count] = signed(self.minus, value);
                self.count += 1;
            }
        }
        self.digits = None;
        self
    }

    fn step(self, b: u8) -> Numbers {
        if b.is_ascii_digit() {
            return self.with_digit(b - b'0');
        }
        let mut parted = self.ended();
        parted.minus = b == b'-';
        parted
    }

    // A line without its line feed.
    pub fn read(line: &[u8]) -> Numbers {
        let mut numbers = Numbers::start();
        for b in &line[..before(line, b'#')] {
            numbers = numbers.step(*b);
        }
        numbers.ended()
    }

    // The number at a place, from 0 on, and 0 where the line has none.
    pub fn value(self, i: usize) -> u64 {
        self.values.get(i).copied().unwrap_or(0)
    }

    pub fn byte(self, i: usize) -> u8 {
        (self.value(i) % 256) as u8
    }

    pub fn half(self, i: usize) -> u16 {
        (self.value(i) % 65_536) as u16
    }

    pub fn word(self, i: usize) -> u32 {
        (self.value(i) % 4_294_967_296) as u32
    }

    // The number, but no more than it may be.
    pub fn size(self, i: usize, most: usize) -> usize
        ensures { result ≤ most }
    {
        most.min(self.value(i) as usize)
    }
}
