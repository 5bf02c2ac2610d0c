// A line of decimal numbers, read a byte at a time, in fixed memory, whatever parts its numbers and however long it is.
#![tactic(auto)]

ghost use Rattle.std.specs.Prelude.{◌≡◌, true, List, ◌∷◌, ℕ, ◌<◌};
ghost use Rattle.row.specs.Numbers.{is_digit, value, hold};
ghost use Rattle.row.specs.Meaning.{most_columns, row_is_begun, row_is_whole, row_first_five, RowFollows, RowFresh};

// The most numbers that a line may have.
pub const MOST_COLUMNS: usize = 8;

// Above every limit that a number of a text has.
pub const CEILING: u64 = 1_000_000_000_000;

// Which of the numbers is open, from 0 on; whether it has a digit; what its digits are worth, held once it is past every limit; and the
// numbers before it. `bad`: no bytes can mend the line. What parts the numbers and which is to be the last is not kept: the reader says so
// with every byte, and need not keep it true between two.
#[derive(Clone, Copy)]
pub struct Row {
    pub bad: bool,
    pub digit: bool,
    pub at: usize,
    pub value: u64,
    pub ended: [u64; MOST_COLUMNS - 1],
}

// A number as it is told: one past every limit as 10^12.
pub fn hold(n: u64) -> u64
    ensures { result ≡ hold n }
{
    n.min(CEILING)
}

// Whether a byte is a digit.
pub fn is_digit(b: u8) -> bool
    ensures { result ≡ is_digit b }
{
    b.is_ascii_digit()
}

// What digits are worth with this one behind them. A number past every limit stays so, and need not grow.
pub fn grown(v: u64, b: u8) -> u64
    requires { is_digit b ≡ true }
    ensures { (rest : List ℕ) → hold (value result rest) ≡ hold (value v (b ∷ rest)) }
{
    if CEILING <= v {
        return v;
    }
    v * 10 + u64::from(b - b'0')
}

impl Row {
    // The row before any byte of its line.
    pub fn start() -> Row
        ensures { RowFresh result }
    {
        Row {
            bad: false,
            digit: false,
            at: 0,
            value: 0,
            ended: [0; MOST_COLUMNS - 1],
        }
    }

    // Whether a byte of the line was read.
    pub fn is_begun(self) -> bool
        ensures { result ≡ row_is_begun self }
    {
        self.bad | self.digit | (0 < self.at)
    }

    // The row that no bytes can mend.
    pub fn spoilt(mut self) -> Row
        ensures { result.bad ≡ true }
    {
        self.bad = true;
        self
    }

    // The row after a separator: the open number has ended.
    fn parted(mut self, last: usize) -> Row
        requires { last < most_columns }
        ensures { (separator : ℕ) → RowFollows separator last self separator result }
    {
        if !self.digit {
            return self.spoilt();
        }
        let at = self.at;
        if last <= at {
            return self.spoilt();
        }
        self.ended[at] = hold(self.value);
        self.at = at + 1;
        self.value = 0;
        self.digit = false;
        self
    }

    // The row after a byte of its line, where this separator parts the numbers and the last of them is number `last`, from 0 on.
    pub fn step(mut self, separator: u8, last: usize, b: u8) -> Row
        requires { last < most_columns }
        ensures { RowFollows separator last self b result }
    {
        if b == separator {
            return self.parted(last);
        }
        if !is_digit(b) {
            return self.spoilt();
        }
        self.digit = true;
        self.value = grown(self.value, b);
        self
    }

    // Whether the line has its numbers, if it ends here.
    pub fn is_whole(self, last: usize) -> bool
        ensures { result ≡ row_is_whole self last }
    {
        !self.bad & self.digit & (self.at == last)
    }

    // The first five of the numbers that ended.
    pub fn first_five(self) -> [u64; 5]
        ensures { result ≡ row_first_five self }
    {
        let n = self.ended;
        [n[0], n[1], n[2], n[3], n[4]]
    }
}
