// The name of a member's ramping file in the folder of the series.
ghost use Rattle.std.specs.Prelude.{◌≡◌};
ghost use Rattle.hours.specs.Name.{ramping_name};

// The member's number in two digits and -ramping.csv, behind a slash.
pub fn ramping_name(member: u16) -> [u8; 15]
    ensures { result ≡ ramping_name member }
{
    let tens = b'0' + (member / 10 % 10) as u8;
    let ones = b'0' + (member % 10) as u8;
    [
        b'/', tens, ones, b'-', b'r', b'a', b'm', b'p', b'i', b'n', b'g', b'.', b'c', b's', b'v',
    ]
}
