// What the desk says of a day: one page of forms.
pub const RUN: [u8; 52] = *b"from %t to %t call %n %v output %n minute %n sum %n\n";

pub const MONTH: [u8; 51] = *b"month grains %n (%p points)\nmonth fen %n (%y yuan)\n";
