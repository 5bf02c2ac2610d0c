// The messages, each as a form; what the marks mean is said in form. A line of a statement, `%n %i %i`, is put by sharing.

// Sharing: a refusal, R, the user's amount.
pub const REFUSED: [u8; 14] = *b"refused %n %n\n";

pub const TOTAL: [u8; 9] = *b"total %i\n";

pub const USER: [u8; 8] = *b"user %i\n";

// What became of a command.
pub const REFUSED_ABOUT: [u8; 17] = *b"refused %n %n %1\n";

pub const FAILED: [u8; 16] = *b"failed [%1: ]%2\n";

pub const BAD_ARGUMENT: [u8; 27] = *b"failed argument %n, %1: %2\n";

pub const NO_NUMBER: [u8; 43] = *b"failed argument %n, %1: no number up to %n\n";

pub const TAKES: [u8; 66] = *b"failed %1: takes %n[ to %n] word[s][ or more] behind it, %n given\n";

pub const NOTE: [u8; 7] = *b"%1: %2\n";

pub const TURNS: [u8; 13] = *b"%1: %n turns\n";

// A page of tabs that does not fit its book, one that was removed, one that could not be put in place: the page's name, and the book's.
pub const UNFIT: [u8; 66] = *b"%1: does not fit %2 from member %n on: desk tabs %2 makes it anew\n";

pub const REMOVED: [u8; 43] = *b"%1: is removed: desk tabs %2 makes it anew\n";

pub const UNPLACED: [u8; 85] =
    *b"failed %1: could not be put in place; %2 is written, and desk tabs %2 makes its page\n";

pub const USAGE: [u8; 8] = *b"desk %1\n";

pub const UNCHANGED: [u8; 13] = *b"unchanged %1\n";

pub const NOT_HIGHER: [u8; 46] = *b"unchanged revision %n stands, give %n or more\n";

// Records: a call, a book's header, the same with its version, a member's tab, a member's score.
pub const CALL: [u8; 125] =
    *b"[first ][second ]member %n call %n revision %n[ live %v start %n (%d) length %n (%l) a %i b %n c %n][ contested][ withdrawn]\n";

pub const HEADER: [u8; 34] = *b"area %n year %n month %n calls %n\n";

pub const BOOK: [u8; 46] = *b"area %n year %n month %n calls %n[ version 2]\n";

pub const TAB: [u8; 53] = *b"member %n calls %n live %n contested %n withdrawn %n\n";

pub const SCORE: [u8; 17] = *b"grains %n\nfen %n\n";
