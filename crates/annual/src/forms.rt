// The forms of a year's table, as they are printed.
pub const HEAD: [u8; 26] = *b"area %n year %n months %n\n";

pub const MEMBER: [u8; 155] =
    *b"member %n months[ Jan][ Feb][ Mar][ Apr][ May][ Jun][ Jul][ Aug][ Sep][ Oct][ Nov][ Dec] compensation %y assessment %y share %s amount %s largest %s in %m\n";

pub const FOOT: [u8; 63] = *b"user amount %s\nall compensation %y assessment %y amounts [-]%y\n";
