// The forms of what is told of the drawer, as they are printed.
pub const BEATEN: [u8; 92] =
    *b"[withdrawn|contested] in %1 at revision %n; %2 still has it [live|contested] at revision %n\n";

pub const REVISED: [u8; 41] = *b"revision %n in %1 over revision %n in %2\n";

pub const OVER: [u8; 39] = *b"contested at %n over revision %n in %1\n";

pub const DIFFERING: [u8; 147] =
    *b"contested at %n: %1 and %2 differ in [SERVICE][START][LENGTH][A][B][C][nothing], %i and %i[; a revision %n decides it|; only a withdrawal ends it]\n";

pub const REFUSED_WITH: [u8; 21] = *b"refused with %n at %n";

pub const NO_LINE_FOR: [u8; 21] = *b"no line for member %n";

pub const COUNTED: [u8; 125] =
    *b"stale %n contested %n closed %n against %n unlisted %n register %n series %n ramping %n books %n spare %n part %n sharing %n\n";

pub const UNSETTLED: [u8; 13] = *b"unsettled %n\n";
