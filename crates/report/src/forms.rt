// What the desk says of a month: one page of forms.
pub const ROW: [u8; 122] =
    *b"member %n hours %n points %p compensation %y assessment %y energy %n weight %n share %s uncollected %y given %y amount %s\n";

pub const FOOT: [u8; 76] =
    *b"user amount %s\nall compensation %y assessment %y R %s part %n amounts [-]%y\n";

pub const NO_LINE: [u8; 33] = *b"failed %1: no line for member %n\n";

pub const ABOVE: [u8; 69] =
    *b"member %n: compensation %y yuan, and a line may have at most %y yuan\n";

pub const HOUR: [u8; 29] = *b"hour %n actions %n grains %n\n";

pub const HOURS: [u8; 19] = *b"hours %n grains %n\n";

pub const PART: [u8; 52] = *b"paid[ quarter-hours %n][ rate %n][ wh %i] grains %n\n";

pub const ENERGY: [u8; 25] = *b"[energy wh %i grains %n\n]";

pub const EXPLAINED: [u8; 61] = *b"[ramping hours %n grains %n\n]all grains %n points %p yuan %y\n";
