// What scoring answers.
ghost use Rattle.std.specs.Prelude.{◌≡◌};
ghost use Rattle.score.specs.Scoring.{in_fen};

use units::{Fen, Grains};

// A refusal's number and place, otherwise zeros; accepted, both are 0, and grains and fen are the month's.
#[derive(Clone, Copy)]
pub struct Score {
    pub number: u32,
    pub place: usize,
    pub grains: Grains,
    pub fen: Fen,
}

// A member's month before it is money: its grains, to which others may be added, or the refusal's number and place.
#[derive(Clone, Copy)]
pub enum Earned {
    Accepted(Grains),
    Refused(u32, usize),
}

// The month's grains become fen here, once.
#[tactic(auto, unfolding(crate::specs::Scoring::in_fen))]
pub fn in_fen(earned: Earned) -> Score
    ensures { result ≡ in_fen earned }
{
    match earned {
        Earned::Accepted(g) => {
            let fen = g.to_fen();
            Score {
                number: 0,
                place: 0,
                grains: g,
                fen,
            }
        }
        Earned::Refused(number, place) => Score {
            number,
            place,
            grains: Grains(0),
            fen: Fen(0),
        },
    }
}
