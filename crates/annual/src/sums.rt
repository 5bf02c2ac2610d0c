// The sums below a year's table.
ghost use Rattle.std.specs.Prelude.{◌≡◌};
ghost use Rattle.annual.specs.Sums.{year_totals};

use report::totals::{Totals, no_lines, with_line};
use year::{MOST_MEMBERS, MemberYear};

// The sums of all members.
pub fn year_totals(members: &[MemberYear; MOST_MEMBERS]) -> Totals
    ensures { result ≡ year_totals members.now 64 }
{
    let mut t = no_lines();
    for m in members {
        t = with_line(t, m.sums.compensation, m.sums.assessment, m.sums.amount);
    }
    t
}
