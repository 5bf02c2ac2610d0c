// Which arguments name the register, the folder of the series and the first book: of `month`, which has the part before them, and of `explain`.
ghost use Rattle.std.specs.Prelude.{◌<◌, ◌≤◌};

use clerk::args::is_word_at;
use say::Terminal;

pub fn register_at(terminal: &Terminal) -> usize
    ensures { result ≤ 4 }
{
    if is_word_at(terminal, 1, b"month") {
        4
    } else {
        3
    }
}

pub fn folder_at(terminal: &Terminal) -> usize {
    register_at(terminal) + 1
}

pub fn books_at(terminal: &Terminal) -> usize
    ensures { result < 10 }
{
    register_at(terminal) + 2
}
