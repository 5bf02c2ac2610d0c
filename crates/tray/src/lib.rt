// The drawer's books as files: joined, held against what stands, and which of them add nothing. Any number of books, each read as often as it is asked for.
#![tactic(auto)]

pub mod books;
pub mod keys;
pub mod marks;
pub mod spare;
pub mod why;
