// Services, kinds of plant and months by their words: put into a lent buffer, and read from an argument.
#![tactic(auto)]

ghost use Rattle.std.specs.Prelude.{◌≡◌, ◌+◌, ◌≤◌, length, drop};
ghost use Rattle.render.specs.Inner.{Puts};
ghost use Rattle.names.specs.Names.{skip, word_at, same, place_from, service_of, kind_of, service_word, kind_word, month_word, most_word};
ghost use Rattle.names.specs.Inner.{stepped};

use clock::before;
use render::put_word;

// The services, the kinds of plant and the months, each behind its number of words.
const SERVICES: &[u8] =
    b"none deep-peak reserve start-stop standby black-start agc-availability agc-contribution frequency-event avc stability-trip";

const KINDS: &[u8] =
    b"none coal gas hydro wind photovoltaic solar-thermal pumped-storage new-storage";

const MONTHS: &[u8] =
    b"none January February March April May June July August September October November December";

// How many services and kinds there are.
const MOST_SERVICE: u8 = 10;

const MOST_KIND: u8 = 8;

// So many words are left after a byte.
fn stepped(left: u8, b: u8) -> u8
    ensures { result ≡ stepped left b }
{
    if b == b' ' {
        left.saturating_sub(1)
    } else {
        left
    }
}

// Where the text behind so many words begins.
fn skipped(words: &[u8], n: u8) -> usize
    ensures upper_bound { result ≤ length words.now }
    ensures words_value { drop result words.now ≡ skip words.now n }
{
    let mut left = n;
    for (i, b) in words.iter().enumerate() {
        if left == 0 {
            return i;
        }
        left = stepped(left, *b);
    }
    words.len()
}

// Word n of a text.
fn word_at(words: &[u8], n: u8) -> &[u8]
    ensures { result.now ≡ word_at words.now n }
{
    let at = skipped(words, n);
    before(&words[at..], b' ')
}

// Whether two texts are the same.
pub fn is_same(text: &[u8], name: &[u8]) -> bool
    ensures { result ≡ same text.now name.now }
{
    text == name
}

// Whether a text is word n.
fn is_word_at(words: &[u8], n: u8, text: &[u8]) -> bool
    ensures { result ≡ same text.now (word_at words.now n) }
{
    is_same(text, word_at(words, n))
}

// Which of so many words, from word 1 on, a text is.
fn place_of(words: &[u8], most: u8, text: &[u8]) -> Option<u8>
    requires { most ≤ 10 }
    ensures { result ≡ place_from words.now most 1 text.now }
{
    for n in 1..=most {
        if is_word_at(words, n, text) {
            return Some(n);
        }
    }
    None
}

// The word of a service, a kind or a month, from a place of a buffer on. Each answers the place behind it.
pub fn put_service(out: &mut [u8], at: usize, n: u8) -> usize
    requires { at + most_word ≤ length out.old }
    ensures { Puts most_word out.old at (service_word n) out.new result }
{
    put_word(out, at, word_at(SERVICES, n))
}

pub fn put_kind(out: &mut [u8], at: usize, n: u8) -> usize
    requires { at + most_word ≤ length out.old }
    ensures { Puts most_word out.old at (kind_word n) out.new result }
{
    put_word(out, at, word_at(KINDS, n))
}

pub fn put_month(out: &mut [u8], at: usize, n: u8) -> usize
    requires { at + most_word ≤ length out.old }
    ensures { Puts most_word out.old at (month_word n) out.new result }
{
    put_word(out, at, word_at(MONTHS, n))
}

// The service that a word says.
#[tactic(auto, unfolding(crate::specs::Names::service_of, crate::specs::Names::services))]
pub fn service_of(text: &[u8]) -> Option<u8>
    ensures { result ≡ service_of text.now }
{
    place_of(SERVICES, MOST_SERVICE, text)
}

// The kind that a word says.
#[tactic(auto, unfolding(crate::specs::Names::kind_of, crate::specs::Names::kinds))]
pub fn kind_of(text: &[u8]) -> Option<u8>
    ensures { result ≡ kind_of text.now }
{
    place_of(KINDS, MOST_KIND, text)
}
