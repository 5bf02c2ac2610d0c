// What a path names: where links lead, and what the system says of the file there, as plain numbers.
#![tactic(auto)]

ghost use Rattle.std.specs.Prelude.{◌≤◌, length, take, ◌≡◌};

use std::fs::{File, Metadata};
use std::io::ErrorKind;
use std::os::unix::fs::MetadataExt;
use std::path::PathBuf;
use std::rt::HostRuntime;
use std::{fs, io, str};

// What the system says of a name, links followed: what stands there, that nothing does, or neither: then there may be something.
// Stays an enum: three cases, which a Result of an Option would have in two steps.
#[derive(Clone, Copy)]
pub enum Node {
    There(Stat),
    Nothing,
    Unknown,
}

// Of what stands at a name its kind and mode, and which file it is.
#[derive(Clone, Copy)]
pub struct Stat {
    pub mode: u32,
    pub device: u64,
    pub inode: u64,
}

// A path in an array's first bytes. No path has no bytes, so that a size of 0 is that of none.
// Stays a flag: a name is 4 KiB, and an Option of it would be copied once more at each step of a link (the stack is held to bounds).
#[derive(Clone, Copy)]
pub struct Name {
    pub bytes: [u8; PATH_MAX],
    pub size: usize,
}

// The system's longest path, the zero behind it included.
pub const PATH_MAX: usize = 4096;

// As many links in a row as the system follows.
const MOST_LINKS: usize = 40;

const LAST: usize = PATH_MAX - 1;

// The bits of a mode that say what kind of file it is, and those of a file of bytes.
const KIND: u32 = 0o170000;

const REGULAR: u32 = 0o100000;

impl Stat {
    // A file of bytes, and not a folder, a device or a pipe.
    pub fn is_regular(self) -> bool {
        self.mode & KIND == REGULAR
    }

    // Whether its owner may write it.
    pub fn is_writable(self) -> bool {
        self.mode & 0o200 != 0
    }
}

impl Node {
    // Whether something is known to stand there.
    pub fn is_there(self) -> bool {
        matches!(self, Node::There(_))
    }

    // Two names are one file where device and inode agree.
    // Stays by hand: the mode is no part of which file it is, and == would compare it too.
    pub fn is_same(self, other: Node) -> bool {
        match (self, other) {
            (Node::There(one), Node::There(two)) => {
                (one.device == two.device) & (one.inode == two.inode)
            }
            _ => false,
        }
    }
}

impl Name {
    // The path's own bytes.
    pub fn path(&self) -> &[u8] {
        first(&self.bytes, self.size)
    }
}

// Whether an error says that a path names nothing: no such name, a folder on the way that is none, or a name longer than any is.
fn is_none(kind: ErrorKind) -> bool {
    matches!(
        kind,
        ErrorKind::NotFound | ErrorKind::NotADirectory | ErrorKind::InvalidFilename
    )
}

// What the system answered of a name.
fn told(answer: io::Result<Metadata>) -> Node {
    match answer {
        Ok(node) => Node::There(Stat {
            mode: node.mode(),
            device: node.dev(),
            inode: node.ino(),
        }),
        Err(error) if is_none(error.kind()) => Node::Nothing,
        Err(_) => Node::Unknown,
    }
}

// A path as the library takes it: as text.
pub fn text_of(path: &[u8]) -> Option<&str> {
    str::from_utf8(path).ok()
}

// What is said of a path that is no text.
pub fn no_text() -> io::Error {
    io::Error::from(ErrorKind::InvalidFilename)
}

// A file opened for reading.
pub fn open(rt: HostRuntime, path: &[u8]) -> io::Result<File> {
    File::open(&rt, text_of(path).ok_or_else(no_text)?)
}

// What the system says of a path; of one that is too long, that there is nothing. Of a path that is no text the library cannot ask.
pub fn node_of(rt: HostRuntime, path: &[u8]) -> Node {
    if LAST < path.len() {
        return Node::Nothing;
    }
    match text_of(path) {
        Some(text) => told(fs::metadata(&rt, text)),
        None => Node::Unknown,
    }
}

fn no_name() -> Name {
    Name {
        bytes: [0; PATH_MAX],
        size: 0,
    }
}

// The first n bytes, or all where they are no more.
pub fn first(bytes: &[u8], n: usize) -> &[u8]
    ensures { result.now ≡ take n bytes.now }
{
    if n < bytes.len() {
        return &bytes[..n];
    }
    bytes
}

// The bytes over the first ones of a buffer, as many as there is room for. Gives how many.
pub fn copy(from: &[u8], to: &mut [u8]) -> usize
    ensures fits { result ≤ length to.new }
    ensures same { length to.new ≡ length to.old }
{
    let some = first(from, to.len());
    let n = some.len();
    to[..n].copy_from_slice(some);
    n
}

// Where a byte first stands from one place up to another; the other where it does not.
pub fn find(bytes: &[u8], from: usize, to: usize, byte: u8) -> usize
    requires order { from ≤ to }
    requires inside { to ≤ length bytes.now }
    ensures behind { from ≤ result }
    ensures within { result ≤ to }
{
    match bytes[from..to].iter().position(|b| *b == byte) {
        Some(k) => from + k,
        None => to,
    }
}

// One text behind the other, as a name; none where that is too long for a path.
pub fn joined(one: &[u8], two: &[u8]) -> Name {
    let n = one.len();
    let m = two.len();
    if LAST < n {
        return no_name();
    }
    if LAST - n < m {
        return no_name();
    }
    let mut bytes = [0u8; PATH_MAX];
    copy(one, &mut bytes);
    copy(two, &mut bytes[n..]);
    Name { bytes, size: n + m }
}

// How long a path's folder part is, its last slash included; 0 where there is none.
pub fn folder_end(path: &[u8]) -> usize
    ensures { result ≤ length path.now }
{
    match path.iter().rposition(|b| *b == b'/') {
        Some(last) => last + 1,
        None => 0,
    }
}

// What became of asking for a link's text, which is put in the buffer's first bytes: how long it is, 0 where the system says that there is none. One that the library cannot take (there is no
// memory for it, or it is no text) is as long as the buffer, as that of no link is: it leads to no name.
fn link_text(answer: io::Result<PathBuf>, text: &mut [u8]) -> usize {
    match answer {
        Ok(path) => copy(path.as_str().as_bytes(), text),
        Err(error) if error.raw_os_error().is_some() => 0,
        Err(_) => text.len(),
    }
}

// The text of the link that a path names, in the buffer's first bytes: how long it is, 0 where the path names no link.
fn link_of(rt: HostRuntime, path: &[u8], text: &mut [u8]) -> usize {
    if LAST < path.len() {
        return 0;
    }
    text_of(path).map_or(0, |name| link_text(fs::read_link(&rt, name), text))
}

// Where a link leads: its text is a path from the root, or from the folder that the link is in.
fn led(path: &[u8], text: &[u8]) -> Name {
    match text {
        [] => no_name(),
        [b'/', ..] => joined(b"", text),
        _ => joined(&path[..folder_end(path)], text),
    }
}

// One link followed; a name that is no link stays.
fn follow(rt: HostRuntime, name: Name) -> Name {
    let mut text = [0u8; PATH_MAX];
    match link_of(rt, name.path(), &mut text) {
        0 => name,
        n => led(name.path(), first(&text, n)),
    }
}

// The name itself, or none where it is a link still: its links lead round.
fn unlinked(rt: HostRuntime, name: Name) -> Name {
    if is_link(rt, name.path()) {
        return no_name();
    }
    name
}

// The name of the file that a path leads to, all links followed, whether the file is there or not; none where that name is too long or the links lead round.
pub fn led_to(rt: HostRuntime, path: &[u8]) -> Name {
    let mut name = joined(path, b"");
    for _ in 0..MOST_LINKS {
        name = follow(rt, name);
    }
    unlinked(rt, name)
}

// Whether the system says that nothing has this name, not even a link that leads nowhere.
pub fn is_absent(rt: HostRuntime, path: &[u8]) -> bool {
    if LAST < path.len() {
        return false;
    }
    let Some(name) = text_of(path) else {
        return false;
    };
    match fs::read_link(&rt, name) {
        Ok(_) => false,
        Err(error) => error.kind() == ErrorKind::NotFound,
    }
}

// Whether this is the name of a link, wherever it leads.
pub fn is_link(rt: HostRuntime, path: &[u8]) -> bool {
    let mut text = [0u8; PATH_MAX];
    0 < link_of(rt, path, &mut text)
}
