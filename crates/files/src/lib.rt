// Whole files: read into a lent buffer; and written by one run at a time, beside the target and then renamed over it. A book and its page of tabs are written together (beside).
#![tactic(auto)]

ghost use Rattle.std.specs.Prelude.{◌≡◌, length};
ghost use Rattle.files.specs.Fits.{Fits, Brings};

use node::{Name, Node, folder_end, joined, led_to, no_text, node_of, open, text_of};
use std::fs::{File, OpenOptions, Permissions};
use std::io::{ErrorKind, Read, Write};
use std::os::unix::fs::PermissionsExt;
use std::rt::HostRuntime;
use std::{fs, io};

pub mod beside;

// Why a file was not read.
#[derive(Clone, Copy)]
pub enum NotLoaded {
    Missing,
    TooLong,
    Failed,
}

// Why a file that was to be written is not held, or not written. The target is as it was, but for `Unsure`, which says that the new file stands and its folder could not be brought to the
// device.
#[derive(Clone, Copy)]
pub enum NotStored {
    BadName,
    Unknown,
    NotRegular,
    ReadOnly,
    Locked,
    Taken,
    NotMade,
    NotWritten,
    NotRenamed,
    Unsure,
}

// A target that this run alone may write: the file .lock beside it is this run's own. Links are followed, so that the target is the file that they lead to; what stands there was asked
// under the lock.
#[derive(Drop)]
pub struct Hold {
    pub target: Name,
    pub node: Node,
    pub file: File,
}

// One read: how many bytes it brought, none at the end of the file. A failed read is no end.
fn read_once(file: &mut File, part: &mut [u8]) -> Result<Option<usize>, NotLoaded>
    ensures { (Brings (length part.old) result) × (length part.new ≡ length part.old) }
{
    match file.read(part) {
        Ok(0) => Ok(None),
        Ok(n) => Ok(Some(n)),
        Err(_) => Err(NotLoaded::Failed),
    }
}

// A file of which n bytes, all that there was room for, are read: one read more tells it from a longer one.
fn probe(file: &mut File, n: usize) -> Result<usize, NotLoaded>
    ensures { Fits n result }
{
    let mut one = [0u8; 1];
    match read_once(file, &mut one)? {
        Some(_) => Err(NotLoaded::TooLong),
        None => Ok(n),
    }
}

// A file's first bytes, as many as there is room for; what is behind them is not looked at.
fn fill_front(file: &mut File, buf: &mut [u8]) -> Result<usize, NotLoaded>
    ensures { Fits (length buf.new) result }
{
    let mut n: usize = 0;
    // Stays a while: each step goes on by as many bytes as a read brought.
    while n < buf.len() {
        let Some(got) = read_once(file, &mut buf[n..])? else {
            return Ok(n);
        };
        n += got;
    }
    Ok(n)
}

fn fill(file: &mut File, buf: &mut [u8]) -> Result<usize, NotLoaded>
    ensures { Fits (length buf.new) result }
{
    let n = fill_front(file, buf)?;
    if buf.len() <= n {
        return probe(file, n);
    }
    Ok(n)
}

// Why a file could not be opened.
fn unopened(error: io::Error) -> NotLoaded {
    if error.kind() == ErrorKind::NotFound {
        return NotLoaded::Missing;
    }
    NotLoaded::Failed
}

// The whole file in the buffer's first bytes, or why not.
pub fn load(rt: HostRuntime, path: &[u8], buf: &mut [u8]) -> Result<usize, NotLoaded>
    ensures { Fits (length buf.new) result }
{
    let mut file = open(rt, path).map_err(unopened)?;
    fill(&mut file, buf)
}

// The file's first bytes, as many as the buffer has room for; a longer file is as one that ends there.
pub fn load_front(rt: HostRuntime, path: &[u8], buf: &mut [u8]) -> Result<usize, NotLoaded>
    ensures { Fits (length buf.new) result }
{
    let mut file = open(rt, path).map_err(unopened)?;
    fill_front(&mut file, buf)
}

// The bytes into the new file, down to the device; it is closed either way.
fn put(file: File, bytes: &[u8]) -> bool {
    let mut new = file;
    let whole = new.write_all(bytes).is_ok();
    let synced = new.sync_all().is_ok();
    whole & synced
}

fn sync_at(rt: HostRuntime, folder: &[u8]) -> bool {
    match open(rt, folder) {
        Ok(file) => file.sync_all().is_ok(),
        Err(_) => false,
    }
}

// The folder's entry for the path, down to the device.
fn sync_folder(rt: HostRuntime, path: &[u8]) -> bool {
    match folder_end(path) {
        0 => sync_at(rt, b"."),
        n => sync_at(rt, &path[..n]),
    }
}

// One name in the other's place; whether it was done.
fn rename(rt: HostRuntime, from: &[u8], to: &[u8]) -> bool {
    let Some(old) = text_of(from) else {
        return false;
    };
    let Some(new) = text_of(to) else {
        return false;
    };
    fs::rename(&rt, old, new).is_ok()
}

// A name goes; whether it was done.
fn unlink(rt: HostRuntime, path: &[u8]) -> bool {
    text_of(path).is_some_and(|name| fs::remove_file(&rt, name).is_ok())
}

// The lock's name, which is the new file's too: it lies in the target's folder, so that it can be renamed.
pub fn lock_of(target: Name) -> Name {
    joined(target.path(), b".lock")
}

// Whether a target may be written, by what stands there: nothing, or a regular file that its owner may write, and, where the file is to be new, nothing alone. Where the system does not
// say what stands there, it may not.
fn judged(new: bool, node: Node) -> Result<(), NotStored> {
    match node {
        Node::Nothing => Ok(()),
        Node::Unknown => Err(NotStored::Unknown),
        Node::There(_) if new => Err(NotStored::Taken),
        Node::There(old) if !old.is_regular() => Err(NotStored::NotRegular),
        Node::There(old) if !old.is_writable() => Err(NotStored::ReadOnly),
        Node::There(_) => Ok(()),
    }
}

// A target's lock goes.
fn unlock(rt: HostRuntime, target: Name) {
    let lock = lock_of(target);
    unlink(rt, lock.path());
}

// The lock goes, and nothing is written.
pub fn release(rt: HostRuntime, hold: Hold) {
    let target = hold.target;
    drop(hold);
    unlock(rt, target);
}

// What stands at the target is asked again under the lock: it may have changed before.
fn under_lock(rt: HostRuntime, new: bool, target: Name, file: File) -> Result<Hold, NotStored> {
    let node = node_of(rt, target.path());
    let hold = Hold { target, node, file };
    if let Err(why) = judged(new, node) {
        release(rt, hold);
        return Err(why);
    }
    Ok(hold)
}

// A new file for writing, of a name that is not there yet.
fn create(rt: HostRuntime, path: &[u8]) -> io::Result<File> {
    let name = text_of(path).ok_or_else(no_text)?;
    OpenOptions::new()
        .write(true)
        .create_new(true)
        .open(&rt, name)
}

// Why a lock could not be made.
fn unmade(error: io::Error) -> NotStored {
    if error.kind() == ErrorKind::AlreadyExists {
        return NotStored::Locked;
    }
    NotStored::NotMade
}

// The lock is made, which fails where it is there: of two runs one alone makes it.
fn lock(rt: HostRuntime, new: bool, target: Name) -> Result<Hold, NotStored> {
    let name = lock_of(target);
    if name.size == 0 {
        return Err(NotStored::BadName);
    }
    let file = create(rt, name.path()).map_err(unmade)?;
    under_lock(rt, new, target, file)
}

// A target by its own name, held until it is stored or released, or why it is not; where it is to be new, nothing may stand there.
fn hold_named(rt: HostRuntime, target: Name, new: bool) -> Result<Hold, NotStored> {
    if target.size == 0 {
        return Err(NotStored::BadName);
    }
    judged(new, node_of(rt, target.path()))?;
    lock(rt, new, target)
}

// The same of the target that a path leads to.
pub fn hold_at(rt: HostRuntime, path: &[u8], new: bool) -> Result<Hold, NotStored> {
    hold_named(rt, led_to(rt, path), new)
}

// A file that is replaced keeps its mode; a new one has what the process's mask left.
fn keep_mode(file: &File, old: Node) -> bool {
    let Node::There(old) = old else {
        return true;
    };
    file.set_permissions(Permissions::from_mode(old.mode & 0o7777))
        .is_ok()
}

// The bytes as the whole new file, with the mode of the old one; it is closed either way.
fn write_new(file: File, old: Node, bytes: &[u8]) -> bool {
    let kept = keep_mode(&file, old);
    let written = put(file, bytes);
    kept & written
}

// The new file over the target, or away. Once it is renamed, the lock's name may be another run's.
fn settle(rt: HostRuntime, target: &[u8], lock: &[u8], written: bool) -> Result<(), NotStored> {
    if !written {
        unlink(rt, lock);
        return Err(NotStored::NotWritten);
    }
    if !rename(rt, lock, target) {
        unlink(rt, lock);
        return Err(NotStored::NotRenamed);
    }
    if sync_folder(rt, target) {
        return Ok(());
    }
    Err(NotStored::Unsure)
}

// The bytes as the whole file that is held. Then it is held no longer.
pub fn store(rt: HostRuntime, hold: Hold, bytes: &[u8]) -> Result<(), NotStored> {
    let Hold { target, node, file } = hold;
    let written = write_new(file, node, bytes);
    let lock = lock_of(target);
    settle(rt, target.path(), lock.path(), written)
}

// The bytes as a new file: a path that names something already keeps it.
pub fn store_new(rt: HostRuntime, path: &[u8], bytes: &[u8]) -> Result<(), NotStored> {
    let held = hold_at(rt, path, true)?;
    store(rt, held, bytes)
}
