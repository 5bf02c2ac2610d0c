// A book and the page of tabs beside it: held together, and written together. Two files cannot be replaced in one step. So both new ones are written first; then the old page goes, the
// book is replaced, and the new page comes: a run that is cut off leaves a book with its own page or with none.
use crate::{
    Hold, NotStored, hold_named, lock_of, release, rename, store, sync_folder, unlink, unlock,
    write_new,
};
use node::{Name, Node, joined, node_of};
use std::rt::HostRuntime;

// Why a book and its page that were to be written are not. Up to `PageNotRemoved` both are as they were. Of `NotReplaced` the book is, and it says whether a page was removed; from
// `PageNotPlaced` on the new book stands.
#[derive(Clone, Copy)]
pub enum NotBoth {
    BookNotWritten,
    PageNotWritten,
    PageNotRemoved,
    NotReplaced(bool),
    PageNotPlaced,
    Unsure,
}

// The name of a book's page: beside the file that links lead to. Where the book has no name its page has none.
pub fn page_of(book: Name) -> Name {
    if book.size == 0 {
        return book;
    }
    joined(book.path(), b".tabs")
}

// Whether a name is that of a file, or cannot be looked at.
fn is_something(rt: HostRuntime, name: Name) -> bool {
    !matches!(node_of(rt, name.path()), Node::Nothing)
}

// Whether a book has a page, or one that cannot be looked at.
pub fn has_page(rt: HostRuntime, book: Name) -> bool {
    is_something(rt, page_of(book))
}

// Whether the page of a book that is held takes part in the run. The page's lock is asked for first: a run that has replaced the book, and so lets it go, may still have its page to put
// in place.
pub fn is_paged(rt: HostRuntime, book: &Hold) -> bool {
    if is_something(rt, lock_of(page_of(book.target))) {
        return true;
    }
    has_page(rt, book.target)
}

// The page of a book that is held, held too, by its own name: a link there is not followed. Where there is no book yet, no page may stand there.
pub fn hold_page(rt: HostRuntime, book: &Hold) -> Result<Hold, NotStored> {
    hold_named(rt, page_of(book.target), !book.node.is_there())
}

// The lock's file over the target.
fn place(rt: HostRuntime, target: Name) -> bool {
    let lock = lock_of(target);
    rename(rt, lock.path(), target.path())
}

fn remove(rt: HostRuntime, page: Name) -> bool {
    unlink(rt, page.path())
}

fn sync_beside(rt: HostRuntime, target: Name) -> bool {
    sync_folder(rt, target.path())
}

// Both locks go, and the page's first: who takes the book's finds none of the page.
fn unlock_both(rt: HostRuntime, book: Name, page: Name) {
    unlock(rt, page);
    unlock(rt, book);
}

// The lock's file over the target, once the device has what was done in the folder before: it may bring two changes of a folder down in either order.
fn place_behind(rt: HostRuntime, target: Name) -> bool {
    if !sync_beside(rt, target) {
        return false;
    }
    place(rt, target)
}

// The new book over the old one, once the device has it that the old page is gone.
fn place_book(rt: HostRuntime, book: Name, removed: bool) -> bool {
    if removed {
        return place_behind(rt, book);
    }
    place(rt, book)
}

// The new page beside the new book, once the device has it that the old book is replaced: else the new page could come to stand beside the old book.
fn place_page(rt: HostRuntime, page: Name) -> Result<(), NotBoth> {
    if !place_behind(rt, page) {
        unlock(rt, page);
        return Err(NotBoth::PageNotPlaced);
    }
    if sync_beside(rt, page) {
        return Ok(());
    }
    Err(NotBoth::Unsure)
}

// Both new files in place of the old ones.
fn replace_both(rt: HostRuntime, book: Name, page: Name, old: bool) -> Result<(), NotBoth> {
    if old {
        if !remove(rt, page) {
            unlock_both(rt, book, page);
            return Err(NotBoth::PageNotRemoved);
        }
    }
    if !place_book(rt, book, old) {
        unlock_both(rt, book, page);
        return Err(NotBoth::NotReplaced(old));
    }
    place_page(rt, page)
}

// The bytes as the whole book and the whole page that are held, both with the mode of the book. Then they are held no longer.
pub fn store_both(
    rt: HostRuntime,
    book: Hold,
    page: Hold,
    bytes: &[u8],
    tabs: &[u8],
) -> Result<(), NotBoth> {
    let (target, node) = (book.target, book.node);
    if !write_new(book.file, node, bytes) {
        release(rt, page);
        unlock(rt, target);
        return Err(NotBoth::BookNotWritten);
    }
    let (beside, old) = (page.target, page.node);
    if !write_new(page.file, node, tabs) {
        unlock_both(rt, target, beside);
        return Err(NotBoth::PageNotWritten);
    }
    replace_both(rt, target, beside, old.is_there())
}

// The bytes as the whole page that is held, beside the book that is held and stays: with its mode, and over an old one, since the book is the same. Then neither is held.
pub fn store_page(rt: HostRuntime, book: Hold, page: Hold, tabs: &[u8]) -> Result<(), NotStored> {
    let as_book = Hold {
        target: page.target,
        node: book.node,
        file: page.file,
    };
    let stored = store(rt, as_book, tabs);
    release(rt, book);
    stored
}

// Neither is held any longer, and nothing is written.
pub fn release_both(rt: HostRuntime, book: Hold, page: Hold) {
    release(rt, page);
    release(rt, book);
}
