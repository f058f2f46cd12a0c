//! A disk in memory: a folder with room for a journal and what stands beside it.

use std::alloc::Global;
use std::cell::{RefCell, RefMut};
use std::fs::OpenOptions;
use std::io;
use std::io::ErrorKind;

/// The name of the journal.
pub const JOURNAL: &str = "journal";

/// Of the file that a connector locks, and which keeps what is remembered.
pub const LOCK: &str = "journal.lock";

/// Of the mark of an earlier version, that it runs or has stopped.
pub const RUNNING: &str = "journal.running";

/// Of a journal that is to take the place of the old one.
pub const NEW: &str = "journal.new";

/// Of the log.
pub const LOG: &str = "journal.log";

/// Of a log that is to take the place of the old one.
pub const LOG_NEW: &str = "journal.log.new";

/// Of the log of a period that has ended, until the period is kept.
pub const ENDED: &str = "journal.ended";

/// Of what the next period begins with, until then.
pub const NEXT: &str = "journal.next";

/// Of the first period, once it has ended.
pub const PERIOD: &str = "journal.0";

/// Of the second period, once it has ended.
pub const LATER: &str = "journal.1";

// Of what is kept of the two configurations between which each of these ended.
const BETWEEN: &str = "journal.0.remembered";

const LATER_BETWEEN: &str = "journal.1.remembered";

/// Where Linux says what a process may have.
pub const LIMITS: &str = "/proc/self/limits";

// The names that a file can have.
const NAMES: [&str; COUNT] = [
    JOURNAL,
    LOCK,
    RUNNING,
    NEW,
    LOG,
    LOG_NEW,
    ENDED,
    NEXT,
    PERIOD,
    BETWEEN,
    LATER,
    LATER_BETWEEN,
    LIMITS,
];

// How many these are.
const COUNT: usize = 13;

// The folder's own name.
pub(crate) const FOLDER: &str = ".";

/// Which calls on a disk fail: so many from the first on, counted from 0.
#[derive(Clone, Copy)]
pub struct Faults {
    /// The first of them.
    pub first: u32,
    /// How many they are.
    pub count: u32,
}

/// None does.
pub const NEVER: Faults = Faults { first: 0, count: 0 };

/// More calls than a run makes.
pub const MOST_CALLS: u32 = 600;

impl Faults {
    fn has(self, call: u32) -> bool {
        self.first <= call && call - self.first < self.count
    }
}

// What a file has, for whoever reads it now and on the device.
#[derive(Drop)]
pub(crate) struct Content {
    pub(crate) now: Vec<u8>,
    kept: Vec<u8>,
    // Whether an octet of it is still to be written to the device. A sync that fails forgets that.
    unsynced: Vec<bool>,
}

impl Content {
    fn new(alloc: Global) -> Content {
        Content {
            now: Vec::new(alloc),
            kept: Vec::new(alloc),
            unsynced: Vec::new(alloc),
        }
    }

    // Writes octets from a place on, behind zeros where that lies past the end.
    pub(crate) fn write(&mut self, alloc: Global, at: usize, octets: &[u8]) -> io::Result<()> {
        let end = at.saturating_add(octets.len());
        let before = self.now.get(..at).unwrap_or(&self.now);
        let behind = self.now.get(end..);
        let mut now = Vec::from_slice(alloc, before)?;
        now.resize(at, 0)?;
        now.extend_from_slice(octets)?;
        now.extend_from_slice(behind.unwrap_or(&[]))?;
        self.unsynced.resize(now.len(), false)?;
        self.now = now;
        for written in self.unsynced.iter_mut().skip(at).take(octets.len()) {
            *written = true;
        }
        Ok(())
    }

    // Has the device keep its length, and the octets that are still to be written to it.
    fn sync(&mut self) -> io::Result<()> {
        self.kept.resize(self.now.len(), 0)?;
        self.unsynced.resize(self.now.len(), false)?;
        for (place, kept) in self.kept.iter_mut().enumerate() {
            if let (Some(true), Some(now)) = (self.unsynced.get(place), self.now.get(place)) {
                *kept = *now;
            }
        }
        self.unsynced.fill(false);
        Ok(())
    }

    // A sync that failed: what it was to write is written by no later one.
    fn lose(&mut self) {
        self.unsynced.fill(false);
    }
}

// Which content each name has, if it has one.
type Folder = [Option<usize>; COUNT];

// Which names the device is still to be told. A sync that fails forgets that.
type Untold = [bool; COUNT];

// What is on a disk, and what was printed.
#[derive(Drop)]
pub(crate) struct State {
    pub(crate) alloc: Global,
    now: Folder,
    kept: Folder,
    untold: Untold,
    pub(crate) contents: Vec<Content>,
    calls: u32,
    faults: Faults,
    pub(crate) told: String,
    pub(crate) printed: Vec<u8>,
}

/// A disk, and what is printed beside it.
#[derive(Drop)]
pub struct Disk {
    pub(crate) alloc: Global,
    state: RefCell<State>,
    /// Whether another has locked what is locked on it.
    pub is_locked: bool,
    /// Whether standard output takes nothing.
    pub is_mute: bool,
}

/// When a disk is looked at.
#[derive(Clone, Copy)]
pub enum When {
    /// While the machine runs, and after it has stopped, where the system had written all.
    Now,
    /// After it has stopped, where the system had written only what it was asked to.
    Stopped,
    /// The same, where it had written all names, though not what the files have.
    NamesFirst,
}

/// What a stop of the machine may leave at a moment, and what is there without one.
pub const EACH: [When; 3] = [When::Now, When::Stopped, When::NamesFirst];

// Of a file that is not there.
pub(crate) fn absent() -> io::Error {
    io::Error::from(ErrorKind::NotFound)
}

// What no disk does.
pub(crate) fn unsupported() -> io::Error {
    io::Error::from(ErrorKind::Unsupported)
}

// The place of a name.
fn place_of(path: &str) -> io::Result<usize> {
    NAMES.iter().position(|name| *name == path).ok_or(absent())
}

impl State {
    // Counts a call, which may be one that fails.
    pub(crate) fn call(&mut self) -> io::Result<()> {
        let call = self.calls;
        self.calls = call.saturating_add(1);
        if self.faults.has(call) {
            return Err(io::Error::from(ErrorKind::StorageFull));
        }
        Ok(())
    }

    // The content of a name.
    pub(crate) fn content_of(&self, path: &str) -> io::Result<usize> {
        let place = place_of(path)?;
        self.now.get(place).copied().flatten().ok_or(absent())
    }

    // Gives a name a content, or none.
    pub(crate) fn name(&mut self, path: &str, content: Option<usize>) -> io::Result<()> {
        let place = place_of(path)?;
        if let (Some(named), Some(untold)) = (self.now.get_mut(place), self.untold.get_mut(place)) {
            *named = content;
            *untold = true;
        }
        Ok(())
    }

    // Has the device keep a name as it is now.
    fn keep(&mut self, path: &str) -> io::Result<()> {
        let place = place_of(path)?;
        let now = self.now.get(place).copied().flatten();
        if let (Some(kept), Some(untold)) = (self.kept.get_mut(place), self.untold.get_mut(place)) {
            *kept = now;
            *untold = false;
        }
        Ok(())
    }

    // A new file of this name, with nothing in it.
    fn make(&mut self, path: &str) -> io::Result<usize> {
        let content = self.contents.len();
        self.contents.push(Content::new(self.alloc))?;
        self.name(path, Some(content))?;
        Ok(content)
    }

    // The names of the files that are there, each with a NUL behind it.
    pub(crate) fn names(&self) -> io::Result<Vec<u8>> {
        let mut names = Vec::new(self.alloc);
        for (name, content) in NAMES.iter().zip(&self.now) {
            if content.is_some() {
                names.extend_from_slice(name.as_bytes())?;
                names.push(0)?;
            }
        }
        Ok(names)
    }

    // Opens a file by its options.
    pub(crate) fn open(&mut self, how: &OpenOptions, path: &str) -> io::Result<Option<usize>> {
        if path == FOLDER {
            return Ok(None);
        }
        let found = match self.content_of(path) {
            Ok(_) if how.asks_create_new() => return Err(io::Error::from(ErrorKind::AlreadyExists)),
            Ok(content) => content,
            Err(_) if how.asks_create_new() || how.asks_create() => self.make(path)?,
            Err(error) => return Err(error),
        };
        if let (true, Some(content)) = (how.asks_truncate(), self.contents.get_mut(found)) {
            content.now.clear();
        }
        Ok(Some(found))
    }

    // Has the device keep what was written to a file, or the names of the folder, since it was asked last. Where the
    // call fails that is lost: no later one writes it.
    pub(crate) fn sync(&mut self, content: Option<usize>) -> io::Result<()> {
        let called = self.call();
        let Some(content) = content else {
            if called.is_ok() {
                self.keep_names();
            }
            self.untold = [false; COUNT];
            return called;
        };
        match self.contents.get_mut(content) {
            Some(content) if called.is_ok() => content.sync(),
            Some(content) => {
                content.lose();
                called
            }
            None => called,
        }
    }

    // Has the device keep the names that it is still to be told.
    fn keep_names(&mut self) {
        for ((kept, now), untold) in self.kept.iter_mut().zip(&self.now).zip(&self.untold) {
            if *untold {
                *kept = *now;
            }
        }
    }

    // The content of a name.
    pub(crate) fn text_of(&self, path: &str, when: When) -> io::Result<Vec<u8>> {
        let place = place_of(path)?;
        let folder = match when {
            When::Now | When::NamesFirst => self.now,
            When::Stopped => self.kept,
        };
        let content = folder.get(place).copied().flatten().ok_or(absent())?;
        let content = self.contents.get(content).ok_or(absent())?;
        let text = match when {
            When::Now => &content.now,
            When::Stopped | When::NamesFirst => &content.kept,
        };
        Ok(Vec::from_slice(self.alloc, text)?)
    }
}

impl Disk {
    /// A disk on which nothing is.
    pub fn new(alloc: Global, faults: Faults) -> Disk {
        Disk {
            alloc,
            state: RefCell::new(State {
                alloc,
                now: [None; COUNT],
                kept: [None; COUNT],
                untold: [false; COUNT],
                contents: Vec::new(alloc),
                calls: 0,
                faults,
                told: String::new(alloc),
                printed: Vec::new(alloc),
            }),
            is_locked: false,
            is_mute: false,
        }
    }

    // What is on it, for a call.
    pub(crate) fn state(&self) -> io::Result<RefMut<'_, State>> {
        match self.state.try_borrow_mut() {
            Ok(state) => Ok(state),
            Err(_) => Err(io::Error::from(ErrorKind::Deadlock)),
        }
    }

    /// Puts a file there, as an earlier run left it. No call is counted.
    pub fn put(&self, path: &str, text: &[u8]) -> io::Result<()> {
        let mut state = self.state()?;
        let alloc = state.alloc;
        let made = state.make(path)?;
        if let Some(content) = state.contents.get_mut(made) {
            content.now = Vec::from_slice(alloc, text)?;
            content.kept = Vec::from_slice(alloc, text)?;
        }
        state.keep(path)
    }

    /// Puts the files that are here then on another disk. No call is counted.
    pub fn put_on(&self, other: &Disk, when: When) -> io::Result<()> {
        for name in NAMES {
            if let Some(text) = self.text(name, when)? {
                other.put(name, &text)?;
            }
        }
        Ok(())
    }

    /// From now on so many calls fail, behind so many that don't. The number of the first is told.
    pub fn fail_behind(&self, calls: u32, count: u32) -> io::Result<u32> {
        let mut state = self.state()?;
        let first = state.calls.saturating_add(calls);
        state.faults = Faults { first, count };
        Ok(first)
    }

    /// Takes a file away, as somebody else does. No call is counted.
    pub fn take_away(&self, path: &str) -> io::Result<()> {
        self.state()?.name(path, None)
    }

    /// Cuts a file to a length, as somebody else does. No call is counted.
    pub fn cut(&self, path: &str, len: usize) -> io::Result<()> {
        let mut state = self.state()?;
        let content = state.content_of(path)?;
        if let Some(content) = state.contents.get_mut(content) {
            content.now.truncate(len);
        }
        Ok(())
    }

    /// What a file has, or nothing where it isn't there.
    pub fn text(&self, path: &str, when: When) -> io::Result<Option<Vec<u8>>> {
        match self.state()?.text_of(path, when) {
            Ok(text) => Ok(Some(text)),
            Err(error) if error.kind() == ErrorKind::NotFound => Ok(None),
            Err(error) => Err(error),
        }
    }

    /// Whether a line on standard error has had this.
    pub fn has_told(&self, words: &str) -> io::Result<bool> {
        Ok(self.state()?.told.contains(words))
    }

    /// What was printed on standard output.
    pub fn printed(&self) -> io::Result<Vec<u8>> {
        let state = self.state()?;
        Ok(Vec::from_slice(state.alloc, &state.printed)?)
    }

    /// How many calls there were.
    pub fn calls(&self) -> io::Result<u32> {
        Ok(self.state()?.calls)
    }
}
