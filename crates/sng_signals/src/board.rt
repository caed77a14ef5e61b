//! Texts that wait until a thread of their own writes them to a standard stream, so that a stream that nobody
//! reads holds up nobody who posts one.

use crate::bell::Bell;
use crate::count::Count;
use crate::level::Level;
use std::alloc::{AllocError, Global};
use std::collections::VecDeque;
use std::fmt::Display;
use std::sync::Mutex;
use std::sync::atomic::{AtomicU64, Ordering};
use std::thread;

/// So many texts wait at most: one more is lost, and counted.
pub const PLACES: usize = 256;

/// How often the board is tried, which others hold for an instant alone: each try that fails leaves the
/// processor to them.
const TRIES: u32 = 1_000_000;

/// A text, and how many rows it has.
#[derive(Drop)]
pub struct Text {
    pub bytes: Vec<u8>,
    pub rows: u64,
}

/// Texts that wait for one writer.
#[derive(Drop)]
pub struct Board {
    alloc: Global,
    texts: Mutex<VecDeque<Text>>,
    /// How many texts wait or are written just now, and how many rows they have.
    waiting: AtomicU64,
    rows: AtomicU64,
    /// Texts that found no place, or could not be written.
    pub lost: Count,
    /// Wakes the writer.
    pub bell: Bell,
}

impl Board {
    pub fn new(alloc: Global, bell: Bell) -> Result<Board, AllocError> {
        Ok(Board {
            alloc,
            texts: Mutex::new(VecDeque::with_capacity(alloc, PLACES)?),
            waiting: AtomicU64::new(0),
            rows: AtomicU64::new(0),
            lost: Count::new(),
            bell,
        })
    }

    /// Posts a line for an operator.
    pub fn tell<D: Display + Drop>(&self, level: Level, what: D) {
        match format!(in self.alloc; "sng: {level}: {what}\n") {
            Ok(line) => self.post(line.into_bytes()),
            Err(AllocError) => self.lost.add(1),
        }
    }

    /// Posts a text without rows. Where it finds no place it is lost, and counted.
    pub fn post(&self, bytes: Vec<u8>) {
        if !self.offer(bytes, 0) {
            self.lost.add(1);
        }
    }

    /// Posts a text with so many rows. Whether it found a place.
    pub fn offer(&self, bytes: Vec<u8>, rows: u64) -> bool {
        self.waiting.fetch_add(1, Ordering::SeqCst);
        self.rows.fetch_add(rows, Ordering::SeqCst);
        if self.put(Text { bytes, rows }) {
            self.bell.ring();
            return true;
        }
        self.finish(rows);
        false
    }

    /// Puts the text behind the others, where there is a place.
    fn put(&self, text: Text) -> bool {
        for _ in 0..TRIES {
            if let Some(mut texts) = self.texts.try_lock() {
                return texts.len() < PLACES && texts.push_back(text).is_ok();
            }
            thread::yield_now();
        }
        false
    }

    /// The text that waits longest.
    pub fn next(&self) -> Option<Text> {
        for _ in 0..TRIES {
            if let Some(mut texts) = self.texts.try_lock() {
                return texts.pop_front();
            }
            thread::yield_now();
        }
        None
    }

    /// A text of so many rows was written, or is lost.
    pub fn finish(&self, rows: u64) {
        self.rows.fetch_sub(rows, Ordering::SeqCst);
        self.waiting.fetch_sub(1, Ordering::SeqCst);
    }

    /// How many texts are not written yet.
    pub fn waiting(&self) -> u64 {
        self.waiting.load(Ordering::SeqCst)
    }

    /// How many rows are not written yet.
    pub fn rows(&self) -> u64 {
        self.rows.load(Ordering::SeqCst)
    }
}
