//! A sink in memory that fails where it is told to.
//!
//! The room is taken when the page is made, so no put asks for memory, and a put that fails keeps
//! as many bytes as it was told to: a test can cut a text at any byte.
ghost use Rattle.std.specs.Prelude.{◌≡◌, ◌==◌, length, Some, IfOk, is_ok, find};
ghost use Rattle.bd_files.specs.Numbers.{number_after};
ghost use Rattle.bd_files.specs.Page.{new_page, limit_of, takes_all, page_after};

use super::calls::take_number;
use super::{PutError, Sink};
use std::alloc::{AllocError, Global};
use std::marker::Model;

/// A sink in memory that has room for so many bytes, and of which puts with given numbers fail. The
/// puts on a page have the numbers 1, 2, 3, ..
#[derive(Drop)]
pub struct Page {
    written: Vec<u8>,
    room: usize,
    fails: Vec<(u64, usize)>,
    next: Option<u64>,
    faults: u64,
}

impl Model for Page {
    ghost use Rattle.std.specs.Prelude.{◌≤◌, vec_len, vec_capacity};
    ghost use Rattle.bd_files.specs.Page.{PageState};

    ghost Value = { PageState };

    ghost view = { λ page. record {
      written = page.written.items;
      room = page.room;
      fails = page.fails.items;
      next = page.next;
      faults = page.faults;
    } };

    ghost invariant = { λ page.
        (vec_len page.written ≤ page.room) × (page.room ≤ vec_capacity page.written) };
}

impl Page {
    /// An empty page with room for `room` bytes, which it takes here. In `fails` each number of a
    /// put that is to fail stands with how many bytes that put keeps before; of several pairs with
    /// one number the first counts. A put past the room keeps what fits and fails.
    pub fn new(alloc: Global, room: usize, fails: Vec<(u64, usize)>) -> Result<Page, AllocError>
        ensures { IfOk result (λ page. page ≡ new_page room fails.items) }
    {
        Ok(Page {
            written: Vec::with_capacity(alloc, room)?,
            room,
            fails,
            next: Some(1),
            faults: 0,
        })
    }

    /// What was written.
    pub fn written(&self) -> &[u8]
        ensures { result.now ≡ self.now.written }
    {
        self.written.as_slice()
    }

    /// How many puts failed.
    pub fn faults(&self) -> u64
        ensures { result ≡ self.now.faults }
    {
        self.faults
    }
}

#[tactic(auto, using(crate::proofs::Puts::counts_next))]
impl Sink for Page {
    ghost written = { λ page. Some page.written };

    ghost faults = { λ page. page.faults };

    ghost puts = { λ page. page.next };

    /// Writes the bytes that there is room for, and at a put that is to fail at most as many as it keeps.
    fn put(&mut self, bytes: &[u8]) -> Result<(), PutError>
        ensures ok { is_ok result ≡ takes_all self.old (length bytes.now) }
        ensures page { self.new ≡ page_after self.old bytes.now }
    {
        let limit = limit_now(&self.fails, &mut self.next);
        let room = self.room - self.written.len();
        let kept = limit.unwrap_or(bytes.len()).min(bytes.len()).min(room);
        self.written.extend_from_slice(&bytes[..kept]).unwrap();
        if limit.is_none() && bytes.len() <= room {
            return Ok(());
        }
        self.faults = self.faults.saturating_add(1);
        Err(PutError::Failed)
    }
}

/// Numbers the put that begins, and answers how many bytes it keeps before it fails, if it is to
/// fail.
fn limit_now(fails: &[(u64, usize)], next: &mut Option<u64>) -> Option<usize>
    ensures limit { result ≡ limit_of fails.now next.old }
    ensures numbered { next.new ≡ number_after next.old }
{
    let number = take_number(next)?;
    let fail = fail_of(fails, number)?;
    Some(fail.1)
}

/// The first pair with that number.
fn fail_of(fails: &[(u64, usize)], number: u64) -> Option<(u64, usize)>
    ensures { result ≡ find (λ fail. fail.0 == number) fails.now }
{
    fails.iter().copied().find(|fail| fail.0 == number)
}
