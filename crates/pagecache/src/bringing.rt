//! Several pages are brought into memory at once: eight digests cost less than four one by one.
ghost use Rattle.std.specs.Prelude.{ℕ, ◌≡◌, ◌<◌, [], None, IsTrue, IfOk, slice_index_or};
ghost use Rattle.digests.specs.Pages.{digest_of};
ghost use Rattle.pagecache.specs.Cache.{in_memory};
ghost use Rattle.pagecache.specs.Slots.{AreRead, IsRead, IsSound, Steps, seen_of};

use crate::fault::CacheFault;
use crate::slots::{Slots, blank};
use digests::digests;
use pages::{PageStore, unseal_with};

/// From how many pages on eight are read at once. Fewer cost less one by one.
const FEW: usize = 4;

/// How many of the next pages are looked at for some to bring.
const REACH: usize = 32;

/// The numbers of the seven pages behind a page.
pub fn behind(page: u32) -> [u32; 7] {
    [
        page.saturating_add(1),
        page.saturating_add(2),
        page.saturating_add(3),
        page.saturating_add(4),
        page.saturating_add(5),
        page.saturating_add(6),
        page.saturating_add(7),
    ]
}

/// Eight pages of zero bytes.
fn blanks() -> [[u8; 4096]; 8] {
    [[0; 4096]; 8]
}

/// The digests of eight pages.
fn digests_of(pages: &[[u8; 4096]; 8]) -> [[u8; 32]; 8]
    ensures { (j : ℕ) → j < 8
        → slice_index_or result j [] ≡ digest_of (slice_index_or pages.now j []) }
{
    digests(&[
        &pages[0], &pages[1], &pages[2], &pages[3], &pages[4], &pages[5], &pages[6], &pages[7],
    ])
}

impl<S: PageStore> Slots<S> {
    /// Whether a page is there and not in memory.
    fn is_absent(&self, number: u32) -> bool
        ensures below { IsTrue result → number < self.now.count }
        ensures absent { IsTrue result → in_memory (seen_of S.seen self.now) number ≡ None }
    {
        if number >= self.count {
            return false;
        }
        match self.held.peek(&number) {
            Some(_) => false,
            None => true,
        }
    }

    /// How many of eight pages are there and not in memory.
    fn absent(&self, numbers: &[u32; 8]) -> usize {
        let mut count = 0usize;
        for number in numbers {
            if self.is_absent(*number) {
                count = count.saturating_add(1);
            }
        }
        count
    }

    /// Reads a page that is there and not in memory, and says whether it is such a page.
    fn read_absent(&mut self, number: u32, page: &mut [u8; 4096]) -> Result<bool, CacheFault>
        requires { IsSound (seen_of S.seen self.old) }
        ensures steps { Steps (seen_of S.seen self.old) (seen_of S.seen self.new) }
        ensures read { IfOk result
            (λ is_read. IsTrue is_read → IsRead (seen_of S.seen self.new) number page.new) }
    {
        if !self.is_absent(number) {
            return Ok(false);
        }
        self.store.read(number, page)?;
        Ok(true)
    }

    /// Reads those of eight pages that are there and not in memory, and says which those are.
    fn read_eight(
        &mut self,
        numbers: &[u32; 8],
        pages: &mut [[u8; 4096]; 8],
    ) -> Result<[bool; 8], CacheFault>
        requires { IsSound (seen_of S.seen self.old) }
        ensures steps { Steps (seen_of S.seen self.old) (seen_of S.seen self.new) }
        ensures read { IfOk result
            (λ found. AreRead (seen_of S.seen self.new) numbers.now found pages.new 8) }
    {
        let mut found = [false; 8];
        'places: for place in 0..8 {
            match self.read_absent(numbers[place], &mut pages[place]) {
                Ok(is_read) => found[place] = is_read,
                Err(fault) => return Err(fault),
            }
        }
        Ok(found)
    }

    /// Takes a page into memory that was found and read, where it is sealed. Its digest is given.
    fn take_in(
        &mut self,
        found: bool,
        number: u32,
        page: &[u8; 4096],
        digest: &[u8; 32],
    ) -> Result<(), CacheFault>
        requires sound { IsSound (seen_of S.seen self.old) }
        requires read { IsTrue found → IsRead (seen_of S.seen self.old) number page.now }
        requires digest { digest.now ≡ digest_of page.now }
        ensures { Steps (seen_of S.seen self.old) (seen_of S.seen self.new) }
    {
        if !found {
            return Ok(());
        }
        // A number may stand twice.
        if !self.is_absent(number) {
            return Ok(());
        }
        let payload = match unseal_with(number, page, digest) {
            Ok(payload) => payload,
            // It is for `page` to name it.
            Err(_) => return Ok(()),
        };
        match self.make_room() {
            Ok(()) => {}
            Err(fault) => return Err(fault),
        }
        match self.keep(number, payload) {
            Ok(()) => Ok(()),
            Err(fault) => Err(fault),
        }
    }

    /// Takes those of eight pages into memory that were read and are sealed.
    fn take_eight(
        &mut self,
        numbers: &[u32; 8],
        found: [bool; 8],
        pages: &[[u8; 4096]; 8],
    ) -> Result<(), CacheFault>
        requires sound { IsSound (seen_of S.seen self.old) }
        requires read { AreRead (seen_of S.seen self.old) numbers.now found pages.now 8 }
        ensures { Steps (seen_of S.seen self.old) (seen_of S.seen self.new) }
    {
        let all = digests_of(pages);
        'places: for place in 0..8 {
            match self.take_in(found[place], numbers[place], &pages[place], &all[place]) {
                Ok(()) => {}
                Err(fault) => return Err(fault),
            }
        }
        Ok(())
    }

    /// Brings those of eight pages into memory that are there and not in memory, where they are
    /// not few.
    fn bring_eight(&mut self, numbers: &[u32; 8]) -> Result<(), CacheFault>
        requires { IsSound (seen_of S.seen self.old) }
        ensures { Steps (seen_of S.seen self.old) (seen_of S.seen self.new) }
    {
        if self.absent(numbers) < FEW {
            return Ok(());
        }
        let mut pages = blanks();
        let found = match self.read_eight(numbers, &mut pages) {
            Ok(found) => found,
            Err(fault) => return Err(fault),
        };
        match self.take_eight(numbers, found, &pages) {
            Ok(()) => Ok(()),
            Err(fault) => Err(fault),
        }
    }

    /// A page, and up to seven of the next ones that are there and not in memory. Behind them stands
    /// a number that no page has.
    fn absent_from(&self, number: u32, next: &[u32]) -> [u32; 8] {
        let mut numbers = [u32::MAX; 8];
        numbers[0] = number;
        let mut found = 1;
        for other in &next[..next.len().min(REACH)] {
            if found < 8 && self.is_absent(*other) {
                numbers[found] = *other;
                found += 1;
            }
        }
        numbers
    }

    /// Notes which page is likely to be asked for after a page, where there is memory for it.
    pub(crate) fn note_next(&mut self, number: u32, next: u32)
        ensures { seen_of S.seen self.new ≡ seen_of S.seen self.old }
    {
        let place = number as usize;
        if number < self.count && place >= self.followers.len() {
            let _ = self.followers.resize(self.count as usize, u32::MAX);
        }
        if let Some(noted) = self.followers.get_mut(place) {
            *noted = next;
        }
    }

    /// The page that is noted to come after a page; where none is, a number that no page has.
    pub(crate) fn follower(&self, number: u32) -> u32 {
        match self.followers.get(number as usize) {
            Some(next) => *next,
            None => u32::MAX,
        }
    }

    /// Pages that are noted to come after a page that is not in memory, one after the other; none
    /// after one that is. In place of one that is not noted stands a number that no page has.
    pub(crate) fn noted_after(&self, number: u32) -> [u32; 7] {
        let mut pages = [u32::MAX; 7];
        if !self.is_absent(number) {
            return pages;
        }
        let mut at = number;
        for place in 0..7 {
            at = self.follower(at);
            pages[place] = at;
        }
        pages
    }

    /// Brings a page that is not in memory with the next ones that are not, where there is room for
    /// sixteen. What it does not bring is left to its own ask.
    pub(crate) fn look_ahead(&mut self, number: u32, next: &[u32])
        requires { IsSound (seen_of S.seen self.old) }
        ensures { Steps (seen_of S.seen self.old) (seen_of S.seen self.new) }
    {
        if next.is_empty() || self.held.cap().get() < 16 || !self.is_absent(number) {
            return;
        }
        let numbers = self.absent_from(number, next);
        let _ = self.bring_eight(&numbers);
    }
}
