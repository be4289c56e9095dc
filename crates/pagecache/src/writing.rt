//! Changed pages are written eight at a time: to seal eight costs less than to seal four one by one.
ghost use Rattle.std.specs.Prelude.{ℕ, ◌≡◌, ◌<◌, [], false, OnOk, slice_index, slice_index_or, EachIndex, length};
ghost use Rattle.std.specs.Option.{unwrap_or};
ghost use Rattle.pagecache.specs.Cache.{is_changed};
ghost use Rattle.pagecache.specs.Slots.{IsSound, SameInMemory, Seals, WritesBack, held_payload, seen_of};

use crate::fault::CacheFault;
use crate::slots::{Slots, blank};
use pages::{Kind, PageStore, Payload, seal, seal_eight};

/// From how many pages on eight are sealed at once. Fewer cost less one by one.
const FEW: usize = 4;

/// How many pages are looked at for some to write, from the one that was used longest ago on.
const REACH: usize = 32;

/// Numbers of changed pages. The first `count` of them are different; the others are no news.
#[derive(Clone, Copy)]
struct Cold {
    numbers: [u32; 8],
    count: usize,
}

/// The eight numbers from a place on. Behind the last number it stands again.
fn eight_of(numbers: &[u32], at: usize) -> [u32; 8]
    requires { at < length numbers.now }
{
    let last = numbers.len() - 1;
    [
        numbers[at],
        numbers[last.min(at + 1)],
        numbers[last.min(at + 2)],
        numbers[last.min(at + 3)],
        numbers[last.min(at + 4)],
        numbers[last.min(at + 5)],
        numbers[last.min(at + 6)],
        numbers[last.min(at + 7)],
    ]
}

impl<S: PageStore> Slots<S> {
    /// The payload of a page in memory; another one where the page is not there.
    fn shown<'a>(&'a self, number: u32, other: &'a Payload) -> &'a Payload
        ensures { result.now
            ≡ unwrap_or (held_payload (seen_of S.seen self.now) number) other.now }
    {
        match self.held.peek(&number) {
            Some(held) => &*held.payload,
            None => other,
        }
    }

    /// The page that seals the payload of a page in memory; any bytes where the page is not there.
    fn sealed(&self, number: u32) -> [u8; 4096]
        ensures { Seals (seen_of S.seen self.now) number result }
    {
        match self.held.peek(&number) {
            Some(held) => seal(number, &*held.payload),
            None => blank(),
        }
    }

    /// The same of eight pages.
    fn sealed_eight(&self, numbers: &[u32; 8]) -> [[u8; 4096]; 8]
        ensures { (j : ℕ) → j < 8 → Seals (seen_of S.seen self.now)
            (slice_index numbers.now j) (slice_index_or result j []) }
    {
        let other = Payload::zero(Kind::Leaf);
        seal_eight(&[
            (numbers[0], self.shown(numbers[0], &other)),
            (numbers[1], self.shown(numbers[1], &other)),
            (numbers[2], self.shown(numbers[2], &other)),
            (numbers[3], self.shown(numbers[3], &other)),
            (numbers[4], self.shown(numbers[4], &other)),
            (numbers[5], self.shown(numbers[5], &other)),
            (numbers[6], self.shown(numbers[6], &other)),
            (numbers[7], self.shown(numbers[7], &other)),
        ])
    }

    /// Writes a page that is changed. The page that seals its payload is given.
    fn write_sealed(&mut self, number: u32, page: &[u8; 4096]) -> Result<(), CacheFault>
        requires sound { IsSound (seen_of S.seen self.old) }
        requires seals { Seals (seen_of S.seen self.old) number page.now }
        ensures writes { WritesBack (seen_of S.seen self.old) (seen_of S.seen self.new) result }
        ensures written { OnOk result (is_changed (seen_of S.seen self.new) number ≡ false) }
        ensures memory { SameInMemory (seen_of S.seen self.old) (seen_of S.seen self.new) }
    {
        match self.held.peek_mut(&number) {
            None => Ok(()),
            Some(held) => {
                if held.changed {
                    self.store.write(number, page)?;
                    held.changed = false;
                }
                Ok(())
            }
        }
    }

    /// Writes a page that is changed.
    fn write_back(&mut self, number: u32) -> Result<(), CacheFault>
        requires { IsSound (seen_of S.seen self.old) }
        ensures writes { WritesBack (seen_of S.seen self.old) (seen_of S.seen self.new) result }
        ensures written { OnOk result (is_changed (seen_of S.seen self.new) number ≡ false) }
    {
        if self.is_changed(number) {
            let page = self.sealed(number);
            self.write_sealed(number, &page)
        } else {
            Ok(())
        }
    }

    /// Writes those of eight pages that are changed.
    fn write_eight(&mut self, numbers: &[u32; 8]) -> Result<(), CacheFault>
        requires { IsSound (seen_of S.seen self.old) }
        ensures { WritesBack (seen_of S.seen self.old) (seen_of S.seen self.new) result }
    {
        let pages = self.sealed_eight(numbers);
        'places: for place in 0..8 {
            match self.write_sealed(numbers[place], &pages[place]) {
                Ok(()) => {}
                Err(fault) => return Err(fault),
            }
        }
        Ok(())
    }

    /// The changed pages among those that were used longest ago, at most eight. The one that is to
    /// leave fills the other places.
    fn cold(&self, leaving: u32) -> Cold {
        let mut numbers = [leaving; 8];
        let mut count = 0;
        for (number, held) in self.held.iter().rev().take(REACH) {
            if held.changed && count < 8 {
                numbers[count] = *number;
                count += 1;
            }
        }
        Cold { numbers, count }
    }

    /// Writes the changed pages that were used longest ago, where there are enough of them.
    fn write_cold(&mut self, leaving: u32) -> Result<(), CacheFault>
        requires { IsSound (seen_of S.seen self.old) }
        ensures { WritesBack (seen_of S.seen self.old) (seen_of S.seen self.new) result }
    {
        let cold = self.cold(leaving);
        if cold.count < FEW {
            Ok(())
        } else {
            self.write_eight(&cold.numbers)
        }
    }

    /// Writes the page that is to leave, where it is changed. Those that are to leave soon are
    /// written with it and stay, unchanged.
    pub(crate) fn write_leaving(&mut self, number: u32) -> Result<(), CacheFault>
        requires { IsSound (seen_of S.seen self.old) }
        ensures writes { WritesBack (seen_of S.seen self.old) (seen_of S.seen self.new) result }
        ensures written { OnOk result (is_changed (seen_of S.seen self.new) number ≡ false) }
    {
        match self.write_cold(number) {
            Ok(()) => {}
            Err(fault) => return Err(fault),
        }
        match self.write_back(number) {
            Ok(()) => Ok(()),
            Err(fault) => Err(fault),
        }
    }

    /// Writes those of some pages that are changed, but for a rest of few.
    fn write_groups(&mut self, numbers: &[u32]) -> Result<(), CacheFault>
        requires { IsSound (seen_of S.seen self.old) }
        ensures { WritesBack (seen_of S.seen self.old) (seen_of S.seen self.new) result }
    {
        'groups: for group in 0..(numbers.len() + 8 - FEW) / 8 {
            match self.write_eight(&eight_of(numbers, 8 * group)) {
                Ok(()) => {}
                Err(fault) => return Err(fault),
            }
        }
        Ok(())
    }

    /// Writes those of some pages that are changed.
    pub(crate) fn write_all(&mut self, numbers: &[u32]) -> Result<(), CacheFault>
        requires { IsSound (seen_of S.seen self.old) }
        ensures writes { WritesBack (seen_of S.seen self.old) (seen_of S.seen self.new) result }
        ensures written { OnOk result (EachIndex numbers.now
            (λ k. is_changed (seen_of S.seen self.new) (slice_index numbers.now k) ≡ false)) }
    {
        match self.write_groups(numbers) {
            Ok(()) => {}
            Err(fault) => return Err(fault),
        }
        for number in numbers {
            match self.write_back(*number) {
                Ok(()) => {}
                Err(fault) => return Err(fault),
            }
        }
        Ok(())
    }
}
