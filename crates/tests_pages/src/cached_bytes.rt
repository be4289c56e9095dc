//! What callers write. Each function is proved from the contracts of the cache alone.
ghost use Rattle.std.specs.Prelude.{◌<◌, OnOk, OnErr, IfOk, IfErr};
ghost use Rattle.pagecache.specs.Cache.{Rests, IsRefused};
ghost use Rattle.tests_pages.specs.CachedBytes.{ReadsByte, WritesByte};

use pagecache::{CacheFault, PageCache};
use pages::PageStore;

/// A byte of a page.
pub(crate) fn byte<S: PageStore>(
    cache: &mut PageCache<S>,
    number: u32,
    place: usize,
) -> Result<u8, CacheFault>
    requires { place < 4056 }
    ensures value { IfOk result (ReadsByte cache.old number place) }
    ensures rests { Rests cache.old cache.new }
    ensures cause { IfErr result (λ fault. IsRefused number fault cache.old cache.new) }
{
    Ok(cache.page(number)?.bytes[place])
}

/// Writes a byte of a page.
pub(crate) fn set_byte<S: PageStore>(
    cache: &mut PageCache<S>,
    number: u32,
    place: usize,
    value: u8,
) -> Result<(), CacheFault>
    requires { place < 4056 }
    ensures written { OnOk result (WritesByte number place value cache.old cache.new) }
    ensures refused { OnErr result (Rests cache.old cache.new) }
    ensures cause { IfErr result (λ fault. IsRefused number fault cache.old cache.new) }
{
    cache.page_mut(number)?.bytes[place] = value;
    Ok(())
}
