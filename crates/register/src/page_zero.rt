//! Page 0 of a store that is read back.
ghost use Rattle.std.specs.Prelude.{◌≡◌, IfErr, IfOk};
ghost use Rattle.pages.specs.Store.{Store};
ghost use Rattle.pages.specs.declared.payload.Payload.{Payload};
ghost use Rattle.pagecache.specs.Cache.{payload_of};
ghost use Rattle.register.specs.Lasting.{front_fault, IsReadingFault};
ghost use Rattle.register.specs.Restoring.{result_of, HeaderSays, IsHeaderFault, ReadsStore, SaysFields};
ghost use Rattle.header.specs.declared.header_fields.Fields.{Fields};

use crate::chain_reader::fault_of;
use crate::fault::CatalogueFault;
use header::{FINISHED, Fields, Front, UNFINISHED, fields_of, front_of};
use pagecache::PageCache;
use pages::{PageStore, Payload};

/// Why a header does not begin as that of a finished store of a version, if it does not.
pub fn test_front(version: u32, front: Option<Front>) -> Result<(), CatalogueFault>
    // It fails exactly if the front is not that of a finished store of this version.
    ensures value { result ≡ result_of (front_fault version front) }
    // It never reports a failed or a full store.
    ensures caused { IfErr result (λ e. (old new : Store) → IsReadingFault old new e) }
{
    match front {
        Some(front) => {
            if front.version != version {
                return Err(CatalogueFault::Version);
            }
            if front.state == UNFINISHED.state {
                return Err(CatalogueFault::Unfinished);
            }
            if front.state == FINISHED.state {
                return Ok(());
            }
            Err(CatalogueFault::Malformed)
        }
        None => Err(CatalogueFault::Malformed),
    }
}

/// What the header of a finished store says.
#[tactic(auto, unfolding(crate::specs::Lasting::header_fault))]
fn header_of(payload: &Payload) -> Result<Fields, CatalogueFault>
    ensures says { IfOk result (HeaderSays payload.now) }
    ensures fault { IfErr result (IsHeaderFault payload.now) }
    ensures caused { IfErr result (λ e. (old new : Store) → IsReadingFault old new e) }
{
    test_front(FINISHED.version, front_of(payload))?;
    match fields_of(payload) {
        Some(fields) => Ok(fields),
        None => Err(CatalogueFault::Malformed),
    }
}

/// What page 0 of a finished store says.
pub(crate) fn read_header<S: PageStore>(cache: &mut PageCache<S>) -> Result<Fields, CatalogueFault>
    ensures { ReadsStore cache.old cache.new
        (SaysFields cache.old.count (payload_of cache.old 0)) ((fields : Fields)
        → SaysFields cache.old.count (payload_of cache.old 0) fields → ⊥) result }
{
    match cache.page(0) {
        Ok(payload) => header_of(payload),
        Err(fault) => Err(fault_of(fault)),
    }
}
