//! Page 0 of a store of version 1.
ghost use Rattle.std.specs.Prelude.{ℕ, Option, ◌≡◌, length, min, IfErr, IfOk, IfSome, None};
ghost use Rattle.legs.specs.Costs.{ShapeView};
ghost use Rattle.pages.specs.Store.{Store};
ghost use Rattle.pages.specs.declared.payload.Payload.{Payload};
ghost use Rattle.register.specs.Lasting.{IsReadingFault};
ghost use Rattle.version1.specs.OldStore.{old_header_fault, IsOldHeaderFault, IsOldShape, SaysOldBody, SaysOldShape};
ghost use Rattle.register.specs.Restoring.{result_of};
ghost use Rattle.version1.specs.declared.old_header.OldFields.{OldFields};

use header::{Fields, front_of, limits_in, u16_of, u32_of, u64_of};
use pages::Payload;
use register::{CatalogueFault, test_front};
use tbnode::fields::part;
use tbtree::Shape;

/// The version of the format before the present one.
const OLD_VERSION: u32 = 1;

/// The most legs of a leaf of version 1.
const MOST_LEAF: u16 = 63;

/// The most legs of a leaf of the present version.
const PRESENT_LEAF: u16 = 50;

/// How many dimensions a database of version 1 has.
const DIMENSION: u32 = 2;

/// What page 0 of a store of version 1 says.
#[derive(Clone, Copy)]
pub(crate) struct OldFields {
    /// How many legs a leaf has at most, from 2 to 63.
    pub(crate) leaf: u16,
    /// All else, as of the present version: the nearest shape, and two dimensions.
    pub(crate) fields: Fields,
}

/// A shape of version 1: how many legs a leaf has at most, from 2 to 63, and the nearest shape of
/// the present version, which has the same inner pages.
#[derive(Clone, Copy)]
struct OldShape {
    leaf: u16,
    shape: Shape,
}

/// Whether a payload is the header of a finished store of version 1.
#[tactic(auto, unfolding(crate::specs::OldStore::old_header_fault))]
fn test_old_header(payload: &Payload) -> Result<(), CatalogueFault>
    ensures value { result ≡ result_of (old_header_fault payload.now) }
    ensures caused { IfErr result (λ e. (old new : Store) → IsReadingFault old new e) }
{
    test_front(OLD_VERSION, front_of(payload))
}

/// The shape of the present version that comes nearest to one of version 1; none where that is out
/// of range.
fn nearest_shape(leaf: u16, inner: u16) -> Option<Shape>
    ensures some { IfSome result (λ shape. IsOldShape (record { leaf = leaf; inner = inner })
        × (shape.leaf ≡ min leaf 50) × (shape.inner ≡ inner)) }
    ensures none { result ≡ None → IsOldShape (record { leaf = leaf; inner = inner }) → ⊥ }
{
    if leaf > MOST_LEAF {
        return None;
    }
    Shape::new(leaf.min(PRESENT_LEAF), inner)
}

/// The shape that page 0 says; none where it is out of range.
fn old_shape_in(bytes: &[u8]) -> Option<OldShape>
    requires { length bytes.now ≡ 4056 }
    ensures some { IfSome result (λ old. SaysOldShape bytes.now old.leaf old.shape) }
    ensures none { result ≡ None → (leaf : ℕ) (shape : ShapeView)
        → SaysOldShape bytes.now leaf shape → ⊥ }
{
    let leaf = u16_of(part(bytes, 12, 2));
    let inner = u16_of(part(bytes, 14, 2));
    match nearest_shape(leaf, inner) {
        Some(shape) => Some(OldShape { leaf, shape }),
        None => None,
    }
}

/// What page 0 says behind how it begins; none where the shape or the limits are out of range.
fn old_fields_of(payload: &Payload) -> Option<OldFields>
    ensures some { IfSome result (SaysOldBody payload.now) }
    ensures none { result ≡ None → (old : OldFields) → SaysOldBody payload.now old → ⊥ }
{
    let bytes = &payload.bytes;
    let shape = old_shape_in(bytes)?;
    let limits = limits_in(bytes)?;
    let fields = Fields {
        shape: shape.shape,
        limits,
        root: u32_of(part(bytes, 32, 4)),
        levels: u32_of(part(bytes, 36, 4)),
        leaves: u32_of(part(bytes, 40, 4)),
        first: u32_of(part(bytes, 44, 4)),
        length: u64_of(part(bytes, 48, 8)),
        dimension: DIMENSION,
    };
    Some(OldFields {
        leaf: shape.leaf,
        fields,
    })
}

/// What the header of a finished store of version 1 says.
pub(crate) fn old_header_of(payload: &Payload) -> Result<OldFields, CatalogueFault>
    ensures says { IfOk result (λ old. (old_header_fault payload.now ≡ None)
        × SaysOldBody payload.now old) }
    ensures fault { IfErr result (IsOldHeaderFault payload.now) }
    ensures caused { IfErr result (λ e. (old new : Store) → IsReadingFault old new e) }
{
    test_old_header(payload)?;
    match old_fields_of(payload) {
        Some(fields) => Ok(fields),
        None => Err(CatalogueFault::Malformed),
    }
}
