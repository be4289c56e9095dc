//! What page 0 of a store says beside how it begins.
ghost use Rattle.std.specs.Prelude.{◌≡◌, length, take, drop, None, IfSome};
ghost use Rattle.legs.specs.Costs.{ShapeView};
ghost use Rattle.legs.specs.Limits.{LimitsView, IsLimits};
ghost use Rattle.tbnode.specs.Parts.{put};
ghost use Rattle.tbtree.specs.Shape.{IsShape};
ghost use Rattle.header.specs.Fields.{fields_bytes, first_of, header_payload, new_fields, root_of, FitsFields, HasFields, SaysLimits, SaysShape};
ghost use Rattle.header.specs.declared.header_fields.Fields.{Fields};

use crate::fronts::set_unfinished;
use crate::numbers::{u16_of, u32_of, u64_of};
use legs::Limits;
use pages::{Kind, Payload};
use tbnode::fields::{part, put_u16, put_u32, put_u64, u32_at};
use tbtree::Shape;

/// The shape and the limits of a database, its tree, and its catalogue.
#[derive(Clone, Copy)]
pub struct Fields {
    pub shape: Shape,
    pub limits: Limits,
    /// The page of the tree's root, 0 for none.
    pub root: u32,
    pub levels: u32,
    pub leaves: u32,
    /// The first page of the catalogue's text, 0 for none.
    pub first: u32,
    /// How long that text is.
    pub length: u64,
    pub dimension: u32,
}

/// Writes these over the 48 bytes behind the first 12.
fn put_bytes(bytes: &mut [u8], fields: &Fields)
    requires { length bytes.old ≡ 4056 }
    ensures put { bytes.new ≡ put 12 (fields_bytes fields.now) bytes.old }
    ensures fits { FitsFields fields.now × IsShape fields.now.shape × IsLimits fields.now.limits }
{
    put_u16(bytes, 12, fields.shape.leaf());
    put_u16(bytes, 14, fields.shape.inner());
    put_u64(bytes, 16, fields.limits.legs());
    put_u64(bytes, 24, u64::from(fields.limits.features()));
    put_u32(bytes, 32, fields.root);
    put_u32(bytes, 36, fields.levels);
    put_u32(bytes, 40, fields.leaves);
    put_u32(bytes, 44, fields.first);
    put_u64(bytes, 48, fields.length);
    put_u32(bytes, 56, fields.dimension);
}

/// Makes page 0 say these, and leaves all else in it as it was.
pub fn put_fields(payload: &mut Payload, fields: &Fields)
    // It writes the bytes of the fields behind the first twelve, and changes nothing else.
    ensures put { payload.new
        ≡ record payload.old { bytes = put 12 (fields_bytes fields.now) payload.old.bytes } }
    // The fields always fit: shape and limits are in range, and each number has room.
    ensures fits { FitsFields fields.now × IsShape fields.now.shape × IsLimits fields.now.limits }
    // Page 0 then says exactly these fields.
    ensures has { HasFields payload.new fields.now }
    // The first twelve bytes stay.
    ensures front { take 12 payload.new.bytes ≡ take 12 payload.old.bytes }
    // All bytes behind the fields stay.
    ensures rest { drop 60 payload.new.bytes ≡ drop 60 payload.old.bytes }
    // The kind of the page stays.
    ensures kind { payload.new.kind ≡ payload.old.kind }
{
    put_bytes(&mut payload.bytes, fields);
}

/// The shape that page 0 says; none where it is out of range.
fn shape_in(bytes: &[u8]) -> Option<Shape>
    requires { length bytes.now ≡ 4056 }
    ensures some { IfSome result (λ shape. SaysShape bytes.now shape) }
    ensures none { result ≡ None → (shape : ShapeView) → IsShape shape
        → SaysShape bytes.now shape → ⊥ }
{
    let leaf = u16_of(part(bytes, 12, 2));
    let inner = u16_of(part(bytes, 14, 2));
    Shape::new(leaf, inner)
}

/// The limits that page 0 says; none where they are out of range.
pub fn limits_in(bytes: &[u8]) -> Option<Limits>
    // The bytes are those of a payload.
    requires { length bytes.now ≡ 4056 }
    // The limits that it returns are those that the bytes say.
    ensures some { IfSome result (λ limits. SaysLimits bytes.now limits) }
    // It returns none only if the bytes say no limits that are in range.
    ensures none { result ≡ None → (limits : LimitsView) → IsLimits limits
        → SaysLimits bytes.now limits → ⊥ }
{
    let legs = u64_of(part(bytes, 16, 8));
    let features = u32::try_from(u64_of(part(bytes, 24, 8))).ok()?;
    Limits::new(legs, features)
}

/// What page 0 says; none where the shape or the limits are out of range.
pub fn fields_of(payload: &Payload) -> Option<Fields>
    // The fields that it returns are exactly those that page 0 says.
    ensures some { IfSome result (λ fields. HasFields payload.now fields) }
    // Their shape and limits are in range, and each number has room.
    ensures fits { IfSome result (λ fields. FitsFields fields × IsShape fields.shape
        × IsLimits fields.limits) }
    // It returns none only if page 0 says no fields that are in range.
    ensures none { result ≡ None → (fields : Fields) → IsShape fields.shape → IsLimits fields.limits
        → FitsFields fields → HasFields payload.now fields → ⊥ }
{
    let bytes = &payload.bytes;
    let shape = shape_in(bytes)?;
    let limits = limits_in(bytes)?;
    Some(Fields {
        shape,
        limits,
        root: u32_of(part(bytes, 32, 4)),
        levels: u32_of(part(bytes, 36, 4)),
        leaves: u32_of(part(bytes, 40, 4)),
        first: u32_of(part(bytes, 44, 4)),
        length: u64_of(part(bytes, 48, 8)),
        dimension: u32_of(part(bytes, 56, 4)),
    })
}

/// The page of the tree's root that a header names; 0 for none.
pub fn root_of(payload: &Payload) -> u32
    ensures { result ≡ root_of payload.now }
{
    u32_at(&payload.bytes, 32)
}

/// The first page of the catalogue's text that a header names; 0 for none.
pub fn first_of(payload: &Payload) -> u32
    ensures { result ≡ first_of payload.now }
{
    u32_at(&payload.bytes, 44)
}

/// What page 0 of a new store says: this shape and these limits, no tree and no catalogue.
fn new_fields(shape: Shape, limits: Limits) -> Fields
    ensures { result ≡ new_fields shape limits }
{
    Fields {
        shape,
        limits,
        root: 0,
        levels: 0,
        leaves: 0,
        first: 0,
        length: 0,
        dimension: 2,
    }
}

/// The payload of page 0 of a new store, which is not finished.
pub fn new_payload(shape: Shape, limits: Limits) -> Payload
    ensures { result ≡ header_payload shape limits }
{
    let mut payload = Payload::zero(Kind::Header);
    set_unfinished(&mut payload);
    put_fields(&mut payload, &new_fields(shape, limits));
    payload
}
