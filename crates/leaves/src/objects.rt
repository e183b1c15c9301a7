// checksum.rs, obj.rs and dev.rs.
ghost use Rattle.std.specs.Prelude.{◌≡◌, length};
ghost use Rattle.error.specs.declared.Refusal.TheVariants.{Io};
ghost use Rattle.byte_fields.specs.Part.{span_at};
ghost use Rattle.checksum.specs.Fletcher.{checksum, valid};
ghost use Rattle.obj.specs.Header.{header_at};
ghost use Rattle.leaves.specs.Leaves.{header_field, field_of, refusal_in, one_if};

use crate::answers::{one_if, refusal_in};
use obj::ObjHeader;

#[unsafe(no_mangle)]
pub extern "C" fn leaf_compute(object: &[u8]) -> u64
    ensures { result ≡ checksum object.now }
{
    checksum::compute(object)
}

#[unsafe(no_mangle)]
pub extern "C" fn leaf_verify(object: &[u8]) -> u64
    ensures { result ≡ one_if (valid object.now) }
{
    one_if(checksum::verify(object))
}

// A field by its number: cksum, oid, xid, type, subtype, kind.
#[tactic(auto, unfolding(crate::specs::Leaves::field_of, error::specs::Answer::if_le, error::specs::Answer::if_eq))]
fn field_of(h: ObjHeader, field: u64) -> u64
    ensures { result ≡ field_of field h }
{
    if field == 0 {
        return h.cksum;
    }
    if field == 1 {
        return h.oid;
    }
    if field == 2 {
        return h.xid;
    }
    if field == 3 {
        return h.obj_type as u64;
    }
    if field == 4 {
        return h.subtype as u64;
    }
    if field == 5 {
        return h.kind() as u64;
    }
    0
}

#[unsafe(no_mangle)]
pub extern "C" fn leaf_header(b: &[u8], field: u64) -> u64
    ensures { result ≡ header_field field (header_at b.now) }
{
    match obj::parse(b) {
        Ok(h) => field_of(h, field),
        Err(_) => 0,
    }
}

#[unsafe(no_mangle)]
pub extern "C" fn leaf_header_refused(b: &[u8]) -> u64
    ensures { result ≡ refusal_in (header_at b.now) }
{
    refusal_in(obj::parse(b))
}

#[unsafe(no_mangle)]
pub extern "C" fn leaf_read_at(image: &[u8], off: u64, len: usize) -> u64
    ensures { result ≡ refusal_in (span_at Io (length image.now) off len) }
{
    refusal_in(obj::read_at(image, off, len))
}
