//! The fields, written at the end of some bytes.

ghost use Rattle.std.specs.Prelude.{◌≡◌, ◌++◌, ◌∷◌, [], OnOk};
ghost use Rattle.fab_base.specs.FieldSpelling.{IsOid, IsTid, IsValue, four_bytes, oid_bytes, tid_bytes, two_bytes, value_bytes, sent_version};

use byteorder::{BigEndian, ByteOrder};
use fab_base::{NoMemory, Oid, Seq, Tid, Value};

/// A byte at the end.
pub fn put_u8(out: &mut Seq<u8>, n: u8) -> Result<(), NoMemory>
    ensures { OnOk result (out.new ≡ out.old ++ n ∷ []) }
{
    out.push(n)
}

/// A number at the end, in two bytes, big-endian.
pub fn put_u16(out: &mut Seq<u8>, n: u16) -> Result<(), NoMemory>
    ensures { OnOk result (out.new ≡ out.old ++ two_bytes n) }
{
    let mut bytes = [0; 2];
    BigEndian::write_u16(&mut bytes, n);
    out.extend(&bytes)
}

/// A number at the end, in four bytes, big-endian.
pub fn put_u32(out: &mut Seq<u8>, n: u32) -> Result<(), NoMemory>
    ensures { OnOk result (out.new ≡ out.old ++ four_bytes n) }
{
    let mut bytes = [0; 4];
    BigEndian::write_u32(&mut bytes, n);
    out.extend(&bytes)
}

/// A transaction's name at the end, 10 bytes.
pub fn put_tid(out: &mut Seq<u8>, tid: Tid) -> Result<(), NoMemory>
    ensures bytes { OnOk result (out.new ≡ out.old ++ tid_bytes tid) }
    ensures fits { IsTid tid }
{
    put_u16(out, tid.worker)?;
    put_u32(out, tid.boot)?;
    put_u32(out, tid.number)
}

/// An object's name at the end, 18 bytes.
pub fn put_oid(out: &mut Seq<u8>, oid: Oid) -> Result<(), NoMemory>
    ensures bytes { OnOk result (out.new ≡ out.old ++ oid_bytes oid) }
    ensures fits { IsOid oid }
{
    put_u16(out, oid.store)?;
    put_u16(out, oid.class)?;
    put_u16(out, oid.worker)?;
    put_u32(out, oid.boot)?;
    put_u32(out, oid.number)?;
    put_u16(out, oid.site)?;
    put_u16(out, oid.index)?;
    Ok(())
}

/// A value at the end: its tag, and a number, nothing or an object's name.
pub fn put_value(out: &mut Seq<u8>, value: Value) -> Result<(), NoMemory>
    ensures bytes { OnOk result (out.new ≡ out.old ++ value_bytes value) }
    ensures fits { IsValue sent_version value }
{
    match value {
        Value::Int(n) => {
            put_u8(out, 0)?;
            put_u32(out, n.cast_unsigned())
        }
        Value::Null => put_u8(out, 1),
        Value::Ref(oid) => {
            put_u8(out, 2)?;
            put_oid(out, oid)?;
            Ok(())
        }
    }
}
