//! Lists and what holds them, written at the end of some bytes.

ghost use Rattle.std.specs.Prelude.{◌≡◌, ◌≤◌, ◌++◌, OnOk, length};
ghost use Rattle.std.specs.List.{All, flat_map};
ghost use Rattle.fab_base.specs.FieldSpelling.{AreItems, IsCreate, IsObject, IsRead, IsValue, IsWrite, KeepsItems, sent_version};
ghost use Rattle.fab_base.specs.FieldSpelling.{create_bytes, items_bytes, object_bytes, read_bytes, value_bytes, write_bytes};

use crate::writing::{put_oid, put_u8, put_u16, put_u32, put_value};
use fab_base::{Items, NoMemory, Object, Oid, Seq, Value};

fn put_values(out: &mut Seq<u8>, values: &[Value]) -> Result<(), NoMemory>
    ensures bytes { OnOk result (out.new ≡ out.old ++ flat_map value_bytes values.now) }
    ensures fits { OnOk result (All (IsValue sent_version) values.now) }
{
    for value in values {
        put_value(out, *value)?;
    }
    Ok(())
}

/// An object of at most 16 fields, at the end of the bytes.
pub fn put_object(out: &mut Seq<u8>, object: &Object) -> Result<(), NoMemory>
    requires { length object.now.fields ≤ 16 }
    ensures bytes { OnOk result (out.new ≡ out.old ++ object_bytes object.now) }
    ensures fits { OnOk result (IsObject sent_version object.now) }
{
    put_u16(out, object.class)?;
    put_u8(out, object.fields.len() as u8)?;
    put_values(out, object.fields.as_slice())?;
    Ok(())
}

fn put_read(out: &mut Seq<u8>, read: &(Oid, u32)) -> Result<(), NoMemory>
    ensures bytes { OnOk result (out.new ≡ out.old ++ read_bytes read.now) }
    ensures fits { OnOk result (IsRead read.now) }
{
    put_oid(out, read.0)?;
    put_u32(out, read.1)?;
    Ok(())
}

fn put_write(out: &mut Seq<u8>, write: &(Oid, u32, Object)) -> Result<(), NoMemory>
    requires { length write.now.2.fields ≤ 16 }
    ensures bytes { OnOk result (out.new ≡ out.old ++ write_bytes write.now) }
    ensures fits { OnOk result (IsWrite sent_version write.now) }
{
    put_oid(out, write.0)?;
    put_u32(out, write.1)?;
    put_object(out, &write.2)?;
    Ok(())
}

fn put_create(out: &mut Seq<u8>, create: &(Oid, Object)) -> Result<(), NoMemory>
    requires { length create.now.1.fields ≤ 16 }
    ensures bytes { OnOk result (out.new ≡ out.old ++ create_bytes create.now) }
    ensures fits { OnOk result (IsCreate sent_version create.now) }
{
    put_oid(out, create.0)?;
    put_object(out, &create.1)?;
    Ok(())
}

fn put_reads(out: &mut Seq<u8>, reads: &[(Oid, u32)]) -> Result<(), NoMemory>
    ensures bytes { OnOk result (out.new ≡ out.old ++ flat_map read_bytes reads.now) }
    ensures fits { OnOk result (All IsRead reads.now) }
{
    for read in reads {
        put_read(out, read)?;
    }
    Ok(())
}

fn put_writes(out: &mut Seq<u8>, writes: &[(Oid, u32, Object)]) -> Result<(), NoMemory>
    requires { All (λ w. length w.2.fields ≤ 16) writes.now }
    ensures bytes { OnOk result (out.new ≡ out.old ++ flat_map write_bytes writes.now) }
    ensures fits { OnOk result (All (IsWrite sent_version) writes.now) }
{
    for write in writes {
        put_write(out, write)?;
    }
    Ok(())
}

fn put_creates(out: &mut Seq<u8>, creates: &[(Oid, Object)]) -> Result<(), NoMemory>
    requires { All (λ c. length c.1.fields ≤ 16) creates.now }
    ensures bytes { OnOk result (out.new ≡ out.old ++ flat_map create_bytes creates.now) }
    ensures fits { OnOk result (All (IsCreate sent_version) creates.now) }
{
    for create in creates {
        put_create(out, create)?;
    }
    Ok(())
}

/// Items whose counts are in range, at the end of the bytes.
pub fn put_items(out: &mut Seq<u8>, items: &Items) -> Result<(), NoMemory>
    requires { KeepsItems items.now }
    ensures bytes { OnOk result (out.new ≡ out.old ++ items_bytes items.now) }
    ensures fits { OnOk result (AreItems sent_version items.now) }
{
    put_u16(out, items.reads.len() as u16)?;
    put_reads(out, items.reads.as_slice())?;
    put_u16(out, items.writes.len() as u16)?;
    put_writes(out, items.writes.as_slice())?;
    put_u16(out, items.creates.len() as u16)?;
    put_creates(out, items.creates.as_slice())?;
    Ok(())
}
