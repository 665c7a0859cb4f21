//! Laws of the flat map.
ghost use Rattle.std.specs.Prelude.{◌≡◌, ◌≢◌, ◌↔◌, ◌⊎◌, ℕ, List, Some, None, true, false, unwrap_or};
ghost use Rattle.std.specs.List.{IsDistinct};
ghost use Rattle.std.specs.List.Sorted.{IsPermutation};
ghost use Rattle.std.specs.Map.{keys_of};
ghost use Rattle.std.specs.declared.cmp.Ordering.{Ordering};
ghost use Rattle.std.specs.declared.cmp.Ordering.TheVariants.{Less, Equal};
ghost use Rattle.fab_base.specs.declared.object.Oid.{Oid as AnyOid};
ghost use Rattle.fab_base.specs.declared.object.Object.{Object as AnyObject};
ghost use Rattle.fab_base.specs.declared.object.Value.{Value as AnyValue};
ghost use Rattle.fab_base.specs.FieldSpelling.{IsOid, oid_bytes};
ghost use Rattle.fab_base.specs.FlatMap.{FlatMap, is_before, is_same, precedes, get, put, map_of, ascends};
ghost use Rattle.fab_map.specs.Changes.{field_in, put_field, removed};

use fab_base::Oid;

/// The order of names is total, and it is that of the 18 bytes that spell them.
pub fn names_in_order()
    ensures by_bytes { (a b : AnyOid) → IsOid a → IsOid b → is_before a b ≡ precedes (oid_bytes a) (oid_bytes b) }
    ensures same { (a b : AnyOid) → (is_same a b ≡ true) ↔ (a ≡ b) }
    ensures irreflexive { (a : AnyOid) → is_before a a ≡ false }
    ensures transitive { (a b c : AnyOid) → is_before a b ≡ true → is_before b c ≡ true → is_before a c ≡ true }
    ensures total { (a b : AnyOid) → (is_before a b ≡ true) ⊎ ((a ≡ b) ⊎ (is_before b a ≡ true)) }
{}

/// The comparison of names that is derived is that order.
pub fn names_compared()
    ensures less { (a b : AnyOid) → (⟦<Oid as Ord>⟧.cmp a b ≡ Less) ↔ (is_before a b ≡ true) }
    ensures equal { (a b : AnyOid) → (⟦<Oid as Ord>⟧.cmp a b ≡ Equal) ↔ (a ≡ b) }
{}

/// After an object is put it is found under its name, and what the others are is as before.
pub fn found_after_put()
    ensures this { (o : AnyOid) (x : AnyObject) (m : FlatMap) → get (put o x m) o ≡ Some x }
    ensures others { (o p : AnyOid) (x : AnyObject) (m : FlatMap) → o ≢ p → get (put o x m) p ≡ get m p }
{}

/// Names ascend in what is put together, and a list of ascending names is determined by what is
/// found in it. So such a list stands for the finite map.
pub fn ascending_rows()
    ensures put { (o : AnyOid) (x : AnyObject) (m : FlatMap) → ascends m ≡ true → ascends (put o x m) ≡ true }
    ensures made { (rows : FlatMap) → ascends (map_of rows) ≡ true }
    ensures determined { (l m : FlatMap) → ascends l ≡ true → ascends m ≡ true → ((o : AnyOid) → get l o ≡ get m o) → l ≡ m }
{}

/// A map made of rows of distinct names has these, whatever their order; made of a map's own rows
/// it is that map.
pub fn rows_of_map()
    ensures found { (rows : FlatMap) (o : AnyOid) → IsDistinct is_same (keys_of rows) → get (map_of rows) o ≡ get rows o }
    ensures any_order { (rows others : FlatMap) → IsPermutation rows others → IsDistinct is_same (keys_of rows) → map_of rows ≡ map_of others }
    ensures distinct { (m : FlatMap) → ascends m ≡ true → IsDistinct is_same (keys_of m) }
    ensures own { (m : FlatMap) → ascends m ≡ true → map_of m ≡ m }
{}

/// What was done to a map can be undone: an object of a new name is taken away again, and what a
/// field held is written again.
pub fn changes_undone()
    ensures put { (o : AnyOid) (x : AnyObject) (m : FlatMap) → get m o ≡ None → removed o (put o x m) ≡ m }
    ensures field { (o : AnyOid) (i : ℕ) (v d : AnyValue) (m : FlatMap) → ascends m ≡ true → put_field o i (unwrap_or (field_in i (get m o)) d) (put_field o i v m) ≡ m }
{}
