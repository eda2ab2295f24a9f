// What holds of each two keys.
ghost use Rattle.std.specs.Prelude.{◌≡◌, ◌↔◌, List, Bool, IsTrue};
ghost use Rattle.std.specs.Ordering.{is_lt, nat_cmp};
ghost use Rattle.std.specs.Cmp.Lexicographic.{slice_cmp};
ghost use Rattle.mdc_words.specs.ByteOrder.{below};
ghost use Rattle.mdc_values.specs.declared.value.ColType.{ColType};
ghost use Rattle.mdc_values.specs.declared.value.Value.{Value};
ghost use Rattle.mdc_values.specs.Order.{order};
ghost use Rattle.mdc_ast.specs.declared.definition.ColumnDef.{ColumnDef};
ghost use Rattle.mdc_ast.specs.declared.definition.KeyPart.{KeyPart};
ghost use Rattle.mdc_ast.specs.Database.{fits_all};
ghost use Rattle.key_codec.specs.Keys.{ArePartsOf, has_key, key_bytes, part_bytes};
ghost use Rattle.mdc_ast.specs.ValidDatabase.{AreSameAtParts};
ghost use Rattle.key_codec.specs.KeyOrder.{order_by_parts, turned_order};

/// Byte order of parts is SQL order of values, nulls high, and reversed for a descending part.
pub fn values_go_as_parts()
    ensures { (ty : ColType) (descending : Bool) (a b : Value) → IsTrue (has_key ty a) → IsTrue (has_key ty b)
        → slice_cmp nat_cmp (part_bytes ty descending a) (part_bytes ty descending b) ≡ turned_order descending (order a b) }
{}

/// Byte order of keys is SQL order of rows, part by part, and equal keys have equal values.
pub fn keys_go_as_rows()
    ensures order { (columns : List ColumnDef) (parts : List KeyPart) (a b : List Value) → ArePartsOf columns parts
        → IsTrue (fits_all columns a) → IsTrue (fits_all columns b)
        → slice_cmp nat_cmp (key_bytes columns parts a) (key_bytes columns parts b) ≡ order_by_parts parts a b }
    ensures below { (columns : List ColumnDef) (parts : List KeyPart) (a b : List Value) → ArePartsOf columns parts
        → IsTrue (fits_all columns a) → IsTrue (fits_all columns b)
        → below (key_bytes columns parts a) (key_bytes columns parts b) ≡ is_lt (order_by_parts parts a b) }
    ensures same { (columns : List ColumnDef) (parts : List KeyPart) (a b : List Value) → ArePartsOf columns parts
        → IsTrue (fits_all columns a) → IsTrue (fits_all columns b)
        → (key_bytes columns parts a ≡ key_bytes columns parts b) ↔ AreSameAtParts parts a b }
{}
