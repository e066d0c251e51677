//! Laws about the byte at each address.
//!
//! The definition `byte_from_history` computes this byte from the journal's items and the fills.
//! `byte_after_items` says how a call changes a byte, whatever it was before; contracts of calls
//! use it. One law gives the bytes after two calls in turn, and another says that both definitions
//! agree. A caller can therefore keep `AreBytesFromHistory` true from call to call and from fill to
//! fill.
//!
//! At the addresses of a table the byte is that of the table, whatever was written there before.
//! When an item moves the table away, the byte becomes 0. Only the laws about one table's own bytes
//! require that the two tables don't overlap.
ghost use Rattle.std.specs.Prelude.{◌≡◌, ℕ, ◌*◌, true, false, List, [], ◌∷◌, ◌++◌, length};
ghost use Rattle.bm_base.specs.Range.{RangeView, covers};
ghost use Rattle.phys_store.specs.Bytes.{byte_of, bytes_at};
ghost use Rattle.address_runs.specs.Runs.{RunOf};
ghost use Rattle.memblock_model.specs.Labels.{LabelView};
ghost use Rattle.memblock_model.specs.declared.owner.Which.{Which};
ghost use Rattle.memblock_model.specs.declared.owner.Which.TheVariants as which;
ghost use Rattle.memblock_model.specs.declared.item.Item.{Item};
ghost use Rattle.memblock_model.specs.Tables.{records_of, room_of, table_place, table_bytes};
ghost use Rattle.memblock_ranges.specs.Encoding.{encode_table};
ghost use Rattle.memblock_ranges.specs.Tables.{TablesView, table_in, table_range_in, IsInStore};
ghost use Rattle.growth_model.specs.Tables.{TablesAreClaimed, TablesHaveRoom, OverlapsNoTable};
ghost use Rattle.growth_model.specs.Bytes.{table_from_items, table_byte_at, byte_with_tables, TablesAreEncoded, byte_without_table, byte_after_items, byte_from_history, Fill, byte_after_fill, AreFillsUpTo, Follows, AreBytesFromHistory};

/// Law: the byte at an address can be computed call by call. `byte_after_items` for the items of
/// one call, and then for those of the next call, gives the same byte as `byte_after_items` for the
/// items of both. `byte_from_history` agrees with it: if no fill was made in between,
/// `byte_after_items` turns the byte that the earlier items and the fills define into the one that
/// all items and the fills define.
pub fn byte_effects_compose()
    ensures after { (kernel : RangeView) (items more further : List Item) (x b : ℕ) →
        byte_after_items kernel (items ++ more) ((items ++ more) ++ further) x
        (byte_after_items kernel items (items ++ more) x b)
        ≡ byte_after_items kernel items ((items ++ more) ++ further) x b }
    ensures byte { (kernel : RangeView) (items more : List Item) (fills : List Fill) (x : ℕ)
        → AreFillsUpTo (length items) fills →
        byte_after_items kernel items (items ++ more) x (byte_from_history kernel items fills x)
        ≡ byte_from_history kernel (items ++ more) fills x }
{}

/// Law: after a fill that overlaps no table, each byte of its range is the fill's byte, whatever
/// was written there before. Every other byte is unchanged.
pub fn newest_fill_decides()
    ensures { (kernel : RangeView) (items : List Item) (fills : List Fill) (f : Fill) (x : ℕ) →
        f.at ≡ length items → OverlapsNoTable kernel f.range items →
        byte_from_history kernel items (fills ++ f ∷ []) x
        ≡ byte_after_fill f x (byte_from_history kernel items fills x) }
{}

/// Law: the bytes after two calls in turn are those after one call that writes the items of both.
/// After each call, the bytes at each table's addresses are the encoding of its records. If each
/// byte is the one that the items and the fills define, that is still true after another call, and
/// after a fill that overlaps no table.
pub fn bytes_compose_over_calls()
    ensures then { (kernel : RangeView) (items mid last : List Item) (f g h : ℕ → ℕ) →
        Follows kernel items mid f g → Follows kernel mid last g h → Follows kernel items last f h }
    ensures spelled { (kernel : RangeView) (items longer : List Item) (f g : ℕ → ℕ)
        → Follows kernel items longer f g →
        TablesAreEncoded (table_from_items which.Memory kernel longer)
        (table_from_items which.Reserved kernel longer) g }
    ensures call { (kernel : RangeView) (items longer : List Item) (fills : List Fill) (f g : ℕ → ℕ)
        →
        AreBytesFromHistory kernel items fills f → Follows kernel items longer f g
        → AreBytesFromHistory kernel longer fills g }
    ensures fill { (kernel : RangeView) (items : List Item) (fills : List Fill) (fill : Fill)
        (f g : ℕ → ℕ) →
        AreBytesFromHistory kernel items fills f → fill.at ≡ length items
        → OverlapsNoTable kernel fill.range items →
        ((x : ℕ) → g x ≡ byte_after_fill fill x (f x))
        → AreBytesFromHistory kernel items (fills ++ fill ∷ []) g }
{}

/// Law: assume that `TablesAreEncoded` holds and that both tables lie in claimed memory, apart from
/// each other. Then each byte at a table's addresses is that of the encoding of its records. If the
/// tables have room for their records, the bytes of each table, as a list, are that encoding.
pub fn tables_are_encoded()
    ensures each { (w : Which) (kernel : RangeView) (items : List Item) (f : ℕ → ℕ) (x : ℕ)
        → TablesAreClaimed kernel items →
        TablesAreEncoded (table_from_items which.Memory kernel items)
        (table_from_items which.Reserved kernel items) f →
        covers (table_bytes w kernel items) x ≡ true
        → f x ≡ table_byte_at (table_from_items w kernel items) x }
    ensures list { (w : Which) (kernel : RangeView) (items : List Item) (f : ℕ → ℕ)
        → TablesAreClaimed kernel items → TablesHaveRoom items →
        TablesAreEncoded (table_from_items which.Memory kernel items)
        (table_from_items which.Reserved kernel items) f →
        bytes_at f (table_place w kernel items) (24 * room_of w items)
        ≡ encode_table (records_of w items) (room_of w items) }
{}

/// Law: assume that an edit of one table's records changes no byte outside that table, and that
/// both tables are encoded in the store after it. Then each byte inside a table is that of its
/// encoding, and every other byte is unchanged. After a move of one table this is also true, except
/// that the bytes that it left are 0.
pub fn edits_change_only_table_bytes()
    ensures edited { (w : Which) (old new : TablesView) (records : List (RunOf LabelView)) →
        table_in w new ≡ record (table_in w old) { records = records } →
        ((x : ℕ) → covers (table_range_in w old) x ≡ false → byte_of new.store x ≡ byte_of
        old.store x) →
        IsInStore new.memory new.store → IsInStore new.reserved new.store → (x : ℕ) →
        byte_of new.store x ≡ byte_with_tables new.memory new.reserved x (byte_of old.store x) }
    ensures moved { (w : Which) (old new : TablesView) →
        ((x : ℕ) → covers (table_range_in w old) x ≡ true → byte_of new.store x ≡ 0) →
        ((x : ℕ) → covers (table_range_in w new) x ≡ false → covers (table_range_in w old) x ≡
        false →
        byte_of new.store x ≡ byte_of old.store x) →
        IsInStore new.memory new.store → IsInStore new.reserved new.store → (x : ℕ) →
        byte_of new.store x ≡ byte_with_tables new.memory new.reserved x
        (byte_without_table (table_in w old) x (byte_of old.store x)) }
{}
