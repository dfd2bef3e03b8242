//! Laws about the definitions alone: each function's contract is the law.
ghost use Rattle.std.specs.Prelude.{◌≡◌, ◌↔◌, ◌∷◌, [], ℕ, All, List, None};
ghost use Rattle.std.specs.Prelude.{Contains};
ghost use Rattle.lang_core.specs.Text.{pieces, pieces_by};
ghost use Rattle.list_core.specs.Fallbacks.{IsFieldBy, IsFirstBad, IsTable, chain_of};
ghost use Rattle.list_core.specs.Item.{Item};
ghost use Rattle.list_core.specs.declared.fallbacks.Fallback.{Fallback};
ghost use Rattle.list_core.specs.Field.{IsPadded};
ghost use Rattle.list_core.specs.declared.scheme.Scheme.{Scheme};
ghost use Rattle.list_core.specs.LookupOrder.{IsOrder};
ghost use Rattle.list_core.specs.Deciding.{Matches, IsDeciding, IsDecidedBy, NamedRefuse};
ghost use Rattle.list_core.specs.Deciding.{named_items};
ghost use Rattle.list_core.specs.declared.scheme.Scheme.TheVariants as scheme;
ghost use Rattle.list_core.specs.Field.{IsField, IsFirstMalformed, IsOfOneKind};
ghost use Rattle.list_core.specs.declared.field.Malformed.{Malformed};
ghost use Rattle.list_core.specs.declared.field.Malformed.TheVariants.{Refused, PassedOver};

/// A field gives one list of items (RFC 9110 section 12.5.4), and one where malformed elements are
/// skipped.
pub fn one_item_list()
    ensures { (scheme : Scheme) (malformed : Malformed) (bytes : List ℕ) (a b : List Item)
        → IsField scheme malformed bytes a → IsField scheme malformed bytes b → a ≡ b }
{}

/// A field without a malformed element gives the same items where such are skipped.
pub fn same_items_where_none_is_malformed()
    ensures { (scheme : Scheme) (bytes : List ℕ) (items : List Item)
        → IsField scheme Refused bytes items → IsField scheme PassedOver bytes items }
{}

/// The items of a field are those of its elements. So skipping malformed ones takes nothing else
/// away.
pub fn items_are_of_elements()
    ensures { (scheme : Scheme) (malformed : Malformed) (bytes : List ℕ) (items : List Item)
        → IsField scheme malformed bytes items → (item : Item) → Contains items item
        ↔ ((piece : List ℕ) × Contains (pieces_by 44 bytes) piece × IsPadded scheme piece item) }
{}

/// A field gives a list without a weight 0 beside a range that is not basic.
pub fn field_is_of_one_kind()
    ensures { (scheme : Scheme) (malformed : Malformed) (bytes : List ℕ) (items : List Item)
        → IsField scheme malformed bytes items → IsOfOneKind items }
{}

/// The items other than "*" refuse a tag exactly where the list without "*" does.
pub fn named_refuse_alone()
    ensures { (items : List Item) (tag : List (List ℕ)) → NamedRefuse items tag
        ↔ ((place : ℕ) × IsDecidedBy scheme.Basic (named_items items) tag place 0) }
{}

/// There is one order of a list's items.
pub fn one_order()
    ensures { (items a b : List Item) → IsOrder items a → IsOrder items b → a ≡ b }
{}

/// A field with a malformed element gives no items where such are refused.
pub fn malformed_is_no_field()
    ensures { (scheme : Scheme) (bytes : List ℕ) (offset : ℕ) (items : List Item)
        → IsFirstMalformed scheme bytes offset → ¬ IsField scheme Refused bytes items }
{}

/// The first malformed element of a field begins at one offset.
pub fn one_malformed_offset()
    ensures { (scheme : Scheme) (bytes : List ℕ) (a b : ℕ)
        → IsFirstMalformed scheme bytes a → IsFirstMalformed scheme bytes b → a ≡ b }
{}

/// A tag has one deciding item.
pub fn one_deciding()
    ensures { (scheme : Scheme) (items : List Item) (tag : List (List ℕ)) (p q : ℕ)
        → IsDeciding scheme items tag p → IsDeciding scheme items tag q → q ≡ p }
{}

/// Where the range of an item matches a tag, some item decides it.
pub fn a_match_has_a_deciding_item()
    ensures { (scheme : Scheme) (items : List Item) (tag : List (List ℕ)) (item : Item)
        → Contains items item → Matches scheme (pieces item.range) tag
        → (place : ℕ) × IsDeciding scheme items tag place }
{}

/// A field lists no texts for lookup: what it tries is each range and its truncations (RFC 4647
/// section 3.4).
pub fn a_field_lists_no_texts()
    ensures { (scheme : Scheme) (malformed : Malformed) (bytes : List ℕ) (items : List Item)
        → IsField scheme malformed bytes items → All (λ i. i.listed ≡ None) items }
{}

/// By a table without elements a field gives just the items that it gives without a table.
pub fn an_empty_table_changes_nothing()
    ensures { (scheme : Scheme) (malformed : Malformed) (bytes : List ℕ) (items : List Item)
        → IsFieldBy [] scheme malformed bytes items ↔ IsField scheme malformed bytes items }
{}

/// What lookup tries by a table begins with the text itself.
pub fn a_chain_begins_with_its_text()
    ensures { (table : List Fallback) (text : List ℕ)
        → (rest : List (List ℕ)) × (chain_of table text ≡ text ∷ rest) }
{}

/// A text has one table.
pub fn one_table()
    ensures { (bytes : List ℕ) (a b : List Fallback) → IsTable bytes a → IsTable bytes b → a ≡ b }
{}

/// A text with a bad element is no table.
pub fn a_bad_element_is_no_table()
    ensures { (bytes : List ℕ) (offset : ℕ) (table : List Fallback)
        → IsFirstBad bytes offset → ¬ IsTable bytes table }
{}

/// The first bad element of a text begins at one offset.
pub fn one_bad_offset()
    ensures { (bytes : List ℕ) (a b : ℕ) → IsFirstBad bytes a → IsFirstBad bytes b → a ≡ b }
{}
