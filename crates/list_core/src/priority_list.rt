//! Priority lists (RFC 4647 section 2.3), and how they are read from a field.
ghost use Rattle.std.specs.Prelude.{◌≡◌, ◌≤◌, ◌<◌, ◌==◌, ℕ, false, length, All, MatchResult};
ghost use Rattle.std.specs.Prelude.{IfOk, IfSome, List, MatchOption, map};
ghost use Rattle.std.specs.List.{list_any};
ghost use Rattle.std.specs.Cmp as laws_of;
ghost use Rattle.std.specs.Cmp.Lexicographic.{pointwise, lists_equiv};
ghost use Rattle.lang_core.specs.Text.{pieces};
ghost use Rattle.list_core.specs.Item.{AllPositive, item_eq};
ghost use Rattle.list_core.specs.inner.Item.{item_equiv};
ghost use Rattle.list_core.specs.Basics.{IsTheOne};
ghost use Rattle.list_core.specs.Fallbacks.{IsFieldBy, with_fallbacks};
ghost use Rattle.list_core.specs.Deciding.{IsDeciding, IsDecidedBy, IsDecidingWeight};
ghost use Rattle.list_core.specs.Deciding.{DecidesLang, Matches, MatchesLang};
ghost use Rattle.list_core.specs.FirstTried.{AreFirstsIfAny, IsFirstTried};
ghost use Rattle.list_core.specs.LookupOrder.{AreOrderKeys};
ghost use Rattle.list_core.specs.declared.lookup_order.OrderKey.{OrderKey};
ghost use Rattle.list_core.specs.Index.{IsIndex};
ghost use Rattle.list_core.specs.Field.{IsField, IsAccept, IsAcceptRanges, IsOfOneKind};
ghost use Rattle.list_core.specs.Field.{RefusesField};
ghost use Rattle.list_core.specs.declared.scheme.Scheme.TheVariants.{Basic, Extended};
ghost use Rattle.list_core.specs.declared.field.Malformed.TheVariants.{Refused};
ghost use Rattle.list_core.specs.declared.fault.NegoFault.TheVariants.{NoMemory};

use crate::deciding::Decision;
use crate::fallbacks::Fallbacks;
use crate::fault::NegoFault;
use crate::field::{Malformed, read_items};
use crate::first_tried::{first_basic_match, first_extended_match, first_match, first_tried_of};
use crate::index::{Index, index_of};
use crate::indexed_items::IndexedItems;
use crate::item::Item;
use crate::lookup_order::{OrderKey, order_of};
use crate::scheme::Scheme;
use lang_core::{Lang, Tag};
use std::alloc::{AllocError, Global};
use std::fmt;
use std::marker::Model;

/// Ranges with weights, in the order in which they were written (RFC 4647 section 2.3).
#[derive(Drop)]
pub struct PriorityList {
    items: Vec<Item>,
    /// When lookup tries each item.
    order: Vec<OrderKey>,
    /// What makes questions fast, where there are many items.
    index: Option<Index>,
    /// Where in `order` a range of each text is first tried, at the place of the first item with
    /// this text. It is empty where the items are compared one by one.
    firsts: Vec<usize>,
    /// Whether an item may have weight 0, and so refuse what it decides.
    may_refuse: bool,
}

impl Model for PriorityList {
    ghost use Rattle.std.specs.Prelude.{◌≡◌, ◌≤◌, false, List, All, IfSome};
    ghost use Rattle.list_core.specs.Item.{AllPositive, Item};

    ghost Value = { List Item };

    ghost use Rattle.list_core.specs.Field.{IsOfOneKind};
    ghost use Rattle.list_core.specs.FirstTried.{AreFirstsIfAny};
    ghost use Rattle.list_core.specs.LookupOrder.{AreOrderKeys};
    ghost use Rattle.list_core.specs.Index.{IsIndex};

    ghost view = { λ l. l.items.items };

    ghost invariant = { λ l. AreOrderKeys l.items.items l.order.items
        × IfSome l.index (IsIndex l.items.items)
        × AreFirstsIfAny l.items.items l.order.items l.firsts.items
        × (l.may_refuse ≡ false → AllPositive l.items.items)
        × IsOfOneKind l.items.items
        × All (λ i. i.weight ≤ 1000) l.items.items };
}

impl PriorityList {
    /// The list of a field, read under a scheme.
    ///
    /// Under `Scheme::Basic` the elements between commas are basic ranges, each with a weight or
    /// none, which is 1000 (Accept-Language, RFC 9110 section 12.5.4); under `Scheme::Extended`
    /// extended ranges without weights (RFC 4647 section 2.2), each of weight 1000. Blanks (spaces
    /// and tabs) are allowed around an element and around the ";" before its weight. What is empty
    /// or blank between commas is no element, so an empty field gives the empty list.
    ///
    /// `Malformed` says what becomes of a malformed element. Skipping it takes nothing else away:
    /// `en_US, fr` gives fr alone. It may be one that refuses a language, as `de;q=0.0000`.
    ///
    /// Refusals: `FieldTooLong` where the field has more than 65,535 bytes; else, at the first
    /// malformed element where such are refused, `FieldMalformed` with the offset in the field at
    /// which the element begins. `NoMemory` comes only where an element fits, and then perhaps
    /// before a malformed one further on.
    pub fn parse(
        alloc: Global,
        scheme: Scheme,
        malformed: Malformed,
        field: &[u8],
    ) -> Result<PriorityList, NegoFault>
        ensures { MatchResult result
            (λ list. (length field.now ≤ 65535) × IsField scheme malformed field.now list)
            (RefusesField scheme malformed field.now) }
    {
        let items = read_items(alloc, scheme, malformed, field)?;
        list_of(alloc, scheme, items)
    }

    /// The same for lookup by a table of fallbacks: what it tries for a range is the chain of the
    /// range's lookup text, in place of that and its truncations. Nothing else differs, and by the
    /// table without elements nothing does.
    pub fn parse_with(
        alloc: Global,
        scheme: Scheme,
        malformed: Malformed,
        fallbacks: &Fallbacks,
        field: &[u8],
    ) -> Result<PriorityList, NegoFault>
        ensures { MatchResult result (λ list. (length field.now ≤ 65535)
            × IsFieldBy fallbacks.now scheme malformed field.now list)
            (RefusesField scheme malformed field.now) }
    {
        let items = read_items(alloc, scheme, malformed, field)?;
        let items = with_chains(alloc, fallbacks, items)?;
        list_of(alloc, scheme, items)
    }

    /// The list of an Accept-Language field (RFC 9110 section 12.5.4): `parse` under
    /// `Scheme::Basic`, with its refusals, where the first malformed element refuses the field.
    pub fn from_accept(alloc: Global, field: &[u8]) -> Result<PriorityList, NegoFault>
        ensures { MatchResult result (λ list. (length field.now ≤ 65535) × IsAccept field.now list)
            (RefusesField Basic Refused field.now) }
    {
        PriorityList::parse(alloc, Scheme::Basic, Malformed::Refused, field)
    }

    /// The list of extended ranges between commas (RFC 4647 section 2.2): `parse` under
    /// `Scheme::Extended`, with its refusals, where the first malformed element refuses the field.
    pub fn from_ranges(alloc: Global, field: &[u8]) -> Result<PriorityList, NegoFault>
        ensures { MatchResult result
            (λ list. (length field.now ≤ 65535) × IsAcceptRanges field.now list)
            (RefusesField Extended Refused field.now) }
    {
        PriorityList::parse(alloc, Scheme::Extended, Malformed::Refused, field)
    }

    /// The items in written order. No list has a weight 0 beside a range that is not basic.
    pub fn items(&self) -> &[Item]
        ensures items { result.now ≡ self.now }
        ensures one_kind { IsOfOneKind self.now }
        ensures small { All (λ i. i.weight ≤ 1000) self.now }
    {
        &self.items
    }

    /// When lookup tries each item, in order.
    pub fn order(&self) -> &[OrderKey]
        ensures { AreOrderKeys self.now result.now }
    {
        self.order.as_slice()
    }

    /// Where in `order` an item is first tried that matches the language, or the number of its keys
    /// where none does. None matches `@none`.
    pub fn first_tried(&self, scheme: Scheme, lang: &Lang) -> usize
        ensures { (keys : List OrderKey) → AreOrderKeys self.now keys
            → IsFirstTried (λ i. MatchesLang scheme i lang.now) self.now keys result }
    {
        match lang.tag() {
            Some(tag) => self.first_match(scheme, tag),
            None => self.order().len(),
        }
    }

    /// The items with their index.
    pub fn indexed_items(&self) -> IndexedItems<'_>
        ensures { result ≡ self.now }
    {
        IndexedItems::new(&self.items, self.index.as_ref())
    }

    /// Whether an item may have weight 0, and so refuse what it decides.
    pub fn may_refuse(&self) -> bool
        ensures { result ≡ false → AllPositive self.now }
    {
        self.may_refuse
    }

    /// The place of the item that decides the tag: of those whose ranges match, the one with the
    /// most subtags other than "*", the first written among equals; none exactly where none match.
    pub fn item_for(&self, scheme: Scheme, tag: &Tag) -> Option<usize>
        ensures { IsTheOne result (IsDeciding scheme self.now (pieces tag.now)) }
    {
        match self.decide(scheme, tag) {
            Some(decision) => Some(decision.place),
            None => None,
        }
    }

    /// The weight of the item that decides the tag, 0 included.
    pub fn weight_for(&self, scheme: Scheme, tag: &Tag) -> Option<u16>
        ensures { IsTheOne result (IsDecidingWeight scheme self.now (pieces tag.now)) }
    {
        match self.decide(scheme, tag) {
            Some(decision) => Some(decision.weight),
            None => None,
        }
    }

    /// The item that decides the language. None decides `@none`.
    pub fn decision_on(&self, scheme: Scheme, lang: &Lang) -> Option<Decision>
        ensures decides { MatchOption result
            ((place weight : ℕ) → ¬ DecidesLang scheme self.now lang.now place weight)
            (λ d. DecidesLang scheme self.now lang.now d.place d.weight) }
        ensures small { IfSome result (λ d. d.weight ≤ 1000) }
    {
        match lang.tag() {
            Some(tag) => self.decide(scheme, tag),
            None => None,
        }
    }

    /// Where in `order` an item is first tried that matches the tag, or the number of its keys.
    fn first_match(&self, scheme: Scheme, tag: &Tag) -> usize
        ensures { (keys : List OrderKey) → AreOrderKeys self.now keys
            → IsFirstTried (λ i. Matches scheme (pieces i.range) (pieces tag.now)) self.now keys
            result }
    {
        match (scheme, self.firsts.is_empty()) {
            (Scheme::Basic, false) => first_basic_match(
                &self.indexed_items(),
                &self.order,
                &self.firsts,
                tag.as_str().as_bytes(),
            ),
            (Scheme::Extended, _) => first_extended_match(&self.items, &self.order, tag),
            _ => first_match(&self.items, &self.order, scheme, tag),
        }
    }

    /// The item that decides the tag, and its weight.
    fn decide(&self, scheme: Scheme, tag: &Tag) -> Option<Decision>
        ensures decides { MatchOption result
            ((place : ℕ) → ¬ IsDeciding scheme self.now (pieces tag.now) place)
            (λ d. IsDecidedBy scheme self.now (pieces tag.now) d.place d.weight) }
        ensures small { IfSome result (λ d. d.weight ≤ 1000) }
    {
        match self.indexed_items().best(scheme, tag) {
            Some(best) => Some(Decision {
                place: best.place,
                weight: self.items[best.place].weight(),
            }),
            None => None,
        }
    }
}

/// Lists are equal whose items are.
impl PartialEq for PriorityList {
    ghost eq = { pointwise item_eq };

    ghost laws = { laws_of.partial_equiv_from_equiv (lists_equiv item_equiv) };

    fn eq(&self, other: &PriorityList) -> bool {
        self.items == other.items
    }
}

impl Eq for PriorityList {
    ghost laws = { lists_equiv item_equiv };
}

impl fmt::Debug for PriorityList {
    /// Lists the items.
    fn fmt<W: fmt::Write>(&self, f: &mut fmt::Formatter<W>) -> fmt::Result {
        f.debug_list().entries(self.items()).finish()
    }
}

/// The items, for which lookup goes by a table.
fn with_chains(
    alloc: Global,
    fallbacks: &Fallbacks,
    items: Vec<Item>,
) -> Result<Vec<Item>, AllocError>
    ensures { MatchResult result
        (λ listed. listed.items ≡ map (with_fallbacks fallbacks.now) items.items)
        (λ _. 0 < length items.items) }
{
    if fallbacks.is_empty() {
        return Ok(items);
    }
    if items.is_empty() {
        return Ok(items);
    }
    let mut listed = Vec::new(alloc);
    for item in items {
        let chain = fallbacks.chain(alloc, item.range().lookup_text())?;
        listed.push(item.with_listed(chain))?;
    }
    Ok(listed)
}

/// The list of the items, with its order and its index.
fn list_of(alloc: Global, scheme: Scheme, items: Vec<Item>) -> Result<PriorityList, NegoFault>
    requires one_kind { IsOfOneKind items.items }
    requires small { All (λ i. i.weight ≤ 1000) items.items }
    ensures { MatchResult result (λ list. list ≡ items.items)
        (λ fault. (fault ≡ NoMemory) × (0 < length items.items)) }
{
    if items.is_empty() {
        return Ok(PriorityList {
            items,
            order: Vec::new(alloc),
            index: None,
            firsts: Vec::new(alloc),
            may_refuse: false,
        });
    }
    let may_refuse = may_refuse(&items);
    let order = order_of(alloc, &items)?;
    let index = index_of(alloc, scheme, &items)?;
    let firsts = firsts_of(alloc, &items, index.as_ref(), &order)?;
    Ok(PriorityList {
        items,
        order,
        index,
        firsts,
        may_refuse,
    })
}

/// Where a range of each text is first tried, where the index is of the ranges' texts.
fn firsts_of(
    alloc: Global,
    items: &[Item],
    index: Option<&Index>,
    order: &[OrderKey],
) -> Result<Vec<usize>, AllocError>
    requires { IfSome index (λ index. IsIndex items.now index.now) }
    ensures { IfOk result (λ firsts. AreFirstsIfAny items.now order.now firsts.items) }
{
    match index {
        Some(Index::Texts(_) | Index::Ranges(_)) => {
            first_tried_of(alloc, &IndexedItems::new(items, index), order)
        }
        _ => Ok(Vec::new(alloc)),
    }
}

/// Whether an item has weight 0.
fn may_refuse(items: &[Item]) -> bool
    ensures { result ≡ list_any (λ i. i.weight == 0) items.now }
{
    items.iter().any(|item| item.weight() == 0)
}
