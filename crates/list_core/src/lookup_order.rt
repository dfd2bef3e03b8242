//! The order in which lookup tries the items of a list.
ghost use Rattle.std.specs.Prelude.{◌≡◌, IfOk, IsPermutation, IsSorted};
ghost use Rattle.list_core.specs.LookupOrder.{is_tried, order_keys_from, order_key_cmp};
ghost use Rattle.list_core.specs.LookupOrder.{AreOrderKeys};

use crate::item::Item;
use std::alloc::{AllocError, Global};

/// Sort key of lookup: by descending weight, then as written.
#[derive(Clone, Copy, PartialEq, Eq, PartialOrd, Ord)]
pub struct OrderKey {
    /// 1000 less the weight.
    pub missing_weight: u16,
    /// The place of the item.
    pub place: usize,
}

/// The keys of the items, by descending weight, then by place.
pub(crate) fn order_of(alloc: Global, items: &[Item]) -> Result<Vec<OrderKey>, AllocError>
    ensures { IfOk result (λ keys. AreOrderKeys items.now keys.items) }
{
    let mut keys = order_keys_of(alloc, items)?;
    sort_order_keys(&mut keys);
    Ok(keys)
}

/// Whether lookup tries the item.
fn is_tried(item: &Item) -> bool
    ensures { result ≡ is_tried item.now }
{
    item.weight() != 0 && item.range().lookup_text() != "*"
}

/// The keys of the items that lookup tries, as written.
fn order_keys_of(alloc: Global, items: &[Item]) -> Result<Vec<OrderKey>, AllocError>
    ensures { IfOk result (λ keys. keys.items ≡ order_keys_from items.now 0) }
{
    let mut keys = Vec::with_capacity(alloc, items.len())?;
    for (place, item) in items.iter().enumerate() {
        if is_tried(item) {
            keys.push(OrderKey {
                missing_weight: 1000 - item.weight(),
                place,
            })?;
        }
    }
    Ok(keys)
}

/// Puts the keys in the order in which lookup tries the items.
fn sort_order_keys(keys: &mut Vec<OrderKey>)
    ensures same { IsPermutation keys.old.items keys.new.items }
    ensures ascending { IsSorted order_key_cmp keys.new.items }
{
    keys.sort_unstable()
}
