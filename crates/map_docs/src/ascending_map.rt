//! Maps that are filled once, mostly in ascending order of their keys.
ghost use Rattle.std.specs.Prelude.{◌≡◌, [], IfOk, IsTrue};
ghost use Rattle.std.specs.BTreeMap.{insert_entry};
ghost use Rattle.std.specs.List.Sorted.{IsStrictlySortedBy};
ghost use Rattle.std.specs.Map.{keys_of};
ghost use Rattle.cell_core.specs.KeyedAbove.{IsAboveAll};
ghost use Rattle.map_docs.specs.inner.AscendingMap.{entries_of};

use std::alloc::{AllocError, Global};
use std::collections::BTreeMap;

/// Values by key. While the keys come in ascending order the entries are a list; the first key that
/// does not has a tree made of them.
#[derive(Drop)]
pub(crate) enum AscendingMap<K: Ord + Drop, V: Drop> {
    /// Every key was greater than those before it.
    List(Vec<(K, V)>),
    /// Some key was not.
    Tree(BTreeMap<K, V>),
}

impl<K: Ord + Drop, V: Drop> AscendingMap<K, V> {
    /// No entry. It takes no memory.
    pub(crate) fn new(alloc: Global) -> Self
        ensures { entries_of result ≡ [] }
    {
        AscendingMap::List(Vec::new(alloc))
    }

    /// The map with this value at the key, in place of one that it had there.
    pub(crate) fn with(self, alloc: Global, key: K, value: V) -> Result<Self, AllocError>
        requires { IsStrictlySortedBy K.cmp (keys_of (entries_of self)) }
        ensures entries { IfOk result
            (λ map. entries_of map ≡ insert_entry K.cmp (entries_of self) key value) }
        ensures sorted { IfOk result (λ map. IsStrictlySortedBy K.cmp (keys_of (entries_of map))) }
    {
        match self {
            AscendingMap::List(list) => add_to_list(alloc, list, key, value),
            AscendingMap::Tree(tree) => add_to_tree(tree, key, value),
        }
    }

    /// The entries in ascending order of key.
    pub(crate) fn into_entries(self, alloc: Global) -> Result<Vec<(K, V)>, AllocError>
        ensures { IfOk result (λ entries. entries.items ≡ entries_of self) }
    {
        match self {
            AscendingMap::List(list) => Ok(list),
            AscendingMap::Tree(tree) => list_of(alloc, tree),
        }
    }
}

/// The list with one entry more, or a tree of both where the key is not above all others.
fn add_to_list<K: Ord + Drop, V: Drop>(
    alloc: Global,
    mut list: Vec<(K, V)>,
    key: K,
    value: V,
) -> Result<AscendingMap<K, V>, AllocError>
    requires { IsStrictlySortedBy K.cmp (keys_of list.items) }
    ensures entries { IfOk result
        (λ map. entries_of map ≡ insert_entry K.cmp list.items key value) }
    ensures sorted { IfOk result (λ map. IsStrictlySortedBy K.cmp (keys_of (entries_of map))) }
{
    if is_above_all(&list, &key) {
        list.push((key, value))?;
        return Ok(AscendingMap::List(list));
    }
    let tree = tree_of(alloc, list)?;
    add_to_tree(tree, key, value)
}

/// The tree with this value at the key.
fn add_to_tree<K: Ord + Drop, V: Drop>(
    mut tree: BTreeMap<K, V>,
    key: K,
    value: V,
) -> Result<AscendingMap<K, V>, AllocError>
    ensures entries { IfOk result
        (λ map. entries_of map ≡ insert_entry K.cmp tree.entries key value) }
    ensures sorted { IfOk result (λ map. IsStrictlySortedBy K.cmp (keys_of (entries_of map))) }
{
    drop(tree.insert(key, value)?);
    Ok(AscendingMap::Tree(tree))
}

/// Whether the key is greater than that of each entry.
fn is_above_all<K: Ord, V>(list: &Vec<(K, V)>, key: &K) -> bool
    requires { IsStrictlySortedBy K.cmp (keys_of list.now.items) }
    ensures { IsTrue result → IsAboveAll K.cmp key.now list.now.items }
{
    match list.last() {
        Some(last) => last.0.cmp(key).is_lt(),
        None => true,
    }
}

/// The entries as a tree.
fn tree_of<K: Ord + Drop, V: Drop>(
    alloc: Global,
    list: Vec<(K, V)>,
) -> Result<BTreeMap<K, V>, AllocError>
    requires { IsStrictlySortedBy K.cmp (keys_of list.items) }
    ensures { IfOk result (λ tree. tree.entries ≡ list.items) }
{
    let mut found = BTreeMap::new(alloc);
    for (key, value) in list {
        drop(found.insert(key, value)?);
    }
    Ok(found)
}

/// The entries as a list.
fn list_of<K: Ord + Drop, V: Drop>(
    alloc: Global,
    tree: BTreeMap<K, V>,
) -> Result<Vec<(K, V)>, AllocError>
    ensures { IfOk result (λ list. list.items ≡ tree.entries) }
{
    let mut list = Vec::with_capacity(alloc, tree.len())?;
    for entry in tree {
        list.push(entry)?;
    }
    Ok(list)
}
