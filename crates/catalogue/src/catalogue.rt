//! Catalogues: cells by message and language.

ghost use Rattle.std.specs.Prelude.{◌≡◌, ◌+◌, [], ◌∷◌, ◌++◌, Some, None, length, slice_get};
ghost use Rattle.std.specs.Prelude.{OnOk, OnErr, IfOk, IfErr, IfSome, IsOk, IsTrue, ◌↔◌};
ghost use Rattle.std.specs.Option.{option_map, option_copied, is_none};
ghost use Rattle.std.specs.FinMap.Entries.{find, put};
ghost use Rattle.cell_core.specs.Cell.{AgreeCells, joined_cells};
ghost use Rattle.cell_core.specs.Keyed.{IsMap, AgreeIfBoth, joined_at};
ghost use Rattle.cell_core.specs.inner.KeyedPlaces.{place_of};
ghost use Rattle.catalogue.specs.CataFault.{IsRefusal, IsLeft};
ghost use Rattle.catalogue.specs.inner.CellRefusal.{IsCellRefusal, at_place};
ghost use Rattle.catalogue.specs.Cells.{cells_left};
ghost use Rattle.catalogue.specs.Changes.{AreChanges};
ghost use Rattle.catalogue.specs.ChangesLeft.{changes_left};
ghost use Rattle.catalogue.specs.inner.CatalogueCounts.{count_absent};
ghost use Rattle.cell_core.specs.Entry.{text_cmp, key_cmp};
ghost use Rattle.catalogue.specs.Entries.{IsAboveAll, Agree, joined, Between};
ghost use Rattle.catalogue.specs.CatalogueFlat.{flat};
ghost use Rattle.catalogue.specs.CatalogueNested.{IsCatalogue};
ghost use Rattle.catalogue.specs.inner.CatalogueNested.{IsCountable};
ghost use Rattle.catalogue.specs.CatalogueSettled.{IsSettledBy, IsSettledIn};

use crate::cata_fault::CataFault;
use crate::cell_refusal::CellRefusal;
use crate::cells::Cells;
use crate::changes::Changes;
use crate::clash::first_clash;
use crate::edit::Edit;
use crate::places;
use cell_core::{Cell, Join, Key, Keyed, MessageId};
use lang_core::Lang;
use std::alloc::{AllocError, Global};
use std::fmt;
use std::marker::Model;

/// Searching one cell costs about as much as visiting this many messages.
const SEARCHES: u128 = 64;

/// Cells by message and language, in ascending order of the bytes of the id, then of the bytes of
/// the language.
///
/// Each key has the cell of the greatest stamp that came in: a last-writer-wins register (INRIA
/// RR-7506, 3.2.1). A deletion is a cell without a label, and is kept.
#[derive(Drop)]
pub struct Catalogue {
    map: Keyed<MessageId, Keyed<Lang, Cell>>,
    len: u128,
}

impl Model for Catalogue {
    ghost use Rattle.catalogue.specs.Entries.{Entries};
    ghost use Rattle.catalogue.specs.CatalogueFlat.{flat};
    ghost use Rattle.catalogue.specs.CatalogueNested.{IsKept};

    ghost Value = { Entries };

    ghost view = { λ c. flat c.map };

    ghost invariant = { λ c. IsKept c.map c.len };
}

impl Catalogue {
    /// The empty catalogue, which grows by this allocator.
    pub fn new(alloc: Global) -> Catalogue
        ensures { result ≡ [] }
    {
        Catalogue {
            map: Keyed::new(alloc),
            len: 0,
        }
    }

    /// The cells by language, by message. No message is without a cell.
    pub fn map(&self) -> &Keyed<MessageId, Keyed<Lang, Cell>>
        ensures flat { flat result.now ≡ self.now }
        ensures nested { IsCatalogue result.now }
    {
        &self.map
    }

    /// The cell of a message in a language.
    pub fn cell(&self, id: &MessageId, lang: &Lang) -> Option<&Cell>
        ensures { option_copied result ≡ find key_cmp (id.now, lang.now) self.now }
    {
        match self.map.get(id) {
            Some(cells) => cells.get(lang),
            None => None,
        }
    }

    /// How many cells there are, deletions among them.
    pub fn len(&self) -> u128
        ensures len { result ≡ length self.now }
        ensures sorted { IsMap key_cmp self.now }
    {
        self.len
    }

    /// Whether there is no cell.
    pub fn is_empty(&self) -> bool
        ensures empty { IsTrue result ↔ (self.now ≡ []) }
    {
        self.len == 0
    }

    /// The cell at a place in ascending order of key, from 0, with its message and language; none
    /// from `len` on.
    ///
    /// It walks over the messages in front: to see all cells, take [`Catalogue::iter`].
    pub fn nth(&self, place: u128) -> Option<(&MessageId, &Lang, &Cell)>
        ensures { option_map (λ e. ((e.0.now, e.1.now), e.2.now)) result
            ≡ slice_get self.now place }
    {
        places::entry(&self.map, place)
    }

    /// All cells, each with its message and language, in ascending order of key.
    pub fn iter(&self) -> Cells<'_>
        ensures cells { cells_left result ≡ self.now }
        ensures sorted { IsMap key_cmp self.now }
    {
        Cells::new(&self.map)
    }

    /// What changed from this catalogue to the other: each key whose cells are not equal, or that
    /// one of them lacks, with both cells, in ascending order of key.
    ///
    /// It takes no memory, and goes once over the cells of both.
    pub fn changes<'a>(&'a self, after: &'a Catalogue) -> Changes<'a>
        ensures { AreChanges self.now after.now (changes_left result) }
    {
        Changes::new(self.iter(), after.iter())
    }

    /// An equal catalogue.
    pub fn copy(&self, alloc: Global) -> Result<Catalogue, AllocError>
        ensures { IfOk result (λ copied. copied ≡ self.now) }
    {
        Ok(Catalogue {
            map: self.map.copy(alloc)?,
            len: self.len,
        })
    }

    /// Joins the one cell of an edit. An edit that is not newer than the stored cell takes no
    /// memory.
    ///
    /// Refused, and then unchanged, by [`CataFault::StampReused`] (13) where the stored cell has
    /// the same stamp and another label, and by [`CataFault::NoMemory`] (26).
    pub fn apply(&mut self, alloc: Global, edit: &Edit) -> Result<(), CataFault>
        ensures ok { OnOk result (self.new ≡ joined self.old (edit.now ∷ [])) }
        ensures agree { OnOk result (Agree self.old (edit.now ∷ [])) }
        ensures err { OnErr result (self.new ≡ self.old) }
        ensures fault { IfErr result (IsRefusal self.old (edit.now ∷ [])) }
        ensures settled { IsSettledIn self.old edit.now → IsOk result }
    {
        self.join_cell(alloc, edit.id(), edit.lang(), edit.cell())
    }

    /// Joins a cell to that of its key, as [`Catalogue::apply`] does.
    pub fn join_cell(
        &mut self,
        alloc: Global,
        id: &MessageId,
        lang: &Lang,
        cell: &Cell,
    ) -> Result<(), CataFault>
        ensures ok { OnOk result
            (self.new ≡ joined self.old (((id.now, lang.now), cell.now) ∷ [])) }
        ensures agree { OnOk result (Agree self.old (((id.now, lang.now), cell.now) ∷ [])) }
        ensures err { OnErr result (self.new ≡ self.old) }
        ensures fault { IfErr result
            (IsRefusal self.old (((id.now, lang.now), cell.now) ∷ [])) }
        ensures settled { IsSettledIn self.old ((id.now, lang.now), cell.now) → IsOk result }
        ensures sorted { IsMap key_cmp self.old }
    {
        let len = self.next_len();
        match join_in(&mut self.map, alloc, id, lang, cell) {
            Ok(is_new) => {
                if is_new {
                    self.len = match len {
                        Some(len) => len,
                        None => places::count(&self.map),
                    };
                }
                Ok(())
            }
            Err(refusal) => Err(at_key(&self.map, id, lang, refusal)),
        }
    }

    /// Joins the cells of the other catalogue: it becomes the least upper bound of both.
    ///
    /// Refused, and then unchanged, by [`CataFault::StampReused`] (13) with the least place where
    /// the two do not agree. After [`CataFault::NoMemory`] (26) each key has its old cell, or none
    /// as before, or that of the join, so that a repeat gives the join.
    pub fn merge(&mut self, alloc: Global, other: &Catalogue) -> Result<(), CataFault>
        ensures ok { OnOk result (self.new ≡ joined self.old other.now) }
        ensures agree { OnOk result (Agree self.old other.now) }
        ensures fault { IfErr result (IsRefusal self.old other.now) }
        ensures left { IfErr result (IsLeft self.old self.new other.now) }
    {
        match first_clash(&self.map, other.map()) {
            Some((place, stamp)) => Err(CataFault::StampReused { place, stamp }),
            None => match self.join(alloc, other) {
                Ok(()) => Ok(()),
                Err(AllocError) => Err(CataFault::NoMemory),
            },
        }
    }

    /// Whether the two agree: no key has two cells of one stamp and different labels. It takes no
    /// memory.
    pub fn agrees(&self, other: &Catalogue) -> bool
        ensures { IsTrue result ↔ Agree self.now other.now }
    {
        self.map.agrees(other.map())
    }

    /// Joins the cells of the other catalogue, which has to agree ([`Catalogue::agrees`]).
    ///
    /// After a refusal, by lack of memory, each key has its old cell, or none as before, or that of
    /// the join, so that a repeat gives the join.
    pub fn join(&mut self, alloc: Global, other: &Catalogue) -> Result<(), AllocError>
        requires { Agree self.old other.now }
        ensures ok { OnOk result (self.new ≡ joined self.old other.now) }
        ensures err { OnErr result (Between self.old self.new other.now) }
    {
        let len = self.joined_len(other);
        match self.map.join(alloc, other.map()) {
            Ok(()) => {
                self.len = match len {
                    Some(len) => len,
                    None => places::count(&self.map),
                };
                Ok(())
            }
            Err(fault) => {
                self.len = places::count(&self.map);
                Err(fault)
            }
        }
    }

    /// How many cells the join with the other has, where the other is so small that searching for
    /// its cells is cheaper than a walk over all messages of this one: else many small merges into
    /// a large catalogue would be quadratic.
    fn joined_len(&self, other: &Catalogue) -> Option<u128>
        ensures { IfSome result (λ len. len ≡ length (joined self.now other.now)) }
    {
        if other.len >= self.map.len() as u128 / SEARCHES {
            return None;
        }
        self.len.checked_add(self.count_absent(other))
    }

    /// How many cells of the other have keys that this one lacks.
    fn count_absent(&self, other: &Catalogue) -> u128
        ensures { result ≡ count_absent self.now other.now }
    {
        let _cells = other.len();
        let mut count = 0u128;
        for (id, lang, _) in other.iter() {
            if self.cell(id, lang).is_some() {
                continue;
            }
            count += 1;
        }
        count
    }

    /// Whether the key is greater than all others, as [`Catalogue::push`] requires.
    pub fn is_above_all(&self, id: &MessageId, lang: &Lang) -> bool
        ensures { IsTrue result ↔ IsAboveAll (id.now, lang.now) self.now }
    {
        match places::last(&self.map) {
            Some((last, held, _)) => last.cmp(id).then(held.cmp(lang)).is_lt(),
            None => true,
        }
    }

    /// Appends a cell; its key has to be greater than all others ([`Catalogue::is_above_all`]).
    ///
    /// What is passed in is not copied. When memory runs out (26) it is dropped, and the catalogue
    /// is unchanged.
    pub fn push(
        &mut self,
        alloc: Global,
        id: MessageId,
        lang: Lang,
        cell: Cell,
    ) -> Result<(), AllocError>
        requires { IsAboveAll (id, lang) self.old }
        ensures ok { OnOk result (self.new ≡ self.old ++ ((id, lang), cell) ∷ []) }
        ensures err { OnErr result (self.new ≡ self.old) }
    {
        let len = self.len_with(1)?;
        append(&mut self.map, alloc, id, lang, cell)?;
        self.len = len;
        Ok(())
    }

    /// The length with one cell more, if `u128` counts it.
    fn next_len(&self) -> Option<u128>
        ensures { IfSome result (λ len. len ≡ length self.now + 1) }
    {
        self.len.checked_add(1)
    }

    /// The length after adding `more` cells; `u128` cannot overflow in practice.
    fn len_with(&self, more: u128) -> Result<u128, AllocError>
        ensures { IfOk result (λ len. len ≡ length self.now + more) }
    {
        match self.len.checked_add(more) {
            Some(len) => Ok(len),
            None => Err(AllocError),
        }
    }
}

/// Lists the cells, each with its message and language.
impl fmt::Debug for Catalogue {
    fn fmt<W: fmt::Write>(&self, f: &mut fmt::Formatter<W>) -> fmt::Result {
        f.debug_list().entries(self.iter()).finish()
    }
}

/// The refusal of the cell of a key, with the place of the key where it clashes.
fn at_key(
    map: &Keyed<MessageId, Keyed<Lang, Cell>>,
    id: &MessageId,
    lang: &Lang,
    refusal: CellRefusal,
) -> CataFault
    requires nested { IsCatalogue map.now }
    requires fits { IsCountable map.now }
    ensures { result ≡ at_place (place_of key_cmp (id.now, lang.now) (flat map.now)) refusal }
{
    match refusal {
        CellRefusal::Clash(stamp) => CataFault::StampReused {
            place: places::place(map, id, lang),
            stamp,
        },
        CellRefusal::NoMemory => CataFault::NoMemory,
    }
}

/// Joins the cell to that of its key, and says whether the key is new. The map of a new message is
/// built first and put once, so that none is ever empty.
fn join_in(
    map: &mut Keyed<MessageId, Keyed<Lang, Cell>>,
    alloc: Global,
    id: &MessageId,
    lang: &Lang,
    cell: &Cell,
) -> Result<bool, CellRefusal>
    requires { IsCatalogue map.old }
    ensures nested { IsCatalogue map.new }
    ensures ok { OnOk result (flat map.new
        ≡ put key_cmp (id.now, lang.now)
        (joined_at joined_cells (find key_cmp (id.now, lang.now) (flat map.old)) cell.now)
        (flat map.old)) }
    ensures agree { OnOk result
        (AgreeIfBoth AgreeCells (find key_cmp (id.now, lang.now) (flat map.old)) (Some cell.now)) }
    ensures new { IfOk result
        (λ new. new ≡ is_none (find key_cmp (id.now, lang.now) (flat map.old))) }
    ensures err { OnErr result (map.new ≡ map.old) }
    ensures fault { IfErr result
        (IsCellRefusal (find key_cmp (id.now, lang.now) (flat map.old)) cell.now) }
    ensures settled { IsSettledIn (flat map.old) ((id.now, lang.now), cell.now) → IsOk result }
{
    match map.get_mut(id) {
        Some(cells) => join_lang(cells, alloc, lang, cell),
        None => {
            let mut cells = Keyed::new(alloc);
            let is_new = join_lang(&mut cells, alloc, lang, cell)?;
            put(map, id.copy(alloc)?, cells)?;
            Ok(is_new)
        }
    }
}

/// Joins the cell to that of its language, and says whether the language is new.
fn join_lang(
    cells: &mut Keyed<Lang, Cell>,
    alloc: Global,
    lang: &Lang,
    cell: &Cell,
) -> Result<bool, CellRefusal>
    ensures ok { OnOk result (cells.new
        ≡ put text_cmp lang.now
        (joined_at joined_cells (find text_cmp lang.now cells.old) cell.now)
        cells.old) }
    ensures agree { OnOk result
        (AgreeIfBoth AgreeCells (find text_cmp lang.now cells.old) (Some cell.now)) }
    ensures new { IfOk result (λ new. new ≡ is_none (find text_cmp lang.now cells.old)) }
    ensures err { OnErr result (cells.new ≡ cells.old) }
    ensures fault { IfErr result (IsCellRefusal (find text_cmp lang.now cells.old) cell.now) }
    ensures settled { IsSettledBy (find text_cmp lang.now cells.old) cell.now → IsOk result }
{
    match cells.get_mut(lang) {
        Some(mine) => match join_stored(mine, alloc, cell) {
            Ok(()) => Ok(false),
            Err(refusal) => Err(refusal),
        },
        None => {
            put(cells, lang.copy(alloc)?, cell.copy(alloc)?)?;
            Ok(true)
        }
    }
}

/// Joins the cell to one that is stored: a later one takes its place. One that is not later takes
/// no memory.
fn join_stored(mine: &mut Cell, alloc: Global, cell: &Cell) -> Result<(), CellRefusal>
    ensures ok { OnOk result (mine.new ≡ joined_cells mine.old cell.now) }
    ensures agree { OnOk result (AgreeCells mine.old cell.now) }
    ensures err { OnErr result (mine.new ≡ mine.old) }
    ensures fault { IfErr result (IsCellRefusal (Some mine.old) cell.now) }
    ensures settled { IsSettledBy (Some mine.old) cell.now → IsOk result }
{
    if !mine.agrees(cell) {
        return Err(CellRefusal::Clash(mine.stamp()));
    }
    if mine.stamp().cmp(&cell.stamp()).is_lt() {
        *mine = cell.copy(alloc)?;
    }
    Ok(())
}

/// Appends a cell, whose key is greater than all others.
fn append(
    map: &mut Keyed<MessageId, Keyed<Lang, Cell>>,
    alloc: Global,
    id: MessageId,
    lang: Lang,
    cell: Cell,
) -> Result<(), AllocError>
    requires { IsCatalogue map.old }
    ensures nested { IsCatalogue map.new }
    ensures ok { OnOk result (flat map.new ≡ put key_cmp (id, lang) cell (flat map.old)) }
    ensures err { OnErr result (map.new ≡ map.old) }
{
    match map.get_mut(&id) {
        Some(cells) => put(cells, lang, cell),
        None => {
            let mut cells = Keyed::new(alloc);
            put(&mut cells, lang, cell)?;
            put(map, id, cells)
        }
    }
}

/// Gives the key the value.
fn put<K: Key, J: Drop>(map: &mut Keyed<K, J>, key: K, value: J) -> Result<(), AllocError>
    ensures ok { OnOk result (map.new ≡ put K.cmp key value map.old) }
    ensures err { OnErr result (map.new ≡ map.old) }
{
    match map.put(key, value) {
        Ok(()) => Ok(()),
        Err(_) => Err(AllocError),
    }
}
