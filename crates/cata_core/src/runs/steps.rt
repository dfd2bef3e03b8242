//! How the sites of a run go on by each kind of step.

ghost use Rattle.std.specs.Prelude.{◌≡◌, [], ◌∷◌, IfErr, OnOk, length};
ghost use Rattle.cata_core.specs.declared.step.Step.TheVariants.{Edit as EditStep, Merge};
ghost use Rattle.cata_core.specs.declared.step.Step.TheVariants.{AskFilter, AskLookup, AskCells};
ghost use Rattle.cata_core.specs.declared.step.Step.TheVariants.{Tell, Post, Deliver};
ghost use Rattle.catalogue.specs.Entries.{Entries, Agree, joined};
ghost use Rattle.catalogue.specs.CataFault.{IsRefusal};
ghost use Rattle.catalogue.specs.inner.CataFault.{IsOfCells};
ghost use Rattle.cata_core.specs.inner.PlayFault.{RefusesStep};
ghost use Rattle.cata_core.specs.inner.World.{held_in, IsRunning, IsStepped, IsClashAt};

use crate::answer::{Answer, Edits};
use crate::delta::missing_cells;
use crate::play_fault::PlayFault;
use crate::runs::world::{PostedDelta, ToldSummary, World};
use crate::step::Step;
use crate::summary::Summary;
use catalogue::{CataFault, Catalogue, Edit};
use cell_core::{MessageId, SiteName};
use lang_core::Lang;
use nego_core::{PriorityList, Scheme};
use std::alloc::Global;
use std::mem;

impl World {
    /// Goes on by one step of a run, whose number this is.
    pub(crate) fn take_step(
        &mut self,
        alloc: Global,
        number: usize,
        step: &Step,
    ) -> Result<(), PlayFault>
        requires { IsRunning (length self.old.sites.items) (held_in self.old) }
        ensures ok { OnOk result (IsStepped self.old self.new step.now) }
        ensures err { IfErr result
            (RefusesStep (length self.old.sites.items) (held_in self.old) number step.now) }
    {
        match step {
            Step::Edit { site, edit: made } => self.edit(alloc, number, *site, made),
            Step::Merge { into, source } => self.merge(alloc, number, *into, *source),
            Step::AskFilter {
                site,
                id,
                scheme,
                list,
            } => self.ask_filter(alloc, number, *site, id, *scheme, list),
            Step::AskLookup {
                site,
                id,
                list,
                default,
            } => self.ask_lookup(alloc, number, *site, id, list, default),
            Step::AskCells { site } => self.ask_cells(alloc, number, *site),
            Step::Tell { site } => self.tell(alloc, number, *site),
            Step::Post { site, told } => self.post(alloc, number, *site, *told),
            Step::Deliver { post } => self.deliver(alloc, number, *post),
        }
    }

    /// Applies an edit at a site.
    fn edit(
        &mut self,
        alloc: Global,
        number: usize,
        site: usize,
        edit: &Edit,
    ) -> Result<(), PlayFault>
        requires { IsRunning (length self.old.sites.items) (held_in self.old) }
        ensures ok { OnOk result (IsStepped self.old self.new (EditStep site edit.now)) }
        ensures err { IfErr result
            (RefusesStep (length self.old.sites.items) (held_in self.old) number
            (EditStep site edit.now)) }
    {
        if site >= self.sites.len() {
            return Err(PlayFault::NoSuchSite { step: number });
        }
        take_edit(&mut self.sites[site], alloc, number, edit)
    }

    /// Joins the cells of another site to those of a site; nothing is copied where both are one.
    fn merge(
        &mut self,
        alloc: Global,
        number: usize,
        into: usize,
        source: usize,
    ) -> Result<(), PlayFault>
        requires { IsRunning (length self.old.sites.items) (held_in self.old) }
        ensures ok { OnOk result (IsStepped self.old self.new (Merge into source)) }
        ensures err { IfErr result
            (RefusesStep (length self.old.sites.items) (held_in self.old) number
            (Merge into source)) }
    {
        if into >= self.sites.len() || source >= self.sites.len() {
            return Err(PlayFault::NoSuchSite { step: number });
        }
        if into == source {
            return Ok(());
        }
        let mut own = mem::replace(&mut self.sites[into], Catalogue::new(alloc));
        take_in(&mut own, alloc, number, &self.sites[source])?;
        self.sites[into] = own;
        Ok(())
    }

    /// Answers which live labels of a message at a site a list takes.
    fn ask_filter(
        &mut self,
        alloc: Global,
        number: usize,
        site: usize,
        id: &MessageId,
        scheme: Scheme,
        list: &PriorityList,
    ) -> Result<(), PlayFault>
        requires { IsRunning (length self.old.sites.items) (held_in self.old) }
        ensures ok { OnOk result
            (IsStepped self.old self.new (AskFilter site id.now scheme list.now)) }
        ensures err { IfErr result
            (RefusesStep (length self.old.sites.items) (held_in self.old) number
            (AskFilter site id.now scheme list.now)) }
    {
        if site >= self.sites.len() {
            return Err(PlayFault::NoSuchSite { step: number });
        }
        let lent = self.sites[site].ask_filter(alloc, id, list, scheme)?;
        let entries = lent.copy(alloc)?;
        self.answers.push(Answer::Filter(entries))?;
        Ok(())
    }

    /// Answers which live label of a message at a site a list looks up.
    fn ask_lookup(
        &mut self,
        alloc: Global,
        number: usize,
        site: usize,
        id: &MessageId,
        list: &PriorityList,
        default: &Option<Lang>,
    ) -> Result<(), PlayFault>
        requires { IsRunning (length self.old.sites.items) (held_in self.old) }
        ensures ok { OnOk result
            (IsStepped self.old self.new (AskLookup site id.now list.now default.now)) }
        ensures err { IfErr result
            (RefusesStep (length self.old.sites.items) (held_in self.old) number
            (AskLookup site id.now list.now default.now)) }
    {
        if site >= self.sites.len() {
            return Err(PlayFault::NoSuchSite { step: number });
        }
        let lent = self.sites[site].ask_lookup(id, list, default.as_ref());
        let reply = lent.copy(alloc)?;
        self.answers.push(Answer::Lookup(reply))?;
        Ok(())
    }

    /// Answers all cells of a site.
    fn ask_cells(&mut self, alloc: Global, number: usize, site: usize) -> Result<(), PlayFault>
        requires { IsRunning (length self.old.sites.items) (held_in self.old) }
        ensures ok { OnOk result (IsStepped self.old self.new (AskCells site)) }
        ensures err { IfErr result
            (RefusesStep (length self.old.sites.items) (held_in self.old) number (AskCells site)) }
    {
        if site >= self.sites.len() {
            return Err(PlayFault::NoSuchSite { step: number });
        }
        let edits = Edits::of(alloc, &self.sites[site])?;
        self.answers.push(Answer::Cells(edits))?;
        Ok(())
    }

    /// Tells the summary of a site.
    fn tell(&mut self, alloc: Global, number: usize, site: usize) -> Result<(), PlayFault>
        requires { IsRunning (length self.old.sites.items) (held_in self.old) }
        ensures ok { OnOk result (IsStepped self.old self.new (Tell site)) }
        ensures err { IfErr result
            (RefusesStep (length self.old.sites.items) (held_in self.old) number (Tell site)) }
    {
        if site >= self.sites.len() {
            return Err(PlayFault::NoSuchSite { step: number });
        }
        let name = SiteName::of_number(site as u32);
        let summary = Summary::of(alloc, name, &self.sites[site])?;
        self.told.push(ToldSummary::new(site, summary))?;
        Ok(())
    }

    /// Posts the delta of a site against a summary that was told.
    fn post(
        &mut self,
        alloc: Global,
        number: usize,
        site: usize,
        told: usize,
    ) -> Result<(), PlayFault>
        requires { IsRunning (length self.old.sites.items) (held_in self.old) }
        ensures ok { OnOk result (IsStepped self.old self.new (Post site told)) }
        ensures err { IfErr result
            (RefusesStep (length self.old.sites.items) (held_in self.old) number (Post site told)) }
    {
        if site >= self.sites.len() {
            return Err(PlayFault::NoSuchSite { step: number });
        }
        if told >= self.told.len() {
            return Err(PlayFault::NoSuchPost { step: number });
        }
        let told = &self.told[told];
        let cells = missing_cells(alloc, &self.sites[site], told.summary())?;
        let posted = PostedDelta::new(told.teller(), cells);
        self.posts.push(posted)?;
        Ok(())
    }

    /// Delivers a posted delta to its addressee.
    fn deliver(&mut self, alloc: Global, number: usize, post: usize) -> Result<(), PlayFault>
        requires { IsRunning (length self.old.sites.items) (held_in self.old) }
        ensures ok { OnOk result (IsStepped self.old self.new (Deliver post)) }
        ensures err { IfErr result
            (RefusesStep (length self.old.sites.items) (held_in self.old) number (Deliver post)) }
    {
        if post >= self.posts.len() {
            return Err(PlayFault::NoSuchPost { step: number });
        }
        let post = &self.posts[post];
        let addressee = post.addressee();
        take_in(&mut self.sites[addressee], alloc, number, post.cells())
    }
}

/// The refusal of cells, with the number of the step.
fn at_step(fault: CataFault, step: usize) -> PlayFault
    requires { IsOfCells fault }
    ensures { (own other : Entries) → IsRefusal own other fault → IsClashAt step own other result }
{
    match fault {
        CataFault::StampReused { place, stamp } => PlayFault::StampReused { step, place, stamp },
        CataFault::NoMemory => PlayFault::NoMemory,
        CataFault::ClockSpent | CataFault::NotForMe { .. } => unreachable!(),
    }
}

/// Joins an edit to the cells of a site, where the two agree.
fn take_edit(own: &mut Catalogue, alloc: Global, step: usize, edit: &Edit) -> Result<(), PlayFault>
    ensures agree { OnOk result (Agree own.old (edit.now ∷ [])) }
    ensures ok { OnOk result (own.new ≡ joined own.old (edit.now ∷ [])) }
    ensures err { IfErr result (IsClashAt step own.old (edit.now ∷ [])) }
{
    match own.apply(alloc, edit) {
        Ok(()) => Ok(()),
        Err(fault) => Err(at_step(fault, step)),
    }
}

/// Joins incoming cells to those of a site, where the two agree.
fn take_in(
    own: &mut Catalogue,
    alloc: Global,
    step: usize,
    incoming: &Catalogue,
) -> Result<(), PlayFault>
    ensures agree { OnOk result (Agree own.old incoming.now) }
    ensures ok { OnOk result (own.new ≡ joined own.old incoming.now) }
    ensures err { IfErr result (IsClashAt step own.old incoming.now) }
{
    match own.merge(alloc, incoming) {
        Ok(()) => Ok(()),
        Err(fault) => Err(at_step(fault, step)),
    }
}
