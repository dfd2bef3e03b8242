//! Scripts: steps of several sites, as a document has them.
ghost use Rattle.std.specs.Prelude.{◌≡◌};

use crate::step_fields::read_step;
use crate::steps::step_of;
use cata_core::Step;
use json_docs::{DocCause, Spot};
use row_docs::{Cut, Rows, Version, recounted};
use std::alloc::Global;
use std::marker::Model;

/// How many sites take part, from 1 to 1,024, and what happens at them and between them, in order.
#[derive(Drop)]
pub struct Script {
    sites: usize,
    steps: Vec<Step>,
}

impl Model for Script {
    ghost use Rattle.script_docs.specs.Scripts.{IsSiteCount, ScriptState};

    ghost Value = { ScriptState };

    ghost view = { λ script. record { sites = script.sites; steps = script.steps.items } };

    ghost invariant = { λ script. IsSiteCount script.sites };
}

impl Script {
    ghost use Rattle.script_docs.specs.Scripts.{IsSiteCount};

    /// The script of `sites` sites, from 1 to 1,024, with these steps.
    pub fn new(sites: usize, steps: Vec<Step>) -> Script
        requires { IsSiteCount sites }
        ensures { result ≡ record { sites = sites; steps = steps.items } }
    {
        Script { sites, steps }
    }

    /// How many sites there are.
    pub fn sites(&self) -> usize
        ensures value { result ≡ self.now.sites }
        ensures range { IsSiteCount result }
    {
        self.sites
    }

    /// The steps, in order.
    pub fn steps(&self) -> &[Step]
        ensures { result.now ≡ self.now.steps }
    {
        &self.steps
    }
}

/// The steps that were read so far.
#[derive(Drop)]
pub(crate) struct Steps {
    /// The steps, in order.
    pub(crate) steps: Vec<Step>,
}

impl Steps {
    ghost use Rattle.std.specs.Prelude.{[]};
    ghost use Rattle.script_docs.specs.Scripts.{IsSiteCount};

    /// No step.
    pub(crate) fn new(alloc: Global) -> Steps
        ensures { result.steps.items ≡ [] }
    {
        Steps {
            steps: Vec::new(alloc),
        }
    }

    /// The script of all steps.
    pub(crate) fn into_script(self, sites: usize) -> Script
        requires { IsSiteCount sites }
        ensures { result ≡ record { sites = sites; steps = self.steps.items } }
    {
        Script::new(sites, self.steps)
    }
}

impl Rows<()> for Steps {
    ghost use Rattle.script_docs.specs.StepFields.{AreSteps, step_checks};

    ghost Checks = { step_checks };

    ghost Holds = { λ _ version taken rows. AreSteps version rows taken.steps.items };

    fn restart(&mut self, alloc: Global, _start: &()) {
        self.steps = Vec::new(alloc);
    }

    fn take(
        &mut self,
        alloc: Global,
        version: Version,
        place: usize,
        row: &Cut<'_>,
    ) -> Result<(), DocCause> {
        let Some(step) = step_of(version, &row.value) else {
            return Err(DocCause::Shape {
                spot: Spot::Row(place),
            });
        };
        let step = match read_step(alloc, place, step) {
            Ok(step) => step,
            Err(cause) => return Err(recounted(row.texts, cause)),
        };
        self.steps.push(step)?;
        Ok(())
    }
}
