//! Whole runs over several sites.

ghost use Rattle.std.specs.Prelude.{◌≡◌, ◌⊎◌, ◌≤◌, IfOk, IfErr, OnOk};
ghost use Rattle.cata_core.specs.declared.play_fault.PlayFault.TheVariants.{NoMemory};
ghost use Rattle.catalogue.specs.Edits.{IsConsistent};
ghost use Rattle.cata_core.specs.RunsTaken.{edits_of};
ghost use Rattle.cata_core.specs.Answer.{AreHeldAnswers, AreAnswers};
ghost use Rattle.cata_core.specs.PlayFault.{NoneFaulty, IsFirstFault, IsNoClash, NoDelivers};

pub(crate) mod steps;
pub(crate) mod world;

use crate::answer::Answers;
use crate::play_fault::PlayFault;
use crate::runs::world::World;
use crate::step::Step;
use catalogue::Catalogue;
use std::alloc::Global;

/// The answers of a run over at most 1,024 sites, which begin empty: by consistent edits exactly
/// those that filtering and lookup give on the live labels of what each site took.
///
/// Without deliveries they are that too where the edits are not consistent; with both they are the
/// answers by the cells that each site holds. No answer is given where a step is faulty: refused is
/// the first faulty step (16, 17, 13), and consistent steps never clash (13). The steps are
/// processed in order, so 26 may come before a fault of a later step.
pub fn play(alloc: Global, sites: usize, steps: &[Step]) -> Result<Answers, PlayFault>
    requires { sites ≤ 1024 }
    // No answer is given where a step is faulty.
    ensures sound { OnOk result (NoneFaulty sites steps.now) }
    ensures held { IfOk result (AreHeldAnswers steps.now) }
    ensures consistent { IfOk result
        (λ answers. IsConsistent (edits_of steps.now) → AreAnswers steps.now answers) }
    // Without deliveries, consistent or not.
    ensures undelivered { IfOk result
        (λ answers. NoDelivers steps.now → AreAnswers steps.now answers) }
    ensures fault { IfErr result
        (λ fault. (fault ≡ NoMemory) ⊎ IsFirstFault sites steps.now fault) }
    ensures no_clash { IfErr result (λ fault. IsConsistent (edits_of steps.now) → IsNoClash fault) }
{
    let mut catalogues = Vec::new(alloc);
    for _ in 0..sites {
        match catalogues.push(Catalogue::new(alloc)) {
            Ok(()) => {}
            Err(_) => return Err(PlayFault::NoMemory),
        }
    }
    let mut world = World {
        sites: catalogues,
        told: Vec::new(alloc),
        posts: Vec::new(alloc),
        answers: Vec::new(alloc),
    };
    for (number, step) in steps.iter().enumerate() {
        world.take_step(alloc, number, step)?;
    }
    let answers = Answers::new(world.answers);
    Ok(answers)
}
