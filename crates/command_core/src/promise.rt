//! The promise, from the bytes of a script to the bytes of its answers, as one theorem.
//!
//! Sites that took the same edits, in any order, with repeats and merges anywhere, hold equal
//! catalogues and answer each question by the same bytes. These are what RFC 4647 defines on the
//! live labels of the greatest edits of each key. A merge is a join, and no edit is lost: a site
//! holds each edit that it took, or a later edit of the same label.
//!
//! The theorem is of [`replay`](docs_core::replay), whose contract says `Replays` of what it reads
//! and writes, and of the command, `lexicat replay`. Its premises are:
//!
//! - **The edits are consistent**: no stamp is of two different edits of one label. A site gives
//!   each of its edits a greater stamp than all that it holds. So this fails only if two sites have
//!   one name, or if a site was put back to an older copy and edited again. An exchange that looks
//!   for own edits is refused if it brings one that the site lacks (30, missing own edit;
//!   [`a_missing_own_edit_is_refused`](docs_core::laws::a_missing_own_edit_is_refused)). Two labels
//!   under one stamp are refused where they meet (13, duplicate timestamp): in a sync or a merge,
//!   and in an exchange of deltas if summaries have digests
//!   ([`a_checked_exchange_is_refused_as_a_sync_is`](
//!   docs_core::laws::a_checked_exchange_is_refused_as_a_sync_is)). Nothing notices two edits of
//!   one stamp that were both overridden before they met.
//! - **The sites took the same edits.** What a site took are its own edits and what came by merges
//!   and deltas, however late. If an edit never arrives, the sites differ by it until it does.
//! - **The script was replayed.** It is a script, memory did not run out, and its steps name sites,
//!   summaries and posts that exist. Otherwise `replay` reports an error and writes no answer.
//!
//! [`each_premise_is_needed`] has a counterexample to the theorem without each of the first two. A
//! script that is refused has no answers.
ghost use Rattle.std.specs.Prelude.{◌≡◌, ◌≢◌, ◌⊎◌, ◌↔◌, ◌∷◌, ◌++◌, ℕ, Contains, List, [], Some};
ghost use Rattle.std.specs.FinMap.Entries.{find};
ghost use Rattle.std.specs.declared.cmp.Ordering.TheVariants.{Less};
ghost use Rattle.cell_core.specs.Entry.{key_cmp, EntryKey};
ghost use Rattle.cell_core.specs.Join.{JoinLaws};
ghost use Rattle.cell_core.specs.Stamp.{stamp_cmp};
ghost use Rattle.cell_core.specs.declared.cell.Cell.{Cell};
ghost use Rattle.catalogue.specs.Edits.{IsBest, IsConsistent, SameMembers, catalogue_of};
ghost use Rattle.catalogue.specs.Entries.{Agree, Between, Entry, joined};
ghost use Rattle.cata_core.specs.RunsTaken.{edits_of, taken};
ghost use Rattle.cata_core.specs.WorldHeld.{held};
ghost use Rattle.cata_core.specs.declared.step.Step.TheVariants.{Merge};
ghost use Rattle.cata_core.specs.declared.step.Step.{Step};
ghost use Rattle.docs_core.specs.Replaying.{Replays};
ghost use Rattle.command_core.specs.OutputStreams.{Streams};
ghost use Rattle.command_core.specs.Promise.{AreLinesOf, Asks, GoesOn, HasConsistentEdits};
ghost use Rattle.command_core.specs.Promise.{Question, RunsReplay, WasReplayed};

/// The promise.
///
/// - `answers`: if two sites, of one script or of two, took the same edits before a question is put
///   to each, both texts go on with the same bytes. These are what the RFC answers over the
///   catalogue of these edits, or the list of its cells.
/// - `sites`: they hold equal catalogues.
/// - `greatest`: of each key a site holds the edit with the greatest stamp of all that it took.
/// - `kept`: what a site took it holds, or a later edit of the same key.
/// - `merge`: a merge leaves the join of both sites, which is their least upper bound.
pub fn the_promise()
    ensures answers { (a b x y : List ℕ) (p q : List Step) (question : Question) (s t : ℕ)
        → Replays a x → Replays b y → HasConsistentEdits a → HasConsistentEdits b
        → Asks a p question s → Asks b q question t → SameMembers (taken p s) (taken q t)
        → (said : List ℕ) × GoesOn x p said × GoesOn y q said
        × AreLinesOf question (catalogue_of (taken p s)) said }
    ensures sites { (p q : List Step) (s t : ℕ)
        → IsConsistent (edits_of p) → IsConsistent (edits_of q)
        → SameMembers (taken p s) (taken q t)
        → (held p s ≡ held q t) × (held p s ≡ catalogue_of (taken p s)) }
    ensures greatest { (steps : List Step) (site : ℕ) (key : EntryKey) (cell : Cell)
        → IsConsistent (edits_of steps)
        → (find key_cmp key (held steps site) ≡ Some cell) ↔ IsBest (taken steps site) key cell }
    ensures kept { (steps : List Step) (site : ℕ) (edit : Entry) → IsConsistent (edits_of steps)
        → Contains (taken steps site) edit
        → (cell : Cell) × (find key_cmp edit.0 (held steps site) ≡ Some cell)
        × ((cell ≡ edit.1) ⊎ (stamp_cmp edit.1.stamp cell.stamp ≡ Less)) }
    ensures merge { (steps : List Step) (into source : ℕ) → IsConsistent (edits_of steps)
        → Agree (held steps into) (held steps source)
        × (held (steps ++ Merge into source ∷ []) into
        ≡ joined (held steps into) (held steps source))
        × JoinLaws Agree joined Between }
{}

/// A run of `lexicat replay` that ends with status 0 read all of its input, and wrote its replay.
/// So the promise is of what such runs read and write.
pub fn the_promise_of_the_command<R, W, F>()
    ensures replays { (run : Streams R W F) → RunsReplay run
        → (bytes text : List ℕ) × WasReplayed run bytes text }
{}

/// Sites may hold different cells where edits are not consistent, though they took the same, and
/// where they did not take the same, though all edits are consistent.
pub fn each_premise_is_needed()
    ensures consistent { (steps : List Step) × (s : ℕ) × (t : ℕ)
        × SameMembers (taken steps s) (taken steps t) × (held steps s ≢ held steps t) }
    ensures same { (p : List Step) × (q : List Step) × (s : ℕ) × IsConsistent (edits_of p)
        × IsConsistent (edits_of q) × (held p s ≢ held q s) }
{}
