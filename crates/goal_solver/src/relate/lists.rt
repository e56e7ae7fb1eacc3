//! Equating two lists of terms at a depth: unification, and what is left compared.
ghost use Rattle.std.specs.Prelude.{◌≡◌, true, IsTrue, ◌↔◌, IfOk, IfErr};
ghost use Rattle.goal_interner.specs.TableMeaning.{Keeps};
ghost use Rattle.goal_terms.specs.Tree.{Tree};
ghost use Rattle.goal_terms.specs.declared.heads.Variable.{Variable};
ghost use Rattle.goal_infer.specs.ListUnification.{MakesAllSame, AreDecidedWherePlain, AreIdentified, AreClashing, AreUntouched};
ghost use Rattle.goal_infer.specs.Unification.{sides, Advances, IsUnified};
ghost use Rattle.goal_lists.specs.Interned.{AreIn, erased_all};
ghost use Rattle.goal_lists.specs.Settings.{is_headline};
ghost use Rattle.goal_solver.specs.Accesses.{RecordsCausedFaults};
ghost use Rattle.goal_solver.specs.Answers.{IsOwed};
ghost use Rattle.goal_solver.specs.GoingBack.{GoesBack, restored};
ghost use Rattle.goal_solver.specs.Relating.{IsRelated, ChangesRecords, AgreesWith, bound_at};
ghost use Rattle.goal_solver.specs.Settled.{HoldsWithMemory, AreSettledIn, outcome_in, IsPlainOrSame};
ghost use Rattle.goal_solver.specs.State.{kinds_of};

use crate::context::EvalCtxt;
use crate::eval::questions::Question;
use crate::relate::resolved::{RelatedUnder, relate_resolved_lists};
use goal_checks::predicate_terms::some_in_env;
use goal_eval::eval::effects::Effects;
use goal_eval::eval::outcomes::{Setting, Stop};
use goal_eval::eval::region_constraints::RegionConstraints;
use goal_infer::followed::follow_all;
use goal_infer::unify::Unified;
use goal_infer::unify_all::unify_all;
use goal_interner::term_nodes::{OutOfMemory, TermId};
use goal_interner::term_table::TermTable;
use goal_lists::outcomes::Outcome;
use goal_terms::modes::TypingMode;
use goal_terms::node_tests::NodeTest;
use goal_terms::predicates::Clause;

/// Two lists of terms whose bindings are followed. Aliases are opened only where `opens` says so.
#[derive(Clone, Copy)]
struct FollowedLists<'a> {
    left: &'a [TermId],
    right: &'a [TermId],
    opens: bool,
}

/// What the lists come to in pairs.
impl Question for FollowedLists<'_> {
    ghost use Rattle.std.specs.Prelude.{◌≡◌};
    ghost use Rattle.goal_lists.specs.Interned.{AreIn, erased_all};
    ghost use Rattle.goal_lists.proofs.InternedLemmas.{are_in-grown};
    ghost use Rattle.goal_solver.specs.Questions.{before-both, same-after};
    ghost use Rattle.goal_solver.specs.Settled.{SaysSettled};

    type Answer = Outcome;

    const LISTS_REGIONS: bool = false;

    ghost can_ask = { λ T q. AreIn T q.left.now × AreIn T q.right.now };

    ghost within = { λ T o. Unit {0} };

    ghost says = { λ S n T q U o. SaysSettled S q.opens n (erased_all T q.left.now) (erased_all T q.right.now) o };

    ghost ends_for_memory = { λ T q. erased_all T q.left.now ≡ erased_all T q.right.now };

    fn ask(
        &self,
        setting: &Setting<'_>,
        terms: &mut TermTable,
        effects: &mut Effects,
        depth: u32,
    ) -> Result<Outcome, Stop> {
        let under = RelatedUnder {
            setting,
            opens: self.opens,
            depth,
        };
        relate_resolved_lists(&under, terms, effects, self.left, self.right)
    }

    ghost asked_again = { λ T U q k h. (are_in-grown T U k q.left.now h.0, are_in-grown T U k q.right.now h.1) };

    ghost said_before = { λ S n T U V q o k h. before-both T U q.left.now q.right.now (λ ts us. SaysSettled S q.opens n ts us o) k h.0 h.1 };

    ghost ends_so_again = { λ T U q k h. same-after T U q.left.now q.right.now k h.0 h.1 };
}

impl EvalCtxt<'_> {
    /// Makes two lists of terms equal in pairs, at a depth: variables are bound where the terms can be the same in
    /// no other way, and closed pairs of which one is an alias are compared by their head forms. No region
    /// equation is added. It leaves what it bound also where the lists are refused, and after a stop.
    pub(crate) fn relate_all(
        &mut self,
        environment: &[Clause],
        left: &[TermId],
        right: &[TermId],
        depth: u32,
    ) -> Result<Outcome, Stop>
        requires first { AreIn self.old.terms left.now }
        requires second { AreIn self.old.terms right.now }
        ensures related { IfOk result (IsRelated self.old self.new environment.now (erased_all self.old.terms left.now) (erased_all self.old.terms right.now) depth) }
        ensures agreed { (ρ : Variable → Tree) → AgreesWith self.new ρ → AgreesWith self.old ρ }
        ensures alone { ChangesRecords self.old self.new }
        ensures kinds { kinds_of self.new ≡ kinds_of self.old }
        ensures faults { RecordsCausedFaults self.old self.new }
        ensures goes_back { GoesBack self.old self.new }
        ensures stops { is_headline self.old.typing_mode ≡ true → IfErr result (λ s. s ≡ Stop.OutOfMemory) }
        ensures settles { IsPlainOrSame self.old (erased_all self.old.terms left.now) (erased_all self.old.terms right.now) → IfErr result (λ s. s ≡ Stop.OutOfMemory) }
    {
        self.holds_together();
        let unified = self.unify_lists(left, right)?;
        if is_no(unified) {
            return Ok(Outcome::Refuted);
        }
        let settled = self.relate_followed(environment, left, right, depth)?;
        Ok(self.in_mode(settled))
    }

    /// Unifies two lists of terms in pairs, as `unify_all` does.
    fn unify_lists(&mut self, left: &[TermId], right: &[TermId]) -> Result<Unified, OutOfMemory>
        requires first { AreIn self.old.terms left.now }
        requires second { AreIn self.old.terms right.now }
        ensures alone { self.new ≡ record self.old { inference = self.new.inference } }
        ensures advances { Advances self.old.terms self.old.inference self.new.inference }
        ensures answer { IfOk result (λ u. IsUnified self.old.terms self.old.inference self.new.inference (MakesAllSame self.old.terms left.now right.now) u) }
        ensures plain { IfOk result (λ u. AreDecidedWherePlain self.old.terms self.old.inference left.now right.now u) }
        ensures identified { IfOk result (λ u. AreIdentified self.old.terms self.old.inference self.new.inference (sides left.now right.now) u) }
        ensures clash { IfOk result (λ u. AreClashing self.old.terms self.old.inference left.now right.now u) }
        ensures closed { AreUntouched self.old.terms self.old.inference self.new.inference left.now right.now }
    {
        unify_all(&self.terms, &mut self.inference, left, right)
    }

    /// What two lists of terms come to in pairs, with the bindings of their variables followed. There may be more
    /// terms, accesses and delayed faults; nothing else changes.
    fn relate_followed(
        &mut self,
        environment: &[Clause],
        left: &[TermId],
        right: &[TermId],
        depth: u32,
    ) -> Result<Outcome, Stop>
        requires first { AreIn self.old.terms left.now }
        requires second { AreIn self.old.terms right.now }
        ensures kept { Keeps self.old.terms self.new.terms }
        ensures alone { self.new ≡ restored self.old self.new }
        ensures faults { RecordsCausedFaults self.old self.new }
        ensures goes_back { GoesBack self.old self.new }
        ensures settled { IfOk result (AreSettledIn self.old (IsOwed self.new) environment.now depth (bound_at self.old left.now) (bound_at self.old right.now)) }
        ensures same { bound_at self.old left.now ≡ bound_at self.old right.now → HoldsWithMemory result }
        ensures stops { is_headline self.old.typing_mode ≡ true → IfErr result (λ s. s ≡ Stop.OutOfMemory) }
    {
        self.holds_together();
        let lefts = self.followed_ids(left)?;
        let rights = self.followed_ids(right)?;
        let opens = !some_in_env(NodeTest::IsAnyInfer, environment);
        let asked = FollowedLists {
            left: &lefts,
            right: &rights,
            opens,
        };
        let mut listed = RegionConstraints::new(self.allocator());
        self.evaluate(&asked, environment, depth, &mut listed)
    }

    /// The numbers of terms with their bindings followed. Nothing changes but that there may be more terms.
    fn followed_ids(&mut self, ids: &[TermId]) -> Result<Vec<TermId>, OutOfMemory>
        requires { AreIn self.old.terms ids.now }
        ensures kept { Keeps self.old.terms self.new.terms }
        ensures unchanged { self.new ≡ record self.old { terms = self.new.terms } }
        ensures within { IfOk result (λ rs. AreIn self.new.terms rs.items) }
        ensures trees { IfOk result (λ rs. erased_all self.new.terms rs.items ≡ bound_at self.old ids.now) }
    {
        follow_all(&mut self.terms, &self.inference, ids)
    }

    /// What an outcome comes to in the context's typing mode: in coherence no refusal is final.
    fn in_mode(&self, outcome: Outcome) -> Outcome
        ensures { result ≡ outcome_in self.now.typing_mode outcome }
    {
        match self.typing_mode {
            TypingMode::Coherence if outcome.is_refuted() => Outcome::Undecided,
            _ => outcome,
        }
    }
}

/// Whether unification said that two lists are never the same.
fn is_no(unified: Unified) -> bool
    ensures { IsTrue result ↔ (unified ≡ Unified.No) }
{
    matches!(unified, Unified::No)
}
