//! The terms that projections have through a class by which their trait goals hold.
ghost use Rattle.std.specs.Prelude.{◌≡◌, ◌⊎◌, true, [], length, Some, None, IfOk, IfErr};
ghost use Rattle.goal_terms.specs.declared.answers.Certainty.TheVariants as certainty;
ghost use Rattle.goal_interner.specs.TableMeaning.{Keeps};
ghost use Rattle.goal_terms.specs.declared.modes.TypingMode.{TypingMode};
ghost use Rattle.goal_lists.specs.Projections.{projected_item};
ghost use Rattle.goal_lists.specs.Settings.{is_headline};
ghost use Rattle.goal_solver.specs.Answers.{IsOwed, is_closed_alias, AnswersAside, IsFaultOf};
ghost use Rattle.goal_solver.specs.GoingBack.{GoesBack, restored};
ghost use Rattle.goal_eval.specs.Outcomes.{RunsFor, setting_in, level_in, FoundIn};
ghost use Rattle.goal_solver.specs.Promises.{ListsTerm};
ghost use Rattle.goal_solver.specs.State.{kinds_of};
ghost use Rattle.goal_solver.specs.ThroughClasses.{SaysTermThrough, SaysClassTerm, SoundThrough, DecidesThrough, AppliesThrough};
ghost use Rattle.goal_eval.specs.Effects.{AreSound, IsStop};

use crate::context::EvalCtxt;
use crate::eval::closed_goals::is_closed_alias;
use crate::eval::questions::Question;
use crate::faults::Fault;
use goal_eval::eval::effects::Effects;
use goal_eval::eval::interning::intern_args;
use goal_eval::eval::outcomes::{Found, Setting, Stop};
use goal_eval::eval::region_constraints::RegionConstraints;
use goal_eval::normalizes_to::projections::{Given, term_proven_via};
use goal_interner::term_table::TermTable;
use goal_terms::answers::{Certainty, Response, TraitGoalProvenVia};
use goal_terms::ids::ItemId;
use goal_terms::node_tests::general_variable;
use goal_terms::predicates::{Clause, NormalizesTo};
use goal_terms::terms::{AliasTerm, AliasTermKind};

/// The item that a kind of alias projects.
fn projected_item(kind: AliasTermKind) -> Option<ItemId>
    ensures { result ≡ projected_item kind }
{
    match kind {
        AliasTermKind::ProjectionTy(id) | AliasTermKind::ProjectionConst(id) => Some(id),
        _ => None,
    }
}

/// The term that an alias has, one above a depth, if it is a projection whose trait goal holds through a
/// class.
fn alias_proven_via(
    setting: &Setting<'_>,
    terms: &mut TermTable,
    effects: &mut Effects,
    class: TraitGoalProvenVia,
    alias: &AliasTerm,
    depth: u32,
) -> Result<Found, Stop>
    requires effects { AreSound setting.now terms.old effects.old }
    ensures effects { AreSound setting.now terms.new effects.new }
    ensures kept { Keeps terms.old terms.new }
    ensures within { IfOk result (FoundIn terms.new) }
    ensures stops { IfErr result (IsStop setting.now) }
    ensures says { (m : TypingMode) → RunsFor setting.now m → SaysTermThrough (setting_in setting.now m) (level_in setting.now m depth) class alias.now terms.new result }
{
    let Some(id) = projected_item(alias.kind) else {
        return Ok(Found::Undecided);
    };
    let Some(item) = setting.rows.item_row(id) else {
        return Ok(Found::Undecided);
    };
    let Some(trait_row) = setting.rows.trait_row(item.trait_id) else {
        return Ok(Found::Undecided);
    };
    let args = intern_args(*alias.args.allocator(), terms, &alias.args)?;
    let given = Given {
        kind: alias.kind,
        item,
        trait_params: trait_row.params.len(),
        class,
        args: args.as_slice(),
    };
    term_proven_via(setting, terms, effects, &given, depth)
}

/// An alias whose trait goal is taken to hold through a class, if it is a projection.
#[derive(Clone, Copy)]
struct AliasThrough<'a> {
    class: TraitGoalProvenVia,
    alias: &'a AliasTerm,
}

/// Which term the alias has, one above a depth.
impl Question for AliasThrough<'_> {
    ghost use Rattle.goal_lists.specs.Levels.{level};
    ghost use Rattle.goal_eval.specs.Outcomes.{FoundIn};
    ghost use Rattle.goal_solver.specs.ThroughClasses.{SaysFoundThrough};

    type Answer = Found;

    const LISTS_REGIONS: bool = true;

    ghost can_ask = { λ T q. Unit {0} };

    ghost within = { FoundIn };

    ghost says = { λ S n T q U o. SaysFoundThrough S (level S n) q.class q.alias.now U o };

    ghost ends_for_memory = { λ T q. ⊥ };

    fn ask(
        &self,
        setting: &Setting<'_>,
        terms: &mut TermTable,
        effects: &mut Effects,
        depth: u32,
    ) -> Result<Found, Stop> {
        alias_proven_via(setting, terms, effects, self.class, self.alias, depth)
    }

    ghost asked_again = { λ T U q k h. tt };

    ghost said_before = { λ S n T U V q o k h says. says };

    ghost ends_so_again = { λ T U q k h never. never };
}

#[tactic(auto, using(crate::proofs::AnswerLemmas::answering))]
impl EvalCtxt<'_> {
    /// The term that an alias has by the candidates at the remaining depth, if it is a projection whose trait
    /// goal holds through a class. Nothing changes but that there may be more terms, accesses and delayed
    /// faults.
    fn class_outcome(
        &mut self,
        class: TraitGoalProvenVia,
        alias: &AliasTerm,
        environment: &[Clause],
        listed: &mut RegionConstraints,
    ) -> Result<Found, Stop>
        ensures kept { Keeps self.old.terms self.new.terms }
        ensures unchanged { self.new ≡ restored self.old self.new }
        ensures goes_back { GoesBack self.old self.new }
        ensures within { IfOk result (FoundIn self.new.terms) }
        ensures says { (m : TypingMode) → IsOwed self.new m → SaysClassTerm self.old self.new m environment.now class alias.now result }
        ensures stops { is_headline self.old.typing_mode ≡ true → IfErr result (λ s. s ≡ Stop.OutOfMemory) }
    {
        let asked = AliasThrough { class, alias };
        let depth = self.remaining_depth();
        self.evaluate(&asked, environment, depth, listed)
    }

    /// What is answered to the goal of an alias's term by the candidates at the remaining depth, if the alias is
    /// a projection whose trait goal holds through a class. An alias or an environment with inference variables
    /// is `Maybe`. Inference state, added goals and storage are as before; the answer to an accepted goal can be
    /// applied, if the alias is such a projection.
    pub(crate) fn answer_through(
        &mut self,
        class: TraitGoalProvenVia,
        asked: &NormalizesTo,
        environment: &[Clause],
    ) -> Result<Response, Fault>
        ensures sound { SoundThrough self.old self.new class asked.now environment.now result }
        ensures decided { DecidesThrough self.old self.new class asked.now environment.now result }
        ensures unchanged { self.new ≡ restored self.old self.new }
        ensures goes_back { GoesBack self.old self.new }
        ensures fault { IsFaultOf self.old self.new result }
        ensures quiet { AnswersAside (length (kinds_of self.old)) result }
        ensures lists { IfOk result (λ r. r.certainty ≡ certainty.Maybe → r.var_values.items ≡ []) }
        ensures gives { IfOk result (λ r. r.certainty ≡ certainty.Yes → ListsTerm asked.now.term certainty.Yes r.var_values.items) }
        ensures no_class { IfOk result (λ r. r.proven_via ≡ None) }
        ensures applies { AppliesThrough self.old self.new class asked.now environment.now result }
    {
        self.is_well_formed();
        let Some(expected) = general_variable(asked.term.view().node()) else {
            return Ok(self.respond(Certainty::Maybe, None));
        };
        if !is_closed_alias(&asked.alias, environment) {
            return Ok(self.respond(Certainty::Maybe, None));
        }
        let mut listed = RegionConstraints::new(self.allocator());
        match self.class_outcome(class, &asked.alias, environment, &mut listed) {
            Ok(Found::Is(id)) => self.respond_found(expected, id, listed),
            Ok(Found::Refuted) => Err(Fault::NoSolution),
            Ok(Found::Undecided) => Ok(self.respond(Certainty::Maybe, None)),
            Err(stop) => self.stopped(stop),
        }
    }
}
