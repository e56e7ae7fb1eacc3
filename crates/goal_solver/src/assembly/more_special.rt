//! What the impls that are more special than that of a rule make of its answer.
ghost use Rattle.std.specs.Prelude.{◌≡◌, Err, IfOk, IfSome, IsOkUnless};
ghost use Rattle.std.specs.Option.{option_map};
ghost use Rattle.goal_solver.specs.Binding.{IsApplicable};
ghost use Rattle.goal_solver.specs.GoingBack.{GoesBack, restored};
ghost use Rattle.goal_solver.specs.MergedRules.{RunsTo};
ghost use Rattle.goal_solver.specs.MoreSpecial.{RunsAlone, AsksImpl, AsksMoreSpecial, IsTraitRule, answer_beside, binds_nothing, binds_older, impl_named, match_seen, matched_impl, said_plainly};
ghost use Rattle.goal_solver.specs.Relating.{IsFaultFor};

use crate::context::EvalCtxt;
use crate::context::respond::copied_args;
use crate::faults::Fault;
use goal_checks::checked::CheckedTables;
use goal_kinds::rules::traits::impl_rule;
use goal_kinds::rules::{Rule, RuleArguments, RuleEntry, RuleHeader};
use goal_lists::lists::ListSetting;
use goal_lists::outcomes::Outcome;
use goal_tables::rows::ImplRow;
use goal_terms::answers::{Certainty, Response};
use goal_terms::ids::ImplId;
use goal_terms::modes::TypingMode;
use goal_terms::predicates::{Clause, TraitRef};
use goal_terms::terms::GenericArg;

/// An impl whose header is matched, and with what.
#[derive(Clone, Copy)]
pub(crate) struct MatchedImpl<'a> {
    pub id: ImplId,
    pub args: &'a [GenericArg],
}

/// The impl whose header is matched, if it is that of one.
fn impl_named(named: &RuleArguments) -> Option<MatchedImpl<'_>>
    ensures { option_map match_seen result ≡ impl_named named.now }
{
    match named {
        RuleArguments::Header(RuleHeader::Impl(id), args) => Some(MatchedImpl { id: *id, args }),
        _ => None,
    }
}

/// The impl whose header a list matches first. So the list of an impl's rule begins.
fn matched_impl(entries: &[RuleEntry]) -> Option<MatchedImpl<'_>>
    ensures { option_map match_seen result ≡ matched_impl entries.now }
{
    match entries {
        [RuleEntry::Arguments(named), ..] => impl_named(named),
        _ => None,
    }
}

/// Whether a response gives a value to a variable that was there before it.
fn binds_older(response: &Response) -> bool
    ensures { result ≡ binds_older response.now }
{
    let base = response.base;
    response.var_values.iter().any(|value| value.0 < base)
}

/// Whether a response binds no variable but its own, and no opaque type.
pub(crate) fn binds_nothing(response: &Response) -> bool
    ensures { result ≡ binds_nothing response.now }
{
    !binds_older(response) && response.opaque_entries.is_empty()
}

/// What a run says whatever the variables stand for: it holds where it is sure and binds nothing.
fn said_plainly(answer: &Option<Response>) -> Outcome
    ensures { result ≡ said_plainly answer.now }
{
    match answer {
        None => Outcome::Refuted,
        Some(response) => match response.certainty {
            Certainty::Yes => {
                if binds_nothing(response) {
                    Outcome::Holds
                } else {
                    Outcome::Undecided
                }
            }
            Certainty::Maybe => Outcome::Undecided,
        },
    }
}

/// A response beside what the more special impls come to: none where one of them holds, and unsure until each is
/// refuted.
fn answer_beside(more_special: Outcome, response: Response) -> Option<Response>
    ensures { result ≡ answer_beside more_special response }
{
    match more_special {
        Outcome::Refuted => Some(response),
        Outcome::Holds => None,
        Outcome::Undecided => Some(Response {
            certainty: Certainty::Maybe,
            ..response
        }),
    }
}

/// The rule by which an impl shows its own trait with some arguments, if it isn't refused at once. Only memory is
/// refused.
fn rule_for_trait(
    tables: &CheckedTables,
    mode: &TypingMode,
    row: &ImplRow,
    args: &[GenericArg],
) -> Result<Option<Rule>, Fault>
    ensures rule { IfOk result (IsTraitRule tables.now mode.now args.now row.now) }
    ensures only_memory { IsOkUnless result Fault.OutOfMemory }
{
    let Ok(copies) = copied_args(*row.trait_args.allocator(), args) else {
        return Err(Fault::OutOfMemory);
    };
    let asked = TraitRef {
        def_id: row.trait_id,
        args: copies,
    };
    let setting = ListSetting {
        rows: tables.rows(),
        mode,
    };
    match impl_rule(setting, &asked, row.id, Certainty::Yes) {
        Ok(rule) => Ok(Some(rule)),
        Err(Fault::NoSolution) => Ok(None),
        Err(_) => Err(Fault::OutOfMemory),
    }
}

impl EvalCtxt<'_> {
    /// Runs a rule under an environment at the remaining depth, and answers beside the impls that are more special than
    /// its own. There is no response where the rule is refused, or where one of these impls holds whatever the variables
    /// stand for. Inference state, added goals and storage are as before.
    #[cycle(open)]
    pub(crate) fn run_beside(
        &mut self,
        environment: &[Clause],
        rule: &Rule,
    ) -> Result<Option<Response>, Fault>
        ensures runs { IfOk result (λ a. RunsTo environment.now rule.now self.old a self.new) }
        ensures applies { IfOk result (λ a. IfSome a (IsApplicable self.new)) }
        ensures never { result ≡ Err Fault.NoSolution → ⊥ }
        ensures unchanged { self.new ≡ restored self.old self.new }
        ensures goes_back { GoesBack self.old self.new }
        ensures fault { IsFaultFor self.old self.new result }
    {
        let Some(response) = self.run_alone(environment, &rule.entries)? else {
            return Ok(None);
        };
        self.holds_together();
        let found = self.more_special_outcome(environment, &rule.entries)?;
        Ok(answer_beside(found, response))
    }

    /// What the impls come to that are more special than the one that a list matches first, each by itself, for what its
    /// header is matched with: one of them holds, or else one is undecided, or all are refuted.
    #[cycle(open)]
    fn more_special_outcome(
        &mut self,
        environment: &[Clause],
        entries: &[RuleEntry],
    ) -> Result<Outcome, Fault>
        ensures asks { IfOk result (λ o. AsksMoreSpecial environment.now (matched_impl entries.now) self.old o self.new) }
        ensures never { result ≡ Err Fault.NoSolution → ⊥ }
        ensures unchanged { self.new ≡ restored self.old self.new }
        ensures goes_back { GoesBack self.old self.new }
        ensures fault { IsFaultFor self.old self.new result }
    {
        let Some(matched) = matched_impl(entries) else {
            return Ok(Outcome::Refuted);
        };
        let rows = self.tables().rows();
        let places = rows.more_special(matched.id);
        let mut found = Outcome::Refuted;
        for i in 0..places.len() {
            let row = rows.impl_at(places[i]);
            let next = self.impl_outcome(environment, row, matched.args)?;
            found = found.or(next);
        }
        Ok(found)
    }

    /// What an impl comes to for its own trait with some arguments, by itself: its rule is run, if it isn't refused at
    /// once.
    #[cycle(open)]
    fn impl_outcome(
        &mut self,
        environment: &[Clause],
        row: &ImplRow,
        args: &[GenericArg],
    ) -> Result<Outcome, Fault>
        ensures asks { IfOk result (λ o. AsksImpl environment.now args.now row.now self.old o self.new) }
        ensures never { result ≡ Err Fault.NoSolution → ⊥ }
        ensures unchanged { self.new ≡ restored self.old self.new }
        ensures goes_back { GoesBack self.old self.new }
        ensures fault { IsFaultFor self.old self.new result }
    {
        let Some(rule) = rule_for_trait(self.tables(), self.typing_mode(), row, args)? else {
            return Ok(Outcome::Refuted);
        };
        let answer = self.run_alone(environment, &rule.entries)?;
        Ok(said_plainly(&answer))
    }

    /// Runs a list under an environment at the remaining depth. Where it is refused, there is no response. Inference
    /// state, added goals and storage are as before.
    #[cycle(open)]
    fn run_alone(
        &mut self,
        environment: &[Clause],
        entries: &[RuleEntry],
    ) -> Result<Option<Response>, Fault>
        ensures runs { IfOk result (λ a. RunsAlone environment.now entries.now self.old a self.new) }
        ensures applies { IfOk result (λ a. IfSome a (IsApplicable self.new)) }
        ensures never { result ≡ Err Fault.NoSolution → ⊥ }
        ensures unchanged { self.new ≡ restored self.old self.new }
        ensures goes_back { GoesBack self.old self.new }
        ensures fault { IsFaultFor self.old self.new result }
    {
        match self.run_open(environment, entries) {
            Ok(response) => Ok(Some(response)),
            Err(Fault::NoSolution) => Ok(None),
            Err(fault) => Err(fault),
        }
    }
}
