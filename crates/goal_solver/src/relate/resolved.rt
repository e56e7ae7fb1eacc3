//! What terms come to that may hold inference variables.
ghost use Rattle.std.specs.Prelude.{◌≡◌, ◌<◌, ◌||◌, not, IfOk, IfErr, length};
ghost use Rattle.goal_terms.specs.NodeTests.{some_node, is_any_infer};
ghost use Rattle.goal_interner.specs.TableMeaning.{tree_at, Keeps};
ghost use Rattle.goal_lists.specs.Interned.{erased_at, erased_all};
ghost use Rattle.goal_eval.specs.Pending.{AreOfOneKind, AreListsOfOneKind, NeedForms};
ghost use Rattle.goal_solver.specs.Settled.{IsSettled, AreSettled, HoldsWithMemory};
ghost use Rattle.goal_eval.specs.Effects.{AreSound, IsStop};

use goal_eval::eval::effects::Effects;
use goal_eval::eval::outcomes::{Setting, Stop};
use goal_eval::relate::equality::compare_terms;
use goal_eval::relate::pairs::{Tops, compare_tops};
use goal_interner::term_nodes::TermId;
use goal_interner::term_table::TermTable;
use goal_lists::lists::parts::copied;
use goal_lists::outcomes::Outcome;

/// Under what terms are related that may hold inference variables: the setting, whether aliases are opened, which they
/// are where the environment holds no variable, and the depth.
#[derive(Clone, Copy)]
pub(crate) struct RelatedUnder<'e> {
    pub(crate) setting: &'e Setting<'e>,
    pub(crate) opens: bool,
    pub(crate) depth: u32,
}

/// What two terms come to, lifetimes aside, whatever stands for their inference variables. It holds where
/// they are equal at the depth in any case, and is refuted where they can't be made identical. An alias is
/// opened only where neither it nor what it is compared with holds a variable and, as `under` says, neither
/// does the environment.
#[cycle(relating)]
pub(crate) fn relate_resolved(
    under: &RelatedUnder<'_>,
    terms: &mut TermTable,
    effects: &mut Effects,
    left: TermId,
    right: TermId,
) -> Result<Outcome, Stop>
    requires effects { AreSound under.now.setting.now terms.old effects.old }
    requires alike { AreOfOneKind terms.old left right }
    ensures effects { AreSound under.now.setting.now terms.new effects.new }
    ensures kept { Keeps terms.old terms.new }
    ensures stops { IfErr result (IsStop under.now.setting.now) }
    ensures says { IfOk result (IsSettled under.now.setting.now under.now.opens under.now.depth (erased_at terms.old left) (erased_at terms.old right)) }
    ensures same { erased_at terms.old left ≡ erased_at terms.old right → HoldsWithMemory result }
{
    match compare_tops(terms, left, right) {
        Tops::Settled(outcome) => Ok(outcome),
        Tops::NeedForms => relate_resolved_forms(under, terms, effects, left, right),
        Tops::NeedParts => {
            let alloc = under.setting.allocator();
            let parts = copied(alloc, terms.parts(left))?;
            let others = copied(alloc, terms.parts(right))?;
            relate_resolved_lists(under, terms, effects, &parts, &others)
        }
    }
}

/// Whether two terms of which one is an alias are left open: where aliases aren't opened, or where an
/// inference variable stands in one of the terms.
fn stays_open(terms: &TermTable, left: TermId, right: TermId, opens: bool) -> bool
    requires first { left.0 < length terms.now }
    requires second { right.0 < length terms.now }
    ensures { result ≡ (not opens || some_node is_any_infer (tree_at terms.now left) || some_node is_any_infer (tree_at terms.now right)) }
{
    !opens || terms.has_infer(left) || terms.has_infer(right)
}

/// What two terms come to of which one is an alias.
fn relate_resolved_forms(
    under: &RelatedUnder<'_>,
    terms: &mut TermTable,
    effects: &mut Effects,
    left: TermId,
    right: TermId,
) -> Result<Outcome, Stop>
    requires effects { AreSound under.now.setting.now terms.old effects.old }
    requires alike { AreOfOneKind terms.old left right }
    requires forms { NeedForms (erased_at terms.old left) (erased_at terms.old right) }
    ensures effects { AreSound under.now.setting.now terms.new effects.new }
    ensures kept { Keeps terms.old terms.new }
    ensures stops { IfErr result (IsStop under.now.setting.now) }
    ensures says { IfOk result (IsSettled under.now.setting.now under.now.opens under.now.depth (erased_at terms.old left) (erased_at terms.old right)) }
{
    if stays_open(terms, left, right, under.opens) {
        return Ok(Outcome::Undecided);
    }
    compare_terms(under.setting, terms, effects, left, right, under.depth)
}

/// What two lists of terms come to in pairs, as `relate_resolved` says it of two terms. Lists of unlike lengths are
/// refuted.
#[cycle(relating)]
pub(crate) fn relate_resolved_lists(
    under: &RelatedUnder<'_>,
    terms: &mut TermTable,
    effects: &mut Effects,
    left: &[TermId],
    right: &[TermId],
) -> Result<Outcome, Stop>
    requires effects { AreSound under.now.setting.now terms.old effects.old }
    requires alike { AreListsOfOneKind terms.old left.now right.now }
    ensures effects { AreSound under.now.setting.now terms.new effects.new }
    ensures kept { Keeps terms.old terms.new }
    ensures stops { IfErr result (IsStop under.now.setting.now) }
    ensures says { IfOk result (AreSettled under.now.setting.now under.now.opens under.now.depth (erased_all terms.old left.now) (erased_all terms.old right.now)) }
    ensures same { erased_all terms.old left.now ≡ erased_all terms.old right.now → HoldsWithMemory result }
{
    let count = left.len();
    if right.len() != count {
        return Ok(Outcome::Refuted);
    }
    let mut outcome = Outcome::Holds;
    for i in 0..count {
        if outcome.is_refuted() {
            return Ok(Outcome::Refuted);
        }
        let next = relate_resolved(under, terms, effects, left[i], right[i])?;
        outcome = outcome.and(next);
    }
    Ok(outcome)
}
