//! The arguments for a header's parameters, as far as they are known, and the header's instances.
ghost use Rattle.std.specs.Prelude.{◌≡◌, ◌++◌, ◌∷◌, [], length, map, IfOk};
ghost use Rattle.goal_terms.specs.NodeTests.{some_node};
ghost use Rattle.goal_terms.specs.Sorts.{IsArgument};
ghost use Rattle.goal_interner.specs.TableMeaning.{Keeps};
ghost use Rattle.goal_terms.specs.View.{tree_of_ref};
ghost use Rattle.goal_lists.specs.Headers.{under};
ghost use Rattle.goal_lists.specs.Interned.{IsIn, AreIn, erased_at, erased_all};
ghost use Rattle.goal_eval.specs.Outcomes.{header_terms};
ghost use Rattle.goal_eval.specs.Effects.{KeepsButRegions};
ghost use Rattle.goal_eval.specs.HeaderWords.{erased_ref, OptionIn, KnownIn, is_missing, is_unknown, IsFilled, AreFilled, is_settled, is_complete};

use crate::eval::effects::Effects;
use crate::eval::outcomes::Setting;
use crate::relate::header_places::parameter_at;
use goal_interner::term_nodes::{OutOfMemory, TermId};
use goal_interner::term_table::TermTable;
use goal_terms::answers::ParamKind;
use goal_terms::terms::GenericArg;
use goal_terms::view::TermRef;
use std::alloc::Global;

/// What is known of each parameter of a header, and the arguments for them: the known terms, and for the
/// others lifetimes of their own.
#[derive(Drop)]
pub struct FilledArgs<'e> {
    pub known: &'e [Option<TermId>],
    pub args: Vec<TermId>,
}

/// Whether the parameter of a number, if there is one, isn't known.
fn is_missing(known: &[Option<TermId>], number: Option<u32>) -> bool
    ensures { result ≡ is_missing known.now number }
{
    let Some(index) = number else {
        return false;
    };
    let place = index as usize;
    if place >= known.len() {
        return true;
    }
    known[place].is_none()
}

/// Whether a term mentions a parameter that isn't known.
pub(crate) fn mentions_unknown(known: &[Option<TermId>], term: TermRef<'_>) -> bool
    ensures { result ≡ some_node (is_unknown known.now) (tree_of_ref term.entry) }
{
    if is_missing(known, parameter_at(term.node())) {
        return true;
    }
    let parts = term.parts();
    for i in 0..parts.len() {
        if mentions_unknown(known, parts.at(i)) {
            return true;
        }
    }
    false
}

/// Whether a parameter of a kind is known, or is a lifetime.
fn is_settled(kind: ParamKind, known: Option<TermId>) -> bool
    ensures { result ≡ is_settled kind known }
{
    match kind {
        ParamKind::Lifetime => true,
        ParamKind::Ty | ParamKind::Const => known.is_some(),
    }
}

/// Whether all type and const parameters are known.
pub(crate) fn is_complete(params: &[ParamKind], known: &[Option<TermId>]) -> bool
    requires { length params.now ≡ length known.now }
    ensures { result ≡ is_complete params.now known.now }
{
    for i in 0..params.len() {
        if !is_settled(params[i], known[i]) {
            return false;
        }
    }
    true
}

/// One more parameter of which something is known.
pub(crate) fn add_known(
    known: &mut Vec<Option<TermId>>,
    next: Option<TermId>,
) -> Result<(), OutOfMemory>
    ensures { IfOk result (λ d. known.new.items ≡ known.old.items ++ next ∷ []) }
{
    known.push(next)?;
    Ok(())
}

/// The argument for a parameter: its term where that is known, and else a lifetime of its own.
fn filled_arg(
    terms: &mut TermTable,
    effects: &mut Effects,
    known: Option<TermId>,
) -> Result<TermId, OutOfMemory>
    requires { OptionIn terms.old known }
    ensures kept { Keeps terms.old terms.new }
    ensures within { IfOk result (IsIn terms.new) }
    ensures filled { IfOk result (IsFilled terms.new known) }
    ensures aside { KeepsButRegions effects.old effects.new }
{
    match known {
        Some(id) => Ok(id),
        None => {
            let lifetime = effects.own_lifetime()?;
            terms.intern_part(TermRef::Lifetime(lifetime))
        }
    }
}

/// The arguments for the parameters: the known terms, and for the others lifetimes of their own.
pub(crate) fn filled_args(
    setting: &Setting<'_>,
    terms: &mut TermTable,
    effects: &mut Effects,
    known: &[Option<TermId>],
) -> Result<Vec<TermId>, OutOfMemory>
    requires { KnownIn terms.old known.now }
    ensures kept { Keeps terms.old terms.new }
    ensures within { IfOk result (λ args. AreIn terms.new args.items) }
    ensures filled { IfOk result (λ args. AreFilled terms.new known.now args.items) }
    ensures aside { KeepsButRegions effects.old effects.new }
{
    let mut args = Vec::with_capacity(setting.allocator(), known.len())?;
    for one in known {
        let argument = filled_arg(terms, effects, *one)?;
        args.push(argument)?;
    }
    Ok(args)
}

/// The instance of a header's argument under arguments.
pub(crate) fn instance_of(
    terms: &mut TermTable,
    header: TermRef<'_>,
    args: &[TermId],
) -> Result<TermId, OutOfMemory>
    requires args { AreIn terms.old args.now }
    requires argument { IsArgument (tree_of_ref header) }
    ensures kept { Keeps terms.old terms.new }
    ensures within { IfOk result (IsIn terms.new) }
    ensures tree { IfOk result (λ id. erased_at terms.new id ≡ under (erased_all terms.old args.now) (erased_ref header.entry)) }
{
    terms.intern_under(header, args)
}

/// The instances of a header's arguments.
pub(crate) fn instances(
    alloc: Global,
    terms: &mut TermTable,
    header: &[GenericArg],
    args: &[TermId],
) -> Result<Vec<TermId>, OutOfMemory>
    requires { AreIn terms.old args.now }
    ensures kept { Keeps terms.old terms.new }
    ensures within { IfOk result (λ ids. AreIn terms.new ids.items) }
    ensures trees { IfOk result (λ ids. erased_all terms.new ids.items ≡ map (under (erased_all terms.old args.now)) (header_terms header.now)) }
{
    let mut ids = Vec::with_capacity(alloc, header.len())?;
    for argument in header {
        let id = instance_of(terms, argument.view(), args)?;
        ids.push(id)?;
    }
    Ok(ids)
}
