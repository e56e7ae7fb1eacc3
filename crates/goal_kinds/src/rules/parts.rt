//! What the rules of several kinds of goals are made with.
ghost use Rattle.std.specs.Prelude.{◌≡◌, ◌++◌, map, take, IfOk};
ghost use Rattle.goal_interner.specs.TableMeaning.{Keeps, tree_at};
ghost use Rattle.goal_terms.specs.Tree.{alias, forest};
ghost use Rattle.goal_terms.specs.TreeOf.{trees_of, tree_of_term};
ghost use Rattle.goal_kinds.specs.CandidateRules.{after};
ghost use Rattle.goal_lists.specs.Interned.{AreIn, IsIn, erased_all, erased_at};
ghost use Rattle.goal_lists.specs.RowWords.{given};

use crate::rules::RuleEntry;
use goal_interner::term_nodes::{OutOfMemory, TermId};
use goal_interner::term_table::TermTable;
use goal_lists::lists::parts::copied;
use goal_terms::answers::Certainty;
use goal_terms::terms::{AliasTerm, GenericArg, Term};
use goal_terms::view::TermRef;

/// The first arguments, of a number of them.
pub(crate) fn first_of(args: &[GenericArg], count: usize) -> &[GenericArg]
    ensures { result.now ≡ take count args.now }
{
    if count >= args.len() {
        return args;
    }
    &args[..count]
}

/// A copy of a term. Want of memory is the only refusal.
pub(crate) fn copied_term(term: &Term) -> Result<Term, OutOfMemory>
    ensures { IfOk result (λ made. tree_of_term made ≡ tree_of_term term.now) }
{
    Ok(term.clone()?)
}

/// An alias by its number, and by those of its arguments.
#[derive(Drop)]
pub(crate) struct InternedAlias {
    pub(crate) id: TermId,
    pub(crate) args: Vec<TermId>,
}

/// An alias as it stands. The table gets it. Want of memory or of numbers is the only refusal.
pub(crate) fn alias_given(
    terms: &mut TermTable,
    asked: &AliasTerm,
) -> Result<InternedAlias, OutOfMemory>
    ensures kept { Keeps terms.old terms.new }
    ensures id_in { IfOk result (λ made. IsIn terms.new made.id) }
    ensures args_in { IfOk result (λ made. AreIn terms.new made.args.items) }
    ensures itself { IfOk result (λ made. erased_at terms.new made.id ≡ alias asked.now.kind (forest (given asked.now.args))) }
    ensures exact { IfOk result (λ made. map (tree_at terms.new) made.args.items ≡ trees_of asked.now.args.items) }
    ensures trees { IfOk result (λ made. erased_all terms.new made.args.items ≡ given asked.now.args) }
{
    let id = terms.intern_part(TermRef::Alias(asked))?;
    let args = copied(terms.allocator(), terms.parts(id))?;
    Ok(InternedAlias { id, args })
}

/// Entries, and behind them one that decides nothing where the certainty is `Maybe`. Want of memory is the
/// only refusal.
pub(crate) fn with_certainty(
    entries: Vec<RuleEntry>,
    then: Certainty,
) -> Result<Vec<RuleEntry>, OutOfMemory>
    ensures { IfOk result (λ es. es.items ≡ entries.items ++ after then) }
{
    let mut all = entries;
    if let Certainty::Maybe = then {
        all.push(RuleEntry::Undecided)?;
    }
    Ok(all)
}
