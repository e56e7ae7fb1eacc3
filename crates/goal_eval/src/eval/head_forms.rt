//! The head forms of terms.
ghost use Rattle.std.specs.Prelude.{IfErr, IfOk};
ghost use Rattle.goal_interner.specs.TableMeaning.{Keeps};
ghost use Rattle.goal_lists.specs.Headers.{under};
ghost use Rattle.goal_lists.specs.Interned.{IsIn, AreIn, erased_at, erased_all};
ghost use Rattle.goal_lists.specs.InternedEntries.{value_tree};
ghost use Rattle.goal_eval.specs.Outcomes.{FoundIn, ForEachMode, SaysForm};
ghost use Rattle.goal_eval.specs.Effects.{AreSound, IsStop};

use crate::eval::effects::Effects;
use crate::eval::outcomes::{Found, Setting, Stop};
use crate::eval::row_values::{ValueOfRow, value_under};
use crate::normalizes_to::alias_terms::alias_term;
use goal_interner::term_nodes::TermId;
use goal_interner::term_table::TermTable;
use goal_lists::lists::parts::copied;
use goal_terms::heads::Node;

/// The head form of a term at a depth: what an alias normalizes to, and each other term itself.
#[cycle(closed)]
pub fn head_form(
    setting: &Setting<'_>,
    terms: &mut TermTable,
    effects: &mut Effects,
    id: TermId,
    depth: u32,
) -> Result<Found, Stop>
    requires effects { AreSound setting.now terms.old effects.old }
    requires within { IsIn terms.old id }
    ensures effects { AreSound setting.now terms.new effects.new }
    ensures kept { Keeps terms.old terms.new }
    ensures within { IfOk result (FoundIn terms.new) }
    ensures stops { IfErr result (IsStop setting.now) }
    ensures says { ForEachMode setting.now depth (λ _ L. IfOk result (SaysForm L (erased_at terms.old id) terms.new)) }
{
    let Node::Alias(kind) = terms.node(id) else {
        return Ok(Found::Is(id));
    };
    let args = copied(setting.allocator(), terms.parts(id))?;
    alias_term(setting, terms, effects, kind, args.as_slice(), depth)
}

/// The head form at a depth of a row's value under arguments.
#[tactic(auto, using(crate::proofs::CacheLemmas::caching))]
#[cycle(closed)]
pub(crate) fn head_form_under(
    setting: &Setting<'_>,
    terms: &mut TermTable,
    effects: &mut Effects,
    of: ValueOfRow<'_>,
    args: &[TermId],
    depth: u32,
) -> Result<Found, Stop>
    requires effects { AreSound setting.now terms.old effects.old }
    requires args { AreIn terms.old args.now }
    ensures effects { AreSound setting.now terms.new effects.new }
    ensures kept { Keeps terms.old terms.new }
    ensures within { IfOk result (FoundIn terms.new) }
    ensures stops { IfErr result (IsStop setting.now) }
    ensures says { ForEachMode setting.now depth (λ _ L. IfOk result (SaysForm L (under (erased_all terms.old args.now) (value_tree of.entry.value)) terms.new)) }
{
    let id = value_under(setting, terms, effects, of, args)?;
    head_form(setting, terms, effects, id, depth)
}
