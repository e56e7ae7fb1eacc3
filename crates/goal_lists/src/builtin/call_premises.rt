//! What a call asks: that the signature takes the arguments, and that its output is `Sized`.
ghost use Rattle.std.specs.Prelude.{◌≡◌, true, [], ◌∷◌, map, IfOk, IfSome};
ghost use Rattle.std.specs.List.{All};
ghost use Rattle.std.specs.Option.{option_map};
ghost use Rattle.goal_terms.specs.Sorts.{IsSort};
ghost use Rattle.goal_interner.specs.TableMeaning.{tree_at, Keeps};
ghost use Rattle.goal_terms.specs.Tree.{parts_of};
ghost use Rattle.goal_terms.specs.declared.sorts.Sort.TheVariants as sorts;
ghost use Rattle.goal_lists.specs.BuiltinWords.{ArePremises, rule_at};
ghost use Rattle.goal_lists.specs.Builtins.{is_fn_ptr, inputs_of, output_of, call_premises, call_rule};
ghost use Rattle.goal_lists.specs.Interned.{IsIn, AreIn, PremiseIn, erased_at, erased_all};

use crate::builtin::calls::signature_of;
use crate::builtin::constituents::type_is;
use crate::candidates::interned::InternedPremise;
use crate::candidates::row_terms::{allocator_of, arguments_of, last_part};
use goal_interner::term_nodes::{OutOfMemory, TermId};
use goal_interner::term_table::TermTable;
use goal_tables::lookup::IndexedTables;
use goal_terms::heads::{Head, Node};
use goal_terms::ids::TraitId;
use goal_terms::lang::LangItem;
use std::alloc::Global;

/// The inputs of a signature and then its output, which are types. Want of memory is the only refusal.
fn types_of(alloc: Global, terms: &TermTable, sig: TermId) -> Result<Vec<TermId>, OutOfMemory>
    requires within { IsIn terms.now sig }
    requires pointer { is_fn_ptr (erased_at terms.now sig) ≡ true }
    ensures within { IfOk result (λ ids. AreIn terms.now ids.items) }
    ensures types { IfOk result (λ ids. All (IsSort sorts.Ty) (map (tree_at terms.now) ids.items)) }
    ensures terms { IfOk result (λ ids. erased_all terms.now ids.items ≡ parts_of (erased_at terms.now sig)) }
{
    let _top = terms.node(sig);
    arguments_of(alloc, terms, sig)
}

/// The output of a signature. It takes no memory.
pub(crate) fn output_of(terms: &TermTable, sig: TermId) -> Option<TermId>
    requires within { IsIn terms.now sig }
    requires pointer { is_fn_ptr (erased_at terms.now sig) ≡ true }
    ensures within { IfSome result (IsIn terms.now) }
    ensures output { option_map (erased_at terms.now) result ≡ output_of (erased_at terms.now sig) }
{
    let _top = terms.node(sig);
    last_part(terms, sig)
}

/// The inputs of a signature, as a tuple. The table gets it. Want of memory or of numbers is the only
/// refusal.
fn inputs_of(alloc: Global, terms: &mut TermTable, sig: TermId) -> Result<TermId, OutOfMemory>
    requires within { IsIn terms.old sig }
    requires pointer { is_fn_ptr (erased_at terms.old sig) ≡ true }
    ensures kept { Keeps terms.old terms.new }
    ensures within { IfOk result (IsIn terms.new) }
    ensures inputs { IfOk result (λ id. erased_at terms.new id ≡ inputs_of (erased_at terms.old sig)) }
{
    let mut inputs = types_of(alloc, terms, sig)?;
    inputs.pop();
    let count = inputs.len();
    terms.intern_node(Node::Head(Head::Tuple(count)), inputs)
}

/// That a signature takes given arguments, as a tuple, and that its output is `Sized`. The table gets the
/// inputs. Want of memory or of numbers is the only refusal.
pub(crate) fn call_premises(
    alloc: Global,
    terms: &mut TermTable,
    sized: TraitId,
    sig: TermId,
    args: &[TermId],
    output: TermId,
) -> Result<Vec<InternedPremise>, OutOfMemory>
    requires signature { IsIn terms.old sig }
    requires pointer { is_fn_ptr (erased_at terms.old sig) ≡ true }
    requires args { AreIn terms.old args.now }
    requires output { IsIn terms.old output }
    ensures kept { Keeps terms.old terms.new }
    ensures within { IfOk result (λ ps. All (PremiseIn terms.new) ps.items) }
    ensures premises { IfOk result (ArePremises terms.new (call_premises sized (erased_at terms.old sig) (erased_all terms.old args.now) (erased_at terms.old output))) }
{
    let [given, ..] = args else {
        return Ok(Vec::new(alloc));
    };
    let inputs = inputs_of(alloc, terms, sig)?;
    two_premises(
        alloc,
        InternedPremise::Equation(inputs, *given),
        type_is(alloc, sized, output)?,
    )
}

/// Two premises as a list. Want of memory is the only refusal.
fn two_premises(
    alloc: Global,
    first: InternedPremise,
    second: InternedPremise,
) -> Result<Vec<InternedPremise>, OutOfMemory>
    ensures { IfOk result (λ ps. ps.items ≡ first ∷ second ∷ []) }
{
    let mut premises = Vec::with_capacity(alloc, 2)?;
    premises.push(first)?;
    premises.push(second)?;
    Ok(premises)
}

/// What `Fn`, `FnMut` and `FnOnce` ask of a type that is called; nothing where it can't be called so. The
/// table gets the terms. Want of memory or of numbers is the only refusal.
pub(crate) fn call_rule(
    rows: &IndexedTables,
    terms: &mut TermTable,
    by: LangItem,
    self_ty: TermId,
    args: &[TermId],
) -> Result<Option<Vec<InternedPremise>>, OutOfMemory>
    requires within { IsIn terms.old self_ty }
    requires args { AreIn terms.old args.now }
    ensures kept { Keeps terms.old terms.new }
    ensures within { IfOk result (λ o. IfSome o (λ ps. All (PremiseIn terms.new) ps.items)) }
    ensures premises { IfOk result (λ o. rule_at terms.new o ≡ call_rule rows.now by (erased_at terms.old self_ty) (erased_all terms.old args.now)) }
{
    let Some(sig) = signature_of(rows, terms, by, self_ty)? else {
        return Ok(None);
    };
    let Some(output) = output_of(terms, sig) else {
        return Ok(None);
    };
    let Some(sized) = rows.lang_trait(LangItem::Sized) else {
        return Ok(None);
    };
    let premises = call_premises(allocator_of(rows), terms, sized, sig, args, output)?;
    Ok(Some(premises))
}
