//! The built-in rules of items.
ghost use Rattle.std.specs.Prelude.{◌≡◌, [], ◌∷◌, IfOk, MatchOption};
ghost use Rattle.goal_interner.specs.TableMeaning.{Keeps};
ghost use Rattle.goal_lists.specs.Builtins.{lang_of_item, lang_term, term_rule};
ghost use Rattle.goal_lists.specs.Interned.{IsIn, AreIn, ListedIn, erased_at, erased_all, listed_at};

use crate::builtin::item_terms::{base_rule, discriminant_rule, field_type_rule, metadata_rule};
use crate::builtin::outputs::output_rule;
use crate::candidates::interned::ListedTerm;
use goal_interner::term_nodes::{OutOfMemory, TermId};
use goal_interner::term_table::TermTable;
use goal_tables::lookup::IndexedTables;
use goal_terms::ids::ItemId;
use goal_terms::lang::{LangItem, LangTarget};

/// What built-in rules say of an item's term for arguments, the self type first. The table gets the terms.
/// Want of memory or of numbers is the only refusal.
pub fn term_rule(
    rows: &IndexedTables,
    terms: &mut TermTable,
    item: ItemId,
    args: &[TermId],
) -> Result<ListedTerm, OutOfMemory>
    requires { AreIn terms.old args.now }
    ensures kept { Keeps terms.old terms.new }
    ensures within { IfOk result (ListedIn terms.new) }
    ensures listed { IfOk result (λ l. listed_at terms.new l ≡ term_rule rows.now item (erased_all terms.old args.now)) }
{
    let Some((self_ty, rest)) = split_self(args) else {
        return Ok(ListedTerm::Nothing);
    };
    let Some(named) = lang_of_item(rows, item) else {
        return Ok(ListedTerm::Nothing);
    };
    term_of_lang(rows, terms, item, named, self_ty, rest)
}

/// The self type of some arguments, and the others.
pub(crate) fn split_self(args: &[TermId]) -> Option<(TermId, &[TermId])>
    ensures { MatchOption result (args.now ≡ []) (λ p. args.now ≡ p.0 ∷ p.1.now) }
{
    match args {
        [] => None,
        [self_ty, rest @ ..] => Some((*self_ty, rest)),
    }
}

/// The lang item that names an item.
fn lang_of_item(rows: &IndexedTables, item: ItemId) -> Option<LangItem>
    ensures { result ≡ lang_of_item rows.now item }
{
    let row = rows.lang_naming(LangTarget::Item(item))?;
    Some(row.item)
}

#[tactic(auto, unfolding(crate::specs::Builtins::lang_term))]
/// What the rule of a lang item says.
fn term_of_lang(
    rows: &IndexedTables,
    terms: &mut TermTable,
    item: ItemId,
    named: LangItem,
    self_ty: TermId,
    args: &[TermId],
) -> Result<ListedTerm, OutOfMemory>
    requires self_in { IsIn terms.old self_ty }
    requires args_in { AreIn terms.old args.now }
    ensures kept { Keeps terms.old terms.new }
    ensures within { IfOk result (ListedIn terms.new) }
    ensures listed { IfOk result (λ l. listed_at terms.new l ≡ lang_term rows.now item named (erased_at terms.old self_ty) (erased_all terms.old args.now)) }
{
    match named {
        LangItem::Output => output_rule(rows, terms, self_ty, args),
        LangItem::Metadata => metadata_rule(rows, terms, item, self_ty),
        LangItem::Discriminant => discriminant_rule(rows, terms, self_ty),
        LangItem::Base => base_rule(rows, terms, self_ty),
        LangItem::FieldType => field_type_rule(rows, terms, self_ty),
        _ => Ok(ListedTerm::Nothing),
    }
}
