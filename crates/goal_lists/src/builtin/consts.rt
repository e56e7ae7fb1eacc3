//! The meaning of trait aliases as const traits, and the built-in rules of const traits.
ghost use Rattle.std.specs.Prelude.{◌≡◌, IfOk, IfSome};
ghost use Rattle.goal_interner.specs.TableMeaning.{Keeps};
ghost use Rattle.goal_lists.specs.BuiltinWords.{GivesConstRule, alias_const_rule};
ghost use Rattle.goal_lists.specs.ConstRules.{lang_const_rule, const_rule};
ghost use Rattle.goal_lists.specs.Interned.{IsIn, AreIn, ConstRuleIn, erased_at, erased_all, const_rule_at};

use crate::builtin::const_calls::const_call_rule;
use crate::builtin::copy_clone::const_copy_rule;
use crate::builtin::destruct::destruct_rule;
use crate::candidates::interned::InternedConstRule;
use crate::candidates::premises::{clauses_under, traits_under};
use goal_interner::term_nodes::{OutOfMemory, TermId};
use goal_interner::term_table::TermTable;
use goal_tables::lookup::IndexedTables;
use goal_tables::rows::TraitRow;
use goal_terms::ids::TraitId;
use goal_terms::lang::{LangItem, LangTarget};

#[tactic(auto, unfolding(crate::specs::ConstRules::lang_const_rule))]
/// The rule of a lang trait that may be const, for its self type and its other arguments.
fn lang_const_rule(
    rows: &IndexedTables,
    terms: &mut TermTable,
    trait_id: TraitId,
    lang: LangItem,
    self_ty: TermId,
    args: &[TermId],
) -> Result<Option<InternedConstRule>, OutOfMemory>
    requires within { IsIn terms.old self_ty }
    requires args { AreIn terms.old args.now }
    ensures kept { Keeps terms.old terms.new }
    ensures within { IfOk result (λ o. IfSome o (ConstRuleIn terms.new)) }
    ensures rule { GivesConstRule terms.new result (lang_const_rule rows.now trait_id lang (erased_at terms.old self_ty) (erased_all terms.old args.now)) }
{
    match lang {
        LangItem::Copy | LangItem::Clone => const_copy_rule(rows, terms, trait_id, self_ty),
        LangItem::Fn | LangItem::FnMut | LangItem::FnOnce => {
            const_call_rule(rows, terms, lang, self_ty, args)
        }
        LangItem::Destruct => destruct_rule(rows, terms, trait_id, self_ty),
        LangItem::Sized
        | LangItem::FnPtr
        | LangItem::Tuple
        | LangItem::Pointee
        | LangItem::DiscriminantKind
        | LangItem::Field
        | LangItem::Output
        | LangItem::Metadata
        | LangItem::Discriminant
        | LangItem::Base
        | LangItem::FieldType
        | LangItem::DynMetadata => Ok(None),
    }
}

/// What a trait alias means as a const trait. The table gets the terms. Want of memory or of numbers is the
/// only refusal.
fn alias_const_rule(
    terms: &mut TermTable,
    row: &TraitRow,
    args: &[TermId],
) -> Result<InternedConstRule, OutOfMemory>
    requires { AreIn terms.old args.now }
    ensures kept { Keeps terms.old terms.new }
    ensures within { IfOk result (ConstRuleIn terms.new) }
    ensures rule { IfOk result (λ r. const_rule_at terms.new r ≡ alias_const_rule (erased_all terms.old args.now) row.now) }
{
    let premises = clauses_under(terms, row.predicates.as_slice(), args)?;
    let conditions = traits_under(terms, row.const_conditions.as_slice(), args)?;
    Ok(InternedConstRule {
        premises,
        conditions,
    })
}

#[tactic(auto, unfolding(crate::specs::ConstRules::const_rule))]
/// What a trait that is a trait alias or a lang item asks for to hold as a const trait for arguments, the
/// self type first; nothing where there is no rule. The table gets the terms. Want of memory or of
/// numbers is the only refusal.
pub fn const_rule(
    rows: &IndexedTables,
    terms: &mut TermTable,
    trait_id: TraitId,
    args: &[TermId],
) -> Result<Option<InternedConstRule>, OutOfMemory>
    requires { AreIn terms.old args.now }
    ensures kept { Keeps terms.old terms.new }
    ensures within { IfOk result (λ o. IfSome o (ConstRuleIn terms.new)) }
    ensures rule { GivesConstRule terms.new result (const_rule rows.now trait_id (erased_all terms.old args.now)) }
{
    let [self_ty, rest @ ..] = args else {
        return Ok(None);
    };
    let Some(row) = rows.trait_row(trait_id) else {
        return Ok(None);
    };
    if row.is_alias {
        let rule = alias_const_rule(terms, row, args)?;
        return Ok(Some(rule));
    }
    let Some(lang) = rows.lang_naming(LangTarget::Trait(trait_id)) else {
        return Ok(None);
    };
    lang_const_rule(rows, terms, trait_id, lang.item, *self_ty, rest)
}
