//! Faults of traits.
ghost use Rattle.std.specs.Prelude.{◌≡◌};
ghost use Rattle.goal_tables.specs.TraitFaults.{auto_trait, trait_allows_const, lang_allows_const, alias_with_items};

use crate::checker::Checker;
use goal_terms::lang::LangItem;

/// The lang items whose traits are never const.
const NEVER_CONST: [LangItem; 6] = [
    LangItem::Sized,
    LangItem::FnPtr,
    LangItem::Tuple,
    LangItem::Pointee,
    LangItem::DiscriminantKind,
    LangItem::Field,
];

impl Checker<'_> {
    /// Whether a trait is an auto trait.
    #[tactic(auto, unfolding(goal_tables::specs::TraitFaults::auto_trait))]
    pub fn has_auto_trait(&self) -> bool
        ensures { result ≡ auto_trait self.now }
    {
        self.rows.tables().traits.iter().any(|row| row.is_auto)
    }

    /// Whether the trait of a lang item may be const.
    fn trait_allows_const(&self, item: LangItem) -> bool
        ensures { result ≡ trait_allows_const self.now item }
    {
        let Some(id) = self.rows.lang_trait(item) else {
            return false;
        };
        match self.rows.trait_row(id) {
            None => false,
            Some(row) => row.allows_const,
        }
    }

    /// Whether a lang trait that is never const may be const.
    #[tactic(auto, unfolding(goal_tables::specs::TraitFaults::lang_allows_const))]
    pub fn has_lang_allows_const(&self) -> bool
        ensures { result ≡ lang_allows_const self.now }
    {
        NEVER_CONST
            .iter()
            .any(|item| self.trait_allows_const(*item))
    }

    /// Whether a trait alias has items.
    #[tactic(auto, unfolding(goal_tables::specs::TraitFaults::alias_with_items))]
    pub fn has_alias_with_items(&self) -> bool
        ensures { result ≡ alias_with_items self.now }
    {
        self.rows
            .tables()
            .traits
            .iter()
            .any(|row| row.is_alias && !row.items.is_empty())
    }
}
