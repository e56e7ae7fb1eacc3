//! The faults of tables.
ghost use Rattle.std.specs.Prelude.{◌≡◌, find};
ghost use Rattle.goal_tables.specs.Faults.{applies, all_faults, unknown_item, wrong_argument_count, wrong_argument_kind, parameter_out_of_range, infer_in_table, never_const};

use crate::checker::Checker;
use goal_tables::faults::{TableFault, TermFault};

/// The faults of tables, by their numbers.
const FAULTS: [TableFault; 20] = [
    TableFault::UnknownItem,
    TableFault::WrongArgumentCount,
    TableFault::WrongArgumentKind,
    TableFault::ParameterOutOfRange,
    TableFault::InferInTable,
    TableFault::ImplParameterNotInHeader,
    TableFault::ReservationWithItems,
    TableFault::LangItemMissing,
    TableFault::LangItemDoubled,
    TableFault::ImplOfBuiltinTrait,
    TableFault::AutoTrait,
    TableFault::NeverConst,
    TableFault::TraitAliasWithItems,
    TableFault::InherentConstWithoutValue,
    TableFault::SourceMismatch,
    TableFault::OwnParametersMismatch,
    TableFault::BuiltinItemMismatch,
    TableFault::DoubledId,
    TableFault::SpecializationMismatch,
    TableFault::SpecializationCycle,
];

impl Checker<'_> {
    /// Whether an id stands that no row has.
    #[tactic(auto, unfolding(goal_tables::specs::Faults::unknown_item))]
    pub fn has_unknown_item(&self) -> bool
        ensures { result ≡ unknown_item self.now }
    {
        self.lies_in_rows(TermFault::UnknownItem)
    }

    /// Whether an argument list has another length than its item's parameters.
    #[tactic(auto, unfolding(goal_tables::specs::Faults::wrong_argument_count))]
    pub fn has_wrong_argument_count(&self) -> bool
        ensures { result ≡ wrong_argument_count self.now }
    {
        self.lies_in_rows(TermFault::WrongArgumentCount)
    }

    /// Whether an argument, a term, a value or an alias has another kind than its place.
    #[tactic(auto, unfolding(goal_tables::specs::Faults::wrong_argument_kind))]
    pub fn has_wrong_argument_kind(&self) -> bool
        ensures { result ≡ wrong_argument_kind self.now }
    {
        self.lies_in_rows(TermFault::WrongArgumentKind)
    }

    /// Whether a parameter isn't among its row's, or has another kind there.
    #[tactic(auto, unfolding(goal_tables::specs::Faults::parameter_out_of_range))]
    pub fn has_parameter_out_of_range(&self) -> bool
        ensures { result ≡ parameter_out_of_range self.now }
    {
        self.lies_in_rows(TermFault::ParameterOutOfRange)
    }

    /// Whether an inference variable, a region variable or a placeholder stands in a row.
    #[tactic(auto, unfolding(goal_tables::specs::Faults::infer_in_table))]
    pub fn has_infer(&self) -> bool
        ensures { result ≡ infer_in_table self.now }
    {
        self.lies_in_rows(TermFault::InferInTable)
    }

    /// Whether something const is said of a trait that doesn't allow it, or a lang trait that must not
    /// allow it does.
    #[tactic(auto, unfolding(goal_tables::specs::Faults::never_const))]
    pub fn has_never_const(&self) -> bool
        ensures { result ≡ never_const self.now }
    {
        self.lies_in_rows(TermFault::NeverConst) || self.has_lang_allows_const()
    }

    /// Whether a fault applies. Want of memory never does.
    #[tactic(auto, unfolding(goal_tables::specs::Faults::applies))]
    pub fn applies(&self, fault: TableFault) -> bool
        ensures { result ≡ applies self.now fault }
    {
        match fault {
            TableFault::UnknownItem => self.has_unknown_item(),
            TableFault::WrongArgumentCount => self.has_wrong_argument_count(),
            TableFault::WrongArgumentKind => self.has_wrong_argument_kind(),
            TableFault::ParameterOutOfRange => self.has_parameter_out_of_range(),
            TableFault::InferInTable => self.has_infer(),
            TableFault::ImplParameterNotInHeader => self.rows.has_unfixed_parameter(),
            TableFault::ReservationWithItems => self.has_reservation_with_items(),
            TableFault::LangItemMissing => self.has_lang_item_missing(),
            TableFault::LangItemDoubled => self.rows.has_doubled_lang(),
            TableFault::ImplOfBuiltinTrait => self.has_impl_of_builtin_trait(),
            TableFault::AutoTrait => self.has_auto_trait(),
            TableFault::NeverConst => self.has_never_const(),
            TableFault::TraitAliasWithItems => self.has_alias_with_items(),
            TableFault::InherentConstWithoutValue => self.has_inherent_const_without_value(),
            TableFault::SourceMismatch => self.has_source_mismatch(),
            TableFault::OwnParametersMismatch => self.has_own_parameters_mismatch(),
            TableFault::BuiltinItemMismatch => self.has_builtin_item_mismatch(),
            TableFault::DoubledId => self.rows.has_doubled_id(),
            TableFault::OutOfMemory => false,
            TableFault::SpecializationMismatch => self.has_specialization_mismatch(),
            TableFault::SpecializationCycle => self.rows.has_specialization_cycle(),
        }
    }

    /// The fault of the smallest number that applies.
    pub fn first_fault(&self) -> Option<TableFault>
        ensures { result ≡ find (λ f. applies self.now f) all_faults }
    {
        FAULTS.iter().copied().find(|fault| self.applies(*fault))
    }
}
