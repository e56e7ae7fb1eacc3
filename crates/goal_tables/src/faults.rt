//! The faults of tables, and those that may lie in a term.
ghost use Rattle.std.specs.Prelude.{◌≡◌};
ghost use Rattle.goal_tables.specs.RowFaults.{if_unknown, if_kind};

/// Why tables are refused. Of several faults that apply, the one of the smallest number is answered.
#[derive(Clone, Copy, Debug, PartialEq, Eq)]
pub enum TableFault {
    /// An id stands that no row has.
    UnknownItem = 1,
    /// An argument list has another length than its item's parameters.
    WrongArgumentCount = 2,
    /// An argument, a term, a value or an alias has another kind than its place; a free or inherent
    /// type has no value; a trait has no self type.
    WrongArgumentKind = 3,
    /// A parameter isn't among its row's, or has another kind there.
    ParameterOutOfRange = 4,
    /// An inference variable, a region variable or a placeholder stands in a row.
    InferInTable = 5,
    /// A type or const parameter of an impl, also of an inherent one, doesn't occur in its header
    /// outside aliases.
    ImplParameterNotInHeader = 6,
    /// A reservation impl of a trait with items.
    ReservationWithItems = 7,
    /// A lang item isn't named.
    LangItemMissing = 8,
    /// A lang item is named twice, or two name one row.
    LangItemDoubled = 9,
    /// An impl of a lang trait other than `Copy` and `Clone`, or of a trait alias.
    ImplOfBuiltinTrait = 10,
    /// A trait row says auto.
    AutoTrait = 11,
    /// A const impl, const condition, implied const bound, destruct condition or host effect clause
    /// of a trait that doesn't allow const, or a lang trait that must not allow it and does.
    NeverConst = 12,
    /// A trait alias has items.
    TraitAliasWithItems = 13,
    /// An inherent const has no value.
    InherentConstWithoutValue = 14,
    /// The items of traits and the sources of impls don't fit together.
    SourceMismatch = 15,
    /// A definition's own parameters have other kinds than its item's.
    OwnParametersMismatch = 16,
    /// A lang item names a row of another sort, or its parameters or items aren't those that built-in
    /// rules know.
    BuiltinItemMismatch = 17,
    /// Two rows of one list have one id.
    DoubledId = 18,
    /// A growth was refused.
    OutOfMemory = 19,
    /// An impl lists one that isn't positive, or of another trait; or one that isn't positive lists some.
    SpecializationMismatch = 20,
    /// An impl is more special than itself.
    SpecializationCycle = 21,
}

/// A fault that may lie in a term.
#[derive(Clone, Copy, PartialEq, Eq)]
pub enum TermFault {
    UnknownItem,
    WrongArgumentCount,
    WrongArgumentKind,
    ParameterOutOfRange,
    InferInTable,
    NeverConst,
}

impl TermFault {
    /// Whether this is the fault of an id without a row, and it applies.
    #[tactic(auto, unfolding(crate::specs::RowFaults::if_unknown))]
    pub fn if_unknown(self, applies: bool) -> bool
        ensures { result ≡ if_unknown self applies }
    {
        match self {
            TermFault::UnknownItem => applies,
            _ => false,
        }
    }

    /// Whether this is the fault of a wrong kind, and it applies.
    #[tactic(auto, unfolding(crate::specs::RowFaults::if_kind))]
    pub fn if_kind(self, applies: bool) -> bool
        ensures { result ≡ if_kind self applies }
    {
        match self {
            TermFault::WrongArgumentKind => applies,
            _ => false,
        }
    }
}
