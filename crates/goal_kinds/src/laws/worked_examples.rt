//! Worked examples of the definitions, each the contract of a function that does nothing. Each says what
//! holds or is refuted at a height, and that it is not so one lower (`_lower`). The tables are those of
//! `specs/ExampleTables.antt`.
ghost use Rattle.goal_lists.specs.Builtins.{u8_ty, unit_ty, usize_ty};
ghost use Rattle.goal_kinds.specs.ExampleSettings.{asked_args, assuming_maybe_const, assuming_own, assuming_own_trait, assuming_sized, assuming_z, bounded, called_with, disagreeing, f_alias, inherent_item, metadata_of_bool, own_args_of, pair_args, q_ty, specialized, three, unspecialized, with_const, with_default};
ghost use Rattle.goal_kinds.specs.ExampleTables.{analysis, plainly, revealing};
ghost use Rattle.goal_kinds.specs.ExampleTerms.{alias_of, bool_ty, box_of, error_ty, free, i32_ty, opaque, p_ty, param, projection, str_ty, trait, tuple, u16_ty, u32_ty, u64_ty, vec_of, w_ty, y_ty, z_ty};
ghost use Rattle.goal_lists.specs.Levels.{level};
ghost use Rattle.goal_terms.specs.Tree.{Tree};
ghost use Rattle.goal_terms.specs.declared.answers.TraitGoalProvenVia.{TraitGoalProvenVia};
ghost use Rattle.goal_terms.specs.declared.predicates.BoundConstness.{BoundConstness};
ghost use Rattle.std.specs.Prelude.{[], ℕ, ◌∷◌};
ghost use Rattle.goal_terms.specs.declared.answers.TraitGoalProvenVia.TheVariants as class;
ghost use Rattle.goal_terms.specs.declared.modes.TypingMode.TheVariants as mode;
ghost use Rattle.goal_terms.specs.declared.predicates.BoundConstness.TheVariants as constness;

/// A rigid projection holds by its bound, and its own projection stays as it is.
pub fn bounds_of_rigid_projections()
    ensures bound { (level assuming_own_trait 3).through class.AliasBound (trait 12) (bounded ∷ []) }
    ensures bound_lower { (c : TraitGoalProvenVia) → (level assuming_own_trait 2).through c (trait 12) (bounded ∷ []) → ⊥ }
    ensures type_of_bounded { (level assuming_own_trait 4).gives (projection 5) (bounded ∷ []) (alias_of (projection 5) (bounded ∷ [])) }
    ensures type_of_bounded_lower { (u : Tree) → (level assuming_own_trait 3).gives (projection 5) (bounded ∷ []) u → ⊥ }
{}

/// A pointer to a function called with its own arguments, and with others.
pub fn calls_of_pointers()
    ensures output { (level plainly 3).gives (projection 0) (called_with u8_ty) bool_ty }
    ensures output_lower { (u : Tree) → (level plainly 2).gives (projection 0) (called_with u8_ty) u → ⊥ }
    ensures wrong_argument { (level plainly 2).gives_refuted (projection 0) (called_with u16_ty) }
    ensures wrong_argument_lower { (level plainly 1).gives_refuted (projection 0) (called_with u16_ty) → ⊥ }
{}

/// A const impl holds where its const condition does, and is refuted where that is.
pub fn const_impls_and_conditions()
    ensures const_impl { (c : BoundConstness) → (level with_const 3).const_holds c (trait 12) (vec_of q_ty ∷ []) }
    ensures const_impl_lower { (c : BoundConstness) → (level with_const 2).const_holds c (trait 12) (vec_of q_ty ∷ []) → ⊥ }
    ensures refuted_condition { (c : BoundConstness) → (level with_const 3).const_refuted c (trait 12) (vec_of z_ty ∷ []) }
    ensures refuted_condition_lower { (c : BoundConstness) → (level with_const 2).const_refuted c (trait 12) (vec_of z_ty ∷ []) → ⊥ }
{}

/// A default leaves the alias as it is, or gives its value where the mode takes it.
pub fn defaults_by_mode()
    ensures default_kept { (level (with_default analysis) 2).gives (projection 5) (z_ty ∷ []) (alias_of (projection 5) (z_ty ∷ [])) }
    ensures default_kept_lower { (u : Tree) → (level (with_default analysis) 1).gives (projection 5) (z_ty ∷ []) u → ⊥ }
    ensures default_taken { (level (with_default mode.PostAnalysis) 2).gives (projection 5) (z_ty ∷ []) u8_ty }
    ensures default_taken_lower { (u : Tree) → (level (with_default mode.PostAnalysis) 1).gives (projection 5) (z_ty ∷ []) u → ⊥ }
{}

/// Clauses of the environment: they go before the impls, they say `const` or `[const]`, and two
/// that disagree decide nothing at any height.
pub fn environments_go_first()
    ensures environment_first { (level assuming_z 1).through class.ParamEnv (trait 12) (z_ty ∷ []) }
    ensures environment_first_lower { (level assuming_z 0).through class.ParamEnv (trait 12) (z_ty ∷ []) → ⊥ }
    ensures environment_hides_impl { (n : ℕ) → (level assuming_z n).through class.Misc (trait 12) (z_ty ∷ []) → ⊥ }
    ensures hidden_type { (level assuming_z 2).gives (projection 5) (z_ty ∷ []) (alias_of (projection 5) (z_ty ∷ [])) }
    ensures hidden_type_lower { (u : Tree) → (level assuming_z 1).gives (projection 5) (z_ty ∷ []) u → ⊥ }
    ensures maybe_const { (level assuming_maybe_const 2).const_holds constness.Maybe (trait 12) (param 0 ∷ []) }
    ensures maybe_const_lower { (level assuming_maybe_const 1).const_holds constness.Maybe (trait 12) (param 0 ∷ []) → ⊥ }
    ensures not_always_const { (level assuming_maybe_const 2).const_refuted constness.Const (trait 12) (param 0 ∷ []) }
    ensures not_always_const_lower { (level assuming_maybe_const 1).const_refuted constness.Const (trait 12) (param 0 ∷ []) → ⊥ }
    ensures disagreeing { (n : ℕ) (u : Tree) → (level disagreeing n).gives (projection 5) (param 0 ∷ []) u → ⊥ }
    ensures disagreeing_not_refuted { (n : ℕ) → (level disagreeing n).gives_refuted (projection 5) (param 0 ∷ []) → ⊥ }
{}

/// The goal that an alias and a term are equal, and that they are not.
pub fn equations()
    ensures equation { (level plainly 4).equation_holds metadata_of_bool unit_ty }
    ensures equation_lower { (level plainly 3).equation_holds metadata_of_bool unit_ty → ⊥ }
    ensures wrong_equation { (level plainly 4).equation_refuted metadata_of_bool u8_ty }
    ensures wrong_equation_lower { (level plainly 3).equation_refuted metadata_of_bool u8_ty → ⊥ }
{}

/// A free alias is its value, and none where a where clause is refuted; an opaque type is itself,
/// or its hidden type where the mode shows it.
pub fn free_and_opaque_aliases()
    ensures free_alias { (level plainly 1).gives (free 0) (u32_ty ∷ []) (vec_of u32_ty) }
    ensures free_alias_lower { (u : Tree) → (level plainly 0).gives (free 0) (u32_ty ∷ []) u → ⊥ }
    ensures refuted_clause { (level plainly 2).gives_refuted (free 1) (u32_ty ∷ []) }
    ensures refuted_clause_lower { (level plainly 1).gives_refuted (free 1) (u32_ty ∷ []) → ⊥ }
    ensures opaque_kept { (level plainly 1).gives (opaque 0) [] (alias_of (opaque 0) []) }
    ensures opaque_kept_lower { (u : Tree) → (level plainly 0).gives (opaque 0) [] u → ⊥ }
    ensures opaque_revealed { (level revealing 1).gives (opaque 0) [] u8_ty }
    ensures opaque_revealed_lower { (u : Tree) → (level revealing 0).gives (opaque 0) [] u → ⊥ }
{}

/// An alias in an argument of a header is opened: the header fits, or it clashes.
pub fn aliases_in_header_arguments()
    ensures alias_in_header { (level plainly 4).gives (projection 7) (pair_args u8_ty) (box_of f_alias) }
    ensures alias_in_header_lower { (u : Tree) → (level plainly 3).gives (projection 7) (pair_args u8_ty) u → ⊥ }
    ensures alias_clashes { (level plainly 4).gives_refuted (projection 7) (pair_args u16_ty) }
    ensures alias_clashes_lower { (level plainly 3).gives_refuted (projection 7) (pair_args u16_ty) → ⊥ }
{}

/// Impls: positive, negative, missing, without a value; and an error as self type.
pub fn impls_and_their_values()
    ensures plain_impl { (level plainly 1).through class.Misc (trait 12) (z_ty ∷ []) }
    ensures plain_impl_lower { (level plainly 0).through class.Misc (trait 12) (z_ty ∷ []) → ⊥ }
    ensures plain_impl_as_const { (level plainly 2).const_refuted constness.Const (trait 12) (z_ty ∷ []) }
    ensures plain_impl_as_const_lower { (level plainly 1).const_refuted constness.Const (trait 12) (z_ty ∷ []) → ⊥ }
    ensures type_of_impl { (level plainly 2).gives (projection 5) (z_ty ∷ []) u8_ty }
    ensures type_of_impl_lower { (u : Tree) → (level plainly 1).gives (projection 5) (z_ty ∷ []) u → ⊥ }
    ensures no_impl { (level plainly 2).gives_refuted (projection 5) (p_ty ∷ []) }
    ensures no_impl_lower { (level plainly 1).gives_refuted (projection 5) (p_ty ∷ []) → ⊥ }
    ensures negative_impl { (level plainly 2).gives_refuted (projection 5) (y_ty ∷ []) }
    ensures negative_impl_lower { (level plainly 1).gives_refuted (projection 5) (y_ty ∷ []) → ⊥ }
    ensures negative_impl_as_const { (level plainly 2).const_refuted constness.Const (trait 12) (y_ty ∷ []) }
    ensures negative_impl_as_const_lower { (level plainly 1).const_refuted constness.Const (trait 12) (y_ty ∷ []) → ⊥ }
    ensures missing_value { (level plainly 2).gives (projection 5) (w_ty ∷ []) (error_ty 6) }
    ensures missing_value_lower { (u : Tree) → (level plainly 1).gives (projection 5) (w_ty ∷ []) u → ⊥ }
    ensures missing_in_unsized { (level plainly 2).gives (projection 5) (str_ty ∷ []) (alias_of (projection 5) (str_ty ∷ [])) }
    ensures missing_in_unsized_lower { (u : Tree) → (level plainly 1).gives (projection 5) (str_ty ∷ []) u → ⊥ }
    ensures error_holds { (level plainly 1).through class.Misc (trait 12) (error_ty 6 ∷ []) }
    ensures error_holds_lower { (level plainly 0).through class.Misc (trait 12) (error_ty 6 ∷ []) → ⊥ }
    ensures error_as_const { (level plainly 2).const_holds constness.Const (trait 12) (error_ty 6 ∷ []) }
    ensures error_as_const_lower { (level plainly 1).const_holds constness.Const (trait 12) (error_ty 6 ∷ []) → ⊥ }
    ensures type_of_error { (level plainly 2).gives_refuted (projection 5) (error_ty 6 ∷ []) }
    ensures type_of_error_lower { (level plainly 1).gives_refuted (projection 5) (error_ty 6 ∷ []) → ⊥ }
{}

/// An item of an inherent impl, for a type that fits and for one that does not.
pub fn inherent_items()
    ensures inherent { (level plainly 1).gives inherent_item (vec_of u32_ty ∷ []) (tuple (u32_ty ∷ u32_ty ∷ [])) }
    ensures inherent_lower { (u : Tree) → (level plainly 0).gives inherent_item (vec_of u32_ty ∷ []) u → ⊥ }
    ensures inherent_clashes { (level plainly 1).gives_refuted inherent_item (box_of u32_ty ∷ []) }
    ensures inherent_clashes_lower { (level plainly 0).gives_refuted inherent_item (box_of u32_ty ∷ []) → ⊥ }
{}

/// The metadata of types: `()` of `bool`, that of its last element for a tuple, `()` of a
/// parameter that is `Sized`, and of another the alias itself.
pub fn metadata_is_a_type()
    ensures metadata_of_bool { (level plainly 2).gives (projection 1) (bool_ty ∷ []) unit_ty }
    ensures metadata_of_bool_lower { (u : Tree) → (level plainly 1).gives (projection 1) (bool_ty ∷ []) u → ⊥ }
    ensures metadata_of_tuple { (level plainly 3).gives (projection 1) (tuple (u8_ty ∷ str_ty ∷ []) ∷ []) usize_ty }
    ensures metadata_of_tuple_lower { (u : Tree) → (level plainly 2).gives (projection 1) (tuple (u8_ty ∷ str_ty ∷ []) ∷ []) u → ⊥ }
    ensures metadata_of_sized_param { (level assuming_sized 2).gives (projection 1) (param 0 ∷ []) unit_ty }
    ensures metadata_of_sized_param_lower { (u : Tree) → (level assuming_sized 1).gives (projection 1) (param 0 ∷ []) u → ⊥ }
    ensures metadata_of_param { (level plainly 2).gives (projection 1) (param 0 ∷ []) (alias_of (projection 1) (param 0 ∷ [])) }
    ensures metadata_of_param_lower { (u : Tree) → (level plainly 1).gives (projection 1) (param 0 ∷ []) u → ⊥ }
{}

/// An own argument without a head form bars the term that the environment gives.
pub fn own_arguments_need_head_forms()
    ensures refuted_own_argument { (level assuming_own 3).gives_refuted (projection 6) (own_args_of (param 0)) }
    ensures refuted_own_argument_lower { (level assuming_own 2).gives_refuted (projection 6) (own_args_of (param 0)) → ⊥ }
{}

/// Two impls that give one term, one with a value that stands in the other.
pub fn two_impls_agree()
    ensures two_impls { (level plainly 2).gives (projection 6) asked_args three }
    ensures two_impls_lower { (u : Tree) → (level plainly 1).gives (projection 6) asked_args u → ⊥ }
    ensures no_fit { (level plainly 2).gives_refuted (projection 6) (bool_ty ∷ i32_ty ∷ u64_ty ∷ []) }
    ensures no_fit_lower { (level plainly 1).gives_refuted (projection 6) (bool_ty ∷ i32_ty ∷ u64_ty ∷ []) → ⊥ }
{}

/// Of two impls that fit, the general one is passed over where the more special one holds, and decides where
/// that is refuted; while that is neither, nothing decides. Where no list says which is more special,
/// and they give other types, there is no term at any height.
pub fn more_special_impls()
    ensures passed_over { (level specialized 2).gives (projection 5) (vec_of u8_ty ∷ []) u16_ty }
    ensures passed_over_lower { (u : Tree) → (level specialized 1).gives (projection 5) (vec_of u8_ty ∷ []) u → ⊥ }
    ensures decides { (level specialized 2).gives (projection 5) (vec_of u32_ty ∷ []) u32_ty }
    ensures decides_lower { (u : Tree) → (level specialized 1).gives (projection 5) (vec_of u32_ty ∷ []) u → ⊥ }
    ensures by_alias { (level specialized 4).gives (projection 5) (vec_of f_alias ∷ []) u16_ty }
    ensures by_alias_lower { (u : Tree) → (level specialized 3).gives (projection 5) (vec_of f_alias ∷ []) u → ⊥ }
    ensures unspecialized { (n : ℕ) (u : Tree) → (level unspecialized n).gives (projection 5) (vec_of u8_ty ∷ []) u → ⊥ }
{}
