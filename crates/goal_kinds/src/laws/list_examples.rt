//! Worked examples of lists of entries, the contract of a function that does nothing. The tables are
//! those of `specs/ExampleTables.antt`, and the lists stand in `specs/ExampleLists.antt`.
ghost use Rattle.std.specs.Prelude.{◌≡◌, [], ◌∷◌};
ghost use Rattle.goal_terms.specs.declared.predicates.BoundConstness.{BoundConstness};
ghost use Rattle.goal_lists.specs.AliasLists.{alias_list};
ghost use Rattle.goal_lists.specs.Candidates.{by_impl};
ghost use Rattle.goal_lists.specs.EffectLists.{effect_list};
ghost use Rattle.goal_kinds.specs.ExampleLists.{type_of_w, w_list, assoc_of_vec, assoc_list, vec_list, opaque_entries, w_rule, no_impl_rule, no_impl_list, no_value_rule, no_value_list};
ghost use Rattle.goal_kinds.specs.ExampleRows.{tr_for_w, trait_of_i32_for_vec};
ghost use Rattle.goal_kinds.specs.ExampleSettings.{asked_args, const_tr_for_vec, q_ty, with_const};
ghost use Rattle.goal_kinds.specs.ExampleTables.{example_tables, plainly};
ghost use Rattle.goal_kinds.specs.ExampleTerms.{alias_of, opaque, projection, trait, vec_of, w_ty};
ghost use Rattle.goal_lists.specs.ListModes.{erased_setting};
ghost use Rattle.goal_lists.specs.ProjectionLists.{projection_list};
ghost use Rattle.goal_kinds.specs.RuleLists.{entries_of};

/// The lists of an impl whose value is missing, of one whose definition stands in another impl, of a
/// const impl with a const condition, and of an opaque type in the erased mode.
pub fn lists_of_rows()
    ensures missing_value { projection_list plainly type_of_w (alias_of (projection 5) (w_ty ∷ [])) (by_impl tr_for_w) ≡ Some w_list }
    ensures other_impl { projection_list plainly assoc_of_vec (alias_of (projection 6) asked_args) (by_impl trait_of_i32_for_vec) ≡ Some assoc_list }
    ensures const_impl { (c : BoundConstness) → effect_list with_const c (trait 12) (vec_of q_ty ∷ []) (by_impl const_tr_for_vec) ≡ Some (vec_list c) }
    ensures recorded_opaque { alias_list (erased_setting plainly) (opaque 0) [] ≡ opaque_entries }
{}

/// The lists of rules: of an impl whose value is missing, which is the list above; of an impl without a
/// row, which ends there; and of a definition without a value, behind which the rest still counts.
pub fn lists_of_rules()
    ensures missing_value { entries_of example_tables w_rule ≡ w_list }
    ensures no_impl { entries_of example_tables no_impl_rule ≡ no_impl_list }
    ensures no_value { entries_of example_tables no_value_rule ≡ no_value_list }
{}
