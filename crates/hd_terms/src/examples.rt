//! What the definitions say of the worked examples of `docs/DEFINITIONS.md`. Each is the contract of a function with an
//! empty body.
ghost use Rattle.std.specs.Prelude.{◌≡◌, ℕ, ◌≤◌, true, false, length, [], ◌∷◌, ◌++◌, Some, None, take, slice_set, codes};
ghost use Rattle.hd_terms.specs.declared.Strength.TheVariants as strengths;
ghost use Rattle.hd_terms.specs.declared.Slot.TheVariants as slots;
ghost use Rattle.hd_terms.specs.declared.errors.Cause.TheVariants as causes;
ghost use Rattle.hd_terms.specs.Objects.{IsDumpOf};
ghost use Rattle.hd_terms.specs.ReadFaults.{IsReadFault, fault};
ghost use Rattle.hd_terms.specs.Strengths.{HasStrength};
ghost use Rattle.hd_terms.specs.Chains.{IsChain};
ghost use Rattle.hd_terms.specs.Edges.{edges};
ghost use Rattle.hd_terms.specs.EditedDump.{edge_stands, root_entries, root_stands, standing};
ghost use Rattle.hd_terms.specs.declared.SlotMode.TheVariants as modes;
ghost use Rattle.hd_terms.specs.declared.EdgeKind.TheVariants as kinds;
ghost use Rattle.hd_terms.specs.declared.RefKind.TheVariants as references;
ghost use Rattle.hd_terms.specs.declared.RootKind.TheVariants as roots;
ghost use Rattle.hd_terms.specs.declared.RootMode.TheVariants as root_modes;
ghost use Rattle.hd_terms.specs.declared.Mode.TheVariants as phantom_modes;
ghost use Rattle.hd_terms.specs.declared.errors.LogFault.TheVariants as faults;
ghost use Rattle.hd_terms.specs.declared.errors.Refusal.TheVariants as refusals;
ghost use Rattle.hd_terms.specs.Dump.{object_at, name_in, named_field, static_name};
ghost use Rattle.hd_terms.specs.Counts.{counts_of};
ghost use Rattle.hd_terms.specs.SlotRows.{slot_rows};
ghost use Rattle.hd_terms.specs.RootRows.{root_rows};
ghost use Rattle.hd_terms.specs.IntoRows.{into_rows};
ghost use Rattle.hd_terms.specs.Fell.{FellCount};
ghost use Rattle.hd_terms.specs.Listed.{AreFallen};
ghost use Rattle.hd_terms.specs.Totals.{IsGroupTotal, IsTotal};
ghost use Rattle.hd_terms.specs.declared.Group.TheVariants as groups;
ghost use Rattle.hd_terms.specs.Appending.{append_refusal};
ghost use Rattle.hd_terms.specs.Log.{IsLawful, live_edits, last_live, log_fault};
ghost use Rattle.hd_terms.specs.Refusals.{edit_refusal};
ghost use Rattle.hd_terms.specs.declared.Edit.TheVariants as edits;
ghost use Rattle.hd_terms.specs.Examples as examples;

/// What files are read as, and their faults.
pub fn file_examples()
    ensures empty_dump { IsDumpOf phantom_modes.Direct examples.empty_dump_file examples.empty_dump }
    ensures jdk_8 { IsDumpOf phantom_modes.Direct examples.jdk_8_file examples.empty_dump }
    ensures closure { IsDumpOf phantom_modes.Closure examples.empty_dump_file examples.empty_closure }
    ensures two_arrays { IsDumpOf phantom_modes.Direct examples.two_arrays_file examples.two_arrays }
    ensures null_object { IsReadFault examples.null_object_file (fault causes.NullObject 40) }
    ensures unknown_sub_record { IsReadFault examples.unknown_sub_record_file (fault causes.UnknownSub 40) }
    ensures cut_record { IsReadFault examples.cut_record_file (fault causes.Truncated 31) }
    ensures short_sub_record { IsReadFault examples.short_sub_record_file (fault causes.ShortSub 40) }
    ensures bad_identifier_size { IsReadFault (examples.head_of 3) (fault causes.BadIdSize 19) }
    ensures other_text { IsReadFault (slice_set (examples.head_of 4) 17 0x33) (fault causes.BadMagic 0) }
    ensures cut_body { IsReadFault examples.cut_body_file (fault causes.Truncated 31) }
    ensures skipped_record { IsDumpOf phantom_modes.Direct examples.skipped_record_file examples.two_arrays }
    ensures repeated_id { IsDumpOf phantom_modes.Direct examples.repeated_id_file examples.repeated_id }
    ensures prefixes_of_the_header { (n : ℕ) → n ≤ 30 → IsReadFault (take n examples.two_arrays_file) (fault causes.Truncated 0) }
    ensures prefixes_of_the_record { (n : ℕ) → 32 ≤ n → n ≤ 90 → IsReadFault (take n examples.two_arrays_file) (fault causes.Truncated 31) }
    ensures repeated_strings_and_loads { IsDumpOf phantom_modes.Direct examples.repeated_strings_and_loads_file examples.repeated_strings_and_loads }
    ensures first_names { IsDumpOf phantom_modes.Direct examples.first_names_file examples.first_names }
    ensures first_name { name_in examples.first_names 0x11 ≡ Some (0x41 ∷ []) }
    ensures no_name { name_in examples.first_names 0x12 ≡ None }
    ensures short_record { IsReadFault examples.short_record_file (fault causes.ShortRecord 31) }
    ensures short_and_cut { IsReadFault examples.short_and_cut_file (fault causes.ShortRecord 31) }
    ensures counts { counts_of examples.two_arrays ≡ record { objects = 2; roots = 1; edges = 1; unresolved = 1; repeated_objects = 0; repeated_strings = 0; repeated_loads = 0; opaque = 0 } }
    ensures two_mistakes { IsReadFault examples.two_mistakes_file (fault causes.Truncated 41) }
    ensures unknown_type { IsReadFault examples.unknown_type_file (fault causes.UnknownType 40) }
    ensures root_kinds { IsDumpOf phantom_modes.Direct examples.root_kinds_file examples.root_kinds }
    ensures primitive_array { IsDumpOf phantom_modes.Direct examples.primitive_array_file examples.primitive_array }
{}

/// What class dumps are read as, their faults, and what a class leads to.
pub fn class_examples()
    ensures class_object_and_primitive_array { IsDumpOf phantom_modes.Direct examples.class_object_and_primitive_array_file examples.class_object_and_primitive_array }
    ensures counts { counts_of examples.class_object_and_primitive_array ≡ record { objects = 5; roots = 1; edges = 3; unresolved = 0; repeated_objects = 0; repeated_strings = 0; repeated_loads = 0; opaque = 0 } }
    ensures class_edges { edges examples.class_object_and_primitive_array ≡ examples.strong_edge 0 (slots.Static 1) 2
        ∷ examples.strong_edge 0 (slots.Const 0) 1 ∷ examples.strong_edge 0 slots.Loader 3 ∷ [] }
    ensures named_statics { IsDumpOf phantom_modes.Direct examples.named_statics_file examples.named_statics }
    ensures static_name { static_name examples.named_statics 0x11 1 ≡ Some (codes "cache") }
    ensures no_such_static { static_name examples.named_statics 0x11 2 ≡ None }
    ensures static_without_name { static_name examples.class_object_and_primitive_array 0x11 1 ≡ None }
    ensures short_class { IsReadFault examples.short_class_file (fault causes.ShortSub 45) }
    ensures unknown_constant { IsReadFault examples.unknown_constant_file (fault causes.UnknownType 40) }
    ensures unknown_and_short { IsReadFault examples.unknown_and_short_file (fault causes.UnknownType 40) }
    ensures unknown_static { IsReadFault examples.unknown_static_file (fault causes.UnknownType 40) }
    ensures unknown_field { IsReadFault examples.unknown_field_file (fault causes.UnknownType 40) }
{}

/// What instances are read as, the faults of classes and instances, and which field is a referent.
pub fn instance_examples()
    ensures cycle { IsReadFault examples.cycle_file (fault causes.ClassCycle 40) }
    ensures cycle_above { IsReadFault examples.cycle_above_file (fault causes.ClassCycle 40) }
    ensures absent_super { IsDumpOf phantom_modes.Direct examples.absent_super_file examples.absent_super }
    ensures null_class_before_a_cycle { IsReadFault examples.null_class_before_a_cycle_file (fault causes.ClassCycle 83) }
    ensures null_class { IsReadFault examples.null_class_file (fault causes.NullObject 40) }
    ensures size_mismatch { IsReadFault examples.size_mismatch_file (fault causes.InstanceSize 40) }
    ensures size_mismatch_before_unknown { IsReadFault examples.size_mismatch_before_unknown_file (fault causes.UnknownSub 101) }
    ensures repeated_size_mismatch { IsDumpOf phantom_modes.Direct examples.repeated_size_mismatch_file examples.repeated_size_mismatch }
    ensures wide_instance { IsDumpOf phantom_modes.Direct examples.wide_instance_file examples.wide_instance }
    ensures wide_size_mismatch { IsReadFault examples.wide_size_mismatch_file (fault causes.InstanceSize 40) }
    ensures opaque_and_repeated { IsDumpOf phantom_modes.Direct examples.opaque_and_repeated_file examples.opaque_and_repeated }
    ensures counts { counts_of examples.opaque_and_repeated ≡ record { objects = 4; roots = 1; edges = 3; unresolved = 2; repeated_objects = 1; repeated_strings = 0; repeated_loads = 0; opaque = 1 } }
    ensures weak_reference { IsDumpOf phantom_modes.Direct examples.weak_reference_file examples.weak_reference }
    ensures dotted_names { IsDumpOf phantom_modes.Direct examples.dotted_names_file examples.dotted_names }
    ensures other_name_first { IsDumpOf phantom_modes.Direct examples.other_name_first_file examples.other_name_first }
    ensures two_referents { IsDumpOf phantom_modes.Direct examples.two_referents_file examples.two_referents }
    ensures own_field { named_field examples.two_referents 0x14 0 ≡ Some (examples.field_named 0x14 (Some (codes "referent"))) }
    ensures field_of_a_super_class { named_field examples.two_referents 0x14 1 ≡ Some examples.referent_field }
    ensures field_past_the_layout { named_field examples.two_referents 0x14 2 ≡ None }
    ensures field_without_name { named_field examples.wide_instance 0x12 2 ≡ Some (examples.field_named 0x11 None) }
{}

/// Edges, and the strengths of objects by their numbers, under logs.
pub fn heap_examples()
    ensures one_edge { edges examples.two_arrays ≡ examples.strong_edge 0 (slots.Element 0) 1 ∷ [] }
    ensures two_arrays { HasStrength (standing examples.two_arrays []) 1 strengths.Strong }
    ensures two_arrays_cut { HasStrength (standing examples.two_arrays (examples.does 0 (examples.cut 0) ∷ [])) 1 strengths.Unreachable }
    ensures one_cut_is_left { HasStrength (standing examples.two_arrays (take 3 examples.two_cuts_of_one_slot)) 1 strengths.Unreachable }
    ensures no_cut_is_left { HasStrength (standing examples.two_arrays examples.two_cuts_of_one_slot) 1 strengths.Strong }
    ensures weak_referent { HasStrength (standing examples.weak_and_final_referents []) 9 strengths.Weak }
    ensures final_referent { HasStrength (standing examples.weak_and_final_referents (take 1 examples.clears)) 9 strengths.Final }
    ensures no_referent { HasStrength (standing examples.weak_and_final_referents examples.clears) 9 strengths.Unreachable }
    ensures soft { HasStrength (standing examples.soft_then_weak []) 8 strengths.Soft }
    ensures soft_then_weak { HasStrength (standing examples.soft_then_weak []) 9 strengths.Weak }
    ensures better_of_two_ways { HasStrength (standing examples.soft_then_weak []) 12 strengths.Soft }
    ensures other_way { HasStrength (standing examples.soft_then_weak (examples.does 0 (examples.cut 1) ∷ [])) 12 strengths.Weak }
    ensures cycle { (o : ℕ) → o ≤ 4 → HasStrength (standing examples.cycle_behind_one_edge []) o strengths.Strong }
    ensures cycle_behind_one_edge { (o : ℕ) → 1 ≤ o → HasStrength (standing examples.cycle_behind_one_edge (examples.does 0 (examples.cut 0) ∷ [])) o strengths.Unreachable }
    ensures chain { IsChain (standing examples.cycle_behind_one_edge []) (examples.root_on 0 0)
        (examples.strong_edge 0 (slots.Element 0) 1 ∷ examples.strong_edge 1 (slots.Element 0) 2 ∷ []) 2 strengths.Strong }
    ensures phantom_referent { HasStrength (standing examples.phantom_referent []) 8 strengths.Phantom }
    ensures closure_referent { HasStrength (standing examples.phantom_closure []) 8 strengths.Phantom }
    ensures closure { HasStrength (standing examples.phantom_closure []) 9 strengths.Phantom }
    ensures closure_of_its_own_referent { HasStrength (standing examples.phantom_closure []) 10 strengths.Unreachable }
    ensures behind_a_phantom { HasStrength (standing examples.phantom_referent []) 9 strengths.Unreachable }
    ensures its_own_referent { HasStrength (standing examples.phantom_referent []) 10 strengths.Unreachable }
{}

/// Which logs are lawful, which edits are live, and which roots stand.
pub fn log_examples()
    ensures two_cuts_of_one_slot { IsLawful examples.two_cuts_of_one_slot }
    ensures one_live_cut { live_edits (take 3 examples.two_cuts_of_one_slot) ≡ examples.cut 0 ∷ [] }
    ensures no_live_cut { live_edits examples.two_cuts_of_one_slot ≡ [] }
    ensures cut_and_undo { IsLawful examples.cut_and_undo }
    ensures live { live_edits examples.cut_and_undo ≡ [] }
    ensures undo_of_an_undo { IsLawful examples.undo_of_an_undo → ⊥ }
    ensures undo_of_another { IsLawful (examples.does 1 (examples.cut 0) ∷ examples.undoes 0 0 ∷ []) → ⊥ }
    ensures second_undo { IsLawful (examples.cut_and_undo ++ examples.undoes 0 0 ∷ []) → ⊥ }
    ensures added_root { (standing examples.added_and_dropped_roots (take 1 examples.add_and_drop)).roots ≡ examples.root_on 0 0 ∷ examples.root_on 1 1 ∷ examples.root_on 2 2 ∷ [] }
    ensures dropped_root { (standing examples.added_and_dropped_roots (take 2 examples.add_and_drop)).roots ≡ examples.root_on 0 0 ∷ examples.root_on 1 1 ∷ [] }
    ensures root_entries { root_entries examples.added_and_dropped_roots (take 3 examples.add_and_drop) ≡ examples.dump_root_on 0 1 ∷ examples.dump_root_on 1 2 ∷ examples.added_root_on 2 7 ∷ [] }
    ensures shown_roots { root_rows examples.added_and_dropped_roots (take 1 examples.add_and_drop) ≡ examples.shown_root 0 (Some roots.Unknown) 1 root_modes.Stands
        ∷ examples.shown_root 1 (Some roots.Unknown) 2 root_modes.Stands ∷ examples.shown_root 2 None 7 root_modes.Stands ∷ [] }
    ensures shown_dropped_root { root_rows examples.added_and_dropped_roots (take 2 examples.add_and_drop) ≡ examples.shown_root 0 (Some roots.Unknown) 1 root_modes.Stands
        ∷ examples.shown_root 1 (Some roots.Unknown) 2 root_modes.Stands ∷ examples.shown_root 2 None 7 root_modes.Dropped ∷ [] }
    ensures undone_root_not_shown { root_rows examples.added_and_dropped_roots (take 3 examples.add_and_drop) ≡ examples.shown_root 0 (Some roots.Unknown) 1 root_modes.Stands
        ∷ examples.shown_root 1 (Some roots.Unknown) 2 root_modes.Stands ∷ [] }
    ensures shown_absent_root { take 1 (root_rows examples.root_kinds (examples.does 0 (edits.Drop 0) ∷ [])) ≡ examples.shown_root 0 (Some roots.Unknown) 1 root_modes.Absent ∷ [] }
    ensures undone_root { root_stands 2 (take 3 examples.add_and_drop) 2 ≡ false }
    ensures no_root { root_stands 2 examples.add_and_drop 3 ≡ false }
    ensures references_to_an_object { into_rows examples.parallel_edges (examples.does 0 (examples.cut 1) ∷ []) 1 ≡ examples.shown_reference 1 (slots.Element 0) modes.Stands ∷ examples.shown_reference 1 (slots.Element 1) modes.Cut ∷ [] }
    ensures no_reference_to_an_object { into_rows examples.parallel_edges [] 0 ≡ [] }
    ensures root_on_no_object { root_stands (length examples.root_kinds.roots) [] 0 ≡ true }
    ensures dropped_root_on_no_object { root_stands (length examples.root_kinds.roots) (examples.does 0 (edits.Drop 0) ∷ []) 0 ≡ false }
    ensures one_drop_is_left { root_stands 1 (examples.does 0 (edits.Drop 0) ∷ examples.does 1 (edits.Drop 0) ∷ examples.undoes 0 0 ∷ []) 0 ≡ false }
    ensures holds_nothing { (standing examples.root_kinds []).roots ≡ [] }
    ensures dropped_before_it_was_added { (standing examples.added_and_dropped_roots examples.drop_and_add).roots ≡ examples.root_on 0 0 ∷ examples.root_on 1 1 ∷ [] }
{}

/// What logs refuse, what edits and undos ask for, what falls by an edit, and how slots are shown then.
pub fn edit_examples()
    ensures taken { log_fault (take 1 examples.cut_and_undo) (examples.undoes 0 0) ≡ None }
    ensures no_such_event { log_fault [] (examples.undoes 0 0) ≡ Some faults.NoSuchEvent }
    ensures undo_of_an_undo { log_fault (take 2 examples.undo_of_an_undo) (examples.undoes 0 1) ≡ Some faults.NoSuchEvent }
    ensures not_yours { log_fault (take 1 examples.cut_and_undo) (examples.undoes 1 0) ≡ Some faults.NotYours }
    ensures not_live { log_fault examples.cut_and_undo (examples.undoes 0 0) ≡ Some faults.NotLive }
    ensures full_log { log_fault examples.full_log (examples.does 0 (examples.cut 0)) ≡ Some faults.LogFull }
    ensures no_such_event_of_a_full_log { log_fault examples.full_log (examples.undoes 0 5000) ≡ Some faults.NoSuchEvent }
    ensures last_live { last_live (take 2 examples.two_cuts_of_one_slot) 0 ≡ Some 0 }
    ensures none_live { last_live examples.cut_and_undo 0 ≡ None }
    ensures cut { edit_refusal examples.two_arrays (edits.Cut 1 (slots.Element 0)) ≡ None }
    ensures null_slot { edit_refusal examples.two_arrays (edits.Cut 1 (slots.Element 1)) ≡ Some refusals.EmptySlot }
    ensures absent_slot { edit_refusal examples.two_arrays (edits.Cut 1 (slots.Element 2)) ≡ Some refusals.EmptySlot }
    ensures no_such_slot { edit_refusal examples.two_arrays (edits.Cut 1 (slots.Element 3)) ≡ Some refusals.NoSuchSlot }
    ensures no_such_word { edit_refusal examples.two_arrays (edits.Cut 1 slots.Super) ≡ Some refusals.NoSuchSlot }
    ensures not_cuttable { edit_refusal examples.two_arrays (edits.Cut 1 slots.OfClass) ≡ Some refusals.NotCuttable }
    ensures no_such_object { edit_refusal examples.two_arrays (edits.Cut 9 (slots.Element 0)) ≡ Some refusals.NoSuchObject }
    ensures clear { edit_refusal examples.weak_and_final_referents (edits.Clear 0x21) ≡ None }
    ensures clear_of_null { edit_refusal examples.empty_referents (edits.Clear 0x21) ≡ Some refusals.EmptySlot }
    ensures clear_of_absent { edit_refusal examples.empty_referents (edits.Clear 0x22) ≡ Some refusals.EmptySlot }
    ensures null_referent { slot_rows examples.empty_referents [] (object_at examples.empty_referents 0) ≡ examples.weakly_shown (slots.Field 0) 0 modes.Null ∷ examples.shown slots.OfClass 0x13 modes.Absent ∷ [] }
    ensures absent_referent { slot_rows examples.empty_referents [] (object_at examples.empty_referents 1) ≡ examples.weakly_shown (slots.Field 0) 9 modes.Absent ∷ examples.shown slots.OfClass 0x13 modes.Absent ∷ [] }
    ensures clear_of_no_named_class { edit_refusal examples.other_name_first (edits.Clear 0x21) ≡ None }
    ensures cleared_referent { slot_rows examples.weak_reference (examples.does 0 (edits.Clear 0x21) ∷ []) (object_at examples.weak_reference 2) ≡ examples.weakly_shown (slots.Field 0) 5 modes.Cut ∷ examples.shown slots.OfClass 0x13 modes.Stands ∷ [] }
    ensures cut_and_clear { slot_rows examples.weak_reference examples.cut_and_clear (object_at examples.weak_reference 2) ≡ examples.weakly_shown (slots.Field 0) 5 modes.Cut ∷ examples.shown slots.OfClass 0x13 modes.Stands ∷ [] }
    ensures drop_of_a_root_on_no_object { append_refusal 9 [] (examples.does 0 (edits.Drop 0)) ≡ None }
    ensures second_drop { append_refusal 1 (examples.does 0 (edits.Drop 0) ∷ []) (examples.does 0 (edits.Drop 0)) ≡ None }
    ensures second_drop_of_an_added_root { append_refusal 2 (take 2 examples.add_and_drop) (examples.does 0 (edits.Drop 2)) ≡ None }
    ensures standing_edge { edge_stands examples.two_arrays [] 0 0 ≡ true }
    ensures null_is_no_edge { edge_stands examples.two_arrays [] 0 1 ≡ false }
    ensures absent_is_no_edge { edge_stands examples.two_arrays [] 0 2 ≡ false }
    ensures no_slot_is_no_edge { edge_stands examples.two_arrays [] 0 9 ≡ false }
    ensures cut_edge { edge_stands examples.two_arrays (take 1 examples.cut_and_undo) 0 0 ≡ false }
    ensures closure_fell { FellCount examples.phantom_closure [] (examples.does 0 (edits.Clear 0x21) ∷ []) 2 }
    ensures direct_fell { FellCount examples.phantom_referent [] (examples.does 0 (edits.Clear 0x21) ∷ []) 1 }
    ensures clear_all { FellCount examples.soft_then_weak [] (take 1 examples.clears_of_soft) 5 }
    ensures clear_behind_clear_all { FellCount examples.soft_then_weak (take 1 examples.clears_of_soft) (take 2 examples.clears_of_soft) 0 }
    ensures clear_is_left { FellCount examples.soft_then_weak (take 3 examples.clears_of_soft) (take 2 examples.clears_of_soft) 2 }
    ensures no_clear_is_left { FellCount examples.soft_then_weak examples.clears_of_soft (take 3 examples.clears_of_soft) 3 }
    ensures clear_all_phantom { FellCount examples.phantom_referent [] (examples.does 0 (edits.ClearAll references.Phantom) ∷ []) 1 }
    ensures clear_all_of_none { FellCount examples.two_arrays [] (examples.does 0 (edits.ClearAll references.Weak) ∷ []) 0 }
    ensures clear_all_is_taken { edit_refusal examples.two_arrays (edits.ClearAll references.Weak) ≡ None }
    ensures slots_after_clear_all { slot_rows examples.soft_then_weak (take 1 examples.clears_of_soft) (object_at examples.soft_then_weak 7) ≡ (record { slot = slots.Field 0; kind = kinds.Soft; id = 0x22; mode = modes.Cut }) ∷ examples.shown slots.OfClass 0x12 modes.Stands ∷ [] }
    ensures cut_all { FellCount examples.soft_then_weak [] (take 1 examples.cuts_of_field) 5 }
    ensures cut_behind_cut_all { FellCount examples.soft_then_weak (take 1 examples.cuts_of_field) (take 2 examples.cuts_of_field) 0 }
    ensures cut_is_left { FellCount examples.soft_then_weak (take 3 examples.cuts_of_field) (take 2 examples.cuts_of_field) 2 }
    ensures no_cut_is_left { FellCount examples.soft_then_weak examples.cuts_of_field (take 3 examples.cuts_of_field) 3 }
    ensures slots_after_cut_all { slot_rows examples.soft_then_weak (take 1 examples.cuts_of_field) (object_at examples.soft_then_weak 7) ≡ (record { slot = slots.Field 0; kind = kinds.Soft; id = 0x22; mode = modes.Cut }) ∷ examples.shown slots.OfClass 0x12 modes.Stands ∷ [] }
    ensures cut_all_spares_other_classes { slot_rows examples.soft_then_weak (take 1 examples.cuts_of_field) (object_at examples.soft_then_weak 8) ≡ examples.weakly_shown (slots.Field 0) 3 modes.Stands ∷ examples.shown slots.OfClass 0x13 modes.Stands ∷ [] }
    ensures cut_all_is_taken { edit_refusal examples.soft_then_weak (edits.CutAll 0x12 0) ≡ None }
    ensures cut_all_of_null { edit_refusal examples.empty_referents (edits.CutAll 0x13 0) ≡ None }
    ensures no_such_class { edit_refusal examples.soft_then_weak (edits.CutAll 0x99 0) ≡ Some refusals.NoSuchClass }
    ensures no_such_class_above { edit_refusal examples.soft_then_weak (edits.CutAll 0x11 0) ≡ Some refusals.NoSuchClass }
    ensures no_such_field { edit_refusal examples.soft_then_weak (edits.CutAll 0x12 1) ≡ Some refusals.NoSuchSlot }
    ensures primitive_field { edit_refusal examples.wide_instance (edits.CutAll 0x12 1) ≡ Some refusals.NoSuchSlot }
    ensures field_of_an_opaque_instance { edit_refusal examples.opaque_and_repeated (edits.CutAll 0x98 0) ≡ Some refusals.NoSuchSlot }
    ensures field_of_an_array { edit_refusal examples.opaque_and_repeated (edits.CutAll 0x99 0) ≡ Some refusals.NoSuchSlot }
    ensures not_reference { edit_refusal examples.weak_and_final_referents (edits.Clear 1) ≡ Some refusals.NotReference }
    ensures clear_of_no_object { edit_refusal examples.two_arrays (edits.Clear 9) ≡ Some refusals.NoSuchObject }
    ensures add { edit_refusal examples.phantom_referent (edits.Add 0x22) ≡ None }
    ensures add_to_no_object { edit_refusal examples.two_arrays (edits.Add 9) ≡ Some refusals.NoSuchObject }
    ensures drop { append_refusal 1 [] (examples.does 0 (edits.Drop 0)) ≡ None }
    ensures no_such_root { append_refusal 1 [] (examples.does 0 (edits.Drop 18446744073709551615)) ≡ Some refusals.NoSuchRoot }
    ensures drop_of_an_added_root { append_refusal 2 (take 1 examples.add_and_drop) (examples.does 0 (edits.Drop 2)) ≡ None }
    ensures drop_of_undone_add { append_refusal 2 (take 3 examples.add_and_drop) (examples.does 0 (edits.Drop 2)) ≡ Some refusals.NoSuchRoot }
    ensures no_such_root_of_a_full_log { append_refusal 1 examples.full_log (examples.does 0 (edits.Drop 5000)) ≡ Some refusals.NoSuchRoot }
    ensures drop_on_a_full_log { append_refusal 1 examples.full_log (examples.does 0 (edits.Drop 0)) ≡ Some (refusals.Log faults.LogFull) }
    ensures undo_of_another { append_refusal 1 (take 1 examples.cut_and_undo) (examples.undoes 1 0) ≡ Some (refusals.Log faults.NotYours) }
    ensures fell { FellCount examples.two_arrays [] (take 1 examples.cut_and_undo) 1 }
    ensures fallen { AreFallen examples.two_arrays [] (take 1 examples.cut_and_undo) (2 ∷ []) }
    ensures none_back { FellCount examples.two_arrays (take 1 examples.cut_and_undo) [] 0 }
    ensures back { FellCount examples.two_arrays examples.cut_and_undo (take 1 examples.cut_and_undo) 1 }
    ensures cycle_fell { FellCount examples.cycle_behind_one_edge [] (take 1 examples.cut_and_undo) 4 }
    ensures slots_of_a_cut { slot_rows examples.two_arrays (take 1 examples.cut_and_undo) (object_at examples.two_arrays 0) ≡ examples.shown (slots.Element 0) 2 modes.Cut
        ∷ examples.shown (slots.Element 1) 0 modes.Null ∷ examples.shown (slots.Element 2) 9 modes.Absent ∷ examples.shown slots.OfClass 0 modes.Null ∷ [] }
{}

/// How many objects of a strength there are, and their recorded bytes; of all objects and of groups.
pub fn total_examples()
    ensures all { IsTotal examples.two_arrays [] strengths.Strong 2 12 }
    ensures group { IsGroupTotal examples.two_arrays [] (groups.Class 0) strengths.Strong 2 12 }
    ensures no_such_group { IsGroupTotal examples.two_arrays [] (groups.Prim 10) strengths.Strong 0 0 }
    ensures group_after_a_cut { IsGroupTotal examples.two_arrays (take 1 examples.cut_and_undo) (groups.Class 0) strengths.Strong 1 12 }
    ensures unreachable_after_a_cut { IsGroupTotal examples.two_arrays (take 1 examples.cut_and_undo) (groups.Class 0) strengths.Unreachable 1 0 }
    ensures classes { IsGroupTotal examples.opaque_and_repeated [] groups.Classes strengths.Strong 1 0 }
    ensures opaque { IsGroupTotal examples.opaque_and_repeated [] (groups.Class 0x98) strengths.Strong 1 4 }
    ensures array { IsGroupTotal examples.opaque_and_repeated [] (groups.Class 0x99) strengths.Strong 1 8 }
{}
