//! What the definitions say of the worked examples of lines in `docs/DEFINITIONS.md`. Each is the contract of a function with
//! an empty body.
ghost use Rattle.std.specs.Prelude.{◌≡◌, [], ◌∷◌, ◌++◌, true, false, Some, None, Ok, Err, replicate, codes};
ghost use Rattle.hd_terms.specs.declared.Strength.TheVariants as strengths;
ghost use Rattle.hd_terms.specs.declared.Slot.TheVariants as slots;
ghost use Rattle.hd_terms.specs.declared.Group.TheVariants as groups;
ghost use Rattle.hd_terms.specs.declared.RefKind.TheVariants as references;
ghost use Rattle.hd_terms.specs.declared.Edit.TheVariants as edits;
ghost use Rattle.hd_terms.specs.declared.What.TheVariants as whats;
ghost use Rattle.hd_terms.specs.declared.errors.Refusal.TheVariants as refusals;
ghost use Rattle.hd_terms.specs.Examples as examples;
ghost use Rattle.hd_lines.specs.declared.commands.Command.TheVariants as commands;
ghost use Rattle.hd_lines.specs.declared.commands.Query.TheVariants as queries;
ghost use Rattle.hd_lines.specs.declared.commands.LineFault.TheVariants as line_faults;
ghost use Rattle.hd_lines.specs.Lines.{command_of, last_word, lines_of, whole_lines};
ghost use Rattle.hd_lines.specs.Asking.{asked};
ghost use Rattle.hd_lines.specs.Memory.{at_log, beginning, board_log};
ghost use Rattle.hd_lines.specs.Names.{name_text};
ghost use Rattle.hd_lines.specs.Replies.{IsReply};
ghost use Rattle.hd_lines.specs.Sessions.{IsAlone, IsServed, IsServedUntilRead, IsServedUntilWrite, IsSession, memory_after};
ghost use Rattle.hd_lines.specs.SessionExamples as session_examples;

/// What commands ask of the log.
pub fn asking_examples()
    ensures cut { asked examples.two_arrays [] 0 (commands.Edit (edits.Cut 1 (slots.Element 0))) ≡ Some (Ok (whats.Do (examples.cut 0))) }
    ensures null_slot { asked examples.two_arrays [] 0 (commands.Edit (edits.Cut 1 (slots.Element 1))) ≡ Some (Err refusals.EmptySlot) }
    ensures undo_of_another { asked examples.two_arrays [] 0 (commands.Undo (Some 7)) ≡ Some (Ok (whats.Undo 7)) }
    ensures nothing_to_undo { asked examples.two_arrays [] 0 (commands.Undo None) ≡ Some (Err refusals.NothingToUndo) }
    ensures nothing_asked { asked examples.two_arrays [] 0 (commands.Ask None queries.Roots) ≡ None }
{}

/// What two analysts are answered who cut one slot, what is answered where memory runs out, and a private part.
pub fn session_examples()
    ensures first_analyst { IsSession (session_examples.at_two_arrays 0) (beginning false [] []) session_examples.turns_of_the_first }
    ensures second_analyst { IsSession (session_examples.at_two_arrays 1) (beginning false [] []) session_examples.turns_of_the_second }
    ensures out_of_memory { IsSession (session_examples.at_two_arrays 0) (beginning false [] []) (session_examples.turn_without_memory ∷ []) }
    ensures behind { IsSession (session_examples.at_two_arrays 0) (beginning false [] []) session_examples.turns_behind }
    ensures private_part { IsSession (session_examples.at_two_arrays 0) (beginning false [] []) session_examples.turns_of_a_private_part }
    ensures private_part_alone { IsAlone (beginning false [] []) session_examples.turns_of_a_private_part }
    ensures private_part_leaves { board_log (memory_after (beginning false [] []) session_examples.turns_of_a_private_part) ≡ session_examples.first_cuts 1 }
{}

/// What lines ask for, and why some ask for nothing.
pub fn line_examples()
    ensures strength { command_of (codes "strength 0x2") ≡ Ok (commands.Ask None (queries.Strength 2)) }
    ensures spaces { command_of (codes "  strength   0x2  ") ≡ Ok (commands.Ask None (queries.Strength 2)) }
    ensures carriage_return { command_of (codes "  strength   0x2  " ++ 13 ∷ []) ≡ Ok (commands.Ask None (queries.Strength 2)) }
    ensures sixteen_digits { command_of (codes "strength 0x0000000000000002") ≡ Ok (commands.Ask None (queries.Strength 2)) }
    ensures seventeen_digits { command_of (codes "strength 0x00000000000000002") ≡ Err line_faults.BadArgument }
    ensures slots { command_of (codes "slots 0x1") ≡ Ok (commands.Ask None (queries.Slots 1)) }
    ensures cut { command_of (codes "cut 0x1 e0") ≡ Ok (commands.Edit (edits.Cut 1 (slots.Element 0))) }
    ensures cut_of_a_word { command_of (codes "cut 0x1 signers") ≡ Ok (commands.Edit (edits.Cut 1 slots.Signers)) }
    ensures cut_of_a_static { command_of (codes "cut 0x1 s0000000007") ≡ Ok (commands.Edit (edits.Cut 1 (slots.Static 7))) }
    ensures eleven_digits { command_of (codes "cut 0x1 s00000000007") ≡ Err line_faults.BadArgument }
    ensures capital_slot { command_of (codes "cut 0x1 E0") ≡ Err line_faults.BadArgument }
    ensures no_slot { command_of (codes "cut 0x1") ≡ Err line_faults.BadArgument }
    ensures chain { command_of (codes "chain 0x5") ≡ Ok (commands.Ask None (queries.Chain 5)) }
    ensures into { command_of (codes "into 0x5") ≡ Ok (commands.Ask None (queries.Into 5)) }
    ensures classes { command_of (codes "classes WEAK") ≡ Ok (commands.Ask None (queries.Classes strengths.Weak)) }
    ensures classes_in_lower_case { command_of (codes "classes Strong") ≡ Err line_faults.BadArgument }
    ensures members { command_of (codes "members 0x11 STRONG") ≡ Ok (commands.Ask None (queries.Members (groups.Class 0x11) strengths.Strong)) }
    ensures members_of_int_arrays { command_of (codes "members t10 STRONG") ≡ Ok (commands.Ask None (queries.Members (groups.Prim 10) strengths.Strong)) }
    ensures members_of_the_classes { command_of (codes "members c STRONG") ≡ Ok (commands.Ask None (queries.Members groups.Classes strengths.Strong)) }
    ensures members_of_no_type { command_of (codes "members t3 STRONG") ≡ Err line_faults.BadArgument }
    ensures mark { command_of (codes "mark") ≡ Ok commands.Mark }
    ensures fell { command_of (codes "fell 0") ≡ Ok (commands.Ask None (queries.Fell 0)) }
    ensures fell_since_nothing { command_of (codes "fell") ≡ Err line_faults.BadArgument }
    ensures undo { command_of (codes "undo") ≡ Ok (commands.Undo None) }
    ensures undo_of_the_greatest { command_of (codes "undo 4294967295") ≡ Ok (commands.Undo (Some 4294967295)) }
    ensures undo_past_the_greatest { command_of (codes "undo 4294967296") ≡ Err line_faults.BadArgument }
    ensures clear { command_of (codes "clear 0x21") ≡ Ok (commands.Edit (edits.Clear 0x21)) }
    ensures add { command_of (codes "add 0x1") ≡ Ok (commands.Edit (edits.Add 1)) }
    ensures drop { command_of (codes "drop 0") ≡ Ok (commands.Edit (edits.Drop 0)) }
    ensures drop_of_the_greatest { command_of (codes "drop 18446744073709551615") ≡ Ok (commands.Edit (edits.Drop 18446744073709551615)) }
    ensures drop_past_the_greatest { command_of (codes "drop 18446744073709551616") ≡ Err line_faults.BadArgument }
    ensures drop_of_an_id { command_of (codes "drop 0x1") ≡ Err line_faults.BadArgument }
    ensures clear_all { command_of (codes "clearall soft") ≡ Ok (commands.Edit (edits.ClearAll references.Soft)) }
    ensures clear_all_strong { command_of (codes "clearall strong") ≡ Err line_faults.BadArgument }
    ensures cut_all { command_of (codes "cutall 0x12 f0") ≡ Ok (commands.Edit (edits.CutAll 0x12 0)) }
    ensures cut_all_of_an_element { command_of (codes "cutall 0x12 e0") ≡ Err line_faults.BadArgument }
    ensures cut_all_of_a_type { command_of (codes "cutall t8 f0") ≡ Err line_faults.BadArgument }
    ensures cut_all_of_the_classes { command_of (codes "cutall c f0") ≡ Err line_faults.BadArgument }
    ensures cut_all_without_a_field { command_of (codes "cutall 0x12") ≡ Err line_faults.BadArgument }
    ensures roots { command_of (codes "roots") ≡ Ok (commands.Ask None queries.Roots) }
    ensures events { command_of (codes "events") ≡ Ok (commands.Ask None queries.Events) }
    ensures events_of_one { command_of (codes "events 0") ≡ Err line_faults.BadArgument }
    ensures private { command_of (codes "private") ≡ Ok commands.Private }
    ensures private_of_one { command_of (codes "private 1") ≡ Err line_faults.BadArgument }
    ensures back { command_of (codes "back") ≡ Ok commands.Back }
    ensures object { command_of (codes "object 0x21") ≡ Ok (commands.Ask None (queries.Object 0x21)) }
    ensures top { command_of (codes "top STRONG") ≡ Ok (commands.Ask None (queries.Top strengths.Strong)) }
    ensures find { command_of (codes "find ThreadLocal") ≡ Ok (commands.Ask None queries.Find) }
    ensures find_text { last_word (codes "find  ThreadLocal ") ≡ codes "ThreadLocal" }
    ensures find_nothing { command_of (codes "find") ≡ Err line_faults.BadArgument }
    ensures find_two_words { command_of (codes "find a b") ≡ Err line_faults.BadArgument }
    ensures find_an_odd_byte { command_of (codes "find a" ++ 127 ∷ []) ≡ Err line_faults.BadArgument }
    ensures head_of_find { command_of (codes "head 3 find [") ≡ Ok (commands.Ask (Some 3) queries.Find) }
    ensures freed { command_of (codes "freed 0") ≡ Ok (commands.Ask None (queries.Freed 0)) }
    ensures moved { command_of (codes "moved 15") ≡ Ok (commands.Ask None (queries.Moved 15)) }
    ensures names_on { command_of (codes "names on") ≡ Ok (commands.Names true) }
    ensures names_off { command_of (codes "names off") ≡ Ok (commands.Names false) }
    ensures names { command_of (codes "names") ≡ Err line_faults.BadArgument }
    ensures names_in_capitals { command_of (codes "names On") ≡ Err line_faults.BadArgument }
    ensures head_of_members { command_of (codes "head 9 members 0x11 STRONG") ≡ Ok (commands.Ask (Some 9) (queries.Members (groups.Class 0x11) strengths.Strong)) }
    ensures head_of_none { command_of (codes "head 0 roots") ≡ Ok (commands.Ask (Some 0) queries.Roots) }
    ensures head_of_a_mark { command_of (codes "head 1 mark") ≡ Err line_faults.BadArgument }
    ensures head { command_of (codes "head") ≡ Err line_faults.BadArgument }
    ensures head_of_head { command_of (codes "head 1 head 1 roots") ≡ Err line_faults.BadArgument }
    ensures head_of_no_command { command_of (codes "head 1 rots") ≡ Err line_faults.BadArgument }
    ensures quit { command_of (codes "quit") ≡ Ok commands.Quit }
    ensures quit_now { command_of (codes "quit now") ≡ Err line_faults.BadArgument }
    ensures no_argument { command_of (codes "strength") ≡ Err line_faults.BadArgument }
    ensures no_prefix { command_of (codes "strength 2") ≡ Err line_faults.BadArgument }
    ensures capital_x { command_of (codes "strength 0X2") ≡ Err line_faults.BadArgument }
    ensures no_digit { command_of (codes "strength 0x") ≡ Err line_faults.BadArgument }
    ensures capitals { command_of (codes "STRENGTH 0x2") ≡ Err line_faults.UnknownCommand }
    ensures empty_line { command_of [] ≡ Err line_faults.UnknownCommand }
    ensures longest_line { command_of (replicate 4096 32) ≡ Err line_faults.UnknownCommand }
    ensures longer_line { command_of (replicate 4097 32) ≡ Err line_faults.LineTooLong }
    ensures carriage_return_counts { command_of (replicate 4096 32 ++ 13 ∷ []) ≡ Err line_faults.LineTooLong }
    ensures two_lines { lines_of (codes "strength 0x2" ++ 10 ∷ codes "quit") ≡ codes "strength 0x2" ∷ codes "quit" ∷ [] }
    ensures one_whole_line { whole_lines (codes "strength 0x2" ++ 10 ∷ codes "quit") ≡ codes "strength 0x2" ∷ [] }
{}

/// What lines and whole inputs are answered under the empty log.
pub fn reply_examples()
    ensures strength { IsReply examples.two_arrays (beginning false [] []) (codes "strength 0x2") (codes "ok 1" ++ 10 ∷ codes "STRONG" ++ 10 ∷ []) }
    ensures absent { IsReply examples.two_arrays (beginning false [] []) (codes "strength 0x9") (codes "no NoSuchObject" ++ 10 ∷ []) }
    ensures no_prefix { IsReply examples.two_arrays (beginning false [] []) (codes "strength 2") (codes "no BadArgument" ++ 10 ∷ []) }
    ensures nothing_there { IsReply examples.empty_dump (beginning false [] []) (codes "strength 0x1") (codes "no NoSuchObject" ++ 10 ∷ []) }
    ensures events { IsReply examples.two_arrays (at_log (beginning false [] []) examples.cut_and_undo) (codes "events")
        (codes "ok 2" ++ 10 ∷ codes "0 0 cut 0x1 e0 undone" ++ 10 ∷ codes "1 0 undo 0" ++ 10 ∷ []) }
    ensures first_event { IsReply examples.two_arrays (at_log (beginning false [] []) examples.cut_and_undo) (codes "head 1 events")
        (codes "ok 1" ++ 10 ∷ codes "0 0 cut 0x1 e0 undone" ++ 10 ∷ []) }
    ensures cut_all { IsReply examples.two_arrays (at_log (beginning false [] []) (examples.does 0 (edits.CutAll 1 0) ∷ [])) (codes "events")
        (codes "ok 1" ++ 10 ∷ codes "0 0 cutall 0x1 f0 live" ++ 10 ∷ []) }
    ensures odd_name { name_text (Some (0x41 ∷ 0x20 ∷ 0xc3 ∷ 0xa9 ∷ 0x5c ∷ [])) ≡ codes "A\\x20\\xc3\\xa9\\x5c" }
    ensures no_name { name_text None ≡ codes "?" }
    ensures empty_name { name_text (Some []) ≡ codes "?" }
    ensures no_such_mark { IsReply examples.two_arrays (beginning false [] []) (codes "fell 1") (codes "no NoSuchMark" ++ 10 ∷ []) }
    ensures roots { IsReply examples.two_arrays (beginning false [] []) (codes "roots") (codes "ok 1" ++ 10 ∷ codes "0 unknown 0x1 stands" ++ 10 ∷ []) }
    ensures served { IsServed examples.two_arrays false (codes "strength 0x2" ++ 10 ∷ codes "quit" ++ 10 ∷ codes "strength 0x1" ++ 10 ∷ [])
        (codes "ok 1" ++ 10 ∷ codes "STRONG" ++ 10 ∷ codes "ok 0" ++ 10 ∷ []) }
    ensures read_failed { IsServedUntilRead examples.two_arrays false (codes "strength 0x2") (codes "2") [] }
    ensures write_failed { IsServedUntilWrite examples.two_arrays false (codes "strength 0x2") (codes "ok 1" ++ 10 ∷ codes "ST") }
{}
