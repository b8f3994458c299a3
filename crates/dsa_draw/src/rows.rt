//! Worked drawings: texts, bars and lanes at chosen values, by computation.

ghost use Rattle.std.specs.Prelude.{◌≡◌, ◌++◌, [], ◌∷◌, Some, None, Ok, true, false, map, replicate, take, codes};
ghost use Rattle.std.specs.Str.{encode_utf8_all};
ghost use Rattle.std.proofs.Common.{lit≤};
ghost use Rattle.std.specs.declared.{alloc.Global.{Global}, vec.Vec.{Vec}};
ghost use Rattle.dsa_regs.specs.declared.Command.TheVariants.{DrainPasid, EnableDevice};
ghost use Rattle.dsa_regs.specs.declared.Fault.TheVariants.{BadCommand};
ghost use Rattle.dsa_book.specs.declared.answer.Cause.TheVariants.{AtLimit};
ghost use Rattle.dsa_book.specs.declared.answer.ClearAnswer.TheVariants as clear;
ghost use Rattle.dsa_book.specs.declared.answer.DispatchAnswer.TheVariants as dispatch;
ghost use Rattle.dsa_book.specs.declared.answer.FetchAnswer.TheVariants as fetch;
ghost use Rattle.dsa_book.specs.declared.answer.FinishAnswer.TheVariants as finish;
ghost use Rattle.dsa_book.specs.declared.answer.IssueAnswer.TheVariants as issue;
ghost use Rattle.dsa_book.specs.declared.answer.IssueAnswer.TheVariants.{Ended};
ghost use Rattle.dsa_book.specs.declared.answer.PollAnswer.TheVariants as poll;
ghost use Rattle.dsa_book.specs.declared.answer.PollAnswer.TheVariants.{Nothing};
ghost use Rattle.dsa_book.specs.declared.answer.StartAnswer.TheVariants as start;
ghost use Rattle.dsa_book.specs.declared.answer.SubmitAnswer.TheVariants as submit;
ghost use Rattle.dsa_book.specs.declared.answer.WriteAnswer.TheVariants as write;
ghost use Rattle.dsa_book.specs.declared.answer.Reply.TheVariants as reply;
ghost use Rattle.dsa_book.specs.declared.event.Actor.TheVariants.{Admin, Client, Engine};
ghost use Rattle.dsa_book.specs.declared.event.Event.TheVariants as event;
ghost use Rattle.dsa_book.specs.declared.fate.Fate.TheVariants.{Abandoned, Aborted, Completed};
ghost use Rattle.dsa_scenario.specs.Worked.{no_command};
ghost use Rattle.dsa_scenario.specs.declared.run.Record.TheVariants.{Refused};
ghost use Rattle.dsa_scenario.specs.{Run.{answered_by}, Steps.{standing}};
ghost use Rattle.dsa_scenario.specs.Worked.{caps_of_a_run, fill, queue_of_a_run, record_ticket, records_of_a_run, stepped};
ghost use Rattle.dsa_draw.specs.declared.marks.Mark.TheVariants.{Done, Wait, Failed};
ghost use Rattle.dsa_draw.specs.declared.labels.{Detail.TheVariants.{Name, Operation, Pasid}, Sign.TheVariants.{Cross, Slash}};
ghost use Rattle.dsa_draw.specs.declared.bands.{Line.TheVariants.{Filled, Mark, Limit}};
ghost use Rattle.dsa_draw.specs.declared.moment.Level.{Level};
ghost use Rattle.dsa_draw.specs.Marks.{mark_of, reply_mark};
ghost use Rattle.dsa_regs.specs.declared.Phase.TheVariants.{Off, On, Stopping};
ghost use Rattle.dsa_draw.specs.declared.phases.Holder.TheVariants as holder;
ghost use Rattle.dsa_draw.specs.Ranges.{all_steps, column_of, ended_before, is_in_range, moments_in, range_of_text, within};
ghost use Rattle.dsa_draw.specs.Bands.{again_text, is_same_phase, phase_in, phase_of_queue, phases_text};
ghost use Rattle.dsa_draw.specs.Bands.{bands_end, bands_of, bands_text, band_text, level_height, level_in, peak_text, peaks_of, raised, line_text, class_text, close_text, frame_text, highest, lower_end, name_text, next_step, next_top, path_text, band_range_text, line_value};
ghost use Rattle.dsa_draw.specs.Moments.{batch_after, desc_brought, own_brought, own_name_of, ticket_brought, group_level_of, IsMomentOf, level_with, queue_level_of, queue_mark};
ghost use Rattle.dsa_draw.specs.Drawings.{AreMoments, drawing_text, IsDrawnOf, IsStoryOf, step_count, story_bands_end, story_bands_text, story_engines_text, story_height};
ghost use Rattle.dsa_draw.specs.Columns.{column_text, columns_text, fifth_text, step_words, title_text};
ghost use Rattle.dsa_explain_lines.specs.Parts.{part_of};
ghost use Rattle.dsa_named.specs.Steps.{named_visit};
ghost use Rattle.dsa_draw.specs.Pages.{page_width, page_height, page_size_text, view_text, told_text, run_title_text, description_text, shapes_text, legend_text, sheet_text, style_text, head_text, foot_text, row_name_text, rule_text, mark_text, xml_text};
ghost use Rattle.dsa_draw.specs.Rows.{label_above_text, steps_above_text, asker_of, asker_mark_text, asker_text, rows_between, fate_mark, fates_text, names_above_text, marks_above_text, names_again_text, rows_above_text};
ghost use Rattle.dsa_draw.specs.Bars.{bars_of, noted_in, with_name, end_step, engine_of_actor, submitter_in, client_of_actor, is_batch_named, free_place, in_lanes, all_lanes, lane_number, lanes_taken, is_bar_of};
ghost use Rattle.dsa_count.specs.Waits.{active_in, reports_end};
ghost use Rattle.dsa_draw.specs.Active.{wait_label_text, wait_phrase, waits_from, waits_text};
ghost use Rattle.dsa_draw.specs.Labels.{is_fitting, bar_label_text, label_of, label_with, letters_in, operation_part, sign_letters, sign_of, sign_of_fate};
ghost use Rattle.dsa_draw.specs.Engines.{bar_text, bars_text, end_sign_text, batches_text, bars_in_lanes, box_part_text, bar_title_text, client_phrase, work_phrase, class_of_end, class_of_fate, end_phrase, engine_bottom, engine_end, engine_marks_text, engine_name_text, engine_part_text, engines_end, engines_text, fate_phrase, has_steps, boxes_text, is_shown, is_step_by, lane_by, lanes_high, lanes_of, own_at, parent_phrase};
ghost use Rattle.dsa_draw.specs.Worked.{bar_from, bar_of_a_move, drain_issued, end_at, ended_row, five_lanes, group_band, moment_of, moments_of_a_batch, moments_of_a_drain, move_of_a_page, queue_band};
ghost use Rattle.dsa_draw.specs.Worked.{caps_of_a_drawing, device_of_a_drawing, idle_step, level, moment_in_phase, numbered, steps_two_to_four, some_of_a_run, one_of_two_noted, whole_run, moment_of_a_device, moment_of_a_story, moments_of_a_third_name, moments_with_levels, moment_with_names, of_a_note, of_an_own_name, step_of_a_device, step_with_names, story, story_of_a_device, story_with, vector, visit_of_a_device, visit_with_names};
ghost use Rattle.dsa_draw.specs.Worked.{device_of_a_large_move, device_with_an_empty_queue, end_of_a_large_move, moment_of_a_large_move, moments_of_a_large_move, moment_with_reason, no_command_is_utf8, no_group_is_utf8, no_reason, note_is_utf8, of_a_large_move, of_an_empty_queue, of_no_command, of_no_group, text_with_bytes};

/// The width of a page, its head, names of rows, lines, and marks in the column of a step.
#[tactic(auto, unfolding(crate::specs::Worked::drawn_on_literals))]
pub fn pages()
    ensures width { map page_width (0 ∷ 3 ∷ []) ≡ 168 ∷ 210 ∷ [] }
    ensures size { page_size_text 210 99 ≡ codes " width=\"210\" height=\"99\"" }
    ensures view { view_text 210 99 ≡ codes " viewBox=\"0 -28 210 99\" role=\"img\">\n" }
    ensures told { told_text (whole_run 3)
        ≡ codes "<title>Run of 3 steps</title>\n" ++ description_text }
    ensures told_of_one { told_text (whole_run 1)
        ≡ codes "<title>Run of 1 step</title>\n" ++ description_text }
    ensures height { map page_height (99 ∷ 4294967295 ∷ []) ≡ 334 ∷ 4294967295 ∷ [] }
    ensures legend { legend_text 99
        ≡ codes "<g transform=\"translate(0 99)\">\n" ++ (shapes_text ++ codes "</g>\n") }
    ensures sheet { sheet_text 210 99
        ≡ codes "<rect class=\"sheet\" y=\"-28\" width=\"210\" height=\"99\"/>\n" }
    ensures head { head_text (whole_run 3) 99
        ≡ codes "<svg xmlns=\"http://www.w3.org/2000/svg\" width=\"210\" height=\"334\" viewBox=\"0"
        ++ codes " -28 210 334\" role=\"img\">\n"
        ++ (told_text (whole_run 3)
        ++ (style_text
        ++ codes "<rect class=\"sheet\" y=\"-28\" width=\"210\" height=\"334\"/>\n")) }
    ensures foot { foot_text ≡ codes "</svg>\n" }
    ensures name { row_name_text (codes "step") 80 ≡ codes "<text x=\"4\" y=\"91\">step</text>\n" }
    ensures rule { rule_text 3 96 ≡ codes "<path class=\"grid\" d=\"M112 96h42\"/>\n" }
    ensures done { mark_text Done 2 96
        ≡ codes "<circle class=\"done\" cx=\"147\" cy=\"104\" r=\"3\"/>\n" }
    ensures wait { mark_text Wait 2 96
        ≡ codes "<circle class=\"wait\" cx=\"147\" cy=\"104\" r=\"3\"/>\n" }
    ensures failed { mark_text Failed 2 96
        ≡ codes "<path class=\"failed\" d=\"M144 101l6 6m0-6l-6 6\"/>\n" }
{}

/// What each answer is marked with.
#[tactic(auto, unfolding(crate::specs::Worked::drawn_on_literals))]
pub fn marks()
    ensures done { map reply_mark
        (reply.Submit (submit.Accepted (record_ticket 1 2))
        ∷ reply.Dispatch (dispatch.Taken (record_ticket 1 2) 0)
        ∷ reply.Fetch (fetch.Fetched (record_ticket 1 2))
        ∷ reply.Start (start.Started (record_ticket 1 2)) ∷ reply.Finish (finish.Done 1)
        ∷ reply.Issue (issue.Ended 0) ∷ reply.Poll poll.Finished ∷ reply.Write write.Written
        ∷ reply.Clear (clear.Cleared (record { queue = 0; cause = AtLimit; overflow = true })) ∷ [])
        ≡ Done ∷ Done ∷ Done ∷ Done ∷ Done ∷ Done ∷ Done ∷ Done ∷ Done ∷ [] }
    ensures dropped { map reply_mark
        (reply.Submit (submit.Dropped AtLimit) ∷ reply.Submit submit.Full
        ∷ reply.Dispatch dispatch.Full ∷ reply.Fetch fetch.Full ∷ reply.Start (start.Abandoned 2)
        ∷ reply.Start start.Full ∷ reply.Finish (finish.Done 3) ∷ reply.Finish finish.Gone
        ∷ reply.Finish finish.Full ∷ [])
        ≡ Failed ∷ Failed ∷ Failed ∷ Failed ∷ Failed ∷ Failed ∷ Failed ∷ Failed ∷ Failed ∷ [] }
    ensures refused { map reply_mark
        (reply.Issue (issue.Refused BadCommand) ∷ reply.Issue issue.Full ∷ reply.Poll poll.Full
        ∷ reply.Write (write.Refused BadCommand) ∷ reply.Write write.Full ∷ reply.Clear clear.Full
        ∷ [])
        ≡ Failed ∷ Failed ∷ Failed ∷ Failed ∷ Failed ∷ Failed ∷ [] }
    ensures wait { map reply_mark
        (reply.Submit (submit.Retry AtLimit) ∷ reply.Dispatch dispatch.Idle
        ∷ reply.Fetch fetch.NoBatch ∷ reply.Start start.FenceWait ∷ reply.Finish finish.NotReady
        ∷ reply.Issue issue.Active ∷ reply.Poll poll.Active ∷ reply.Clear clear.Nothing ∷ [])
        ≡ Wait ∷ Wait ∷ Wait ∷ Wait ∷ Wait ∷ Wait ∷ Wait ∷ Wait ∷ [] }
    ensures word { mark_of (Refused no_command) ≡ Failed }
{}

/// The lines of a band, its frame and its names, and which bands a device has.
#[tactic(auto, unfolding(crate::specs::Worked::drawn_on_literals))]
pub fn bands()
    ensures values { map (λ line. line_value line (level 2 3 4))
        (Filled ∷ Mark ∷ Limit ∷ [])
        ≡ 2 ∷ 3 ∷ 4 ∷ [] }
    ensures raised { map (λ most. raised most (level 2 3 4)) (level 1 1 1 ∷ level 9 8 7 ∷ [])
        ≡ level 2 3 4 ∷ level 9 8 7 ∷ [] }
    ensures highest { map highest (level 2 3 4 ∷ level 4 3 2 ∷ level 2 4 3 ∷ []) ≡ 4 ∷ 4 ∷ 4 ∷ [] }
    ensures heights { map (level_height 128) (0 ∷ 1 ∷ 6 ∷ 8 ∷ 128 ∷ 129 ∷ [])
        ≡ 0 ∷ 2 ∷ 2 ∷ 3 ∷ 48 ∷ 48 ∷ [] }
    ensures next { map next_step (4 ∷ 4294967295 ∷ []) ≡ 5 ∷ 4294967295 ∷ [] }
    ensures path { path_text 200 4 (0 ∷ 2 ∷ 2 ∷ 4 ∷ 9 ∷ [])
        ≡ codes "M112 200M126 200V176H154V152H168V152H182" }
    ensures low { path_text 200 128 (1 ∷ 0 ∷ 1 ∷ 0 ∷ [])
        ≡ codes "M112 200M112 200V198H126V200M140 200V198H154V200M168 200" }
    ensures no_level { path_text 200 0 (1 ∷ []) ≡ codes "M112 200M112 200V198H126" }
    ensures classes { map class_text (Filled ∷ Mark ∷ Limit ∷ [])
        ≡ codes "filled" ∷ codes "mark" ∷ codes "limit" ∷ [] }
    ensures closed { map (close_text 200) (Filled ∷ Mark ∷ []) ≡ codes "V200Z" ∷ [] ∷ [] }
    ensures frame { frame_text 3 152
        ≡ codes "<path class=\"frame\" d=\"M112 152H154V200H112Z\"/>\n" }
    ensures names { map (λ band. name_text band 152) (queue_band 4 ∷ group_band 5 ∷ [])
        ≡ codes "<text x=\"4\" y=\"163\">queue 4</text>\n"
        ∷ codes "<text x=\"4\" y=\"163\">buffers 5</text>\n" ∷ [] }
    ensures peak { peak_text 5 152 ≡ codes "<text x=\"4\" y=\"189\">peak 5</text>\n" }
    ensures range { band_range_text 16 152 ≡ codes "<text x=\"4\" y=\"176\">0 to 16</text>\n" }
    ensures ends { map (lower_end 152) (48 ∷ 4294967295 ∷ []) ≡ 200 ∷ 4294967295 ∷ [] }
    ensures none { bands_text 3 152 (queue_band 0 ∷ []) [] ≡ [] }
    ensures same_place { next_top 152 (queue_band 0) [] ≡ 152 }
    ensures of_a_device { bands_of
        (record caps_of_a_drawing { queues = 2; groups = 1; engines = 3 })
        ≡ queue_band 0 ∷ queue_band 1 ∷ group_band 0 ∷ [] }
{}

/// The column of a step, with its title, and the number of every fifth.
#[tactic(auto, unfolding(crate::specs::Worked::drawn_on_literals))]
pub fn columns()
    ensures column { (levels : Vec Level Global)
        → column_text 300 2
        (record (moment_of levels (stepped event.Poll (reply.Poll Nothing)) None 0) { number = 7 })
        ≡ codes "<rect class=\"column\" x=\"140\" y=\"80\" width=\"14\" height=\"220\"><title>step "
        ++ codes "7: poll -&gt; nothing</title></rect>\n" }
    ensures fifths { map (fifth_text 300 3) (4 ∷ 5 ∷ [])
        ≡ []
        ∷ (codes "<path class=\"grid\" d=\"M154 80v220\"/>\n"
        ++ codes "<text x=\"156\" y=\"91\">5</text>\n")
        ∷ [] }
    ensures of_a_batch { (levels : Vec Level Global)
        → columns_text 300 1 (numbered 3 (moments_of_a_batch levels))
        ≡ codes "<rect class=\"column\" x=\"126\" y=\"80\" width=\"14\" height=\"220\"><title>s"
        ++ codes "tep 3: submit q0 limited movdir client 5 fill 0 bytes -&gt; accepted 0</title></"
        ++ codes "rect>\n<rect class=\"column\" x=\"140\" y=\"80\" width=\"14\" height=\"220\"><t"
        ++ codes "itle>step 4: dispatch e1 -&gt; taken 0 from 0</title></rect>\n<path class=\"gri"
        ++ codes "d\" d=\"M154 80v220\"/>\n<text x=\"156\" y=\"91\">5</text>\n<rect class=\"colu"
        ++ codes "mn\" x=\"154\" y=\"80\" width=\"14\" height=\"220\"><title>step 5: fetch e1 fil"
        ++ codes "l 0 bytes -&gt; fetched 1</title></rect>\n<rect class=\"column\" x=\"168\" y=\""
        ++ codes "80\" width=\"14\" height=\"220\"><title>step 6: start e1 -&gt; started 1</title"
        ++ codes "></rect>\n<rect class=\"column\" x=\"182\" y=\"80\" width=\"14\" height=\"220\""
        ++ codes "><title>step 7: finish e1 name 1 success -&gt; done 01</title></rect>\n" }
{}

/// The titles of columns: of devices with other numbers of queues, groups and engines, with why a
/// step was answered so, as XML has it.
#[tactic(auto, unfolding(crate::specs::Worked::drawn_on_literals))]
pub fn titles()
    ensures entities { map xml_text (codes "a -> b" ∷ codes "<&>" ∷ codes "\"'#;" ∷ [] ∷ [])
        ≡ codes "a -&gt; b" ∷ codes "&lt;&amp;&gt;" ∷ codes "\"'#;" ∷ [] ∷ [] }
    ensures beyond_ascii { xml_text (encode_utf8_all (codes "é→")) ≡ encode_utf8_all (codes "é→") }
    ensures idle { (memory : Global)
        → title_text (moment_of_a_device memory)
        ≡ codes "step 3: dispatch e1 -&gt; idle: q0 is empty" }
    ensures why_idle { part_of device_with_an_empty_queue (Ok (event.Dispatch 1))
        ≡ of_an_empty_queue }
    ensures why_idle_later { part_of device_of_a_drawing (Ok (event.Dispatch 1)) ≡ of_no_group }
    ensures completed { (memory : Global)
        → (levels : Vec Level Global)
        → title_text (moment_of_a_large_move memory levels)
        ≡ codes "step 12: finish e3 name 2 success -&gt; done 13: size 4097 is above 4096, the tra"
        ++ codes "nsfer limit of q2" }
    ensures why_completed { part_of device_of_a_large_move (answered_by end_of_a_large_move)
        ≡ of_a_large_move }
    ensures why_idle_of_two { part_of device_of_a_large_move (Ok (event.Dispatch 3))
        ≡ codes ": q0 is empty; q2 is empty" }
    ensures taken { (memory : Global)
        → step_words
        (record (moment_of_a_device memory) {
          entry = stepped (event.Dispatch 1)
              (reply.Dispatch (dispatch.Taken (record_ticket 3 6) 0));
        })
        ≡ codes "dispatch e1 -> taken 6 from 0" }
    ensures word { (memory : Global)
        → step_words (record (moment_of_a_device memory) { entry = Refused no_command })
        ≡ codes "command 0x0 -> refused 13 BadCommand: q0 is empty" }
    ensures with_names { (memory : Global)
        → map title_text
        (moment_with_names memory
        ∷ record (moment_with_names memory) { entry = idle_step 1 } ∷ [])
        ≡ codes "step 3: dispatch e1 -&gt; taken 6 from 0 [6 is a&lt;b]"
        ∷ codes "step 3: dispatch e1 -&gt; idle: q0 is empty [6 is a&lt;b]" ∷ [] }
{}

/// Names of commands, marks of those who asked, and what ended, each above the column of its step.
#[tactic(auto, unfolding(crate::specs::Worked::drawn_on_literals))]
pub fn rows_above()
    ensures command { label_above_text 2
        (stepped (event.Issue EnableDevice) (reply.Issue (Ended 0)))
        ≡ codes "<text transform=\"translate(150 76) rotate(-60)\">enable-device</text>\n" }
    ensures operand { label_above_text 2
        (stepped (event.Issue (DrainPasid 5)) (reply.Issue (Ended 0)))
        ≡ codes "<text transform=\"translate(150 76) rotate(-60)\">drain-pasid 5</text>\n" }
    ensures no_command { map (label_above_text 2)
        (stepped event.Poll (reply.Poll Nothing) ∷ Refused no_command ∷ [])
        ≡ [] ∷ [] ∷ [] }
    ensures askers { map asker_of
        (stepped event.Poll (reply.Poll Nothing)
        ∷ Refused no_command
        ∷ stepped (event.Dispatch 3) (reply.Poll Nothing)
        ∷ [])
        ≡ Admin ∷ Admin ∷ Engine 3 ∷ [] }
    ensures client { asker_mark_text 2 Done (Client 5)
        ≡ codes "<circle class=\"done\" cx=\"147\" cy=\"104\" r=\"3\"/>\n" }
    ensures administrator { asker_mark_text 2 Done Admin
        ≡ codes "<circle class=\"done\" cx=\"147\" cy=\"120\" r=\"3\"/>\n" }
    ensures engine { asker_mark_text 2 Done (Engine 5) ≡ [] }
    ensures refused { asker_text 2 (Refused no_command)
        ≡ codes "<path class=\"failed\" d=\"M144 117l6 6m0-6l-6 6\"/>\n" }
    ensures marks { map fate_mark (Completed 1 ∷ Completed 3 ∷ Abandoned ∷ Aborted 1 ∷ [])
        ≡ Done ∷ Failed ∷ Failed ∷ Failed ∷ [] }
    ensures between { map
        (λ to. map (λ row. row.name)
        (rows_between
        (ended_row 4 Abandoned ∷ ended_row 5 Abandoned ∷ ended_row 6 Abandoned ∷ []) 1 to))
        (0 ∷ 1 ∷ 2 ∷ 9 ∷ [])
        ≡ [] ∷ [] ∷ (5 ∷ []) ∷ (5 ∷ 6 ∷ []) ∷ [] }
    ensures past { rows_between (ended_row 4 Abandoned ∷ []) 2 3 ≡ [] }
    ensures none { fates_text 2 2 [] ≡ [] }
    ensures one { fates_text 2 2 (ended_row 4 (Completed 1) ∷ [])
        ≡ codes "<g><title>step 2\nfate 4 - completed 01\n</title><rect class=\"column\" x=\"140\" "
        ++ codes "y=\"160\" width=\"14\" height=\"16\"/><circle class=\"done\" cx=\"147\" cy=\"168"
        ++ codes "\" r=\"3\"/>\n</g>\n" }
    ensures two { fates_text 2 2 (ended_row 4 (Completed 1) ∷ ended_row 5 Abandoned ∷ [])
        ≡ codes "<g><title>step 2\nfate 4 - completed 01\nfate 5 - abandoned\n</title><rect class="
        ++ codes "\"column\" x=\"140\" y=\"160\" width=\"14\" height=\"16\"/><text class=\"label\""
        ++ codes " x=\"142\" y=\"183\">2</text><path class=\"failed\" d=\"M144 165l6 6m0-6l-6 6\"/"
        ++ codes ">\n</g>\n" }
    ensures names { names_above_text 3
        ≡ codes "<text x=\"4\" y=\"91\">step</text>\n<text x=\"4\" y=\"107\">clients</text>\n<text "
        ++ codes "x=\"4\" y=\"123\">administrator</text>\n<text x=\"4\" y=\"139\">device</text>\n<"
        ++ codes "text x=\"4\" y=\"155\">active</text>\n<text x=\"4\" y=\"171\">fates</text>\n<pat"
        ++ codes "h class=\"grid\" d=\"M112 96h42\"/>\n<path class=\"grid\" d=\"M112 112h42\"/>\n<"
        ++ codes "path class=\"grid\" d=\"M112 128h42\"/>\n<path class=\"grid\" d=\"M112 144h42\"/"
        ++ codes ">\n<path class=\"grid\" d=\"M112 160h42\"/>\n" }
{}

/// The bars of a run, as engines took and fetched entries, and as these ended.
#[tactic(auto, unfolding(crate::specs::Worked::drawn_on_literals))]
pub fn bars()
    ensures of_a_batch { (levels : Vec Level Global)
        → bars_of (moments_of_a_batch levels) (ended_row 1 (Completed 1) ∷ [])
        ≡ record (bar_from 0 None 1 None) { desc = Some fill; client = Some 5; is_batch = true }
        ∷ record (bar_from 1 (Some 0) 2 (end_at 4 (Completed 1)))
        { desc = Some move_of_a_page; started = Some 3 }
        ∷ [] }
    ensures above { (levels : Vec Level Global)
        → marks_above_text (ended_row 1 (Completed 1) ∷ []) 0 0
        (numbered 2 (moments_of_a_batch levels))
        ≡ codes "<circle class=\"done\" cx=\"119\" cy=\"104\" r=\"3\"/>\n<g><title>step 6\nfate 1 -"
        ++ codes " completed 01\n</title><rect class=\"column\" x=\"168\" y=\"160\" width=\"14\" h"
        ++ codes "eight=\"16\"/><circle class=\"done\" cx=\"175\" cy=\"168\" r=\"3\"/>\n</g>\n" }
    ensures ended_once { (levels : Vec Level Global)
        → marks_above_text (ended_row 1 (Completed 1) ∷ []) 0 0
        (moment_of levels (Refused no_command) None 1
        ∷ moment_of levels (Refused no_command) None 1
        ∷ [])
        ≡ codes "<path class=\"failed\" d=\"M116 117l6 6m0-6l-6 6\"/>\n<g><title>step 0\nfate 1 - c"
        ++ codes "ompleted 01\n</title><rect class=\"column\" x=\"112\" y=\"160\" width=\"14\" hei"
        ++ codes "ght=\"16\"/><circle class=\"done\" cx=\"119\" cy=\"168\" r=\"3\"/>\n</g>\n<path "
        ++ codes "class=\"failed\" d=\"M130 117l6 6m0-6l-6 6\"/>\n" }
    ensures in_a_range { (levels : Vec Level Global)
        → steps_above_text (record { first = 1; end = 2 })
        (ended_row 4 Abandoned ∷ ended_row 5 (Completed 1) ∷ [])
        (map (moment_of levels (Refused no_command) None) (1 ∷ 2 ∷ []))
        ≡ codes "<path class=\"failed\" d=\"M116 117l6 6m0-6l-6 6\"/>\n<g><title>step 0\nfate 5 - c"
        ++ codes "ompleted 01\n</title><rect class=\"column\" x=\"112\" y=\"160\" width=\"14\" hei"
        ++ codes "ght=\"16\"/><circle class=\"done\" cx=\"119\" cy=\"168\" r=\"3\"/>\n</g>\n" }
    ensures not_started { (levels : Vec Level Global)
        → bars_of (take 3 (moments_of_a_batch levels)) []
        ≡ record (bar_from 0 None 1 None) { desc = Some fill; client = Some 5; is_batch = true }
        ∷ record (bar_from 1 (Some 0) 2 None) { desc = Some move_of_a_page; started = None }
        ∷ [] }
    ensures no_rows { rows_above_text (whole_run 3) [] [] ≡ names_above_text 3 }
    ensures noted { (memory : Global)
        → noted_in
        (record {
          bars = vector memory (bar_of_a_move ∷ []) (lit≤ tt);
          places = vector memory (None ∷ Some 0 ∷ []) (lit≤ tt);
          clients = vector memory (Some 7 ∷ None ∷ []) (lit≤ tt);
        })
        ≡ one_of_two_noted }
    ensures named { with_name (Some 4) one_of_two_noted
        ≡ record one_of_two_noted {
          places = None ∷ Some 0 ∷ None ∷ [];
          clients = Some 7 ∷ None ∷ Some 4 ∷ [];
        } }
{}

/// Bars beside one another have lanes of their own; a lane is taken again once its bar has ended.
#[tactic(auto, unfolding(crate::specs::Worked::drawn_on_literals))]
pub fn lanes()
    ensures ends { map (end_step 9)
        (bar_from 0 None 2 None ∷ bar_from 0 None 2 (end_at 5 Abandoned) ∷ [])
        ≡ 9 ∷ 5 ∷ [] }
    ensures of_engine { map (λ engine. is_bar_of engine false (bar_from 0 None 2 None))
        (0 ∷ 1 ∷ 2 ∷ [])
        ≡ false ∷ true ∷ false ∷ [] }
    ensures of_members { map (is_bar_of 1 true)
        (bar_from 0 None 2 None ∷ bar_from 0 (Some 7) 2 None ∷ [])
        ≡ false ∷ true ∷ [] }
    ensures taken_alone { map (is_bar_of 1 false)
        (bar_from 0 None 2 None ∷ bar_from 0 (Some 7) 2 None ∷ [])
        ≡ true ∷ false ∷ [] }
    ensures free { map (λ begin. free_place begin (5 ∷ 3 ∷ [])) (2 ∷ 3 ∷ 5 ∷ []) ≡ 2 ∷ 1 ∷ 0 ∷ [] }
    ensures taken { map (λ begin. lanes_taken begin 8 (5 ∷ 3 ∷ [])) (2 ∷ 3 ∷ 5 ∷ [])
        ≡ (5 ∷ 3 ∷ 8 ∷ []) ∷ (5 ∷ 8 ∷ []) ∷ (8 ∷ 3 ∷ []) ∷ [] }
    ensures number { map lane_number (7 ∷ 4294967295 ∷ 4294967296 ∷ [])
        ≡ 7 ∷ 4294967295 ∷ 4294967295 ∷ [] }
    ensures each { map (λ bar. bar.lane)
        (in_lanes 1 false 9 []
        (bar_from 0 None 1 (end_at 4 Abandoned) ∷ bar_from 1 None 2 None
        ∷ bar_from 2 (Some 0) 2 None ∷ bar_from 3 None 4 None ∷ []))
        ≡ 0 ∷ 1 ∷ 0 ∷ 0 ∷ [] }
    ensures all { all_lanes 1 false 9 []
        (bar_from 0 None 1 (end_at 4 Abandoned) ∷ bar_from 1 None 2 None
        ∷ bar_from 2 (Some 0) 2 None ∷ bar_from 3 None 4 (end_at 6 Abandoned) ∷ [])
        ≡ 6 ∷ 9 ∷ [] }
    ensures both { map (λ bar. bar.lane)
        (bars_in_lanes 1 9
        (bar_from 0 None 1 None ∷ bar_from 1 None 2 None
        ∷ bar_from 2 (Some 0) 2 None ∷ bar_from 3 (Some 0) 3 None ∷ []))
        ≡ 0 ∷ 1 ∷ 0 ∷ 1 ∷ [] }
    ensures of_the_engine { lanes_of 1 (whole_run 9) 200
        (bar_from 0 None 1 None ∷ bar_from 1 None 2 None ∷ bar_from 2 (Some 0) 2 None ∷ [])
        ≡ record { top = 218; taken = 2; members = 1; extent = whole_run 9 } }
    ensures places { map (lane_by five_lanes 1) (None ∷ Some 0 ∷ []) ≡ 1 ∷ 3 ∷ [] }
    ensures high { map lanes_high (3 ∷ 4294967295 ∷ []) ≡ 39 ∷ 4294967295 ∷ [] }
    ensures bottom { engine_bottom five_lanes ≡ 269 }
{}

/// The boxes, names and titles of bars, and the marks and the end of an engine's rows.
#[tactic(auto, unfolding(crate::specs::Worked::drawn_on_literals))]
pub fn engines()
    ensures classes { map class_of_fate (Completed 1 ∷ Completed 3 ∷ Abandoned ∷ [])
        ≡ codes "success" ∷ codes "failure" ∷ codes "lost" ∷ [] }
    ensures class_of_ends { map class_of_end (None ∷ end_at 5 (Completed 1) ∷ [])
        ≡ codes "held" ∷ codes "success" ∷ [] }
    ensures phrases { map fate_phrase (Completed 3 ∷ Aborted 4 ∷ Abandoned ∷ [])
        ≡ codes "completed 03" ∷ codes "aborted by command 4" ∷ codes "abandoned" ∷ [] }
    ensures end_phrases { map (end_phrase []) (None ∷ end_at 5 Abandoned ∷ [])
        ≡ codes ", still held" ∷ codes " to 5: abandoned" ∷ [] }
    ensures parents { map parent_phrase (None ∷ Some 7 ∷ [])
        ≡ [] ∷ codes ", member of batch 7" ∷ [] }
    ensures title { bar_title_text [] (record (bar_from 12 (Some 7) 2 None) { client = Some 3 })
        ≡ codes "<title>entry 12, client 3, member of batch 7, on e1 from step 2, still held</tit"
        ++ codes "le>" }
    ensures batch_title { bar_title_text []
        (record (bar_from 12 None 2 (end_at 5 Abandoned)) { is_batch = true })
        ≡ codes "<title>batch 12, on e1 from step 2 to 5: abandoned</title>" }
    ensures works { map work_phrase (None ∷ Some fill ∷ [])
        ≡ [] ∷ codes ": fill 0 bytes, PASID 0" ∷ [] }
    ensures clients { map client_phrase (None ∷ Some 3 ∷ []) ≡ [] ∷ codes ", client 3" ∷ [] }
    ensures title_of_a_move { bar_title_text []
        (record (bar_from 12 None 2 (end_at 5 (Completed 1)))
        { desc = Some move_of_a_page; client = Some 3 })
        ≡ codes "<title>entry 12: move 4096 bytes, PASID 5, client 3, on e1 from step 2 to 5: com"
        ++ codes "pleted 01</title>" }
    ensures title_with_reason { (memory : Global)
        → (levels : Vec Level Global)
        → map (λ fate. bar_title_text (moments_of_a_large_move memory levels)
        (bar_from 12 None 0 (end_at 1 fate)))
        (Completed 0x13 ∷ Aborted 4 ∷ Abandoned ∷ [])
        ≡ (codes "<title>entry 12, on e1 from step 0 to 1: completed 13: size 4097 is above 4096, "
        ++ codes "the transfer limit of q2</title>")
        ∷ codes "<title>entry 12, on e1 from step 0 to 1: aborted by command 4</title>"
        ∷ codes "<title>entry 12, on e1 from step 0 to 1: abandoned</title>" ∷ [] }
    ensures other_step { (memory : Global)
        → (levels : Vec Level Global)
        → map (λ step. end_phrase (moments_of_a_large_move memory levels)
        (end_at step (Completed 0x13)))
        (0 ∷ 2 ∷ [])
        ≡ codes " to 0: completed 13" ∷ codes " to 2: completed 13" ∷ [] }
    ensures title_with_names { (memory : Global)
        → bar_title_text (moment_of_a_device memory ∷ moment_with_names memory ∷ [])
        (record (bar_from 6 (Some 4) 1 None) { desc = Some move_of_a_page; is_batch = true })
        ≡ codes "<title>batch 6 is a&lt;b: move 4096 bytes, PASID 5, member of batch 4, on e1 fro"
        ++ codes "m step 1, still held</title>" }
    ensures own_names { (memory : Global)
        → map (own_at (moment_of_a_device memory ∷ moment_with_names memory ∷ []))
        (0 ∷ 1 ∷ 2 ∷ [])
        ≡ None ∷ Some of_an_own_name ∷ None ∷ [] }
    ensures own_name { map
        (λ name. own_name_of name ((7, codes "b") ∷ (6, codes "a") ∷ [])) (5 ∷ 6 ∷ [])
        ≡ None ∷ Some (codes "a") ∷ [] }
    ensures bar_with_names { (memory : Global)
        → bar_text five_lanes
        (replicate 2 (moment_of_a_device memory) ++ moment_with_names memory ∷ [])
        (bar_from 6 None 2 None)
        ≡ codes "<g><title>entry 6 is a&lt;b, on e1 from step 2, still held</title><rect class=\"h"
        ++ codes "eld\" x=\"140\" y=\"200\" width=\"98\" height=\"11\" rx=\"2\"/><text class="
        ++ codes "\"label\" x=\"142\" y=\"209\">6 a&lt;b</text></g>\n" }
    ensures signs_of_fates { map sign_of_fate
        (Completed 1 ∷ Completed 0 ∷ Completed 2 ∷ Aborted 4 ∷ Abandoned ∷ [])
        ≡ None ∷ Some Cross ∷ Some Cross ∷ Some Slash ∷ Some Slash ∷ [] }
    ensures signs_of_ends { map sign_of (None ∷ end_at 5 Abandoned ∷ []) ≡ None ∷ Some Slash ∷ [] }
    ensures signs { map (λ sign. end_sign_text sign 5 204) (None ∷ Some Cross ∷ Some Slash ∷ [])
        ≡ [] ∷ codes "<path class=\"sign\" d=\"M176 204l4 4m0-4l-4 4\"/>"
        ∷ codes "<path class=\"sign\" d=\"M176 204m0 4l4-4\"/>" ∷ [] }
    ensures failed_bar { bar_text five_lanes [] (bar_from 7 None 2 (end_at 4 (Completed 3)))
        ≡ codes "<g><title>entry 7, on e1 from step 2 to 4: completed 03</title><rect class=\"failu"
        ++ codes "re\" x=\"140\" y=\"200\" width=\"28\" height=\"11\" rx=\"2\"/><text class=\"labe"
        ++ codes "l\" x=\"142\" y=\"209\">7</text><path class=\"sign\" d=\"M162 204l4 4m0-4l-4 4\""
        ++ codes "/></g>\n" }
    ensures boxed { box_part_text (codes "waits") 2 5 200
        ≡ codes "<rect class=\"waits\" x=\"140\" y=\"200\" width=\"42\" height=\"11\" rx=\"2\"/>" }
    ensures not_boxed { box_part_text (codes "waits") 5 5 200 ≡ [] }
    ensures bar { bar_text five_lanes []
        (record (bar_from 12 (Some 7) 2 (end_at 8 (Completed 1))) { started = Some 4; lane = 1 })
        ≡ codes "<g><title>entry 12, member of batch 7, on e1 from step 2 to 8: completed 01</title"
        ++ codes "><rect class=\"waits\" x=\"140\" y=\"239\" width=\"28\" height=\"11\" rx=\"2\"/>"
        ++ codes "<rect class=\"success\" x=\"168\" y=\"239\" width=\"56\" height=\"11\" rx=\"2\"/"
        ++ codes "><text class=\"label\" x=\"142\" y=\"248\">12</text></g>\n" }
    ensures held { bar_text five_lanes []
        (record (bar_from 12 None 2 None) { started = None })
        ≡ codes "<g><title>entry 12, on e1 from step 2, still held</title><rect class=\"waits\" x="
        ++ codes "\"140\" y=\"200\" width=\"98\" height=\"11\" rx=\"2\"/><text class=\"label\" x="
        ++ codes "\"142\" y=\"209\">12</text></g>\n" }
    ensures other_engine { bars_text 0 five_lanes [] (bar_from 12 None 2 None ∷ []) ≡ [] }
    ensures batch { batches_text 1 five_lanes
        (record (bar_from 12 None 2 (end_at 8 Abandoned)) { is_batch = true; lane = 1 } ∷ [])
        ≡ codes "<rect class=\"batch\" x=\"140\" y=\"213\" width=\"84\" height=\"52\"><title>ba"
        ++ codes "tch of e1: batch 12 and its members</title></rect>\n" }
    ensures no_batch { batches_text 1 five_lanes (bar_from 12 None 2 None ∷ []) ≡ [] }
    ensures other_batch { batches_text 0 five_lanes
        (record (bar_from 12 None 2 None) { is_batch = true } ∷ [])
        ≡ [] }
    ensures steps { map
        (λ engine. is_step_by engine (stepped (event.Dispatch 3) (reply.Poll Nothing))) (2 ∷ 3 ∷ [])
        ≡ false ∷ true ∷ [] }
    ensures no_step { is_step_by 0 (Refused no_command) ≡ false }
{}

/// How much of an entry a bar has room for, beside its sign.
#[tactic(auto, unfolding(crate::specs::Worked::drawn_on_literals))]
pub fn labels()
    ensures letters { map letters_in (0 ∷ 13 ∷ 14 ∷ 98 ∷ []) ≡ 0 ∷ 1 ∷ 2 ∷ 16 ∷ [] }
    ensures signs { map sign_letters (None ∷ end_at 5 (Completed 1) ∷ end_at 5 Abandoned ∷ [])
        ≡ 0 ∷ 0 ∷ 1 ∷ [] }
    ensures fitting { map (is_fitting 14 (bar_from 9 None 2 None))
        (codes "12" ∷ codes "123" ∷ [])
        ≡ true ∷ false ∷ [] }
    ensures fitting_beside { map (is_fitting 14 (bar_from 9 None 2 (end_at 5 (Completed 3))))
        (codes "1" ∷ codes "12" ∷ [])
        ≡ true ∷ false ∷ [] }
    ensures details { map (λ detail. label_with None detail bar_of_a_move)
        (Name ∷ Operation ∷ Pasid ∷ [])
        ≡ codes "12" ∷ codes "12 move" ∷ codes "12 move PASID 5" ∷ [] }
    ensures details_with_own { map (λ detail. label_with (Some (codes "a<b")) detail bar_of_a_move)
        (Name ∷ Operation ∷ Pasid ∷ [])
        ≡ codes "12 a<b" ∷ codes "12 a<b move" ∷ codes "12 a<b move PASID 5" ∷ [] }
    ensures unknown { map (λ detail. label_with None detail (bar_from 12 None 2 None))
        (Name ∷ Operation ∷ Pasid ∷ [])
        ≡ codes "12" ∷ codes "12" ∷ codes "12" ∷ [] }
    ensures other_operation { operation_part (Some (record fill { op = 0xab }))
        ≡ codes " operation 0xab" }
    ensures narrow { map (λ own. bar_label_text (bar_from 100 None 2 None) own 2 3 209)
        (None ∷ Some (codes "a") ∷ [])
        ≡ [] ∷ [] ∷ [] }
    ensures wide { bar_label_text (bar_from 100 None 2 None) None 2 4 209
        ≡ codes "<text class=\"label\" x=\"142\" y=\"209\">100</text>" }
    ensures lengths { map (λ wide. label_of wide bar_of_a_move (Some (codes "a<b")))
        (13 ∷ 14 ∷ 37 ∷ 38 ∷ 67 ∷ 68 ∷ 115 ∷ 116 ∷ [])
        ≡ None ∷ Some (codes "12") ∷ Some (codes "12") ∷ Some (codes "12 a<b")
        ∷ Some (codes "12 a<b") ∷ Some (codes "12 a<b move") ∷ Some (codes "12 a<b move")
        ∷ Some (codes "12 a<b move PASID 5") ∷ [] }
    ensures too_long { map (λ wide. label_of wide bar_of_a_move (Some (replicate 40 97)))
        (43 ∷ 44 ∷ 92 ∷ 259 ∷ [])
        ≡ Some (codes "12") ∷ Some (codes "12 move") ∷ Some (codes "12 move PASID 5")
        ∷ Some (codes "12 move PASID 5") ∷ [] }
    ensures escaped { bar_label_text bar_of_a_move (Some (codes "a<b")) 2 5 209
        ≡ codes "<text class=\"label\" x=\"142\" y=\"209\">12 a&lt;b</text>" }
    ensures wider { map (λ end. bar_label_text bar_of_a_move None 2 end 209) (5 ∷ 6 ∷ 8 ∷ 9 ∷ [])
        ≡ codes "<text class=\"label\" x=\"142\" y=\"209\">12</text>"
        ∷ codes "<text class=\"label\" x=\"142\" y=\"209\">12 move</text>"
        ∷ codes "<text class=\"label\" x=\"142\" y=\"209\">12 move</text>"
        ∷ codes "<text class=\"label\" x=\"142\" y=\"209\">12 move PASID 5</text>" ∷ [] }
{}

/// The rows of the engines of a run: of an engine without steps there are none.
#[tactic(auto, unfolding(crate::specs::Worked::drawn_on_literals))]
pub fn engines_of_a_run()
    ensures has { (levels : Vec Level Global)
        → map (λ engine. has_steps engine (moments_of_a_batch levels)) (0 ∷ 1 ∷ [])
        ≡ false ∷ true ∷ [] }
    ensures marks { (levels : Vec Level Global)
        → engine_marks_text 1 200 0 (moments_of_a_batch levels)
        ≡ codes "<circle class=\"done\" cx=\"133\" cy=\"208\" r=\"3\"/>\n<circle class=\"done\""
        ++ codes " cx=\"147\" cy=\"208\" r=\"3\"/>\n<circle class=\"done\" cx=\"161\" cy=\"208\""
        ++ codes " r=\"3\"/>\n<circle class=\"done\" cx=\"175\" cy=\"208\" r=\"3\"/>\n" }
    ensures none { (levels : Vec Level Global)
        → engine_part_text 0 (whole_run 5) 200 (moments_of_a_batch levels) []
        ≡ [] }
    ensures ends { (levels : Vec Level Global)
        → map (λ engine. engine_end engine (whole_run 5) 200 (moments_of_a_batch levels) [])
        (0 ∷ 1 ∷ [])
        ≡ 200 ∷ 226 ∷ [] }
    ensures end { (levels : Vec Level Global)
        → engines_end (whole_run 5) 200 (0 ∷ 1 ∷ []) (moments_of_a_batch levels) []
        ≡ 226 }
    ensures text { (levels : Vec Level Global)
        → engines_text (whole_run 5) 200 (0 ∷ 1 ∷ []) (moments_of_a_batch levels) []
        ≡ codes "<text x=\"4\" y=\"211\">engine 1</text>\n<circle class=\"done\" cx=\"133\" cy="
        ++ codes "\"208\" r=\"3\"/>\n<circle class=\"done\" cx=\"147\" cy=\"208\" r=\"3\"/>\n<ci"
        ++ codes "rcle class=\"done\" cx=\"161\" cy=\"208\" r=\"3\"/>\n<circle class=\"done\" cx"
        ++ codes "=\"175\" cy=\"208\" r=\"3\"/>\n<path class=\"grid\" d=\"M112 222h70\"/>\n" }
{}

/// The phases of the device and of queues, and a line for each stretch of steps that has one.
#[tactic(auto, unfolding(crate::specs::Worked::drawn_on_literals))]
pub fn phases()
    ensures on { map (is_same_phase On) (Off ∷ On ∷ Stopping ∷ []) ≡ false ∷ true ∷ false ∷ [] }
    ensures off { map (is_same_phase Off) (Off ∷ On ∷ Stopping ∷ []) ≡ true ∷ false ∷ false ∷ [] }
    ensures stopping { map (is_same_phase Stopping) (Off ∷ On ∷ Stopping ∷ [])
        ≡ false ∷ false ∷ true ∷ [] }
    ensures of_queues { map phase_of_queue
        (None ∷ Some (level 1 2 3) ∷ Some (record (level 1 2 3) { phase = Some Stopping }) ∷ [])
        ≡ Off ∷ Off ∷ Stopping ∷ [] }
    ensures at_a_moment { (memory : Global)
        → map (λ holder. phase_in holder (moment_of_a_device memory))
        (holder.Device ∷ holder.Queue 0 ∷ holder.Queue 1 ∷ [])
        ≡ On ∷ Stopping ∷ Off ∷ [] }
    ensures lines { (levels : Vec Level Global)
        → phases_text holder.Device 136
        (map (moment_in_phase levels) (Off ∷ On ∷ On ∷ Stopping ∷ []))
        ≡ codes "<path class=\"on\" d=\"M126 136h28\"><title>device on</title></path>\n<path class="
        ++ codes "\"stopping\" d=\"M154 136h14\"><title>device stopping</title></path>\n" }
    ensures twice { (levels : Vec Level Global)
        → phases_text holder.Device 136 (map (moment_in_phase levels) (On ∷ Off ∷ On ∷ Off ∷ []))
        ≡ codes "<path class=\"on\" d=\"M112 136h14\"><title>device on</title></path>\n<path class="
        ++ codes "\"on\" d=\"M140 136h14\"><title>device on</title></path>\n" }
    ensures none { phases_text (holder.Queue 4) 136 [] ≡ [] }
{}

/// The names of rows again, in every hundredth column after the first.
#[tactic(auto, unfolding(crate::specs::Worked::drawn_on_literals))]
pub fn names_again()
    ensures short { map (λ steps. again_text (codes "queue") (Some 4) steps 152) (0 ∷ 1 ∷ 100 ∷ [])
        ≡ [] ∷ [] ∷ [] ∷ [] }
    ensures longer { again_text (codes "queue") (Some 4) 101 152
        ≡ codes "<text class=\"again\" x=\"1514\" y=\"163\">queue 4</text>\n" }
    ensures twice { again_text (codes "clients") None 201 96
        ≡ codes "<text class=\"again\" x=\"1514\" y=\"107\">clients</text>\n<text class=\"again\" "
        ++ codes "x=\"2914\" y=\"107\">clients</text>\n" }
    ensures of_an_engine { engine_name_text 3 101 200
        ≡ codes "<text x=\"4\" y=\"211\">engine 3</text>\n<text class=\"again\" x=\"1514\" y=\"211"
        ++ codes "\">engine 3</text>\n" }
    ensures above { names_again_text 101
        ≡ codes "<text class=\"again\" x=\"1514\" y=\"107\">clients</text>\n<text class=\"again\" "
        ++ codes "x=\"1514\" y=\"123\">administrator</text>\n<"
        ++ codes "text class=\"again\" x=\"1514\" y=\"13"
        ++ codes "9\">device</text>\n<text class=\"again\" x=\"1514\" y=\"155\">active</text>\n<tex"
        ++ codes "t class=\"again\" x=\"1514\" y=\"171\">fates</text>\n" }
{}

/// The texts of ranges of steps.
#[tactic(auto, unfolding(crate::specs::Worked::drawn_on_literals))]
pub fn ranges()
    ensures both { range_of_text (codes "12..40") ≡ Some (record { first = 12; end = 41 }) }
    ensures one { range_of_text (codes "7..7") ≡ Some (record { first = 7; end = 8 }) }
    ensures open_end { range_of_text (codes "12..")
        ≡ Some (record { first = 12; end = 4294967295 }) }
    ensures open_begin { range_of_text (codes "..40") ≡ Some (record { first = 0; end = 41 }) }
    ensures open_both { range_of_text (codes "..") ≡ Some all_steps }
    ensures largest { map range_of_text
        (codes "4294967295..4294967295" ∷ codes "4294967295.." ∷ [])
        ≡ replicate 2 (Some (record { first = 4294967295; end = 4294967295 })) }
    ensures none { map range_of_text
        ([] ∷ codes "12" ∷ codes "1.49" ∷ codes "1.-9" ∷ codes "1-.9" ∷ codes "40..12"
        ∷ codes "1..2..3" ∷ codes "+1..2" ∷ codes "1..:" ∷ codes "..4294967296" ∷ [])
        ≡ replicate 10 None }
    ensures within { map (within 9)
        (record { first = 2; end = 5 } ∷ all_steps ∷ record { first = 11; end = 12 } ∷ [])
        ≡ record { first = 2; end = 5 } ∷ record { first = 0; end = 9 }
        ∷ record { first = 9; end = 9 } ∷ [] }
    ensures columns { map (column_of (record { first = 2; end = 5 })) (1 ∷ 2 ∷ 4 ∷ 5 ∷ 6 ∷ [])
        ≡ 0 ∷ 0 ∷ 2 ∷ 3 ∷ 3 ∷ [] }
    ensures inside { map (is_in_range (record { first = 2; end = 5 }) 3) (4 ∷ 9 ∷ [])
        ≡ true ∷ true ∷ [] }
    ensures before { map (is_in_range (record { first = 2; end = 5 }) 0) (2 ∷ 3 ∷ [])
        ≡ false ∷ true ∷ [] }
    ensures after { map (λ begin. is_in_range (record { first = 2; end = 5 }) begin 9) (4 ∷ 5 ∷ [])
        ≡ true ∷ false ∷ [] }
    ensures titles { map run_title_text
        (whole_run 9 ∷ steps_two_to_four ∷ some_of_a_run 2 3 9 ∷ some_of_a_run 1 1 1 ∷ [])
        ≡ codes "<title>Run of 9 steps" ∷ codes "<title>3 steps from step 2 of a run of 9 steps"
        ∷ codes "<title>1 step from step 2 of a run of 9 steps"
        ∷ codes "<title>0 steps from step 1 of a run of 1 step" ∷ [] }
    ensures numbers { (levels : Vec Level Global)
        → map (λ moment. moment.number)
        (moments_in (record { first = 2; end = 4 }) (numbered 0 (moments_of_a_batch levels)))
        ≡ 2 ∷ 3 ∷ [] }
    ensures past { (levels : Vec Level Global)
        → moments_in (record { first = 7; end = 9 }) (moments_of_a_batch levels)
        ≡ [] }
    ensures ended { (levels : Vec Level Global)
        → map (λ first. ended_before (record { first = first; end = 9 })
        (moments_of_a_batch levels))
        (0 ∷ 4 ∷ 5 ∷ 7 ∷ [])
        ≡ 0 ∷ 0 ∷ 1 ∷ 0 ∷ [] }
    ensures bars { map (λ bar. boxes_text steps_two_to_four bar None 200)
        (bar_from 7 None 0 (end_at 3 (Completed 1)) ∷ bar_from 7 None 3 None ∷ [])
        ≡ (codes "<rect class=\"success\" x=\"112\" y=\"200\" width=\"14\" height=\"11\" rx=\"2\"/"
        ++ codes "><text class=\"label\" x=\"114\" y=\"209\">7</text>")
        ∷ (codes "<rect class=\"held\" x=\"126\" y=\"200\" wid"
        ++ codes "th=\"28\" height=\"11\" rx=\"2\"/><tex"
        ++ codes "t class=\"label\" x=\"128\" y=\"209\">7</text>")
        ∷ [] }
    ensures shown { map (λ begin. is_shown 1 steps_two_to_four (bar_from 7 None begin None))
        (4 ∷ 5 ∷ [])
        ≡ true ∷ false ∷ [] }
    ensures waits { waits_text steps_two_to_four
        (record { command = DrainPasid 5; begin = 0; end = Some 2 }
        ∷ record { command = DrainPasid 5; begin = 3; end = None } ∷ [])
        ≡ codes "<g><title>drain-pasid 5, active from step 3: still active after 5 steps</title><re"
        ++ codes "ct class=\"active\" x=\"126\" y=\"146\" widt"
        ++ codes "h=\"28\" height=\"11\" rx=\"2\"/></g>\n" }
{}

/// Which commands were active, until which poll, and their bars.
#[tactic(auto, unfolding(crate::specs::Worked::drawn_on_literals))]
pub fn active()
    ensures active { map active_in
        (drain_issued
        ∷ stepped (event.Issue EnableDevice) (reply.Issue (Ended 0))
        ∷ stepped event.Poll (reply.Poll poll.Active)
        ∷ Refused no_command
        ∷ [])
        ≡ Some (DrainPasid 5) ∷ None ∷ None ∷ None ∷ [] }
    ensures ends { map reports_end
        (stepped event.Poll (reply.Poll poll.Finished)
        ∷ stepped event.Poll (reply.Poll poll.Active)
        ∷ drain_issued
        ∷ Refused no_command
        ∷ [])
        ≡ true ∷ false ∷ false ∷ false ∷ [] }
    ensures finished { (levels : Vec Level Global)
        → waits_from 0 (moments_of_a_drain levels)
        ≡ record { command = DrainPasid 5; begin = 1; end = Some 3 } ∷ [] }
    ensures still_active { (levels : Vec Level Global)
        → waits_from 6 (take 3 (moments_of_a_drain levels))
        ≡ record { command = DrainPasid 5; begin = 7; end = None } ∷ [] }
    ensures two { (levels : Vec Level Global)
        → waits_from 0 (moments_of_a_drain levels ++ moments_of_a_drain levels)
        ≡ record { command = DrainPasid 5; begin = 1; end = Some 3 }
        ∷ record { command = DrainPasid 5; begin = 5; end = Some 7 } ∷ [] }
    ensures phrases { map (wait_phrase 9 1) (None ∷ Some 2 ∷ Some 4 ∷ [])
        ≡ codes ": still active after 7 steps" ∷ codes " to 2: finished after 1 step"
        ∷ codes " to 4: finished after 3 steps" ∷ [] }
    ensures one_step { wait_phrase 3 1 None ≡ codes ": still active after 1 step" }
    ensures labels { map (λ pasid. wait_label_text 2 8 (DrainPasid pasid)) (5 ∷ 12 ∷ [])
        ≡ codes "<text class=\"label\" x=\"142\" y=\"155\">drain-pasid 5</text>" ∷ [] ∷ [] }
    ensures narrow { waits_text (whole_run 9)
        (record { command = DrainPasid 5; begin = 1; end = Some 3 }
        ∷ record { command = DrainPasid 6; begin = 4; end = Some 5 } ∷ [])
        ≡ codes "<g><title>drain-pasid 5, active from step 1 to 3: finished after 2 steps</title><r"
        ++ codes "ect class=\"active\" x=\"126\" y=\"146\" width=\"28\" height=\"11\" rx=\"2\"/></"
        ++ codes "g>\n<g><title>drain-pasid 6, active from "
        ++ codes "step 4 to 5: finished after 1 step</title>"
        ++ codes "<rect class=\"active\" x=\"168\" y=\"146\" width=\"14\" height=\"11\" rx=\"2\"/>"
        ++ codes "</g>\n" }
    ensures wide { waits_text (whole_run 9)
        (record { command = DrainPasid 5; begin = 1; end = None } ∷ [])
        ≡ codes "<g><title>drain-pasid 5, active from step 1: still active after 7 steps</title><re"
        ++ codes "ct class=\"active\" x=\"126\" y=\"146\" width=\"112\" height=\"11\" rx=\"2\"/><t"
        ++ codes "ext class=\"label\" x=\"128\" y=\"155\">drain-pasid 5</text></g>\n" }
    ensures above { (levels : Vec Level Global)
        → rows_above_text (whole_run 101) [] (moment_of levels drain_issued None 0 ∷ [])
        ≡ names_above_text 101
        ++ (codes "<text transform=\"translate(122 76) rotate(-60)\">drain-pasid 5</text>\n<circl"
        ++ codes "e c"
        ++ (codes "lass=\"wait\" cx=\"119\" cy=\"120\" r=\"3\"/>\n<g><title>drain-pasid 5, active "
        ++ (codes "from step 0: still active after 100 steps"
        ++ codes "</title><rect class=\"active\" x=\"112\" "
        ++ (codes "y=\"146\" width=\"1414\" height=\"11\" r"
        ++ codes "x=\"2\"/><text class=\"label\" x=\"114\" "
        ++ (codes "y=\"155\">drain-pasid 5</text></g>\n" ++ names_again_text 101))))) }
{}

/// What is filled of a queue and of a group, the lines of a band, and the bars and the batches of
/// one engine.
#[tactic(auto, unfolding(crate::specs::Worked::drawn_on_literals))]
pub fn levels_and_lines()
    ensures line { line_text 200 4 (queue_band 0) Filled []
        ≡ codes "<path class=\"filled\" d=\"M112 200M112 200V200Z\"/>\n" }
    ensures mark_line { line_text 200 4 (queue_band 0) Mark []
        ≡ codes "<path class=\"mark\" d=\"M112 200M112 200\"/>\n" }
    ensures band { (memory : Global)
        → band_text 101 152 (level 5 8 16) (queue_band 0)
        (moment_of_a_story memory 0 (idle_step 0) 8 On 0 ∷ [])
        ≡ codes "<path class=\"frame\" d=\"M112 152H1526V200H112Z\"/>\n<path class=\"filled\" d=\""
        ++ codes "M112 200M112 200V176H126V200Z\"/>\n<path "
        ++ codes "class=\"mark\" d=\"M112 200M112 200V191H1"
        ++ codes "26\"/>\n<path class=\"limit\" d=\"M112 20"
        ++ codes "0M112 200V188H126\"/>\n<text x=\"4\" y=\""
        ++ codes "163\">queue 0</text>\n<text x=\"4\" y=\"1"
        ++ codes "76\">0 to 16</text>\n<text x=\"4\" y=\"18"
        ++ codes "9\">peak 5</text>\n<path class=\"on\" d=\""
        ++ codes "M112 150h14\"><title>queue 0 on</title></"
        ++ codes "path>\n<text class=\"again\" x=\"1514\" y=\"163\">queue 0</text>\n" }
    ensures two_levels { path_text 200 4 (3 ∷ 1 ∷ []) ≡ codes "M112 200M112 200V164H126V188H140" }
    ensures level { map (queue_level_of (standing caps_of_a_run 9 (take 6 records_of_a_run)))
        (0 ∷ 1 ∷ [])
        ≡ record (level 1 8 16) { phase = Some On } ∷ record (level 0 0 0) { phase = Some Off }
        ∷ [] }
    ensures dedicated { map queue_mark
        (queue_of_a_run ∷ record queue_of_a_run { dedicated = true } ∷ [])
        ≡ 8 ∷ 0 ∷ [] }
    ensures group { map (group_level_of (standing caps_of_a_run 9 (take 7 records_of_a_run)))
        (0 ∷ 1 ∷ [])
        ≡ level 1 0 32 ∷ level 0 0 0 ∷ [] }
    ensures no_batch { batch_after (standing caps_of_a_run 9 (take 7 records_of_a_run))
        (stepped (event.Dispatch 0) (reply.Poll Nothing))
        ≡ None }
    ensures other_engine { bars_text 1 five_lanes []
        (record (bar_from 12 None 2 None) { engine = 0 } ∷ bar_from 100 None 8 None ∷ [])
        ≡ codes "<g><title>entry 100, on e1 from step 8, still held</title><rect class=\"held\" x="
        ++ codes "\"224\" y=\"200\" width=\"14\" height=\"11\" rx=\"2\"/></g>\n" }
    ensures two_batches { batches_text 1 five_lanes
        (bar_from 11 None 2 None
        ∷ record (bar_from 12 None 2 (end_at 8 Abandoned)) { is_batch = true } ∷ [])
        ≡ codes "<rect class=\"batch\" x=\"140\" y=\"200\" width=\"84\" height=\"65\"><title>ba"
        ++ codes "tch of e1: batch 12 and its members</title></rect>\n" }
    ensures fates { map class_of_fate (Completed 0 ∷ Completed 2 ∷ [])
        ≡ codes "failure" ∷ codes "failure" ∷ [] }
    ensures marks { map fate_mark (Completed 0 ∷ Completed 2 ∷ []) ≡ Failed ∷ Failed ∷ [] }
{}

/// An engine with a batch and its member, the rows above it, and numbers beside their bounds.
#[tactic(auto, unfolding(crate::specs::Worked::drawn_on_literals))]
pub fn drawn_together()
    ensures engine_of_a_batch { (levels : Vec Level Global)
        → engine_part_text 1 (whole_run 5) 200 (moments_of_a_batch levels)
        (bar_from 9 None 1 None ∷ record (bar_from 0 None 1 None) { is_batch = true }
        ∷ record (bar_from 1 (Some 0) 2 (end_at 4 (Completed 1))) { started = Some 3 } ∷ [])
        ≡ codes "<text x=\"4\" y=\"211\">engine 1</text>\n<circle class=\"done\" cx=\"133\" cy=\"20"
        ++ codes "8\" r=\"3\"/>\n<circle class=\"done\" cx=\"147\" cy=\"208\" r=\"3\"/>\n<circle c"
        ++ codes "lass=\"done\" cx=\"161\" cy=\"208\" r=\"3\"/>\n<circle class=\"done\" cx=\"175\""
        ++ codes " cy=\"208\" r=\"3\"/>\n<rect class=\"batch\" x=\"126\" y=\"231\" width=\"56\" he"
        ++ codes "ight=\"26\"><title>batch of e1: batch 0 and its members</title></rect>\n<g><titl"
        ++ codes "e>entry 9, on e1 from step 1, still held</title><rect class=\"held\" x=\"126\" y"
        ++ codes "=\"218\" width=\"56\" height=\"11\" rx=\"2\"/><text class=\"label\" x=\"128\" y="
        ++ codes "\"227\">9</text></g>\n<g><title>batch 0, on e1 from step 1, still held</title><r"
        ++ codes "ect class=\"held\" x=\"126\" y=\"231\" width=\"56\" height=\"11\" rx=\"2\"/><tex"
        ++ codes "t class=\"label\" x=\"128\" y=\"240\">0</text></g>\n<g><title>entry 1, member of"
        ++ codes " batch 0, on e1 from step 2 to 4: completed 01</title><rect class=\"waits\" x=\""
        ++ codes "140\" y=\"244\" width=\"14\" height=\"11\" rx=\"2\"/><rect class=\"success\" x="
        ++ codes "\"154\" y=\"244\" width=\"14\" height=\"11\" rx=\"2\"/><text class=\"label\" x="
        ++ codes "\"142\" y=\"253\">1</text></g>\n<path class=\"grid\" d=\"M112 261h70\"/>\n" }
    ensures above_with_names { (levels : Vec Level Global)
        → rows_above_text (whole_run 4) (ended_row 1 (Completed 1) ∷ [])
        (moment_of levels (stepped (event.Issue EnableDevice) (reply.Issue (Ended 0))) None 1 ∷ [])
        ≡ codes "<text x=\"4\" y=\"91\">step</text>\n<text x=\"4\" y=\"107\">clients</text>\n<text "
        ++ codes "x=\"4\" y=\"123\">administrator</text>\n<text x=\"4\" y=\"139\">device</text>\n<"
        ++ codes "text x=\"4\" y=\"155\">active</text>\n<text x=\"4\" y=\"171\">fates</text>\n<pat"
        ++ codes "h class=\"grid\" d=\"M112 96h56\"/>\n<path class=\"grid\" d=\"M112 112h56\"/>\n<"
        ++ codes "path class=\"grid\" d=\"M112 128h56\"/>\n<path class=\"grid\" d=\"M112 144h56\"/"
        ++ codes ">\n<path class=\"grid\" d=\"M112 160h56\"/>\n<text transform=\"translate(122 76)"
        ++ codes " rotate(-60)\">enable-device</text>\n<circle class=\"done\" cx=\"119\" cy=\"120"
        ++ codes "\" r=\"3\"/>\n<g><title>step 0\nfate 1 - completed 01\n</title><rect class=\"col"
        ++ codes "umn\" x=\"112\" y=\"160\" width=\"14\" height=\"16\"/><circle class=\"done\" cx="
        ++ codes "\"119\" cy=\"168\" r=\"3\"/>\n</g>\n" }
    ensures batch_names { map (is_batch_named 3) (None ∷ Some 2 ∷ Some 3 ∷ Some 4 ∷ [])
        ≡ false ∷ false ∷ true ∷ false ∷ [] }
    ensures statuses { map reply_mark
        (reply.Finish (finish.Done 0) ∷ reply.Finish (finish.Done 2) ∷ [])
        ≡ Failed ∷ Failed ∷ [] }
    ensures levels { map (λ filled. level_with filled 3 4) (Some 2 ∷ None ∷ [])
        ≡ level 2 3 4 ∷ level 0 3 4 ∷ [] }
    ensures full_at_one { path_text 200 1 (1 ∷ []) ≡ codes "M112 200M112 200V152H126" }
    ensures first_step { fifth_text 300 1 1 ≡ [] }
    ensures count { (levels : Vec Level Global)
        → step_count (moments_of_a_batch levels)
        ≡ 5 }
    ensures later { fates_text 4 6 (ended_row 4 (Completed 1) ∷ ended_row 5 Abandoned ∷ [])
        ≡ codes "<g><title>step 6\nfate 4 - completed 01\nfate 5 - abandoned\n</title><rect class="
        ++ codes "\"column\" x=\"168\" y=\"160\" width=\"14\" height=\"16\"/><text class=\"label\""
        ++ codes " x=\"170\" y=\"183\">2</text><path class=\"failed\" d=\"M172 165l6 6m0-6l-6 6\"/"
        ++ codes ">\n</g>\n" }
{}

/// The whole drawing of a story: two engines of three that made steps, one queue of four bands, and
/// the numbers that place its parts.
#[tactic(auto, unfolding(crate::specs::Worked::drawn_on_literals))]
pub fn drawings()
    ensures levels { (memory : Global)
        → map (λ band. map (level_in band) (moments_with_levels memory))
        (queue_band 1 ∷ group_band 0 ∷ group_band 1 ∷ [])
        ≡ (level 1 3 8 ∷ level 4 3 8 ∷ []) ∷ (level 2 4 6 ∷ level 6 4 6 ∷ [])
        ∷ (level 0 0 0 ∷ level 0 0 0 ∷ []) ∷ [] }
    ensures peaks { (memory : Global)
        → map (λ band. peaks_of band (moments_with_levels memory))
        (queue_band 1 ∷ group_band 0 ∷ group_band 1 ∷ [])
        ≡ level 4 3 8 ∷ level 6 4 6 ∷ level 0 0 0 ∷ [] }
    ensures bands_end { (memory : Global)
        → bands_end 152 (queue_band 0 ∷ queue_band 1 ∷ group_band 0 ∷ [])
        (moments_with_levels memory)
        ≡ 264 }
    ensures bands { (memory : Global)
        → bands_text 2 152 (queue_band 0 ∷ queue_band 1 ∷ group_band 0 ∷ [])
        (moments_with_levels memory)
        ≡ codes "<path class=\"frame\" d=\"M112 152H140V200H112Z\"/>\n<path class=\"filled\" d=\""
        ++ codes "M112 200M112 200V194H126V176H140V200Z\"/>\n<path class=\"mark\" d=\"M112 200M11"
        ++ codes "2 200V182H140\"/>\n<path class=\"limit\" d=\"M112 200M112 200V152H140\"/>\n<tex"
        ++ codes "t x=\"4\" y=\"163\">queue 1</text>\n<text x=\"4\" y=\"176\">0 to 8</text>\n<tex"
        ++ codes "t x=\"4\" y=\"189\">peak 4</text>\n<path class=\"frame\" d=\"M112 208H140V256H1"
        ++ codes "12Z\"/>\n<path class=\"filled\" d=\"M112 256M112 256V240H126V208H140V256Z\"/>\n"
        ++ codes "<path class=\"mark\" d=\"M112 256M112 256V224H140\"/>\n<path class=\"limit\" d="
        ++ codes "\"M112 256M112 256V208H140\"/>\n<text x=\"4\" y=\"219\">buffers 0</text>\n<text"
        ++ codes " x=\"4\" y=\"232\">0 to 6</text>\n<text x=\"4\" y=\"245\">peak 6</text>\n" }
    ensures steps { (memory : Global)
        → step_count (replicate 1024 (moment_of_a_device memory))
        ≡ 1024 }
    ensures story_bands_end { (memory : Global)
        → story_bands_end all_steps (story memory)
        ≡ 246 }
    ensures height { (memory : Global)
        → story_height all_steps (story memory)
        ≡ 311 }
    ensures story { (memory : Global)
        → drawing_text all_steps (story memory)
        ≡ codes "<svg xmlns=\"http://www.w3.org/2000/svg\" width=\"210\" height=\"546\" viewBox=\"0"
        ++ codes " -28 210 546\" role=\"img\">\n<title>Run of 3 steps</title>\n"
        ++ (description_text
        ++ (style_text
        ++ codes "<rect class=\"sheet\" y=\"-28\" width=\"210\" height=\"546\"/>\n<path class=\"gri"
        ++ codes "d\" d=\"M112 80v231\"/>\n<text x=\"114\" y=\"91\">0</text>\n<rect class=\"column"
        ++ codes "\" x=\"112\" y=\"80\" width=\"14\" height=\"231\"><title>step 0: dispatch e0 -&g"
        ++ codes "t; idle</title></rect>\n<rect class=\"column\" x=\"126\" y=\"80\" width=\"14\" he"
        ++ codes "ight=\"231\"><title>step 1: fetch e1 fill 0 bytes -&gt; fetched 0</title></rect>"
        ++ codes "\n<rect class=\"column\" x=\"140\" y=\"80\" width=\"14\" height=\"231\"><title>st"
        ++ codes "ep 2: fetch e2 fill 0 bytes -&gt; fetched 1</title></rect>\n<text x=\"4\" y=\"91\">step</text"
        ++ codes ">\n<text x=\"4\" y=\"107\">clients</text>\n<text x=\"4\" y=\"123\">administrator"
        ++ codes "</text>\n<text x=\"4\" y=\"139\">device</text>\n<text x=\"4\" y=\"155\">active</"
        ++ codes "text>\n<text x=\"4\" y=\"171\">fates</text>\n<path class=\"grid\" d=\"M112 96h42"
        ++ codes "\"/>\n<path class=\"grid\" d=\"M112 112h42\"/>\n<path class=\"grid\" d=\"M112 12"
        ++ codes "8h42\"/>\n<path class=\"grid\" d=\"M112 144h42\"/>\n<path class=\"grid\" d=\"M11"
        ++ codes "2 160h42\"/>\n<g><title>step 2\nfate 0 7 completed 01\n</title><rect class=\"col"
        ++ codes "umn\" x=\"140\" y=\"160\" width=\"14\" height=\"16\"/><circle class=\"done\" cx="
        ++ codes "\"147\" cy=\"168\" r=\"3\"/>\n</g>\n<path class=\"on\" d=\"M112 141h42\"><title>"
        ++ codes "device on</title></path>\n<path class=\"frame\" d=\"M112 190H154V238H112Z\"/>\n<"
        ++ codes "path class=\"filled\" d=\"M112 238M112 238V226H126V214H140V226H154V238Z\"/>\n<pa"
        ++ codes "th class=\"mark\" d=\"M112 238M112 238V202H154\"/>\n<path class=\"limit\" d=\"M1"
        ++ codes "12 238M112 238V190H154\"/>\n<text x=\"4\" y=\"201\">queue 0</text>\n<text x=\"4"
        ++ codes "\" y=\"214\">0 to 4</text>\n<text x=\"4\" y=\"227\">peak 2</text>\n<path class="
        ++ codes "\"on\" d=\"M112 188h28\"><title>queue 0 on</title></path>\n<path class=\"stoppin"
        ++ codes "g\" d=\"M140 188h14\"><title>queue 0 stopping</title></path>\n<text x=\"4\" y=\""
        ++ codes "257\">engine 0</text>\n<circle class=\"wait\" cx=\"119\" cy=\"254\" r=\"3\"/>\n<"
        ++ codes "path class=\"grid\" d=\"M112 268h42\"/>\n<text x=\"4\" y=\"283\">engine 1</text>"
        ++ codes "\n<circle class=\"done\" cx=\"133\" cy=\"280\" r=\"3\"/>\n<g><title>entry 0, mem"
        ++ codes "ber of batch 7, on e1 from step 1 to 2: completed 01</title><rect class=\"waits"
        ++ codes "\" x=\"126\" y=\"290\" width=\"14\" height=\"11\" rx=\"2\"/><text class=\"label"
        ++ codes "\" x=\"128\" y=\"299\">0</text></g>\n<path class=\"grid\" d=\"M112 307h42\"/>\n<"
        ++ codes "g transform=\"translate(0 311)\">\n"
        ++ (shapes_text ++ codes "</g>\n</svg>\n"))) }
{}

/// Bars of an engine whose number is not that of a step, a name or a cell, of one batch of two, and
/// of an entry that ended with the first step.
#[tactic(auto, unfolding(crate::specs::Worked::drawn_on_literals))]
pub fn bars_of_numbers()
    ensures engines { map engine_of_actor (Client 3 ∷ Admin ∷ Engine 2 ∷ []) ≡ 0 ∷ 0 ∷ 2 ∷ [] }
    ensures clients { map client_of_actor (Client 3 ∷ Admin ∷ Engine 2 ∷ [])
        ≡ Some 3 ∷ None ∷ None ∷ [] }
    ensures client { map (λ name. submitter_in name (Some 3 ∷ None ∷ Some 4 ∷ []))
        (0 ∷ 1 ∷ 2 ∷ 3 ∷ [])
        ≡ Some 3 ∷ None ∷ Some 4 ∷ None ∷ [] }
    ensures tickets { map ticket_brought
        (reply.Submit (submit.Accepted (record_ticket 3 6))
        ∷ reply.Dispatch (dispatch.Taken (record_ticket 3 6) 0)
        ∷ reply.Fetch (fetch.Fetched (record_ticket 4 7))
        ∷ reply.Start (start.Started (record_ticket 4 7)) ∷ [])
        ≡ None ∷ Some (record_ticket 3 6) ∷ Some (record_ticket 4 7) ∷ None ∷ [] }
    ensures descriptors { map (desc_brought device_of_a_drawing)
        (stepped (event.Dispatch 1) (reply.Dispatch (dispatch.Taken (record_ticket 3 6) 0))
        ∷ stepped (event.Dispatch 1) (reply.Dispatch (dispatch.Taken (record_ticket 4 6) 0))
        ∷ idle_step 1
        ∷ Refused no_command
        ∷ [])
        ≡ Some fill ∷ None ∷ None ∷ None ∷ [] }
    ensures own_names { map (own_brought
        ((5, codes "a") ∷ (6, codes "b") ∷ (7, codes "c") ∷ (6, codes "d") ∷ []))
        (stepped (event.Dispatch 1) (reply.Dispatch (dispatch.Taken (record_ticket 5 6) 0))
        ∷ stepped (event.Fetch 1 fill) (reply.Fetch (fetch.Fetched (record_ticket 5 7)))
        ∷ stepped (event.Fetch 1 fill) (reply.Fetch (fetch.Fetched (record_ticket 5 8)))
        ∷ stepped (event.Start 1) (reply.Start (start.Started (record_ticket 5 6)))
        ∷ Refused no_command
        ∷ [])
        ≡ Some (codes "b") ∷ Some (codes "c") ∷ None ∷ None ∷ None ∷ [] }
    ensures of_names { (levels : Vec Level Global)
        → bars_of (moments_of_a_third_name levels)
        (record (ended_row 3 (Completed 1)) { parent = Some 2 } ∷ ended_row 2 (Completed 3) ∷ [])
        ≡ record (bar_from 2 None 3 (end_at 6 (Completed 3)))
        { engine = 7; client = Some 0; is_batch = true }
        ∷ record (bar_from 3 (Some 2) 4 (end_at 6 (Completed 1))) { engine = 7; started = Some 5 }
        ∷ [] }
    ensures first_step { (levels : Vec Level Global)
        → bars_of
        (moment_of levels
        (stepped (event.Fetch 7 fill) (reply.Fetch (fetch.Fetched (record_ticket 6 0)))) (Some 2) 1
        ∷ [])
        (ended_row 0 Abandoned ∷ [])
        ≡ record (bar_from 0 (Some 2) 0 (end_at 0 Abandoned)) { engine = 7; started = None } ∷ [] }
    ensures three_batches { batches_text 1 five_lanes
        (record (bar_from 12 None 2 (end_at 8 Abandoned)) { is_batch = true }
        ∷ record (bar_from 13 None 3 None) { engine = 0; is_batch = true }
        ∷ record (bar_from 14 None 4 None) { is_batch = true; lane = 1 } ∷ [])
        ≡ codes "<rect class=\"batch\" x=\"140\" y=\"200\" width=\"84\" height=\"65\"><title>bat"
        ++ codes "ch of e1: batch 12 and its members</title></rect>\n<rect class=\"batch\" x=\"16"
        ++ codes "8\" y=\"213\" width=\"70\" height=\"52\"><title>batch of e1: batch 14 and its m"
        ++ codes "embers</title></rect>\n" }
{}

/// What a moment and a story have of a device after a step, and moments, stories and texts that are
/// not of it, each by one part.
pub fn drawn_of_a_device()
    ensures moment { (memory : Global)
        → IsMomentOf step_of_a_device (moment_of_a_device memory) }
    ensures other_number { (memory : Global)
        → ¬ IsMomentOf (named_visit [] (record visit_of_a_device { number = 4 }))
        (moment_of_a_device memory) }
    ensures no_reason { (memory : Global)
        → ¬ IsMomentOf step_of_a_device (moment_with_reason memory (no_reason memory)) }
    ensures reason_after { (memory : Global)
        → ¬ IsMomentOf step_of_a_device
        (moment_with_reason memory
        (text_with_bytes memory of_no_group (lit≤ tt) no_group_is_utf8)) }
    ensures reason_of_a_poll { (memory : Global)
        → ¬ IsMomentOf step_of_a_device
        (moment_with_reason memory
        (text_with_bytes memory of_no_command (lit≤ tt) no_command_is_utf8)) }
    ensures other_phase { (memory : Global)
        → ¬ IsMomentOf step_of_a_device
        (record (moment_of_a_device memory) { phase = Stopping }) }
    ensures other_entry { (memory : Global)
        → ¬ IsMomentOf
        (named_visit []
        (record visit_of_a_device
        { entry = stepped (event.Dispatch 1) (reply.Dispatch dispatch.Full) }))
        (moment_of_a_device memory) }
    ensures other_queue { (memory : Global)
        → ¬ IsMomentOf step_of_a_device
        (record (moment_of_a_device memory) { queues = vector memory [] (lit≤ tt) }) }
    ensures other_groups { (memory : Global)
        → ¬ IsMomentOf step_of_a_device
        (record (moment_of_a_device memory) { groups = vector memory [] (lit≤ tt) }) }
    ensures other_batch { (memory : Global)
        → ¬ IsMomentOf step_of_a_device
        (record (moment_of_a_device memory) { batch = Some 3 }) }
    ensures other_descriptor { (memory : Global)
        → ¬ IsMomentOf step_of_a_device
        (record (moment_of_a_device memory) { desc = Some fill }) }
    ensures other_count { (memory : Global)
        → ¬ IsMomentOf step_of_a_device
        (record (moment_of_a_device memory) { ended = 1 }) }
    ensures named { (memory : Global)
        → IsMomentOf step_with_names (moment_with_names memory) }
    ensures no_note { (memory : Global)
        → ¬ IsMomentOf step_with_names
        (record (moment_with_names memory) { note = no_reason memory }) }
    ensures other_note { (memory : Global)
        → ¬ IsMomentOf step_of_a_device
        (record (moment_of_a_device memory) {
          note = text_with_bytes memory of_a_note (lit≤ tt) note_is_utf8;
        }) }
    ensures no_own_name { (memory : Global)
        → ¬ IsMomentOf step_with_names (record (moment_with_names memory) { own = None }) }
    ensures other_names { (memory : Global)
        → ¬ IsMomentOf (named_visit [] visit_with_names) (moment_with_names memory) }
    ensures moments { (memory : Global)
        → AreMoments (step_of_a_device ∷ []) (moment_of_a_device memory ∷ []) }
    ensures no_moment { AreMoments [] [] }
    ensures one_more { (memory : Global)
        → ¬ AreMoments [] (moment_of_a_device memory ∷ []) }
    ensures two_of_one_step { (memory : Global)
        → ¬ AreMoments (step_of_a_device ∷ [])
        (moment_of_a_device memory ∷ moment_of_a_device memory ∷ []) }
    ensures other_moment { (memory : Global)
        → ¬ AreMoments (step_of_a_device ∷ [])
        (record (moment_of_a_device memory) { ended = 1 } ∷ []) }
    ensures story { (memory : Global)
        → IsStoryOf (step_of_a_device ∷ []) device_of_a_drawing (story_of_a_device memory) }
    ensures other_caps { (memory : Global)
        → ¬ IsStoryOf (step_of_a_device ∷ []) device_of_a_drawing
        (record (story_of_a_device memory) { caps = caps_of_a_run }) }
    ensures other_story { (memory : Global)
        → ¬ IsStoryOf (step_of_a_device ∷ []) device_of_a_drawing
        (story_with memory (record (moment_of_a_device memory) { ended = 1 })) }
    ensures other_fates { (memory : Global)
        → ¬ IsStoryOf (step_of_a_device ∷ []) device_of_a_drawing
        (record (story_of_a_device memory) { fates = vector memory [] (lit≤ tt) }) }
    ensures drawn { (memory : Global)
        → IsDrawnOf all_steps (step_of_a_device ∷ []) device_of_a_drawing
        (drawing_text all_steps (story_of_a_device memory)) }
    ensures no_text { ¬ IsDrawnOf all_steps (step_of_a_device ∷ []) device_of_a_drawing [] }
    ensures text_of_a_step { (memory : Global)
        → ¬ IsDrawnOf all_steps [] device_of_a_drawing
        (drawing_text all_steps (story_of_a_device memory)) }
{}
