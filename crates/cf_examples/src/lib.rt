//! Worked runs: lists of entries with the answers of the calls. Each list is legal, and leaves what its report shows; wrong
//! lists are refused. The functions do nothing: their contracts are what is proved of the definitions.
#![tactic(auto)]

ghost use Rattle.cf_examples.specs.FirstResource as the_first_resource_run;
ghost use Rattle.cf_examples.specs.Replacement as a_replacement_run;
ghost use Rattle.cf_examples.specs.TakenName as a_taken_name_run;
ghost use Rattle.cf_examples.specs.FaultRepeated as a_fault_repeated_run;
ghost use Rattle.cf_examples.specs.NotUpdatable as an_update_becomes_a_replacement_run;
ghost use Rattle.cf_examples.specs.LateEffect as a_late_effect_run;
ghost use Rattle.cf_examples.specs.Skipped as a_skipped_update_run;
ghost use Rattle.cf_examples.specs.Reviewed as a_change_set_run;
ghost use Rattle.cf_examples.specs.Undeleted as an_undeleted_resource_run;
ghost use Rattle.cf_examples.specs.LostCreation as a_lost_creation_run;
ghost use Rattle.cf_examples.specs.RestoreRefused as a_refused_restore_run;
ghost use Rattle.cf_examples.specs.MadeAndTakenBack as an_update_taken_back_run;
ghost use Rattle.cf_examples.specs.Retained as a_retained_resource_run;
ghost use Rattle.cf_examples.specs.Nested as a_nested_stack_run;
ghost use Rattle.cf_examples.specs.Ends.{ReplacementIsComplete, LateEffectIsRestored, RollbackIsRestored, DeletionIsCleared, FailedDeletionIsBlamed, FailedRollbackIsBlamed, FailuresAreBlamed};
ghost use Rattle.cf_examples.specs.CrashedLife.{Crashes, GoesOn};
ghost use Rattle.cf_examples.specs.LateLife as the_late_life_run;
ghost use Rattle.cf_examples.specs.ContinuedLife as the_continued_life_run;
ghost use Rattle.cf_examples.specs.LeftOutLife as the_left_out_life_run;
ghost use Rattle.cf_examples.specs.StoppedLife as the_stopped_life_run;
ghost use Rattle.cf_examples.specs.PairedLife as the_paired_life_run;
ghost use Rattle.cf_examples.specs.PutBackLife as the_put_back_life_run;
ghost use Rattle.cf_examples.specs.DeletedLife as the_deleted_life_run;
ghost use Rattle.cf_examples.specs.FirstLife.{Acts, KeepsItsPromises, Lives, StartIsOne};
ghost use Rattle.cf_examples.specs.Pinned as a_pinned_export_run;
ghost use Rattle.cf_examples.specs.Site as a_site_deleted_run;
ghost use Rattle.cf_examples.specs.SiteKept as a_site_kept_run;
ghost use Rattle.cf_examples.specs.Always as always_told;
ghost use Rattle.cf_examples.specs.BrokenAgreement as agreements_told;
ghost use Rattle.cf_examples.specs.BrokenStacks as stacks_told;

/// A stack of one file: the whole world that is left is told. An update that changes nothing may not begin.
pub fn the_first_resource()
    ensures legal { the_first_resource_run.Legal }
    ensures leaves { the_first_resource_run.Leaves }
    ensures nothing_changes { the_first_resource_run.UpdatedThoughTheSame }
{}

/// A replacement with a dependent, and its cleanup; five wrong lists are refused.
pub fn a_replacement()
    ensures legal { a_replacement_run.Legal }
    ensures shows { a_replacement_run.Shows }
    ensures cleaned_too_early { a_replacement_run.CleanedTooEarly }
    ensures deleted_before_cleanup { a_replacement_run.DeletedBeforeCleanup }
    ensures new_id { a_replacement_run.NewIdIsLegal }
    ensures old_id_evaluated { a_replacement_run.OldIdEvaluated }
    ensures ended_under_another_number { a_replacement_run.EndedUnderAnotherNumber }
    ensures answered_under_another_number { a_replacement_run.AnsweredUnderAnotherNumber }
{}

/// A move onto a taken name, and the way back; a resource is not made anew.
pub fn a_taken_name()
    ensures legal { a_taken_name_run.Legal }
    ensures shows { a_taken_name_run.Shows }
    ensures made_anew { a_taken_name_run.MadeAnew }
{}

/// A fault after acting, repeated, then a restore.
pub fn a_fault_repeated()
    ensures legal { a_fault_repeated_run.Legal }
    ensures shows { a_fault_repeated_run.Shows }
{}

/// NotUpdatable at a conditional property: a new record is made, and the old one deleted in the cleanup.
pub fn an_update_becomes_a_replacement()
    ensures legal { an_update_becomes_a_replacement_run.Legal }
    ensures shows { an_update_becomes_a_replacement_run.Shows }
{}

/// A late effect, met by the first repeat in the rollback.
pub fn a_late_effect()
    ensures legal { a_late_effect_run.Legal }
    ensures shows { a_late_effect_run.Shows }
{}

/// An update that stays in doubt, and the continued rollback that skips it, after the next opening and no path but one
/// that failed; a change set then has a row for what is unsure.
pub fn a_skipped_update()
    ensures legal { a_skipped_update_run.Legal }
    ensures fails { a_skipped_update_run.Fails }
    ensures shows { a_skipped_update_run.Shows }
    ensures skips_another { a_skipped_update_run.SkipsAnother }
    ensures continued_at_once { a_skipped_update_run.ContinuedAtOnce }
    ensures reviewed { a_skipped_update_run.ReviewIsLegal }
    ensures unsure_left_out { a_skipped_update_run.UnsureLeftOut }
{}

/// A deletion with a retained resource.
pub fn a_retained_resource()
    ensures legal { a_retained_resource_run.Legal }
    ensures shows { a_retained_resource_run.Shows }
    ensures kept_too_early { a_retained_resource_run.KeptTooEarly }
{}

/// A nested stack; of two of its outputs that are at fault, the one that is named first is told; none of its conditions may
/// rest on what is known only while the stack is made; a stack that nests itself is too deep.
pub fn a_nested_stack()
    ensures legal { a_nested_stack_run.Legal }
    ensures shows { a_nested_stack_run.Shows }
    ensures first_named { a_nested_stack_run.FirstNamedIsTold }
    ensures flaw_told { a_nested_stack_run.FlawIsTold }
    ensures dynamic_condition { a_nested_stack_run.ConditionalIsRefused }
    ensures too_deep { a_nested_stack_run.TooDeepIsTold }
{}

/// An exported value that another stack imports stays, and its stack may not be deleted.
pub fn a_pinned_export()
    ensures legal { a_pinned_export_run.Legal }
    ensures shows { a_pinned_export_run.Shows }
    ensures changed_though_pinned { a_pinned_export_run.ChangedThoughPinned }
    ensures deleted_though_pinned { a_pinned_export_run.DeletedThoughPinned }
{}

/// A site with an exported value, a stack that imports it, and the deletion of both: the importing stack first, and of the
/// site what needs another resource before that, with one resource retained.
pub fn a_site_deleted()
    ensures legal { a_site_deleted_run.Legal }
    ensures shows_site { a_site_deleted_run.ShowsSite }
    ensures shows_user { a_site_deleted_run.ShowsUser }
    ensures shows_site_gone { a_site_deleted_run.ShowsSiteGone }
    ensures shows_user_gone { a_site_deleted_run.ShowsUserGone }
    ensures deleted_while_used { a_site_deleted_run.DeletedWhileUsed }
    ensures needed_deleted_first { a_site_deleted_run.NeededDeletedFirst }
    ensures retained_deleted { a_site_deleted_run.RetainedDeleted }
{}

/// An update of the site would change the value that another stack imports: the two resources that it changed are given back.
pub fn a_site_kept()
    ensures legal { a_site_kept_run.Legal }
    ensures shows { a_site_kept_run.Shows }
{}

/// A change set, with the rows that its report shows; another list of rows is refused. Carried out, it replaces both resources.
pub fn a_change_set()
    ensures legal { a_change_set_run.Legal }
    ensures shows { a_change_set_run.Shows }
    ensures other_rows { a_change_set_run.OtherRows }
    ensures carried_out { a_change_set_run.CarriedOutIsLegal }
    ensures shows_carried_out { a_change_set_run.ShowsCarriedOut }
{}

/// A removed resource that cannot be deleted is left over after the third refusal, and not before.
pub fn an_undeleted_resource()
    ensures legal { an_undeleted_resource_run.Legal }
    ensures shows { an_undeleted_resource_run.Shows }
    ensures kept_too_early { an_undeleted_resource_run.KeptTooEarly }
{}

/// A creation that stays in doubt until the stack is deleted without it.
pub fn a_lost_creation()
    ensures legal { a_lost_creation_run.Legal }
    ensures fails { a_lost_creation_run.Fails }
    ensures shows { a_lost_creation_run.Shows }
{}

/// A restore that is refused, and the continued rollback that skips its resource.
pub fn a_refused_restore()
    ensures legal { a_refused_restore_run.Legal }
    ensures fails { a_refused_restore_run.Fails }
    ensures shows { a_refused_restore_run.Shows }
{}

/// What a failed update made is deleted in the cleanup of its rollback, and not before.
pub fn an_update_taken_back()
    ensures legal { an_update_taken_back_run.Legal }
    ensures shows { an_update_taken_back_run.Shows }
    ensures deleted_in_the_rollback { an_update_taken_back_run.DeletedInTheRollback }
{}

/// The ends, as each status promises them: the new template is live, the earlier resources are back, nothing is left, and the
/// failed paths are blamed.
pub fn the_ends()
    ensures complete { ReplacementIsComplete }
    ensures restored { LateEffectIsRestored }
    ensures rolled_back { RollbackIsRestored }
    ensures cleared { DeletionIsCleared }
    ensures blamed { FailuresAreBlamed }
    ensures rollback_blamed { FailedRollbackIsBlamed }
    ensures deletion_blamed { FailedDeletionIsBlamed }
{}

/// The first resource as the life of an engine, from a new journal on: journal and lanes agree in the
/// end, and before the answer of the call is written down; and the stack is what its status promises.
pub fn the_first_life()
    ensures start { StartIsOne }
    ensures lives { Lives }
    ensures acts { Acts }
    ensures promises { KeepsItsPromises }
{}

/// A life with a crash: a call breaks off and may act later, and journal and lanes agree while it does. The engine is opened
/// again, the call is repeated under its token, and the operation ends.
pub fn the_crashed_life()
    ensures crashes { Crashes }
    ensures goes_on { GoesOn }
{}

/// A life with a late effect: an update that broke off acts while its token is called again. Journal and lanes agree as it
/// has acted and nobody knows, and the rollback then gives back what was there.
pub fn the_late_life()
    ensures acts { the_late_life_run.Acts }
    ensures goes_on { the_late_life_run.GoesOn }
{}

/// A life with a continued rollback: an update breaks off each time, its rollback fails, and while the engine is closed it
/// acts after all. The rollback is continued without it in the next opening; the stack is at each end what its status promises.
pub fn the_continued_life()
    ensures fails { the_continued_life_run.Fails }
    ensures blamed { the_continued_life_run.FailsAsPromised }
    ensures goes_on { the_continued_life_run.GoesOn }
    ensures restored { the_continued_life_run.EndsAsPromised }
{}

/// A life with a lane that an opening leaves out: a creation stays in doubt until its stack is deleted without it, and acts
/// on its lane while the stack is made anew on another. The stack is at each end what its status promises, and journal and
/// lanes agree in the end, where the first lane's file is no stack's.
pub fn the_left_out_life()
    ensures start { the_left_out_life_run.StartIsOne }
    ensures deletes { the_left_out_life_run.Deletes }
    ensures cleared { the_left_out_life_run.ClearsAsPromised }
    ensures goes_on { the_left_out_life_run.GoesOn }
    ensures complete { the_left_out_life_run.EndsAsPromised }
{}

/// A life with two calls at once, whose book is stopped by appends that break with their entry and without it: calls that are
/// out answer, are parked, and are made again in the next opening, with the same answers. The stack is complete in the end.
pub fn the_stopped_life()
    ensures start { the_stopped_life_run.StartIsOne }
    ensures stops { the_stopped_life_run.Stops }
    ensures stops_again { the_stopped_life_run.StopsAgain }
    ensures goes_on { the_stopped_life_run.GoesOn }
    ensures complete { the_stopped_life_run.EndsAsPromised }
{}

/// A life of two stacks: a change set is kept while the engine is closed, and carried out by a creation while the other stack
/// rests; that one is updated before it ends, with a call of each stack out at once. Both are complete in the end.
pub fn the_paired_life()
    ensures reviews { the_paired_life_run.Reviews }
    ensures cleared { the_paired_life_run.ReviewsAsPromised }
    ensures goes_on { the_paired_life_run.GoesOn }
    ensures updated { the_paired_life_run.UpdatesAsPromised }
    ensures created { the_paired_life_run.CreatesAsPromised }
{}

/// A life of a journal that was put back from an earlier copy: its lane is ahead, and a call is stale until the openings have
/// caught up. Where journal and lanes agree, no call is stale.
pub fn the_put_back_life()
    ensures catches_up { the_put_back_life_run.CatchesUp }
    ensures never_stale { the_put_back_life_run.NeverStale }
{}

/// A life with a deletion that nobody knows of, since the engine is gone before it is written down: journal and lanes agree
/// though the stack holds what is gone. Called again it answers as it did, and the stack is cleared.
pub fn the_deleted_life()
    ensures crashes { the_deleted_life_run.Crashes }
    ensures goes_on { the_deleted_life_run.GoesOn }
    ensures cleared { the_deleted_life_run.EndsAsPromised }
{}

/// The theorem is met: journal and lanes agree and promises are kept at the ends of the worked lives, and midway.
pub fn the_theorem_met()
    ensures { always_told.MetInLives }
{}

/// Accounts, leases and lanes of which one part of the agreement of journal and lanes is false: calls, resources, leases, what
/// the lanes were called with, and what is live on them.
pub fn wrong_agreements()
    ensures no_such_calls { agreements_told.NoSuchCalls }
    ensures no_such_lanes { agreements_told.NoSuchLanes }
{}

/// Ends that no status promises, as a wrong engine would leave them; worlds and journals of which one part of what always holds
/// is false; and stacks that an operation never leaves so while it stands there.
pub fn wrong_stacks()
    ensures not_complete { stacks_told.NotComplete }
    ensures not_restored { stacks_told.NotRestored }
    ensures not_blamed { stacks_told.NotBlamed }
    ensures no_such_worlds { stacks_told.NoSuchWorlds }
    ensures not_advancing { stacks_told.NotAdvancing }
    ensures not_back { stacks_told.NotBack }
    ensures not_booked { stacks_told.NotBooked }
    ensures not_open { stacks_told.NotOpen }
{}
