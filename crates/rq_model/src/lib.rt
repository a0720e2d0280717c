//! The promises about restarting a recoverable queue manager: their definitions, in specs/, and
//! their laws, each on a function below that does nothing.
#![tactic(auto)]

ghost use Rattle.rq_model.specs.LogLaws.{BodySpellsOne, RecordHasOneBody, BytesSpellOneState};
ghost use Rattle.rq_model.specs.LogLaws.{LogStateIsCounted, ShortIsCounted};
ghost use Rattle.rq_model.specs.LogLaws.{RunsFit, FrameIsRight, RightIsFrame, RunStops, OneRun};
ghost use Rattle.rq_model.specs.LogLaws.{OneRest, OneFrameRun, RunGivesFront, FramesJoin, LogJoins};
ghost use Rattle.rq_model.specs.LogLaws.{LogEnds, FrontStops, OneLongest, OneWhy, OneFront};
ghost use Rattle.rq_model.specs.LogLaws.{OneRestart, OneText, OneReport, FrontHasReport};
ghost use Rattle.rq_model.specs.LogLaws.{EveryLogHasReport, OneVersion, RecordIsWider, UsedIsFront};
ghost use Rattle.rq_model.specs.LogLaws.{FrontsAreSpelt, OneRestartAt, TrueIsSame, TrueSaysTheSame};
ghost use Rattle.rq_model.specs.LogLaws.{OneAudit, EveryCheckpointHasReport};
ghost use Rattle.rq_model.specs.Closing.{CrashInTheTail, CrashSaysTheSame, OneClosed, ClosedFront};
ghost use Rattle.rq_model.specs.Closing.{ClosedStands};
ghost use Rattle.rq_model.specs.Upgrading.{UpgradeIsSame};
ghost use Rattle.rq_model.specs.FateLaws.{OneFate, OneRequest, CommittedHasOneFate};
ghost use Rattle.rq_model.specs.FateLaws.{OthersAreUntaken, AllAsEnqueued, OneRecord, AllAreFree};
ghost use Rattle.rq_model.specs.FateLaws.{BoundedTries, AttemptsAreTries, TakesAreTries, RunsEnd};
ghost use Rattle.rq_model.specs.FateLaws.{HowFar, WhoIsRegistered, CountIsNone, CountIsOne};
ghost use Rattle.rq_model.specs.FateLaws.{OutcomeIsAhead, RestartAccounts, BeginningAccounts};
ghost use Rattle.rq_model.specs.FateLaws.{ClosedAccounts, CheckpointAccounts, ReportAccounts};
ghost use Rattle.rq_model.specs.FateLaws.{BeginningReportAccounts, CheckpointReportAccounts};
ghost use Rattle.rq_model.specs.AllFiles.{BegunFileCarriesOn, FilesAccount, ClosedFilesAccount};
ghost use Rattle.rq_model.specs.AllFiles.{FilesAreOneRun, FilesReportAccounts};
ghost use Rattle.rq_model.specs.Tampering.{FramesWithOneEnd, RecordsWithOneEnd, TamperingShows};
ghost use Rattle.rq_model.specs.Tampering.{LinkWitnesses, FilesWithOneEnd};
ghost use Rattle.rq_model.specs.ClientLines.{ReportTellsClients, BeginningTellsClients};
ghost use Rattle.rq_model.specs.ClientLines.{CheckpointTellsClients, FilesTellClients};
ghost use Rattle.rq_model.specs.WorkedLogs.{WorkedBytes, WorkedLogs, UnlawfulLogs};
ghost use Rattle.rq_model.specs.WorkedLogs.{WorkedCheckpoint, WorkedEnds};
ghost use Rattle.rq_model.specs.WorkedMachine.{WorkedLaw, WorkedSteps, WorkedOrders, WorkedQueues};
ghost use Rattle.rq_model.specs.WorkedMachine.{WorkedRedo};
ghost use Rattle.rq_model.specs.WorkedFates.{WorkedRequests, WorkedTries, WorkedClients};
ghost use Rattle.rq_model.specs.WorkedFates.{WorkedClientLines};
ghost use Rattle.rq_model.specs.WorkedFormats.{WorkedNames, WorkedBodies, WorkedWidths};
ghost use Rattle.rq_model.specs.WorkedFormats.{WorkedFrames, AllRests, WorkedStates, WorkedMembers};
ghost use Rattle.rq_model.specs.WorkedFormats.{WorkedLines};
ghost use Rattle.rq_model.specs.Redo.{RedoGoesWell, GoesOn};
ghost use Rattle.rq_model.specs.StepLaws.{ChosenProjection, ChosenGoesWell, StepByParts};
ghost use Rattle.rq_model.specs.StepLaws.{MidwayPart, UnitEndsByParts};
ghost use Rattle.rq_model.specs.Laws.{Projection, ArrivalsAreMerged, LawfulnessLooksAt};
ghost use Rattle.rq_model.specs.Laws.{PartsDecide, IdsDiffer, PutInAnyOrder, AnyOrder};
ghost use Rattle.rq_model.specs.Laws.{QueueIsDecided, TouchingIsExact, LawfulFrontIsLongest};
ghost use Rattle.rq_model.specs.Laws.{WellFormedIsSound, RunsAreWellFormed, EmptyIsWellFormed};
ghost use Rattle.rq_model.specs.Laws.{NumbersAfter, VersionOneIsOneDeep, VersionTwoIsWider};
ghost use Rattle.rq_model.specs.Laws.{RedoSteps, CrashIsHarmless, MovesRise, ArrivalsRise};
ghost use Rattle.rq_model.specs.Appending.{CrashInFrames, CrashWhileAppending, AppendedIsFront};
ghost use Rattle.rq_model.specs.Appending.{WrittenStays, CheckpointIsTrue, CheckpointSaysTheSame};
ghost use Rattle.rq_model.specs.Appending.{FrontGrows, FrontStays, AlongIsFront, WindowGoesOn};
ghost use Rattle.rq_model.specs.Carrying.{TrueHasFront, CrashWhileCarriedGrows, MovesOn, IsNoLog};
ghost use Rattle.rq_model.specs.Carrying.{LaterSaysTheSame, FilesJoin, StartsAnew, FrontGoesOn};
ghost use Rattle.rq_model.specs.Carrying.{AnewJoins, ReadsAsLog, GreaterIsWider};

/// A body spells at most one record, a record has one body, and the bytes of a state spell no other
/// state. The counts of a state have their widths if a log spells it, or its spelling is short.
pub fn one_spelling()
    ensures record { BodySpellsOne }
    ensures body { RecordHasOneBody }
    ensures state { BytesSpellOneState }
    ensures counted { LogStateIsCounted }
    ensures short { ShortIsCounted }
{}

/// If a length is in range and the digest is right, the frame of the body is there, and no other.
pub fn frames_are_right()
    ensures right { FrameIsRight }
    ensures frame { RightIsFrame }
{}

/// If no right frame follows a run of frames, the run is the longest. There is one longest run, and
/// one line says what follows it.
pub fn one_run()
    ensures stops { RunStops }
    ensures run { OneRun }
    ensures rest { OneRest }
    ensures chain { OneFrameRun }
{}

/// Further records are further frames, chained to the last 32 bytes.
pub fn frames_join()
    ensures frames { FramesJoin }
    ensures log { LogJoins }
    ensures end { LogEnds }
{}

/// Lawfulness is decided without elements and notes.
pub fn lawfulness_looks_at()
    ensures { LawfulnessLooksAt }
{}

/// The longest lawful beginning of records is lawful, a beginning, and no shorter than any other.
pub fn lawful_front_is_longest()
    ensures { LawfulFrontIsLongest }
{}

/// A well-formed state is sound: it keeps what the projection by queue needs.
pub fn well_formed_is_sound()
    ensures { WellFormedIsSound }
{}

/// Every state of a lawful run from a well-formed state is well formed, and the empty state is.
pub fn runs_are_well_formed()
    ensures start { EmptyIsWellFormed }
    ensures runs { RunsAreWellFormed }
{}

/// Every state of a run of records keeps its widths.
pub fn runs_fit()
    ensures { RunsFit }
{}

/// Bytes have at most one version's header. Version 1 makes no chains of error queues, and version
/// 2 takes all that version 1 takes.
pub fn versions()
    ensures header { OneVersion }
    ensures wider { RecordIsWider }
    ensures one { VersionOneIsOneDeep }
    ensures two { VersionTwoIsWider }
{}

/// The numbers, definitions and open units after a run depend only on the records and the outcomes.
pub fn numbers_after()
    ensures { NumbersAfter }
{}

/// If a line of WHY applies at the end of lawful records, they are the longest. There is one front,
/// and one line of WHY.
pub fn one_front()
    ensures stops { FrontStops }
    ensures longest { OneLongest }
    ensures why { OneWhy }
    ensures front { OneFront }
    ensures from_run { RunGivesFront }
{}

/// Every string of bytes that has a header and is no longer than a log may be has a report.
pub fn every_log_has_report()
    ensures { EveryLogHasReport }
{}

/// From every checkpoint of a log that spells a state there is a report; `one_report` says that
/// there is one restart.
pub fn every_checkpoint_has_report()
    ensures { EveryCheckpointHasReport }
{}

/// There is one restart, one text, one report; one restart from each checkpoint; one audit.
pub fn one_report()
    ensures restart { OneRestart }
    ensures text { OneText }
    ensures report { OneReport }
    ensures some { FrontHasReport }
    ensures restart_at { OneRestartAt }
    ensures audit { OneAudit }
{}

/// The first `used` bytes of a log are those of its front, and the rest follows them.
pub fn used_is_the_front()
    ensures { UsedIsFront }
{}

/// The state after each beginning of a front is well formed, its first point included, and has a
/// spelling.
pub fn fronts_are_spelt()
    ensures { FrontsAreSpelt }
{}

/// From a true checkpoint the restart is the same.
pub fn true_checkpoints_say_the_same()
    ensures { TrueIsSame }
{}

/// A text is the report from a true checkpoint exactly if it is the report.
pub fn true_checkpoints_report_the_same()
    ensures { TrueSaysTheSame }
{}

/// Whatever beginning of the final aborts is in the log, the final state is the same.
pub fn crash_is_harmless()
    ensures { CrashIsHarmless }
{}

/// Whatever beginning of the tail follows the front, there is a restart, its state is the same, and
/// so are the queue lines.
pub fn crash_in_the_tail()
    ensures state { CrashInTheTail }
    ensures report { CrashSaysTheSame }
{}

/// A log is closed in one way. The closed log can replace that log, also while its tail is written,
/// and closing it again changes nothing.
pub fn closed_logs()
    ensures one { OneClosed }
    ensures front { ClosedFront }
    ensures stands { ClosedStands }
{}

/// A log in version 2 has the front, the restart, the report, the checkpoints and the audit of the
/// log that it was made from, and upgrading it again changes nothing.
pub fn upgrade_is_the_same()
    ensures { UpgradeIsSame }
{}

/// A crash while records are appended to a log loses none whose frame is whole, and invents none.
/// Once all frames are there, all records are in the front. Whatever follows, they stay there.
pub fn appended_logs()
    ensures frames { CrashInFrames }
    ensures crash { CrashWhileAppending }
    ensures front { AppendedIsFront }
    ensures stays { WrittenStays }
{}

/// If a checkpoint of the state after the front is appended to it, the checkpoint is true, and the
/// report has the same queue lines.
pub fn appended_checkpoints()
    ensures truth { CheckpointIsTrue }
    ensures queues { CheckpointSaysTheSame }
{}

/// Whatever is added to a log, no record of its front is taken back: the new front is the old one
/// and what is found after it.
pub fn growing_logs()
    ensures grows { FrontGrows }
    ensures stays { FrontStays }
{}

/// Whoever keeps the records so far and the bytes after them knows the front of a log that grows.
/// To go on, a header, the last 32 bytes of the records and the bytes after them are enough.
pub fn followed_logs()
    ensures front { AlongIsFront }
    ensures window { WindowGoesOn }
{}

/// A true checkpoint has a front of its own. If a log is read from a checkpoint on, a crash while
/// records are appended loses none whose frame is whole, and invents none. What is read where record
/// numbers have a bound is read so where they have a greater one.
pub fn carried_logs()
    ensures front { TrueHasFront }
    ensures crash { CrashWhileCarriedGrows }
    ensures wider { GreaterIsWider }
{}

/// No carried file begins as a log, so there is no restart of it. It is read as one: with the header
/// of a log in place of its own.
pub fn carried_headers()
    ensures apart { IsNoLog }
    ensures read { ReadsAsLog }
{}

/// A checkpoint and all bytes after it restart to the same in a carried file, and so does a later
/// checkpoint there. The files join: the last one has the front of all records together.
pub fn continued_logs()
    ensures moves { MovesOn }
    ensures later { LaterSaysTheSame }
    ensures join { FilesJoin }
{}

/// The state after the front of a log, full or not, begins a carried file with a checkpoint: its open
/// units, elements, registrants and numbers go on, and so do the digests. Whatever is written
/// there, the files join.
pub fn logs_begun_anew()
    ensures starts { StartsAnew }
    ensures front { FrontGoesOn }
    ensures join { AnewJoins }
{}

/// What stays in a queue at an abort and what arrives have distinct ids, and can be put in in any
/// order.
pub fn any_order()
    ensures ids { IdsDiffer }
    ensures order { PutInAnyOrder }
{}

/// In any order of putting in what returns to a queue at an abort and what arrives there, the queue
/// ends with the same elements.
pub fn any_list_in_any_order()
    ensures { AnyOrder }
{}

/// One record moves the part of each queue by itself, and so does the end of a unit.
pub fn step_by_parts()
    ensures step { StepByParts }
    ensures ends { UnitEndsByParts }
{}

/// In mid-run the part of a queue is that of the state after the records so far, and a redo of more
/// operations than those that touch the queue gives the same.
pub fn redo_in_pieces()
    ensures midway { MidwayPart }
    ensures chosen { ChosenProjection }
    ensures goes { ChosenGoesWell }
{}

/// A well-formed state is determined by its numbers, units, definitions and parts.
pub fn parts_decide()
    ensures { PartsDecide }
{}

/// A queue's part after a run, and what left it meanwhile, are determined by its part before, the
/// operations that touch it and what arrives.
pub fn projection()
    ensures { Projection }
{}

/// The list of records that touch a queue has exactly those that do so after the records before
/// them, each once, rising.
pub fn touching_is_exact()
    ensures { TouchingIsExact }
{}

/// Equal parts before, equal records that touch a queue and equal arrivals give equal parts and
/// equal moves.
pub fn queue_is_decided()
    ensures { QueueIsDecided }
{}

/// The redo of one queue goes one arrival or one operation at a time.
pub fn redo_steps()
    ensures { RedoSteps }
{}

/// In a lawful run each operation on a queue finds its part ready, and each arrival is new to it.
pub fn redo_goes_well()
    ensures well { RedoGoesWell }
    ensures steps { GoesOn }
{}

/// What arrives in a queue is what leaves its sources, merged by place and id.
pub fn arrivals_are_merged()
    ensures { ArrivalsAreMerged }
{}

/// What leaves a queue, and what arrives in one, is ordered by place and id.
pub fn moves_rise()
    ensures moves { MovesRise }
    ensures arrivals { ArrivalsRise }
{}

/// No request is lost, done twice or made up. A number is requested at most once. How often it is
/// shown, was done and was killed adds up to how often it was requested. What no committing unit
/// enqueued was never taken.
pub fn one_fate()
    ensures sum { OneFate }
    ensures request { OneRequest }
    ensures committed { CommittedHasOneFate }
    ensures others { OthersAreUntaken }
{}

/// Each element of a lawful run is as the ENQUEUE of its own number made it, and is where its
/// limits led it. What is left at the end is Free.
pub fn as_enqueued()
    ensures elements { AllAsEnqueued }
    ensures record_of { OneRecord }
    ensures free { AllAreFree }
{}

/// No request is tried without end: in a queue with a limit the tries are bounded by it, the
/// attempts of an element are its tries there, and what was taken was tried or is done.
pub fn bounded_tries()
    ensures bounded { BoundedTries }
    ensures attempts { AttemptsAreTries }
    ensures takes { TakesAreTries }
{}

/// A client that registers again learns how far it came: a registrant's last operation is the
/// latest that it hears of, and whoever is registered has a REGISTER with no DEREGISTER after it.
pub fn how_far()
    ensures last { HowFar }
    ensures registered { WhoIsRegistered }
{}

/// What counts and the records ahead mean, and where a run with its last aborts ends.
pub fn counts_mean()
    ensures none { CountIsNone }
    ensures one { CountIsOne }
    ensures ahead { OutcomeIsAhead }
    ensures ends { RunsEnd }
{}

/// A restart changes nothing of this: a restart of a log, of the closed log, of each beginning of
/// it that holds the front, or from a true checkpoint accounts for each request and client.
pub fn restarts_account()
    ensures restart { RestartAccounts }
    ensures beginning { BeginningAccounts }
    ensures closed { ClosedAccounts }
    ensures checkpoint { CheckpointAccounts }
{}

/// The report of a log has a line `e p ..` as often as number p was requested, less how often it
/// was done or killed. So has the report of its front with a beginning of the tail, and the report
/// from a true checkpoint.
pub fn reports_account()
    ensures report { ReportAccounts }
    ensures beginning { BeginningReportAccounts }
    ensures checkpoint { CheckpointReportAccounts }
{}

/// The report of a log has one line for each client that is registered, with the latest operation
/// that it hears of, and no line of others. So has the report of its front with a beginning of the
/// tail, the report from a true checkpoint, and that of the last of several files.
pub fn reports_tell_clients()
    ensures report { ReportTellsClients }
    ensures beginning { BeginningTellsClients }
    ensures checkpoint { CheckpointTellsClients }
    ensures files { FilesTellClients }
{}

/// Of a log that was carried on in other files, the records of all files are those of one log of any
/// length, and a restart of the last file is that log's. It accounts for each request and client of them. So does a restart of the last file closed, and of each
/// beginning of that which holds its front. The report of the last file says so. A file that begins
/// with a checkpoint of the state after these records, linked to them, carries them on.
pub fn all_files_account()
    ensures begun { BegunFileCarriesOn }
    ensures one { FilesAreOneRun }
    ensures restart { FilesAccount }
    ensures closed { ClosedFilesAccount }
    ensures report { FilesReportAccounts }
{}

/// Two logs with different fronts and the same last 32 bytes show two different messages with one
/// SHA-256. So do two old logs that one file is linked to, and two rows of files with the same end.
pub fn tampering_shows()
    ensures frames { FramesWithOneEnd }
    ensures records { RecordsWithOneEnd }
    ensures fronts { TamperingShows }
    ensures link { LinkWitnesses }
    ensures files { FilesWithOneEnd }
{}

/// Three bodies and two states, byte by byte.
pub fn worked_bytes()
    ensures { WorkedBytes }
{}

/// Worked logs, whose lengths are known without their digests, have these reports.
pub fn worked_logs()
    ensures whole { WorkedLogs }
    ensures unlawful { UnlawfulLogs }
    ensures checkpoint { WorkedCheckpoint }
{}

/// In one state with open units: what is lawful, what each record does, and what each queue makes
/// of it.
pub fn worked_machine()
    ensures law { WorkedLaw }
    ensures steps { WorkedSteps }
    ensures orders { WorkedOrders }
    ensures queues { WorkedQueues }
    ensures redo { WorkedRedo }
{}

/// Names, records, frames, states and the lines of a report, byte by byte, and each limit on both
/// sides of its edge.
pub fn worked_formats()
    ensures names { WorkedNames }
    ensures bodies { WorkedBodies }
    ensures widths { WorkedWidths }
    ensures frames { WorkedFrames }
    ensures rests { AllRests }
    ensures states { WorkedStates }
    ensures members { WorkedMembers }
    ensures lines { WorkedLines }
{}

/// Logs that end in each other way, a true and a false checkpoint, a tail and an upgraded log.
pub fn worked_ends()
    ensures { WorkedEnds }
{}

/// Requests and clients with each fate, each limit of tries on both sides, the lines of clients.
pub fn worked_fates()
    ensures requests { WorkedRequests }
    ensures tries { WorkedTries }
    ensures clients { WorkedClients }
    ensures lines { WorkedClientLines }
{}
