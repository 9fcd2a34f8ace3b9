//! What follows of the contract of a run, and what does not change a map. The functions do nothing.

ghost use Rattle.std.specs.Prelude.{◌≡◌, ◌≢◌, ◌⊎◌, ℕ, true, List, codes, Some, None, Ok, Err};
ghost use Rattle.mf_base.specs.Texts.{Text};
ghost use Rattle.osm_model.specs.declared.faults.InputFault.{InputFault};
ghost use Rattle.feature_model.specs.declared.fault.LimitFault.{LimitFault};
ghost use Rattle.map_model.specs.MapFile.{report_line};
ghost use Rattle.map_model.specs.declared.report.Report.{Report};
ghost use Rattle.mf_edge.specs.Device.{CountsOne, HasRisen};
ghost use Rattle.mf_edge.specs.Shelves.{ShelfState};
ghost use Rattle.extract_pass.specs.EntityPass.{HasInputFault};
ghost use Rattle.job_words.specs.Settings.{JobSettings, JobAsked, job_of};
ghost use Rattle.run_texts.specs.Texts.{line_of, input_text, limit_text};
ghost use Rattle.mf_compile.specs.Gathering.{HasRead, HasReadAll};
ghost use Rattle.mf_compile.specs.Outcomes.{job_box, outcome};
ghost use Rattle.mf_compile.specs.Runs.{HasWritten, HasBegun};
ghost use Rattle.mf_compile.specs.declared.fault.Fault.TheVariants as fault;
ghost use Rattle.mf_run.specs.Prepared.{IsPrepared, told_of, job_or};
ghost use Rattle.mf_run.specs.Run.{Seen, Says, RunsJob};
ghost use Rattle.mf_run.specs.Decided.{NoneFailed, IsDecided, AskSame, Suffices};
ghost use Rattle.mf_run.specs.declared.prepare.Prepared.{Prepared as Begun};
ghost use Rattle.mf_run.specs.declared.prepare.Prepared.TheVariants.{Refused};
ghost use Rattle.job_words.specs.declared.refusal.Refusal.TheVariants as refusal;
ghost use Rattle.mf_run.specs.declared.status.TheConstants.{WRITTEN, INPUT, LIMIT, READ, WRITE, SPILL, NO_BOX};

/// For every input, however it is cut, while the store keeps and orders what was written and no device fails, a run of a
/// job does what the definitions decide: it writes the map and says its report exactly where the input is accepted, a box
/// is known and nothing passes its limit, and else writes nothing and names the first fault.
pub fn headline()
    ensures { (job : JobSettings) (all : List ℕ) (old new : Seen) (status : ℕ) → RunsJob job old new status
        → old.devices.input.left ≡ Some all → old.devices.store.tells ≡ true → NoneFailed old.devices new.devices
        → IsDecided job all old new status }
{}

/// A map, or the first fault, is the same for every row limit that suffices, every number of workers and every folder.
pub fn same_for_all_that_suffice()
    ensures { (job other : JobSettings) (all : List ℕ) → AskSame job other → Suffices job all → Suffices other all
        → outcome other all ≡ outcome job all }
{}

/// Each status has its cause, over every input and every output, and nothing else than its text is said. What depends on
/// the rows that were read again is told where the store tells its bytes.
pub fn causes()
    ensures written { (job : JobSettings) (old new : Seen) → RunsJob job old new WRITTEN
        → old.devices.store.tells ≡ true
        → (report : Report) × HasWritten job report old.devices new.devices × Says old.say (report_line report) new.say }
    ensures input { (job : JobSettings) (old new : Seen) → RunsJob job old new INPUT
        → (why : InputFault) × HasRead (HasInputFault why new.devices.input) old.devices.input new.devices.input
        × Says old.say (line_of (input_text why)) new.say }
    ensures no_box { (job : JobSettings) (old new : Seen) → RunsJob job old new NO_BOX
        → HasReadAll (λ bytes. job_box job bytes ≡ Err fault.NoBox) old.devices.input new.devices.input
        × Says old.say (line_of (codes "no box")) new.say }
    ensures limit { (job : JobSettings) (old new : Seen) → RunsJob job old new LIMIT → old.devices.store.tells ≡ true
        → (why : LimitFault)
        × HasReadAll (λ bytes. outcome job bytes ≡ Err (fault.Limit why)) old.devices.input new.devices.input
        × Says old.say (line_of (limit_text why)) new.say }
    ensures read { (job : JobSettings) (old new : Seen) → RunsJob job old new READ
        → CountsOne old.devices.input.faults new.devices.input.faults × Says old.say (line_of (codes "read")) new.say }
    ensures write { (job : JobSettings) (old new : Seen) → RunsJob job old new WRITE
        → CountsOne old.devices.output.faults new.devices.output.faults
        × (old.devices.store.tells ≡ true → HasBegun job old.devices new.devices)
        × Says old.say (line_of (codes "write")) new.say }
    ensures spill { (job : JobSettings) (old new : Seen) → RunsJob job old new SPILL
        → CountsOne old.devices.store.faults new.devices.store.faults
        × (old.devices.store.tells ≡ true
        → (new.devices.output ≡ old.devices.output) ⊎ HasBegun job old.devices new.devices)
        × Says old.say (line_of (codes "spill")) new.say }
    ensures untouched { (job : JobSettings) (old new : Seen) (status : ℕ) → RunsJob job old new status
        → status ≢ WRITTEN → status ≢ WRITE → status ≢ SPILL → new.devices.output ≡ old.devices.output }
    ensures complete { (job : JobSettings) (old new : Seen) (status : ℕ) → RunsJob job old new status
        → NoneFailed old.devices new.devices
        → (status ≡ WRITTEN) ⊎ (status ≡ INPUT) ⊎ (status ≡ NO_BOX) ⊎ (status ≡ LIMIT) }
{}

/// Right words with a right mapping are prepared as what they ask for, where the shelf does not fail and memory is there.
pub fn right_words_are_prepared()
    ensures { (words : List Text) (now : ℕ) (old new : ShelfState) (prepared : Begun) (file : List ℕ) (asked : JobAsked)
        → IsPrepared words now old prepared new → old.file ≡ Some file → job_of words file now ≡ Ok asked
        → ¬ (HasRisen old.faults new.faults)
        → (prepared ≡ Refused refusal.Memory) ⊎ (told_of prepared ≡ job_or (Ok asked)) }
{}
