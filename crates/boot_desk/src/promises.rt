//! What the desk's answers keep to, whatever is recorded.
ghost use Rattle.std.specs.Prelude.{◌≡◌, ℕ, List, [], Ok, Some};
ghost use Rattle.ipxe_script.specs.{Purpose.{IsDeploying, IsErasing}, Script.{IsScript, spelling}, declared.command.Command.Command};
ghost use Rattle.hall_types.specs.declared.{change.RowWrite.RowWrite, kinds.{Erase.Erase, Outcome.Outcome, Progress.Progress}, status.Status.TheVariants.{Deployed, Deploying, DiskErasing, ExitingRescue}};
ghost use Rattle.hall_types.specs.declared.kinds.OrderStage.TheVariants as order;
ghost use Rattle.hall_types.specs.declared.kinds.Purpose.TheVariants as purpose;
ghost use Rattle.boot_desk.specs.{declared.{fault.Verdict.TheVariants.Counted, views.{BootView.BootView, OrderView.OrderView, ReportView.ReportView}}, Fetch.fetched, OrderAnswer.answered, Promises.CountsFor, Purposes.{ErasesBy, HasNoHallWords, IsWork}, Report.reported, Texts.local_script};

/// A machine that is Deployed, or whose rescue from there ends, is given only the script that boots its own disk,
/// whatever boot is still recorded, and nothing changes.
#[tactic(auto, using(crate::proofs::PromiseLemmas::deployed, crate::proofs::PromiseLemmas::leaving_rescue))]
pub fn local_boot()
    ensures deployed { (host : List ℕ) (v : BootView) (moment : ℕ) (fresh : List ℕ)
        → v.machine.status ≡ Deployed → fetched host v moment fresh ≡ Ok ([], local_script v.machine.arch) }
    ensures leaving_rescue { (host : List ℕ) (v : BootView) (moment : ℕ) (fresh : List ℕ)
        → v.machine.status ≡ ExitingRescue → v.machine.back ≡ Some Deployed → fetched host v moment fresh ≡ Ok ([], local_script v.machine.arch) }
{}

/// A script whose text has a kernel erase the disks is given only to a machine in Disk erasing, and names the kind of
/// erasing that this machine keeps, and no other. The images have no argument that begins `hall.`: none can be made
/// with one.
pub fn erasing_texts()
    ensures status { (host : List ℕ) (v : BootView) (moment : ℕ) (fresh : List ℕ) (rows : List RowWrite) (script : List Command)
        → HasNoHallWords v → IsScript script → fetched host v moment fresh ≡ Ok (rows, script) → IsErasing (spelling script) → v.machine.status ≡ DiskErasing }
    ensures kind { (host : List ℕ) (v : BootView) (moment : ℕ) (fresh : List ℕ) (rows : List RowWrite) (script : List Command) (kind : Erase)
        → HasNoHallWords v → IsScript script → fetched host v moment fresh ≡ Ok (rows, script) → ErasesBy kind script → v.machine.erase ≡ Some kind }
    ensures kept { (host : List ℕ) (v : BootView) (moment : ℕ) (fresh : List ℕ) (rows : List RowWrite) (script : List Command) (kind : Erase)
        → HasNoHallWords v → IsScript script → fetched host v moment fresh ≡ Ok (rows, script) → IsErasing (spelling script) → v.machine.erase ≡ Some kind
        → ErasesBy kind script }
{}

/// A script whose text has a kernel write an image to the machine's disk is given only to a machine in Deploying, and
/// boots the kernel and the initrd of the image that this machine is deployed with.
pub fn deploying_texts()
    ensures { (host : List ℕ) (v : BootView) (moment : ℕ) (fresh : List ℕ) (rows : List RowWrite) (script : List Command)
        → HasNoHallWords v → IsScript script → fetched host v moment fresh ≡ Ok (rows, script) → IsDeploying (spelling script)
        → (v.machine.status ≡ Deploying) × IsWork host v purpose.Deploy script }
{}

/// A report that counts brings the boot's token, is of its machine's current boot, and moves the boot's stage on: from
/// offered or started, and to a stage that it hasn't had.
#[tactic(auto, using(crate::proofs::PromiseLemmas::counted_report))]
pub fn reports_count_once()
    ensures { (r : ReportView) (token : List ℕ) (progress : Progress) (moment : ℕ) (rows : List RowWrite)
        → reported (Some r) token progress moment ≡ Ok (rows, Counted) → CountsFor r token progress }
{}

/// An answer to an order that counts is to an order that waits.
#[tactic(auto, using(crate::proofs::PromiseLemmas::counted_answer))]
pub fn answers_count_once()
    ensures { (r : OrderView) (outcome : Outcome) (moment : ℕ) (rows : List RowWrite)
        → answered (Some r) outcome moment ≡ Ok (rows, Counted) → r.asked.stage ≡ order.Waiting }
{}
