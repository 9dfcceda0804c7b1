// What clearing up, starting a program and sending the packet keep.
ghost use Rattle.std.specs.Prelude.{◌≡◌, ◌≤◌, ◌+◌, ℕ, List, Ok, Result, true};
ghost use Rattle.kernel_lists.specs.PacketQueue.QueueWords.{QueuedPacket};
ghost use Rattle.ram_disc.specs.Disc.{Disc};
ghost use Rattle.kernel_model.specs.KernelRecord.Between.{AreValidFaults};
ghost use Rattle.kernel_model.specs.KernelRecord.Changes.{AreUnowned, with_queue};
ghost use Rattle.kernel_model.specs.KernelRecord.Lists.{Lists, queued};
ghost use Rattle.kernel_model.specs.KernelRecord.ValidBlocks.{AreData};
ghost use Rattle.kernel_model.specs.KernelRecord.Task.{is_guest_id};
ghost use Rattle.kernel_model.specs.KernelRecord.ValidLists.{AreValid};
ghost use Rattle.kernel_model.specs.KernelRecord.ValidQueues.Place.{Work};
ghost use Rattle.kernel_model.specs.KernelRecord.StoreWithLists.{StoreWithLists};
ghost use Rattle.resident_tasks.specs.ResidentRequests.Requests.{RunsResident};
ghost use Rattle.kernel_model.specs.declared.kernel_record.numbers.TheConstants.{SHELL_PACKET};
ghost use Rattle.shell.specs.ShellPrograms.ClearedTasks.{cleared};
ghost use Rattle.shell.specs.ShellPrograms.KeptLists.{HasProgram, KeepsResidents, ResidentAlone};
ghost use Rattle.shell.specs.ShellPrograms.ShellPacket.{HasPacket, posted};
ghost use Rattle.shell.specs.ShellPrograms.StartedProgram.{begun, start_program};
ghost use Rattle.shell.specs.declared.shell_programs.programs.Priority.{Priority};

/// What clearing up keeps: the residents with their queues, and all numbers and other queues. The resident that runs goes on running,
/// and alone has the field of a task that runs; and the fault packet waits exactly where some fault was not reported yet.
pub fn clearing_law()
    ensures kept { (k : StoreWithLists) → KeepsResidents k.lists (cleared k).lists }
    ensures runs { (k : StoreWithLists) → RunsResident k.lists → RunsResident (cleared k).lists }
    ensures alone { (k : StoreWithLists) → ResidentAlone k.lists → ResidentAlone (cleared k).lists }
    ensures faults { (k : StoreWithLists) → AreValid k.lists → AreValidFaults k.lists
        → AreValidFaults (cleared k).lists }
{}

/// What starting a program keeps, also where it is refused: the same, and all queued packets. One that was started is a guest that
/// is there.
pub fn starting_law()
    ensures kept { (d : Disc) (name : List ℕ) (rest : Result (Unit {0}) ℕ) (pri : Priority)
        (k : StoreWithLists) → KeepsResidents k.lists (start_program d name rest pri k).left.lists }
    ensures packets { (d : Disc) (name : List ℕ) (rest : Result (Unit {0}) ℕ) (pri : Priority)
        (k : StoreWithLists) → queued (start_program d name rest pri k).left.lists ≡ queued k.lists }
    ensures runs { (d : Disc) (name : List ℕ) (rest : Result (Unit {0}) ℕ) (pri : Priority)
        (k : StoreWithLists) → RunsResident k.lists
        → RunsResident (start_program d name rest pri k).left.lists }
    ensures alone { (d : Disc) (name : List ℕ) (rest : Result (Unit {0}) ℕ) (pri : Priority)
        (k : StoreWithLists) → ResidentAlone k.lists
        → ResidentAlone (start_program d name rest pri k).left.lists }
    ensures faults { (d : Disc) (name : List ℕ) (rest : Result (Unit {0}) ℕ) (pri : Priority)
        (k : StoreWithLists) → AreValidFaults k.lists
        → AreValidFaults (start_program d name rest pri k).left.lists }
    ensures there { (d : Disc) (name : List ℕ) (rest : Result (Unit {0}) ℕ) (pri : Priority)
        (k : StoreWithLists) (id : ℕ) → (start_program d name rest pri k).answer ≡ Ok id
        → HasProgram k.lists.version id (start_program d name rest pri k).left.lists }
{}

/// What the beginning of a program keeps.
pub fn beginning_law()
    ensures kept { (id : ℕ) (k : StoreWithLists) → KeepsResidents k.lists (begun id k).lists }
    ensures packets { (id : ℕ) (k : StoreWithLists) → queued (begun id k).lists ≡ queued k.lists }
    ensures runs { (id : ℕ) (k : StoreWithLists) → is_guest_id id ≡ true → RunsResident k.lists
        → RunsResident (begun id k).lists }
    ensures alone { (id : ℕ) (k : StoreWithLists) → ResidentAlone k.lists → ResidentAlone (begun id k).lists }
    ensures faults { (id : ℕ) (k : StoreWithLists) → AreValidFaults k.lists
        → AreValidFaults (begun id k).lists }
{}

/// What sending the packet keeps. Only the queue of the task that gets it is another.
pub fn packet_law()
    ensures queue { (to : ℕ) (k : StoreWithLists) → to ≤ 63
        → (ps : List QueuedPacket) × ((posted to k).lists ≡ with_queue (Work to) ps k.lists) }
    ensures runs { (to : ℕ) (k : StoreWithLists) → to ≤ 63 → RunsResident k.lists
        → RunsResident (posted to k).lists }
    ensures alone { (to : ℕ) (k : StoreWithLists) → to ≤ 63 → ResidentAlone k.lists
        → ResidentAlone (posted to k).lists }
    ensures faults { (to : ℕ) (k : StoreWithLists) → to ≤ 63 → AreValidFaults k.lists
        → AreValidFaults (posted to k).lists }
{}

/// The shell's packet lies in the resident block, and while no queue has it nobody owns its words and arguments. It stays on no queue
/// where the same packets are queued.
pub fn place_law()
    ensures lodged { (l : Lists) → AreValid l → l.residents ≡ true
        → AreData l.blocks SHELL_PACKET 8 }
    ensures arguments { (l : Lists) → AreValid l → HasPacket l
        → AreUnowned l SHELL_PACKET (SHELL_PACKET + 8) }
    ensures kept { (l m : Lists) → AreValid l → AreValid m → KeepsResidents l m
        → queued m ≡ queued l → HasPacket l → HasPacket m }
{}
