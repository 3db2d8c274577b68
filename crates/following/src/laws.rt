// What follows from the contract of a follower: when it ends with Ok, and at which inputs it stops for which cause. Each law is the
// contract of a function that does nothing.

ghost use Rattle.std.specs.Prelude.{◌≡◌, ◌≤◌, ◌⊎◌, ℕ, List, length, Some, None};
ghost use Rattle.wq_io.specs.Streams.{Rose};
ghost use Rattle.replica.specs.{declared.record.PatchRecord.PatchRecord, Laws.IsGreatest};
ghost use Rattle.arguments.specs.Options.{FollowChoices, follow_max_bytes_of};
ghost use Rattle.following.specs.{declared.stop.FollowStop.FollowStop, declared.stop.RecordCause.RecordCause};
ghost use Rattle.following.specs.Following.{Ending, FollowMoment, StoppedFollowing, follower_limit};
ghost use Rattle.following.specs.{Input.Input, Reading.AreRecords, Stop.HasNoRoomForRecord, Stop.StandsAtLine, Taking.HadRoom};

/// A follower ends with Ok or OutOfMemory if its input has the lines of records and is within the limit, each due record has room, and no
/// read or write fails.
pub fn good_records_are_followed()
    ensures { (choices : FollowChoices) (before now : FollowMoment) (stop : FollowStop) (bytes : List ℕ) (items : List PatchRecord) (applied : ℕ) →
        StoppedFollowing stop choices before now → before.input.left ≡ Some bytes → AreRecords (follow_max_bytes_of choices) bytes items None →
        IsGreatest items applied → HadRoom follower_limit items applied →
        (Rose before.input.faults now.input.faults → ⊥) → (Rose before.output.faults now.output.faults → ⊥) → stop ≡ FollowStop.OutOfMemory }
{}

/// If a line of the input is refused after lines of records that had room, the input is within the limit and no read fails, a follower
/// stops at this line for this cause, or with OutOfMemory. So an input is refused at one line, for one cause.
pub fn refused_lines_are_named()
    ensures { (choices : FollowChoices) (before now : FollowMoment) (bytes : List ℕ) (cause : RecordCause) (number : ℕ) →
        before.input.left ≡ Some bytes → length bytes ≤ follow_max_bytes_of choices →
        StandsAtLine cause (follow_max_bytes_of choices) follower_limit number (Some bytes) → (Rose before.input.faults now.input.faults → ⊥) →
        (Ending choices before now → ⊥) × ((stop : FollowStop) → StoppedFollowing stop choices before now → (stop ≡ FollowStop.BadLine number cause) ⊎ (stop ≡ FollowStop.OutOfMemory)) }
{}

/// If a line of the input ends a record for which there is no room, or makes one due that waited and for which there is none, the input is
/// within the limit and no read fails, a follower stops with StoreFull or OutOfMemory.
pub fn records_without_room_are_named()
    ensures { (choices : FollowChoices) (before now : FollowMoment) (bytes : List ℕ) (there : Input) →
        before.input.left ≡ Some bytes → length bytes ≤ follow_max_bytes_of choices →
        HasNoRoomForRecord (follow_max_bytes_of choices) follower_limit before.input there → (Rose before.input.faults now.input.faults → ⊥) →
        (Ending choices before now → ⊥) × ((stop : FollowStop) → StoppedFollowing stop choices before now → (stop ≡ FollowStop.StoreFull) ⊎ (stop ≡ FollowStop.OutOfMemory)) }
{}
