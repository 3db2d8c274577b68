// The values that the words of a snapshot name.

ghost use Rattle.std.specs.Prelude.{◌≡◌};
ghost use Rattle.snapshot.specs.Words.{kind_named, cause_named, mode_named, version_numbered};

use entity_model::{Kind, MappingVersion, Unfit};
use entity_state::{Cause, Mode};

/// The version of the mapping with that number.
pub(crate) fn version_numbered(number: u64) -> Option<MappingVersion>
    ensures { result ≡ version_numbered number }
{
    match number {
        1 => Some(MappingVersion::One),
        2 => Some(MappingVersion::Two),
        _ => None,
    }
}

/// The kind of event with that word.
pub(crate) fn kind_named(text: &str) -> Option<Kind>
    ensures { result ≡ kind_named text.now }
{
    match text {
        "edit" => Some(Kind::Edit),
        "delete" => Some(Kind::Delete),
        "undelete" => Some(Kind::Undelete),
        "reconcile-deleted" => Some(Kind::ReconcileDeleted),
        "reconcile-kept" => Some(Kind::ReconcileKept),
        _ => None,
    }
}

/// The cause with that word.
pub(crate) fn cause_named(text: &str) -> Option<Cause>
    ensures { result ≡ cause_named text.now }
{
    match text {
        "missing" => Some(Cause::Missing),
        "failed" => Some(Cause::Failed),
        "unfit-large" => Some(Cause::Unfit(Unfit::Large)),
        "unfit-deep" => Some(Cause::Unfit(Unfit::Deep)),
        "unfit-notjson" => Some(Cause::Unfit(Unfit::NotJson)),
        "unfit-shape" => Some(Cause::Unfit(Unfit::Shape)),
        "unfit-foreign" => Some(Cause::Unfit(Unfit::Foreign)),
        _ => None,
    }
}

/// The mode with that word.
pub(crate) fn mode_named(text: &str) -> Option<Mode>
    ensures { result ≡ mode_named text.now }
{
    match text {
        "unknown" => Some(Mode::Unknown),
        "kept" => Some(Mode::Kept),
        "deleted" => Some(Mode::Deleted),
        _ => None,
    }
}
