// The words for what an event does and for why a revision isn't held, in the transcript and in snapshots.

ghost use Rattle.std.specs.Prelude.{◌≡◌};
ghost use Rattle.replay_model.specs.Transcript.{cause_word, kind_word, unfit_word};

use entity_model::{Kind, Unfit};
use entity_state::Cause;

/// The word for a kind of event.
#[tactic(auto, unfolding(crate::specs::Transcript::kind_word))]
pub fn kind_word(kind: Kind) -> &'static str
    ensures { result.now ≡ kind_word kind }
{
    match kind {
        Kind::Edit => "edit",
        Kind::Delete => "delete",
        Kind::Undelete => "undelete",
        Kind::ReconcileDeleted => "reconcile-deleted",
        Kind::ReconcileKept => "reconcile-kept",
    }
}

/// The word for why a revision isn't held.
#[tactic(auto, unfolding(crate::specs::Transcript::cause_word))]
pub fn cause_word(cause: Cause) -> &'static str
    ensures { result.now ≡ cause_word cause }
{
    match cause {
        Cause::Missing => "missing",
        Cause::Failed => "failed",
        Cause::Unfit(unfit) => unfit_word(unfit),
    }
}

// The word for why bytes are no document.
#[tactic(auto, unfolding(crate::specs::Transcript::unfit_word))]
fn unfit_word(unfit: Unfit) -> &'static str
    ensures { result.now ≡ unfit_word unfit }
{
    match unfit {
        Unfit::Large => "unfit-large",
        Unfit::Deep => "unfit-deep",
        Unfit::NotJson => "unfit-notjson",
        Unfit::Shape => "unfit-shape",
        Unfit::Foreign => "unfit-foreign",
    }
}
