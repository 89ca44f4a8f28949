//! How a plan is gone on with.
ghost use Rattle.std.specs.Prelude.{◌≡◌};
ghost use Rattle.plan_previews.specs.GoingOn.{resume_text};

/// The command that continues with a plan by the rules of this version, once it has stopped. Only one of version 1 is
/// gone on with by itself: in another one a slot may move again.
pub fn resume_text(version: u8) -> &'static [u8]
    ensures { result.now ≡ resume_text version }
{
    if version == 1 {
        b"reshard resume --cluster ADDR --plan FILE"
    } else {
        b"reshard resume --cluster ADDR, and a plan anew for what is left"
    }
}
