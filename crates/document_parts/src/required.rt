//! The paths for which a root requires a layout.
ghost use Rattle.std.specs.Prelude.{List, ℕ, Option, codes, option_map, IfOk, IfErr};
ghost use Rattle.canonical_json.specs.Spelling.{IsProper};
ghost use Rattle.canonical_json.specs.View.{view};
ghost use Rattle.path_patterns.specs.Grammar.{IsPattern};
ghost use Rattle.document_parts.specs.Bodies.{AreTextsOf, HasRequired};
ghost use Rattle.document_parts.specs.Members.{MayHave};
ghost use Rattle.document_parts.specs.Views.{profile_view};
ghost use Rattle.document_parts.specs.steps.Faults.{IsIll};

use crate::documents::{Profile, ShapeFault};
use crate::members::member_of;
use crate::scopes::read_patterns;
use crate::trail::Trail;
use canonical_json::Value;
use path_patterns::Pattern;
use std::alloc::Global;

/// The patterns of the paths that need a layout, 1 to 64, if a root of this profile has them. In a root of the first profile the member
/// `layout_required` is unknown, and means nothing.
pub fn required_of(
    alloc: Global,
    signed: &Value,
    profile: Profile,
    trail: &mut Trail,
) -> Result<Option<Vec<Pattern>>, ShapeFault>
    requires { IsProper (view signed.now) }
    ensures ok { IfOk result (λ o. HasRequired (view signed.now) (profile_view profile) (option_map (λ ps. ps.items) o)) }
    ensures err { IfErr result (IsIll ((o : Option (List (List ℕ))) × HasRequired (view signed.now) (profile_view profile) o)) }
{
    match profile {
        Profile::First => Ok(None),
        Profile::Second => patterns_at(alloc, signed, trail),
    }
}

// The patterns that the object has under `layout_required`, if it has any.
fn patterns_at(
    alloc: Global,
    signed: &Value,
    trail: &mut Trail,
) -> Result<Option<Vec<Pattern>>, ShapeFault>
    requires { IsProper (view signed.now) }
    ensures ok { IfOk result (λ o. MayHave (view signed.now) (codes "layout_required") (AreTextsOf IsPattern) (option_map (λ ps. ps.items) o)) }
    ensures err { IfErr result (IsIll ((o : Option (List (List ℕ))) × MayHave (view signed.now) (codes "layout_required") (AreTextsOf IsPattern) o)) }
{
    let Some(found) = member_of(signed, "layout_required") else {
        return Ok(None);
    };
    trail.enter("layout_required");
    let patterns = read_patterns(alloc, found, trail)?;
    trail.leave();
    Ok(Some(patterns))
}
