// Names that the members of an object have.
ghost use Rattle.std.specs.Prelude.{◌≡◌, ℕ, List, IfOk, IfErr};
ghost use Rattle.canonical_json.specs.Spelling.{IsProper};
ghost use Rattle.canonical_json.specs.View.{view};
ghost use Rattle.path_patterns.specs.Grammar.{IsName};
ghost use Rattle.document_parts.specs.Bodies.{IsTextOf};
ghost use Rattle.document_parts.specs.Members.{Has};
ghost use Rattle.document_parts.specs.steps.Faults.{IsIll};

use crate::documents::ShapeFault;
use crate::members::{member_of, text_of};
use crate::trail::Trail;
use canonical_json::Value;
use path_patterns::RoleName;
use std::alloc::Global;

/// The name that the object has under this name.
pub fn name_at(
    alloc: Global,
    value: &Value,
    name: &'static str,
    trail: &mut Trail,
) -> Result<RoleName, ShapeFault>
    requires { IsProper (view value.now) }
    ensures ok { IfOk result (λ n. Has (view value.now) name.now (λ x. IsTextOf IsName x n)) }
    ensures err { IfErr result (IsIll ((n : List ℕ) × Has (view value.now) name.now (λ x. IsTextOf IsName x n))) }
{
    trail.enter(name);
    let Some(found) = member_of(value, name) else {
        return Err(ShapeFault::WrongShape);
    };
    let found = read_name(alloc, found)?;
    trail.leave();
    Ok(found)
}

// The name that the value is.
fn read_name(alloc: Global, value: &Value) -> Result<RoleName, ShapeFault>
    ensures ok { IfOk result (λ n. IsTextOf IsName (view value.now) n) }
    ensures err { IfErr result (IsIll ((n : List ℕ) × IsTextOf IsName (view value.now) n)) }
{
    let Some(text) = text_of(value) else {
        return Err(ShapeFault::WrongShape);
    };
    let Some(name) = RoleName::read(alloc, text)? else {
        return Err(ShapeFault::WrongShape);
    };
    Ok(name)
}
