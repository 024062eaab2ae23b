//! Laws of layouts, in functions that do nothing.
ghost use Rattle.std.specs.Prelude.{◌≡◌, ℕ, List};
ghost use Rattle.keys_roles.specs.Plain.{RoleRule, Table};
ghost use Rattle.document_parts.specs.Documents.{Layout};
ghost use Rattle.metadata.specs.File.{Bytes, File, Name};
ghost use Rattle.document_parts.specs.Links.{Link};
ghost use Rattle.denials.specs.Orders.{Judged};
ghost use Rattle.layouts.specs.Layouts.{layout_holds};

/// A law, which does nothing: a layout and its links have one judgement, whichever good links are taken for its steps.
pub fn one_verdict()
    ensures { (layout : File Layout) (owners : RoleRule) (table : Table) (links : List (File Link)) (step : Name) (product digest : Bytes) (now : ℕ) (r q : Judged (Unit {0}))
        → layout_holds layout owners table links step product digest now r → layout_holds layout owners table links step product digest now q → r ≡ q }
{}
