// What is true of the definitions of a search.
ghost use Rattle.std.specs.Prelude.{◌≡◌, ◌↔◌, ℕ, List, [], ◌∷◌, Ok, Err, Some, take, IsTrue, Contains, AllPairs};
ghost use Rattle.document_parts.specs.Documents.{Targets};
ghost use Rattle.metadata.specs.File.{Bytes, Name, File};
ghost use Rattle.delegations.specs.Delegation.{Edge, Graph, before, chain_end, all_index_lists, chains, visits};
ghost use Rattle.denials.specs.Orders.{Judged, Denied, RoleMissing};
ghost use Rattle.delegations.specs.Missed.{HasRowsOf, IsMissed};
ghost use Rattle.delegations.specs.Search.{Shelf, Good, Found, IsSoundly, visit, search};
ghost use Rattle.delegations.specs.Worked.{ended_below, ended_by_a_known_role, ended_by_itself, met_below, nested};

/// A law, which does nothing: every chain of covering delegations, through distinct roles from the top role on, is among
/// those from which the order of the visits is made (TUF 1.0, section 5.6.7, the pre-order depth-first search).
pub fn no_chain_left_out()
    ensures { (g : Graph) (c : List ℕ) (last : Edge) → chain_end g c ≡ Some last → Contains (chains g) c }
{}

/// A law, which does nothing: the index lists that a search looks at rise in dictionary order, each before all later ones.
/// So do the chains among them, and the visits. The first chain to a role is thus the least one.
pub fn index_lists_rise()
    ensures lists { (g : Graph) → AllPairs (λ c d. IsTrue (before c d)) (all_index_lists g) }
    ensures chains { (g : Graph) → AllPairs (λ c d. IsTrue (before c d)) (chains g) }
    ensures visits { (g : Graph) → AllPairs (λ c d. IsTrue (before c d)) (visits g) }
{}

/// A law, which does nothing: where a search visits by a chain, it visits by each beginning of that chain, and so before it: each
/// role of the chain is judged by the chain's own edge.
pub fn beginnings_are_visited()
    ensures { (g : Graph) (c : List ℕ) (k : ℕ) → Contains (visits g) c → Contains (visits g) (take k c) }
{}

/// A law, which does nothing: the visit of an edge ends in a file exactly where the document of the edge is good, and it is
/// that file. So the order of a visit's checks is no further condition (TUF 1.0, section 5.6.7).
pub fn good_documents_are_visited()
    ensures { (V : Shelf) (e : Edge) (now : ℕ) (file : File Targets) → visit V e now (Ok file) ↔ ((good : Good V e now) × (good.file ≡ file)) }
{}

/// A law, which does nothing: what a search finds is the listing of a role that a chain of delegations reaches, each of which covers
/// the path, and each of whose roles is good by its edge (TUF 1.0, section 5.6.7).
pub fn search_is_sound()
    ensures { (V : Shelf) (path : Bytes) (now : ℕ) (found : Found) → search V path now (Ok found) → IsSoundly V path now found }
{}

/// A law, which does nothing: a document that a search misses is of a role that the snapshot lists, at the listed version, and is
/// not on the shelf; and whichever document meets the edge by which the search came to that role is vouched for (TUF 1.0, section
/// 5.6.7). So a client that fetches what is missed may offer it.
pub fn missed_documents()
    ensures { (V : Shelf) (path : Bytes) (now : ℕ) (role : Name) (version : ℕ) → search V path now (Err (Denied (RoleMissing role version)))
        → IsMissed V path now role version }
{}

/// A law, which does nothing: over a shelf that has the same rows and more, with the same root and snapshot, a search comes to the
/// same, unless it missed a document.
pub fn search_grows()
    ensures { (V W : Shelf) (path : Bytes) (now : ℕ) (j : Judged Found) → HasRowsOf V W
        → ((role : Name) (version : ℕ) → j ≡ Err (Denied (RoleMissing role version)) → ⊥) → search V path now j → search W path now j }
{}

/// A law, which does nothing: the visits of five small graphs, each by the list of indices that leads to it. A role is visited with
/// all that is after it before the next, once, and by the first edge that leads to it; and a terminating delegation ends what is
/// left at every level, also where its role was visited before, or is the very role that delegates.
pub fn worked_visits()
    ensures nested { visits nested ≡ [] ∷ (0 ∷ []) ∷ (0 ∷ 0 ∷ []) ∷ (0 ∷ 0 ∷ 0 ∷ []) ∷ [] }
    ensures known_role { visits ended_by_a_known_role ≡ [] ∷ (0 ∷ []) ∷ (0 ∷ 0 ∷ []) ∷ [] }
    ensures below { visits ended_below ≡ [] ∷ (0 ∷ []) ∷ (0 ∷ 0 ∷ []) ∷ [] }
    ensures itself { visits ended_by_itself ≡ [] ∷ (0 ∷ []) ∷ [] }
    ensures met_below { visits met_below ≡ [] ∷ (0 ∷ []) ∷ (0 ∷ 0 ∷ []) ∷ [] }
{}
