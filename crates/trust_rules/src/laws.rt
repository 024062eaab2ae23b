//! Laws of the trust machine, in functions that do nothing.
ghost use Rattle.path_patterns.specs.Names.{dotted};
ghost use Rattle.std.specs.Prelude.{◌≡◌, ◌↔◌, ◌≢◌, ◌<◌, ◌≤◌, ◌+◌, ◌++◌, [], ◌∷◌, ℕ, List, Option, Some, None, Result, Ok, Err, IfSome, IsNone, IsSome, length, map, codes, nat_eq, option_map, option_and_then, if◌then◌else◌};
ghost use Rattle.limits.specs.Limits.{blob_limit, most_held};
ghost use Rattle.sha2.specs.Sha256.{sha256};
ghost use Rattle.document_parts.specs.Documents.{MetaFile, Profile, Root, Snapshot, Targets, Timestamp, first_profile};
ghost use Rattle.document_parts.specs.Bodies.{IsListable};
ghost use Rattle.metadata.specs.File.{Bytes, Name, File, IsFileOf, root_form, snapshot_form, targets_form, timestamp_form};
ghost use Rattle.document_parts.specs.Parts.{last_number};
ghost use Rattle.delegations.specs.Delegation.{before};
ghost use Rattle.delegations.specs.Rows.{HasHash, HasLength, entry_of, place_before, row_at, value_at, with_row};
ghost use Rattle.delegations.specs.Search.{Vouched, shelf_of};
ghost use Rattle.denials.specs.Orders.{Denial, RoleMissing, BlobMissing, Denied, Judged, Same};
ghost use Rattle.trust_rules.specs.Misses.{IsPart, IsThere, MissesRole, MissesBlob, IsProperListing};
ghost use Rattle.trust_rules.specs.State.{Trusted, State, FollowsRoot, MeetsTop, NamesSnapshot, blob_at, IsRootChain, IsTrusted, IsState, kept_root, metadata_of, nothing};
ghost use Rattle.trust_rules.specs.Offers.{AfterRoot, NoDrop, NoRollback, Offer, RootOffer, SnapshotOffer, TargetsOffer, TimestampOffer, Batched, init, offer, batch, put_blob, prune};
ghost use Rattle.trust_rules.specs.Grants.{Listed, listed, grants};
ghost use Rattle.trust_rules.specs.Before.{grants_before};
ghost use Rattle.trust_rules.specs.Contents.{contents_of, root_rows};
ghost use Rattle.trust_rules.specs.Effects.{Effects, applied};
ghost use Rattle.trust_rules.specs.Held.{IsHeld, held_of, held_with};
ghost use Rattle.trust_rules.specs.Runs.{Batch, BatchDone, Command, Target, Reply, Refused, Outcome, IsGranted, Steps, Runs, StaysCoherent, with_trusted};

use delegations::{search_grows, search_is_sound};
use layouts::one_verdict;
use metadata::{one_document, one_shape, snapshot_names};

/// A law, which does nothing: a repository that trusts nothing and holds no blobs is in a valid state.
pub fn nothing_is_valid()
    ensures { IsState nothing }
{}

/// A law, which does nothing: what each command leaves of a valid state is a valid state.
pub fn stays_valid()
    ensures begins { (S T : State) (b : Bytes) → init S b (Ok T) → IsState T }
    ensures offers { (T U : Trusted) (o : Offer) (b : Bytes) (now : ℕ) → IsTrusted T → offer T o b now (Ok U) → IsTrusted U }
    ensures roots { (T U : Trusted) (o : Offer) (b : Bytes) (now : ℕ) → IsTrusted T → offer T o b now (Ok U) → IsSome U.root }
    ensures batches { (T : Trusted) (os : List (Offer × Bytes)) (now : ℕ) (B : Batched) → IsTrusted T → batch T os now (Ok B) → IsTrusted B.trusted }
    ensures batch_roots { (T : Trusted) (os : List (Offer × Bytes)) (now : ℕ) (B : Batched) → IsTrusted T → batch T os now (Ok B) → IsSome T.root → IsSome B.trusted.root }
    ensures puts { (S T : State) (digest b : Bytes) → IsState S → put_blob S digest b (Ok T) → IsState T }
    ensures prunes { (S T : State) → IsState S → prune S (Ok T) → IsState T }
    ensures trusted { (S : State) (T : Trusted) → IsState S → IsTrusted T → (IsSome S.trusted.root → IsSome T.root) → IsState (record S { trusted = T }) }
    ensures steps { (S T : State) (c : Command) (now : ℕ) (reply : Reply) → IsState S → Steps S c now (T, reply) → IsState T }
    ensures runs { (S T : State) (cs : List (Command × ℕ)) (replies : List Reply) → IsState S → Runs S cs T replies → IsState T }
{
    snapshot_names();
}

/// A law, which does nothing: each command has one judgement, and one outcome.
pub fn one_judgement()
    ensures begins { (S : State) (b : Bytes) (r q : Judged State) → init S b r → init S b q → r ≡ q }
    ensures offers { (T : Trusted) (o : Offer) (b : Bytes) (now : ℕ) (r q : Judged Trusted) → offer T o b now r → offer T o b now q → r ≡ q }
    ensures batches { (T : Trusted) (os : List (Offer × Bytes)) (now : ℕ) (r q : Result Batched (Denial × ℕ)) → batch T os now r → batch T os now q → r ≡ q }
    ensures puts { (S : State) (digest b : Bytes) (r q : Judged State) → put_blob S digest b r → put_blob S digest b q → r ≡ q }
    ensures prunes { (S : State) (r q : Judged State) → prune S r → prune S q → r ≡ q }
    ensures targets { (S : State) (path : Bytes) (asked : Option Bytes) (now : ℕ) (r q : Judged Bytes) → grants S path asked now r → grants S path asked now q → r ≡ q }
    ensures steps { (S : State) (c : Command) (now : ℕ) (r q : Outcome) → Steps S c now r → Steps S c now q → r ≡ q }
{
    one_document();
    one_shape();
    one_verdict();
}

/// A law, which does nothing: every command but a single offer leaves a state coherent that was.
pub fn stays_coherent()
    ensures { StaysCoherent }
{}

/// A law, which does nothing: new roots leave the rows of those before as they are, and stand after them.
pub fn rows_stay()
    ensures { (S : State) (E : Effects) → IsState S → IsState (applied S E)
        → (contents_of (applied S E)).roots ≡ (contents_of S).roots ++ root_rows (applied S E).trusted (length S.trusted.roots) (map kept_root E.roots) }
{
    one_document();
    one_shape();
}

/// A law, which does nothing: without its blobs' bytes, a valid state is valid as what is held, and so is what a command leaves of it;
/// changes make of what is held what they make of the state.
pub fn held_follows()
    ensures valid { (S : State) → IsState S → IsHeld (held_of S) }
    ensures applied { (S : State) (E : Effects) → held_of (applied S E) ≡ held_with (held_of S) E }
    ensures steps { (S T : State) (c : Command) (now : ℕ) (reply : Reply) → IsState S → Steps S c now (T, reply) → IsHeld (held_of T) }
{
    stays_valid();
}

/// A law, which does nothing: a request for a target leaves the state as it is and is replied the bytes that it grants or its first
/// denial, and no command that is refused leaves another state.
pub fn replies_tell()
    ensures targets { (S T : State) (path : Bytes) (asked : Option Bytes) (now : ℕ) (reply : Reply) → Steps S (Target path asked) now (T, reply)
        → (T ≡ S) × IsGranted S path asked now reply }
    ensures refusals { (S T : State) (c : Command) (now : ℕ) (d : Denial) (index : Option ℕ) → Steps S c now (T, Refused d index) → T ≡ S }
{}

/// A law, which does nothing: a list of roots is the chain of one root.
pub fn one_chain()
    ensures { (roots : List (Profile × Bytes)) (r q : File Root) → IsRootChain roots r → IsRootChain roots q → r ≡ q }
{
    one_document();
    one_shape();
}

/// A law, which does nothing: under which names the metadata of a valid state is found, and that no two versions and roles have one
/// name (TUF 1.0, section 6.2).
pub fn names_find()
    ensures once { (n m : ℕ) (a b : Bytes) → n ≤ last_number → m ≤ last_number → dotted n a ≡ dotted m b → (n ≡ m) × (a ≡ b) }
    ensures timestamps { (T : Trusted) → IsTrusted T → metadata_of T (codes "timestamp.json") ≡ option_map (λ t. t.bytes) T.timestamp }
    ensures roots { (T : Trusted) (n : ℕ) → IsTrusted T → n ≤ last_number → metadata_of T (dotted n (codes "root")) ≡ option_map (λ r. r.1) (value_at nat_eq (root_rows T 0 T.roots) n) }
    ensures snapshots { (T : Trusted) (n : ℕ) → IsTrusted T → n ≤ last_number
        → metadata_of T (dotted n (codes "snapshot")) ≡ option_and_then (λ s. if nat_eq s.body.version n then Some s.bytes else None) T.snapshot }
    ensures roles { (T : Trusted) (n : ℕ) (role : Name) → IsTrusted T → n ≤ last_number → IsListable role
        → metadata_of T (dotted n role) ≡ option_map (λ f. f.bytes) (row_at T.shelf role n) }
{}

/// A law, which does nothing: which new files a state accepts, and what it is with each: every order of checks, read backwards
/// (TUF 1.0, sections 5.4 to 5.6).
pub fn accepts_new()
    ensures timestamps { (T : Trusted) (root : File Root) (now : ℕ) → T.root ≡ Some root → now < root.body.expires
        → (new : File Timestamp) → IsFileOf timestamp_form new → MeetsTop root root.body.timestamp new
        → IfSome T.timestamp (λ old. (old.body.version < new.body.version) × (old.body.snapshot.version ≤ new.body.snapshot.version)) → now < new.body.expires
        → offer T TimestampOffer new.bytes now (Ok (record T { timestamp = Some new })) }
    ensures snapshots { (T : Trusted) (root : File Root) (now : ℕ) → T.root ≡ Some root → now < root.body.expires
        → (stamp : File Timestamp) → T.timestamp ≡ Some stamp → now < stamp.body.expires
        → (new : File Snapshot) → IsFileOf snapshot_form new → NamesSnapshot stamp new → MeetsTop root root.body.snapshot new
        → IfSome T.snapshot (λ old. NoRollback old.body new.body × NoDrop old.body new.body) → now < new.body.expires
        → (option_map (λ old. old.bytes) T.snapshot ≢ Some new.bytes) → offer T SnapshotOffer new.bytes now (Ok (record T { snapshot = Some new })) }
    ensures targets { (T : Trusted) (root : File Root) (now : ℕ) → T.root ≡ Some root → now < root.body.expires
        → (stamp : File Timestamp) → T.timestamp ≡ Some stamp → now < stamp.body.expires
        → (snap : File Snapshot) → T.snapshot ≡ Some snap → NamesSnapshot stamp snap → now < snap.body.expires
        → (role : Name) (entry : MetaFile) (new : File Targets) → IsFileOf targets_form new → entry_of snap role ≡ Some entry
        → HasLength entry new.bytes → HasHash entry new.bytes → new.body.version ≡ entry.version → Vouched (shelf_of root snap T.shelf) role new now
        → now < new.body.expires → IsNone (row_at T.shelf role entry.version) → length T.shelf < most_held
        → offer T (TargetsOffer role) new.bytes now (Ok (record T { shelf = with_row place_before T.shelf (role, entry.version) new })) }
    ensures blobs { (S : State) (root : File Root) (b : Bytes) → S.trusted.root ≡ Some root → length b ≤ blob_limit → IsNone (blob_at S.blobs (sha256 b))
        → length S.blobs < most_held → put_blob S (sha256 b) b (Ok (record S { blobs = with_row before S.blobs (sha256 b) b })) }
{}

/// A law, which does nothing: with which root a chain goes on, and under which name it is found.
pub fn chains_go_on()
    ensures next { (roots more : List (Profile × Bytes)) (b : Profile × Bytes) (old last : File Root) → IsRootChain roots old → IsRootChain (roots ++ b ∷ more) last
        → (new : File Root) × (kept_root new ≡ b) × IsFileOf root_form new × FollowsRoot old new × IsRootChain (roots ++ b ∷ []) new }
    ensures named { (T : Trusted) (roots more : List (Profile × Bytes)) (b : Profile × Bytes) (old : File Root) → IsTrusted T → IsRootChain roots old → T.roots ≡ roots ++ b ∷ more
        → metadata_of T (dotted (old.body.version + 1) (codes "root")) ≡ Some b.1 }
    ensures newest { (T : Trusted) (root : File Root) → IsTrusted T → T.root ≡ Some root → root.body.version < last_number
        → metadata_of T (dotted (root.body.version + 1) (codes "root")) ≡ None }
{
    one_document();
    one_shape();
}

/// A law, which does nothing: a root that follows is taken, whatever else is said of it.
pub fn roots_are_taken()
    ensures { (T : Trusted) (old new : File Root) (now : ℕ) (j : Judged Trusted) → T.root ≡ Some old → IsFileOf root_form old → IsFileOf root_form new → FollowsRoot old new
        → length T.roots < most_held → offer T RootOffer new.bytes now j → AfterRoot T old new j }
{
    one_document();
    one_shape();
}

/// A law, which does nothing: bytes that are granted are the blob of the listing's digest, of the listing's length; and a path has one listing.
pub fn granted_blobs()
    ensures granted { (S : State) (path b : Bytes) (asked : Option Bytes) (now : ℕ) → grants S path asked now (Ok b)
        → (at : Listed) × listed S.trusted path now (Ok at) × (blob_at S.blobs at.listing.digest ≡ Some b) × (length b ≡ at.listing.len)
        × IfSome asked (λ digest. at.listing.digest ≡ digest) }
    ensures listed_once { (T : Trusted) (path : Bytes) (now : ℕ) (r q : Judged Listed) → listed T path now r → listed T path now q → r ≡ q }
{
    one_document();
    one_shape();
}

/// A law, which does nothing: what a targets document that is accepted leaves, and where an offer of one is the same.
pub fn offers_tell()
    ensures targets { (T U : Trusted) (snap : File Snapshot) (role : Name) (b : Bytes) (now : ℕ) → T.snapshot ≡ Some snap → offer T (TargetsOffer role) b now (Ok U)
        → (entry : MetaFile) × (new : File Targets) × (entry_of snap role ≡ Some entry) × IsFileOf targets_form new × (new.bytes ≡ b)
        × (U ≡ record T { shelf = with_row place_before T.shelf (role, entry.version) new }) }
    ensures same { (T : Trusted) (snap : File Snapshot) (role : Name) (b : Bytes) (now : ℕ) → T.snapshot ≡ Some snap → offer T (TargetsOffer role) b now (Err Same)
        → (entry : MetaFile) × (entry_of snap role ≡ Some entry) × IsSome (row_at T.shelf role entry.version) }
{}

/// A law, which does nothing: a state that holds a part of another grants and denies as that does, unless it misses a document or a file; and what
/// it is that it misses (TUF 1.0, section 5.6.7; in-toto 1.0, section 5.2). So a client that fetches what is missed comes to the same end.
pub fn missed_files()
    ensures same { (D S : State) (path : Bytes) (asked : Option Bytes) (now : ℕ) (j : Judged Bytes) → IsPart D S → IsThere j
        → grants D path asked now j → grants S path asked now j }
    ensures roles { (D S : State) (path : Bytes) (now : ℕ) (role : Name) (version : ℕ) → IsPart D S
        → grants D path None now (Err (Denied (RoleMissing role version))) → MissesRole D S path now role version }
    ensures blobs { (D S : State) (path at digest : Bytes) (now len : ℕ) → IsState S → IsPart D S
        → grants D path None now (Err (Denied (BlobMissing at digest len))) → MissesBlob D S path now at digest len }
    ensures proper { (S : State) (path : Bytes) (now : ℕ) (at : Listed) → IsState S → listed S.trusted path now (Ok at) → IsProperListing at.listing }
{
    search_is_sound();
    search_grows();
    one_document();
    one_shape();
}

/// A law, which does nothing: where the trusted root is of the first profile, each request for a target has the end that it had before roots had
/// profiles.
pub fn first_profile_as_before()
    ensures targets { (S : State) → IsState S → IfSome S.trusted.root (λ root. root.body.profile ≡ first_profile)
        → (path : Bytes) (asked : Option Bytes) (now : ℕ) (r : Judged Bytes) → grants S path asked now r ↔ grants_before S path asked now r }
{}
