//! Snapshots: the denials 17 to 25.

pub(crate) const SNAPSHOT_LENGTH: &str = concat!(
    "The length is not the one that the timestamp gives: the snapshot is another file than the one that\n",
    "the timestamp was made over, changed or signed once more since then. Draft the timestamp again over\n",
    "it by 'release draft --in d seal', with --anew where it is signed already, have it signed, and\n",
    "publish both. A client that is denied so was given another file by its mirror: ask another mirror or\n",
    "wait for this one.\n",
);

pub(crate) const SNAPSHOT_HASH: &str = concat!(
    "The digest is not the one that the timestamp gives: the snapshot is another file than the one that\n",
    "the timestamp was made over, changed or signed once more since then. Draft the timestamp again over\n",
    "it by 'release draft --in d seal', with --anew where it is signed already, have it signed, and\n",
    "publish both. A client that is denied so was given another file by its mirror: ask another mirror or\n",
    "wait for this one.\n",
);

pub(crate) const SNAPSHOT_THRESHOLD: &str = concat!(
    "The root's rule for the snapshot is not met: too few of the snapshot's keys have signed it. These\n",
    "keys are those of the root that is trusted by then, a new one of the same batch among them.\n",
    "'release show --in d' says which keys have signed and which are wanted, and 'release publish -v' how\n",
    "many. Sign it by 'release sign --key NAME --in d' and publish again.\n",
);

pub(crate) const SNAPSHOT_VERSION: &str = concat!(
    "The version is not the one that the timestamp names. The timestamp comes first and says which\n",
    "snapshot is taken after it. Draft the two anew so that they belong together, by\n",
    "'release draft --db repository.db --in d seal', have both signed, and publish them in one batch.\n",
);

pub(crate) const SNAPSHOT_ROLLBACK: &str = concat!(
    "A role has a lower version than in the held snapshot: this one was made over older targets metadata\n",
    "than those that are held. The publisher brings these in and drafts the snapshot anew by\n",
    "'release draft --db repository.db --in d seal', has it signed and publishes it.\n",
    "'release show --db repository.db' prints the versions that are held. A client that is denied so was\n",
    "offered older files than it has seen: ask another mirror or wait for this one.\n",
);

pub(crate) const ROLE_DROPPED: &str = concat!(
    "A role of the held snapshot is not listed. Each snapshot lists what the one before it lists, also a\n",
    "role to which nothing is delegated any more. Draft it anew by\n",
    "'release draft --db repository.db --in d seal', have it signed and publish it; a snapshot that is\n",
    "written by hand gets the role's entry back, at its version or a higher one.\n",
);

pub(crate) const SNAPSHOT_EXPIRED: &str = concat!(
    "The snapshot is not live: its 'expires' has come. The publisher drafts a new one, and the timestamp\n",
    "that names it, by 'release draft --db repository.db --in d seal', has both signed and publishes\n",
    "them. A client calls 'release update' and then asks again; where it is denied again, there is no\n",
    "newer snapshot yet, or the clock of this machine is wrong.\n",
);

pub(crate) const NO_SNAPSHOT: &str = concat!(
    "No snapshot is held, so no targets metadata are taken and no target is found. Publish the one that\n",
    "the timestamp names, after the timestamp and before targets metadata, all in one batch:\n",
    "'release publish --db repository.db --in d' keeps this order. A client calls 'release update', which\n",
    "fetches it; where it is denied again, the mirror does not have it.\n",
);

pub(crate) const SNAPSHOT_STALE: &str = concat!(
    "The timestamp does not name the held snapshot: the timestamp is newer. Publish the snapshot that it\n",
    "names in the same batch, after the timestamp and before targets metadata:\n",
    "'release publish --db repository.db --in d' keeps this order. A client calls 'release update', which\n",
    "fetches it; where it is denied again, the mirror does not have it.\n",
);
