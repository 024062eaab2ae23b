//! Timestamps: the denials 12 to 16.

pub(crate) const TIMESTAMP_THRESHOLD: &str = concat!(
    "The root's rule for the timestamp is not met: too few of the timestamp's keys have signed it. These\n",
    "keys are those of the root that is trusted by then, a new one of the same batch among them.\n",
    "'release show --in d' says which keys have signed and which are wanted, and 'release publish -v' how\n",
    "many. Sign it by 'release sign --key NAME --in d' and publish again.\n",
);

pub(crate) const TIMESTAMP_ROLLBACK: &str = concat!(
    "The version is lower than that of the held timestamp: a newer one was published meanwhile, or this\n",
    "file is an old one. The publisher drafts it over what is held by\n",
    "'release draft --db repository.db --in d seal', has it signed and publishes it. A client that is\n",
    "denied so was offered older files than it has seen: ask another mirror or wait for this one. After a\n",
    "repository was set back to a backup, its publisher has to publish higher versions.\n",
);

pub(crate) const NAMED_SNAPSHOT_ROLLBACK: &str = concat!(
    "It names a lower snapshot version than the held timestamp does: this timestamp was made over an\n",
    "older snapshot. The publisher drafts it over what is held by\n",
    "'release draft --db repository.db --in d seal', has it signed and publishes it. A client that is\n",
    "denied so was offered what is older than it has seen: ask another mirror or wait for this one.\n",
);

pub(crate) const TIMESTAMP_EXPIRED: &str = concat!(
    "The timestamp is not live: its 'expires' has come. The publisher renews it by\n",
    "'release draft --db repository.db --in d seal', 'release sign --key timestamp --in d' and\n",
    "'release publish --db repository.db --in d'. A client calls 'release update' and then asks again;\n",
    "where it is denied again, there is no newer timestamp yet, or the clock of this machine is wrong.\n",
    "'release show --db repository.db --due DAYS' tells beforehand what is about to expire.\n",
);

pub(crate) const NO_TIMESTAMP: &str = concat!(
    "No timestamp is held: none was published so far, or a root with other keys for the timestamp or the\n",
    "snapshot made the repository forget it, with the snapshot and all targets metadata. Publish\n",
    "timestamp, snapshot and targets metadata together, in this order: 'release draft --in d seal' drafts\n",
    "what is missing, 'release sign --key NAME --in d' signs it, and\n",
    "'release publish --db repository.db --in d' offers all of it. A client calls 'release update' and\n",
    "then asks again.\n",
);
