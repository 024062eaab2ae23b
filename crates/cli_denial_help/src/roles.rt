//! Targets metadata: the denials 26 to 33.

pub(crate) const ROLE_UNLISTED: &str = concat!(
    "The snapshot does not list the role, and a role's document is taken only where the snapshot lists\n",
    "its version. Look whether the name before the colon is the one that you mean. Seal with the role's\n",
    "document in the folder: 'release draft --in d take ROLE.json' brings in what somebody else signed,\n",
    "and 'release draft --in d seal' lists it. Then have snapshot and timestamp signed, and publish all\n",
    "of it in one batch.\n",
);

pub(crate) const ROLE_LENGTH: &str = concat!(
    "The length is not the one that the snapshot gives: the document is another file than the one that\n",
    "the snapshot was made over, changed or signed once more since then. Draft snapshot and timestamp\n",
    "again over it by 'release draft --in d seal', with --anew where they are signed already, have both\n",
    "signed, and publish all of it. A client that is denied so was given another file by its mirror: ask\n",
    "another mirror or wait for this one.\n",
);

pub(crate) const ROLE_HASH: &str = concat!(
    "The digest is not the one that the snapshot gives: the document is another file than the one that\n",
    "the snapshot was made over, changed or signed once more since then. Draft snapshot and timestamp\n",
    "again over it by 'release draft --in d seal', with --anew where they are signed already, have both\n",
    "signed, and publish all of it. A client that is denied so was given another file by its mirror: ask\n",
    "another mirror or wait for this one.\n",
);

pub(crate) const ROLE_VERSION: &str = concat!(
    "The version is not the one that the snapshot lists: no snapshot was drafted after this document, or\n",
    "the document is an older one. Seal first: 'release draft --in d seal' drafts a snapshot that lists\n",
    "it, and a timestamp that names this snapshot. Have both signed by\n",
    "'release sign --key snapshot --key timestamp --in d', and publish all of it in one batch by\n",
    "'release publish --db repository.db --in d'. 'release show --db repository.db' prints the versions\n",
    "that are held.\n",
);

pub(crate) const ROLE_THRESHOLD: &str = concat!(
    "No chain of delegations vouches for the document, or its rule is not met: too few of its keys have\n",
    "signed, nobody delegates to the role, or a document on the way to it has expired. The keys of\n",
    "'targets' stand in the root, those of any other role where it is delegated to. 'release show --in d'\n",
    "says which keys have signed and which are wanted, and 'release publish -v' how many. Let the missing\n",
    "keys sign by 'release sign --key NAME --in d'. A delegation is drafted by\n",
    "'release draft --in d targets --delegate ROLE=KEY:PATTERN', and published before the role's document\n",
    "or with it.\n",
);

pub(crate) const ROLE_EXPIRED: &str = concat!(
    "The role's document is not live: its 'expires' has come. The publisher renews it by\n",
    "'release draft --db repository.db --in d targets', with '--role ROLE' where it is that of a\n",
    "delegated role, has it signed, seals, and publishes. A client calls 'release update' and then asks\n",
    "again; where it is denied again, there is no newer document yet, or the clock of this machine is\n",
    "wrong. 'release show --db repository.db --due DAYS' tells beforehand what is about to expire.\n",
);

pub(crate) const VERSION_TAKEN: &str = concat!(
    "Another document of the role has this version, so two were drafted over the same one. The one that\n",
    "came later takes the next version: bring in what is held and draft the same changes again, by\n",
    "'release draft --db repository.db --in d targets' and its options. Then have it signed, seal, and\n",
    "publish.\n",
);

pub(crate) const ROLE_MISSING: &str = concat!(
    "The document of a role at the listed version is not held, so no search goes on through this role.\n",
    "The publisher offers it by 'release publish --db repository.db ROLE:FILE', together with the\n",
    "snapshot that lists it. A client has asked its mirrors, and none of them had it: ask another mirror,\n",
    "or later.\n",
);
