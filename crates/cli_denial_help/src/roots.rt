//! Roots: the denials 6 to 11.

pub(crate) const NO_ROOT: &str = concat!(
    "No root is trusted: with this database the trust has not begun. Look first whether --db names the\n",
    "file that you mean, since a file that is not there is made. A repository and a client both begin by\n",
    "'release init --db FILE root.json', with a first root that you got in a way that you trust.\n",
);

pub(crate) const ROOT_EXISTS: &str = concat!(
    "A root is trusted already: with this database the trust has begun, and 'release init' begins it\n",
    "once. A newer root comes into a repository by 'release publish --db FILE root:root.json', and into a\n",
    "client by 'release update'. Whoever wants to begin with another first root takes another database\n",
    "file, which then knows nothing of what this one has seen.\n",
);

pub(crate) const ROOT_VERSION: &str = concat!(
    "The version is not one more than that of the trusted root. Roots are taken one after the other and\n",
    "none is left out: where several are new, offer all of them in one batch, in the order of their\n",
    "versions. 'release show --db repository.db' prints the version that is trusted. Draft the root that\n",
    "follows it by 'release draft --db repository.db --in d root ROLE=RULE' and have it signed.\n",
);

pub(crate) const OLD_THRESHOLD: &str = concat!(
    "The trusted root's rule for roots is not met: too few keys that the root before names for roots have\n",
    "signed this one. As many of the old keys have to sign as the old rule asks for, and as many of the\n",
    "new keys as the new rule asks for (denial 10). 'release show --in d' says by which root's rule which\n",
    "keys have signed and which are wanted, and 'release publish -v' how many. Let the missing keys sign\n",
    "by 'release sign --key NAME --in d', bring in what people sent back by\n",
    "'release draft --in d take FILE', and publish again.\n",
);

pub(crate) const NEW_THRESHOLD: &str = concat!(
    "The root's own rule for roots is not met: too few of the keys that the new root names for roots have\n",
    "signed it. This is asked of a first root, too. 'release show --in d' says which keys have signed and\n",
    "which are wanted, and 'release publish -v' or 'release init -v' how many. Let the missing keys sign\n",
    "by 'release sign --key NAME --in d', bring in what people sent back by\n",
    "'release draft --in d take FILE', and offer it again.\n",
);

pub(crate) const ROOT_EXPIRED: &str = concat!(
    "The trusted root is not live: its 'expires' has come. Until there is a newer root no other document\n",
    "is taken, and no target is served. The publisher drafts one by\n",
    "'release draft --db repository.db --in d root', has it signed by as many keys as both roots ask for,\n",
    "and publishes it. A client gets it by 'release update'; where it is denied again, the publisher has\n",
    "no newer root yet, or the clock of this machine is wrong.\n",
);
