//! Layouts and links: the denials 41 to 47.

pub(crate) const SUPPORT_DENIED: &str = concat!(
    "A file that a layout needs is denied: the layout or one of its links cannot be served, and these are\n",
    "targets, too. 'release show --db repository.db PATH' says what the target's layout needs; asked for\n",
    "the path of one of these files, it says what denies that one, and 'release help N' what to do about\n",
    "it. Mostly it is not listed (35), or the document that lists it has expired (31). What is only\n",
    "missing is denied as itself (33, 37).\n",
);

pub(crate) const LAYOUT_NESTED: &str = concat!(
    "A file that a layout needs has a layout. The layout of a target and its links are targets that have\n",
    "none of their own. List these paths without 'custom.layout', or name other files in the target's\n",
    "reference; then have it signed, seal, and publish.\n",
);

pub(crate) const LAYOUT_SHAPE: &str = concat!(
    "The layout, or a link, is of another shape: it has over 262,144 bytes, is no canonical JSON, or its\n",
    "members are not those that docs/FORMATS.md lists. A link has just one signature.\n",
    "'release draft --in d layout' and 'release draft --in l link' write files of the right shape: have\n",
    "the one at fault drafted and signed anew, bring it in by 'release draft --in d take FILE', sign what\n",
    "lists it, seal, and publish.\n",
);

pub(crate) const LAYOUT_THRESHOLD: &str = concat!(
    "The layout's owners have not signed enough: the target's listing says which keys are the owners',\n",
    "and how many of them have to sign. 'release show --in d' says which keys have signed and which are\n",
    "wanted. Let the missing keys sign by 'release sign --key OWNER --in d', before the targets metadata\n",
    "that list the layout are signed; then seal, and publish.\n",
);

pub(crate) const LAYOUT_EXPIRED: &str = concat!(
    "The layout is not live: its 'expires' has come. Draft it anew by\n",
    "'release draft --in d layout --target PATH --owners RULE STEP=RULE:PRODUCT', with its steps as they\n",
    "were, and have its owners sign it. Then have the targets metadata signed that list it, seal, and\n",
    "publish. Links do not expire, so the steps need not be done again.\n",
);

pub(crate) const STEP_THRESHOLD: &str = concat!(
    "A step has too few links: fewer of its keys have signed one than the layout's threshold for the step\n",
    "asks for. A link by another key does not count, and two by one key count once.\n",
    "'release show --db repository.db PATH' says of each step which keys have done it. Whoever is missing\n",
    "drafts a link by 'release draft --in l link --step STEP --products FILE' and signs it,\n",
    "'release draft --in d take FILE' brings it in; then have the targets metadata signed, seal, and\n",
    "publish.\n",
);

pub(crate) const LINKS_DISAGREE: &str = concat!(
    "The links of a step disagree: two of its keys have signed other materials or other products. Either\n",
    "they had other files, or the step does not give the same result twice. Compare the digests in the\n",
    "links, find out which is right, and have the step done again by whoever had the wrong one. Bring in\n",
    "the new link by 'release draft --in d take FILE', have the targets metadata signed, seal, and\n",
    "publish.\n",
);
