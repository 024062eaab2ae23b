//! Artifact rules, batches and profiles: the denials 48 to 53.

pub(crate) const DISALLOWED: &str = concat!(
    "An artifact rule forbids what a step did: a DISALLOW rule of the layout matches a material or a\n",
    "product that no rule before it has taken. Compare the rules in the layout with the link of the step.\n",
    "Where the step used or left what it should not, have it done again, and bring in the new link by\n",
    "'release draft --in d take FILE'. Where the rule is wrong, draft the layout with other rules by\n",
    "'--rules FILE', and have its owners sign it. Then have the targets metadata signed, seal, and\n",
    "publish.\n",
);

pub(crate) const REQUIRED: &str = concat!(
    "An artifact that a rule requires is not there: the path of a REQUIRE rule of the layout is not among\n",
    "the step's materials or products, or a rule before it has taken it. Compare the rules in the layout\n",
    "with the link of the step. Where the step did not use or leave what it should, have it done again,\n",
    "and bring in the new link by 'release draft --in d take FILE'. Where the rule is wrong, draft the\n",
    "layout with other rules by '--rules FILE', and have its owners sign it. Then have the targets\n",
    "metadata signed, seal, and publish.\n",
);

pub(crate) const PRODUCT_MISMATCH: &str = concat!(
    "The target is not the step's product: the link of the step that the listing names has no product of\n",
    "that name with the target's digest. The file was made anew after the step, or another one was\n",
    "listed. List the file that the step left, by 'release draft --in d targets --add PATH=FILE', or have\n",
    "the step done again and bring in its link by 'release draft --in d take FILE'. Then have the targets\n",
    "metadata signed, seal, and publish.\n",
);

pub(crate) const INCOHERENT: &str = concat!(
    "What a batch leaves does not belong together: after it the timestamp has to name the held snapshot,\n",
    "and each document that this lists has to be held at its version. With -v 'release publish' tells\n",
    "what is missing, as 'missing: tools 3' for version 3 of the role tools. Offer that in the same\n",
    "batch, in the order root, timestamp, snapshot, targets, other roles. 'release draft --in d seal' and\n",
    "'release publish --db repository.db --in d' do this with a whole folder.\n",
);

pub(crate) const LAYOUT_REQUIRED: &str = concat!(
    "The root requires a layout for the path, and the listing has none: a pattern of the root's\n",
    "'layout_required' matches the path. Give the target a layout by\n",
    "'release draft --in d layout --target PATH --owners RULE STEP=RULE:PRODUCT', with a signed link of\n",
    "each step; then have the targets metadata signed, seal, and publish. Or list the file under a path\n",
    "that no pattern matches. Whoever signs roots can take the pattern out in the next one.\n",
);

pub(crate) const PROFILE_LOWERED: &str = concat!(
    "The trusted root has profile 2, and the new one profile 1. A root has profile 2 where its\n",
    "'spec_version' ends in '+p2', and each root after such a one has it, too.\n",
    "'release draft --db repository.db --in d root' keeps it as it is; in a root that is written by hand\n",
    "put it back, as '1.0.31+p2', and have it signed anew. Where no layout is to be required any more,\n",
    "leave out 'layout_required'.\n",
);
