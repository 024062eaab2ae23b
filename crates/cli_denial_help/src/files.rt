//! What is no document: the denials 1 to 5.

pub(crate) const TOO_LONG: &str = concat!(
    "The file has over 262,144 bytes, the most of a metadata file, a layout or a link. List fewer targets\n",
    "in one document: delegate some paths to another role, as by\n",
    "'release draft --in d targets --delegate NAME=KEY:PATTERN', and list them there. Signatures are\n",
    "shortest at width 8 ('release key --new NAME --ots 8'), and fewer keys that sign make a file\n",
    "shorter, too.\n",
);

pub(crate) const NOT_CANONICAL: &str = concat!(
    "The file is no canonical JSON, which docs/FORMATS.md describes. Write it anew by\n",
    "'release canon FILE > CANONICAL', and have it signed after that: a signature is over the bytes as\n",
    "they stand. Where 'release canon' is denied so, FILE is no JSON at all, has a number that is no\n",
    "64-bit integer, or has more than 32 lists and objects inside one another. With -v 'release publish'\n",
    "and 'release init' tell the byte at fault where they are certain of it.\n",
);

pub(crate) const WRONG_SHAPE: &str = concat!(
    "The members are not those of the kind, which docs/FORMATS.md lists. An argument of 'release publish'\n",
    "that is no ROLE:FILE is denied so as well: the line ROLE:FILE has no colon, or no role's name before\n",
    "it, and is to be 'root:FILE', 'timestamp:FILE', 'snapshot:FILE', or the name of another role with\n",
    "its targets metadata. With -v 'release publish' and 'release init' tell the member at fault, as\n",
    "'at signed.expires'. Mend the file and have it signed anew, since no signature holds over other\n",
    "bytes. 'release sign' denies so what would get its 17th signature.\n",
);

pub(crate) const WRONG_TYPE: &str = concat!(
    "The _type is another: the document is of another kind than the role that it stands under. 'root',\n",
    "'timestamp' and 'snapshot' have documents of their own, and any other role has targets metadata.\n",
    "Offer the file under its own role, or put it into the folder of drafts by that name, as\n",
    "'timestamp.json'.\n",
);

pub(crate) const BAD_KEY_ID: &str = concat!(
    "A name in a key table is not its key's id, the SHA-256 of the bytes that 'release key' prints,\n",
    "without the line end. With -v 'release publish' and 'release init' tell which name it is. Put the id\n",
    "in its place, also in the rules that name this key, and have the document signed anew.\n",
    "'release draft' makes key tables of files NAME.key by itself.\n",
);
