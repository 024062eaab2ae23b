//! Paths and target files: the denials 34 to 40.

pub(crate) const TOO_MANY_ROLES: &str = concat!(
    "A search made 32 visits and had more to make. A search visits roles in the order of their\n",
    "delegations, and so many at most for one path: 'release show --db repository.db PATH' prints which.\n",
    "Delegate the path nearer to the top, before others by '--before NAME', or by '--terminating', after\n",
    "which no other branch is searched for what it covers. Patterns that match fewer paths make a search\n",
    "shorter, too.\n",
);

pub(crate) const NOT_FOUND: &str = concat!(
    "No role that a search visits lists the path. Look first how it is spelled: capital and small letters\n",
    "differ. 'release show --db repository.db PATH' prints which roles are visited. The publisher lists\n",
    "it by 'release draft --in d targets --add PATH=FILE', with '--role ROLE' where the path is\n",
    "delegated, has it signed, seals, and publishes. A client that waits for something new calls\n",
    "'release update' before 'release get'.\n",
);

pub(crate) const BAD_PATH: &str = concat!(
    "The path is no target path: 1 to 200 bytes of A-Z, a-z, 0-9, '.', '_', '-' and '/', with no '/' at\n",
    "an end, and no segment that is empty, '.' or '..'. So no path has a space, '+' or '~', and none\n",
    "begins with '/'. List the file under another path, by '--add PATH=FILE' of 'release draft', and ask\n",
    "for it by that one.\n",
);

pub(crate) const BLOB_MISSING: &str = concat!(
    "The file of a target, of the listed digest and length in bytes, is not held: it was listed and never\n",
    "stored. 'release put --db repository.db FILE' stores it, or 'release put --port P FILE' while it is\n",
    "served; 'release publish --in d' does so with the files that wait in the folder. It has to be the\n",
    "very file that was listed, whose digest 'sha256sum FILE' prints; where it is gone, list the file\n",
    "that there is, by '--add PATH=FILE'. A client has asked its mirrors, and none of them had it: ask\n",
    "another mirror, or later.\n",
);

pub(crate) const BLOB_LENGTH: &str = concat!(
    "The length is not the listed one, or over 1,048,576 bytes. No target file is longer than that: split\n",
    "a longer one, and list the parts. Where a request for a target is denied so, its listing has a\n",
    "file's digest and another length than that file has: list the file anew by\n",
    "'release draft --in d targets --add PATH=FILE', have it signed, seal, and publish.\n",
);

pub(crate) const DIGEST_MISMATCH: &str = concat!(
    "The digest is not the one asked for. Of an upload, the bytes are not those of the digest in its name\n",
    "'blobs/DIGEST': send the file again, best by 'release put --port P FILE', which computes it. Of a\n",
    "request for 'targets/DIGEST.NAME', another file is listed under this path by now: ask for the path\n",
    "without a digest, or get the newest metadata first.\n",
);

pub(crate) const FULL: &str = concat!(
    "The most that are held are held: 4,096 roots, 4,096 documents of targets metadata, or 4,096 target\n",
    "files. 'release prune --db repository.db', or '--port P' while it is served, removes the documents\n",
    "that the snapshot does not list, and the target files that none of those left lists. Roots are never\n",
    "removed: where there are 4,096 of them, a new repository has to begin, in a database of its own.\n",
);
