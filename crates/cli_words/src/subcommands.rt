//! The subcommands, as a table: a row for each, with its words.

use crate::options::{AT, DB, HEIGHT, OTS, SEED, Word};

/// A subcommand.
#[derive(Clone, Copy)]
pub struct Subcommand<'a> {
    pub name: &'a str,
    /// What it does, in a line.
    pub about: &'a str,
    /// What its help ends with.
    pub after: &'a str,
    /// Its own words, after those that each subcommand takes.
    pub words: &'a [Word<'a>],
}

/// How many subcommands there are.
pub const SUBCOMMANDS: usize = 13;

/// The subcommand at a place in the order of their names, from 0 on.
pub fn subcommand_at(place: usize) -> Option<Subcommand<'static>> {
    match place {
        0 => Some(CANON),
        1 => Some(DRAFT),
        2 => Some(EXPORT),
        3 => Some(GET),
        4 => Some(INIT),
        5 => Some(KEY),
        6 => Some(PRUNE),
        7 => Some(PUBLISH),
        8 => Some(PUT),
        9 => Some(SERVE),
        10 => Some(SHOW),
        11 => Some(SIGN),
        12 => Some(UPDATE),
        _ => None,
    }
}

// What help ends with, after an example.
macro_rules! after {
    ($example:literal) => {
        concat!(
            "Example:\n  ",
            $example,
            "\n\nExit status:\n",
            "  0  done\n",
            "  1  denied: 'denied N Name' on standard error, for a document of a batch with ' at I' after it;\n",
            "     also 'leaves spent', 'unknown key', 'refused WORD' of drafts, 'due' of show, and 'not fresh'\n",
            "     of update\n",
            "  2  a fault of the command line\n",
            "  3  all else: 'fault' and one of memory, database, damaged, network, file and clock\n",
            "\n",
            "'release help denials' prints the numbers and names of the denials, 'release help man' the manual,\n",
            "and 'release help bash', 'fish' or 'zsh' what such a shell completes. docs/REFERENCE.md describes\n",
            "the HTTP interface, docs/TUTORIAL.md a first repository, and docs/OPERATING.md how one is run."
        )
    };
}

/// What the help of the whole program ends with.
pub const PROGRAM: &str = after!("release init --db repository.db root.json");

/// The words that each subcommand takes: a moment, and to tell more.
pub const COMMON: &[Word<'static>] = &[AT, Word::Verbose];

// What a folder of drafts is.
const DRAFTS: &str = "The folder of the drafts";

// `--in DIR`, where drafts may be asked for.
const DRAFTS_IN: Word<'static> = Word::Option("in", "DIR", DRAFTS);

// `--db FILE` and `--port P`, each in place of the other.
const DB_OR_PORT: Word<'static> = Word::Option(
    "db",
    "FILE",
    "The database file of the repository, made where there is none; or --port",
);

const PORT_OR_DB: Word<'static> = Word::Number(
    "port",
    "P",
    "The port of 127.0.0.1 that the repository is served at, in place of --db. The moment is then the server's, so --at may not be given",
    1,
    65535,
);

// `--port P`, in place of `--from FOLDER ..` and `--mirror URL ..`, and `--within SECONDS` and `--json` of a client.
const PORT_OR_MIRROR: Word<'static> = Word::Number(
    "port",
    "P",
    "The port of 127.0.0.1 that the repository is served at; or --mirror or --from",
    1,
    65535,
);

const MIRROR: Word<'static> = Word::Many(
    "mirror",
    "URL",
    "A mirror, http://HOST[:PORT][/PREFIX], in place of --port. Of several each is asked in its turn until one brings what is wanted",
);

const FROM: Word<'static> = Word::Many(
    "from",
    "FOLDER",
    "A folder that export wrote, as on a stick, in place of --port. Folders are asked before mirrors",
);

const WITHIN: Word<'static> = Word::Number(
    "within",
    "SECONDS",
    "Give up after so many seconds in all, 600 where it is not given",
    1,
    86400,
);

const JSON: Word<'static> = Word::Flag(
    "json",
    "Print what came of it as one line of JSON, in place of the word",
);

/// `canon [--at SECONDS] [--verbose] FILE`
pub(crate) const CANON: Subcommand<'static> = Subcommand {
    name: "canon",
    about: "Print the canonical form of any JSON",
    after: after!("release canon document.json > canonical.json"),
    words: &[Word::Operand("file", "FILE", "The file to read")],
};

/// `draft [--at SECONDS] [--verbose] [--db FILE] --in DIR [--expires TERM] [--anew] KIND ..`
pub(crate) const DRAFT: Subcommand<'static> = Subcommand {
    name: "draft",
    about: "Draft the next document into a folder; no leaf is spent",
    after: after!(
        "release draft --db repository.db --in drafts targets --add hello.txt --remove old.txt"
    ),
    words: &[
        Word::Option(
            "db",
            "FILE",
            "The database file of the repository, or of a client, that the draft follows",
        ),
        Word::Required("in", "DIR", DRAFTS),
        Word::Option(
            "expires",
            "TERM",
            "When the document expires: 90d, 12h, or a moment as 2030-01-01T00:00:00Z",
        ),
        Word::Flag(
            "anew",
            "Draft anew what has signatures, which are taken off",
        ),
        Word::Option(
            "role",
            "R",
            "The role of the targets metadata, targets where it is not given",
        ),
        Word::Many(
            "add",
            "PATH[=FILE]",
            "List a target; of a folder all that it has",
        ),
        Word::Many("remove", "PATH", "List a target no more"),
        Word::Flag(
            "spread",
            "List each added target in the delegated role that covers it, a draft for each such role",
        ),
        Word::Many(
            "delegate",
            "NAME=RULE:PATTERN[,..]",
            "Delegate what the patterns match to a role; or with #PREFIX[,..] the paths whose SHA-256 begins with one of these hex digits",
        ),
        Word::Many(
            "bins",
            "NAME=RULE:N",
            "Delegate to N roles, 2, 4, 8, 16, 32 or 64, each its share of all paths by their SHA-256",
        ),
        Word::Flag(
            "terminating",
            "Nothing after these delegations is searched for what they cover",
        ),
        Word::Option(
            "before",
            "NAME",
            "Put these delegations before that of another role",
        ),
        Word::Many("undelegate", "NAME", "Delegate to a role no more"),
        Word::Option(
            "target",
            "PATH",
            "The target that the layout is for, or that a link is taken for",
        ),
        Word::Option("owners", "RULE", "Whose signatures a layout needs"),
        Word::Option(
            "rules",
            "FILE",
            "A file of other artifact rules, a line each: STEP materials or STEP products, and the rule's words",
        ),
        Word::Option("step", "NAME", "The step that a link is of"),
        Word::Many("materials", "FILE", "A file that the step begins with"),
        Word::Many("products", "FILE", "A file that the step leaves"),
        Word::Option(
            "key",
            "K.key",
            "Of attach the file with the key object of the key that has signed",
        ),
        Word::Operand(
            "kind",
            "KIND",
            "root, targets, layout, link, seal (snapshot and timestamp), take (what another machine sends back), message (what is signed) or attach (a signature of another tool)",
        ),
        Word::Operands(
            "word",
            "WORD",
            "Of root ROLE=RULE, where a rule is [N@]KEY[,KEY..] and a key a file, a name or digits of its ID; of layout STEP=RULE:PRODUCT[,..]; of take files; of message ROLE; of attach ROLE and the file of the signature",
        ),
    ],
};

/// `export [--at SECONDS] [--verbose] --db FILE --to FOLDER`
pub(crate) const EXPORT: Subcommand<'static> = Subcommand {
    name: "export",
    about: "Write the repository into a folder, as files that any web server can send",
    after: after!("release export --db repository.db --to /srv/repository"),
    words: &[
        DB,
        Word::Required(
            "to",
            "FOLDER",
            "The folder that is written into, made where there is none",
        ),
    ],
};

/// `get [--at SECONDS] [--verbose] --db FILE (--port P | [--from FOLDER ..] [--mirror URL ..]) [--within SECONDS] [--json] --out OUT PATH`,
/// or in place of `--out OUT PATH` one of `--to DIR PATH ..`, `--to DIR --list FILE` and `--to DIR --all [PATTERN ..]`
pub(crate) const GET: Subcommand<'static> = Subcommand {
    name: "get",
    about: "Fetch a target, or many, as a client",
    after: after!("release get --db client.db --port 8080 --out hello.txt hello.txt"),
    words: &[
        DB,
        PORT_OR_MIRROR,
        MIRROR,
        FROM,
        WITHIN,
        JSON,
        Word::Option(
            "out",
            "OUT",
            "The file that is written, in place of one that stands there",
        ),
        Word::Option(
            "to",
            "DIR",
            "The folder that files are written into, each under its path, made where there is none; in place of --out",
        ),
        Word::Option("list", "FILE", "A file with the paths, a line each"),
        Word::Flag(
            "all",
            "All targets that are listed, or those that one of the patterns matches which stand in place of paths",
        ),
        Word::Operands(
            "path",
            "PATH",
            "The path of the target; of --to several, or of --all patterns",
        ),
    ],
};

/// `init [--at SECONDS] [--verbose] --db FILE ROOT`
pub(crate) const INIT: Subcommand<'static> = Subcommand {
    name: "init",
    about: "Begin the trust with a first root",
    after: after!("release init --db repository.db root.json"),
    words: &[
        DB,
        Word::Operand("root", "ROOT", "The file of the root metadata"),
    ],
};

/// `key [--at SECONDS] [--verbose] --seed S --ots W --height H`, `key [--at SECONDS] [--verbose] --new NAME [NAME ..] [--ots W]
/// [--height H] [--levels N] [--lower-ots W] [--lower-height H]` or `key [--at SECONDS] [--verbose] --public FILE`
pub(crate) const KEY: Subcommand<'static> = Subcommand {
    name: "key",
    about: "Print the public key object of a seed or of a public key, or make keys",
    after: after!("release key --new root"),
    words: &[
        SEED,
        OTS,
        HEIGHT,
        Word::Option(
            "new",
            "NAME",
            "Make NAME.seed, NAME.key and NAME.book, and print the key's ID",
        ),
        Word::Operands(
            "name",
            "NAME",
            "Another key to make, of the same width and height",
        ),
        Word::Number(
            "levels",
            "N",
            "The levels of a new key: 1, or 2 for a tree that signs the keys of the trees below it (1 where it is not given)",
            1,
            2,
        ),
        Word::Number(
            "lower-ots",
            "W",
            "Of 2 levels the width of the trees below: 1, 2, 4 or 8 (that of --ots where it is not given)",
            1,
            8,
        ),
        Word::Number(
            "lower-height",
            "H",
            "Of 2 levels the height of the trees below: 5 or 10 (that of --height where it is not given)",
            5,
            10,
        ),
        Word::Option(
            "public",
            "FILE",
            "A public key that another tool made: 56 bytes of LMS or 60 of HSS, of which the key object is printed",
        ),
    ],
};

/// `prune [--at SECONDS] [--verbose] --db FILE` or `prune [--verbose] --port P`
pub(crate) const PRUNE: Subcommand<'static> = Subcommand {
    name: "prune",
    about: "Remove the documents and target files that the snapshot does not list",
    after: after!("release prune --db repository.db"),
    words: &[DB_OR_PORT, PORT_OR_DB],
};

/// `publish [--at SECONDS] [--verbose] --db FILE (ROLE:FILE .. | --in DIR)` or `publish [--verbose] --port P (ROLE:FILE .. | --in DIR)`
pub(crate) const PUBLISH: Subcommand<'static> = Subcommand {
    name: "publish",
    about: "Take documents in the order given, or those of a folder of drafts, all or none",
    after: after!(
        "release publish --db repository.db timestamp:timestamp.json snapshot:snapshot.json targets:targets.json"
    ),
    words: &[
        DB_OR_PORT,
        PORT_OR_DB,
        DRAFTS_IN,
        Word::Operands(
            "document",
            "ROLE:FILE",
            "A document's role and file: root, timestamp, snapshot, targets or a delegated role",
        ),
    ],
};

/// `put [--at SECONDS] [--verbose] --db FILE FILE` or `put [--verbose] --port P FILE`
pub(crate) const PUT: Subcommand<'static> = Subcommand {
    name: "put",
    about: "Store a target file under its SHA-256",
    after: after!("release put --db repository.db hello.txt"),
    words: &[
        DB_OR_PORT,
        PORT_OR_DB,
        Word::Operand("file", "FILE", "The file to store"),
    ],
};

/// `serve [--at SECONDS] [--verbose] --db FILE --port P [--count N] [--read-only]`
pub(crate) const SERVE: Subcommand<'static> = Subcommand {
    name: "serve",
    about: "Answer HTTP requests on 127.0.0.1",
    after: after!("release serve --db repository.db --port 8080 --verbose"),
    words: &[
        DB,
        Word::RequiredNumber("port", "P", "The port to listen on", 1, 65535),
        Word::Number("count", "N", "End after so many connections", 1, 4294967295),
        Word::Flag(
            "read-only",
            "Serve documents and target files alone: POST /batch, PUT /blobs and POST /prune are not there",
        ),
    ],
};

/// `show [--at SECONDS] [--verbose] [--db FILE] [--in DIR] [--due DAYS] [--list] [--key NAME ..] [--json] [--html FILE] [PATH]`, of which
/// `--db` or `--in` has to be there
pub(crate) const SHOW: Subcommand<'static> = Subcommand {
    name: "show",
    about: "Show what is held, or drafts and what is to be done next",
    after: after!("release show --in drafts --db repository.db"),
    words: &[
        Word::Option(
            "db",
            "FILE",
            "The database file of a repository or of a client",
        ),
        DRAFTS_IN,
        Word::Number(
            "due",
            "DAYS",
            "End with status 1 where something expires within so many days",
            0,
            3650,
        ),
        Word::Flag(
            "list",
            "Print a line for each target: its path, length, digest and role, and what denies it",
        ),
        Word::Many(
            "key",
            "NAME",
            "A key whose leaves are counted: NAME of NAME.key and NAME.book",
        ),
        Word::Flag("json", "Print the same facts as JSON"),
        Word::Option("html", "FILE", "Write a page that stands alone, too"),
        Word::Operands(
            "path",
            "PATH",
            "A target: who lists it, and what a search visits",
        ),
    ],
};

/// `sign [--at SECONDS] [--verbose] --book B --seed S --ots W --height H [--known] DOC` or `sign [--at SECONDS] [--verbose] (--key K .. | --any
/// K[,K..]) --in DIR [--db FILE | --port P | --anchor ROOT] [--strict] [DOC ..] [--yes] [--again]`
pub(crate) const SIGN: Subcommand<'static> = Subcommand {
    name: "sign",
    about: "Sign documents by leaves that no other document gets",
    after: after!("release sign --key root --in drafts"),
    words: &[
        Word::Option(
            "book",
            "B",
            "The database file of the leaves that are spent, made where there is none",
        ),
        SEED,
        OTS,
        HEIGHT,
        Word::Flag(
            "known",
            "Refuse a book that is not there, and a key that it does not have, before a leaf is spent",
        ),
        Word::Many(
            "key",
            "NAME",
            "A key: NAME of NAME.seed, NAME.key and NAME.book, in place of --seed and --book. Of several each signs in turn",
        ),
        Word::Option(
            "any",
            "NAME[,NAME..]",
            "Keys as those of --key, and in its place: each document is signed by one of them, the first that has leaves left",
        ),
        DRAFTS_IN,
        Word::Option(
            "db",
            "FILE",
            "The database file of the repository by whose root what the folder holds is judged",
        ),
        Word::Number(
            "port",
            "P",
            "The port of 127.0.0.1 that the repository is served at, in place of --db",
            1,
            65535,
        ),
        Word::Option(
            "anchor",
            "ROOT",
            "A file with a root that is trusted, in place of --db",
        ),
        Word::Flag(
            "strict",
            "Sign nothing where what the folder holds does not meet its rules from that root",
        ),
        Word::Flag("yes", "Sign without being asked"),
        Word::Flag(
            "again",
            "Sign another document of a kind and version that this key has signed",
        ),
        Word::Operands(
            "file",
            "DOC",
            "The document to sign; with --in its name there, or all that the key may sign",
        ),
    ],
};

/// `update [--at SECONDS] [--verbose] --db FILE (--port P | [--from FOLDER ..] [--mirror URL ..]) [--within SECONDS] [--json] [--fresh]`
pub(crate) const UPDATE: Subcommand<'static> = Subcommand {
    name: "update",
    about: "Bring the trusted metadata up to date, as a client",
    after: after!("release update --db client.db --port 8080"),
    words: &[
        DB,
        PORT_OR_MIRROR,
        MIRROR,
        FROM,
        WITHIN,
        JSON,
        Word::Flag(
            "fresh",
            "End with status 1 where none of them has a timestamp that is trusted, and live at the moment",
        ),
    ],
};
