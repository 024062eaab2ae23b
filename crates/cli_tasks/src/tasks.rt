//! What a command line can ask for.
use lms::Params;
use std::alloc::AllocError;
use thiserror::Error;

/// The last port.
pub const LAST_PORT: u64 = 65535;

/// So many connections may be counted.
pub const MOST_CONNECTIONS: u64 = 4294967295;

/// The most seconds that a client gives itself, a day.
pub const MOST_SECONDS: u64 = 86400;

/// The most days that `--due` looks ahead, ten years.
pub const MOST_DAYS: u64 = 3650;

/// The most mirrors of a client, and the most folders.
pub const MOST_MIRRORS: usize = 16;

/// The most times that an option stands that may stand more than once.
pub const MOST_TIMES: usize = 4096;

/// What the words of a command line ask for.
#[derive(Drop)]
pub struct Task {
    /// The moment that was handed in, in seconds since 1970-01-01T00:00:00Z.
    pub at: Option<u64>,
    /// Whether facts are told on standard error besides.
    pub verbose: bool,
    pub subcommand: Subcommand,
}

/// Where a repository is.
#[derive(Drop)]
pub enum Place {
    /// In a database file.
    Database(String),
    /// Behind a server, at a port of 127.0.0.1.
    Port(u16),
}

/// Where a root is from that is trusted.
#[derive(Drop)]
pub enum Anchor {
    /// A repository in a database file.
    Database(String),
    /// A repository behind a server, at a port of 127.0.0.1.
    Port(u16),
    /// A file with the root.
    Root(String),
}

/// Where a client fetches from.
#[derive(Drop)]
pub enum Server {
    /// A port of 127.0.0.1.
    Port(u16),
    /// Mirrors, 1 to 16, each by the text that names it.
    Mirrors(Vec<String>),
    /// Folders, 1 to 16, and then mirrors, up to 16.
    Folders {
        folders: Vec<String>,
        mirrors: Vec<String>,
    },
}

/// What is drafted: the database that the draft follows, if one is given, the folder of the drafts, when the document expires, and whether
/// signatures are taken off.
#[derive(Drop)]
pub struct Drafting {
    pub db: Option<String>,
    pub folder: String,
    pub expires: Option<String>,
    pub anew: bool,
    pub kind: Draft,
}

/// The kind of a draft, with what it is told.
#[derive(Drop)]
pub enum Draft {
    /// The next root, with these rules, each `ROLE=RULE`.
    Root {
        rules: Vec<String>,
    },
    /// The next targets metadata of a role.
    Targets(TargetsDraft),
    /// A layout for a target.
    Layout(LayoutDraft),
    /// A link of a step.
    Link(LinkDraft),
    /// The next snapshot and timestamp.
    Seal,
    /// Files that another machine sent back, links among them for a target.
    Take {
        target: Option<String>,
        files: Vec<String>,
    },
    /// The bytes that are signed of a role's draft.
    Message {
        role: String,
    },
    /// A signature that another tool made.
    Attach(AttachDraft),
}

/// What is told of a signature that another tool made: the role of the draft, the file of the key object, and that of the signature's bytes.
#[derive(Drop)]
pub struct AttachDraft {
    pub role: String,
    pub key: String,
    pub signature: String,
}

/// What is told of a layout: the target that it is for, the rule of its owners, a file of other artifact rules, and its steps as
/// `STEP=RULE:PRODUCT[,..]`.
#[derive(Drop)]
pub struct LayoutDraft {
    pub target: String,
    pub owners: String,
    pub rules: Option<String>,
    pub steps: Vec<String>,
}

/// What is told of a link: its step, and the files of its materials and products.
#[derive(Drop)]
pub struct LinkDraft {
    pub step: String,
    pub materials: Vec<String>,
    pub products: Vec<String>,
}

/// What a client brings up to date: its own database, where it fetches from and for how many seconds at most; whether JSON is printed; and
/// whether it has to be fresh.
#[derive(Drop)]
pub struct Updating {
    pub db: String,
    pub server: Server,
    pub within: Option<u64>,
    pub json: bool,
    pub fresh: bool,
}

/// What a client gets: its own database, where it fetches from and for how many seconds at most, whether JSON is printed, the file that is
/// written, and the path.
#[derive(Drop)]
pub struct Getting {
    pub db: String,
    pub server: Server,
    pub within: Option<u64>,
    pub json: bool,
    pub out: String,
    pub path: String,
}

/// What a client gets into a folder: its own database, where it fetches from and for how many seconds at most, whether JSON is printed, the
/// folder that is written into, and which targets.
#[derive(Drop)]
pub struct GettingMany {
    pub db: String,
    pub server: Server,
    pub within: Option<u64>,
    pub json: bool,
    pub to: String,
    pub which: Which,
}

/// Which targets a client gets.
#[derive(Drop)]
pub enum Which {
    /// All that are listed, of these patterns where there are any.
    All { patterns: Vec<String> },
    /// Those of a file, a path a line.
    Listed { file: String },
    /// Those of these paths.
    Paths { paths: Vec<String> },
}

/// What is served: a database, at a port of 127.0.0.1, over so many connections or without end, and whether only what changes nothing.
#[derive(Drop)]
pub struct Serving {
    pub db: String,
    pub port: u16,
    pub count: Option<u64>,
    pub read_only: bool,
}

/// What is signed with a book and a seed: a file, by a key of these parameters, and whether both have to be known.
#[derive(Drop)]
pub struct Signing {
    pub book: String,
    pub seed: String,
    pub params: Params,
    pub known: bool,
    pub file: String,
}

/// The keys that sign in a folder of drafts, by the names of their files.
#[derive(Drop)]
pub enum Keys {
    /// Each of them, one after the other.
    Each(Vec<String>),
    /// One of them for each document: a list with commas between.
    Any(String),
}

/// What is signed in a folder of drafts: by which keys, judged by which root, whether nothing is signed over what does not meet its rules,
/// which documents, without a question, and also another document of a kind and version.
#[derive(Drop)]
pub struct FolderSigning {
    pub keys: Keys,
    pub folder: String,
    pub anchor: Option<Anchor>,
    pub strict: bool,
    pub documents: Vec<String>,
    pub yes: bool,
    pub again: bool,
}

/// What is shown: what a database holds, a folder of drafts, or both; and how: so many days ahead, the targets alone, with these keys'
/// leaves, as JSON, as a page in a file, and of one path, if one is given.
#[derive(Drop)]
pub struct Showing {
    pub db: Option<String>,
    pub folder: Option<String>,
    pub due: Option<u64>,
    pub list: bool,
    pub keys: Vec<String>,
    pub json: bool,
    pub html: Option<String>,
    pub paths: Vec<String>,
}

/// What is told of targets metadata: its role, targets as `PATH[=FILE]`, paths, whether each target is listed in the role that covers it,
/// delegations as `NAME=RULE:PATTERN[,..]` and as `NAME=RULE:N` for N roles, before which role these stand and whether they are terminating,
/// and names of roles.
#[derive(Drop)]
pub struct TargetsDraft {
    pub role: Option<String>,
    pub add: Vec<String>,
    pub remove: Vec<String>,
    pub spread: bool,
    pub delegate: Vec<String>,
    pub bins: Vec<String>,
    pub terminating: bool,
    pub before: Option<String>,
    pub undelegate: Vec<String>,
}

/// A subcommand with its options and operands.
#[derive(Drop)]
pub enum Subcommand {
    /// `canon FILE`: prints the canonical form of any JSON.
    Canon {
        file: String,
    },
    /// `draft [--db FILE] --in DIR [--expires TERM] [--anew] KIND ..`: drafts the next document of a kind into a folder.
    Draft(Drafting),
    /// `export --db FILE --to FOLDER`: writes the repository into a folder, as files under the names that a client asks for.
    Export {
        db: String,
        to: String,
    },
    /// `get --db FILE (--port P | [--from FOLDER ..] [--mirror URL ..]) [--within SECONDS] [--json] --out OUT PATH`: fetches a target, and writes
    /// the file where the client's own state grants it.
    Get(Getting),
    /// `get --db FILE (--port P | [--from FOLDER ..] [--mirror URL ..]) [--within SECONDS] [--json] --to DIR (PATH .. | --list FILE | --all
    /// [PATTERN ..])`: fetches targets, and writes the file of each that the client's own state grants.
    GetMany(GettingMany),
    /// `init --db FILE ROOT`: begins the trust with a first root.
    Init {
        db: String,
        root: String,
    },
    /// `key --seed S --ots W --height H`: prints the key object of a seed.
    Key {
        seed: String,
        params: Params,
    },
    /// `key --new NAME [NAME ..] [--ots W] [--height H] [--levels N] [--lower-ots W] [--lower-height H]`: makes the three files of each key, of
    /// width 4 and height 10 where these are not given; of two levels where there are parameters of the trees below.
    NewKey {
        names: Vec<String>,
        params: Params,
        lower: Option<Params>,
    },
    /// `key --public FILE`: prints the key object of a public key that another tool made.
    PublicKey {
        file: String,
    },
    /// `prune --db FILE` or `prune --port P`: removes the documents and target files that the snapshot does not list.
    Prune {
        place: Place,
    },
    /// `publish --db FILE ROLE:FILE ..` or `publish --port P ROLE:FILE ..`: offers 1 to 160 documents in order, together.
    Publish {
        place: Place,
        documents: Vec<String>,
    },
    /// `publish --db FILE --in DIR` or `publish --port P --in DIR`: offers what a folder of drafts has.
    PublishIn {
        place: Place,
        folder: String,
    },
    /// `put --db FILE FILE` or `put --port P FILE`: stores a target file under its digest.
    Put {
        place: Place,
        file: String,
    },
    /// `serve --db FILE --port P [--count N] [--read-only]`: answers HTTP requests on 127.0.0.1, over so many connections or without end,
    /// and where it is said so, only those that change nothing.
    Serve(Serving),
    /// `show [--db FILE] [--in DIR] [--due DAYS] [--key NAME ..] [--json] [--html FILE] [PATH]` or `show --db FILE --list [--json]`: shows what a
    /// database holds, or a folder of drafts, over a database where both are given; or the targets of a database.
    Show(Showing),
    /// `sign --book B --seed S --ots W --height H [--known] DOC`: signs a file with a leaf that the book keeps for it, and where it is said
    /// so, only by a book and a key that are known.
    Sign(Signing),
    /// `sign (--key NAME .. | --any NAME[,NAME..]) --in DIR [--db FILE | --port P | --anchor ROOT] [--strict] [DOC ..] [--yes] [--again]`:
    /// signs drafts by each key, or each by one key of a list, those that are named or all that the key may sign, without being asked where it
    /// is said so, and where it is said so also another document of a kind and version that the key has signed. What is held is judged by the
    /// root that is given, and where it is said so nothing is signed over what does not meet its rules.
    SignIn(FolderSigning),
    /// `update --db FILE (--port P | [--from FOLDER ..] [--mirror URL ..]) [--within SECONDS] [--json] [--fresh]`: brings a client's own state up
    /// to date.
    Update(Updating),
}

/// Why the words are no task.
#[derive(Debug, Drop, Error)]
pub enum Usage {
    /// The fault text, with its line end.
    #[error("{0}")]
    Text(String),
    /// The help that the words ask for, with its line end.
    #[error("{0}")]
    Help(String),
    #[error("out of memory")]
    OutOfMemory,
}

impl From<AllocError> for Usage {
    ghost use Rattle.std.specs.Prelude.{◌≡◌};
    ghost use Rattle.cli_tasks.specs.declared.tasks.Usage.TheVariants.{OutOfMemory};

    ghost from_gives = { λ _ e. e ≡ OutOfMemory };

    fn from(_: AllocError) -> Usage {
        Usage::OutOfMemory
    }
}

/// Why what `clap` found is no task. It is never help.
#[derive(Debug, Drop, Error)]
pub enum Unread {
    /// The fault text, with its line end.
    #[error("{0}")]
    Text(String),
    #[error("out of memory")]
    OutOfMemory,
}

impl From<AllocError> for Unread {
    fn from(_: AllocError) -> Unread {
        Unread::OutOfMemory
    }
}

impl From<Unread> for Usage {
    ghost use Rattle.cli_tasks.specs.CommandLine.{IsRead};

    ghost from_gives = { IsRead };

    fn from(unread: Unread) -> Usage {
        match unread {
            Unread::Text(text) => Usage::Text(text),
            Unread::OutOfMemory => Usage::OutOfMemory,
        }
    }
}
