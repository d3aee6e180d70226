//! What the program can be asked to do.

use mls_cli_check::{Drawing, TreeSource};
use mls_cli_explain::Explanation;
use mls_cli_replay::ReplayView;
use mls_cli_show::Detail;
use mls_cli_text::Form;
use std::alloc::AllocError;

/// A group's cipher suite.
#[derive(Clone, Copy, Debug, PartialEq, Eq)]
pub enum SuiteChoice {
    /// 0xF001, the practice suite.
    Glass,
    /// 0x0001: X25519, AES-128-GCM, SHA-256 and Ed25519 (RFC 9420, 17.1).
    Suite0001,
}

/// Where it is said how far a replay is.
#[derive(Clone, Copy, Debug, PartialEq, Eq)]
pub enum ProgressChoice {
    /// On a terminal, of replays that take more than two seconds.
    OnTerminal,
    /// Wherever the errors go, of each replay.
    Always,
}

/// How the lines of a message or of a check are printed.
#[derive(Clone, Copy, Debug, PartialEq, Eq)]
pub enum Layout {
    /// One below the other.
    Lines,
    /// As the members of one JSON object.
    Json,
}

/// What the program is asked to do, as the words of its command line name it.
#[derive(Clone, Copy, Debug)]
pub enum Job<'a> {
    /// Print the MLSMessage that a file has.
    Show {
        /// The file's path, `-` for the standard input.
        file: &'a str,
        /// How the file has its bytes.
        form: Form,
        /// How much of the message is shown.
        detail: Detail,
        /// How its lines are printed.
        layout: Layout,
    },
    /// Check the ratchet tree that a file has.
    Check {
        /// The file's path, `-` for the standard input.
        file: &'a str,
        /// How the file has its bytes.
        form: Form,
        /// The group's cipher suite.
        suite: SuiteChoice,
        /// Whether signatures and forms of keys are checked under 0x0001 too. Under the practice suite they always are.
        signatures: bool,
        /// The group's id, as hex digits.
        group: &'a str,
        /// How the lines are printed.
        layout: Layout,
    },
    /// Check the GroupInfo that a file has, and the ratchet tree in it.
    CheckGroupInfo {
        /// The file's path, `-` for the standard input.
        file: &'a str,
        /// How the file has its bytes.
        form: Form,
        /// Whether signatures and forms of keys are checked under 0x0001 too. Under the practice suite they always are.
        signatures: bool,
        /// How the lines are printed.
        layout: Layout,
    },
    /// Draw the ratchet tree that a file has.
    Draw {
        /// The file's path, `-` for the standard input.
        file: &'a str,
        /// How the file has its bytes.
        form: Form,
        /// What the file has.
        source: TreeSource,
        /// How it is drawn.
        drawing: Drawing,
    },
    /// Replay the recording that stands as JSON in a file.
    Replay {
        /// The file's path, `-` for the standard input.
        file: &'a str,
        /// The cipher suite that the recording is for.
        suite: SuiteChoice,
        /// What is printed of it.
        view: ReplayView,
        /// Where it is said how far it is.
        progress: ProgressChoice,
    },
    /// Draw the ratchet tree that a member of a recording has in the end.
    DrawMember {
        /// The file's path, `-` for the standard input.
        file: &'a str,
        /// The cipher suite that the recording is for.
        suite: SuiteChoice,
        /// The member's number.
        member: usize,
        /// How it is drawn.
        drawing: Drawing,
        /// Where it is said how far the replay is.
        progress: ProgressChoice,
    },
    /// Judge the test vectors that stand as JSON in a file.
    Vectors {
        /// The file's path, `-` for the standard input.
        file: &'a str,
    },
}

impl<'a> Job<'a> {
    ghost use Rattle.std.specs.Prelude.{◌≡◌};
    ghost use Rattle.mls_cli_serve.specs.Arguments.{file_of, progress_of};

    /// The path of the file that the job reads.
    pub fn file(&self) -> &'a str
        ensures { result.now ≡ file_of self.now }
    {
        match self {
            Job::Show { file, .. }
            | Job::Check { file, .. }
            | Job::CheckGroupInfo { file, .. }
            | Job::Draw { file, .. }
            | Job::Replay { file, .. }
            | Job::DrawMember { file, .. }
            | Job::Vectors { file } => file,
        }
    }

    /// Where it is said how far the job is, if it is a replay.
    pub fn progress(&self) -> ProgressChoice
        ensures { result ≡ progress_of self.now }
    {
        match self {
            Job::Replay { progress, .. } | Job::DrawMember { progress, .. } => *progress,
            Job::Show { .. }
            | Job::Check { .. }
            | Job::CheckGroupInfo { .. }
            | Job::Draw { .. }
            | Job::Vectors { .. } => ProgressChoice::OnTerminal,
        }
    }
}

/// A job, and what is asked for besides.
#[derive(Clone, Copy, Debug)]
pub struct Request<'a> {
    /// The job.
    pub job: Job<'a>,
    /// Whether it is said on the errors where content is refused.
    pub asks_where: bool,
}

/// Why the words of the command line name no job.
#[derive(Debug, Drop)]
pub enum NoJob {
    /// Help or the version is asked for, with this text.
    Shown(String),
    /// A refusal is to be explained.
    Explained {
        /// Its number.
        number: u8,
        /// What is told of it.
        told: Explanation,
    },
    /// The words are a mistake, of which this is said.
    Mistaken(String),
    /// A growth was refused.
    OutOfMemory,
}

impl From<AllocError> for NoJob {
    ghost use Rattle.std.specs.Prelude.{◌≡◌};
    ghost use Rattle.mls_cli_serve.specs.declared.tasks.NoJob.TheVariants.{OutOfMemory};

    ghost from_gives = { λ _ e. e ≡ OutOfMemory };

    fn from(_error: AllocError) -> NoJob {
        NoJob::OutOfMemory
    }
}
