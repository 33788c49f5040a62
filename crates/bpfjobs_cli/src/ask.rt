//! A request to a server that runs, as words say it.

ghost use Rattle.std.specs.Prelude.{◌≡◌};
ghost use Rattle.bpfjobs_cli.specs.AskWords.{ask_word, words_fit};

use crate::commands::Endpoint;

/// A request to a server that runs, and where that listens.
#[derive(Debug, PartialEq, Eq, Drop)]
pub struct Ask {
    pub endpoint: Endpoint,
    /// Seconds, up to 3600, for which a connection is tried again while nobody listens there.
    pub wait: u32,
    pub question: ServerQuestion,
}

/// A request to a server, without what the input has of it.
#[derive(Debug, PartialEq, Eq, Drop)]
pub enum ServerQuestion {
    /// A tenant's account: the own one, at a tenant's socket that is given no name.
    Account {
        tenant: Option<String>,
    },
    /// A job of a tenant, which the input says.
    Submit {
        tenant: Option<String>,
        key: Option<String>,
    },
    /// How far a job is.
    Status {
        job: u64,
    },
    /// What a job came to.
    Result {
        job: u64,
    },
    /// The jobs from a number on, from the first one if there is none.
    Jobs {
        from: Option<u64>,
    },
    /// Credit for a tenant: 1 to 2,147,483,647.
    Grant {
        tenant: String,
        amount: u32,
    },
    /// What a server counts.
    Server,
    /// The end of a server.
    Stop,
}

/// The word that a question begins with.
#[derive(Clone, Copy, Debug, PartialEq, Eq)]
pub(crate) enum AskWord {
    Account,
    Submit,
    Status,
    Result,
    Jobs,
    Grant,
    Server,
    Stop,
}

/// The reason why the words of `ask` are no request.
#[derive(Clone, Copy, Debug, PartialEq, Eq)]
pub enum AskFault {
    /// They name no place, or two, or no path of a socket.
    Place,
    /// They are no question.
    Words,
}

impl AskFault {
    // The lines that tell it, without their end.
    pub(crate) fn text(self) -> &'static str {
        match self {
            AskFault::Place => {
                "error: ask takes --port <PORT> or --socket <PATH>, a path of 1 to 104 bytes"
            }
            AskFault::Words => {
                "error: ask takes one of these:
  account [TENANT]
  submit [TENANT] [--key KEY]
  status JOB
  result JOB
  jobs [--from NUMBER]
  grant TENANT AMOUNT
  server
  stop"
            }
        }
    }
}

/// The word that a text is, if it is one.
pub(crate) fn ask_word(word: &str) -> Option<AskWord>
    ensures { result ≡ ask_word word.now }
{
    if word == "account" {
        return Some(AskWord::Account);
    }
    if word == "submit" {
        return Some(AskWord::Submit);
    }
    if word == "status" {
        return Some(AskWord::Status);
    }
    if word == "result" {
        return Some(AskWord::Result);
    }
    if word == "jobs" {
        return Some(AskWord::Jobs);
    }
    if word == "grant" {
        return Some(AskWord::Grant);
    }
    if word == "server" {
        return Some(AskWord::Server);
    }
    if word == "stop" {
        return Some(AskWord::Stop);
    }
    None
}

/// Whether what else is there goes with a word: a tenant or a job, an amount, a key, and a first job.
pub(crate) fn words_fit(word: AskWord, subject: bool, amount: bool, key: bool, from: bool) -> bool
    ensures { result ≡ words_fit word subject amount key from }
{
    match word {
        AskWord::Account => !(amount || key || from),
        AskWord::Submit => !(amount || from),
        AskWord::Status => subject && !(amount || key || from),
        AskWord::Result => subject && !(amount || key || from),
        AskWord::Jobs => !(subject || amount || key),
        AskWord::Grant => subject && amount && !(key || from),
        AskWord::Server => !(subject || amount || key || from),
        AskWord::Stop => !(subject || amount || key || from),
    }
}
