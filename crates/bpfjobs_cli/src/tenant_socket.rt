//! A tenant with a socket of its own, and the reasons why words or lines name none.

/// What a line says of a tenant beside its name and its path.
#[derive(Clone, Copy, Debug, PartialEq, Eq)]
pub struct TenantSettings {
    /// Jobs, up to 1,000,000, that it may have open at once, where its line says so. 0: any number.
    pub open_jobs: Option<u32>,
    /// Credit, 1 to 2,147,483,647, that it is granted where nothing was granted to it yet, if its line
    /// says so.
    pub credit: Option<u32>,
}

/// A tenant with a socket of its own.
#[derive(Debug, PartialEq, Eq, Drop)]
pub struct TenantSocket {
    pub name: String,
    /// The path of its socket.
    pub path: String,
    pub settings: TenantSettings,
}

/// The tenants with sockets of their own that the words of `serve` name.
#[derive(Debug, PartialEq, Eq, Drop)]
pub struct TenantWords {
    /// Those of the words `--tenant NAME=PATH`, in their order.
    pub tenants: Vec<TenantSocket>,
    /// The path of a file with more of them, if the words name one.
    pub file: Option<String>,
    /// Jobs, 1 to 1,000,000, that each may have open at once whose line says nothing of it. `None`:
    /// any number.
    pub open_jobs: Option<u32>,
}

/// The reason why a word or a line names no tenant beside those before it.
#[derive(Clone, Copy, Debug, PartialEq, Eq)]
pub enum TenantFault {
    /// It hasn't a name and a path.
    Form,
    /// It is no UTF-8.
    NotText,
    /// The name isn't 1 to 32 of `a` to `z`, `0` to `9`, `_` and `-`.
    Name,
    /// The path isn't 1 to 104 bytes, none of them 0.
    Path,
    /// A tenant before it has this name.
    NameTwice,
    /// A tenant before it has this path.
    PathTwice,
    /// There are 256 tenants before it.
    TooMany,
    /// No number from 0 to 1,000,000 is behind `open-jobs`.
    OpenJobs,
    /// No number from 1 to 2,147,483,647 is behind `credit`.
    Credit,
}

impl TenantFault {
    /// The words that tell it.
    pub fn text(self) -> &'static str {
        match self {
            TenantFault::Form => "it wants a name and a path",
            TenantFault::NotText => "it is no UTF-8",
            TenantFault::Name => "a name has 1 to 32 of a to z, 0 to 9, _ and -",
            TenantFault::Path => "a socket's path has 1 to 104 bytes, none of them 0",
            TenantFault::NameTwice => "the name is there already",
            TenantFault::PathTwice => "the path is there already",
            TenantFault::TooMany => "256 tenants are there already",
            TenantFault::OpenJobs => "open-jobs wants a number from 0 to 1000000",
            TenantFault::Credit => "credit wants a number from 1 to 2147483647",
        }
    }
}

/// The reason why lines name no tenants.
#[derive(Clone, Copy, Debug, PartialEq, Eq)]
pub enum WrongTenant {
    /// The first wrong one, by its number from 1 on, and what is wrong.
    At(u64, TenantFault),
    /// A growth was refused.
    NoMemory,
}
