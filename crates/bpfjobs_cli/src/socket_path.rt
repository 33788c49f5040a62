//! The paths at which a socket can be.

ghost use Rattle.std.specs.Prelude.{◌≡◌, ◌==◌};
ghost use Rattle.std.specs.List.{list_any};
ghost use Rattle.bpfjobs_cli.specs.Tenants.{is_socket_path};

// The system takes 107 bytes. A socket for its owner alone is made in a folder beside its path first,
// which takes three more.
const LONGEST_PATH: usize = 104;

fn has_zero(bytes: &[u8]) -> bool
    ensures { result ≡ list_any (λ byte. byte == 0) bytes.now }
{
    bytes.iter().any(|byte| *byte == 0)
}

/// Whether a socket can be at a path: it has 1 to 104 bytes, none of them 0. An empty path and one that
/// begins with 0 would be names to which every user of the machine may connect.
#[tactic(auto, using(crate::proofs::PathLemmas::path_empty, crate::proofs::PathLemmas::path_long, crate::proofs::PathLemmas::path_holds))]
pub fn is_socket_path(path: &str) -> bool
    ensures { result ≡ is_socket_path path.now }
{
    if path.is_empty() {
        return false;
    }
    if path.len() > LONGEST_PATH {
        return false;
    }
    !has_zero(path.as_bytes())
}
