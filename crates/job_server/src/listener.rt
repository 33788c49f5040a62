//! What connections come from.

ghost use Rattle.std.specs.Prelude.{◌≡◌, OnOk, OnErr};

use shared_desk::{Door, Passage};
use std::io;
use std::net::{OpenListener, TcpStream};

/// Gives connections, one after the other.
pub trait Listener {
    ghost use Rattle.shared_desk.specs.declared.passage.Passage.{Passage};

    // By which passage the connection came that was taken last.
    ghost passage: { Self → Passage };

    // The steps of a call, from a listener to the next: a connection came; none could be taken.
    ghost opens: { Self → Self → Type 0 };

    ghost fails: { Self → Self → Type 0 };

    /// Takes the next connection. `Interrupted` where something else ended the wait for it: it is asked
    /// again, if the server goes on.
    fn accept(&mut self) -> io::Result<TcpStream>
        ensures opens { OnOk result (opens self.old self.new) }
        ensures fails { OnErr result (fails self.old self.new) };

    /// By which passage the connection came that was taken last.
    fn passage(&self) -> Passage
        ensures { result ≡ passage self.now };
}

/// A listener of std, of whose connections nothing is known.
impl<'a, L: OpenListener<Stream = TcpStream>> Listener for &'a L {
    ghost use Rattle.shared_desk.specs.Grants.{by_port};

    ghost passage = { λ _. by_port };

    ghost opens = { λ _ _. Unit {0} };

    ghost fails = { λ _ _. Unit {0} };

    fn accept(&mut self) -> io::Result<TcpStream> {
        let (stream, _) = OpenListener::accept(*self)?;
        // a reply is one write, which waits for nothing
        let _ = stream.set_nodelay(true);
        Ok(stream)
    }

    fn passage(&self) -> Passage {
        Passage {
            door: Door::Port,
            may_grant: true,
        }
    }
}
