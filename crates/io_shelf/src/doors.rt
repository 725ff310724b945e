//! Peers that come one after the other, as traits.

ghost use Rattle.std.specs.Prelude.{◌≡◌, ◌<◌, ◌≤◌, length, take, true, false, None, IsSome, IfSome, IfOk, OnOk, OnErr, is_some, is_ok};
ghost use Rattle.std.specs.Io.KnownBytes.{IsAtEnd, append_known, prepend_known};
ghost use Rattle.io_shelf.specs.Outside.{HasCause};
ghost use Rattle.io_shelf.specs.Doors.{SeenLink, SeenDoors, IsNewLink, TellsBytes, broken_after, first_link, listened_at, with_finished, without_first};

use crate::outside::Failed;
use stg_net::NoMemory;

/// The bytes of a peer, which are read piece by piece, and bytes that are written to it.
pub trait Link {
    ghost seen: { Self → SeenLink };

    /// Reads the next bytes of what is left, none only at its end.
    fn read(&mut self, buf: &mut [u8]) -> Result<usize, Failed>
        requires { 0 < length buf.old }
        ensures bytes { IfOk result (λ n.
            (seen self.old).left ≡ prepend_known (take n buf.new) (seen self.new).left) }
        ensures within { IfOk result (λ n. n ≤ length buf.new) }
        ensures end { IfOk result (λ n. n ≡ 0 → IsAtEnd (seen self.new).left) }

        // After a failure what is left isn't said, but that it is told where it was told before.
        ensures failed { OnErr result
            (is_some (seen self.new).left ≡ is_some (seen self.old).left) }
        ensures broken { (seen self.new).broken ≡ broken_after result (seen self.old).broken }
        ensures cause { HasCause (seen self.old).faults (seen self.new).faults result }
        ensures kept { (seen self.new).written ≡ (seen self.old).written };

    /// Appends the first bytes of a piece, at least one, and tells how many.
    fn write(&mut self, bytes: &[u8]) -> Result<usize, Failed>
        requires { 0 < length bytes.now }
        ensures taken { IfOk result (λ n.
            (seen self.new).written ≡ append_known (seen self.old).written (take n bytes.now)) }
        ensures within { IfOk result (λ n. (0 < n) × (n ≤ length bytes.now)) }
        ensures failed { OnErr result ((seen self.new).written ≡ (seen self.old).written) }
        ensures cause { HasCause (seen self.old).faults (seen self.new).faults result }
        ensures kept { (seen self.new).left ≡ (seen self.old).left }
        ensures same { (seen self.new).broken ≡ (seen self.old).broken };
}

/// Where links come, one after the other.
pub trait Doors {
    type L: Link;

    ghost seen: { Self → SeenDoors };

    /// Listens at an address. At most one call may come.
    fn listen(&mut self, addr: &str) -> Result<(), Failed>
        requires { (seen self.old).asked ≡ false }
        ensures ok { OnOk result
            ((seen self.new).links ≡ listened_at addr.now (seen self.old).links) }
        ensures err { OnErr result ((seen self.new).links ≡ (seen self.old).links) }
        ensures asked { (seen self.new).asked ≡ true }
        ensures listening { (seen self.new).listening ≡ is_ok result }
        ensures cause { HasCause (seen self.old).faults (seen self.new).faults result };

    /// The next link. The doors listen.
    fn next(&mut self) -> Result<Self::L, Failed>
        requires { (seen self.old).listening ≡ true }

        // It is the first of the links to come, which leaves them. Doors that don't tell their
        // links give new ones.
        ensures value { IfOk result (λ l.
            IfSome (seen self.old).links (λ ls. Self.L.seen l ≡ first_link ls.coming)) }
        ensures told { IfOk result (λ l.
            IsSome (seen self.old).links → TellsBytes (Self.L.seen l)) }
        ensures new { IfOk result (λ l.
            (seen self.old).links ≡ None → IsNewLink (Self.L.seen l)) }
        ensures ok { OnOk result ((seen self.new).links ≡ without_first (seen self.old).links) }
        ensures err { OnErr result ((seen self.new).links ≡ (seen self.old).links) }
        ensures asked { (seen self.new).asked ≡ (seen self.old).asked }
        ensures listening { (seen self.new).listening ≡ (seen self.old).listening }
        ensures cause { HasCause (seen self.old).faults (seen self.new).faults result };

    /// Takes a link back, which is finished. Where memory ran out the link is gone.
    fn finish(&mut self, link: Self::L) -> Result<(), NoMemory>
        ensures ok { OnOk result ((seen self.new).links
            ≡ with_finished (Self.L.seen link) (seen self.old).links) }
        ensures err { OnErr result ((seen self.new).links ≡ (seen self.old).links) }
        ensures asked { (seen self.new).asked ≡ (seen self.old).asked }
        ensures listening { (seen self.new).listening ≡ (seen self.old).listening }
        ensures faults { (seen self.new).faults ≡ (seen self.old).faults };
}
