//! What holds of every link over a port. Each function here does nothing: its contract is the law.
ghost use Rattle.std.specs.Prelude.{◌≡◌, ◌+◌, ℕ, List, None, Option};
ghost use Rattle.padp_link.specs.Neighbours.{session_id};
ghost use Rattle.port_line.specs.declared.port_fault.PortFault.{PortFault};
ghost use Rattle.port_link.specs.Answered.{IsAnswered, IsScanned};
ghost use Rattle.port_link.specs.Calls.{Converses};
ghost use Rattle.port_link.specs.Courses.{Course, Scene};
ghost use Rattle.port_link.specs.Desks.{Event};
ghost use Rattle.port_link.specs.Greetings.{id_behind};

/// Whatever a port gives, in whatever reads: the packets that came are those that its bytes hold.
pub fn packets_are_those_of_the_bytes()
    ensures { (events : List Event) (fault : Option PortFault) (old new : Scene)
        → Course events fault old new → IsScanned events old new }
{}

/// A reply is put together of data that came behind its request, under the request's transaction.
pub fn a_reply_came_behind_its_request()
    ensures { (id : ℕ) (request reply : List ℕ) (old new : Scene)
        → Converses id request reply old new None → IsAnswered id request reply old new }
{}

/// The transactions are those of a session's messages by their numbers.
pub fn transactions_come_round()
    ensures { (number : ℕ) → session_id (number + 1) ≡ id_behind (session_id number) }
{}
