//! The assumptions about a server.

ghost use Rattle.scoop_etcd_gateway.specs.History.{History};

/// The contents of a server after each sequence of calls with their answers, under the keys of these calls. Other keys
/// may stand as they first did: so a caller is alone while others write other keys alone. A function over `W: World` is
/// proved for every server. A clause speaks of a server that answers honestly.
pub trait World: Drop {
    ghost after: { History };
}

/// A server of which nothing is known. It is for programs that state nothing of what stands there.
#[derive(Drop)]
pub struct Unknown;

impl World for Unknown {
    ghost use Rattle.std.specs.Prelude.{None};
    ghost use Rattle.scoop_etcd.specs.Etcd.{contents};

    ghost after = { λ _. contents 0 (λ _. None) };
}
