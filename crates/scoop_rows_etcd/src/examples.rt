//! Examples that the definitions of an etcd compute.

ghost use Rattle.scoop_rows_etcd.specs.Examples.{AbsentKeys, BothAreFound, BothArePut, NothingIsPut, OthersWrite, TwoCallers};

/// A transaction whose conditions hold puts both values.
pub fn both_are_put()
    ensures { BothArePut }
{}

/// A transaction with a condition that fails puts nothing.
pub fn nothing_is_put()
    ensures { NothingIsPut }
{}

/// A condition with revision 0 holds for an absent key.
pub fn absent_keys()
    ensures { AbsentKeys }
{}

/// Others write before a transaction of a caller that isn't alone.
pub fn others_write()
    ensures { OthersWrite }
{}

/// A caller of one key stays alone while another writes another key.
pub fn two_callers()
    ensures { TwoCallers }
{}

/// A range over a prefix finds exactly its keys.
pub fn both_are_found()
    ensures { BothAreFound }
{}
